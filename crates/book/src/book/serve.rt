// An accepted request, on the memory that a call brings.
ghost use Rattle.std.specs.Prelude.{◌≡◌, ◌≤◌, true};
ghost use Rattle.book.specs.Grounds.{enough_memory};
ghost use Rattle.book.specs.Steps.{facility_at, state_in, lengths_of, HasPlace, Ran, SameMemory};

use super::Book;
use crate::call::Request;
use crate::memory::Memory;
use crate::session::Session;
use market::reference::Reference;
use priority::priority::Priority;
use queue::queue::Queue;

impl<D: Priority, L: Priority> Book<D, L> {
    // What an accepted request does, and settling in the session `after` it: the three counts of its answer.
    pub(crate) fn serve<R: Reference>(
        &mut self,
        after: Session,
        request: &Request<R>,
        memory: &mut Memory<R>,
    ) -> (u32, u32, u32)
        requires trades { self.old.core.trades ≤ 999487 }
        requires memory { enough_memory (lengths_of memory.old) ≡ true }
        requires place { HasPlace request.now self.old.darks 256 self.old.lits 256 }
        ensures ran { Ran (facility_at R.Reference.number D.Priority.order L.Priority.order self.old) self.old.session self.new.session (state_in self.old memory.old).contents request.now memory.old.fills.now result.0 result.1 result.2 (state_in self.new memory.new).contents memory.new.fills.now }
        ensures session { self.new.session ≡ after }
        ensures lot { self.new.core.lot ≡ self.old.core.lot }
        ensures priorities { self.new.priorities ≡ self.old.priorities }
        ensures same { SameMemory memory.old memory.new }
    {
        let mut darks = Queue::new(memory.dark, self.darks);
        let mut lits = Queue::new(memory.lit, self.lits);
        let mut fills = Queue::new(memory.fills, 0);
        let counts = self.core.work(
            &self.priorities,
            self.session,
            after,
            request,
            &mut darks,
            &mut lits,
            &mut fills,
        );
        self.session = after;
        self.darks = darks.len();
        self.lits = lits.len();
        counts
    }
}
