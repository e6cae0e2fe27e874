// Making a book, and the calls on it.
ghost use Rattle.book.specs.declared.call.Call.TheVariants.{Quote as Quoting, Dark as EnteringDark, Sdl as EnteringSdl, Lit as EnteringLit, Start as Starting};
ghost use Rattle.book.specs.Requests.{request_of};
ghost use Rattle.book.specs.Grounds.{ground_under, Admits};
ghost use Rattle.book.specs.Steps.{facility_at, state_in, lengths_of, Served, Made};

use super::{Book, Core};
use crate::call::{Call, DarkEntry, LitEntry, Request, SdlEntry};
use crate::memory::Memory;
use crate::session::Session;
use market::ground::Ground;
use market::lots::is_valid_lot;
use market::quotes::Away;
use market::reference::Reference;
use matching::active::Priorities;
use priority::priority::Priority;

impl<D: Copy, L: Copy> Book<D, L> {
    // A book in Pre-Open with nothing resting, or ground 1.
    pub fn new(lot: u32, priorities: Priorities<D, L>) -> Result<Book<D, L>, Ground>
        ensures { Made lot priorities result }
    {
        if !is_valid_lot(lot) {
            return Err(Ground::Lot);
        }
        let core = Core {
            lot,
            away: Away { bid: 0, offer: 0 },
            trades: 0,
        };
        Ok(Book {
            session: Session::PreOpen,
            core,
            priorities,
            darks: 0,
            lits: 0,
        })
    }
}

impl<D, L> Book<D, L> {
    // The request that a call makes of this book, or the first ground that holds against it.
    fn admit<R: Reference>(&self, memory: &Memory<R>, call: &Call<R>) -> Result<Request<R>, Ground>
        ensures { Admits (ground_under R.Reference.number self.now.core.lot (state_in self.now memory.now) (lengths_of memory.now) call.now) (request_of call.now) result }
    {
        self.core.admit(
            self.session,
            memory.dark,
            self.darks,
            memory.lit,
            self.lits,
            memory.fills.len(),
            call,
        )
    }
}

impl<D: Priority, L: Priority> Book<D, L> {
    // One call, over the memory that it brings: the fills made, the shares that the call's own order traded, and the shares
    // that an SDL entry took away; or why it is refused. The counts are a plain tuple, for a host to take apart: a struct would
    // be one more name for the same three numbers.
    pub fn apply<R: Reference>(
        &mut self,
        memory: &mut Memory<R>,
        call: &Call<R>,
    ) -> Result<(u32, u32, u32), Ground>
        ensures { Served (facility_at R.Reference.number D.Priority.order L.Priority.order self.old) call.now self.old memory.old result self.new memory.new }
    {
        let request = self.admit(memory, call)?;
        // An admitted call moves the session; it is moved here and not in `admit`, which changes nothing.
        let mut after = self.session;
        let _ = after.advance(call);
        Ok(self.serve(after, &request, memory))
    }

    // The calls by their names, each a line over `apply`: a name and its fields are what a host reads.

    // Call 1: the best bid and offer of the other markets.
    pub fn quote<R: Reference>(
        &mut self,
        memory: &mut Memory<R>,
        away: Away,
    ) -> Result<(u32, u32, u32), Ground>
        ensures { Served (facility_at R.Reference.number D.Priority.order L.Priority.order self.old) (Quoting away) self.old memory.old result self.new memory.new }
    {
        self.apply(memory, &Call::Quote(away))
    }

    // Call 2: a Dark order is entered.
    pub fn enter_dark<R: Reference>(
        &mut self,
        memory: &mut Memory<R>,
        entry: DarkEntry<R>,
    ) -> Result<(u32, u32, u32), Ground>
        ensures { Served (facility_at R.Reference.number D.Priority.order L.Priority.order self.old) (EnteringDark entry) self.old memory.old result self.new memory.new }
    {
        self.apply(memory, &Call::Dark(entry))
    }

    // Call 3: an SDL order is entered.
    pub fn enter_sdl<R: Reference>(
        &mut self,
        memory: &mut Memory<R>,
        entry: SdlEntry<R>,
    ) -> Result<(u32, u32, u32), Ground>
        ensures { Served (facility_at R.Reference.number D.Priority.order L.Priority.order self.old) (EnteringSdl entry) self.old memory.old result self.new memory.new }
    {
        self.apply(memory, &Call::Sdl(entry))
    }

    // Call 4: a lit order is entered.
    pub fn enter_lit<R: Reference>(
        &mut self,
        memory: &mut Memory<R>,
        entry: LitEntry<R>,
    ) -> Result<(u32, u32, u32), Ground>
        ensures { Served (facility_at R.Reference.number D.Priority.order L.Priority.order self.old) (EnteringLit entry) self.old memory.old result self.new memory.new }
    {
        self.apply(memory, &Call::Lit(entry))
    }

    // Call 7: trading starts.
    pub fn start<R: Reference>(&mut self, memory: &mut Memory<R>) -> Result<(u32, u32, u32), Ground>
        ensures { Served (facility_at R.Reference.number D.Priority.order L.Priority.order self.old) Starting self.old memory.old result self.new memory.new }
    {
        self.apply(memory, &Call::Start)
    }
}
