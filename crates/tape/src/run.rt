// A worked example run through the engine.
ghost use Rattle.std.specs.Prelude.{◌≡◌};
ghost use Rattle.book.specs.Steps.{New, SameMemory, lengths_of};
ghost use Rattle.rules.specs.Cases.{memory as places};
ghost use Rattle.tape.specs.Runs.{Brought, ComesTo};

use book::book::Book;
use book::call::Call;
use book::memory::Memory;
use market::ground::Ground;
use matching::active::Priorities;
use priority::priority::{EnoughSize, OwnMember, Pile};
use rules::examples::Example;
use std::fmt;

// The facility's book: Dark orders go by Own Member, then by Enough Size, and lit orders by Own Member.
type FacilityBook = Book<Pile<OwnMember, EnoughSize>, OwnMember>;

const LOT: u32 = 100;

// What the call that trades came to: how many trades, and how many shares of its order were cancelled.
#[derive(Clone, Copy)]
pub struct Outcome {
    pub trades: u32,
    pub cancelled: u32,
}

// A call of an example that was refused, by its place among the calls.
#[derive(Clone, Copy)]
pub struct Refused {
    pub call: usize,
    pub ground: Ground,
}

impl fmt::Display for Refused {
    fn fmt<W: fmt::Write>(&self, f: &mut fmt::Formatter<W>) -> fmt::Result {
        write!(
            f,
            "call {} refused: ground {}",
            self.call,
            self.ground.number()
        )
    }
}

// A book at lot 100, which is a lot that there is.
fn new_book() -> FacilityBook
    ensures { New 100 result.priorities result }
{
    let dark = Pile {
        upper: OwnMember,
        lower: EnoughSize,
    };
    let priorities = Priorities {
        dark,
        lit: OwnMember,
    };
    Book::new(LOT, priorities).unwrap()
}

// Every call in turn, up to the first that is refused.
fn bring_about(
    book: &mut FacilityBook,
    memory: &mut Memory<u32>,
    calls: &[Call<u32>],
) -> Result<(), Refused>
    requires lot { book.old.core.lot ≡ 100 }
    requires memory { lengths_of memory.old ≡ places }
    ensures lot { book.new.core.lot ≡ 100 }
    ensures memory { lengths_of memory.new ≡ places }
    ensures same { SameMemory memory.old memory.new }
    ensures brought { Brought calls.now book.old memory.old result book.new memory.new }
{
    for (i, call) in calls.iter().enumerate() {
        let place = i + 1;
        let _ = book.apply(memory, call).map_err(|ground| Refused {
            call: place,
            ground,
        })?;
    }
    Ok(())
}

// An example's calls on a new book, over memory that stays the caller's; its trades are the first places of the list.
pub fn run(example: Example, memory: &mut Memory<u32>) -> Result<Outcome, Refused>
    requires { lengths_of memory.old ≡ places }
    ensures same { SameMemory memory.old memory.new }
    ensures trades { ComesTo example result memory.new.fills.now }
{
    let mut book = new_book();
    let calls = example.setup();
    bring_about(&mut book, memory, calls)?;
    let last = calls.len() + 1;
    let (trades, _, cancelled) = book
        .apply(memory, &example.last())
        .map_err(|ground| Refused { call: last, ground })?;
    Ok(Outcome { trades, cancelled })
}
