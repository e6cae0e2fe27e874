// What is printed of a run.
ghost use Rattle.std.specs.Prelude.{◌≡◌};
ghost use Rattle.tape.specs.Prints.{with_dark};

use crate::dollars::Dollars;
use crate::run::{Outcome, run};
use book::memory::Memory;
use market::codes::Kind;
use market::orders::{DarkOrder, Fill, LitOrder};
use rules::examples::Example;
use std::io;

// Runs an example over memory of its own, and prints its trades and the shares cancelled, or why it stopped.
pub fn show(rt: &impl Print, example: Example) -> io::Result<()> {
    let mut dark = [DarkOrder::default(); 256];
    let mut lit = [LitOrder::default(); 256];
    let mut fills = [Fill::default(); 513];
    println!(rt; "example {}", example.number())?;
    let mut memory = Memory {
        dark: &mut dark,
        lit: &mut lit,
        fills: &mut fills,
    };
    match run(example, &mut memory) {
        Ok(outcome) => show_outcome(rt, outcome, &fills),
        Err(refused) => println!(rt; "{refused}"),
    }
}

fn show_outcome(rt: &impl Print, outcome: Outcome, fills: &[Fill<u32>]) -> io::Result<()> {
    for fill in fills.iter().take(outcome.trades as usize) {
        show_fill(rt, fill)?;
    }
    println!(rt; "cancelled {}", outcome.cancelled)
}

// Whether a Dark order took part.
fn has_dark(kind: Kind) -> bool
    ensures { result ≡ with_dark kind }
{
    kind != Kind::SdlLit
}

fn show_fill(rt: &impl Print, fill: &Fill<u32>) -> io::Result<()> {
    let dollars = Dollars::from_units(fill.price);
    let mark = if has_dark(fill.kind) { "dark" } else { "lit" };
    println!(rt; "{} {} {dollars} {mark}", fill.number, fill.shares)
}
