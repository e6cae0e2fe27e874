// Asked for a worked example by its digit, prints the trades that the engine makes of it.
#![tactic(auto)]

mod dollars;
mod input;
mod run;
mod show;

use crate::input::asked;
use crate::show::show;
use std::io;
use std::io::Read;

// A digit, a line end of two bytes, and one byte more, by which too long a text is seen.
const ENOUGH: u64 = 4;

fn main(rt: HostRuntime) -> io::Result<()> {
    // What holds of the engine that runs here, as theorems on the contracts of these functions.
    rules::cases_stand();
    rules::choices_stand();
    rules::needs_stand();
    rules::setups_stand();
    let mut text = Vec::new(rt.alloc());
    let _ = rt.stdin().take(ENOUGH).read_to_end(&mut text)?;
    match asked(text.as_slice()) {
        Ok(example) => show(&rt, example),
        Err(none) => println!(rt; "{none}"),
    }
}
