// What a book holds as a call finds it; what is asked of it is in the module below.
ghost use Rattle.std.specs.Prelude.{◌≤◌, length};

use crate::book::Core;
use market::orders::{DarkOrder, LitOrder};

// What rests, as the first places of the two tables hold it: never more than 256 in each; and what the book knows besides.
#[derive(Drop)]
pub struct RestingOrders<'a, R> {
    core: &'a Core,
    darks: &'a [DarkOrder<R>],
    lits: &'a [LitOrder<R>],
    ghost few: { length darks.now ≤ 256 },
    ghost fewer: { length lits.now ≤ 256 },
}

pub mod asked;
