// The book; what it can do is in the modules below.
ghost use Rattle.std.specs.Prelude.{◌≡◌, ◌≤◌, true};
ghost use Rattle.market.specs.Lots.{valid_lot};

use crate::session::Session;
use market::quotes::Away;
use matching::active::Priorities;

// What a book knows besides its session: the lot, the other markets' quote, and the trades of the day.
#[derive(Clone, Copy)]
pub struct Core {
    pub lot: u32,
    pub away: Away,
    pub trades: u32,
}

// A book counts the orders that rest in the tables that it is lent, and owns no memory: the counts stand here, and not with
// the orders, since a host lends its fixed memory anew with each call.
#[derive(Drop)]
pub struct Book<D, L> {
    session: Session,
    core: Core,
    priorities: Priorities<D, L>,
    darks: usize,
    lits: usize,
    ghost lots: { valid_lot core.lot ≡ true },
    ghost few: { darks ≤ 256 },
    ghost fewer: { lits ≤ 256 },
}

pub mod admit;
pub mod calls;
pub mod questions;
pub mod serve;
