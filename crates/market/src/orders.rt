// The records of the book: what rests, and what a trade leaves to tell. A default record fills a place of a lent table before
// anything rests there.
ghost use Rattle.std.specs.Prelude.{◌≡◌, ℕ};
ghost use Rattle.market.specs.declared.orders.Party.{Party as TheParty};
ghost use Rattle.market.specs.Orders.{valid_member, sound_dark, sound_lit, dark_party, lit_party};

use crate::codes::{Contra, Kind, Peg, Side};
use crate::lots::{is_valid_minimum, is_valid_quantity};
use crate::prices::{is_cap_or_none, is_valid_price};
use crate::reference::Reference;

// A hidden order. `cap`, `minimum` and `key` are 0 for none, as members send them.
#[derive(Clone, Copy, Default)]
pub struct DarkOrder<R> {
    pub member: u32,
    pub reference: R,
    pub side: Side,
    pub remaining: u32,
    pub peg: Peg,
    pub cap: u32,
    pub contra: Contra,
    pub minimum: u32,
    pub jitney: bool,
    pub key: u32,
}

// A displayed order.
#[derive(Clone, Copy, Default)]
pub struct LitOrder<R> {
    pub member: u32,
    pub reference: R,
    pub side: Side,
    pub remaining: u32,
    pub price: u32,
    pub jitney: bool,
}

// One end of a trade: whose order, and which.
#[derive(Clone, Copy, Default)]
pub struct Party<R> {
    pub member: u32,
    pub reference: R,
}

// An order that has an owner, and the owner's name for it.
pub trait HasParty<R> {
    ghost party: { Self → TheParty R };

    fn party(&self) -> Party<R>
        ensures { result ≡ party self.now };
}

impl<R: Copy> HasParty<R> for DarkOrder<R> {
    ghost party = { dark_party };

    fn party(&self) -> Party<R> {
        Party {
            member: self.member,
            reference: self.reference,
        }
    }
}

impl<R: Copy> HasParty<R> for LitOrder<R> {
    ghost party = { lit_party };

    fn party(&self) -> Party<R> {
        Party {
            member: self.member,
            reference: self.reference,
        }
    }
}

// A trade.
#[derive(Clone, Copy, Default)]
pub struct Fill<R> {
    pub number: u32,
    pub buyer: Party<R>,
    pub seller: Party<R>,
    pub shares: u32,
    pub price: u32,
    pub kind: Kind,
}

pub fn is_valid_member(member: u32) -> bool
    ensures { result ≡ valid_member member }
{
    member >= 1 && member <= 16
}

impl<R: Reference> DarkOrder<R> {
    // The rule for resting orders.
    #[tactic(auto, unfolding(crate::specs::Orders::sound_dark))]
    pub fn is_sound(&self, lot: u32) -> bool
        ensures { result ≡ sound_dark R.Reference.number lot self.now }
    {
        is_valid_member(self.member)
            && !self.reference.is_zero()
            && is_cap_or_none(self.cap)
            && is_valid_quantity(lot, self.remaining)
            && is_valid_minimum(lot, self.remaining, self.minimum)
    }
}

impl<R: Reference> LitOrder<R> {
    // The rule for resting orders.
    #[tactic(auto, unfolding(crate::specs::Orders::sound_lit))]
    pub fn is_sound(&self, lot: u32) -> bool
        ensures { result ≡ sound_lit R.Reference.number lot self.now }
    {
        is_valid_member(self.member)
            && !self.reference.is_zero()
            && is_valid_price(self.price)
            && is_valid_quantity(lot, self.remaining)
    }
}
