// What the two tables have in common.
ghost use Rattle.std.specs.Prelude.{◌≡◌, ℕ, ◌≤◌, Bool, length, count_by};
ghost use Rattle.market.specs.Orders.{sound_dark, sound_lit};
ghost use Rattle.book.specs.Grounds.{of_member, named};

use market::orders::{DarkOrder, HasParty, LitOrder};
use market::reference::Reference;

// An order that rests in a table: whose it is stands in its party, and its own rule says what may rest.
pub trait Listed<R: Reference>: HasParty<R> {
    ghost sound: { ℕ → Self → Bool };

    fn may_rest(&self, lot: u32) -> bool
        ensures { result ≡ sound lot self.now };
}

impl<R: Reference> Listed<R> for DarkOrder<R> {
    ghost sound = { sound_dark R.Reference.number };

    fn may_rest(&self, lot: u32) -> bool {
        self.is_sound(lot)
    }
}

impl<R: Reference> Listed<R> for LitOrder<R> {
    ghost sound = { sound_lit R.Reference.number };

    fn may_rest(&self, lot: u32) -> bool {
        self.is_sound(lot)
    }
}

// The two counts are asked for each order that rests, with every call. They fold by an `if`, which is as quick as a loop:
// `filter` and `count` are not, nor is a sum of ones. `wrapping_add` never wraps, as no list is so long.

// How many orders the member has in a table.
pub fn count_of<R: Reference, T: HasParty<R>>(orders: &[T], member: u32) -> usize
    ensures count { result ≡ count_by (of_member (λ x. (T.HasParty.party x).member) member) orders.now }
    ensures most { result ≤ length orders.now }
{
    orders.iter().fold(0, |n: usize, order| {
        if order.party().member == member {
            n.wrapping_add(1)
        } else {
            n
        }
    })
}

// How many orders the member has in a table under this reference. The two come apart: an entry has them as fields of its own,
// and a pair would be made only to be taken apart.
pub fn count_named<R: Reference, T: HasParty<R>>(orders: &[T], member: u32, reference: &R) -> usize
    ensures count { result ≡ count_by (named R.Reference.number (λ x. (T.HasParty.party x).member) (λ x. (T.HasParty.party x).reference) member reference.now) orders.now }
    ensures most { result ≤ length orders.now }
{
    orders.iter().fold(0, |n: usize, order| {
        if order.party().member == member && order.party().reference.same(reference) {
            n.wrapping_add(1)
        } else {
            n
        }
    })
}
