// Whether what rests could rest, and the grounds of refusal that ask about it.
ghost use Rattle.std.specs.Prelude.{◌≡◌, ◌≤◌, length, Some};
ghost use Rattle.std.specs.Result.{result_err};
ghost use Rattle.std.specs.List.{list_all};
ghost use Rattle.market.specs.Quotes.{quote_of};
ghost use Rattle.book.specs.Requests.{request_of};
ghost use Rattle.book.specs.Grounds.{times_named, fine, sound_tables, taken, reference_fails as reference_failing, crossing_fails as crossing_failing, full_fails as full_failing, first_of, field_checks};
ghost use Rattle.book.specs.Steps.{contents_on};

use super::RestingOrders;
use crate::book::Core;
use crate::call::{Call, Request};
use crate::grounds::{crosses, minimum_fails, price_fails, quantity_fails};
use crate::tables::{Listed, count_named, count_of};
use market::ground::Ground;
use market::orders::{DarkOrder, LitOrder};
use market::quotes::Quote;
use market::reference::Reference;

impl<'a, R: Reference> RestingOrders<'a, R> {
    pub fn new(
        core: &'a Core,
        darks: &'a [DarkOrder<R>],
        lits: &'a [LitOrder<R>],
    ) -> RestingOrders<'a, R>
        requires few { length darks.now ≤ 256 }
        requires fewer { length lits.now ≤ 256 }
        ensures core { result.core.now ≡ core.now }
        ensures darks { result.darks.now ≡ darks.now }
        ensures lits { result.lits.now ≡ lits.now }
    {
        RestingOrders { core, darks, lits }
    }

    // How many orders the member has under this reference in the two tables.
    pub fn count_references(&self, member: u32, reference: &R) -> usize
        ensures { result ≡ times_named R.Reference.number self.now.darks.now self.now.lits.now member reference.now }
    {
        count_named(self.darks, member, reference) + count_named(self.lits, member, reference)
    }

    // Whether an order of the table `own` may stand there.
    fn is_fine<T: Listed<R>>(&self, own: &[T], order: &T) -> bool
        ensures { result ≡ fine R.Reference.number (λ x. (T.HasParty.party x).member) (λ x. (T.HasParty.party x).reference) (T.Listed.sound self.now.core.now.lot) own.now self.now.darks.now self.now.lits.now order.now }
    {
        order.may_rest(self.core.lot)
            && count_of(own, order.party().member) <= 16
            && self.count_references(order.party().member, &order.party().reference) <= 1
    }

    // Whether every order of the table `own` may stand there.
    fn is_table_fine<T: Listed<R>>(&self, own: &[T]) -> bool
        ensures { result ≡ list_all (fine R.Reference.number (λ x. (T.HasParty.party x).member) (λ x. (T.HasParty.party x).reference) (T.Listed.sound self.now.core.now.lot) own.now self.now.darks.now self.now.lits.now) own.now }
    {
        own.iter().all(|order| self.is_fine(own, order))
    }

    // Whether what rests could rest.
    #[tactic(auto, unfolding(crate::specs::Grounds::sound_tables))]
    pub fn is_sound(&self) -> bool
        ensures { result ≡ sound_tables R.Reference.number self.now.core.now.lot self.now.darks.now self.now.lits.now }
    {
        self.is_table_fine(self.darks) && self.is_table_fine(self.lits)
    }

    // Whether an entry may not use this reference.
    fn is_taken(&self, member: u32, reference: &R) -> bool
        ensures { result ≡ taken R.Reference.number (contents_on self.now) member reference.now }
    {
        reference.is_zero() || self.count_references(member, reference) != 0
    }

    // Ground 8.
    fn reference_fails(&self, call: &Call<R>) -> bool
        ensures { result ≡ reference_failing R.Reference.number (contents_on self.now) call.now }
    {
        match call {
            Call::Quote(_) | Call::Start => false,
            Call::Dark(e) => self.is_taken(e.member, &e.reference),
            Call::Sdl(e) => self.is_taken(e.member, &e.reference),
            Call::Lit(e) => self.is_taken(e.member, &e.reference),
        }
    }

    // Ground 13.
    fn crossing_fails(&self, request: &Request<R>) -> bool
        ensures { result ≡ crossing_failing (quote_of self.now.core.now.away self.now.lits.now) request.now }
    {
        match request {
            Request::Lit(l) => crosses(l.side, &Quote::of(self.core.away, self.lits), l.price),
            Request::Quote(_) | Request::Dark(_) | Request::Sdl(_) | Request::Start => false,
        }
    }

    // Ground 14.
    fn full_fails(&self, call: &Call<R>) -> bool
        ensures { result ≡ full_failing (contents_on self.now) call.now }
    {
        match call {
            Call::Dark(e) => count_of(self.darks, e.member) >= 16,
            Call::Lit(e) => count_of(self.lits, e.member) >= 16,
            Call::Quote(_) | Call::Sdl(_) | Call::Start => false,
        }
    }

    // The grounds that a call's fields can meet once its codes are read: a test and its ground in each line of the list, in
    // the list's order.
    pub fn check_fields(&self, call: &Call<R>, request: &Request<R>) -> Result<(), Ground>
        requires request { request_of call.now ≡ Some request.now }
        ensures { result_err result ≡ first_of (field_checks R.Reference.number self.now.core.now.lot (contents_on self.now) call.now) }
    {
        if self.reference_fails(call) {
            return Err(Ground::Reference);
        }
        if quantity_fails(self.core.lot, call) {
            return Err(Ground::Quantity);
        }
        if price_fails(call) {
            return Err(Ground::Price);
        }
        if minimum_fails(self.core.lot, call) {
            return Err(Ground::Minimum);
        }
        if self.crossing_fails(request) {
            return Err(Ground::Crossing);
        }
        if self.full_fails(call) {
            return Err(Ground::Full);
        }
        Ok(())
    }
}
