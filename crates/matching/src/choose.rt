// The choice: one text for every kind of resting order and every priority.
ghost use Rattle.std.specs.Prelude.{◌≡◌, ℕ, Bool};
ghost use Rattle.market.specs.declared.codes.Kind.{Kind};
ghost use Rattle.priority.specs.declared.standing.RestingView.{RestingView};
ghost use Rattle.matching.specs.Choice.{need_at, level_of, asking, preferred, pick, Splits};
ghost use Rattle.matching.specs.Meets.{may_meet_dark, may_meet_lit, price_of_dark, price_of_lit, view_of_dark, view_of_lit};

use crate::active::{Active, DarkTerms, Found, LastLevel, LitTerms};
use crate::meets::{meets_dark_order, meets_lit_order};
use market::codes::Kind;
use market::orders::{DarkOrder, LitOrder};
use market::prices::is_better;
use priority::priority::Priority;
use priority::standing::{ActiveView, RestingView};

// A resting order, as the choice sees it. `Terms` decide whether it may be met, at what price, and what a priority sees.
// The records of the two tables are flat, as a host writes them, so that each impl, here and in `Resting`, reads fields of
// its own.
pub trait Offer: Sized {
    type Terms;

    ghost able: { Self.Terms → Self → Bool };

    ghost costs: { Self.Terms → Self → ℕ };

    ghost shown: { Self.Terms → Self → RestingView };

    fn may_be_met(&self, terms: &Self::Terms) -> bool
        ensures { result ≡ able terms.now self.now };

    fn price(&self, terms: &Self::Terms) -> u32
        ensures { result ≡ costs terms.now self.now };

    fn view(&self, terms: &Self::Terms) -> RestingView
        ensures { result ≡ shown terms.now self.now };
}

impl<R: Copy> Offer for DarkOrder<R> {
    type Terms = DarkTerms<R>;

    ghost able = { may_meet_dark };

    ghost costs = { price_of_dark };

    ghost shown = { view_of_dark };

    fn may_be_met(&self, terms: &DarkTerms<R>) -> bool {
        meets_dark_order(terms, self)
    }

    fn price(&self, terms: &DarkTerms<R>) -> u32 {
        terms.quote.dark_price(self.side, self.peg, self.cap)
    }

    fn view(&self, _terms: &DarkTerms<R>) -> RestingView {
        RestingView {
            member: self.member,
            jitney: self.jitney,
            remaining: self.remaining,
        }
    }
}

impl<R: Copy> Offer for LitOrder<R> {
    type Terms = LitTerms<R>;

    ghost able = { may_meet_lit };

    ghost costs = { price_of_lit };

    ghost shown = { view_of_lit };

    fn may_be_met(&self, terms: &LitTerms<R>) -> bool {
        meets_lit_order(terms, self)
    }

    fn price(&self, _terms: &LitTerms<R>) -> u32 {
        self.price
    }

    fn view(&self, _terms: &LitTerms<R>) -> RestingView {
        RestingView {
            member: self.member,
            jitney: self.jitney,
            remaining: self.remaining,
        }
    }
}

// An active order before one table: the kind of a fill there, and the level that its sweep last chose at there.
#[derive(Clone, Copy)]
pub struct Asker<R> {
    pub active: Active<R>,
    pub kind: Kind,
    pub last: Option<LastLevel>,
}

impl<R: Copy> Asker<R> {
    // What remained when the sweep first chose at this price.
    pub fn need(&self, price: u32) -> u32
        ensures { result ≡ need_at self.now.last price self.now.active.remaining }
    {
        match self.last {
            Some(level) if level.price == price => level.need,
            Some(_) | None => self.active.remaining,
        }
    }

    // The level now chosen at.
    pub fn level(&self, price: u32) -> LastLevel
        ensures { result ≡ level_of self.now price }
    {
        let need = self.need(price);
        LastLevel { price, need }
    }

    // What a priority is told of the active order, for orders priced `price`.
    fn ask(&self, price: u32) -> ActiveView
        ensures { result ≡ asking self.now.active self.now.kind self.now.last price }
    {
        ActiveView {
            member: self.active.member,
            jitney: self.active.jitney,
            need: self.need(price),
            kind: self.kind,
        }
    }

    // Whether `x` is to be met before `y`, which stands earlier in the queue.
    fn prefers<T: Offer, P: Priority>(&self, p: &P, terms: &T::Terms, x: &T, y: &T) -> bool
        ensures { result ≡ preferred self.now (P.Priority.order p.now) (T.Offer.costs terms.now) (T.Offer.shown terms.now) x.now y.now }
    {
        let px = x.price(terms);
        let py = y.price(terms);
        if px != py {
            return is_better(self.active.side, px, py);
        }
        p.compare(&self.ask(px), &x.view(terms), &y.view(terms))
            .is_lt()
    }
}

// The best of the orders that may be met, with its price.
pub fn choose<R: Copy, T: Offer, P: Priority>(
    orders: &[T],
    terms: &T::Terms,
    asker: &Asker<R>,
    p: &P,
) -> Option<Found>
    ensures { Splits (T.Offer.costs terms.now) orders.now result (pick (T.Offer.able terms.now) (preferred asker.now (P.Priority.order p.now) (T.Offer.costs terms.now) (T.Offer.shown terms.now)) orders.now) }
{
    // Read from the back, so that of those level the earliest is left; and by place, since the best so far is a place.
    let mut best: Option<usize> = None;
    for i in (0..orders.len()).rev() {
        let order = &orders[i];
        if order.may_be_met(terms) {
            best = match best {
                Some(j) if asker.prefers(p, terms, &orders[j], order) => Some(j),
                Some(_) | None => Some(i),
            };
        }
    }
    let at = best?;
    Some(Found {
        at,
        price: orders[at].price(terms),
    })
}
