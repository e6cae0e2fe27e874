// The quote, and the prices of Dark orders under it; 0 is no price, for the reason that `prices` gives.
ghost use Rattle.std.specs.Prelude.{◌≡◌, ◌≤◌};
ghost use Rattle.market.specs.Quotes.{higher, lower, best_bid, best_offer, quote_of, locked_or_crossed, midpoint_of, peg_price, capped, dark_price, other_side_of, opposing, away_of, nearest_lit};

use crate::codes::{Peg, Side};
use crate::orders::LitOrder;

// The best bid and offer of the other markets, 0 for none.
#[derive(Clone, Copy)]
pub struct Away {
    pub bid: u32,
    pub offer: u32,
}

// The best bid and offer of all markets, this book among them, and those of the others; 0 for none.
#[derive(Clone, Copy)]
pub struct Quote {
    pub bid: u32,
    pub offer: u32,
    pub away: Away,
}

// The greater of `best` and the price of a lit buy.
fn raise<R: Copy>(best: u32, l: &LitOrder<R>) -> u32
    ensures { result ≡ higher best l.now }
{
    match l.side {
        Side::Buy => best.max(l.price),
        Side::Sell => best,
    }
}

// The smaller of `best`, where it is set, and the price of a lit sell.
fn lessen<R: Copy>(best: u32, l: &LitOrder<R>) -> u32
    ensures { result ≡ lower best l.now }
{
    match l.side {
        Side::Buy => best,
        Side::Sell => {
            if best == 0 || l.price < best {
                l.price
            } else {
                best
            }
        }
    }
}

// The greatest of `away` and the lit buys.
#[tactic(auto, unfolding(crate::specs::Quotes::best_bid))]
pub fn highest_bid<R: Copy>(away: u32, lits: &[LitOrder<R>]) -> u32
    ensures { result ≡ best_bid away lits.now }
{
    lits.iter().fold(away, raise)
}

// The smallest of `away`, where it is set, and the lit sells.
#[tactic(auto, unfolding(crate::specs::Quotes::best_offer))]
pub fn lowest_offer<R: Copy>(away: u32, lits: &[LitOrder<R>]) -> u32
    ensures { result ≡ best_offer away lits.now }
{
    lits.iter().fold(away, lessen)
}

// The best price of the lit orders that an order of this side could meet, 0 for none.
#[tactic(auto, unfolding(crate::specs::Quotes::nearest_lit))]
pub fn nearest<R: Copy>(side: Side, lits: &[LitOrder<R>]) -> u32
    ensures { result ≡ nearest_lit side lits.now }
{
    match side {
        Side::Buy => lowest_offer(0, lits),
        Side::Sell => highest_bid(0, lits),
    }
}

impl Quote {
    // The quote with these lit orders resting.
    pub fn of<R: Copy>(away: Away, lits: &[LitOrder<R>]) -> Quote
        ensures { result ≡ quote_of away lits.now }
    {
        Quote {
            bid: highest_bid(away.bid, lits),
            offer: lowest_offer(away.offer, lits),
            away,
        }
    }

    fn is_locked_or_crossed(&self) -> bool
        ensures { result ≡ locked_or_crossed self.now }
    {
        self.bid != 0 && self.offer != 0 && self.offer <= self.bid
    }

    // Half of bid and offer, 0 where one is not set.
    pub fn midpoint(&self) -> u32
        ensures { result ≡ midpoint_of self.now }
    {
        if self.bid == 0 || self.offer == 0 {
            0
        } else {
            self.bid.midpoint(self.offer)
        }
    }

    fn pegged(&self, side: Side, peg: Peg) -> u32
        ensures { result ≡ peg_price self.now side peg }
    {
        match (peg, side) {
            (Peg::Midpoint, _) => self.midpoint(),
            (Peg::Touch, Side::Buy) => self.bid,
            (Peg::Touch, Side::Sell) => self.offer,
        }
    }

    // The price of a Dark order with these terms, 0 for none.
    #[tactic(auto, unfolding(crate::specs::Quotes::dark_price))]
    pub fn dark_price(&self, side: Side, peg: Peg, cap: u32) -> u32
        ensures { result ≡ dark_price self.now side peg cap }
    {
        if self.is_locked_or_crossed() {
            return 0;
        }
        cap_price(side, cap, self.pegged(side, peg))
    }

    // The best quote that an order of this side would trade against.
    pub fn against(&self, side: Side) -> u32
        ensures { result ≡ opposing self.now side }
    {
        across(side, self.bid, self.offer)
    }

    // The other markets' quote that an order of this side could trade against there.
    pub fn away_against(&self, side: Side) -> u32
        ensures { result ≡ away_of self.now.away side }
    {
        across(side, self.away.bid, self.away.offer)
    }
}

// Of a bid and an offer, the one that an order of this side trades against.
fn across(side: Side, bid: u32, offer: u32) -> u32
    ensures { result ≡ other_side_of side bid offer }
{
    match side {
        Side::Buy => offer,
        Side::Sell => bid,
    }
}

// The less aggressive of the pegged price and the cap.
fn cap_price(side: Side, cap: u32, pegged: u32) -> u32
    ensures { result ≡ capped side cap pegged }
{
    if pegged == 0 || cap == 0 {
        return pegged;
    }
    match side {
        Side::Buy => pegged.min(cap),
        Side::Sell => pegged.max(cap),
    }
}
