// Locked, crossed and one-sided quotes, and what a quote that moves sets free.
use crate::bench::*;
use crate::entries::*;
use book::call::{DarkEntry, SdlEntry};
use std::process::Abort;
use std::test::*;

// A lit buy at this price makes the best bid, and the other markets' offer comes down to 1,824.
fn only_lit_trades(rt: &impl Abort, price: u32) -> Result<(), Fail> {
    let mut b = Bench::open(1_820, 1_832)?;
    b.place_lit(lit_buy(201, 300, price));
    b.place_dark(DarkEntry {
        peg: TOUCH,
        ..dark_buy(301, 500)
    });
    b.place_dark(dark_buy(302, 500));
    b.quote(1_820, 1_824, done(0, 0, 0));
    b.sdl(sdl_sell(401, 500), done(1, 300, 200));
    b.fills_are(&[sdl_lit(1, 201, 401, 300, price)]);
    b.darks_are(&[rests(301, 500, 0), rests(302, 500, 0)]);
    b.verdict(rt)
}

#[test]
fn only_lit_orders_trade_under_a_locked_or_crossed_quote(rt: HostRuntime) -> Result<(), Fail> {
    only_lit_trades(&rt, 1_824)?;
    only_lit_trades(&rt, 1_828)
}

// Under the locked quote neither has a price; then the midpoint is 1,826.
#[test]
fn dark_orders_settle_when_a_locked_quote_opens(rt: HostRuntime) -> Result<(), Fail> {
    let mut b = Bench::open(1_824, 1_824)?;
    b.place_dark(dark_buy(301, 500));
    b.place_dark(dark_sell(401, 300));
    b.quote(1_820, 1_832, done(1, 0, 0));
    b.fills_are(&[dark_dark(1, 301, 401, 300, 1_826)]);
    b.darks_are(&[rests(301, 200, 0)]);
    b.verdict(&rt)
}

// The SDL orders are Large (51 lots), so a price at the other markets' quote will do.
#[test]
fn a_bid_alone_prices_touch_buys_and_nothing_else(rt: HostRuntime) -> Result<(), Fail> {
    let mut b = Bench::open(1_824, 0)?;
    b.place_dark(dark_buy(201, 500));
    b.place_dark(DarkEntry {
        peg: TOUCH,
        ..dark_buy(202, 500)
    });
    b.place_dark(DarkEntry {
        peg: TOUCH,
        ..dark_sell(203, 500)
    });
    b.sdl(sdl_sell(401, 5_100), done(1, 500, 4_600));
    b.fills_are(&[sdl_dark(1, 202, 401, 500, 1_824)]);
    b.sdl(
        SdlEntry {
            limit: 1_832,
            ..sdl_buy(402, 5_100)
        },
        done(0, 0, 5_100),
    );
    b.darks_are(&[rests(201, 500, 0), rests(203, 500, 0)]);
    b.verdict(&rt)
}

#[test]
fn an_offer_alone_prices_touch_sells_and_nothing_else(rt: HostRuntime) -> Result<(), Fail> {
    let mut b = Bench::open(0, 1_832)?;
    b.place_dark(dark_sell(201, 500));
    b.place_dark(DarkEntry {
        peg: TOUCH,
        ..dark_sell(202, 500)
    });
    b.sdl(sdl_buy(401, 5_100), done(1, 500, 4_600));
    b.fills_are(&[sdl_dark(1, 401, 202, 500, 1_832)]);
    b.darks_are(&[rests(201, 500, 0)]);
    b.verdict(&rt)
}

// 198 and 204: the midpoint is 201, which no order could be priced at by hand.
#[test]
fn a_midpoint_may_lie_between_the_prices_of_the_grid(rt: HostRuntime) -> Result<(), Fail> {
    let mut b = Bench::open(198, 204)?;
    b.place_dark(dark_buy(101, 500));
    b.dark(dark_sell(201, 500), done(1, 500, 0));
    b.fills_are(&[dark_dark(1, 101, 201, 500, 201)]);
    b.verdict(&rt)
}

// The midpoint of 1,826 is below the cap of the sell; the lit buy lifts it to 1,828.
#[test]
fn dark_orders_settle_when_a_lit_order_moves_the_midpoint(rt: HostRuntime) -> Result<(), Fail> {
    let mut b = Bench::open(1_820, 1_832)?;
    b.place_dark(dark_buy(201, 500));
    b.place_dark(DarkEntry {
        cap: 1_828,
        ..dark_sell(301, 500)
    });
    b.lit(lit_buy(401, 100, 1_824), done(1, 0, 0));
    b.fills_are(&[dark_dark(1, 201, 301, 500, 1_828)]);
    b.verdict(&rt)
}

// The midpoint of 1,830 is above the cap of the buy. The SDL order spends the lit buy that made the bid of 1,828, and
// settling finds a midpoint of 1,826.
#[test]
fn dark_orders_settle_when_a_lit_order_is_spent(rt: HostRuntime) -> Result<(), Fail> {
    let mut b = Bench::open(1_820, 1_832)?;
    b.place_lit(lit_buy(401, 100, 1_828));
    b.place_dark(DarkEntry {
        cap: 1_828,
        contra: DARK_ONLY,
        ..dark_buy(201, 500)
    });
    b.place_dark(dark_sell(301, 500));
    b.sdl(sdl_sell(501, 100), done(2, 100, 0));
    b.fills_are(&[
        sdl_lit(1, 401, 501, 100, 1_828),
        dark_dark(2, 201, 301, 500, 1_826),
    ]);
    b.verdict(&rt)
}
