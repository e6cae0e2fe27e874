// Whom SDL orders meet: size class, seek type, limit, contra preference, and lit orders in the way.
use crate::bench::*;
use crate::entries::*;
use book::call::{DarkEntry, SdlEntry};
use std::test::*;

// The Touch buy is priced at the other markets' bid. 5,000 shares are 50 lots, 5,100 are 51.
#[test]
fn only_a_large_order_trades_at_the_other_markets_bid(rt: HostRuntime) -> Result<(), Fail> {
    let mut b = Bench::open(1_824, 1_832)?;
    b.place_dark(DarkEntry {
        peg: TOUCH,
        ..dark_buy(201, 500)
    });
    b.sdl(sdl_sell(401, 5_000), done(0, 0, 5_000));
    b.sdl(sdl_sell(401, 5_100), done(1, 500, 4_600));
    b.fills_are(&[sdl_dark(1, 201, 401, 500, 1_824)]);
    b.verdict(&rt)
}

#[test]
fn only_a_large_order_trades_at_the_other_markets_offer(rt: HostRuntime) -> Result<(), Fail> {
    let mut b = Bench::open(1_824, 1_832)?;
    b.place_dark(DarkEntry {
        peg: TOUCH,
        ..dark_sell(201, 500)
    });
    b.sdl(sdl_buy(401, 5_000), done(0, 0, 5_000));
    b.sdl(sdl_buy(401, 5_100), done(1, 500, 4_600));
    b.fills_are(&[sdl_dark(1, 401, 201, 500, 1_832)]);
    b.verdict(&rt)
}

// 50 lots both times: 5,000 at 8,000 are 40,000,000, still Small; at 8,004 they are 40,020,000.
#[test]
fn a_limit_can_make_an_order_large_by_its_value(rt: HostRuntime) -> Result<(), Fail> {
    let mut b = Bench::open(8_004, 8_012)?;
    b.place_dark(DarkEntry {
        peg: TOUCH,
        ..dark_buy(201, 500)
    });
    b.sdl(
        SdlEntry {
            limit: 8_000,
            ..sdl_sell(401, 5_000)
        },
        done(0, 0, 5_000),
    );
    b.sdl(
        SdlEntry {
            limit: 8_004,
            ..sdl_sell(401, 5_000)
        },
        done(1, 500, 4_500),
    );
    b.fills_are(&[sdl_dark(1, 201, 401, 500, 8_004)]);
    b.verdict(&rt)
}

// A Midpoint buy at 1,828 and a Touch buy at the best bid of 1,824.
fn two_levels() -> Result<Bench, Fail> {
    let mut b = Bench::open(1_824, 1_832)?;
    b.place_dark(DarkEntry {
        peg: TOUCH,
        ..dark_buy(202, 300)
    });
    b.place_dark(dark_buy(201, 300));
    Ok(b)
}

#[test]
fn an_improving_order_wants_better_than_the_best_bid(rt: HostRuntime) -> Result<(), Fail> {
    let mut b = two_levels()?;
    b.sdl(
        SdlEntry {
            seek: IMPROVING_DARK,
            ..sdl_sell(401, 5_100)
        },
        done(1, 300, 4_800),
    );
    b.fills_are(&[sdl_dark(1, 201, 401, 300, 1_828)]);
    b.darks_are(&[rests(202, 300, 0)]);
    b.verdict(&rt)
}

#[test]
fn an_order_for_all_dark_goes_down_to_the_best_bid(rt: HostRuntime) -> Result<(), Fail> {
    let mut b = two_levels()?;
    b.sdl(
        SdlEntry {
            seek: ALL_DARK,
            ..sdl_sell(401, 5_100)
        },
        done(2, 600, 4_500),
    );
    b.fills_are(&[
        sdl_dark(1, 201, 401, 300, 1_828),
        sdl_dark(2, 202, 401, 300, 1_824),
    ]);
    b.verdict(&rt)
}

// The order for all Dark may not take the lit buy, which bars it from 202. One for Dark and lit takes both.
#[test]
fn a_lit_order_bars_a_dark_order_at_its_price(rt: HostRuntime) -> Result<(), Fail> {
    let mut b = two_levels()?;
    b.place_lit(lit_buy(301, 300, 1_824));
    b.sdl(
        SdlEntry {
            seek: ALL_DARK,
            ..sdl_sell(401, 5_100)
        },
        done(1, 300, 4_800),
    );
    b.fills_are(&[sdl_dark(1, 201, 401, 300, 1_828)]);
    b.lits_are(&[rests(301, 300, 1_824)]);
    b.sdl(sdl_sell(402, 5_100), done(2, 600, 4_500));
    b.fills_are(&[
        sdl_lit(2, 301, 402, 300, 1_824),
        sdl_dark(3, 202, 402, 300, 1_824),
    ]);
    b.verdict(&rt)
}

// The lit buy makes the best bid of 1,828; the cap holds the Dark buy at 1,824, above the other markets' bid of 1,820.
#[test]
fn a_lit_order_bars_a_dark_order_at_a_worse_price(rt: HostRuntime) -> Result<(), Fail> {
    let mut b = Bench::open(1_820, 1_832)?;
    b.place_lit(lit_buy(301, 300, 1_828));
    b.place_dark(DarkEntry {
        cap: 1_824,
        ..dark_buy(201, 300)
    });
    b.sdl(
        SdlEntry {
            seek: ALL_DARK,
            ..sdl_sell(401, 500)
        },
        done(0, 0, 500),
    );
    b.sdl(sdl_sell(402, 500), done(2, 500, 0));
    b.fills_are(&[
        sdl_lit(1, 301, 402, 300, 1_828),
        sdl_dark(2, 201, 402, 200, 1_824),
    ]);
    b.verdict(&rt)
}

#[test]
fn a_limit_may_be_reached_and_not_passed(rt: HostRuntime) -> Result<(), Fail> {
    let mut b = two_levels()?;
    b.sdl(
        SdlEntry {
            limit: 1_832,
            ..sdl_sell(401, 300)
        },
        done(0, 0, 300),
    );
    b.sdl(
        SdlEntry {
            limit: 1_828,
            ..sdl_sell(401, 5_100)
        },
        done(1, 300, 4_800),
    );
    b.verdict(&rt)
}

// A buyer meets the lowest price first: the midpoint, then the Touch sell at 1,832.
#[test]
fn an_sdl_buy_meets_the_lowest_price_first(rt: HostRuntime) -> Result<(), Fail> {
    let mut b = Bench::open(1_824, 1_832)?;
    b.place_dark(DarkEntry {
        peg: TOUCH,
        ..dark_sell(201, 300)
    });
    b.place_dark(dark_sell(202, 300));
    b.sdl(sdl_buy(401, 5_100), done(2, 600, 4_500));
    b.fills_are(&[
        sdl_dark(1, 401, 202, 300, 1_828),
        sdl_dark(2, 401, 201, 300, 1_832),
    ]);
    b.verdict(&rt)
}

// 201 wants Dark orders only, and 301 SDL orders only.
#[test]
fn contra_preferences_are_kept(rt: HostRuntime) -> Result<(), Fail> {
    let mut b = Bench::open(1_824, 1_832)?;
    b.place_dark(DarkEntry {
        contra: DARK_ONLY,
        ..dark_buy(201, 300)
    });
    b.place_dark(DarkEntry {
        contra: SDL_ONLY,
        ..dark_buy(301, 300)
    });
    b.sdl(sdl_sell(401, 500), done(1, 300, 200));
    b.fills_are(&[sdl_dark(1, 301, 401, 300, 1_828)]);
    b.place_dark(DarkEntry {
        contra: SDL_ONLY,
        ..dark_sell(501, 300)
    });
    b.dark(dark_sell(402, 300), done(1, 300, 0));
    b.fills_are(&[dark_dark(2, 201, 402, 300, 1_828)]);
    b.verdict(&rt)
}
