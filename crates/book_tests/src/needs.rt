// The need that Enough Size asks for is taken at the first choice at a price, and kept there.
use crate::bench::*;
use crate::entries::*;
use book::call::DarkEntry;
use std::test::*;

// A need taken afresh would be 300 after the first trade, and 301 would be met before 202.
#[test]
fn a_dark_order_keeps_its_need(rt: HostRuntime) -> Result<(), Fail> {
    let mut b = Bench::open(1_824, 1_832)?;
    b.place_dark(dark_buy(201, 600));
    b.place_dark(dark_buy(202, 100));
    b.place_dark(dark_buy(301, 300));
    b.dark(dark_sell(401, 900), done(3, 900, 0));
    b.fills_are(&[
        dark_dark(1, 201, 401, 600, 1_828),
        dark_dark(2, 202, 401, 100, 1_828),
        dark_dark(3, 301, 401, 200, 1_828),
    ]);
    b.darks_are(&[rests(301, 100, 0)]);
    b.verdict(&rt)
}

// 5,100 shares are 51 lots: Large. At 1,824 the need is the 4,100 that remain there, which 301 reaches.
#[test]
fn a_sweep_takes_a_new_need_at_the_next_price(rt: HostRuntime) -> Result<(), Fail> {
    let mut b = Bench::open(1_824, 1_832)?;
    b.place_dark(DarkEntry {
        peg: TOUCH,
        ..dark_buy(202, 500)
    });
    b.place_dark(DarkEntry {
        peg: TOUCH,
        ..dark_buy(301, 4_100)
    });
    b.place_dark(dark_buy(201, 1_000));
    b.sdl(sdl_sell(501, 5_100), done(2, 5_100, 0));
    b.fills_are(&[
        sdl_dark(1, 201, 501, 1_000, 1_828),
        sdl_dark(2, 301, 501, 4_100, 1_824),
    ]);
    b.darks_are(&[rests(202, 500, 0)]);
    b.verdict(&rt)
}

// At 1,824 the need stays at 4,100. Taken afresh it would be 2,500 after 202, and 301 would be met before 203.
#[test]
fn an_sdl_order_keeps_its_need_at_the_next_price(rt: HostRuntime) -> Result<(), Fail> {
    let mut b = Bench::open(1_824, 1_832)?;
    b.place_dark(dark_buy(201, 1_000));
    b.place_dark(DarkEntry {
        peg: TOUCH,
        ..dark_buy(202, 1_600)
    });
    b.place_dark(DarkEntry {
        peg: TOUCH,
        ..dark_buy(203, 100)
    });
    b.place_dark(DarkEntry {
        peg: TOUCH,
        ..dark_buy(301, 2_500)
    });
    b.sdl(sdl_sell(501, 5_100), done(4, 5_100, 0));
    b.fills_are(&[
        sdl_dark(1, 201, 501, 1_000, 1_828),
        sdl_dark(2, 202, 501, 1_600, 1_824),
        sdl_dark(3, 203, 501, 100, 1_824),
        sdl_dark(4, 301, 501, 2_400, 1_824),
    ]);
    b.darks_are(&[rests(301, 100, 0)]);
    b.verdict(&rt)
}
