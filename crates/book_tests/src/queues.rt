// What a trade leaves of the orders, and where they stand.
use crate::bench::*;
use crate::entries::*;
use book::call::DarkEntry;
use std::test::*;

// Both orders reach the need of each SDL order, so the front of the queue is met. The minimum of 400 falls to the 200
// that remain of 201; the minimum of 100 is still reached by the 100 that remain of 301.
#[test]
fn a_partly_traded_dark_order_goes_to_the_end_with_a_lowered_minimum(
    rt: HostRuntime,
) -> Result<(), Fail> {
    let mut b = Bench::open(1_824, 1_832)?;
    b.place_dark(DarkEntry {
        minimum: 400,
        ..dark_buy(201, 500)
    });
    b.place_dark(DarkEntry {
        minimum: 100,
        ..dark_buy(301, 300)
    });
    b.sdl(sdl_sell(401, 300), done(1, 300, 0));
    b.fills_are(&[sdl_dark(1, 201, 401, 300, 1_828)]);
    b.darks_are(&[rests(301, 300, 100), rests(201, 200, 200)]);
    b.sdl(sdl_sell(402, 200), done(1, 200, 0));
    b.fills_are(&[sdl_dark(2, 301, 402, 200, 1_828)]);
    b.darks_are(&[rests(201, 200, 200), rests(301, 100, 100)]);
    b.verdict(&rt)
}

// 401 trades 600 and asks for 300 then, which 202 does not have and 203 has.
#[test]
fn a_partly_traded_dark_entry_joins_with_a_lowered_minimum(rt: HostRuntime) -> Result<(), Fail> {
    let mut b = Bench::open(1_824, 1_832)?;
    b.place_dark(dark_buy(201, 600));
    b.place_dark(dark_buy(202, 200));
    b.dark(
        DarkEntry {
            minimum: 600,
            ..dark_sell(401, 900)
        },
        done(1, 600, 0),
    );
    b.fills_are(&[dark_dark(1, 201, 401, 600, 1_828)]);
    b.darks_are(&[rests(202, 200, 0), rests(401, 300, 300)]);
    b.dark(dark_buy(203, 300), done(1, 300, 0));
    b.fills_are(&[dark_dark(2, 203, 401, 300, 1_828)]);
    b.darks_are(&[rests(202, 200, 0)]);
    b.verdict(&rt)
}

#[test]
fn a_partly_traded_lit_order_keeps_its_place(rt: HostRuntime) -> Result<(), Fail> {
    let mut b = Bench::open(1_824, 1_832)?;
    b.place_lit(lit_buy(201, 500, 1_824));
    b.place_lit(lit_buy(301, 300, 1_824));
    b.sdl(sdl_sell(401, 200), done(1, 200, 0));
    b.fills_are(&[sdl_lit(1, 201, 401, 200, 1_824)]);
    b.lits_are(&[rests(201, 300, 1_824), rests(301, 300, 1_824)]);
    b.sdl(sdl_sell(402, 400), done(2, 400, 0));
    b.fills_are(&[
        sdl_lit(2, 201, 402, 300, 1_824),
        sdl_lit(3, 301, 402, 100, 1_824),
    ]);
    b.lits_are(&[rests(301, 200, 1_824)]);
    b.verdict(&rt)
}
