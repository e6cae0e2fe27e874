// Before trading starts Dark orders only join; the start of trading settles them.
use crate::bench::*;
use crate::entries::*;
use book::call::DarkEntry;
use std::test::*;

#[test]
fn dark_orders_join_and_the_start_settles_them(rt: HostRuntime) -> Result<(), Fail> {
    let mut b = Bench::pre_open(1_824, 1_832)?;
    b.place_dark(dark_buy(101, 500));
    b.place_dark(dark_sell(201, 500));
    b.darks_are(&[rests(101, 500, 0), rests(201, 500, 0)]);
    b.start(done(1, 0, 0));
    b.fills_are(&[dark_dark(1, 101, 201, 500, 1_828)]);
    b.darks_are(&[]);
    b.verdict(&rt)
}

// 101 sweeps first. Nobody reaches its need of 800, so 201 and 301 are met in turn, and 200 of it go behind 401.
#[test]
fn the_front_of_the_queue_sweeps_first(rt: HostRuntime) -> Result<(), Fail> {
    let mut b = Bench::pre_open(1_824, 1_832)?;
    b.place_dark(dark_buy(101, 800));
    b.place_dark(dark_sell(201, 300));
    b.place_dark(dark_sell(301, 300));
    b.place_dark(dark_buy(401, 100));
    b.start(done(2, 0, 0));
    b.fills_are(&[
        dark_dark(1, 101, 201, 300, 1_828),
        dark_dark(2, 101, 301, 300, 1_828),
    ]);
    b.darks_are(&[rests(401, 100, 0), rests(101, 200, 0)]);
    b.verdict(&rt)
}

// The buy is priced at 1,824 and the sell at 1,832, and the midpoint is 1,828.
#[test]
fn caps_keep_dark_orders_from_the_midpoint(rt: HostRuntime) -> Result<(), Fail> {
    let mut b = Bench::pre_open(1_824, 1_832)?;
    b.place_dark(DarkEntry {
        cap: 1_824,
        ..dark_buy(101, 500)
    });
    b.place_dark(DarkEntry {
        cap: 1_832,
        ..dark_sell(201, 500)
    });
    b.start(done(0, 0, 0));
    b.darks_are(&[rests(101, 500, 0), rests(201, 500, 0)]);
    b.verdict(&rt)
}

#[test]
fn caps_at_the_midpoint_let_dark_orders_meet(rt: HostRuntime) -> Result<(), Fail> {
    let mut b = Bench::pre_open(1_824, 1_832)?;
    b.place_dark(DarkEntry {
        cap: 1_828,
        ..dark_buy(101, 500)
    });
    b.place_dark(DarkEntry {
        cap: 1_828,
        ..dark_sell(201, 500)
    });
    b.start(done(1, 0, 0));
    b.fills_are(&[dark_dark(1, 101, 201, 500, 1_828)]);
    b.verdict(&rt)
}

// 201 has fewer shares than the 500 that 101 asks for; 301 has just as many.
#[test]
fn minimums_keep_dark_orders_apart(rt: HostRuntime) -> Result<(), Fail> {
    let mut b = Bench::pre_open(1_824, 1_832)?;
    b.place_dark(DarkEntry {
        minimum: 500,
        ..dark_buy(101, 500)
    });
    b.place_dark(dark_sell(201, 400));
    b.place_dark(dark_sell(301, 500));
    b.start(done(1, 0, 0));
    b.fills_are(&[dark_dark(1, 101, 301, 500, 1_828)]);
    b.darks_are(&[rests(201, 400, 0)]);
    b.verdict(&rt)
}

#[test]
fn a_new_quote_settles_nothing_before_the_start(rt: HostRuntime) -> Result<(), Fail> {
    let mut b = Bench::pre_open(0, 0)?;
    b.place_dark(dark_buy(101, 500));
    b.place_dark(dark_sell(201, 500));
    b.quote(1_824, 1_832, done(0, 0, 0));
    b.place_lit(lit_buy(301, 100, 1_824));
    b.start(done(1, 0, 0));
    b.lits_are(&[rests(301, 100, 1_824)]);
    b.verdict(&rt)
}
