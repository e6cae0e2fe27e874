// Own Member, with and without jitney marks, and Enough Size below it.
use crate::bench::*;
use crate::entries::*;
use book::call::{DarkEntry, LitEntry, SdlEntry};
use std::process::Abort;
use std::test::*;

// Three meetings, each told as it goes: who is active, who rests, and what is to be seen differ in every line.

// Whom an SDL sell of member 3 is to meet of the Dark buys 201 and 301.
fn sdl_meets_dark(rt: &impl Abort, resting: u32, active: u32, met: u32) -> Result<(), Fail> {
    let mut b = Bench::open(1_824, 1_832)?;
    b.place_dark(dark_buy(201, 500));
    b.place_dark(DarkEntry {
        jitney: resting,
        ..dark_buy(301, 500)
    });
    b.sdl(
        SdlEntry {
            jitney: active,
            ..sdl_sell(302, 500)
        },
        done(1, 500, 0),
    );
    b.fill_is(0, sdl_dark(1, met, 302, 500, 1_828));
    b.verdict(rt)
}

// Whom an SDL sell of member 3 is to meet of the lit buys 201 and 301.
fn sdl_meets_lit(rt: &impl Abort, resting: u32, active: u32, met: u32) -> Result<(), Fail> {
    let mut b = Bench::open(1_824, 1_832)?;
    b.place_lit(lit_buy(201, 500, 1_824));
    b.place_lit(LitEntry {
        jitney: resting,
        ..lit_buy(301, 500, 1_824)
    });
    b.sdl(
        SdlEntry {
            jitney: active,
            ..sdl_sell(302, 500)
        },
        done(1, 500, 0),
    );
    b.fill_is(0, sdl_lit(1, met, 302, 500, 1_824));
    b.verdict(rt)
}

// Whom a Dark sell of member 3 is to meet of the Dark buys 201 and 301.
fn dark_meets_dark(rt: &impl Abort, resting: u32, active: u32, met: u32) -> Result<(), Fail> {
    let mut b = Bench::open(1_824, 1_832)?;
    b.place_dark(dark_buy(201, 500));
    b.place_dark(DarkEntry {
        jitney: resting,
        ..dark_buy(301, 500)
    });
    b.dark(
        DarkEntry {
            jitney: active,
            ..dark_sell(302, 500)
        },
        done(1, 500, 0),
    );
    b.fill_is(0, dark_dark(1, met, 302, 500, 1_828));
    b.verdict(rt)
}

#[test]
fn marks_have_no_effect_where_sdl_meets_dark(rt: HostRuntime) -> Result<(), Fail> {
    sdl_meets_dark(&rt, 0, 0, 301)?;
    sdl_meets_dark(&rt, MARKED, 0, 301)?;
    sdl_meets_dark(&rt, 0, MARKED, 301)?;
    sdl_meets_dark(&rt, MARKED, MARKED, 301)
}

#[test]
fn a_marked_order_is_nobodys_where_sdl_meets_lit(rt: HostRuntime) -> Result<(), Fail> {
    sdl_meets_lit(&rt, 0, 0, 301)?;
    sdl_meets_lit(&rt, MARKED, 0, 201)?;
    sdl_meets_lit(&rt, 0, MARKED, 201)?;
    sdl_meets_lit(&rt, MARKED, MARKED, 201)
}

#[test]
fn a_marked_order_is_nobodys_where_dark_meets_dark(rt: HostRuntime) -> Result<(), Fail> {
    dark_meets_dark(&rt, 0, 0, 301)?;
    dark_meets_dark(&rt, MARKED, 0, 201)?;
    dark_meets_dark(&rt, 0, MARKED, 201)?;
    dark_meets_dark(&rt, MARKED, MARKED, 201)
}

// 201 reaches the need of 1,000 and 301 does not; 301 is of the SDL order's member.
#[test]
fn an_own_order_goes_before_one_of_enough_size_in_an_sdl_sweep(
    rt: HostRuntime,
) -> Result<(), Fail> {
    let mut b = Bench::open(1_824, 1_832)?;
    b.place_dark(dark_buy(201, 1_000));
    b.place_dark(dark_buy(301, 200));
    b.sdl(sdl_sell(302, 1_000), done(2, 1_000, 0));
    b.fills_are(&[
        sdl_dark(1, 301, 302, 200, 1_828),
        sdl_dark(2, 201, 302, 800, 1_828),
    ]);
    b.darks_are(&[rests(201, 200, 0)]);
    b.verdict(&rt)
}

#[test]
fn an_own_order_goes_before_one_of_enough_size_in_a_dark_sweep(
    rt: HostRuntime,
) -> Result<(), Fail> {
    let mut b = Bench::open(1_824, 1_832)?;
    b.place_dark(dark_buy(201, 1_000));
    b.place_dark(dark_buy(301, 200));
    b.dark(dark_sell(302, 1_000), done(2, 1_000, 0));
    b.fills_are(&[
        dark_dark(1, 301, 302, 200, 1_828),
        dark_dark(2, 201, 302, 800, 1_828),
    ]);
    b.verdict(&rt)
}

#[test]
fn an_order_of_enough_size_goes_before_the_front_of_the_queue(rt: HostRuntime) -> Result<(), Fail> {
    let mut b = Bench::open(1_824, 1_832)?;
    b.place_dark(dark_buy(201, 200));
    b.place_dark(dark_buy(401, 1_000));
    b.sdl(sdl_sell(501, 1_000), done(1, 1_000, 0));
    b.fills_are(&[sdl_dark(1, 401, 501, 1_000, 1_828)]);
    b.verdict(&rt)
}

#[test]
fn size_counts_for_nothing_among_lit_orders(rt: HostRuntime) -> Result<(), Fail> {
    let mut b = Bench::open(1_824, 1_832)?;
    b.place_lit(lit_buy(201, 100, 1_824));
    b.place_lit(lit_buy(401, 500, 1_824));
    b.sdl(sdl_sell(501, 500), done(2, 500, 0));
    b.fills_are(&[
        sdl_lit(1, 201, 501, 100, 1_824),
        sdl_lit(2, 401, 501, 400, 1_824),
    ]);
    b.verdict(&rt)
}
