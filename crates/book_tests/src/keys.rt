// Self-trade keys keep apart the Dark orders of one member, and nobody else.
use crate::bench::*;
use crate::entries::*;
use book::call::DarkEntry;
use std::process::Abort;
use std::test::*;

// A Dark sell of this reference and key is to be answered so, where a Dark buy of member 1 rests.
fn meeting(
    rt: &impl Abort,
    resting_key: u32,
    reference: u32,
    key: u32,
    wanted: Answer,
) -> Result<(), Fail> {
    let mut b = Bench::open(1_824, 1_832)?;
    b.place_dark(DarkEntry {
        key: resting_key,
        ..dark_buy(101, 500)
    });
    b.dark(
        DarkEntry {
            key,
            ..dark_sell(reference, 500)
        },
        wanted,
    );
    b.verdict(rt)
}

#[test]
fn the_same_member_and_key_do_not_meet(rt: HostRuntime) -> Result<(), Fail> {
    meeting(&rt, 7, 102, 7, done(0, 0, 0))
}

#[test]
fn other_keys_and_members_meet(rt: HostRuntime) -> Result<(), Fail> {
    meeting(&rt, 0, 102, 0, done(1, 500, 0))?;
    meeting(&rt, 7, 102, 8, done(1, 500, 0))?;
    meeting(&rt, 7, 102, 0, done(1, 500, 0))?;
    meeting(&rt, 0, 102, 7, done(1, 500, 0))?;
    meeting(&rt, 7, 201, 7, done(1, 500, 0))
}

// The sell passes by 101 to meet 201. An SDL order has no key, and meets 101.
#[test]
fn a_key_bars_one_order_and_lets_the_next_be_met(rt: HostRuntime) -> Result<(), Fail> {
    let mut b = Bench::open(1_824, 1_832)?;
    b.place_dark(DarkEntry {
        key: 7,
        ..dark_buy(101, 500)
    });
    b.place_dark(dark_buy(201, 200));
    b.dark(
        DarkEntry {
            key: 7,
            ..dark_sell(102, 300)
        },
        done(1, 200, 0),
    );
    b.fills_are(&[dark_dark(1, 201, 102, 200, 1_828)]);
    b.darks_are(&[rests(101, 500, 0), rests(102, 100, 0)]);
    b.sdl(sdl_sell(103, 500), done(1, 500, 0));
    b.fills_are(&[sdl_dark(2, 101, 103, 500, 1_828)]);
    b.verdict(&rt)
}
