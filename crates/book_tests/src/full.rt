// A member rests at most sixteen orders in a table.
use crate::bench::*;
use crate::entries::*;
use book::call::DarkEntry;
use std::test::*;

// Sixteen Dark Touch buys of 100 by member 1: 101 to 116.
fn crowd_darks(b: &mut Bench) {
    for i in 101..117 {
        b.place_dark(DarkEntry {
            peg: TOUCH,
            ..dark_buy(i, 100)
        });
    }
}

// Sixteen lit buys of 100 by member 1: 101 to 116.
fn crowd_lits(b: &mut Bench, price: u32) {
    for i in 101..117 {
        b.place_lit(lit_buy(i, 100, price));
    }
}

#[test]
fn a_seventeenth_dark_order_of_a_member_is_refused(rt: HostRuntime) -> Result<(), Fail> {
    let mut b = Bench::open(1_824, 1_832)?;
    crowd_darks(&mut b);
    b.dark_is(15, rests(116, 100, 0));
    b.refuses_dark(dark_buy(117, 100), 14);
    b.place_dark(dark_buy(201, 100));
    b.place_lit(lit_buy(117, 100, 1_820));
    b.dark_is(16, rests(201, 100, 0));
    b.verdict(&rt)
}

#[test]
fn a_seventeenth_lit_order_of_a_member_is_refused(rt: HostRuntime) -> Result<(), Fail> {
    let mut b = Bench::open(1_824, 1_832)?;
    crowd_lits(&mut b, 1_820);
    b.lit_is(15, rests(116, 100, 1_820));
    b.refuses_lit(lit_buy(117, 100, 1_820), 14);
    b.place_lit(lit_buy(201, 100, 1_820));
    b.place_dark(dark_buy(117, 100));
    b.lit_is(16, rests(201, 100, 1_820));
    b.verdict(&rt)
}

// 117 would trade away against 201, and is refused before it looks for anybody.
#[test]
fn a_dark_order_that_would_trade_away_is_refused_too(rt: HostRuntime) -> Result<(), Fail> {
    let mut b = Bench::open(1_824, 1_832)?;
    crowd_darks(&mut b);
    b.place_dark(dark_buy(201, 100));
    b.refuses_dark(dark_sell(117, 100), 14);
    b.dark(dark_sell(301, 100), done(1, 100, 0));
    b.verdict(&rt)
}

#[test]
fn a_trade_makes_room_for_another_order(rt: HostRuntime) -> Result<(), Fail> {
    let mut b = Bench::open(1_824, 1_832)?;
    crowd_lits(&mut b, 1_824);
    b.sdl(sdl_sell(201, 100), done(1, 100, 0));
    b.fills_are(&[sdl_lit(1, 101, 201, 100, 1_824)]);
    b.place_lit(lit_buy(117, 100, 1_824));
    b.lit_is(0, rests(102, 100, 1_824));
    b.lit_is(15, rests(117, 100, 1_824));
    b.verdict(&rt)
}

#[test]
fn ground_12_comes_before_ground_14(rt: HostRuntime) -> Result<(), Fail> {
    let mut b = Bench::open(1_824, 1_832)?;
    crowd_darks(&mut b);
    b.refuses_dark(
        DarkEntry {
            minimum: 50,
            ..dark_buy(117, 100)
        },
        12,
    );
    b.verdict(&rt)
}

#[test]
fn ground_13_comes_before_ground_14(rt: HostRuntime) -> Result<(), Fail> {
    let mut b = Bench::open(1_824, 1_832)?;
    crowd_lits(&mut b, 1_820);
    b.refuses_lit(lit_buy(117, 100, 1_832), 13);
    b.verdict(&rt)
}

// The seventeenth is a sell of member 2 until the host writes it over to member 1.
#[test]
fn a_table_with_seventeen_orders_of_a_member_is_refused(rt: HostRuntime) -> Result<(), Fail> {
    let mut b = Bench::open(1_824, 1_832)?;
    crowd_darks(&mut b);
    b.place_dark(dark_sell(201, 100));
    b.dark[16].member = 1;
    b.refuses_dark(dark_sell(301, 100), 3);
    b.dark[16].member = 2;
    b.place_dark(dark_sell(301, 100));
    b.verdict(&rt)
}
