// The grounds of refusal: each on every call that can meet it, and the first where two hold.
use crate::bench::*;
use crate::entries::*;
use book::book::Book;
use book::call::{DarkEntry, LitEntry, SdlEntry};
use market::ground::Ground;
use std::test::*;

// One trade made; 400 of the Dark buy 101 and the lit buy 301 rest.
fn busy() -> Result<Bench, Fail> {
    let mut b = Bench::open(1_824, 1_832)?;
    b.place_dark(dark_buy(101, 500));
    b.place_lit(lit_buy(301, 400, 1_820));
    b.sdl(sdl_sell(201, 100), done(1, 100, 0));
    b.fills_are(&[sdl_dark(1, 101, 201, 100, 1_828)]);
    b.darks_are(&[rests(101, 400, 0)]);
    Ok(b)
}

// The ground that refuses a book of this lot, if any does.
fn ground_of(lot: u32) -> Option<u32> {
    Book::new(lot, facility()).err().map(Ground::number)
}

#[test]
fn ground_1_for_an_unlisted_lot(rt: HostRuntime) -> Result<(), Fail> {
    for lot in [200, 0, 1_001] {
        assert_eq!(rt; ground_of(lot), Some(1));
    }
    for lot in [100, 500, 1_000] {
        assert_eq!(rt; ground_of(lot), None);
    }
    Ok(())
}

#[test]
fn ground_5_for_a_member_out_of_range(rt: HostRuntime) -> Result<(), Fail> {
    let mut b = busy()?;
    b.refuses_dark(
        DarkEntry {
            member: 0,
            ..dark_buy(102, 500)
        },
        5,
    );
    b.refuses_dark(
        DarkEntry {
            member: 17,
            ..dark_buy(102, 500)
        },
        5,
    );
    b.refuses_sdl(
        SdlEntry {
            member: 0,
            ..sdl_sell(102, 500)
        },
        5,
    );
    b.refuses_sdl(
        SdlEntry {
            member: 17,
            ..sdl_sell(102, 500)
        },
        5,
    );
    b.refuses_lit(
        LitEntry {
            member: 0,
            ..lit_buy(102, 500, 1_820)
        },
        5,
    );
    b.refuses_lit(
        LitEntry {
            member: 17,
            ..lit_buy(102, 500, 1_820)
        },
        5,
    );
    b.place_lit(lit_buy(1_601, 500, 1_820));
    b.verdict(&rt)
}

#[test]
fn ground_6_for_the_codes_of_a_dark_entry(rt: HostRuntime) -> Result<(), Fail> {
    let mut b = busy()?;
    b.refuses_dark(
        DarkEntry {
            side: 0,
            ..dark_buy(102, 500)
        },
        6,
    );
    b.refuses_dark(
        DarkEntry {
            side: 3,
            ..dark_buy(102, 500)
        },
        6,
    );
    b.refuses_dark(
        DarkEntry {
            peg: 0,
            ..dark_buy(102, 500)
        },
        6,
    );
    b.refuses_dark(
        DarkEntry {
            peg: 3,
            ..dark_buy(102, 500)
        },
        6,
    );
    b.refuses_dark(
        DarkEntry {
            contra: 0,
            ..dark_buy(102, 500)
        },
        6,
    );
    b.refuses_dark(
        DarkEntry {
            contra: 4,
            ..dark_buy(102, 500)
        },
        6,
    );
    b.refuses_dark(
        DarkEntry {
            jitney: 2,
            ..dark_buy(102, 500)
        },
        6,
    );
    b.verdict(&rt)
}

#[test]
fn ground_6_for_the_codes_of_other_entries(rt: HostRuntime) -> Result<(), Fail> {
    let mut b = busy()?;
    b.refuses_sdl(
        SdlEntry {
            side: 0,
            ..sdl_sell(102, 500)
        },
        6,
    );
    b.refuses_sdl(
        SdlEntry {
            side: 3,
            ..sdl_sell(102, 500)
        },
        6,
    );
    b.refuses_sdl(
        SdlEntry {
            seek: 0,
            ..sdl_sell(102, 500)
        },
        6,
    );
    b.refuses_sdl(
        SdlEntry {
            seek: 4,
            ..sdl_sell(102, 500)
        },
        6,
    );
    b.refuses_sdl(
        SdlEntry {
            jitney: 2,
            ..sdl_sell(102, 500)
        },
        6,
    );
    b.refuses_lit(
        LitEntry {
            side: 0,
            ..lit_buy(102, 500, 1_820)
        },
        6,
    );
    b.refuses_lit(
        LitEntry {
            side: 3,
            ..lit_buy(102, 500, 1_820)
        },
        6,
    );
    b.refuses_lit(
        LitEntry {
            jitney: 2,
            ..lit_buy(102, 500, 1_820)
        },
        6,
    );
    b.verdict(&rt)
}

#[test]
fn ground_7_for_an_early_sdl_entry_and_a_second_start(rt: HostRuntime) -> Result<(), Fail> {
    let mut b = Bench::pre_open(1_824, 1_832)?;
    b.place_dark(dark_buy(101, 500));
    b.refuses_sdl(sdl_sell(201, 500), 7);
    b.start(done(0, 0, 0));
    b.refuses_start(7);
    b.sdl(sdl_sell(201, 500), done(1, 500, 0));
    b.verdict(&rt)
}

#[test]
fn ground_8_for_no_reference_and_for_one_that_rests(rt: HostRuntime) -> Result<(), Fail> {
    let mut b = busy()?;
    b.refuses_dark(
        DarkEntry {
            reference: 0,
            ..dark_buy(102, 500)
        },
        8,
    );
    b.refuses_sdl(
        SdlEntry {
            reference: 0,
            ..sdl_sell(102, 500)
        },
        8,
    );
    b.refuses_lit(
        LitEntry {
            reference: 0,
            ..lit_buy(102, 500, 1_820)
        },
        8,
    );
    b.refuses_dark(dark_buy(101, 500), 8);
    b.refuses_lit(lit_buy(101, 500, 1_820), 8);
    b.refuses_sdl(sdl_sell(101, 500), 8);
    b.refuses_lit(lit_buy(301, 500, 1_820), 8);
    b.refuses_dark(dark_buy(301, 500), 8);
    b.refuses_sdl(sdl_sell(301, 500), 8);
    b.verdict(&rt)
}

// Member 2 may call an order as member 1 does, and the reference of an SDL order or of an order that has left is free.
#[test]
fn no_ground_8_for_a_reference_that_is_free(rt: HostRuntime) -> Result<(), Fail> {
    let mut b = busy()?;
    b.place_dark(DarkEntry {
        member: 2,
        ..dark_buy(101, 100)
    });
    b.sdl(sdl_sell(201, 100), done(1, 100, 0));
    b.sdl(sdl_sell(201, 400), done(1, 400, 0));
    b.place_dark(dark_buy(101, 300));
    b.verdict(&rt)
}

#[test]
fn ground_10_for_a_quantity_out_of_range(rt: HostRuntime) -> Result<(), Fail> {
    let mut b = busy()?;
    b.refuses_dark(dark_buy(102, 0), 10);
    b.refuses_dark(dark_buy(102, 150), 10);
    b.refuses_dark(dark_buy(102, 1_000_100), 10);
    b.refuses_sdl(sdl_sell(102, 0), 10);
    b.refuses_sdl(sdl_sell(102, 150), 10);
    b.refuses_sdl(sdl_sell(102, 1_000_100), 10);
    b.refuses_lit(lit_buy(102, 0, 1_820), 10);
    b.refuses_lit(lit_buy(102, 150, 1_820), 10);
    b.refuses_lit(lit_buy(102, 1_000_100, 1_820), 10);
    b.place_dark(dark_buy(102, 1_000_000));
    b.verdict(&rt)
}

#[test]
fn ground_10_for_a_quantity_between_greater_lots(rt: HostRuntime) -> Result<(), Fail> {
    let mut b = Bench::of_lot(500)?;
    b.refuses_dark(dark_buy(101, 600), 10);
    b.refuses_dark(
        DarkEntry {
            minimum: 100,
            ..dark_buy(101, 500)
        },
        12,
    );
    b.place_dark(DarkEntry {
        minimum: 500,
        ..dark_buy(101, 1_500)
    });
    b.verdict(&rt)
}

#[test]
fn ground_11_for_prices_off_the_grid(rt: HostRuntime) -> Result<(), Fail> {
    let mut b = busy()?;
    b.refuses_quote(1, 0, 11);
    b.refuses_quote(1_824, 1_830, 11);
    b.refuses_dark(
        DarkEntry {
            cap: 199,
            ..dark_buy(102, 500)
        },
        11,
    );
    b.refuses_dark(
        DarkEntry {
            cap: 4_000_004,
            ..dark_buy(102, 500)
        },
        11,
    );
    b.refuses_sdl(
        SdlEntry {
            limit: 202,
            ..sdl_sell(102, 500)
        },
        11,
    );
    b.refuses_lit(lit_buy(102, 500, 0), 11);
    b.refuses_lit(lit_buy(102, 500, 1_822), 11);
    b.place_lit(lit_buy(102, 500, 198));
    b.verdict(&rt)
}

#[test]
fn ground_12_for_a_minimum_out_of_range(rt: HostRuntime) -> Result<(), Fail> {
    let mut b = busy()?;
    b.refuses_dark(
        DarkEntry {
            minimum: 50,
            ..dark_buy(102, 500)
        },
        12,
    );
    b.refuses_dark(
        DarkEntry {
            minimum: 600,
            ..dark_buy(102, 500)
        },
        12,
    );
    b.place_dark(DarkEntry {
        minimum: 500,
        ..dark_buy(102, 500)
    });
    b.verdict(&rt)
}

#[test]
fn ground_13_for_a_lit_order_that_crosses_other_markets(rt: HostRuntime) -> Result<(), Fail> {
    let mut b = Bench::pre_open(1_824, 1_832)?;
    b.refuses_lit(lit_buy(101, 500, 1_832), 13);
    b.refuses_lit(lit_buy(101, 500, 1_836), 13);
    b.refuses_lit(lit_sell(101, 500, 1_824), 13);
    b.refuses_lit(lit_sell(101, 500, 1_820), 13);
    b.quote(0, 0, done(0, 0, 0));
    b.place_lit(lit_buy(101, 500, 4_000_000));
    b.verdict(&rt)
}

// The lit sell 301 makes the best offer of 1,832, and the lit buy 302 the best bid of 1,828.
#[test]
fn ground_13_for_a_lit_order_that_crosses_a_lit_order(rt: HostRuntime) -> Result<(), Fail> {
    let mut b = Bench::open(1_820, 1_840)?;
    b.place_lit(lit_sell(301, 500, 1_832));
    b.refuses_lit(lit_buy(101, 500, 1_832), 13);
    b.place_lit(lit_buy(302, 500, 1_828));
    b.refuses_lit(lit_sell(101, 500, 1_828), 13);
    b.lits_are(&[rests(301, 500, 1_832), rests(302, 500, 1_828)]);
    b.verdict(&rt)
}

#[test]
fn the_first_of_two_grounds_of_a_dark_entry(rt: HostRuntime) -> Result<(), Fail> {
    let mut b = busy()?;
    b.refuses_dark(
        DarkEntry {
            member: 17,
            side: 3,
            ..dark_buy(102, 500)
        },
        5,
    );
    b.refuses_dark(
        DarkEntry {
            peg: 3,
            reference: 0,
            ..dark_buy(102, 500)
        },
        6,
    );
    b.refuses_dark(dark_buy(101, 150), 8);
    b.refuses_dark(
        DarkEntry {
            cap: 199,
            ..dark_buy(102, 150)
        },
        10,
    );
    b.refuses_dark(
        DarkEntry {
            cap: 199,
            minimum: 50,
            ..dark_buy(102, 500)
        },
        11,
    );
    b.verdict(&rt)
}

#[test]
fn the_first_of_two_grounds_of_other_entries(rt: HostRuntime) -> Result<(), Fail> {
    let mut b = busy()?;
    b.refuses_lit(
        LitEntry {
            reference: 0,
            ..lit_buy(102, 500, 1_832)
        },
        8,
    );
    b.refuses_lit(lit_buy(102, 150, 1_832), 10);
    b.refuses_lit(lit_buy(102, 500, 1_834), 11);
    b.refuses_sdl(
        SdlEntry {
            limit: 202,
            ..sdl_sell(102, 150)
        },
        10,
    );
    b.verdict(&rt)
}

#[test]
fn the_first_of_two_grounds_of_an_early_entry(rt: HostRuntime) -> Result<(), Fail> {
    let mut b = Bench::pre_open(1_824, 1_832)?;
    b.refuses_sdl(
        SdlEntry {
            seek: 4,
            ..sdl_sell(201, 500)
        },
        6,
    );
    b.refuses_sdl(
        SdlEntry {
            reference: 0,
            ..sdl_sell(201, 500)
        },
        7,
    );
    b.verdict(&rt)
}
