// The memory that a call brings: how much, and what the host may have written into it.
ghost use Rattle.std.specs.Prelude.{◌≤◌};

use crate::bench::*;
use crate::entries::*;
use book::book::Book;
use book::call::DarkEntry;
use book::memory::Memory;
use market::ground::Ground;
use market::orders::{DarkOrder, Fill, LitOrder};
use std::test::*;

// A new book's first call over so many places.
fn start_over(darks: usize, lits: usize, fills: usize) -> Result<(u32, u32, u32), Ground>
    requires darks { darks ≤ 257 }
    requires lits { lits ≤ 257 }
    requires fills { fills ≤ 514 }
{
    let mut dark = [DarkOrder::<u32>::default(); 257];
    let mut lit = [LitOrder::default(); 257];
    let mut made = [Fill::default(); 514];
    let mut memory = Memory {
        dark: &mut dark[0..darks],
        lit: &mut lit[0..lits],
        fills: &mut made[0..fills],
    };
    Book::new(100, facility())?.start(&mut memory)
}

// The ground that refuses it, if any does.
fn ground_over(darks: usize, lits: usize, fills: usize) -> Option<u32>
    requires darks { darks ≤ 257 }
    requires lits { lits ≤ 257 }
    requires fills { fills ≤ 514 }
{
    start_over(darks, lits, fills).err().map(Ground::number)
}

#[test]
fn ground_3_for_tables_of_the_wrong_length(rt: HostRuntime) -> Result<(), Fail> {
    assert_eq!(rt; ground_over(256, 256, 513), None);
    assert_eq!(rt; ground_over(256, 256, 514), None);
    assert_eq!(rt; ground_over(255, 256, 513), Some(3));
    assert_eq!(rt; ground_over(257, 256, 513), Some(3));
    assert_eq!(rt; ground_over(256, 255, 513), Some(3));
    assert_eq!(rt; ground_over(256, 257, 513), Some(3));
    assert_eq!(rt; ground_over(256, 256, 512), Some(3));
    Ok(())
}

// The Dark buys 101 and 201, and the lit buy 301.
fn resting() -> Result<Bench, Fail> {
    let mut b = Bench::pre_open(1_824, 1_832)?;
    b.place_dark(DarkEntry {
        minimum: 200,
        ..dark_buy(101, 500)
    });
    b.place_dark(dark_buy(201, 500));
    b.place_lit(lit_buy(301, 500, 1_820));
    Ok(b)
}

#[test]
fn ground_3_on_every_call_for_a_bad_quantity(rt: HostRuntime) -> Result<(), Fail> {
    let mut b = resting()?;
    b.dark[0].remaining = 450;
    b.refuses_quote(0, 0, 3);
    b.refuses_dark(dark_buy(401, 500), 3);
    b.refuses_sdl(sdl_sell(401, 500), 3);
    b.refuses_lit(lit_buy(401, 500, 1_820), 3);
    b.refuses_start(3);
    b.dark[0].remaining = 500;
    b.start(done(0, 0, 0));
    b.verdict(&rt)
}

// A minimum above what remains, a cap off the grid, no reference, an unknown member, a lit price off the grid.
#[test]
fn ground_3_for_other_bad_fields(rt: HostRuntime) -> Result<(), Fail> {
    let mut b = resting()?;
    b.dark[0].remaining = 100;
    b.refuses_start(3);
    b.dark[0].remaining = 500;
    b.dark[1].cap = 202;
    b.refuses_start(3);
    b.dark[1].cap = 0;
    b.dark[1].reference = 0;
    b.refuses_start(3);
    b.dark[1].reference = 201;
    b.dark[1].member = 17;
    b.refuses_start(3);
    b.dark[1].member = 2;
    b.lit[0].price = 1_822;
    b.refuses_start(3);
    b.verdict(&rt)
}

#[test]
fn ground_3_for_a_reference_twice(rt: HostRuntime) -> Result<(), Fail> {
    let mut b = resting()?;
    b.dark[1].member = 1;
    b.dark[1].reference = 101;
    b.refuses_start(3);
    b.dark[1].reference = 102;
    b.lit[0].member = 1;
    b.lit[0].reference = 101;
    b.refuses_start(3);
    b.lit[0].reference = 103;
    b.start(done(0, 0, 0));
    b.verdict(&rt)
}

#[test]
fn ground_3_comes_before_ground_5(rt: HostRuntime) -> Result<(), Fail> {
    let mut b = resting()?;
    b.lit[0].remaining = 0;
    b.refuses_dark(
        DarkEntry {
            member: 17,
            ..dark_buy(401, 500)
        },
        3,
    );
    b.lit[0].remaining = 500;
    b.refuses_dark(
        DarkEntry {
            member: 17,
            ..dark_buy(401, 500)
        },
        5,
    );
    b.verdict(&rt)
}

// A place after the resting orders means nothing.
#[test]
fn what_stands_past_the_queue_is_not_read(rt: HostRuntime) -> Result<(), Fail> {
    let mut b = resting()?;
    b.dark[2].remaining = 150;
    b.dark[2].member = 17;
    b.lit[1].price = 3;
    b.start(done(0, 0, 0));
    b.verdict(&rt)
}
