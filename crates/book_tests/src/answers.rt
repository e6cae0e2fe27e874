// The three numbers of an answer, and the numbers of trades through the day.
use crate::bench::*;
use crate::entries::*;
use book::call::DarkEntry;
use std::test::*;

#[test]
fn an_sdl_entry_answers_what_it_traded_and_what_was_cancelled(rt: HostRuntime) -> Result<(), Fail> {
    let mut b = Bench::open(1_824, 1_832)?;
    b.place_dark(dark_buy(101, 300));
    b.sdl(sdl_sell(201, 500), done(1, 300, 200));
    b.sdl(sdl_sell(201, 500), done(0, 0, 500));
    b.verdict(&rt)
}

#[test]
fn a_dark_entry_answers_what_it_traded_and_rests_the_remainder(
    rt: HostRuntime,
) -> Result<(), Fail> {
    let mut b = Bench::open(1_824, 1_832)?;
    b.place_dark(dark_buy(101, 300));
    b.dark(dark_sell(201, 500), done(1, 300, 0));
    b.fills_are(&[dark_dark(1, 101, 201, 300, 1_828)]);
    b.darks_are(&[rests(201, 200, 0)]);
    b.verdict(&rt)
}

// 101 asks for 500 and 201 has 300. Once 101 has traded 600 it asks for 300 only, and the two settle.
fn waiting_for_more() -> Result<Bench, Fail> {
    let mut b = Bench::open(1_824, 1_832)?;
    b.place_dark(DarkEntry {
        minimum: 500,
        ..dark_sell(101, 900)
    });
    b.place_dark(dark_buy(201, 300));
    Ok(b)
}

#[test]
fn the_fills_of_a_dark_entry_count_settling(rt: HostRuntime) -> Result<(), Fail> {
    let mut b = waiting_for_more()?;
    b.dark(dark_buy(301, 600), done(2, 600, 0));
    b.fills_are(&[
        dark_dark(1, 301, 101, 600, 1_828),
        dark_dark(2, 201, 101, 300, 1_828),
    ]);
    b.darks_are(&[]);
    b.verdict(&rt)
}

#[test]
fn the_fills_of_an_sdl_entry_count_settling(rt: HostRuntime) -> Result<(), Fail> {
    let mut b = waiting_for_more()?;
    b.sdl(sdl_buy(301, 600), done(2, 600, 0));
    b.fills_are(&[
        sdl_dark(1, 301, 101, 600, 1_828),
        dark_dark(2, 201, 101, 300, 1_828),
    ]);
    b.darks_are(&[]);
    b.verdict(&rt)
}

// Nobody reaches the need of 500, so the queue decides: trades 1 to 3. The second call makes trade 4, and the list's
// second place keeps what it held.
#[test]
fn trade_numbers_run_on_through_the_day(rt: HostRuntime) -> Result<(), Fail> {
    let mut b = Bench::open(1_824, 1_832)?;
    b.place_dark(dark_buy(101, 100));
    b.place_dark(dark_buy(102, 200));
    b.place_dark(dark_buy(103, 300));
    b.sdl(sdl_sell(201, 500), done(3, 500, 0));
    b.fills_are(&[
        sdl_dark(1, 101, 201, 100, 1_828),
        sdl_dark(2, 102, 201, 200, 1_828),
        sdl_dark(3, 103, 201, 200, 1_828),
    ]);
    b.sdl(sdl_sell(202, 100), done(1, 100, 0));
    b.fills_are(&[sdl_dark(4, 103, 202, 100, 1_828)]);
    b.fill_is(1, sdl_dark(2, 102, 201, 200, 1_828));
    b.trades_are(4);
    b.verdict(&rt)
}
