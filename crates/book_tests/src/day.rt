// A day with as many trades as a book takes.
use crate::bench::*;
use crate::entries::*;
use book::call::DarkEntry;
use std::test::*;

// Trades 100 shares so many times with the lit buy that rests.
fn sell_lots(b: &mut Bench, times: u32) {
    for _ in 0..times {
        b.sdl(sdl_sell(201, 100), done(1, 100, 0));
    }
}

// 99 lit orders of 10,000 lots and 9,487 lots of another are 999,487 trades. The next call is still taken, and the
// one after it is not.
#[test]
fn ground_4_after_999_487_trades(rt: HostRuntime) -> Result<(), Fail> {
    let mut b = Bench::open(1_824, 1_832)?;
    for _ in 0..99 {
        b.place_lit(lit_buy(101, 1_000_000, 1_824));
        sell_lots(&mut b, 10_000);
    }
    b.place_lit(lit_buy(101, 1_000_000, 1_824));
    sell_lots(&mut b, 9_488);
    b.trades_are(999_488);
    b.refuses_quote(0, 0, 4);
    b.refuses_dark(
        DarkEntry {
            member: 17,
            ..dark_buy(301, 100)
        },
        4,
    );
    b.refuses_sdl(sdl_sell(201, 100), 4);
    b.refuses_lit(lit_buy(301, 100, 1_824), 4);
    b.refuses_start(4);
    b.lit[0].remaining = 150;
    b.refuses_start(3);
    b.verdict(&rt)
}
