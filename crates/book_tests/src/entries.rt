// Entries with usual terms, by names that stories are told in. Codes are numbers here, as members send them, since stories tell
// how they are read too.
//
// A reference names its member: 101, 102, .. are orders of member 1, 1601 is one of member 16.
use book::call::{DarkEntry, LitEntry, SdlEntry};

pub const BUY: u32 = 1;

pub const SELL: u32 = 2;

pub const TOUCH: u32 = 2;

pub const SDL_ONLY: u32 = 1;

pub const DARK_ONLY: u32 = 2;

pub const ALL: u32 = 3;

pub const IMPROVING_DARK: u32 = 2;

pub const ALL_DARK: u32 = 3;

pub const MARKED: u32 = 1;

pub fn member_of(reference: u32) -> u32 {
    reference / 100
}

// A Midpoint order that trades with all, with no cap, minimum, mark or key.
fn dark(reference: u32, side: u32, quantity: u32) -> DarkEntry<u32> {
    DarkEntry {
        member: member_of(reference),
        reference,
        side,
        quantity,
        peg: 1,
        cap: 0,
        contra: ALL,
        minimum: 0,
        jitney: 0,
        key: 0,
    }
}

pub fn dark_buy(reference: u32, quantity: u32) -> DarkEntry<u32> {
    dark(reference, BUY, quantity)
}

pub fn dark_sell(reference: u32, quantity: u32) -> DarkEntry<u32> {
    dark(reference, SELL, quantity)
}

// A market order that seeks all Dark and lit.
fn sdl(reference: u32, side: u32, quantity: u32) -> SdlEntry<u32> {
    SdlEntry {
        member: member_of(reference),
        reference,
        side,
        quantity,
        limit: 0,
        seek: 1,
        jitney: 0,
    }
}

pub fn sdl_buy(reference: u32, quantity: u32) -> SdlEntry<u32> {
    sdl(reference, BUY, quantity)
}

pub fn sdl_sell(reference: u32, quantity: u32) -> SdlEntry<u32> {
    sdl(reference, SELL, quantity)
}

fn lit(reference: u32, side: u32, quantity: u32, price: u32) -> LitEntry<u32> {
    LitEntry {
        member: member_of(reference),
        reference,
        side,
        quantity,
        price,
        jitney: 0,
    }
}

pub fn lit_buy(reference: u32, quantity: u32, price: u32) -> LitEntry<u32> {
    lit(reference, BUY, quantity, price)
}

pub fn lit_sell(reference: u32, quantity: u32, price: u32) -> LitEntry<u32> {
    lit(reference, SELL, quantity, price)
}
