// The calls, as members send them: every field is any 32-bit number, and 0 stands for what is not given. And the requests that
// they are read as.
use market::codes::{Seek, Side};
use market::orders::{DarkOrder, LitOrder};
use market::quotes::Away;

// A Dark entry. `cap`, `minimum` and `key` are 0 for none.
#[derive(Clone, Copy)]
pub struct DarkEntry<R> {
    pub member: u32,
    pub reference: R,
    pub side: u32,
    pub quantity: u32,
    pub peg: u32,
    pub cap: u32,
    pub contra: u32,
    pub minimum: u32,
    pub jitney: u32,
    pub key: u32,
}

// An SDL entry. `limit` is 0 at market.
#[derive(Clone, Copy)]
pub struct SdlEntry<R> {
    pub member: u32,
    pub reference: R,
    pub side: u32,
    pub quantity: u32,
    pub limit: u32,
    pub seek: u32,
    pub jitney: u32,
}

// A lit entry.
#[derive(Clone, Copy)]
pub struct LitEntry<R> {
    pub member: u32,
    pub reference: R,
    pub side: u32,
    pub quantity: u32,
    pub price: u32,
    pub jitney: u32,
}

#[derive(Clone, Copy)]
pub enum Call<R> {
    Quote(Away),
    Dark(DarkEntry<R>),
    Sdl(SdlEntry<R>),
    Lit(LitEntry<R>),
    Start,
}

// An SDL order: what an SDL entry says, its codes read.
#[derive(Clone, Copy)]
pub struct SdlOrder<R> {
    pub member: u32,
    pub reference: R,
    pub side: Side,
    pub quantity: u32,
    pub limit: u32,
    pub seek: Seek,
    pub jitney: bool,
}

// A call whose codes are read.
#[derive(Clone, Copy)]
pub enum Request<R> {
    Quote(Away),
    Dark(DarkOrder<R>),
    Sdl(SdlOrder<R>),
    Lit(LitOrder<R>),
    Start,
}
