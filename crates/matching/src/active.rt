// The active order, and what decides whom it may meet.
use market::codes::{Contra, Peg, Seek, Side};
use market::quotes::Quote;
use market::sizes::Size;

// 0 stands for no price and no key here, as it does in what members send.

// What an SDL order says beyond its side and size: how far it goes, what it seeks, and its size class.
#[derive(Clone, Copy, PartialEq, Eq)]
pub struct SdlForm {
    pub limit: u32,
    pub seek: Seek,
    pub size: Size,
}

// What a Dark order says beyond its side and size: what its price follows and how far, whom it trades with, and its
// self-trade key.
#[derive(Clone, Copy, PartialEq, Eq)]
pub struct DarkForm {
    pub peg: Peg,
    pub cap: u32,
    pub contra: Contra,
    pub key: u32,
}

// What an active order is: an SDL order, or a Dark order.
#[derive(Clone, Copy, PartialEq, Eq)]
pub enum Form {
    Sdl(SdlForm),
    Dark(DarkForm),
}

// An order that sweeps.
#[derive(Clone, Copy)]
pub struct Active<R> {
    pub member: u32,
    pub reference: R,
    pub side: Side,
    pub remaining: u32,
    pub minimum: u32,
    pub jitney: bool,
    pub form: Form,
}

// What decides whether a Dark order may be met. `lit` is the best price of the lit orders that still rest against the
// active order, 0 for none as of any price.
#[derive(Clone, Copy)]
pub struct DarkTerms<R> {
    pub quote: Quote,
    pub active: Active<R>,
    pub lit: u32,
}

// What decides whether a lit order may be met: a type of its own, since no lit order asks for the best lit price.
#[derive(Clone, Copy)]
pub struct LitTerms<R> {
    pub quote: Quote,
    pub active: Active<R>,
}

// The price that a sweep last chose at in a table, and the need there.
#[derive(Clone, Copy)]
pub struct LastLevel {
    pub price: u32,
    pub need: u32,
}

// A resting order found in a queue: its place and its price.
#[derive(Clone, Copy)]
pub struct Found {
    pub at: usize,
    pub price: u32,
}

// How far a sweep has come: what is left of the active order, the trades of the day, and the level last chosen at in
// each table.
#[derive(Clone, Copy)]
pub struct Progress<R> {
    pub active: Active<R>,
    pub trades: u32,
    pub dark: Option<LastLevel>,
    pub lit: Option<LastLevel>,
}

// Whom an active order meets: a Dark order or a lit one.
#[derive(Clone, Copy)]
pub enum Met {
    Dark(Found),
    Lit(Found),
}

// The priorities of the two tables.
#[derive(Clone, Copy)]
pub struct Priorities<D, L> {
    pub dark: D,
    pub lit: L,
}
