// What a priority is asked.
use market::codes::Kind;

// What a priority sees of the active order. `need` is what remained of it when its sweep first chose at this price.
#[derive(Clone, Copy)]
pub struct ActiveView {
    pub member: u32,
    pub jitney: bool,
    pub need: u32,
    pub kind: Kind,
}

// What a priority sees of a resting order.
#[derive(Clone, Copy)]
pub struct RestingView {
    pub member: u32,
    pub jitney: bool,
    pub remaining: u32,
}
