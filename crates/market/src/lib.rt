// The words of the market: sides, pegs, prices, lots, orders, quotes, and the rules on them that need no book.
#![tactic(auto)]

pub mod codes;
pub mod ground;
pub mod lots;
pub mod orders;
pub mod prices;
pub mod quotes;
pub mod reference;
pub mod sizes;
