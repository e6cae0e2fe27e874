// Who may meet whom, the choice among them, the sweep of an active order, and settling.
#![tactic(auto)]

pub mod active;
pub mod choose;
pub mod meets;
pub mod resting;
pub mod settle;
pub mod sweep;
pub mod trade;
