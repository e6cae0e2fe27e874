// Priorities: which of two resting orders an active order meets first.
#![tactic(auto)]

pub mod priority;
pub mod standing;
