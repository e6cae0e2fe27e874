// One book for one security and one day: the calls, what refuses them, and what they do.
#![tactic(auto)]

pub mod act;
pub mod book;
pub mod call;
pub mod grounds;
pub mod memory;
pub mod read;
pub mod resting;
pub mod session;
pub mod tables;
