// A queue over a lent slice: the first places hold what is queued, in order; the rest is spare room.
#![tactic(auto)]

pub mod queue;
