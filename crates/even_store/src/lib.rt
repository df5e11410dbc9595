// The even store: every cell has the same room.
#![tactic(auto)]

pub mod even;
