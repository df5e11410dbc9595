// Pair tables: which pairs of cells stand in which relationship, each with its instance.
#![tactic(auto)]

pub mod client;
pub mod gathering;
pub mod row;
pub mod table;
