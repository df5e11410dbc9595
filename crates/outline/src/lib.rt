// A program as tables: what its text declares, and the nodes of its methods' bodies.
#![tactic(auto)]

mod builder;
pub mod contents;
pub mod entry;
pub mod limit;
pub mod outlining;
