// The type of each node of a program, and what the node does.
#![tactic(auto)]

mod coding;
mod lookup;
pub mod pass;
pub mod rules;
pub mod step;
pub mod typer;
