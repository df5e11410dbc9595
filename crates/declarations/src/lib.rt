// What a text declares, with its names resolved, and the faults of its declarations.
#![tactic(auto)]

pub mod clashes;
mod counts;
pub mod declarations;
mod descending;
pub mod judging;
mod misfits;
mod missing;
mod naming;
mod parents;
pub mod refusal;
pub mod resolving;
pub mod source;
