// Values, types, and which types fit which.
#![tactic(auto)]

pub mod admission;
pub mod lines;
pub mod types;
pub mod value;
