// What the programs share: reading their input, looking at their arguments, and numbers that look random.
#![tactic(auto)]

pub mod arguments;
pub mod input;
pub mod random;
