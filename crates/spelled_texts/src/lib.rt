// Texts for trials, each spelled in one line.
#![tactic(auto)]

pub mod spelled;
