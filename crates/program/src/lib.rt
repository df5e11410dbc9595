// A text is judged, and becomes a program.
#![tactic(auto)]

mod assembly;
pub mod check;
pub mod code;
pub mod program;
pub mod refusal;
