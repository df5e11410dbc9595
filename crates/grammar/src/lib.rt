// The grammar: which texts are programs, and where a text that is none stops being the beginning of one.
#![tactic(auto)]

pub mod event;
pub mod judge;
pub mod parse;
pub(crate) mod parser;
pub mod sink;
