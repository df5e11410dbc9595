// The reader of words: cuts a model text into names, keywords and signs.
#![tactic(auto)]

mod bytes;
pub mod cursor;
pub mod kind;
pub mod names;
mod nesting;
pub mod refusal;
mod spelling;
pub mod survey;
