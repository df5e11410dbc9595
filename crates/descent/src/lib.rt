// Lines of descent: rows numbered from 0, each row but row 0 with a parent of a smaller number.
#![tactic(auto)]

pub mod line;
pub mod members;
#[cfg(test)]
mod tests;
