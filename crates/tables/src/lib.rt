// Lists of limited length in memory of their own, and searches over numbers.
#![tactic(auto)]

pub mod fill;
pub mod search;
pub mod table;
