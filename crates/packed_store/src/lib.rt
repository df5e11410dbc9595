// The packed store: the cells' slots stand one after another.
#![tactic(auto)]

pub mod packed;
