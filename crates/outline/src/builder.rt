use crate::contents::Outline;
use crate::limit::NODES;
use pending::Open;
use tables::table::Table;
use values::types::CellRow;

// Counts of what was read, each as far as its type goes, which is past its limit; the row that was declared last; whether one of its
// methods is being read; and the greatest height of a statement that stands in no open branch.
#[derive(Clone, Copy, Default)]
pub(crate) struct Tally {
    pub(crate) classes: u8,
    pub(crate) relationships: u8,
    pub(crate) fields: u8,
    pub(crate) methods: u8,
    pub(crate) locals: u8,
    pub(crate) most: u8,
    pub(crate) nodes: u16,
    pub(crate) tallest: u8,
    pub(crate) owner: CellRow,
    pub(crate) in_method: bool,
}

// Builds the tables of a program from its events.
#[derive(Drop)]
pub(crate) struct Builder {
    pub(crate) outline: Outline,
    pub(crate) opened: Table<Open, NODES>,
    pub(crate) tally: Tally,
}

pub(crate) mod declaring;
pub(crate) mod limits;
pub(crate) mod nodes;
pub(crate) mod opening;
pub(crate) mod pending;
pub(crate) mod taking;
