use tables::table::Table;
use values::lines::Lines;
use values::types::{CellRow, Ty};

// The rows at the ends of a relationship.
#[derive(Clone, Copy, Default)]
pub struct Ends {
    pub first: CellRow,
    pub second: CellRow,
}

// The types of a method's result and of its parameter.
#[derive(Clone, Copy, Default)]
pub struct Signature {
    pub result: Ty,
    pub parameter: Ty,
}

// What a text declares, with its names resolved: the lines of descent; the ends of each relationship row, the root's
// first; the types of all fields, methods and variables, in the order of the text.
#[derive(Drop)]
pub struct Declarations {
    pub lines: Lines,
    pub ends: Table<Ends, 32>,
    pub fields: Table<Ty, 128>,
    pub methods: Table<Signature, 64>,
    pub variables: Table<Ty, 704>,
}
