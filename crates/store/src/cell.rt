ghost use Rattle.std.specs.Prelude.{◌≡◌};
ghost use Rattle.store.specs.Rows.{row_of};

use values::types::{CellRow, Lineage};

// What a cell is besides its fields: an object of a class, or an instance of a relationship between two cells.
#[derive(Clone, Copy, PartialEq, Eq, Debug)]
pub enum Head {
    Object {
        class: u8,
    },
    // `parent` is the super-instance, which an instance of the root relationship lacks
    Instance {
        relationship: u8,
        parent: Option<u8>,
        from: u8,
        to: u8,
    },
}

// Why no cell is made: over 8 fields, or else all cells are in use, or else too few slots are left.
#[derive(Clone, Copy, PartialEq, Eq, Debug)]
pub enum MakeRefusal {
    Fields,
    Cells,
    Slots,
}

// What a question or a change names and the store lacks.
#[derive(Clone, Copy, PartialEq, Eq, Debug)]
pub enum Absent {
    Cell,
    Field,
}

// The row of a cell with that head.
impl From<Head> for CellRow {
    ghost from_gives = { λ head row. row ≡ row_of head };

    fn from(head: Head) -> CellRow {
        match head {
            Head::Object { class } => CellRow {
                lineage: Lineage::Class,
                number: class,
            },
            Head::Instance { relationship, .. } => CellRow {
                lineage: Lineage::Relationship,
                number: relationship,
            },
        }
    }
}
