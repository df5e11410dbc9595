ghost use Rattle.std.specs.Prelude.{◌≡◌, true};
ghost use Rattle.values.specs.Kinds.{plain_row};

// The lines of descent whose rows are types.
#[derive(Clone, Copy, PartialEq, Eq, Debug, Default)]
pub enum Lineage {
    #[default]
    Class,
    Relationship,
}

// What a type is: boolean, null, a row, or a set of a row.
#[derive(Clone, Copy, PartialEq, Eq, Debug, Default)]
pub enum Kind {
    #[default]
    Boolean,
    Null,
    Row(Lineage),
    Set(Lineage),
}

// A type: its kind, and the number of its row, which is 0 where the kind has no row.
// So two types are equal exactly where both fields are.
#[derive(Clone, Copy, PartialEq, Eq, Debug)]
pub struct Ty {
    kind: Kind,
    row: u8,
    ghost plain: { plain_row kind row ≡ true },
}

// The row of a cell: its line, and its number there.
#[derive(Clone, Copy, PartialEq, Eq, Debug, Default)]
pub struct CellRow {
    pub lineage: Lineage,
    pub number: u8,
}

pub mod methods;
