ghost use Rattle.std.specs.Prelude.{◌≡◌, Decides};
ghost use Rattle.values.specs.Admits.{Initially, initial_of};
ghost use Rattle.values.specs.Types.{boolean, null_type, row_type, set_type};

use super::{CellRow, Kind, Lineage, Ty};
use crate::value::Value;
use cells::CellSet;

impl Lineage {
    // Whether the two are the same line: what the derived `==` promises, as a clause.
    pub fn same(self, lineage: Lineage) -> bool
        ensures { Decides result (self ≡ lineage) }
    {
        self == lineage
    }
}

impl Kind {
    // Whether the two are the same kind: what the derived `==` promises, as a clause.
    pub fn same(self, kind: Kind) -> bool
        ensures { Decides result (self ≡ kind) }
    {
        self == kind
    }
}

impl CellRow {
    // A row of a line, by its number.
    pub const fn new(lineage: Lineage, number: u8) -> CellRow
        ensures { result ≡ record { lineage = lineage; number = number } }
    {
        CellRow { lineage, number }
    }
}

impl Ty {
    #[tactic(auto, using(crate::proofs::SameType::ty_same))]
    pub fn boolean() -> Ty
        ensures { result ≡ boolean }
    {
        Ty {
            kind: Kind::Boolean,
            row: 0,
        }
    }

    // The type of the literal null.
    #[tactic(auto, using(crate::proofs::SameType::ty_same))]
    pub fn null() -> Ty
        ensures { result ≡ null_type }
    {
        Ty {
            kind: Kind::Null,
            row: 0,
        }
    }

    // A row of a line.
    #[tactic(auto, using(crate::proofs::SameType::ty_same))]
    pub fn of_row(lineage: Lineage, row: u8) -> Ty
        ensures { result ≡ row_type lineage row }
    {
        Ty {
            kind: Kind::Row(lineage),
            row,
        }
    }

    // The sets of a row.
    #[tactic(auto, using(crate::proofs::SameType::ty_same))]
    pub fn set_of(lineage: Lineage, row: u8) -> Ty
        ensures { result ≡ set_type lineage row }
    {
        Ty {
            kind: Kind::Set(lineage),
            row,
        }
    }

    pub fn kind(self) -> Kind
        ensures { result ≡ self.kind }
    {
        self.kind
    }

    // The number of its row, 0 where it has none.
    pub fn row(self) -> u8
        ensures { result ≡ self.row }
    {
        self.row
    }

    // Whether the two are the same type. The derived `==` tells their fields alone, which for a type says as much.
    #[tactic(auto, using(crate::proofs::SameType::ty_told))]
    pub fn same(self, t: Ty) -> bool
        ensures { Decides result (self ≡ t) }
    {
        self == t
    }

    // What a variable or field of this type begins with: false, null or the empty set.
    #[tactic(auto, using(crate::proofs::Admitting::initially))]
    pub fn initial(self) -> Value
        ensures value { result ≡ initial_of self.kind }
        ensures admitted { Initially self result }
    {
        match self.kind {
            Kind::Boolean => Value::Truth(false),
            Kind::Null | Kind::Row(_) => Value::Null,
            Kind::Set(_) => Value::Set(CellSet::empty()),
        }
    }
}

impl Default for Ty {
    ghost is_default = { λ t. t ≡ boolean };

    fn default() -> Ty {
        Ty::boolean()
    }
}
