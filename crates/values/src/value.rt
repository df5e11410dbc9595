ghost use Rattle.std.specs.Prelude.{◌≡◌, Decides};

use cells::CellSet;

// What a variable, a field or an expression holds.
#[derive(Clone, Copy, Default, PartialEq, Eq, Debug)]
pub enum Value {
    Truth(bool),
    #[default]
    Null,
    Cell(u8),
    Set(CellSet),
}

impl Value {
    // Whether the two are the same value: what the derived `==` promises, as a clause.
    pub fn same(self, other: Value) -> bool
        ensures { Decides result (self ≡ other) }
    {
        self == other
    }
}
