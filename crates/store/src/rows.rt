ghost use Rattle.std.specs.Prelude.{◌≡◌, Decides};
ghost use Rattle.values.specs.Admits.{Admits, admits_to};
ghost use Rattle.values.specs.Lines.{ancestry};
ghost use Rattle.store.specs.Rows.{row_at};

use crate::Store;
use values::admission::{CellRows, admits};
use values::lines::Lines;
use values::types::{CellRow, Ty};
use values::value::Value;

// The cells of a store, by their rows.
#[derive(Drop)]
pub struct StoreRows<'a, S: Store> {
    pub store: &'a S,
}

impl<S: Store> CellRows for StoreRows<'_, S> {
    ghost rows = { λ r. row_at (S.Store.model r.store.now) };

    fn row_of(&self, cell: u8) -> Option<CellRow> {
        self.store.head(cell).map(CellRow::from)
    }
}

// Whether a variable or field of type `t` may hold the value, over the cells of a store.
pub fn store_admits<S: Store>(store: &S, lines: &Lines, t: Ty, value: Value) -> bool
    ensures relation { Decides result (Admits (ancestry lines.now) (row_at (S.Store.model store.now)) t value) }
    ensures same { result ≡ admits_to (ancestry lines.now) (row_at (S.Store.model store.now)) t.kind t.row value }
{
    let rows = StoreRows { store };
    admits(lines, &rows, t, value)
}
