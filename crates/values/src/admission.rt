ghost use Rattle.std.specs.Prelude.{◌≡◌, ℕ, Decides, Option};
ghost use Rattle.values.specs.Admits.{Admits, admits_to, cell_fits_to, member_fits_to, members_fit_to};
ghost use Rattle.values.specs.Lines.{ancestry};
ghost use Rattle.values.specs.declared.types.CellRow.{CellRow};

use crate::lines::Lines;
use crate::types::{CellRow, Kind, Ty};
use crate::value::Value;
use cells::CellSet;

// The cells that there are, by their rows.
pub trait CellRows {
    // the row of a cell, if there is such a cell
    ghost rows: { Self → ℕ → Option CellRow };

    fn row_of(&self, cell: u8) -> Option<CellRow>
        ensures { result ≡ rows self.now cell };
}

// A row that cells may fit, among the lines and the cells that there are.
#[derive(Drop)]
struct Fitting<'a, R> {
    lines: &'a Lines,
    cells: &'a R,
    row: CellRow,
}

impl<'a, R: CellRows> Fitting<'a, R> {
    // Whether the cell is there and its row fits.
    fn cell(&self, cell: u8) -> bool
        ensures { result ≡ cell_fits_to (ancestry self.now.lines.now) (R.CellRows.rows self.now.cells.now cell) self.now.row.lineage self.now.row.number }
    {
        let CellRow { lineage, number } = self.row;
        self.cells.row_of(cell).is_some_and(|row| self
            .lines
            .row_fits(row.lineage, row.number, lineage, number))
    }

    // The same of the cell, if it is a member of the set.
    fn member(&self, set: CellSet, cell: u8) -> bool
        ensures { result ≡ member_fits_to (ancestry self.now.lines.now) (R.CellRows.rows self.now.cells.now) set self.now.row.lineage self.now.row.number cell }
    {
        !set.contains(cell) || self.cell(cell)
    }

    // The same of every member of the set.
    fn members(&self, set: CellSet) -> bool
        ensures { result ≡ members_fit_to (ancestry self.now.lines.now) (R.CellRows.rows self.now.cells.now) set self.now.row.lineage self.now.row.number }
    {
        (0..128u8).all(|cell| self.member(set, cell))
    }
}

// Whether a variable or field of type `t` may hold the value.
#[tactic(auto, using(crate::proofs::Members::admits_told))]
pub fn admits<R: CellRows>(lines: &Lines, cells: &R, t: Ty, value: Value) -> bool
    ensures relation { Decides result (Admits (ancestry lines.now) (R.CellRows.rows cells.now) t value) }
    ensures same { result ≡ admits_to (ancestry lines.now) (R.CellRows.rows cells.now) t.kind t.row value }
{
    let at = |lineage| Fitting {
        lines,
        cells,
        row: CellRow::new(lineage, t.row()),
    };
    match (t.kind(), value) {
        (Kind::Boolean, Value::Truth(_)) => true,
        (Kind::Null | Kind::Row(_), Value::Null) => true,
        (Kind::Row(lineage), Value::Cell(cell)) => at(lineage).cell(cell),
        (Kind::Set(lineage), Value::Set(set)) => at(lineage).members(set),
        _ => false,
    }
}
