ghost use Rattle.std.specs.Prelude.{◌≡◌};
ghost use Rattle.descent.specs.Rows.{line_of};
ghost use Rattle.values.specs.Lines.{ancestry};
ghost use Rattle.declarations.specs.Descending.{parent_row, upward};

use descent::line::Line;
use values::lines::Lines;
use values::types::CellRow;

// The parent of a row that is there and is no root.
pub(crate) fn parent_row(line: &Line, row: u8) -> Option<u8>
    ensures { result ≡ parent_row (line_of line.now) row }
{
    line.parent(row)
}

// Whether `b` is `a` or upward from it, in one line.
#[tactic(auto, using(crate::proofs::Same::lineage_is))]
pub(crate) fn upward(lines: &Lines, a: CellRow, b: CellRow) -> bool
    ensures { result ≡ upward (ancestry lines.now) a b }
{
    a.lineage == b.lineage && lines.line(a.lineage).descends(a.number, b.number)
}
