ghost use Rattle.std.specs.Prelude.{◌≡◌, None};
ghost use Rattle.descent.specs.Rows.{line_of};
ghost use Rattle.outline.specs.Contents.{contents};
ghost use Rattle.tables.specs.Items.{given};
ghost use Rattle.declarations.specs.Resolved.{earlier, parents_of};
ghost use Rattle.declarations.specs.Rows.{row_named};

use crate::source::Source;
use descent::line::Line;
use outline::entry::Row;
use values::types::{CellRow, Lineage};

// The number of the row, if it is of that line and comes before the line's declared row i.
#[tactic(auto, using(crate::proofs::Same::lineage_is))]
fn earlier(lineage: Lineage, i: usize, row: CellRow) -> Option<u8>
    ensures { result ≡ earlier lineage i row }
{
    (lineage == row.lineage && row.number as usize <= i).then_some(row.number)
}

impl<'a> Source<'a> {
    // The number of the parent of `row`, which is the line's declared row i, if the parent is no fault.
    pub(crate) fn parent(&self, lineage: Lineage, i: usize, row: Row) -> Option<u8>
        ensures { result ≡ given (row_named self.now.text.now (contents self.now.outline.now) row.parent) None (earlier lineage i) }
    {
        earlier(lineage, i, self.row_named(row.parent)?)
    }

    // The line with all its declared rows.
    pub(crate) fn line(&self, lineage: Lineage) -> Line
        ensures { line_of result ≡ parents_of self.now.text.now (contents self.now.outline.now) lineage }
    {
        let mut line = Line::new();
        for (i, &row) in self.rows(lineage).as_slice().iter().enumerate() {
            // no row is refused: its parent comes before it, and a line has room for all rows of a table
            let _ = line.add(self.parent(lineage, i, row).unwrap_or(0));
        }
        line
    }
}
