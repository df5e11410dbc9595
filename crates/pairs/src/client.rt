// A use of pair tables that is proved for all of them at once.
ghost use Rattle.std.specs.Prelude.{◌≡◌};
ghost use Rattle.pairs.specs.Changes.{ReadBack};

use crate::row::Row;
use crate::table::PairTable;

// Puts a row in, if the table takes it, and answers the instance that is then in force for its relationship and cells.
pub fn relate_and_read<P: PairTable>(table: &mut P, row: Row) -> Option<u8>
    ensures reads { ReadBack (P.PairTable.limit table.old) (P.PairTable.rows table.old) row result (P.PairTable.rows table.new) }
    ensures fixed { P.PairTable.limit table.new ≡ P.PairTable.limit table.old }
{
    let _ = table.put(row);
    table.find(row.link())
}
