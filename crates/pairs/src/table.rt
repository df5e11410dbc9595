// What every pair table does.
ghost use Rattle.std.specs.Prelude.{◌≡◌, ℕ, ◌<◌, ◌≤◌, true, List, [], length};
ghost use Rattle.pairs.specs.declared.row.Row.{Row};
ghost use Rattle.pairs.specs.Rows.{in_force, apart, all_small};
ghost use Rattle.pairs.specs.Changes.{Put, Dropped, ToCells, Instances};

use crate::row::{Link, PutRefusal, Row};
use cells::CellSet;

// Rows in force, no two alike in relationship, from and to, and a fixed limit to their number.
// A question of sets names a relationship and a from cell one by one: a struct of these two would be made at each call only to be taken apart.
pub trait PairTable {
    ghost rows: { Self → List Row };

    ghost limit: { Self → ℕ };

    // Leaves no row.
    fn clear(&mut self)
        ensures empty { rows self.new ≡ [] }
        ensures fixed { limit self.new ≡ limit self.old };

    // Puts a row in, or refuses it and alters nothing.
    fn put(&mut self, row: Row) -> Result<(), PutRefusal>
        ensures puts { Put (limit self.old) (rows self.old) row result (rows self.new) }
        ensures fixed { limit self.new ≡ limit self.old };

    // Takes the row of a link out and answers its instance, or none where there is no such row.
    fn drop_row(&mut self, link: Link) -> Option<u8>
        ensures drops { Dropped (rows self.old) link.relationship link.from link.to result (rows self.new) }
        ensures fixed { limit self.new ≡ limit self.old };

    // The instance in force for a link.
    fn find(&self, link: Link) -> Option<u8>
        ensures { result ≡ in_force (rows self.now) link.relationship link.from link.to };

    // The cells to which the relationship leads from a cell.
    fn to_cells(&self, relationship: u8, from: u8) -> CellSet
        ensures { ToCells (rows self.now) relationship from result };

    // The instances in force for the relationship and a from cell.
    fn instances(&self, relationship: u8, from: u8) -> CellSet
        ensures { Instances (rows self.now) relationship from result };

    // How many rows are in force.
    fn count(&self) -> u16
        ensures { result ≡ length (rows self.now) };

    // How many rows there may be.
    fn limit(&self) -> u16
        ensures { result ≡ limit self.now };

    ghost differ: { (t : Self) → apart (rows t) ≡ true };

    ghost little: { (t : Self) → all_small (rows t) ≡ true };

    ghost within: { (t : Self) → length (rows t) ≤ limit t };

    ghost bounds: { (t : Self) → (1 ≤ limit t) × (limit t ≤ 1024) };
}
