// Stores of cells: what a store is.
#![tactic(auto)]

ghost use Rattle.std.specs.Prelude.{◌≡◌, ◌+◌, ◌<◌, ◌≤◌, length, IfOk, OnOk};
ghost use Rattle.store.specs.Laws.{Lawful};
ghost use Rattle.store.specs.Model.{Model, after_make, after_put, cleared, field_at, fields_at, head_at, make_answer, put_answer, slots_of};

use cell::{Absent, Head, MakeRefusal};
use values::value::Value;

pub mod cell;
pub mod client;
pub mod rows;

// The most fields of a cell, and the most cells of a store.
pub const FIELD_LIMIT: usize = 8;

pub const CELL_LIMIT: usize = 128;

// A store of cells, numbered from 0 as they are made. Its limits and what it charges for a cell never change.
// Questions and refusals change nothing.
pub trait Store {
    ghost model: { Self → Model };

    // Takes every cell away.
    fn clear(&mut self)
        ensures { model self.new ≡ cleared (model self.old) };

    // Adds a cell with that many fields, each null, and answers its number.
    fn make(&mut self, head: Head, fields: u8) -> Result<u8, MakeRefusal>
        ensures answer { result ≡ make_answer (model self.old) fields }
        ensures after { model self.new ≡ after_make (model self.old) head fields result };

    // Changes one field of a cell.
    fn put(&mut self, cell: u8, field: u8, value: Value) -> Result<(), Absent>
        ensures answer { result ≡ put_answer (model self.old) cell field }
        ensures after { model self.new ≡ after_put (model self.old) cell field value result };

    fn head(&self, cell: u8) -> Option<Head>
        ensures { result ≡ head_at (model self.now) cell };

    // How many fields a cell has.
    fn fields(&self, cell: u8) -> Option<u8>
        ensures { result ≡ fields_at (model self.now) cell };

    fn value(&self, cell: u8, field: u8) -> Result<Value, Absent>
        ensures { result ≡ field_at (model self.now) cell field };

    // How many cells there are, and how many slots they are charged together.
    fn cells(&self) -> u8
        ensures { result ≡ length (model self.now).cells };

    fn slots(&self) -> u16
        ensures { result ≡ slots_of (model self.now) };

    fn cell_limit(&self) -> u8
        ensures { result ≡ (model self.now).cell_limit };

    fn slot_limit(&self) -> u16
        ensures { result ≡ (model self.now).slot_limit };

    // The slots charged for a cell of that many fields.
    fn charge(&self, fields: u8) -> u8
        ensures { result ≡ (model self.now).charge fields };

    // The number of the next cell, if a cell of that many fields can be made.
    #[tactic(auto, unfolding(crate::specs::Model::make_answer))]
    fn next_cell(&self, fields: u8) -> Result<u8, MakeRefusal>
        ensures answer { result ≡ make_answer (model self.now) fields }
        ensures number { IfOk result (λ cell. cell ≡ length (model self.now).cells) }
        ensures fields { OnOk result (fields ≤ 8) }
        ensures cells { OnOk result (length (model self.now).cells < (model self.now).cell_limit) }
        ensures slots { OnOk result (slots_of (model self.now) + (model self.now).charge fields ≤ (model self.now).slot_limit) }
    {
        let cell = self.cells();
        let slots = u32::from(self.slots()) + u32::from(self.charge(fields));
        if fields as usize > FIELD_LIMIT {
            Err(MakeRefusal::Fields)
        } else if cell >= self.cell_limit() {
            Err(MakeRefusal::Cells)
        } else if slots > u32::from(self.slot_limit()) {
            Err(MakeRefusal::Slots)
        } else {
            Ok(cell)
        }
    }

    ghost lawful: { (s : Self) → Lawful (model s) };
}
