// A pair table that looks at its rows one after another.
#![tactic(auto)]

ghost use Rattle.std.specs.Prelude.{◌≡◌, ℕ, ◌+◌, ◌<◌, ◌≤◌, true, List, [], length, take};
ghost use Rattle.pairs.specs.Rows.{apart, all_small};
ghost use Rattle.row_list.specs.Places.{Placed};
ghost use Rattle.std.proofs.Common.{rules};

use cells::CellSet;
use pairs::gathering::gathered;
use pairs::row::{Link, PutRefusal, Row, judged};
use pairs::table::PairTable;

// How many rows there may be.
const LIMIT: usize = 256;

// Up to 256 rows, one after another.
// They are an array with a count beside it, so that a table is cleared at once: an `ArrayVec` writes over all rows that it had.
#[derive(Drop)]
pub struct RowList {
    items: [Row; LIMIT],
    count: usize,
    ghost whole: { length items ≡ 256 },
    ghost few: { count ≤ 256 },
    ghost differ: { apart (take count items) ≡ true },
    ghost little: { all_small (take count items) ≡ true },
}

impl RowList {
    // A table without rows.
    pub fn new() -> RowList
        ensures { take result.count result.items ≡ [] }
    {
        RowList {
            items: [Row::default(); LIMIT],
            count: 0,
        }
    }

    // The rows that it holds.
    fn rows(&self) -> &[Row]
        ensures { result.now ≡ take self.now.count self.now.items }
    {
        &self.items[..self.count]
    }

    // The place of the row of a link.
    fn position(&self, link: Link) -> Option<usize>
        ensures { Placed (take self.now.count self.now.items) link.relationship link.from link.to result }
    {
        self.rows().iter().position(|row| row.joins(link))
    }
}

impl PairTable for RowList {
    ghost rows = { λ t. take t.count t.items };

    ghost limit = { λ t. 256 };

    ghost differ = { Prim.search rules };

    ghost little = { Prim.search rules };

    ghost within = { Prim.search rules };

    ghost bounds = { Prim.search rules };

    fn clear(&mut self) {
        self.count = 0;
    }

    fn put(&mut self, row: Row) -> Result<(), PutRefusal> {
        judged(row, self.find(row.link()), self.count >= LIMIT)?;
        self.items[self.count] = row;
        self.count += 1;
        Ok(())
    }

    // The last row takes the place of the one that goes.
    fn drop_row(&mut self, link: Link) -> Option<u8> {
        let place = self.position(link)?;
        let row = self.items[place];
        let last = self.count - 1;
        self.items[place] = self.items[last];
        self.count = last;
        Some(row.instance)
    }

    fn find(&self, link: Link) -> Option<u8> {
        self.position(link).map(|place| self.items[place].instance)
    }

    fn to_cells(&self, relationship: u8, from: u8) -> CellSet {
        gathered(self.rows(), |row| {
            row.leaves(relationship, from).then_some(row.to)
        })
    }

    fn instances(&self, relationship: u8, from: u8) -> CellSet {
        gathered(self.rows(), |row| {
            row.leaves(relationship, from).then_some(row.instance)
        })
    }

    fn count(&self) -> u16 {
        self.count as u16
    }

    fn limit(&self) -> u16 {
        LIMIT as u16
    }
}
