ghost use Rattle.std.specs.Prelude.{◌≡◌, ◌≤◌, length};

use store::cell::Head;
use store::{CELL_LIMIT, FIELD_LIMIT};
use values::value::Value;

// The place of one cell: room for 8 fields, of which it has `count`.
#[derive(Clone, Copy)]
struct Place {
    head: Head,
    count: u8,
    values: [Value; FIELD_LIMIT],
    ghost whole: { length values ≡ 8 },
    ghost few: { count ≤ 8 },
}

// A store of 128 cells that charges 8 slots for each, of 1,024.
// Places and fields are arrays with a count beside them, so that a store is cleared and a cell made at once: an `ArrayVec`
// writes over all items that it had.
#[derive(Drop)]
pub struct EvenStore {
    places: [Place; CELL_LIMIT],
    used: usize,
    ghost whole: { length places ≡ 128 },
    ghost few: { used ≤ 128 },
}

pub mod calls;
