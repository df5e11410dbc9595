ghost use Rattle.std.specs.Prelude.{◌≡◌, ℕ, ◌-◌, ◌<◌, ◌≤◌, length, take, drop, replicate, sum_by, slice_index_or};
ghost use Rattle.values.specs.declared.value.Value.TheVariants.{Null};
ghost use Rattle.packed_store.specs.declared.packed.Span.{Span};

use store::CELL_LIMIT;
use store::cell::Head;
use values::value::Value;

// The slots of a store.
const SLOT_LIMIT: usize = 512;

// The slots of one cell: where they begin, and how many there are.
#[derive(Clone, Copy)]
struct Span {
    head: Head,
    start: usize,
    count: u8,
}

// A store of 128 cells that charges n slots for n fields, of 512. The cells' slots stand one after another, and
// those that no cell has are null.
// Spans and slots are arrays with a count beside them and no `ArrayVec`, so that a cell is made without writing its
// fields: unused slots are null.
#[derive(Drop)]
pub struct PackedStore {
    spans: [Span; CELL_LIMIT],
    used: usize,
    slots: [Value; SLOT_LIMIT],
    filled: usize,
    ghost whole: { length spans ≡ 128 },
    ghost few: { used ≤ 128 },
    ghost room: { length slots ≡ 512 },
    ghost within: { filled ≤ 512 },
    ghost sum: { filled ≡ sum_by (λ (s : Span). s.count) (take used spans) },
    ghost small: { (k : ℕ) (d : Span) → k < used → (slice_index_or spans k d).count ≤ 8 },
    ghost begins: { (k : ℕ) (d : Span) → k < used → (slice_index_or spans k d).start ≡ sum_by (λ (s : Span). s.count) (take k spans) },
    ghost blank: { drop filled slots ≡ replicate (512 - filled) Null },
}

pub mod calls;
