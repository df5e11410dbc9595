ghost use Rattle.std.specs.Prelude.{◌≡◌, ℕ, ◌<◌, ◌≤◌, length, slice_index};

// A line of at most 32 rows. Row 0 is the root, and the place of its parent holds 0.
// The parents are an array with a count beside it, since a line is `Copy`, and an `ArrayVec` is not.
#[derive(Clone, Copy)]
pub struct Line {
    parents: [u8; 32],
    rows: u8,
    ghost whole: { length parents ≡ 32 },
    ghost rooted: { 0 < rows },
    ghost few: { rows ≤ 32 },
    ghost plain: { slice_index parents 0 ≡ 0 },
    ghost smaller: { (a : ℕ) → 0 < a → a < rows → slice_index parents a < a },
}

// Why a row is not added.
#[derive(Clone, Copy, PartialEq, Eq, Debug)]
pub enum RowRefusal {
    NoParent,
    Full,
}

pub mod growth;
pub mod questions;
