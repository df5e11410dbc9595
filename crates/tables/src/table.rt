ghost use Rattle.std.specs.Prelude.{◌≡◌, ◌≤◌, length};

// A list of at most N items, in memory of its own.
// It is an array with a length beside it, since an `ArrayVec` has to have a default for its items to fill what is not used.
#[derive(Drop)]
pub struct Table<T: Copy, const N: usize> {
    items: [T; N],
    len: usize,
    ghost whole: { length items ≡ N },
    ghost few: { len ≤ N },
}

pub mod growth;
pub mod questions;
pub mod walks;
