ghost use Rattle.std.specs.Prelude.{◌≡◌, ℕ, length, Option};
ghost use Rattle.tables.specs.Below.{least_below, tabulated};
ghost use Rattle.tables.specs.Listed.{listed};
ghost use Rattle.tables.specs.Walks.{Callable, Computes};

use super::Table;
use crate::search::lesser_of;

impl<T: Copy, const N: usize> Table<T, N> {
    // What `f` makes of each item and its place, in the same order.
    pub fn map<U: Copy + Default, F: Fn(usize, T) -> U>(&self, f: F) -> Table<U, N>
        requires { Callable F.Fn f (listed self.now) }
        ensures { (t : ℕ → U) → Computes F.Fn f (listed self.now) t → listed result ≡ tabulated t (length (listed self.now)) }
    {
        let mut made = Table::new();
        for (i, x) in self.as_slice().iter().enumerate() {
            made.push(f(i, *x));
        }
        made
    }

    // The least of the places that `f` finds for an item and its place.
    pub fn least<F: Fn(usize, T) -> Option<usize>>(&self, f: F) -> Option<usize>
        requires { Callable F.Fn f (listed self.now) }
        ensures { (t : ℕ → Option ℕ) → Computes F.Fn f (listed self.now) t → result ≡ least_below t (length (listed self.now)) }
    {
        let mut best = None;
        for (i, x) in self.as_slice().iter().enumerate() {
            best = lesser_of(best, f(i, *x));
        }
        best
    }
}
