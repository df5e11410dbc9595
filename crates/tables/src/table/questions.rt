ghost use Rattle.std.specs.Prelude.{◌≡◌, length};
ghost use Rattle.std.specs.List.{slice_get};
ghost use Rattle.tables.specs.Listed.{listed, newest};

use super::Table;

impl<T: Copy, const N: usize> Table<T, N> {
    // The items, in their order.
    #[tactic(auto, unfolding(crate::specs::Listed::listed))]
    pub fn as_slice(&self) -> &[T]
        ensures { result.now ≡ listed self.now }
    {
        &self.items[..self.len]
    }

    pub fn len(&self) -> usize
        ensures { result ≡ length (listed self.now) }
    {
        self.len
    }

    // The item at place i, if there is one.
    pub fn get(&self, i: usize) -> Option<T>
        ensures { result ≡ slice_get (listed self.now) i }
    {
        self.as_slice().get(i).copied()
    }

    // The item that was added last, if there is one.
    pub fn last(&self) -> Option<T>
        ensures { result ≡ newest (listed self.now) }
    {
        self.as_slice().last().copied()
    }
}
