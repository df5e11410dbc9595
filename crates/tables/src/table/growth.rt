ghost use Rattle.std.specs.Prelude.{◌≡◌, []};
ghost use Rattle.tables.specs.Listed.{listed, pushed, shortened};

use super::Table;

impl<T: Copy + Default, const N: usize> Table<T, N> {
    // An empty table.
    pub fn new() -> Table<T, N>
        ensures { listed result ≡ [] }
    {
        Table::with_filler(T::default())
    }
}

impl<T: Copy, const N: usize> Table<T, N> {
    // An empty table; `fill` stands in the memory that is not used yet.
    pub fn with_filler(fill: T) -> Table<T, N>
        ensures { listed result ≡ [] }
    {
        Table {
            items: [fill; N],
            len: 0,
        }
    }

    // Adds an item at the end; a full table stays as it is.
    pub fn push(&mut self, x: T)
        ensures { self.new ≡ pushed self.old x }
    {
        if self.len < N {
            self.items[self.len] = x;
            self.len += 1;
        }
    }

    // Takes the last item off; an empty table stays as it is.
    pub fn shorten(&mut self)
        ensures { self.new ≡ shortened self.old }
    {
        if self.len > 0 {
            self.len -= 1;
        }
    }
}
