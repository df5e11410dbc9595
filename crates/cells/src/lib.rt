// Sets of cells: one bit for each of 128 cells, in two words of 64 bits.
#![tactic(auto)]

ghost use Rattle.std.specs.Prelude.{◌≡◌, ℕ, ◌+◌, ◌<◌, true, false, not, ◌&&◌, ◌||◌, ◌==◌, nat_lt};
ghost use Rattle.cells.specs.Members.{has, none, Words, counted, Lowest, Renumbered};

// A set of cells. Every pair of words is a set, and two sets with the same members are equal.
// A number above 127 is no cell: no set contains it, and putting it in or taking it out changes nothing.
#[derive(Clone, Copy, PartialEq, Eq, Debug, Default)]
pub struct CellSet {
    low: u64,
    high: u64,
}

impl CellSet {
    // The set without members.
    pub const fn empty() -> CellSet
        ensures value { result ≡ none }
        ensures members { (d : ℕ) → has result d ≡ false }
        ensures words { Words result }
    {
        CellSet { low: 0, high: 0 }
    }

    // The set of the cell alone; without members where the number is no cell.
    fn only(cell: u8) -> CellSet
        ensures members { (d : ℕ) → has result d ≡ (cell == d && nat_lt d 128) }
        ensures words { Words result }
    {
        if cell < 64 {
            CellSet {
                low: 1 << cell,
                high: 0,
            }
        } else if cell < 128 {
            CellSet {
                low: 0,
                high: 1 << (cell - 64),
            }
        } else {
            CellSet::empty()
        }
    }

    // Whether the cell is a member.
    pub fn contains(self, cell: u8) -> bool
        ensures { result ≡ has self cell }
    {
        let CellSet { low, high } = CellSet::only(cell);
        self.low & low != 0 || self.high & high != 0
    }

    // The same members and this cell.
    pub fn with(self, cell: u8) -> CellSet
        ensures members { (d : ℕ) → has result d ≡ (has self d || (cell == d && nat_lt d 128)) }
        ensures words { Words result }
    {
        self.union(CellSet::only(cell))
    }

    // The same members but for this cell.
    pub fn without(self, cell: u8) -> CellSet
        ensures members { (d : ℕ) → has result d ≡ (has self d && not (cell == d)) }
        ensures words { Words result }
    {
        let CellSet { low, high } = CellSet::only(cell);
        CellSet {
            low: self.low & !low,
            high: self.high & !high,
        }
    }

    // The members of either set.
    pub fn union(self, other: CellSet) -> CellSet
        ensures members { (d : ℕ) → has result d ≡ (has self d || has other d) }
        ensures words { Words result }
    {
        CellSet {
            low: self.low | other.low,
            high: self.high | other.high,
        }
    }

    // The least member.
    pub fn lowest(self) -> Option<u8>
        ensures { Lowest self result }
    {
        if self.low != 0 {
            Some(self.low.trailing_zeros() as u8)
        } else if self.high != 0 {
            Some(64 + self.high.trailing_zeros() as u8)
        } else {
            None
        }
    }

    // How many members there are.
    pub fn size(self) -> u8
        ensures { result ≡ counted (has self) 128 }
    {
        (self.low.count_ones() + self.high.count_ones()) as u8
    }

    // Whether the two sets have the same members; then they are equal, as the derived `==` tells.
    pub fn same_members(self, other: CellSet) -> bool
        ensures equal { result ≡ true → self ≡ other }
        ensures agree { ((d : ℕ) → has self d ≡ has other d) → result ≡ true }
    {
        self == other
    }

    // The set of the members' new numbers: member c goes to table[c], or is dropped where that is above 127.
    pub fn renumbered(self, table: &[u8; 128]) -> CellSet
        ensures members { Renumbered self table.now result }
        ensures words { Words result }
    {
        let mut moved = CellSet::empty();
        for (c, new) in table.iter().enumerate() {
            if self.contains(c as u8) {
                moved = moved.with(*new);
            }
        }
        moved
    }
}
