ghost use Rattle.std.specs.Prelude.{◌≡◌, ℕ};
ghost use Rattle.tables.specs.Below.{pushed_below};
ghost use Rattle.tables.specs.Listed.{listed};
ghost use Rattle.tables.specs.Walks.{ComputesBelow};

use crate::table::Table;

// Adds the items that `item` makes of 0 to n - 1, in their order, while there is room.
pub fn fill<T: Copy, F: Fn(usize) -> T, const N: usize>(item: F, n: usize, out: &mut Table<T, N>)
    requires { F.IsAlwaysCallable item }
    ensures { (t : ℕ → T) → ComputesBelow n (F.post item) t → listed out.new ≡ pushed_below N t n (listed out.old) }
{
    for i in 0..n {
        out.push(item(i));
    }
}
