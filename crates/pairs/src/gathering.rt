// Sets of what items have.
ghost use Rattle.std.specs.Prelude.{Option, ℕ, filter_map};
ghost use Rattle.pairs.specs.Gathering.{Gathered, Tells};

use cells::CellSet;

// The cells that `cell` has for the items; above 127 it has none.
pub fn gathered<T, F: Fn(&T) -> Option<u8>>(items: &[T], cell: F) -> CellSet
    requires { F.IsAlwaysCallable cell }
    ensures { (told : T → Option ℕ) → Tells F.Fn cell told → Gathered (filter_map told items.now) result }
{
    items
        .iter()
        .filter_map(cell)
        .fold(CellSet::empty(), CellSet::with)
}
