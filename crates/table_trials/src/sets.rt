// Random calls of sets of cells, each compared with a plain list of members.
use cells::CellSet;
use program_tools::random::Dice;
use std::alloc::{AllocError, Global};

// A set as the list of its members.
#[derive(Drop)]
struct Members {
    list: Vec<u8>,
}

impl Members {
    fn has(&self, cell: u8) -> bool {
        self.list.contains(&cell)
    }

    fn put(&mut self, cell: u8) -> Result<(), AllocError> {
        if cell < 128 && !self.has(cell) {
            self.list.push(cell)?;
        }
        Ok(())
    }

    fn take(&mut self, cell: u8) {
        self.list.retain(|member| *member != cell);
    }

    // Whether some member has the new number d, which is a cell.
    fn goes_to(&self, table: &[u8; 128], d: u8) -> bool {
        d < 128
            && self
                .list
                .iter()
                .any(|member| table.get(*member as usize) == Some(&d))
    }
}

// Whether the set has the same members, as many, and the same least one.
fn agree(set: CellSet, members: &Members) -> bool {
    (0..=u8::MAX).all(|cell| set.contains(cell) == members.has(cell))
        && set.lowest() == members.list.iter().copied().min()
        && set.size() as usize == members.list.len()
}

fn renumbers(set: CellSet, members: &Members, dice: &mut Dice) -> bool {
    let mut table = [255u8; 128];
    for number in &mut table {
        *number = dice.below(200);
    }
    let moved = set.renumbered(&table);
    (0..=u8::MAX).all(|cell| moved.contains(cell) == members.goes_to(&table, cell))
}

// The set before and after a cell was put in or taken out: both together are the larger, and they are the same if that did nothing.
fn joins(after: CellSet, before: CellSet, cell: u8) -> bool {
    let both = after.union(before);
    let nothing = before.contains(cell) == after.contains(cell);
    both.same_members(before.with(cell)) == (both.contains(cell) || cell > 127)
        && after.same_members(before) == nothing
}

// How many of the steps had a wrong set.
pub(crate) fn sets(heap: Global, seed: u64, steps: u32) -> Result<u32, AllocError> {
    let mut dice = Dice::new(seed);
    let mut set = CellSet::empty();
    let mut members = Members {
        list: Vec::new(heap),
    };
    let mut wrong = 0u32;
    for _ in 0..steps {
        let cell = dice.number(128, 127);
        let before = set;
        if dice.below(2) == 0 {
            set = set.with(cell);
            members.put(cell)?;
        } else {
            set = set.without(cell);
            members.take(cell);
        }
        let right = agree(set, &members)
            && renumbers(set, &members, &mut dice)
            && joins(set, before, cell);
        if !right {
            wrong = wrong.saturating_add(1);
        }
    }
    Ok(wrong)
}
