use crate::plain::{CELL_LIMIT, Plain};
use cells::CellSet;
use program_tools::random::Random;
use std::alloc::AllocError;
use std::fmt;
use store::Store;
use store::cell::Head;
use values::value::Value;

const SEED_OF_PLAY: u64 = 20261117;

const SEED_OF_FILL: u64 = 20261118;

// How many cells and fields are tried when a store is filled, some more than there is room for.
const CELLS_TRIED: u8 = 130;

const FIELDS_TRIED: u8 = 10;

// How the calls went, and how many answers were not those of the plain list.
#[derive(Clone, Copy, Default)]
pub struct Tally {
    made: u32,
    refused: u32,
    written: u32,
    absent: u32,
    wrong: u32,
}

impl fmt::Display for Tally {
    fn fmt<W: fmt::Write>(&self, f: &mut fmt::Formatter<W>) -> fmt::Result {
        write!(
            f,
            "{} made, {} refused, {} written, {} absent, {} wrong",
            self.made, self.refused, self.written, self.absent, self.wrong
        )
    }
}

fn count(counter: &mut u32) {
    *counter = counter.wrapping_add(1);
}

fn some_head(random: &mut Random) -> Head {
    if random.below(2) == 0 {
        return Head::Object {
            class: random.below(32),
        };
    }
    let parent = (random.below(2) != 0).then(|| random.below(128));
    Head::Instance {
        relationship: random.below(32),
        parent,
        from: random.below(128),
        to: random.below(128),
    }
}

fn some_value(random: &mut Random) -> Value {
    match random.below(4) {
        0 => Value::Truth(random.below(2) == 1),
        1 => Value::Cell(random.below(128)),
        2 => Value::Set(
            CellSet::empty()
                .with(random.below(128))
                .with(random.below(128)),
        ),
        _ => Value::Null,
    }
}

// A store beside a plain list of cells: each call goes to both, and the answers are compared.
#[derive(Drop)]
pub struct Trial<S> {
    store: S,
    plain: Plain,
    tally: Tally,
}

impl<S: Store> Trial<S> {
    pub(crate) fn new(store: S, plain: Plain) -> Trial<S> {
        Trial {
            store,
            plain,
            tally: Tally::default(),
        }
    }

    fn judge(&mut self, right: bool) {
        if !right {
            count(&mut self.tally.wrong);
        }
    }

    fn clear(&mut self) {
        self.store.clear();
        self.plain.clear();
    }

    fn make(&mut self, head: Head, fields: u8) -> Result<(), AllocError> {
        let made = self.store.make(head, fields);
        let right = made == self.plain.make(head, fields)?;
        self.judge(right);
        count(if made.is_ok() {
            &mut self.tally.made
        } else {
            &mut self.tally.refused
        });
        Ok(())
    }

    fn put(&mut self, cell: u8, field: u8, value: Value) {
        let put = self.store.put(cell, field, value);
        let right = put == self.plain.put(cell, field, value);
        self.judge(right);
        count(if put.is_ok() {
            &mut self.tally.written
        } else {
            &mut self.tally.absent
        });
    }

    // Which answers about one cell, the sums and the limits are those of the plain list.
    fn answers(&self, cell: u8, field: u8) -> [bool; 8] {
        [
            self.store.head(cell) == self.plain.head(cell),
            self.store.fields(cell) == self.plain.fields(cell),
            self.store.value(cell, field) == self.plain.value(cell, field),
            usize::from(self.store.cells()) == self.plain.cells(),
            self.store.slots() == self.plain.slots(),
            self.store.charge(field) == self.plain.charge(field),
            self.store.cell_limit() == CELL_LIMIT,
            self.store.slot_limit() == self.plain.slot_limit(),
        ]
    }

    fn ask(&mut self, cell: u8, field: u8) {
        for right in self.answers(cell, field) {
            self.judge(right);
        }
    }

    // That many calls, chosen at random, and a question after each.
    pub(crate) fn play(&mut self, turns: u32) -> Result<Tally, AllocError> {
        self.tally = Tally::default();
        let mut random = Random::new(SEED_OF_PLAY);
        for _ in 0..turns {
            let choice = random.below(200);
            if choice == 0 && random.below(4) == 0 {
                self.clear();
            } else if choice < 60 {
                let head = some_head(&mut random);
                self.make(head, random.below(10))?;
            } else {
                let cell = random.below(140);
                let field = random.below(10);
                self.put(cell, field, some_value(&mut random));
            }
            let cell = random.below(140);
            self.ask(cell, random.below(10));
        }
        Ok(self.tally)
    }

    // For each number of fields: more cells than there is room for; then every field of every cell is written, and after
    // that every one is read.
    pub(crate) fn fill(&mut self) -> Result<Tally, AllocError> {
        self.tally = Tally::default();
        let mut random = Random::new(SEED_OF_FILL);
        for fields in 0..FIELDS_TRIED {
            self.clear();
            for class in 0..CELLS_TRIED {
                self.make(Head::Object { class }, fields)?;
            }
            for cell in 0..CELLS_TRIED {
                for field in 0..FIELDS_TRIED {
                    self.put(cell, field, some_value(&mut random));
                }
            }
            for cell in 0..CELLS_TRIED {
                for field in 0..FIELDS_TRIED {
                    self.ask(cell, field);
                }
            }
        }
        Ok(self.tally)
    }
}
