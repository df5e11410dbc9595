// Random calls of a pair table, each answer compared with that of a plain list.
use crate::model::Model;
use pairs::row::{Link, PutRefusal, Row};
use pairs::table::PairTable;
use program_tools::random::Dice;
use std::alloc::{AllocError, Global};
use std::fmt;

// What came of a trial.
#[derive(Clone, Copy, Default)]
pub struct Outcome {
    pub steps: u32,
    // answers that were not those of the list
    pub wrong: u32,
    // the most rows at a time
    pub most: u16,
    // refusals of a full table
    pub full: u32,
}

impl fmt::Display for Outcome {
    fn fmt<W: fmt::Write>(&self, f: &mut fmt::Formatter<W>) -> fmt::Result {
        let Outcome {
            steps,
            wrong,
            most,
            full,
        } = *self;
        write!(
            f,
            "{steps} calls, {wrong} wrong, at most {most} rows, {full} times full"
        )
    }
}

// Whether the questions about a relationship and a from cell have the list's answers, for every number.
fn agree<P: PairTable>(table: &P, model: &Model, relationship: u8, from: u8) -> bool {
    let to_cells = table.to_cells(relationship, from);
    let instances = table.instances(relationship, from);
    (0..=u8::MAX).all(|cell| {
        let found = model.find(Link {
            relationship,
            from,
            to: cell,
        });
        to_cells.contains(cell) == found.is_some()
            && instances.contains(cell) == model.has_instance(relationship, from, cell)
            && table.find(Link {
                relationship,
                from,
                to: cell,
            }) == found
    }) && table.count() as usize == model.count()
}

// One call of the table and the list; the table fills up or runs empty.
fn step<P: PairTable>(
    table: &mut P,
    model: &mut Model,
    dice: &mut Dice,
    filling: bool,
    outcome: &mut Outcome,
) -> Result<(), AllocError> {
    let row = Row {
        relationship: dice.number(3, 31),
        from: dice.number(10, 127),
        to: dice.number(14, 127),
        instance: dice.number(128, 127),
    };
    let link = row.link();
    let puts = if filling { 12 } else { 3 };
    let right = if dice.below(16) < puts {
        let said = table.put(row);
        if said == Err(PutRefusal::Full) {
            outcome.full = outcome.full.saturating_add(1);
        }
        said == model.put(row)?
    } else {
        table.drop_row(link) == model.drop_row(link)
    };
    let found = table.find(link) == model.find(link);
    let whole = dice.below(32) > 0 || agree(table, model, row.relationship, row.from);
    if !(right
        && found
        && whole
        && table.count() as usize == model.count()
        && table.limit() == 256)
    {
        outcome.wrong = outcome.wrong.saturating_add(1);
    }
    outcome.most = outcome.most.max(table.count());
    outcome.steps = outcome.steps.saturating_add(1);
    Ok(())
}

// Fills and empties the table by turns, and clears it now and then.
pub(crate) fn trial<P: PairTable>(
    heap: Global,
    table: &mut P,
    seed: u64,
    rounds: u32,
) -> Result<Outcome, AllocError> {
    let mut model = Model::new(heap, 256);
    let mut dice = Dice::new(seed);
    let mut outcome = Outcome::default();
    for round in 0..rounds {
        for _ in 0..1500u32 {
            step(table, &mut model, &mut dice, round % 2 == 0, &mut outcome)?;
        }
        if round % 5 == 4 {
            table.clear();
            model.clear();
        }
    }
    Ok(outcome)
}
