// How many calls of a pair table are done in a second.
use anyhow::anyhow;
use pairs::row::Row;
use pairs::table::PairTable;
use program_tools::random::Dice;
use std::time::Instant;

const CALLS: u32 = 1_000_000;

fn random_row(dice: &mut Dice) -> Row {
    Row {
        relationship: dice.below(32),
        from: dice.below(128),
        to: dice.below(128),
        instance: dice.below(128),
    }
}

// Puts rows in until there are so many, or many tries have passed.
fn fill<P: PairTable>(table: &mut P, dice: &mut Dice, rows: u16) {
    for _ in 0..4096u32 {
        if table.count() < rows {
            let _ = table.put(random_row(dice));
        }
    }
}

// Calls in a second, from calls and the microseconds that they took.
fn rate(calls: u32, micros: u128) -> u128 {
    (calls as u128 * 1_000_000).checked_div(micros).unwrap_or(0)
}

fn finds<P: PairTable>(rt: &HostRuntime, table: &P, dice: &mut Dice) -> anyhow::Result<u128> {
    let start = Instant::now(rt)?;
    let mut found = 0u32;
    for _ in 0..CALLS {
        let row = random_row(dice);
        if table.find(row.link()).is_some() {
            found = found.saturating_add(1);
        }
    }
    let took = start.elapsed(rt)?;
    if found > CALLS {
        return Err(anyhow!("more found than asked for"));
    }
    Ok(rate(CALLS, took.as_micros()))
}

// Puts a row in and takes it out again; in a full table the put is refused.
fn puts<P: PairTable>(
    rt: &HostRuntime,
    table: &mut P,
    dice: &mut Dice,
    calls: u32,
) -> anyhow::Result<u128> {
    let start = Instant::now(rt)?;
    for _ in 0..calls {
        let row = random_row(dice);
        if table.put(row).is_ok() {
            let _ = table.drop_row(row.link());
        }
    }
    let took = start.elapsed(rt)?;
    Ok(rate(calls, took.as_micros()))
}

// A table of so many rows; a worn one has seen a million puts and drops, the last row coming after them.
fn prepared<P: PairTable>(
    rt: &HostRuntime,
    table: &mut P,
    dice: &mut Dice,
    rows: u16,
    worn: bool,
) -> anyhow::Result<()> {
    table.clear();
    if worn {
        fill(table, dice, rows.saturating_sub(1));
        puts(rt, table, dice, 1_000_000)?;
    }
    fill(table, dice, rows);
    Ok(())
}

// Prints the speeds at 0, 128 and 256 rows, and again after a million puts and drops.
pub(crate) fn speeds<P: PairTable>(
    rt: &HostRuntime,
    name: &str,
    table: &mut P,
) -> anyhow::Result<()> {
    let mut dice = Dice::new(88172645463325252);
    for worn in [false, true] {
        for rows in [0u16, 128, 256] {
            prepared(rt, table, &mut dice, rows, worn)?;
            let find = finds(rt, table, &mut dice)?;
            let put = puts(rt, table, &mut dice, CALLS)?;
            let count = table.count();
            let state = if worn {
                "after a million puts and drops"
            } else {
                "fresh"
            };
            println!(rt;
                "{name}, {count} rows, {state}: {find} finds a second, {put} puts a second"
            )?;
        }
    }
    Ok(())
}
