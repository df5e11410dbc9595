// Trials of the pair tables and of sets of cells against plain lists.
// With an argument it measures how fast the tables are instead.
#![tactic(auto)]

mod limits;
mod model;
mod sets;
mod speed;
mod trial;

use limits::limits;
use pairs::table::PairTable;
use probe_table::ProbeTable;
use row_list::RowList;
use sets::sets;
use speed::speeds;
use std::env;
use trial::trial;

const SEED: u64 = 88172645463325252;

fn tried<P: PairTable>(rt: &HostRuntime, name: &str, table: &mut P) -> anyhow::Result<()> {
    let good = limits(table);
    println!(rt; "{name} at its limits: {good} of 8 checks hold")?;
    table.clear();
    let outcome = trial(rt.alloc(), table, SEED, 20)?;
    println!(rt; "{name}: {outcome}")?;
    Ok(())
}

fn run(rt: &HostRuntime) -> anyhow::Result<()> {
    let mut rows = RowList::new();
    let mut probes = ProbeTable::new();
    if env::args(rt)?.count() > 1 {
        speeds(rt, "row list", &mut rows)?;
        return speeds(rt, "probe table", &mut probes);
    }
    tried(rt, "row list", &mut rows)?;
    tried(rt, "probe table", &mut probes)?;
    let wrong = sets(rt.alloc(), SEED, 2000)?;
    println!(rt; "sets of cells: 2000 calls, {wrong} wrong")?;
    Ok(())
}

fn main(rt: HostRuntime) -> anyhow::Result<()> {
    run(&rt)
}
