// Random calls of each store, compared with a plain list of cells; and each store filled to its limits.
#![tactic(auto)]

mod plain;
mod trial;

use even_store::even::EvenStore;
use packed_store::packed::PackedStore;
use plain::{Charging, Plain};
use store::Store;
use trial::Trial;

fn report<S: Store + Drop>(
    rt: &HostRuntime,
    name: &str,
    mut trial: Trial<S>,
) -> anyhow::Result<()> {
    let played = trial.play(30000)?;
    println!(rt; "{name}, random: {played}")?;
    let filled = trial.fill()?;
    println!(rt; "{name}, filled: {filled}")?;
    Ok(())
}

fn main(rt: HostRuntime) -> anyhow::Result<()> {
    let heap = rt.alloc();
    let plain = Plain::new(heap, 1024, Charging::Even);
    report(&rt, "even", Trial::new(EvenStore::new(), plain))?;
    let plain = Plain::new(heap, 512, Charging::Packed);
    report(&rt, "packed", Trial::new(PackedStore::new(), plain))?;
    Ok(())
}
