// Measures how fast a text is surveyed: `word_bench run`. Without that word it prints how it is run, and measures nothing.
#![tactic(auto)]

ghost use Rattle.std.specs.Prelude.{◌≡◌, IfOk, vec_len};

use anyhow::{anyhow, ensure};
use program_tools::arguments::first_is;
use std::alloc::{AllocError, Global};
use std::env;
use std::time::Instant;
use words::refusal::Unreadable;
use words::survey::survey;

// Each round surveys so many bytes, and the fastest round of a size counts.
const BYTES_OF_A_ROUND: u32 = 1 << 25;

const ROUNDS: u32 = 7;

// The texts that are measured repeat this one, a small model laid out by hand.
const MODEL: &[u8; 469] = b"class Lot extends Object {}
class Trough extends Object {}

relationship Malaxed extends Relation (Lot, Trough) {
    boolean sealed;
}

relationship Warm extends Malaxed (Lot, Trough) {}

class Mill extends Object {
    boolean main(boolean b) {
        Lot p;
        Trough t;
        Warm w;
        p = new Lot();
        t = new Trough();
        w = Warm.add(p, t);
        if (w == null) { b = false; } else { w.sealed = b; };
        return w.sealed;
    }
}

";

// A text of so many bytes.
fn text_of(heap: Global, size: usize) -> Result<Vec<u8>, AllocError>
    ensures { IfOk result (λ text. vec_len text ≡ size) }
{
    MODEL.iter().copied().cycle().take(size).collect(heap)
}

// How many words all passes see together. Each pass looks at another text, whose last byte differs, so that none can
// be left out.
fn words_seen(text: &mut [u8], passes: u32) -> Result<usize, Unreadable> {
    let mut seen: usize = 0;
    for pass in 0..passes {
        if let Some(last) = text.last_mut() {
            *last = if pass % 2 == 0 { b' ' } else { b'\n' };
        }
        seen = seen.wrapping_add(survey(text)?.words);
    }
    Ok(seen)
}

// The seconds of the fastest round.
fn fastest(rt: &HostRuntime, text: &mut [u8], passes: u32) -> anyhow::Result<f64> {
    let mut best = f64::INFINITY;
    for _ in 0..ROUNDS {
        let start = Instant::now(rt)?;
        let seen = words_seen(text, passes).map_err(|_| anyhow!("a text that is refused"));
        let seconds = start.elapsed(rt)?.as_secs_f64();
        ensure!(seen? > 0, "a text of no words");
        best = best.min(seconds);
    }
    Ok(best)
}

fn measure(rt: &HostRuntime) -> anyhow::Result<()> {
    for kib in [4u32, 8, 16, 32] {
        let size = kib * 1024;
        let passes = BYTES_OF_A_ROUND / size;
        let mut text = text_of(rt.alloc(), size as usize)?;
        let seconds = fastest(rt, text.as_mut_slice(), passes)?;
        let micros = seconds * 1e6 / passes as f64;
        let rate = BYTES_OF_A_ROUND as f64 / seconds / 1e6;
        println!(rt; "{kib:>2} KiB: {micros:>6.2} us a pass, {rate:>6.1} million bytes a second")?;
    }
    Ok(())
}

fn main(rt: HostRuntime) -> anyhow::Result<()> {
    if first_is(env::args(&rt)?, "run") {
        return measure(&rt);
    }
    println!(rt; "word_bench run: measures how fast texts of 4 to 32 KiB are surveyed")?;
    Ok(())
}
