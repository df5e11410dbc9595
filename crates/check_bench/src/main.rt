// Measures how fast a text is checked: `check_bench run < model.relj`. Without that word it prints how it is run, and
// measures nothing.
#![tactic(auto)]

use program::check::check;
use program::program::Program;
use program_tools::arguments::first_is;
use program_tools::input::read_at_most;
use std::env;
use std::time::Instant;
use words::survey::LONGEST_TEXT;

// Each round checks the text so often, and the fastest round counts.
const PASSES: u32 = 50;

const ROUNDS: u32 = 40;

// How many passes of a round accept the text.
fn accepted(text: &[u8], place: &mut Program) -> usize {
    let mut scratch = [0u16; 2048];
    (0..PASSES)
        .filter(|_| check(text, &mut scratch, place).is_ok())
        .count()
}

fn measure(rt: &HostRuntime) -> anyhow::Result<()> {
    let text = read_at_most(rt.alloc(), rt.stdin(), LONGEST_TEXT)?;
    let mut place = Program::new();
    let mut best = f64::INFINITY;
    let mut passes = 0;
    for _ in 0..ROUNDS {
        let start = Instant::now(rt)?;
        passes = accepted(text.as_slice(), &mut place);
        best = best.min(start.elapsed(rt)?.as_secs_f64());
    }
    let size = text.len();
    let micros = best * 1e6 / PASSES as f64;
    println!(rt; "{size} bytes: {micros:.1} us a check, {passes} of {PASSES} accepted")?;
    Ok(())
}

fn main(rt: HostRuntime) -> anyhow::Result<()> {
    if first_is(env::args(&rt)?, "run") {
        return measure(&rt);
    }
    println!(rt; "check_bench run < model.relj: measures how fast the text is checked")?;
    Ok(())
}
