// Reads a model text from standard input, and prints one line about it.
#![tactic(auto)]

use grammar::judge::judge;
use grammar::sink::Nowhere;
use program_tools::input::read_at_most;
use words::survey::{Extent, LONGEST_TEXT};

fn main(rt: HostRuntime) -> anyhow::Result<()> {
    // one byte more shows that a text is too long, however much there is
    let text = read_at_most(rt.alloc(), rt.stdin(), LONGEST_TEXT + 1)?;
    match judge(text.as_slice(), &mut Nowhere) {
        Ok(Extent { words, depth }) => println!(rt;
            "a program of {words} words, depth {depth}; declarations and types not judged yet"
        )?,
        Err(refusal) => println!(rt; "{refusal}")?,
    }
    Ok(())
}
