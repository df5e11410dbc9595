// Checks the text that each line of standard input spells, with a scratch of as many entries as the line says first, and
// prints for each a line: the refusal's number and place, or `accepted` and how many classes, relationships, fields,
// methods and nodes there are. It tells if the scratch is not all zero afterwards, or a refused text changed the place.
// tools/check_cases.py writes the lines and what is expected of them.
#![tactic(auto)]

use anyhow::Context;
use program::check::check;
use program::code::Counts;
use program::program::Program;
use program::refusal::Refusal;
use spelled_texts::spelled::decode;
use std::fmt;
use std::io::{BufRead, BufReader};

// What came of a text.
#[derive(Clone, Copy)]
struct Verdict {
    answer: Result<Counts, Refusal>,
    // a refused text changed the place
    another_program: bool,
    zero_scratch: bool,
}

impl fmt::Display for Verdict {
    fn fmt<W: fmt::Write>(&self, f: &mut fmt::Formatter<W>) -> fmt::Result {
        match self.answer {
            Ok(counts) => write!(f, "accepted {counts}")?,
            Err(refusal) => write!(f, "{refusal}")?,
        }
        if self.another_program {
            write!(f, " and another program")?;
        }
        if !self.zero_scratch {
            write!(f, " and a scratch that is not zero")?;
        }
        Ok(())
    }
}

fn judged(text: &[u8], scratch: &mut [u16], place: &mut Program) -> Verdict {
    let before = place.counts();
    let answer = check(text, scratch, place);
    let after = place.counts();
    Verdict {
        answer: answer.map(|()| after),
        another_program: answer.is_err() && before.nodes != after.nodes,
        zero_scratch: scratch.iter().all(|entry| *entry == 0),
    }
}

fn main(rt: HostRuntime) -> anyhow::Result<()> {
    let heap = rt.alloc();
    let mut place = Program::new();
    for line in BufReader::new(heap, rt.stdin())?.lines(heap) {
        let line = line?;
        let (entries, spelled) = line
            .as_str()
            .split_once(' ')
            .context("a line without a number of entries")?;
        let text = decode(heap, spelled)?;
        let entries = entries.parse::<u32>()?;
        let mut scratch = vec![in heap; 7u16; entries as usize]?;
        let verdict = judged(text.as_slice(), scratch.as_mut_slice(), &mut place);
        println!(rt; "{verdict}")?;
    }
    Ok(())
}
