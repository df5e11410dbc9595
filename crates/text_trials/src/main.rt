// Judges the text that each line of standard input spells, and prints for each a line: the refusal's number and place,
// or `ok`, how many words there are and how deep the brackets go; and after a stroke what the grammar says of a text
// that can be read. tools/text_cases.py writes the lines and what is expected of them.
#![tactic(auto)]

ghost use Rattle.std.specs.Prelude.{◌≡◌, IfOk, string_bytes};
ghost use Rattle.text_trials.specs.Verdicts.{line_of};
ghost use Rattle.words.specs.Surveys.{surveyed};

use grammar::judge::{TextRefusal, judge};
use grammar::parse::Unexpected;
use grammar::sink::Nowhere;
use spelled_texts::spelled::decode;
use std::alloc::{AllocError, Global};
use std::io::{BufRead, BufReader};
use words::survey::{Extent, survey};

// The line that is printed of a text.
fn verdict(heap: Global, text: &[u8]) -> Result<String, AllocError>
    ensures { IfOk result (λ line. string_bytes line ≡ line_of (surveyed text.now)) }
{
    match survey(text) {
        Ok(Extent { words, depth }) => format!(in heap; "ok {words} {depth}"),
        Err(refusal) => format!(in heap; "{refusal}"),
    }
}

// What the grammar says of a text: a program, or the first word that cannot come.
fn grammar_verdict(heap: Global, text: &[u8]) -> Result<String, AllocError> {
    match judge(text, &mut Nowhere) {
        Ok(_) => String::from_str(heap, "program"),
        Err(TextRefusal::Unreadable(_)) => String::from_str(heap, "-"),
        Err(refusal) => format!(in heap; "{refusal}"),
    }
}

fn main(rt: HostRuntime) -> anyhow::Result<()> {
    let heap = rt.alloc();
    for line in BufReader::new(heap, rt.stdin())?.lines(heap) {
        let text = decode(heap, line?.as_str())?;
        let words = verdict(heap, text.as_slice())?;
        let grammar = grammar_verdict(heap, text.as_slice())?;
        println!(rt; "{words} / {grammar}")?;
    }
    Ok(())
}
