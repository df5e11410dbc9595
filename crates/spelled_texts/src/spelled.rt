// Texts spelled in one line of plain ASCII. A line is pieces with `|` between them. `17*xy` is the piece xy seventeen
// times, and any other piece is itself. In a piece `\HH`, with two lower-case hexadecimal digits, is one byte.
ghost use Rattle.std.specs.Prelude.{◌≡◌, ◌<◌, ◌≤◌, length, IfSome, IfOk, OnOk};
ghost use Rattle.spelled_texts.specs.Spelling.{hex_value, first_spelled, Adds, IsTimes, spelling, AddsPiece, Spells};

use anyhow::ensure;
use std::alloc::Global;
use std::num::ParseIntError;

// A byte, and how many bytes of a piece spell it.
#[derive(Clone, Copy)]
pub(crate) struct Spelled {
    pub(crate) byte: u8,
    pub(crate) length: usize,
}

fn digit_value(digit: u8) -> Option<u8>
    ensures { result ≡ hex_value digit }
{
    match digit {
        b'0'..=b'9' => Some(digit - b'0'),
        b'a'..=b'f' => Some(digit - b'a' + 10),
        _ => None,
    }
}

// The first byte that a piece spells; none at its end, or where an escape is not whole.
fn first_byte(piece: &[u8]) -> Option<Spelled>
    ensures is { result ≡ first_spelled piece.now }
    ensures within { IfSome result (λ s. (0 < s.length) × (s.length ≤ length piece.now)) }
{
    match piece {
        [b'\\', high, low, ..] => {
            let byte = 16 * digit_value(*high)? + digit_value(*low)?;
            Some(Spelled { byte, length: 3 })
        }
        [] | [b'\\', ..] => None,
        [byte, ..] => Some(Spelled {
            byte: *byte,
            length: 1,
        }),
    }
}

// Adds the bytes that a piece spells to a text.
fn add_piece(text: &mut Vec<u8>, piece: &[u8]) -> anyhow::Result<()>
    ensures { OnOk result (Adds text.old.items piece.now text.new.items) }
{
    let mut rest = piece;
    while let Some(spelled) = first_byte(rest) {
        text.push(spelled.byte)?;
        rest = &rest[spelled.length..];
    }
    ensure!(rest.is_empty(), "an escape that is not whole");
    Ok(())
}

// How often a piece is spelled, and what is spelled each time.
fn times_and_spelling(piece: &str) -> Result<(u32, &str), ParseIntError>
    ensures { IfOk result (λ r. IsTimes piece.now r.0 × (r.1.now ≡ spelling piece.now)) }
{
    match piece.split_once('*') {
        Some((times, spelling)) => Ok((times.parse()?, spelling)),
        None => Ok((1, piece)),
    }
}

// Adds a piece to a text, as often as the piece says.
fn add_repeated(text: &mut Vec<u8>, piece: &str) -> anyhow::Result<()>
    ensures { OnOk result (AddsPiece text.old.items piece.now text.new.items) }
{
    let (times, spelling) = times_and_spelling(piece)?;
    for _ in 0..times {
        add_piece(text, spelling.as_bytes())?;
    }
    Ok(())
}

// The text that a line spells.
pub fn decode(heap: Global, line: &str) -> anyhow::Result<Vec<u8>>
    ensures { IfOk result (λ text. Spells line.now text.items) }
{
    let mut text = Vec::new(heap);
    for piece in line.split('|') {
        add_repeated(&mut text, piece)?;
    }
    Ok(text)
}
