ghost use Rattle.std.specs.Prelude.{◌≤◌, length};

use crate::kind::Kind;

// A word: what it is, its bytes as a part of the text, and the place of its first byte.
#[derive(Clone, Copy)]
pub struct Word<'a> {
    pub kind: Kind,
    pub bytes: &'a [u8],
    pub place: usize,
}

// A place in a text, from which words are handed out one after another.
#[derive(Clone, Copy)]
pub struct Cursor<'a> {
    text: &'a [u8],
    at: usize,
    ghost within: { at ≤ length text.now },
}

pub mod reading;
