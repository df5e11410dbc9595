ghost use Rattle.std.specs.Prelude.{◌≡◌};
ghost use Rattle.std.specs.Iterator.{item_count};
ghost use Rattle.words.specs.Words.{words, unread, Reads};

use super::{Cursor, Word};
use crate::bytes::separators;
use crate::spelling::{Front, front_of};

impl<'a> Cursor<'a> {
    // Stands before the first word of a text.
    pub fn new(text: &'a [u8]) -> Cursor<'a>
        ensures { unread result ≡ words text.now }
    {
        Cursor { text, at: 0 }
    }
}

impl<'a> Iterator for Cursor<'a> {
    type Item = Word<'a>;

    ghost next_gives = { Reads };

    ghost remaining = { item_count unread };

    // Hands out the next word; none at the text's end.
    fn next(&mut self) -> Option<Word<'a>> {
        let text = self.text;
        let place = self.at + separators(&text[self.at..]);
        let rest = &text[place..];
        let Front { kind, size } = front_of(rest)?;
        self.at = place + size;
        Some(Word {
            kind,
            bytes: &rest[..size],
            place,
        })
    }
}
