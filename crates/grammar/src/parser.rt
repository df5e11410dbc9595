ghost use Rattle.std.specs.Prelude.{◌≤◌, length};
ghost use Rattle.words.specs.Words.{unread};

use words::cursor::{Cursor, Word};

// The words of a text from some word on, which a `usize` counts, and the place of the text's end.
// The sink is handed to each method and is no field: the methods that only look at words then say nothing of it.
#[derive(Drop)]
pub(crate) struct Parser<'a> {
    pub(crate) cursor: Cursor<'a>,
    pub(crate) word: Option<Word<'a>>,
    pub(crate) end: usize,
    ghost few: { length (unread cursor) ≤ 18446744073709551615 },
}

pub(crate) mod declarations;
pub(crate) mod items;
pub(crate) mod reading;
pub(crate) mod statements;
