ghost use Rattle.std.specs.Prelude.{◌≡◌};
ghost use Rattle.words.specs.Surveys.{surveyed};

use crate::cursor::Cursor;
use crate::kind::Kind;
use crate::nesting::Nesting;
use crate::refusal::Unreadable;

// The longest text, in bytes.
pub const LONGEST_TEXT: usize = 32_768;

// A text's words and brackets: how many words, and how deep the brackets go.
#[derive(Clone, Copy, PartialEq, Eq, Debug)]
pub struct Extent {
    pub words: usize,
    pub depth: usize,
}

// Looks at every word of a text: its size, its words and its brackets, in this order.
pub fn survey(text: &[u8]) -> Result<Extent, Unreadable>
    ensures { result ≡ surveyed text.now }
{
    if text.len() > LONGEST_TEXT {
        return Err(Unreadable::TooLong);
    }
    let mut nesting = Nesting::default();
    let mut words = 0;
    for word in Cursor::new(text) {
        if word.kind == Kind::Fault {
            return Err(Unreadable::NotAllowed { place: word.place });
        }
        nesting.pass(word.kind, word.place);
        words += 1;
    }
    if let Some(place) = nesting.over {
        return Err(Unreadable::TooDeep { place });
    }
    Ok(Extent {
        words,
        depth: nesting.most,
    })
}
