ghost use Rattle.std.specs.Prelude.{◌≡◌, Some, ◌++◌, ◌∷◌};
ghost use Rattle.std.specs.Fmt.{decimal};
ghost use Rattle.grammar.specs.Judged.{Judged, number_of, place_of};
ghost use Rattle.grammar.specs.declared.judge.TextRefusal.TheVariants as refusal;

use crate::parse::{Unexpected, parse};
use crate::sink::Sink;
use std::fmt;
use words::refusal::Unreadable;
use words::survey::{Extent, survey};

// Why a text is no program by its words.
#[derive(Clone, Copy, Debug)]
pub enum TextRefusal {
    Unreadable(Unreadable),
    // a word that cannot come
    Unexpected(Unexpected),
}

impl TextRefusal {
    // The refusal's number.
    pub fn number(self) -> u8
        ensures { result ≡ number_of self }
    {
        match self {
            TextRefusal::Unreadable(refusal) => refusal.number(),
            TextRefusal::Unexpected(_) => 13,
        }
    }

    // Where in the text the refusal arises, in bytes from 0.
    pub fn place(self) -> usize
        ensures { result ≡ place_of self }
    {
        match self {
            TextRefusal::Unreadable(refusal) => refusal.place(),
            TextRefusal::Unexpected(word) => word.place,
        }
    }
}

// The refusal's number and its place, with a space between them.
impl fmt::Display for TextRefusal {
    ghost output = { λ r. Some (decimal (number_of r) ++ 32 ∷ decimal (place_of r)) };

    fn fmt<W: fmt::Write>(&self, f: &mut fmt::Formatter<W>) -> fmt::Result {
        let number = self.number();
        let place = self.place();
        write!(f, "{number} {place}")
    }
}

impl From<Unreadable> for TextRefusal {
    ghost from_gives = { λ u r. r ≡ refusal.Unreadable u };

    fn from(unreadable: Unreadable) -> TextRefusal {
        TextRefusal::Unreadable(unreadable)
    }
}

impl From<Unexpected> for TextRefusal {
    ghost from_gives = { λ e r. r ≡ refusal.Unexpected e };

    fn from(unexpected: Unexpected) -> TextRefusal {
        TextRefusal::Unexpected(unexpected)
    }
}

// Judges a text by its size, its words, its brackets and its grammar, in this order, and reports a program to the sink.
// A text that cannot be read leaves the sink as it was; after a word that cannot come nothing is promised of it.
pub fn judge<S: Sink>(text: &[u8], sink: &mut S) -> Result<Extent, TextRefusal>
    ensures { Judged S.Sink.after text.now sink.old result sink.new }
{
    let extent = survey(text)?;
    parse(text, sink)?;
    Ok(extent)
}
