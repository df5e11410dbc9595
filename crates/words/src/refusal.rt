ghost use Rattle.std.specs.Prelude.{◌≡◌, Some, ◌++◌, ◌∷◌};
ghost use Rattle.std.specs.Fmt.{decimal};
ghost use Rattle.words.specs.Refusals.{number_of, place_of};

use std::error::Error;
use std::fmt;

// Why a text cannot be read as words.
#[derive(Clone, Copy, PartialEq, Eq, Debug)]
pub enum Unreadable {
    // over 32,768 bytes
    TooLong,
    // a byte that begins no word, or a name over 31 bytes
    NotAllowed { place: usize },
    // a bracket that opens while sixteen are open
    TooDeep { place: usize },
}

impl Unreadable {
    // The refusal's number.
    pub fn number(self) -> u8
        ensures { result ≡ number_of self }
    {
        match self {
            Unreadable::TooLong => 10,
            Unreadable::NotAllowed { .. } => 11,
            Unreadable::TooDeep { .. } => 12,
        }
    }

    // Where in the text the refusal arises, in bytes from 0.
    pub fn place(self) -> usize
        ensures { result ≡ place_of self }
    {
        match self {
            Unreadable::TooLong => 0,
            Unreadable::NotAllowed { place } | Unreadable::TooDeep { place } => place,
        }
    }
}

// The refusal's number and its place, with a space between them.
impl fmt::Display for Unreadable {
    ghost output = { λ r. Some (decimal (number_of r) ++ 32 ∷ decimal (place_of r)) };

    fn fmt<W: fmt::Write>(&self, f: &mut fmt::Formatter<W>) -> fmt::Result {
        write!(f, "{} {}", self.number(), self.place())
    }
}

impl Error for Unreadable {}
