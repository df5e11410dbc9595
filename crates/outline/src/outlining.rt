ghost use Rattle.std.specs.Prelude.{◌≡◌, Some, ◌++◌, ◌∷◌};
ghost use Rattle.std.specs.Fmt.{decimal};
ghost use Rattle.outline.specs.Outlined.{Outlined, number_of, place_of};
ghost use Rattle.outline.specs.declared.outlining.Unlisted.TheVariants as unlisted;

use crate::builder::Builder;
use crate::contents::Outline;
use crate::limit::Limit;
use grammar::judge::{TextRefusal, judge};
use std::fmt;

// Why a text has no tables: it is no program, or passes a limit.
#[derive(Clone, Copy)]
pub enum Unlisted {
    Text(TextRefusal),
    Limit(Limit),
}

impl Unlisted {
    // The refusal's number.
    pub fn number(self) -> u8
        ensures { result ≡ number_of self }
    {
        match self {
            Unlisted::Text(refusal) => refusal.number(),
            Unlisted::Limit(_) => 14,
        }
    }

    // Where in the text the refusal arises; of a limit, its number.
    pub fn place(self) -> usize
        ensures { result ≡ place_of self }
    {
        match self {
            Unlisted::Text(refusal) => refusal.place(),
            Unlisted::Limit(limit) => usize::from(limit.number()),
        }
    }
}

// The refusal's number and its place, with a space between them.
impl fmt::Display for Unlisted {
    ghost output = { λ r. Some (decimal (number_of r) ++ 32 ∷ decimal (place_of r)) };

    fn fmt<W: fmt::Write>(&self, f: &mut fmt::Formatter<W>) -> fmt::Result {
        let number = self.number();
        let place = self.place();
        write!(f, "{number} {place}")
    }
}

impl From<TextRefusal> for Unlisted {
    ghost from_gives = { λ t r. r ≡ unlisted.Text t };

    fn from(text: TextRefusal) -> Unlisted {
        Unlisted::Text(text)
    }
}

// The tables of the program that a text is.
pub fn outline(text: &[u8]) -> Result<Outline, Unlisted>
    ensures { Outlined text.now result }
{
    let mut builder = Builder::new();
    judge(text, &mut builder)?;
    match builder.limit() {
        Some(limit) => Err(Unlisted::Limit(limit)),
        None => Ok(builder.into_outline()),
    }
}
