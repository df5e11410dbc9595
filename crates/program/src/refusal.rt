ghost use Rattle.std.specs.Prelude.{◌≡◌, Some, ◌++◌, ◌∷◌};
ghost use Rattle.std.specs.Fmt.{decimal};
ghost use Rattle.program.specs.Refusals.{number_of, place_of};
ghost use Rattle.program.specs.declared.refusal.Refusal.TheVariants as refusal;

use declarations::refusal::Misdeclared;
use outline::outlining::Unlisted;
use std::fmt;
use typing::pass::Untyped;

// Why a text is refused.
#[derive(Clone, Copy)]
pub enum Refusal {
    // no words, no program, or a limit passed
    Unlisted(Unlisted),
    // the scratch has fewer entries than the text has nodes
    ScratchTooSmall,
    // a fault of a declaration
    Misdeclared(Misdeclared),
    // a node without a type, by its place
    Untyped(usize),
}

impl Refusal {
    // The refusal's number.
    pub fn number(self) -> u8
        ensures { result ≡ number_of self }
    {
        match self {
            Refusal::Unlisted(refusal) => refusal.number(),
            Refusal::ScratchTooSmall => 15,
            Refusal::Misdeclared(fault) => fault.number(),
            Refusal::Untyped(_) => 28,
        }
    }

    // Where in the text the refusal arises, in bytes from 0; of a limit, its number.
    pub fn place(self) -> usize
        ensures { result ≡ place_of self }
    {
        match self {
            Refusal::Unlisted(refusal) => refusal.place(),
            Refusal::ScratchTooSmall => 0,
            Refusal::Misdeclared(fault) => fault.place(),
            Refusal::Untyped(place) => place,
        }
    }
}

// The refusal's number and its place, with a space between them.
impl fmt::Display for Refusal {
    ghost output = { λ r. Some (decimal (number_of r) ++ 32 ∷ decimal (place_of r)) };

    fn fmt<W: fmt::Write>(&self, f: &mut fmt::Formatter<W>) -> fmt::Result {
        let number = self.number();
        let place = self.place();
        write!(f, "{number} {place}")
    }
}

impl From<Unlisted> for Refusal {
    ghost from_gives = { λ u r. r ≡ refusal.Unlisted u };

    fn from(unlisted: Unlisted) -> Refusal {
        Refusal::Unlisted(unlisted)
    }
}

impl From<Misdeclared> for Refusal {
    ghost from_gives = { λ m r. r ≡ refusal.Misdeclared m };

    fn from(misdeclared: Misdeclared) -> Refusal {
        Refusal::Misdeclared(misdeclared)
    }
}

impl From<Untyped> for Refusal {
    ghost from_gives = { λ e r. r ≡ refusal.Untyped e.place };

    fn from(node: Untyped) -> Refusal {
        Refusal::Untyped(node.place)
    }
}
