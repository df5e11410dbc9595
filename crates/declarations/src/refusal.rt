ghost use Rattle.std.specs.Prelude.{◌≡◌, Some, ◌++◌, ◌∷◌};
ghost use Rattle.std.specs.Fmt.{decimal};
ghost use Rattle.declarations.specs.Faults.{number_of, place_of};

use std::fmt;

// Why declarations are refused, and at which place.
#[derive(Clone, Copy, PartialEq, Eq, Debug)]
pub enum Misdeclared {
    NameTaken(usize),
    NotDeclared(usize),
    Clash(usize),
    EndMisfit(usize),
    OverrideMisfit(usize),
    NoMain,
    TooManyFields(usize),
}

impl Misdeclared {
    // The refusal's number.
    pub fn number(self) -> u8
        ensures { result ≡ number_of self }
    {
        match self {
            Misdeclared::NameTaken(_) => 21,
            Misdeclared::NotDeclared(_) => 22,
            Misdeclared::Clash(_) => 23,
            Misdeclared::EndMisfit(_) => 24,
            Misdeclared::OverrideMisfit(_) => 25,
            Misdeclared::NoMain => 26,
            Misdeclared::TooManyFields(_) => 27,
        }
    }

    // Where in the text the refusal arises, in bytes from 0.
    pub fn place(self) -> usize
        ensures { result ≡ place_of self }
    {
        match self {
            Misdeclared::NameTaken(place)
            | Misdeclared::NotDeclared(place)
            | Misdeclared::Clash(place)
            | Misdeclared::EndMisfit(place)
            | Misdeclared::OverrideMisfit(place)
            | Misdeclared::TooManyFields(place) => place,
            Misdeclared::NoMain => 0,
        }
    }
}

// The refusal's number and its place, with a space between them.
impl fmt::Display for Misdeclared {
    ghost output = { λ m. Some (decimal (number_of m) ++ 32 ∷ decimal (place_of m)) };

    fn fmt<W: fmt::Write>(&self, f: &mut fmt::Formatter<W>) -> fmt::Result {
        let number = self.number();
        let place = self.place();
        write!(f, "{number} {place}")
    }
}
