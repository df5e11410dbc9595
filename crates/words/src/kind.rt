ghost use Rattle.std.specs.Prelude.{◌≡◌};
ghost use Rattle.words.specs.Kinds.{is};

// What a word is. `Fault` is what no text may hold: a byte that begins no word, or a name over 31 bytes.
#[derive(Clone, Copy, PartialEq, Eq, Debug)]
pub enum Kind {
    Name,
    Class,
    Extends,
    Relationship,
    Boolean,
    Set,
    Return,
    If,
    Else,
    True,
    False,
    Null,
    This,
    New,
    Add,
    Rem,
    From,
    To,
    OpenBrace,
    CloseBrace,
    OpenParen,
    CloseParen,
    Comma,
    Semicolon,
    Less,
    Greater,
    Dot,
    Colon,
    Assign,
    Equal,
    Fault,
}

impl Kind {
    // Whether the two are the same kind, as a clause. The derived `==` promises as much, but does not name `is`.
    pub fn is(self, other: Kind) -> bool
        ensures { result ≡ is self other }
    {
        self as u8 == other as u8
    }
}
