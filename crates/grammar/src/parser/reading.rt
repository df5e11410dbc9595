ghost use Rattle.std.specs.Prelude.{◌≡◌, length, None};
ghost use Rattle.words.specs.Words.{words, unread};
ghost use Rattle.words.specs.declared.kind.Kind.TheVariants.{Name};
ghost use Rattle.grammar.specs.Told.{rest, kind_at, seen, variable_begins, type_begins, statement_word, statement_begins, place_at, Passed, Takes};

use super::Parser;
use words::cursor::Cursor;
use words::kind::Kind;

// A word that cannot come, by its place.
#[derive(Clone, Copy, PartialEq, Eq, Debug)]
pub struct Unexpected {
    pub place: usize,
}

// Whether a word of this kind begins a statement.
fn begins_statement(kind: Kind) -> bool
    ensures { result ≡ statement_word kind }
{
    matches!(
        kind,
        Kind::If
            | Kind::Name
            | Kind::New
            | Kind::OpenParen
            | Kind::True
            | Kind::False
            | Kind::Null
            | Kind::This
    )
}

impl<'a> Parser<'a> {
    // Stands before the first word of a text.
    pub(crate) fn new(text: &'a [u8]) -> Parser<'a>
        ensures rest { rest result ≡ words text.now }
        ensures end { result.end ≡ length text.now }
    {
        let mut cursor = Cursor::new(text);
        let word = cursor.next();
        Parser {
            cursor,
            word,
            end: text.len(),
        }
    }

    // The kind of the next word; none at the end.
    pub(crate) fn kind(&self) -> Option<Kind>
        ensures { result ≡ kind_at (rest self.now) }
    {
        self.word.map(|word| word.kind)
    }

    // Whether the next word is of this kind.
    pub(crate) fn sees(&self, kind: Kind) -> bool
        ensures { result ≡ seen kind (rest self.now) }
    {
        self.kind() == Some(kind)
    }

    // The place of the next word, or of the end.
    pub(crate) fn place(&self) -> usize
        ensures { result ≡ place_at self.now.end (rest self.now) }
    {
        self.word.map_or(self.end, |word| word.place)
    }

    // Whether the word after the next is a name.
    fn name_follows(&self) -> bool
        ensures { result ≡ seen Name (unread self.now.cursor) }
    {
        let mut ahead = self.cursor;
        ahead.next().is_some_and(|word| word.kind == Kind::Name)
    }

    // Whether a variable's declaration comes next: a keyword that begins a type, or two names.
    pub(crate) fn at_variable(&self) -> bool
        ensures { result ≡ variable_begins (rest self.now) }
    {
        match self.kind() {
            Some(Kind::Boolean | Kind::Set) => true,
            Some(Kind::Name) => self.name_follows(),
            _ => false,
        }
    }

    // Whether a type comes next.
    pub(crate) fn at_type(&self) -> bool
        ensures { result ≡ type_begins (rest self.now) }
    {
        matches!(self.kind(), Some(Kind::Boolean | Kind::Set | Kind::Name))
    }

    // Whether a statement comes next.
    pub(crate) fn at_statement(&self) -> bool
        ensures { result ≡ statement_begins (rest self.now) }
    {
        self.kind().is_some_and(begins_statement)
    }

    // Passes the next word, if there is one.
    pub(crate) fn advance(&mut self)
        ensures { Passed self.old self.new }
    {
        self.word = self.cursor.next();
    }

    // Passes a word of this kind, and answers its place.
    pub(crate) fn take(&mut self, kind: Kind) -> Result<usize, Unexpected>
        ensures { Takes kind self.old result self.new }
    {
        let place = self.place();
        if !self.sees(kind) {
            return Err(Unexpected { place });
        }
        self.advance();
        Ok(place)
    }
}
