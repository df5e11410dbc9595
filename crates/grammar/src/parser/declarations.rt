ghost use Rattle.std.specs.Prelude.{◌≡◌, Bool, true, false, ◌&&◌, List, ◌∷◌, Some};
ghost use Rattle.words.specs.declared.kind.Kind.TheVariants.{Class, Relationship, Semicolon};
ghost use Rattle.grammar.specs.declared.parser.Parser.{Parser as Reader};
ghost use Rattle.grammar.specs.Bodies.{GivesTree, GivesMember, GivesMembers, GivesHeading, GivesEnds, GivesInside, GivesProgram, Finished, Headed, fields_in, Gathered, Falls};
ghost use Rattle.grammar.specs.Machine.{Sym, decls, members};
ghost use Rattle.grammar.specs.Told.{rest, kind_at, seen, type_begins};
ghost use Rattle.grammar.specs.Trees.{decl, method as method-sort};

use super::Parser;
use super::reading::Unexpected;
use crate::event::{Event, TypeWord};
use crate::sink::Sink;
use words::kind::Kind;

// What may come next between a declaration's braces: fields or methods, or methods alone.
#[derive(Clone, Copy, PartialEq, Eq, Debug)]
pub(crate) enum Section {
    Fields,
    Methods,
}

// The places of the names that a declaration begins with.
#[derive(Clone, Copy, Debug)]
pub(crate) struct Heading {
    pub(crate) name: usize,
    pub(crate) parent: usize,
}

// The places of the names of a relationship's ends.
#[derive(Clone, Copy, Debug)]
pub(crate) struct Ends {
    pub(crate) first: usize,
    pub(crate) second: usize,
}

impl<'a> Parser<'a> {
    // A method whose result type and name are read, from its opening bracket on.
    fn method<S: Sink>(
        &mut self,
        res: TypeWord,
        name: usize,
        sink: &mut S,
    ) -> Result<(), Unexpected>
        ensures gives { (s : Reader) (l : S) (b : Bool) → Headed S.Sink.after s l self.old sink.old res name b → (seen Semicolon (rest self.old) && b) ≡ false → GivesTree S.Sink.after method-sort s l result self.new sink.new (members b) (λ (α : List Sym). members false ∷ α) }
        ensures falls { Falls self.old result self.new }
    {
        self.take(Kind::OpenParen)?;
        let typed = self.typed()?;
        let parameter = self.take(Kind::Name)?;
        self.take(Kind::CloseParen)?;
        self.take(Kind::OpenBrace)?;
        sink.put(Event::Method {
            result: res,
            name,
            typed,
            parameter,
        });
        self.body(sink)?;
        let place = self.take(Kind::Return)?;
        self.expr(sink)?;
        sink.put(Event::Return { place });
        self.take(Kind::Semicolon)?;
        self.take(Kind::CloseBrace)?;
        Ok(())
    }

    // Whether a field ends here.
    fn field_ends(&self, section: Section) -> bool
        ensures { result ≡ (seen Semicolon (rest self.now) && fields_in section) }
    {
        section == Section::Fields && self.sees(Kind::Semicolon)
    }

    // A field or a method; the answer says what may come next.
    fn member_or_field<S: Sink>(
        &mut self,
        section: Section,
        sink: &mut S,
    ) -> Result<Section, Unexpected>
        requires { type_begins (rest self.old) ≡ true }
        ensures gives { (s : Reader) (l : S) → Gathered S.Sink.after section s l self.old sink.old → GivesMember S.Sink.after s l result self.new sink.new }
        ensures falls { Falls self.old result self.new }
    {
        let typed = self.typed()?;
        let name = self.take(Kind::Name)?;
        if self.field_ends(section) {
            self.advance();
            sink.put(Event::Declared { typed, name });
            return Ok(Section::Fields);
        }
        self.method(typed, name, sink)?;
        Ok(Section::Methods)
    }

    // Fields and then methods, as many as there are.
    fn members<S: Sink>(&mut self, sink: &mut S) -> Result<(), Unexpected>
        ensures { GivesMembers S.Sink.after self.old sink.old result self.new sink.new }
    {
        let mut section = Section::Fields;
        while self.at_type() {
            section = self.member_or_field(section, sink)?;
        }
        Ok(())
    }

    // The braces of a declaration, with what stands between them.
    fn inside<S: Sink>(&mut self, sink: &mut S) -> Result<(), Unexpected>
        ensures { GivesInside S.Sink.after self.old sink.old result self.new sink.new }
    {
        self.take(Kind::OpenBrace)?;
        self.members(sink)?;
        self.take(Kind::CloseBrace)?;
        Ok(())
    }

    // The name of a declaration and that of its parent.
    fn heading(&mut self) -> Result<Heading, Unexpected>
        ensures { GivesHeading self.old result self.new }
    {
        let name = self.take(Kind::Name)?;
        self.take(Kind::Extends)?;
        let parent = self.take(Kind::Name)?;
        Ok(Heading { name, parent })
    }

    // The names of a relationship's ends, in their brackets.
    fn ends(&mut self) -> Result<Ends, Unexpected>
        ensures { GivesEnds self.old result self.new }
    {
        self.take(Kind::OpenParen)?;
        let first = self.take(Kind::Name)?;
        self.take(Kind::Comma)?;
        let second = self.take(Kind::Name)?;
        self.take(Kind::CloseParen)?;
        Ok(Ends { first, second })
    }

    fn class<S: Sink>(&mut self, sink: &mut S) -> Result<(), Unexpected>
        requires { kind_at (rest self.old) ≡ Some Class }
        ensures gives { GivesTree S.Sink.after decl self.old sink.old result self.new sink.new decls (λ (α : List Sym). decls ∷ α) }
        ensures falls { Falls self.old result self.new }
    {
        self.advance();
        let Heading { name, parent } = self.heading()?;
        sink.put(Event::Class { name, parent });
        self.inside(sink)
    }

    fn relationship<S: Sink>(&mut self, sink: &mut S) -> Result<(), Unexpected>
        requires { kind_at (rest self.old) ≡ Some Relationship }
        ensures gives { GivesTree S.Sink.after decl self.old sink.old result self.new sink.new decls (λ (α : List Sym). decls ∷ α) }
        ensures falls { Falls self.old result self.new }
    {
        self.advance();
        let Heading { name, parent } = self.heading()?;
        let Ends { first, second } = self.ends()?;
        sink.put(Event::Relationship {
            name,
            parent,
            first,
            second,
        });
        self.inside(sink)
    }

    // No word is left.
    fn finished(&self) -> Result<(), Unexpected>
        ensures { Finished self.now result }
    {
        match self.word {
            Some(word) => Err(Unexpected { place: word.place }),
            None => Ok(()),
        }
    }

    // All words of a program.
    pub(crate) fn program<S: Sink>(&mut self, sink: &mut S) -> Result<(), Unexpected>
        ensures { GivesProgram S.Sink.after self.old sink.old result sink.new }
    {
        loop {
            match self.kind() {
                Some(Kind::Class) => self.class(sink)?,
                Some(Kind::Relationship) => self.relationship(sink)?,
                _ => return self.finished(),
            }
        }
    }
}
