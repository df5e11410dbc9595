ghost use Rattle.std.specs.Prelude.{◌≡◌, ℕ, true, List, ◌∷◌, Some, ◌≢◌};
ghost use Rattle.words.specs.declared.kind.Kind.TheVariants.{If, Set};
ghost use Rattle.grammar.specs.declared.parser.Parser.{Parser as Reader};
ghost use Rattle.grammar.specs.Bodies.{GivesType, GivesTree, GivesAction, GivesBlock, GivesBody, HeldPlace, Falls};
ghost use Rattle.grammar.specs.Machine.{Sym, body, stmts};
ghost use Rattle.grammar.specs.Told.{rest, kind_at, variable_begins, statement_begins, Finds, Settled};
ghost use Rattle.grammar.specs.Trees.{many, stmt, variable};

use super::Parser;
use super::items::{Found, Item};
use super::reading::Unexpected;
use crate::event::{Event, TypeWord};
use crate::sink::Sink;
use words::kind::Kind;

impl<'a> Parser<'a> {
    // A type as it is written.
    pub(crate) fn typed(&mut self) -> Result<TypeWord, Unexpected>
        ensures { GivesType self.old result self.new }
    {
        match self.kind() {
            Some(Kind::Boolean) => {
                self.advance();
                Ok(TypeWord::Boolean)
            }
            Some(Kind::Set) => self.set_type(),
            _ => {
                let name = self.take(Kind::Name)?;
                Ok(TypeWord::Row(name))
            }
        }
    }

    // The type of sets of a row, from `set` on.
    fn set_type(&mut self) -> Result<TypeWord, Unexpected>
        requires { kind_at (rest self.old) ≡ Some Set }
        ensures { GivesType self.old result self.new }
    {
        self.advance();
        self.take(Kind::Less)?;
        let name = self.take(Kind::Name)?;
        self.take(Kind::Greater)?;
        Ok(TypeWord::SetOf(name))
    }

    // A variable of a method's body.
    fn variable<S: Sink>(&mut self, sink: &mut S) -> Result<(), Unexpected>
        requires { variable_begins (rest self.old) ≡ true }
        ensures gives { GivesTree S.Sink.after variable self.old sink.old result self.new sink.new body (λ (α : List Sym). body ∷ α) }
        ensures falls { Falls self.old result self.new }
    {
        let typed = self.typed()?;
        let name = self.take(Kind::Name)?;
        self.take(Kind::Semicolon)?;
        sink.put(Event::Declared { typed, name });
        Ok(())
    }

    // The rest of an action that assigns, from `=` on.
    fn assigned<S: Sink>(&mut self, target: Event, sink: &mut S) -> Result<(), Unexpected>
        ensures { (s : Reader) (l : S) (at : ℕ) → HeldPlace S.Sink.after s l self.old sink.old at target → GivesAction S.Sink.after s l at result self.new sink.new }
    {
        self.take(Kind::Assign)?;
        sink.put(target);
        self.expr(sink)?;
        sink.put(Event::Assigned);
        Ok(())
    }

    // The rest of an action whose first item is found.
    fn acted<S: Sink>(&mut self, item: Item, sink: &mut S) -> Result<(), Unexpected>
        requires { Settled self.old }
        ensures { (s : Reader) (l : S) → Finds S.Sink.after s l item.place item.found self.old sink.old → GivesAction S.Sink.after s l item.place result self.new sink.new }
    {
        if item.found == Found::Done {
            return Ok(());
        }
        let target = item.target().ok_or(Unexpected {
            place: self.place(),
        })?;
        self.assigned(target, sink)
    }

    // An action and its semicolon.
    fn action<S: Sink>(&mut self, sink: &mut S) -> Result<(), Unexpected>
        requires begins { statement_begins (rest self.old) ≡ true }
        requires other { kind_at (rest self.old) ≢ Some If }
        ensures { GivesTree S.Sink.after stmt self.old sink.old result self.new sink.new stmts (λ (α : List Sym). stmts ∷ α) }
    {
        let item = self.item(sink)?;
        self.acted(item, sink)?;
        self.take(Kind::Semicolon)?;
        sink.put(Event::Acted { place: item.place });
        Ok(())
    }

    // The statements of a block, with its braces.
    #[cycle(block_branch_statement_statements)]
    fn block<S: Sink>(&mut self, sink: &mut S) -> Result<(), Unexpected>
        ensures { GivesBlock S.Sink.after self.old sink.old result self.new sink.new }
    {
        self.take(Kind::OpenBrace)?;
        self.statements(sink)?;
        self.take(Kind::CloseBrace)?;
        Ok(())
    }

    // An `if` with its two blocks and its semicolon.
    #[cycle(block_branch_statement_statements)]
    fn branch<S: Sink>(&mut self, sink: &mut S) -> Result<(), Unexpected>
        requires { kind_at (rest self.old) ≡ Some If }
        ensures { GivesTree S.Sink.after stmt self.old sink.old result self.new sink.new stmts (λ (α : List Sym). stmts ∷ α) }
    {
        let place = self.place();
        self.advance();
        self.take(Kind::OpenParen)?;
        self.expr(sink)?;
        self.take(Kind::CloseParen)?;
        sink.put(Event::Branch { place });
        self.block(sink)?;
        self.take(Kind::Else)?;
        sink.put(Event::Otherwise);
        self.block(sink)?;
        self.take(Kind::Semicolon)?;
        sink.put(Event::Joined);
        Ok(())
    }

    #[cycle(block_branch_statement_statements)]
    fn statement<S: Sink>(&mut self, sink: &mut S) -> Result<(), Unexpected>
        requires { statement_begins (rest self.old) ≡ true }
        ensures gives { GivesTree S.Sink.after stmt self.old sink.old result self.new sink.new stmts (λ (α : List Sym). stmts ∷ α) }
        ensures falls { Falls self.old result self.new }
    {
        if self.sees(Kind::If) {
            self.branch(sink)
        } else {
            self.action(sink)
        }
    }

    // As many statements as there are.
    #[cycle(block_branch_statement_statements)]
    pub(crate) fn statements<S: Sink>(&mut self, sink: &mut S) -> Result<(), Unexpected>
        ensures { GivesTree S.Sink.after (many stmt) self.old sink.old result self.new sink.new stmts (λ (α : List Sym). α) }
    {
        while self.at_statement() {
            self.statement(sink)?;
        }
        Ok(())
    }

    // A method's variables, and then its statements.
    pub(crate) fn body<S: Sink>(&mut self, sink: &mut S) -> Result<(), Unexpected>
        ensures { GivesBody S.Sink.after self.old sink.old result self.new sink.new }
    {
        while self.at_variable() {
            self.variable(sink)?;
        }
        self.statements(sink)
    }
}
