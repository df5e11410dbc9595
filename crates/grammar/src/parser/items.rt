ghost use Rattle.std.specs.Prelude.{◌≡◌, Some};
ghost use Rattle.words.specs.declared.kind.Kind.TheVariants.{Dot, Colon, Equal, OpenParen};
ghost use Rattle.grammar.specs.declared.parser.Parser.{Parser as Reader};
ghost use Rattle.grammar.specs.Events.{fed};
ghost use Rattle.grammar.specs.Machine.{Form};
ghost use Rattle.grammar.specs.Told.{rest, kind_at, place_at, literal_at, doing_kind, pairing_at, end_at, reads_of, target_of, Finds, DottedBare, AfterDot, Named, ReadItem, GivesItem, GivesWhole, GivesExpr, GivesPart, Ended, Goes};

use super::Parser;
use super::reading::Unexpected;
use crate::event::{End, Event, Literal, Pairing};
use crate::sink::Sink;
use words::kind::Kind;

// What an item is so far: a name alone or one that ends in `.name`, of which nothing is reported yet; one that may
// stand as an action; or any other.
#[derive(Clone, Copy, PartialEq, Eq, Debug)]
pub(crate) enum Found {
    Bare,
    Inner(usize),
    Done,
    Plain,
}

// An item that is read so far, and the place where it begins.
#[derive(Clone, Copy, Debug)]
pub(crate) struct Item {
    pub(crate) found: Found,
    pub(crate) place: usize,
}

// What a part of an expression is: a target, after which more comes, or the last part.
#[derive(Clone, Copy, PartialEq, Eq, Debug)]
pub(crate) enum Part {
    Target,
    Last,
}

fn literal_of(kind: Kind) -> Option<Literal>
    ensures { result ≡ literal_at kind }
{
    match kind {
        Kind::True => Some(Literal::True),
        Kind::False => Some(Literal::False),
        Kind::Null => Some(Literal::Null),
        Kind::This => Some(Literal::This),
        _ => None,
    }
}

impl Item {
    // Reports the value, if it is not reported yet.
    fn report_value<S: Sink>(self, sink: &mut S)
        ensures { sink.new ≡ fed S.Sink.after sink.old (reads_of self.found self.place) }
    {
        let place = self.place;
        match self.found {
            Found::Bare => sink.put(Event::Variable { place }),
            Found::Inner(name) => sink.put(Event::Member { name, place }),
            Found::Done | Found::Plain => {}
        }
    }

    // What reports that it is assigned to, if it can be.
    pub(crate) fn target(self) -> Option<Event>
        ensures { result ≡ target_of self.found self.place }
    {
        let place = self.place;
        match self.found {
            Found::Bare => Some(Event::ToVariable { place }),
            Found::Inner(name) => Some(Event::ToMember { name, place }),
            Found::Done | Found::Plain => None,
        }
    }
}

impl<'a> Parser<'a> {
    // Which of `add` and `rem` stands after a name alone and its dot.
    fn pairing(&self, found: Found) -> Option<Pairing>
        ensures { result ≡ pairing_at found (rest self.now) }
    {
        match (found, self.kind()) {
            (Found::Bare, Some(Kind::Add)) => Some(Pairing::Add),
            (Found::Bare, Some(Kind::Rem)) => Some(Pairing::Rem),
            _ => None,
        }
    }

    // Which end the next word names.
    fn named_end(&self) -> Option<End>
        ensures { result ≡ end_at (rest self.now) }
    {
        match self.kind() {
            Some(Kind::From) => Some(End::From),
            Some(Kind::To) => Some(End::To),
            _ => None,
        }
    }

    #[cycle(atom_call_dotted_expr_item_member_pair_part_right)]
    fn atom<S: Sink>(&mut self, sink: &mut S) -> Result<Found, Unexpected>
        ensures { GivesItem S.Sink.after self.old sink.old (place_at self.old.end (rest self.old)) result self.new sink.new }
    {
        let place = self.place();
        let kind = self.kind().ok_or(Unexpected { place })?;
        match kind {
            Kind::Name => {
                self.advance();
                Ok(Found::Bare)
            }
            Kind::New => {
                self.advance();
                let class = self.take(Kind::Name)?;
                self.take(Kind::OpenParen)?;
                self.take(Kind::CloseParen)?;
                sink.put(Event::New { class, place });
                Ok(Found::Done)
            }
            Kind::OpenParen => {
                self.advance();
                self.expr(sink)?;
                self.take(Kind::CloseParen)?;
                sink.put(Event::Bracket);
                Ok(Found::Plain)
            }
            _ => {
                let value = literal_of(kind).ok_or(Unexpected { place })?;
                self.advance();
                sink.put(Event::Literal { value, place });
                Ok(Found::Plain)
            }
        }
    }

    // The rest of `name.add(..)` or `name.rem(..)` from that keyword on.
    #[cycle(atom_call_dotted_expr_item_member_pair_part_right)]
    fn pair<S: Sink>(
        &mut self,
        pairing: Pairing,
        place: usize,
        sink: &mut S,
    ) -> Result<Found, Unexpected>
        requires { kind_at (rest self.old) ≡ Some (doing_kind pairing) }
        ensures goes { Goes self.old result self.new }
        ensures gives { (s : Reader) (l : S) → DottedBare S.Sink.after s l self.old sink.old place → GivesItem S.Sink.after s l place result self.new sink.new }
    {
        self.advance();
        self.take(Kind::OpenParen)?;
        self.expr(sink)?;
        self.take(Kind::Comma)?;
        self.expr(sink)?;
        self.take(Kind::CloseParen)?;
        sink.put(Event::Pair { pairing, place });
        Ok(Found::Done)
    }

    // A call of the method named at `name`, from its opening bracket on.
    #[cycle(atom_call_dotted_expr_item_member_pair_part_right)]
    fn call<S: Sink>(
        &mut self,
        name: usize,
        place: usize,
        sink: &mut S,
    ) -> Result<Found, Unexpected>
        requires { kind_at (rest self.old) ≡ Some OpenParen }
        ensures goes { Goes self.old result self.new }
        ensures gives { (s : Reader) (l : S) → Named S.Sink.after s l self.old sink.old place name → GivesItem S.Sink.after s l place result self.new sink.new }
    {
        self.advance();
        self.expr(sink)?;
        self.take(Kind::CloseParen)?;
        sink.put(Event::Call { name, place });
        Ok(Found::Done)
    }

    // What stands after the dot of an item whose value is reported.
    #[cycle(atom_call_dotted_expr_item_member_pair_part_right)]
    fn member<S: Sink>(&mut self, place: usize, sink: &mut S) -> Result<Found, Unexpected>
        ensures goes { Goes self.old result self.new }
        ensures gives { (s : Reader) (l : S) → AfterDot S.Sink.after s l self.old sink.old place → GivesItem S.Sink.after s l place result self.new sink.new }
    {
        if let Some(end) = self.named_end() {
            self.advance();
            sink.put(Event::End { end, place });
            return Ok(Found::Plain);
        }
        let name = self.take(Kind::Name)?;
        if self.sees(Kind::OpenParen) {
            self.call(name, place, sink)
        } else {
            Ok(Found::Inner(name))
        }
    }

    // An item goes on with a dot.
    #[cycle(atom_call_dotted_expr_item_member_pair_part_right)]
    fn dotted<S: Sink>(&mut self, item: Item, sink: &mut S) -> Result<Found, Unexpected>
        requires { kind_at (rest self.old) ≡ Some Dot }
        ensures goes { Goes self.old result self.new }
        ensures gives { (s : Reader) (l : S) → Finds S.Sink.after s l item.place item.found self.old sink.old → GivesItem S.Sink.after s l item.place result self.new sink.new }
    {
        self.advance();
        if let Some(pairing) = self.pairing(item.found) {
            return self.pair(pairing, item.place, sink);
        }
        item.report_value(sink);
        self.member(item.place, sink)
    }

    // An item goes on with a colon.
    fn colon<S: Sink>(&mut self, item: Item, sink: &mut S) -> Result<Found, Unexpected>
        requires { kind_at (rest self.old) ≡ Some Colon }
        ensures goes { Goes self.old result self.new }
        ensures gives { (s : Reader) (l : S) → Finds S.Sink.after s l item.place item.found self.old sink.old → GivesItem S.Sink.after s l item.place result self.new sink.new }
    {
        item.report_value(sink);
        self.advance();
        let name = self.take(Kind::Name)?;
        sink.put(Event::Instances {
            name,
            place: item.place,
        });
        Ok(Found::Plain)
    }

    #[cycle(atom_call_dotted_expr_item_member_pair_part_right)]
    pub(crate) fn item<S: Sink>(&mut self, sink: &mut S) -> Result<Item, Unexpected>
        ensures gives { GivesWhole S.Sink.after self.old sink.old result self.new sink.new }
        ensures goes { Goes self.old result self.new }
        ensures ended { Ended result self.new }
    {
        let place = self.place();
        let found = self.atom(sink)?;
        let mut item = Item { found, place };
        loop {
            match self.kind() {
                Some(Kind::Dot) => item.found = self.dotted(item, sink)?,
                Some(Kind::Colon) => item.found = self.colon(item, sink)?,
                _ => return Ok(item),
            }
        }
    }

    // The right side of `==`, from that sign on; the left side begins at `place`.
    #[cycle(atom_call_dotted_expr_item_member_pair_part_right)]
    fn right<S: Sink>(&mut self, place: usize, sink: &mut S) -> Result<(), Unexpected>
        requires { kind_at (rest self.old) ≡ Some Equal }
        ensures { (s : Reader) (l : S) (f : Form) → ReadItem S.Sink.after s l self.old sink.old place f → GivesExpr S.Sink.after s l result self.new sink.new }
    {
        self.advance();
        let item = self.item(sink)?;
        item.report_value(sink);
        sink.put(Event::Equal { place });
        Ok(())
    }

    // An item and what comes with it: `=` after a target, or the right side of `==`.
    #[cycle(atom_call_dotted_expr_item_member_pair_part_right)]
    fn part<S: Sink>(&mut self, sink: &mut S) -> Result<Part, Unexpected>
        ensures { GivesPart S.Sink.after self.old sink.old result self.new sink.new }
    {
        let item = self.item(sink)?;
        if self.sees(Kind::Assign) {
            if let Some(target) = item.target() {
                self.advance();
                sink.put(target);
                return Ok(Part::Target);
            }
        }
        item.report_value(sink);
        if self.sees(Kind::Equal) {
            self.right(item.place, sink)?;
        }
        Ok(Part::Last)
    }

    #[cycle(atom_call_dotted_expr_item_member_pair_part_right)]
    pub(crate) fn expr<S: Sink>(&mut self, sink: &mut S) -> Result<(), Unexpected>
        ensures { GivesExpr S.Sink.after self.old sink.old result self.new sink.new }
    {
        let mut targets = 0usize;
        while self.part(sink)? == Part::Target {
            targets += 1;
        }
        for _ in 0..targets {
            sink.put(Event::Assigned);
        }
        Ok(())
    }
}
