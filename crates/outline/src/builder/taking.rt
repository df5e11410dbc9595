ghost use Rattle.std.specs.Prelude.{◌≡◌};
ghost use Rattle.outline.specs.Building.{built, declared_in};
ghost use Rattle.outline.specs.Drafts.{value_shape, side_shape};

use super::Builder;
use crate::entry::{Row, Shape};
use grammar::event::{End, Event, Literal, Pairing, TypeWord};
use grammar::sink::Sink;

impl From<Literal> for Shape {
    ghost from_gives = { λ v s. s ≡ value_shape v };

    fn from(value: Literal) -> Shape {
        match value {
            Literal::True => Shape::True,
            Literal::False => Shape::False,
            Literal::Null => Shape::Null,
            Literal::This => Shape::This,
        }
    }
}

impl From<End> for Shape {
    ghost from_gives = { λ e s. s ≡ side_shape e };

    fn from(end: End) -> Shape {
        match end {
            End::From => Shape::From,
            End::To => Shape::To,
        }
    }
}

impl Builder {
    // A field of the row, or a local of the method.
    fn declared(&mut self, typed: TypeWord, name: usize)
        ensures { self.new ≡ declared_in self.old.tally.in_method self.old typed name }
    {
        if self.tally.in_method {
            self.local(typed, name);
        } else {
            self.field(typed, name);
        }
    }
}

impl Sink for Builder {
    ghost after = { built };

    #[tactic(auto, unfolding(crate::specs::Building::built))]
    fn put(&mut self, event: Event) {
        match event {
            Event::Class { name, parent } => self.class(name, parent),
            Event::Relationship {
                name,
                parent,
                first,
                second,
            } => self.relationship(Row {
                name,
                parent,
                first,
                second,
            }),
            Event::Declared { typed, name } => self.declared(typed, name),
            Event::Method {
                result,
                name,
                typed,
                parameter,
            } => self.method(result, name, typed, parameter),
            Event::Variable { place } => self.leaf(Shape::Variable(place), place),
            Event::Literal { value, place } => self.leaf(value.into(), place),
            Event::New { class, place } => self.leaf(Shape::New(class), place),
            Event::Pair {
                pairing: Pairing::Add,
                place,
            } => self.binary(Shape::Add(place), place),
            Event::Pair {
                pairing: Pairing::Rem,
                place,
            } => self.binary(Shape::Rem(place), place),
            Event::Member { name, place } => self.unary(Shape::Member(name), place),
            Event::Call { name, place } => self.binary(Shape::Call(name), place),
            Event::Instances { name, place } => self.unary(Shape::Instances(name), place),
            Event::End { end, place } => self.unary(end.into(), place),
            Event::Bracket => self.bracket(),
            Event::Equal { place } => self.binary(Shape::Equal, place),
            Event::ToVariable { place } => self.to_variable(place),
            Event::ToMember { name, place } => self.to_member(name, place),
            Event::Assigned => self.assigned(),
            Event::Acted { place } => self.statement(Shape::Action, place),
            Event::Branch { place } => self.branch(place),
            Event::Otherwise => self.otherwise(),
            Event::Joined => self.joined(),
            Event::Return { place } => self.statement(Shape::Return, place),
        }
    }
}
