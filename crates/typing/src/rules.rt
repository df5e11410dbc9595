ghost use Rattle.std.specs.Prelude.{◌≡◌, cond};
ghost use Rattle.std.specs.List.{slice_get};
ghost use Rattle.outline.specs.Contents.{contents};
ghost use Rattle.values.specs.Fits.{fits_to};
ghost use Rattle.values.specs.Types.{row_type};
ghost use Rattle.values.specs.declared.types.Lineage.TheVariants.{Relationship};
ghost use Rattle.declarations.specs.Resolved.{declared};
ghost use Rattle.typing.specs.Typing.{ruled, faulty, type_of_row, set_of_row, this_ruling, variable_ruling, new_ruling, partners_ruling, field_ruling, member_ruling, instances_ruling, from_ruling, to_ruling, comparable, compare_ruling, set_variable_ruling, set_field_ruling, set_member_ruling, pair_named, add_ruling, rem_ruling, call_ruling, is_boolean, branch_ruling, return_ruling, ruling_of};

use crate::lookup::{
    class_named, relationship_named, relationship_of, variable_named, variable_number,
};
use crate::step::{Ruling, Step};
use crate::typer::Typer;
use declarations::declarations::Ends;
use outline::entry::{Node, Shape};
use values::types::{CellRow, Kind, Lineage, Ty};

fn type_of_row(row: CellRow) -> Ty
    ensures { result ≡ type_of_row row }
{
    Ty::of_row(row.lineage, row.number)
}

fn set_of_row(row: CellRow) -> Ty
    ensures { result ≡ set_of_row row }
{
    Ty::set_of(row.lineage, row.number)
}

// A type and a step, where the test says so.
fn typed_if(test: bool, t: Ty, step: Step) -> Option<Ruling>
    ensures { result ≡ cond test (ruled t step) faulty }
{
    test.then_some(Ruling::Typed(t, step))
}

// Whether a type is a row or null.
fn comparable(kind: Kind) -> bool
    ensures { result ≡ comparable kind }
{
    matches!(kind, Kind::Null | Kind::Row(_))
}

fn compare_rule(s: Ty, t: Ty) -> Option<Ruling>
    ensures { result ≡ compare_ruling s t }
{
    typed_if(
        comparable(s.kind()) && comparable(t.kind()),
        Ty::boolean(),
        Step::Compare,
    )
}

// A condition is boolean.
fn branch_rule(s: Ty) -> Option<Ruling>
    ensures { result ≡ branch_ruling s }
{
    (s.kind() == Kind::Boolean).then_some(Ruling::Done(Step::Branch))
}

fn relationship_type(r: u8) -> Ty
    ensures { result ≡ row_type Relationship r }
{
    Ty::of_row(Lineage::Relationship, r)
}

impl<'a> Typer<'a> {
    fn fits(&self, s: Ty, t: Ty) -> bool
        ensures { result ≡ fits_to (declared self.now.declarations.now).ancestry s t }
    {
        self.declarations.lines.fits(s, t)
    }

    fn fits_row(&self, s: Ty, row: CellRow) -> bool
        ensures { result ≡ fits_to (declared self.now.declarations.now).ancestry s (type_of_row row) }
    {
        self.fits(s, type_of_row(row))
    }

    // The ends of a relationship.
    fn ends(&self, r: u8) -> Option<Ends>
        ensures { result ≡ slice_get (declared self.now.declarations.now).ends r }
    {
        self.declarations.ends.get(r as usize)
    }

    // this: the row that owns the method
    fn this_rule(&self, method: usize) -> Option<Ruling>
        ensures { result ≡ this_ruling (contents self.now.source.outline.now) method }
    {
        let method = self.source.outline.methods.get(method)?;
        Some(Ruling::Typed(type_of_row(method.owner), Step::This))
    }

    // A variable of the method has its declared type.
    fn variable_rule(&self, method: usize, name: usize) -> Option<Ruling>
        ensures { result ≡ variable_ruling self.now.source.text.now (contents self.now.source.outline.now) (declared self.now.declarations.now) method name }
    {
        let i = variable_named(&self.source, method, name)?;
        let t = self.declarations.variables.get(i)?;
        let number = variable_number(&self.source, method, i);
        Some(Ruling::Typed(t, Step::Variable(number)))
    }

    // A new object has its class.
    fn new_rule(&self, name: usize) -> Option<Ruling>
        ensures { result ≡ new_ruling self.now.source.text.now (contents self.now.source.outline.now) name }
    {
        let n = class_named(&self.source, name)?;
        Some(Ruling::Typed(Ty::of_row(Lineage::Class, n), Step::New(n)))
    }

    // The partners of what fits the first end: a set of the second end.
    fn partners_rule(&self, s: Ty, r: u8) -> Option<Ruling>
        ensures { result ≡ partners_ruling (declared self.now.declarations.now) s r }
    {
        let ends = self.ends(r)?;
        typed_if(
            self.fits_row(s, ends.first),
            set_of_row(ends.second),
            Step::Partners(r),
        )
    }

    // A field that is found upward has its declared type.
    fn field_rule(&self, s: Ty, name: usize) -> Option<Ruling>
        ensures { result ≡ field_ruling self.now.source.text.now (contents self.now.source.outline.now) (declared self.now.declarations.now) s name }
    {
        let f = self.field_from(s, name)?;
        let t = self.declarations.fields.get(f)?;
        Some(Ruling::Typed(t, Step::Field(f)))
    }

    // What stands after a dot is a relationship, or else a field.
    fn member_rule(&self, s: Ty, name: usize) -> Option<Ruling>
        ensures { result ≡ member_ruling self.now.source.text.now (contents self.now.source.outline.now) (declared self.now.declarations.now) s name }
    {
        match relationship_named(&self.source, name) {
            None => self.field_rule(s, name),
            Some(r) => self.partners_rule(s, r),
        }
    }

    // The instances of a relationship from what fits its first end: a set of it.
    fn instances_rule(&self, s: Ty, name: usize) -> Option<Ruling>
        ensures { result ≡ instances_ruling self.now.source.text.now (contents self.now.source.outline.now) (declared self.now.declarations.now) s name }
    {
        let r = relationship_named(&self.source, name)?;
        let ends = self.ends(r)?;
        typed_if(
            self.fits_row(s, ends.first),
            Ty::set_of(Lineage::Relationship, r),
            Step::Instances(r),
        )
    }

    // The first end of a relationship row.
    fn from_rule(&self, s: Ty) -> Option<Ruling>
        ensures { result ≡ from_ruling (declared self.now.declarations.now) s }
    {
        let ends = self.ends(relationship_of(s)?)?;
        Some(Ruling::Typed(type_of_row(ends.first), Step::From))
    }

    // The second end of a relationship row.
    fn to_rule(&self, s: Ty) -> Option<Ruling>
        ensures { result ≡ to_ruling (declared self.now.declarations.now) s }
    {
        let ends = self.ends(relationship_of(s)?)?;
        Some(Ruling::Typed(type_of_row(ends.second), Step::To))
    }

    // What fits a variable is assigned to it, and keeps its own type.
    fn set_variable_rule(&self, method: usize, name: usize, t: Ty) -> Option<Ruling>
        ensures { result ≡ set_variable_ruling self.now.source.text.now (contents self.now.source.outline.now) (declared self.now.declarations.now) method name t }
    {
        let i = variable_named(&self.source, method, name)?;
        let declared = self.declarations.variables.get(i)?;
        let number = variable_number(&self.source, method, i);
        typed_if(self.fits(t, declared), t, Step::SetVariable(number))
    }

    // What fits a field that is found upward is assigned to it, and keeps its own type.
    fn set_field_rule(&self, s: Ty, name: usize, t: Ty) -> Option<Ruling>
        ensures { result ≡ set_field_ruling self.now.source.text.now (contents self.now.source.outline.now) (declared self.now.declarations.now) s name t }
    {
        let f = self.field_from(s, name)?;
        let declared = self.declarations.fields.get(f)?;
        typed_if(self.fits(t, declared), t, Step::SetField(f))
    }

    // Nothing is assigned to a relationship.
    fn set_member_rule(&self, s: Ty, name: usize, t: Ty) -> Option<Ruling>
        ensures { result ≡ set_member_ruling self.now.source.text.now (contents self.now.source.outline.now) (declared self.now.declarations.now) s name t }
    {
        match relationship_named(&self.source, name) {
            None => self.set_field_rule(s, name, t),
            Some(_) => None,
        }
    }

    // The relationship with the name, if the two types fit its ends.
    fn pair_named(&self, name: usize, s: Ty, t: Ty) -> Option<u8>
        ensures { result ≡ pair_named self.now.source.text.now (contents self.now.source.outline.now) (declared self.now.declarations.now) name s t }
    {
        let r = relationship_named(&self.source, name)?;
        let ends = self.ends(r)?;
        (self.fits_row(s, ends.first) && self.fits_row(t, ends.second)).then_some(r)
    }

    // An instance is added between what fits the ends.
    fn add_rule(&self, name: usize, s: Ty, t: Ty) -> Option<Ruling>
        ensures { result ≡ add_ruling self.now.source.text.now (contents self.now.source.outline.now) (declared self.now.declarations.now) name s t }
    {
        let r = self.pair_named(name, s, t)?;
        Some(Ruling::Typed(relationship_type(r), Step::Add(r)))
    }

    // An instance is removed between what fits the ends.
    fn rem_rule(&self, name: usize, s: Ty, t: Ty) -> Option<Ruling>
        ensures { result ≡ rem_ruling self.now.source.text.now (contents self.now.source.outline.now) (declared self.now.declarations.now) name s t }
    {
        let r = self.pair_named(name, s, t)?;
        Some(Ruling::Typed(relationship_type(r), Step::Rem(r)))
    }

    // A method that is found upward, with an argument that fits its parameter, has its result's type.
    fn call_rule(&self, s: Ty, name: usize, t: Ty) -> Option<Ruling>
        ensures { result ≡ call_ruling self.now.source.text.now (contents self.now.source.outline.now) (declared self.now.declarations.now) s name t }
    {
        let m = self.method_from(s, name)?;
        let signature = self.declarations.methods.get(m)?;
        typed_if(
            self.fits(t, signature.parameter),
            signature.result,
            Step::Call(m),
        )
    }

    // What is returned fits the method's result.
    fn return_rule(&self, method: usize, s: Ty) -> Option<Ruling>
        ensures { result ≡ return_ruling (declared self.now.declarations.now) method s }
    {
        let signature = self.declarations.methods.get(method)?;
        self.fits(s, signature.result)
            .then_some(Ruling::Done(Step::Return))
    }

    // What the rules say of a node whose parts have these types; none where no rule covers it.
    pub fn rule(&self, node: Node, left: Option<Ty>, right: Option<Ty>) -> Option<Ruling>
        ensures { result ≡ ruling_of self.now.source.text.now (contents self.now.source.outline.now) (declared self.now.declarations.now) node left right }
    {
        match (node.shape, left, right) {
            (Shape::Variable(name), _, _) => self.variable_rule(node.method, name),
            (Shape::True, _, _) => Some(Ruling::Typed(Ty::boolean(), Step::Truth(true))),
            (Shape::False, _, _) => Some(Ruling::Typed(Ty::boolean(), Step::Truth(false))),
            (Shape::Null, _, _) => Some(Ruling::Typed(Ty::null(), Step::Null)),
            (Shape::This, _, _) => self.this_rule(node.method),
            (Shape::New(name), _, _) => self.new_rule(name),
            (Shape::Add(name), Some(s), Some(t)) => self.add_rule(name, s, t),
            (Shape::Rem(name), Some(s), Some(t)) => self.rem_rule(name, s, t),
            (Shape::Member(name), Some(s), _) => self.member_rule(s, name),
            (Shape::Call(name), Some(s), Some(t)) => self.call_rule(s, name, t),
            (Shape::Instances(name), Some(s), _) => self.instances_rule(s, name),
            (Shape::From, Some(s), _) => self.from_rule(s),
            (Shape::To, Some(s), _) => self.to_rule(s),
            (Shape::Equal, Some(s), Some(t)) => compare_rule(s, t),
            (Shape::SetVariable(name), _, Some(t)) => self.set_variable_rule(node.method, name, t),
            (Shape::SetMember(name), Some(s), Some(t)) => self.set_member_rule(s, name, t),
            (Shape::Action, Some(_), _) => Some(Ruling::Done(Step::Drop)),
            (Shape::Branch, Some(s), _) => branch_rule(s),
            (Shape::Return, Some(s), _) => self.return_rule(node.method, s),
            // a part has no type
            _ => Some(Ruling::Waits),
        }
    }
}
