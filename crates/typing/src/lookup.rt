ghost use Rattle.std.specs.Prelude.{◌≡◌, ℕ, Option, ◌&&◌, ◌==◌, count_by, position, take};
ghost use Rattle.words.specs.Names.{is_name};
ghost use Rattle.declarations.specs.Descending.{same_row};
ghost use Rattle.outline.specs.Contents.{contents};
ghost use Rattle.declarations.specs.Resolved.{declared};
ghost use Rattle.descent.specs.Nearest.{Computes, nearest_up};
ghost use Rattle.values.specs.Fits.{line_in};
ghost use Rattle.typing.specs.Lookup.{found_there, in_line, class_named, relationship_named, row_of, relationship_of, variable_named, variable_number, field_of, field_upward, method_of_row, method_upward, field_from, method_from};

use crate::typer::Typer;
use declarations::source::Source;
use descent::members::nearest;
use outline::entry::{Field, Variable};
use values::types::{CellRow, Kind, Lineage, Ty};

// The number of a row, if it is of the line.
fn in_line(lineage: Lineage, row: CellRow) -> Option<u8>
    ensures { result ≡ in_line lineage row }
{
    (row.lineage == lineage).then_some(row.number)
}

// The row that a type is.
fn row_of(t: Ty) -> Option<CellRow>
    ensures { result ≡ row_of t }
{
    match t.kind() {
        Kind::Row(lineage) => Some(CellRow {
            lineage,
            number: t.row(),
        }),
        _ => None,
    }
}

// The relationship row that a type is.
pub(crate) fn relationship_of(t: Ty) -> Option<u8>
    ensures { result ≡ relationship_of t }
{
    in_line(Lineage::Relationship, row_of(t)?)
}

// The class whose name stands at a place.
pub(crate) fn class_named(source: &Source<'_>, place: usize) -> Option<u8>
    ensures { result ≡ class_named source.now.text.now (contents source.now.outline.now) place }
{
    in_line(Lineage::Class, source.row_named(place)?)
}

// The relationship whose name stands at a place.
pub(crate) fn relationship_named(source: &Source<'_>, place: usize) -> Option<u8>
    ensures { result ≡ relationship_named source.now.text.now (contents source.now.outline.now) place }
{
    in_line(Lineage::Relationship, source.row_named(place)?)
}

// Whether the variable is of the method and has the name.
fn is_variable(source: &Source<'_>, variable: Variable, method: usize, name: &[u8]) -> bool
    ensures { result ≡ (variable.method == method && is_name source.now.text.now variable.name name.now) }
{
    variable.method == method && source.spells(variable.name, name)
}

// The first variable of the method that has the name.
fn variable_called(source: &Source<'_>, method: usize, name: &[u8]) -> Option<usize>
    ensures { result ≡ position (λ (v : _). v.method == method && is_name source.now.text.now v.name name.now) (contents source.now.outline.now).variables }
{
    let variables = source.outline.variables.as_slice();
    variables
        .iter()
        .position(|variable| is_variable(source, *variable, method, name))
}

// The same of the name at a place.
#[tactic(auto, using(tables::proofs::Chains::position_all), unfolding(crate::specs::Lookup::variable_named))]
pub(crate) fn variable_named(source: &Source<'_>, method: usize, place: usize) -> Option<usize>
    ensures { result ≡ variable_named source.now.text.now (contents source.now.outline.now) method place }
{
    variable_called(source, method, source.name_at(place))
}

// How many of the first i variables are of the method.
fn variables_before(source: &Source<'_>, method: usize, i: usize) -> usize
    ensures { result ≡ count_by (λ (v : _). v.method == method) (take i (contents source.now.outline.now).variables) }
{
    let variables = source.outline.variables.as_slice();
    variables
        .iter()
        .take(i)
        .filter(|variable| variable.method == method)
        .count()
}

// The number of a variable in its method.
#[tactic(auto, using(tables::proofs::Chains::count_take), unfolding(crate::specs::Lookup::variable_number))]
pub(crate) fn variable_number(source: &Source<'_>, method: usize, i: usize) -> usize
    ensures { result ≡ variable_number (contents source.now.outline.now) method i }
{
    variables_before(source, method, i)
}

// Whether the field is declared in the row and has the name.
#[tactic(auto, using(declarations::proofs::Same::row_is))]
fn is_field(source: &Source<'_>, field: Field, row: CellRow, name: &[u8]) -> bool
    ensures { result ≡ (same_row field.owner row && is_name source.now.text.now field.name name.now) }
{
    field.owner == row && source.spells(field.name, name)
}

// The first field that is declared in the row and has the name.
fn field_called(source: &Source<'_>, row: CellRow, name: &[u8]) -> Option<usize>
    ensures { result ≡ position (λ (f : _). same_row f.owner row && is_name source.now.text.now f.name name.now) (contents source.now.outline.now).fields }
{
    let fields = source.outline.fields.as_slice();
    fields
        .iter()
        .position(|field| is_field(source, *field, row, name))
}

#[tactic(auto, using(tables::proofs::Chains::position_all), unfolding(crate::specs::Lookup::field_of))]
fn field_of(source: &Source<'_>, row: CellRow, name: &[u8]) -> Option<usize>
    ensures { result ≡ field_of source.now.text.now (contents source.now.outline.now) row.lineage name.now row.number }
{
    field_called(source, row, name)
}

// The first method that is declared in the row and has the name.
#[tactic(auto, using(tables::proofs::Chains::position_all), unfolding(crate::specs::Lookup::method_of_row))]
fn method_of(source: &Source<'_>, row: CellRow, name: &[u8]) -> Option<usize>
    ensures { result ≡ method_of_row source.now.text.now (contents source.now.outline.now) row.lineage name.now row.number }
{
    source.method_of(row, name)
}

impl<'a> Typer<'a> {
    // The member that is found upward from a row, where `member` tells what a row of its line has.
    fn upward<F: Fn(u8) -> Option<usize>>(&self, row: CellRow, member: F) -> Option<usize>
        requires { F.IsAlwaysCallable member }
        ensures { (m : ℕ → Option ℕ) → Computes (F.post member) m → result ≡ found_there (nearest_up (line_in (declared self.now.declarations.now).ancestry row.lineage) m row.number) }
    {
        let line = self.declarations.lines.line(row.lineage);
        let found = nearest(line, row.number, member);
        found.map(|(_, member)| member)
    }

    // The field with the name at a place that is found upward from a row.
    #[tactic(auto, unfolding(crate::specs::Lookup::field_upward))]
    fn field_upward(&self, row: CellRow, place: usize) -> Option<usize>
        ensures { result ≡ field_upward self.now.source.text.now (contents self.now.source.outline.now) (declared self.now.declarations.now) row place }
    {
        let name = self.source.name_at(place);
        self.upward(row, |number| {
            field_of(&self.source, CellRow { number, ..row }, name)
        })
    }

    // The method with the name at a place that is found upward from a row.
    #[tactic(auto, unfolding(crate::specs::Lookup::method_upward))]
    fn method_upward(&self, row: CellRow, place: usize) -> Option<usize>
        ensures { result ≡ method_upward self.now.source.text.now (contents self.now.source.outline.now) (declared self.now.declarations.now) row place }
    {
        let name = self.source.name_at(place);
        self.upward(row, |number| {
            method_of(&self.source, CellRow { number, ..row }, name)
        })
    }

    // The field that is found upward from a type, if it is a row.
    pub(crate) fn field_from(&self, t: Ty, place: usize) -> Option<usize>
        ensures { result ≡ field_from self.now.source.text.now (contents self.now.source.outline.now) (declared self.now.declarations.now) t place }
    {
        self.field_upward(row_of(t)?, place)
    }

    // The method that is found upward from a type, if it is a row.
    pub(crate) fn method_from(&self, t: Ty, place: usize) -> Option<usize>
        ensures { result ≡ method_from self.now.source.text.now (contents self.now.source.outline.now) (declared self.now.declarations.now) t place }
    {
        self.method_upward(row_of(t)?, place)
    }
}
