ghost use Rattle.std.specs.Prelude.{◌≡◌, ◌+◌, length, nat_eq};
ghost use Rattle.std.specs.List.{find};
ghost use Rattle.outline.specs.Contents.{contents};
ghost use Rattle.tables.specs.Below.{tabulated};
ghost use Rattle.tables.specs.Listed.{listed};
ghost use Rattle.declarations.specs.Resolved.{declared, declared_of, type_or, row_or, ends_are, ends_of, field_type, variable_type, parameter_type, signature_of};

use crate::declarations::{Declarations, Ends, Signature};
use crate::source::Source;
use grammar::event::TypeWord;
use outline::entry::{Method, Row, Variable};
use tables::table::Table;
use values::lines::Lines;
use values::types::{CellRow, Lineage, Ty};

impl<'a> Source<'a> {
    // The type that is written so; boolean where its row is not declared.
    fn type_or_boolean(&self, typed: TypeWord) -> Ty
        ensures { result ≡ type_or self.now.text.now (contents self.now.outline.now) typed }
    {
        self.type_named(typed).unwrap_or_default()
    }

    // The row whose name stands at a place; Object where it is not declared.
    fn row_or_object(&self, place: usize) -> CellRow
        ensures { result ≡ row_or self.now.text.now (contents self.now.outline.now) place }
    {
        self.row_named(place).unwrap_or_default()
    }

    fn ends_of(&self, row: Row) -> Ends
        ensures { result ≡ ends_are (row_or self.now.text.now (contents self.now.outline.now) row.first) (row_or self.now.text.now (contents self.now.outline.now) row.second) }
    {
        Ends {
            first: self.row_or_object(row.first),
            second: self.row_or_object(row.second),
        }
    }

    // The ends of each relationship row, those of the root first.
    fn ends(&self) -> Table<Ends, 32>
        ensures { listed result ≡ tabulated (ends_of self.now.text.now (contents self.now.outline.now)) (length (contents self.now.outline.now).relationships + 1) }
    {
        let mut ends = Table::new();
        ends.push(Ends::default());
        for &row in self.outline.relationships.as_slice() {
            ends.push(self.ends_of(row));
        }
        ends
    }

    fn field_types(&self) -> Table<Ty, 128>
        ensures { listed result ≡ tabulated (field_type self.now.text.now (contents self.now.outline.now)) (length (contents self.now.outline.now).fields) }
    {
        self.outline
            .fields
            .map(|_, field| self.type_or_boolean(field.typed))
    }

    fn variable_types(&self) -> Table<Ty, 704>
        ensures { listed result ≡ tabulated (variable_type self.now.text.now (contents self.now.outline.now)) (length (contents self.now.outline.now).variables) }
    {
        self.outline
            .variables
            .map(|_, variable| self.type_or_boolean(variable.typed))
    }

    // The parameter of method i, which is the method's first variable.
    fn parameter(&self, i: usize) -> Option<Variable>
        ensures { result ≡ find (λ (v : _). nat_eq v.method i) (contents self.now.outline.now).variables }
    {
        let mut variables = self.outline.variables.as_slice().iter().copied();
        variables.find(|variable| variable.method == i)
    }

    fn parameter_type(&self, i: usize) -> Ty
        ensures { result ≡ parameter_type self.now.text.now (contents self.now.outline.now) i }
    {
        let typed = |parameter: Variable| self.type_or_boolean(parameter.typed);
        self.parameter(i).map_or(Ty::boolean(), typed)
    }

    // The types of method i.
    fn signature(&self, i: usize, method: Method) -> Signature
        ensures { result ≡ record { result = type_or self.now.text.now (contents self.now.outline.now) method.result; parameter = parameter_type self.now.text.now (contents self.now.outline.now) i } }
    {
        Signature {
            result: self.type_or_boolean(method.result),
            parameter: self.parameter_type(i),
        }
    }

    fn signatures(&self) -> Table<Signature, 64>
        ensures { listed result ≡ tabulated (signature_of self.now.text.now (contents self.now.outline.now)) (length (contents self.now.outline.now).methods) }
    {
        self.outline
            .methods
            .map(|i, method| self.signature(i, method))
    }

    // What the text declares, with its names resolved.
    #[tactic(auto, unfolding(crate::specs::Resolved::declared_of, values::specs::Lines::ancestry))]
    pub fn resolve(&self) -> Declarations
        ensures { declared result ≡ declared_of self.now.text.now (contents self.now.outline.now) }
    {
        Declarations {
            lines: Lines {
                classes: self.line(Lineage::Class),
                relationships: self.line(Lineage::Relationship),
            },
            ends: self.ends(),
            fields: self.field_types(),
            methods: self.signatures(),
            variables: self.variable_types(),
        }
    }
}
