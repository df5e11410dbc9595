ghost use Rattle.std.specs.Prelude.{◌≡◌};
ghost use Rattle.outline.specs.Building.{begun, class_added, relationship_added, field_added, local_added, last_method, method_added};

use super::Builder;
use crate::entry::{Field, Method, Row, Variable};
use grammar::event::TypeWord;
use values::types::{CellRow, Lineage};

impl Builder {
    // What is declared next belongs to this row.
    fn begin(&mut self, lineage: Lineage, number: u8)
        ensures { self.new ≡ begun self.old lineage number }
    {
        self.tally.owner = CellRow { lineage, number };
        self.tally.in_method = false;
    }

    pub(crate) fn class(&mut self, name: usize, parent: usize)
        ensures { self.new ≡ class_added self.old name parent }
    {
        self.outline.classes.push(Row {
            name,
            parent,
            ..Row::default()
        });
        self.tally.classes = self.tally.classes.saturating_add(1);
        self.begin(Lineage::Class, self.tally.classes);
    }

    pub(crate) fn relationship(&mut self, row: Row)
        ensures { self.new ≡ relationship_added self.old row.name row.parent row.first row.second }
    {
        self.outline.relationships.push(row);
        self.tally.relationships = self.tally.relationships.saturating_add(1);
        self.begin(Lineage::Relationship, self.tally.relationships);
    }

    pub(crate) fn field(&mut self, typed: TypeWord, name: usize)
        ensures { self.new ≡ field_added self.old typed name }
    {
        self.outline.fields.push(Field {
            owner: self.tally.owner,
            typed,
            name,
        });
        self.tally.fields = self.tally.fields.saturating_add(1);
    }

    // The number of the method that was read last.
    pub(crate) fn last_method(&self) -> usize
        ensures { result ≡ last_method self.now.outline }
    {
        self.outline.methods.len().saturating_sub(1)
    }

    pub(crate) fn local(&mut self, typed: TypeWord, name: usize)
        ensures { self.new ≡ local_added self.old typed name }
    {
        let method = self.last_method();
        self.outline.variables.push(Variable {
            method,
            typed,
            name,
        });
        self.tally.locals = self.tally.locals.saturating_add(1);
        self.tally.most = self.tally.most.max(self.tally.locals);
    }

    // A method with its result, name and parameter.
    pub(crate) fn method(&mut self, res: TypeWord, name: usize, typed: TypeWord, parameter: usize)
        ensures { self.new ≡ method_added self.old res name typed parameter }
    {
        let method = self.outline.methods.len();
        self.outline.methods.push(Method {
            owner: self.tally.owner,
            result: res,
            name,
        });
        self.outline.variables.push(Variable {
            method,
            typed,
            name: parameter,
        });
        self.tally.methods = self.tally.methods.saturating_add(1);
        self.tally.in_method = true;
        self.tally.locals = 2;
        self.tally.most = self.tally.most.max(2);
    }
}
