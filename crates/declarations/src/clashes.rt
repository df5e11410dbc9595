ghost use Rattle.std.specs.Prelude.{◌≡◌, ◌&&◌, ◌||◌, ◌==◌, length, position, take};
ghost use Rattle.std.specs.List.{list_any};
ghost use Rattle.words.specs.Names.{is_name, name_at};
ghost use Rattle.values.specs.Lines.{ancestry};
ghost use Rattle.outline.specs.Contents.{contents};
ghost use Rattle.tables.specs.Below.{any_below, least_below};
ghost use Rattle.declarations.specs.Descending.{same_row, upward};
ghost use Rattle.declarations.specs.Clashes.{field_alike, relationship_name, field_clashes_place, method_alike, method_twice_place, variable_alike, variable_twice_place, first_clash};

use crate::descending::upward;
use crate::source::{RELATION, Source};
use outline::entry::{Field, Method, Variable};
use tables::search::lesser_of;
use values::lines::Lines;
use values::types::{CellRow, Lineage};

impl<'a> Source<'a> {
    // Whether one of the first i fields has the name, in the owner or upward from it.
    fn any_field_alike(&self, lines: &Lines, owner: CellRow, name: &[u8], i: usize) -> bool
        ensures { result ≡ list_any (λ (f : _). upward (ancestry lines.now) owner f.owner && is_name self.now.text.now f.name name.now) (take i (contents self.now.outline.now).fields) }
    {
        let fields = self.outline.fields.as_slice();
        fields.iter().take(i).any(|field| upward(lines, owner, field.owner)
            && self.spells(field.name, name))
    }

    // Whether the name is that of a relationship, the root included.
    #[tactic(auto, using(crate::proofs::Searches::found_any))]
    fn names_relationship(&self, name: &[u8]) -> bool
        ensures { result ≡ relationship_name self.now.text.now (contents self.now.outline.now) name.now }
    {
        name == RELATION || self.place_among(Lineage::Relationship, name).is_some()
    }

    // Whether field i has the name of an earlier field of its row or one upward, or that of a relationship.
    #[tactic(auto, using(tables::proofs::Chains::any_take))]
    fn field_clashes(&self, lines: &Lines, i: usize, field: Field) -> bool
        ensures { result ≡ any_below (field_alike self.now.text.now (contents self.now.outline.now) (ancestry lines.now) field.owner (name_at self.now.text.now field.name)) i || relationship_name self.now.text.now (contents self.now.outline.now) (name_at self.now.text.now field.name) }
    {
        let name = self.name_at(field.name);
        self.any_field_alike(lines, field.owner, name, i) || self.names_relationship(name)
    }

    // Whether the method is declared in the row and has the name.
    #[tactic(auto, using(crate::proofs::Same::row_is))]
    fn is_method(&self, method: Method, owner: CellRow, name: &[u8]) -> bool
        ensures { result ≡ same_row method.owner owner && is_name self.now.text.now method.name name.now }
    {
        method.owner == owner && self.spells(method.name, name)
    }

    // The first method of the name in the row.
    pub fn method_of(&self, owner: CellRow, name: &[u8]) -> Option<usize>
        ensures { result ≡ position (λ (m : _). same_row m.owner owner && is_name self.now.text.now m.name name.now) (contents self.now.outline.now).methods }
    {
        let methods = self.outline.methods.as_slice();
        methods
            .iter()
            .position(|method| self.is_method(*method, owner, name))
    }

    // Whether one of the first i methods has the name in the row.
    fn any_method_alike(&self, owner: CellRow, name: &[u8], i: usize) -> bool
        ensures { result ≡ list_any (λ (m : _). same_row m.owner owner && is_name self.now.text.now m.name name.now) (take i (contents self.now.outline.now).methods) }
    {
        let methods = self.outline.methods.as_slice();
        methods
            .iter()
            .take(i)
            .any(|method| self.is_method(*method, owner, name))
    }

    // Whether method i has the name of an earlier one of its row.
    #[tactic(auto, using(tables::proofs::Chains::any_take))]
    fn is_method_twice(&self, i: usize, method: Method) -> bool
        ensures { result ≡ any_below (method_alike self.now.text.now (contents self.now.outline.now) method.owner (name_at self.now.text.now method.name)) i }
    {
        self.any_method_alike(method.owner, self.name_at(method.name), i)
    }

    // Whether one of the first i variables is of the method and has the name.
    fn any_variable_alike(&self, method: usize, name: &[u8], i: usize) -> bool
        ensures { result ≡ list_any (λ (v : _). v.method == method && is_name self.now.text.now v.name name.now) (take i (contents self.now.outline.now).variables) }
    {
        let variables = self.outline.variables.as_slice();
        variables.iter().take(i).any(|variable| variable.method == method
            && self.spells(variable.name, name))
    }

    // Whether variable i has the name of an earlier one of its method.
    #[tactic(auto, using(tables::proofs::Chains::any_take))]
    fn is_variable_twice(&self, i: usize, variable: Variable) -> bool
        ensures { result ≡ any_below (variable_alike self.now.text.now (contents self.now.outline.now) variable.method (name_at self.now.text.now variable.name)) i }
    {
        self.any_variable_alike(variable.method, self.name_at(variable.name), i)
    }

    fn first_field_clash(&self, lines: &Lines) -> Option<usize>
        ensures { result ≡ least_below (field_clashes_place self.now.text.now (contents self.now.outline.now) (ancestry lines.now)) (length (contents self.now.outline.now).fields) }
    {
        let fields = &self.outline.fields;
        fields.least(|i, field| self.field_clashes(lines, i, field).then_some(field.name))
    }

    fn first_method_twice(&self) -> Option<usize>
        ensures { result ≡ least_below (method_twice_place self.now.text.now (contents self.now.outline.now)) (length (contents self.now.outline.now).methods) }
    {
        let methods = &self.outline.methods;
        methods.least(|i, method| self.is_method_twice(i, method).then_some(method.name))
    }

    fn first_variable_twice(&self) -> Option<usize>
        ensures { result ≡ least_below (variable_twice_place self.now.text.now (contents self.now.outline.now)) (length (contents self.now.outline.now).variables) }
    {
        let variables = &self.outline.variables;
        variables.least(|i, variable| self.is_variable_twice(i, variable).then_some(variable.name))
    }

    // The place of the first name of a member or variable that clashes.
    pub(crate) fn first_clash(&self, lines: &Lines) -> Option<usize>
        ensures { result ≡ first_clash self.now.text.now (contents self.now.outline.now) (ancestry lines.now) }
    {
        let twice = lesser_of(self.first_method_twice(), self.first_variable_twice());
        lesser_of(self.first_field_clash(lines), twice)
    }
}
