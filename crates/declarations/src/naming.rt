ghost use Rattle.std.specs.Prelude.{◌≡◌, ◌&&◌, length, nat_lt};
ghost use Rattle.std.specs.List.{list_any};
ghost use Rattle.words.specs.Names.{is_name};
ghost use Rattle.outline.specs.Contents.{contents};
ghost use Rattle.tables.specs.Below.{least_below};
ghost use Rattle.declarations.specs.Naming.{root_name, taken, name_taken_place, first_taken};
ghost use Rattle.declarations.specs.Rows.{rows_of};

use crate::source::{OBJECT, RELATION, Source};
use tables::search::lesser_of;
use values::types::Lineage;

fn is_root(name: &[u8]) -> bool
    ensures { result ≡ root_name name.now }
{
    name == OBJECT || name == RELATION
}

impl<'a> Source<'a> {
    // Whether a row of a line has the name and stands before the place.
    fn any_named_before(&self, lineage: Lineage, name: &[u8], place: usize) -> bool
        ensures { result ≡ list_any (λ (r : _). nat_lt r.name place && is_name self.now.text.now r.name name.now) (rows_of (contents self.now.outline.now) lineage) }
    {
        let rows = self.rows(lineage).as_slice();
        rows.iter()
            .any(|row| row.name < place && self.spells(row.name, name))
    }

    // Whether the name is a root's, or that of a row before the place.
    #[tactic(auto, using(tables::proofs::Chains::any_all))]
    fn is_taken(&self, name: &[u8], place: usize) -> bool
        ensures { result ≡ taken self.now.text.now (contents self.now.outline.now) name.now place }
    {
        is_root(name)
            || self.any_named_before(Lineage::Class, name, place)
            || self.any_named_before(Lineage::Relationship, name, place)
    }

    fn first_taken_of(&self, lineage: Lineage) -> Option<usize>
        ensures { result ≡ least_below (name_taken_place self.now.text.now (contents self.now.outline.now) lineage) (length (rows_of (contents self.now.outline.now) lineage)) }
    {
        self.rows(lineage).least(|_, row| {
            let taken = self.is_taken(self.name_at(row.name), row.name);
            taken.then_some(row.name)
        })
    }

    // The place of the first name that is taken.
    pub(crate) fn first_taken(&self) -> Option<usize>
        ensures { result ≡ first_taken self.now.text.now (contents self.now.outline.now) }
    {
        lesser_of(
            self.first_taken_of(Lineage::Class),
            self.first_taken_of(Lineage::Relationship),
        )
    }
}
