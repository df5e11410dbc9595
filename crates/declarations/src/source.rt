ghost use Rattle.std.specs.Prelude.{◌≡◌, position};
ghost use Rattle.words.specs.Names.{is_name, name_at};
ghost use Rattle.outline.specs.Contents.{contents};
ghost use Rattle.tables.specs.Listed.{listed};
ghost use Rattle.declarations.specs.Rows.{rows_of, row_among, row_called, row_named, type_named};

use grammar::event::TypeWord;
use outline::contents::Outline;
use outline::entry::Row;
use tables::table::Table;
use values::types::{CellRow, Lineage, Ty};

// The names of the roots of the two lines.
pub(crate) const OBJECT: &[u8] = b"Object";

pub(crate) const RELATION: &[u8] = b"Relation";

// A text, and the tables of what it declares.
#[derive(Clone, Copy)]
pub struct Source<'a> {
    pub text: &'a [u8],
    pub outline: &'a Outline,
}

impl<'a> Source<'a> {
    // The name at a place.
    pub fn name_at(&self, place: usize) -> &'a [u8]
        ensures { result.now ≡ name_at self.now.text.now place }
    {
        words::names::name_at(self.text, place)
    }

    // Whether the name at a place is spelled by these bytes.
    pub fn spells(&self, place: usize, name: &[u8]) -> bool
        ensures { result ≡ is_name self.now.text.now place name.now }
    {
        words::names::spells(self.text, place, name)
    }

    // The declared rows of a line.
    pub(crate) fn rows(&self, lineage: Lineage) -> &'a Table<Row, 31>
        ensures { listed result.now ≡ rows_of (contents self.now.outline.now) lineage }
    {
        match lineage {
            Lineage::Class => &self.outline.classes,
            Lineage::Relationship => &self.outline.relationships,
        }
    }

    // The place of the first declared row of a line that has the name.
    pub(crate) fn place_among(&self, lineage: Lineage, name: &[u8]) -> Option<usize>
        ensures { result ≡ position (λ (r : _). is_name self.now.text.now r.name name.now) (rows_of (contents self.now.outline.now) lineage) }
    {
        let rows = self.rows(lineage).as_slice();
        rows.iter().position(|row| self.spells(row.name, name))
    }

    // The same as a row. The declared rows of a line are numbered from 1.
    #[tactic(auto, unfolding(crate::specs::Rows::row_among), using(tables::proofs::Chains::position_all, crate::proofs::Within::found_few))]
    fn row_among(&self, lineage: Lineage, name: &[u8]) -> Option<CellRow>
        ensures { result ≡ row_among self.now.text.now lineage (rows_of (contents self.now.outline.now) lineage) name.now }
    {
        let place = self.place_among(lineage, name)?;
        Some(CellRow {
            lineage,
            number: place as u8 + 1,
        })
    }

    // The row that has the name.
    #[tactic(auto, unfolding(crate::specs::Rows::row_called))]
    pub fn row_called(&self, name: &[u8]) -> Option<CellRow>
        ensures { result ≡ row_called self.now.text.now (contents self.now.outline.now) name.now }
    {
        if name == OBJECT {
            return Some(CellRow::default());
        }
        if name == RELATION {
            return Some(CellRow {
                lineage: Lineage::Relationship,
                number: 0,
            });
        }
        let relationship = || self.row_among(Lineage::Relationship, name);
        self.row_among(Lineage::Class, name).or_else(relationship)
    }

    // The row whose name stands at a place.
    pub fn row_named(&self, place: usize) -> Option<CellRow>
        ensures { result ≡ row_named self.now.text.now (contents self.now.outline.now) place }
    {
        self.row_called(self.name_at(place))
    }

    // The type that is written so; none where its row is not declared.
    pub fn type_named(&self, typed: TypeWord) -> Option<Ty>
        ensures { result ≡ type_named self.now.text.now (contents self.now.outline.now) typed }
    {
        match typed {
            TypeWord::Boolean => Some(Ty::boolean()),
            TypeWord::SetOf(place) => self
                .row_named(place)
                .map(|row| Ty::set_of(row.lineage, row.number)),
            TypeWord::Row(place) => self
                .row_named(place)
                .map(|row| Ty::of_row(row.lineage, row.number)),
        }
    }
}
