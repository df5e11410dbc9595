ghost use Rattle.std.specs.Prelude.{◌≡◌, length};
ghost use Rattle.outline.specs.Contents.{contents};
ghost use Rattle.tables.specs.Below.{least_below, lesser};
ghost use Rattle.declarations.specs.Naming.{parent_missing_place, row_missing, end_missing_place, type_missing, field_type_missing_place, result_type_missing_place, variable_type_missing_place, first_missing};
ghost use Rattle.declarations.specs.Rows.{rows_of};

use crate::source::Source;
use grammar::event::TypeWord;
use outline::entry::Row;
use tables::search::lesser_of;
use values::types::Lineage;

impl<'a> Source<'a> {
    // The place of the first parent in a line that is no earlier row of it.
    fn first_parent_missing(&self, lineage: Lineage) -> Option<usize>
        ensures { result ≡ least_below (parent_missing_place self.now.text.now (contents self.now.outline.now) lineage) (length (rows_of (contents self.now.outline.now) lineage)) }
    {
        self.rows(lineage).least(|i, row| {
            let parent = self.parent(lineage, i, row);
            parent.is_none().then_some(row.parent)
        })
    }

    // The place, where the name there is that of no row.
    fn row_missing(&self, place: usize) -> Option<usize>
        ensures { result ≡ row_missing self.now.text.now (contents self.now.outline.now) place }
    {
        self.row_named(place).is_none().then_some(place)
    }

    fn type_missing(&self, typed: TypeWord) -> Option<usize>
        ensures { result ≡ type_missing self.now.text.now (contents self.now.outline.now) typed }
    {
        match typed {
            TypeWord::Boolean => None,
            TypeWord::SetOf(place) | TypeWord::Row(place) => self.row_missing(place),
        }
    }

    fn end_missing(&self, row: Row) -> Option<usize>
        ensures { result ≡ lesser (row_missing self.now.text.now (contents self.now.outline.now) row.first) (row_missing self.now.text.now (contents self.now.outline.now) row.second) }
    {
        lesser_of(self.row_missing(row.first), self.row_missing(row.second))
    }

    // The place of the first end that is not declared.
    fn first_end_missing(&self) -> Option<usize>
        ensures { result ≡ least_below (end_missing_place self.now.text.now (contents self.now.outline.now)) (length (contents self.now.outline.now).relationships) }
    {
        self.outline
            .relationships
            .least(|_, row| self.end_missing(row))
    }

    // The place of the first type that is not declared: of a field, of a method's result, or of a variable.
    fn first_type_missing(&self) -> Option<usize>
        ensures { result ≡ lesser (least_below (field_type_missing_place self.now.text.now (contents self.now.outline.now)) (length (contents self.now.outline.now).fields)) (lesser (least_below (result_type_missing_place self.now.text.now (contents self.now.outline.now)) (length (contents self.now.outline.now).methods)) (least_below (variable_type_missing_place self.now.text.now (contents self.now.outline.now)) (length (contents self.now.outline.now).variables))) }
    {
        let outline = self.outline;
        let field = outline
            .fields
            .least(|_, field| self.type_missing(field.typed));
        let result = outline
            .methods
            .least(|_, method| self.type_missing(method.result));
        let variable = outline
            .variables
            .least(|_, variable| self.type_missing(variable.typed));
        lesser_of(field, lesser_of(result, variable))
    }

    // The place of the first name that is not declared.
    pub(crate) fn first_missing(&self) -> Option<usize>
        ensures { result ≡ first_missing self.now.text.now (contents self.now.outline.now) }
    {
        let names = lesser_of(self.first_end_missing(), self.first_type_missing());
        lesser_of(
            self.first_parent_missing(Lineage::Class),
            lesser_of(self.first_parent_missing(Lineage::Relationship), names),
        )
    }
}
