ghost use Rattle.std.specs.Prelude.{◌≡◌, ◌+◌, ◌<◌, not, None};
ghost use Rattle.std.specs.List.{slice_get};
ghost use Rattle.words.specs.Names.{name_at};
ghost use Rattle.descent.specs.Rows.{line_of};
ghost use Rattle.values.specs.Lines.{ancestry};
ghost use Rattle.outline.specs.Contents.{contents};
ghost use Rattle.tables.specs.Items.{given};
ghost use Rattle.declarations.specs.Naming.{fault_if};
ghost use Rattle.declarations.specs.Resolved.{declared};
ghost use Rattle.declarations.specs.Misfits.{end_fits, ends_misfit, parent_ends, first_end_misfit, method_in, method_above, overridden, overrides, first_override_misfit};

use crate::declarations::{Declarations, Ends, Signature};
use crate::descending::parent_row;
use crate::source::Source;
use descent::line::Line;
use descent::members::nearest;
use outline::entry::{Method, Row};
use tables::search::lesser_of;
use values::lines::Lines;
use values::types::{CellRow, Lineage};

fn end_fits(lines: &Lines, a: CellRow, b: CellRow) -> bool
    ensures { result ≡ end_fits (ancestry lines.now) a b }
{
    lines.row_fits(a.lineage, a.number, b.lineage, b.number)
}

// The place of the first of a relationship's ends that does not fit the parent's.
fn ends_misfit(lines: &Lines, row: Row, own: Ends, above: Ends) -> Option<usize>
    ensures { result ≡ ends_misfit (ancestry lines.now) row own above }
{
    lesser_of(
        (!end_fits(lines, own.first, above.first)).then_some(row.first),
        (!end_fits(lines, own.second, above.second)).then_some(row.second),
    )
}

fn overrides(lines: &Lines, new: Signature, old: Signature) -> bool
    ensures { result ≡ overrides (ancestry lines.now) new old }
{
    lines.fits(old.parameter, new.parameter) && lines.fits(new.result, old.result)
}

impl Declarations {
    // The ends of the parent of a relationship row.
    #[tactic(auto, unfolding(values::specs::Lines::ancestry))]
    fn parent_ends(&self, row: u8) -> Option<Ends>
        ensures { result ≡ parent_ends (declared self.now) row }
    {
        let parent = parent_row(&self.lines.relationships, row)?;
        self.ends.get(parent as usize)
    }
}

impl<'a> Source<'a> {
    // The place of an end that does not fit that of the parent, where `row` is the declared relationship i.
    fn end_misfit(&self, declarations: &Declarations, i: usize, row: Row) -> Option<usize>
        requires { i < 31 }
        ensures { result ≡ given (slice_get (declared declarations.now).ends (i + 1)) None (λ (own : _). given (parent_ends (declared declarations.now) (i + 1)) None (ends_misfit (declared declarations.now).ancestry row own)) }
    {
        let own = declarations.ends.get(i + 1)?;
        let above = declarations.parent_ends(i as u8 + 1)?;
        ends_misfit(&declarations.lines, row, own, above)
    }

    // The place of the first end that does not fit that of the parent.
    #[tactic(auto, using(crate::proofs::Within::in_table))]
    pub(crate) fn first_end_misfit(&self, declarations: &Declarations) -> Option<usize>
        ensures { result ≡ first_end_misfit (contents self.now.outline.now) (declared declarations.now) }
    {
        let relationships = &self.outline.relationships;
        relationships.least(|i, row| self.end_misfit(declarations, i, row))
    }

    // The method of the name that row n of a line declares.
    #[tactic(auto, using(tables::proofs::Chains::position_all))]
    fn method_in(&self, lineage: Lineage, name: &[u8], n: u8) -> Option<usize>
        ensures { result ≡ method_in self.now.text.now (contents self.now.outline.now) lineage name.now n }
    {
        self.method_of(CellRow { lineage, number: n }, name)
    }

    // The method of the name nearest upward from row n of a line.
    fn method_above(&self, line: &Line, lineage: Lineage, name: &[u8], n: u8) -> Option<usize>
        ensures { result ≡ method_above self.now.text.now (contents self.now.outline.now) (line_of line.now) lineage name.now n }
    {
        nearest(line, n, |row| self.method_in(lineage, name, row)).map(|(_, method)| method)
    }

    // The method that one of that name in the row overrides.
    fn overridden(&self, lines: &Lines, owner: CellRow, name: &[u8]) -> Option<usize>
        ensures { result ≡ overridden self.now.text.now (contents self.now.outline.now) (ancestry lines.now) owner name.now }
    {
        let line = lines.line(owner.lineage);
        let parent = parent_row(line, owner.number)?;
        self.method_above(line, owner.lineage, name, parent)
    }

    // The place of the method's name, where `method`, which is method i, does not fit the one that it overrides.
    fn override_misfit(
        &self,
        declarations: &Declarations,
        i: usize,
        method: Method,
    ) -> Option<usize>
        ensures { result ≡ given (overridden self.now.text.now (contents self.now.outline.now) (declared declarations.now).ancestry method.owner (name_at self.now.text.now method.name)) None (λ (j : _). given (slice_get (declared declarations.now).methods i) None (λ (new : _). given (slice_get (declared declarations.now).methods j) None (λ (old : _). fault_if (not (overrides (declared declarations.now).ancestry new old)) method.name))) }
    {
        let lines = &declarations.lines;
        let j = self.overridden(lines, method.owner, self.name_at(method.name))?;
        let new = declarations.methods.get(i)?;
        let old = declarations.methods.get(j)?;
        (!overrides(lines, new, old)).then_some(method.name)
    }

    // The place of the first method that does not fit the one that it overrides.
    pub(crate) fn first_override_misfit(&self, declarations: &Declarations) -> Option<usize>
        ensures { result ≡ first_override_misfit self.now.text.now (contents self.now.outline.now) (declared declarations.now) }
    {
        let methods = &self.outline.methods;
        methods.least(|i, method| self.override_misfit(declarations, i, method))
    }
}
