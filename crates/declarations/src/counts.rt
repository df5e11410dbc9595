ghost use Rattle.std.specs.Prelude.{◌≡◌, codes, count_by, length, position};
ghost use Rattle.words.specs.Names.{is_name};
ghost use Rattle.values.specs.declared.types.Lineage.TheVariants.{Class};
ghost use Rattle.values.specs.Fits.{same_lineage};
ghost use Rattle.values.specs.Lines.{ancestry};
ghost use Rattle.outline.specs.Contents.{contents};
ghost use Rattle.tables.specs.Below.{least_below};
ghost use Rattle.declarations.specs.Rows.{rows_of};
ghost use Rattle.declarations.specs.Resolved.{declared};
ghost use Rattle.declarations.specs.Counts.{is_boolean, can_start, main_stands, counts_for, too_many_fields_place, first_too_many};

use crate::declarations::{Declarations, Signature};
use crate::descending::upward;
use crate::source::Source;
use outline::contents::Outline;
use outline::entry::Method;
use tables::search::lesser_of;
use values::lines::Lines;
use values::types::{CellRow, Kind, Lineage};

// The most fields that a row may have.
const MOST_FIELDS: usize = 8;

// Whether the method is declared in a class.
#[tactic(auto, using(crate::proofs::Same::lineage_is))]
fn is_of_class(method: Method) -> bool
    ensures { result ≡ same_lineage method.owner.lineage Class }
{
    method.owner.lineage == Lineage::Class
}

#[tactic(auto, using(crate::proofs::Same::boolean_is))]
fn takes_boolean(signature: Signature) -> bool
    ensures { result ≡ is_boolean signature.parameter.kind }
{
    signature.parameter.kind() == Kind::Boolean
}

// Whether method i is declared in a class, and its parameter is boolean.
fn can_start(outline: &Outline, declarations: &Declarations, i: usize) -> bool
    ensures { result ≡ can_start (contents outline.now) (declared declarations.now) i }
{
    outline.methods.get(i).is_some_and(is_of_class)
        && declarations.methods.get(i).is_some_and(takes_boolean)
}

// Whether row n of a line counts a field of the owner as its own.
#[tactic(auto, using(crate::proofs::Same::row_is))]
fn counts_for(lines: &Lines, lineage: Lineage, n: u8, owner: CellRow) -> bool
    ensures { result ≡ counts_for (ancestry lines.now) lineage n owner }
{
    let row = CellRow { lineage, number: n };
    match lineage {
        Lineage::Class => upward(lines, row, owner),
        Lineage::Relationship => row == owner,
    }
}

impl<'a> Source<'a> {
    // How many methods are named main.
    fn mains(&self) -> usize
        ensures { result ≡ count_by (λ (m : _). is_name self.now.text.now m.name (codes "main")) (contents self.now.outline.now).methods }
    {
        let methods = self.outline.methods.as_slice();
        methods
            .iter()
            .filter(|method| self.spells(method.name, b"main"))
            .count()
    }

    // The first method named main.
    fn first_main(&self) -> Option<usize>
        ensures { result ≡ position (λ (m : _). is_name self.now.text.now m.name (codes "main")) (contents self.now.outline.now).methods }
    {
        let methods = self.outline.methods.as_slice();
        methods
            .iter()
            .position(|method| self.spells(method.name, b"main"))
    }

    // Whether just one method is named main, and it can start.
    #[tactic(auto, using(tables::proofs::Chains::count_all, tables::proofs::Chains::position_all))]
    pub(crate) fn main_stands(&self, declarations: &Declarations) -> bool
        ensures { result ≡ main_stands self.now.text.now (contents self.now.outline.now) (declared declarations.now) }
    {
        let starts = |i| can_start(self.outline, declarations, i);
        self.mains() == 1 && self.first_main().is_some_and(starts)
    }

    // How many fields row n of a line counts.
    fn fields_counted(&self, lines: &Lines, lineage: Lineage, n: u8) -> usize
        ensures { result ≡ count_by (λ (f : _). counts_for (ancestry lines.now) lineage n f.owner) (contents self.now.outline.now).fields }
    {
        let fields = self.outline.fields.as_slice();
        fields
            .iter()
            .filter(|field| counts_for(lines, lineage, n, field.owner))
            .count()
    }

    // The place of the first row of a line with too many fields.
    #[tactic(auto, using(tables::proofs::Chains::count_all, crate::proofs::Within::row_few))]
    fn first_too_many_of(&self, lines: &Lines, lineage: Lineage) -> Option<usize>
        ensures { result ≡ least_below (too_many_fields_place (contents self.now.outline.now) (ancestry lines.now) lineage) (length (rows_of (contents self.now.outline.now) lineage)) }
    {
        self.rows(lineage).least(|i, row| {
            let counted = self.fields_counted(lines, lineage, i as u8 + 1);
            (counted > MOST_FIELDS).then_some(row.name)
        })
    }

    // The place of the first row with too many fields.
    pub(crate) fn first_too_many(&self, lines: &Lines) -> Option<usize>
        ensures { result ≡ first_too_many (contents self.now.outline.now) (ancestry lines.now) }
    {
        lesser_of(
            self.first_too_many_of(lines, Lineage::Class),
            self.first_too_many_of(lines, Lineage::Relationship),
        )
    }
}
