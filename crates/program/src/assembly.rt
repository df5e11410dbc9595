ghost use Rattle.std.specs.Prelude.{◌≡◌, length, position};
ghost use Rattle.words.specs.Names.{is_name, name_at};
ghost use Rattle.outline.specs.Contents.{contents};
ghost use Rattle.tables.specs.Below.{tabulated};
ghost use Rattle.tables.specs.Listed.{listed};
ghost use Rattle.program.specs.Model.{owner_of, first_called, dispatch, dispatch_of, method_of_variable};

use crate::code::Dispatch;
use declarations::source::Source;
use outline::contents::Outline;
use outline::entry::Method;
use tables::table::Table;
use values::types::CellRow;

// The first method of this name, by its number.
fn method_called(source: &Source<'_>, name: &[u8]) -> Option<usize>
    ensures { result ≡ position (λ (m : _). is_name source.now.text.now m.name name.now) (contents source.now.outline.now).methods }
{
    let methods = source.outline.methods.as_slice();
    methods
        .iter()
        .position(|method| source.spells(method.name, name))
}

// Its number; 0 where there is none.
#[tactic(auto, using(tables::proofs::Chains::position_all))]
pub(crate) fn first_called(source: &Source<'_>, name: &[u8]) -> usize
    ensures { result ≡ first_called source.now.text.now (contents source.now.outline.now) name.now }
{
    method_called(source, name).unwrap_or(0)
}

// Where calls find a method.
fn dispatch(source: &Source<'_>, method: Method) -> Dispatch
    ensures { result ≡ dispatch method.owner (first_called source.now.text.now (contents source.now.outline.now) (name_at source.now.text.now method.name)) }
{
    Dispatch {
        owner: method.owner,
        selector: first_called(source, source.name_at(method.name)),
    }
}

// The rows of the fields.
pub(crate) fn field_owners(outline: &Outline) -> Table<CellRow, 128>
    ensures { listed result ≡ tabulated (owner_of (contents outline.now)) (length (contents outline.now).fields) }
{
    outline.fields.map(|_, field| field.owner)
}

pub(crate) fn method_dispatches(source: &Source<'_>) -> Table<Dispatch, 64>
    ensures { listed result ≡ tabulated (dispatch_of source.now.text.now (contents source.now.outline.now)) (length (contents source.now.outline.now).methods) }
{
    source
        .outline
        .methods
        .map(|_, method| dispatch(source, method))
}

// The methods of the variables.
pub(crate) fn variable_methods(outline: &Outline) -> Table<usize, 704>
    ensures { listed result ≡ tabulated (method_of_variable (contents outline.now)) (length (contents outline.now).variables) }
{
    outline.variables.map(|_, variable| variable.method)
}
