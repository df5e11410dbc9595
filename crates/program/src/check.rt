ghost use Rattle.std.specs.Prelude.{◌≡◌, length, replicate};
ghost use Rattle.program.specs.Verdict.{Compiled};
ghost use Rattle.program.specs.Checked.{Checked};

use crate::assembly::{field_owners, first_called, method_dispatches, variable_methods};
use crate::code::Code;
use crate::program::Program;
use crate::refusal::Refusal;
use declarations::source::Source;
use outline::outlining::outline;
use tables::table::Table;
use typing::typer::Typer;

// The tables of a text, or why it is refused. What the scratch holds afterwards is not said.
pub(crate) fn compile(text: &[u8], scratch: &mut [u16]) -> Result<Code, Refusal>
    ensures { Compiled text.now (length scratch.old) result }
{
    let outline = outline(text)?;
    if scratch.len() < outline.nodes.len() {
        return Err(Refusal::ScratchTooSmall);
    }
    let source = Source {
        text,
        outline: &outline,
    };
    let declarations = source.resolve();
    source.judge_declarations(&declarations)?;
    let typer = Typer {
        source,
        declarations: &declarations,
    };
    let mut nodes = Table::new();
    typer.judge(scratch, &mut nodes)?;
    let owners = field_owners(&outline);
    let dispatches = method_dispatches(&source);
    let variables = variable_methods(&outline);
    let main = first_called(&source, b"main");
    Ok(Code {
        declarations,
        owners,
        dispatches,
        variables,
        nodes,
        blocks: outline.blocks,
        main,
    })
}

// Judges a text. An accepted text's program is put into its place; a refused text leaves the place as it was. The scratch
// ends all zero.
pub fn check(text: &[u8], scratch: &mut [u16], place: &mut Program) -> Result<(), Refusal>
    ensures answer { Checked text.now (length scratch.old) place.old result place.new }
    ensures scratch { scratch.new ≡ replicate (length scratch.old) 0 }
{
    let compiled = compile(text, scratch);
    scratch.fill(0);
    let code = compiled?;
    *place = Program { code };
    Ok(())
}
