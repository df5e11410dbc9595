ghost use Rattle.std.specs.Prelude.{◌≡◌, min, [], length};
ghost use Rattle.outline.specs.Contents.{contents};
ghost use Rattle.tables.specs.Below.{pushed_below, tabulated};
ghost use Rattle.tables.specs.Listed.{listed};
ghost use Rattle.declarations.specs.Resolved.{declared};
ghost use Rattle.typing.specs.Faults.{FirstFault};
ghost use Rattle.typing.specs.Laws.{TypeLaws};
ghost use Rattle.typing.specs.Passing.{type_of, fault_place, step_of, instruction_for, part_in, told, first_untyped, instruction_at};

use crate::coding::{decode, encode};
use crate::step::{Instruction, Ruling, Step};
use crate::typer::Typer;
use outline::entry::Node;
use tables::search::lesser_of;
use tables::table::Table;
use values::types::Ty;

fn type_of(ruling: Option<Ruling>) -> Option<Ty>
    ensures { result ≡ type_of ruling }
{
    match ruling {
        Some(Ruling::Typed(t, _)) => Some(t),
        _ => None,
    }
}

// The place of the node, if no rule covers it.
fn fault_place(ruling: Option<Ruling>, node: Node) -> Option<usize>
    ensures { result ≡ fault_place ruling node.place }
{
    ruling.is_none().then_some(node.place)
}

fn step_of(ruling: Option<Ruling>) -> Step
    ensures { result ≡ step_of ruling }
{
    match ruling {
        Some(Ruling::Typed(_, step) | Ruling::Done(step)) => step,
        _ => Step::Null,
    }
}

fn instruction_for(ruling: Option<Ruling>, node: Node) -> Instruction
    ensures { result ≡ instruction_for ruling node }
{
    Instruction {
        step: step_of(ruling),
        method: node.method,
        place: node.place,
        left: node.left,
        right: node.right,
    }
}

// The type that is kept for a part of node i.
fn part(scratch: &[u16], i: usize, part: Option<usize>) -> Option<Ty>
    ensures { result ≡ part_in scratch.now i part }
{
    let j = part?;
    if j < i {
        decode(*scratch.get(j)?)
    } else {
        None
    }
}

// A node that no rule covers, though its parts have types: its place in the text.
#[derive(Clone, Copy, PartialEq, Eq, Debug)]
pub struct Untyped {
    pub place: usize,
}

fn refused_at(place: Option<usize>) -> Result<(), Untyped>
    ensures { told result ≡ place }
{
    match place {
        None => Ok(()),
        Some(place) => Err(Untyped { place }),
    }
}

impl<'a> Typer<'a> {
    // Judges as many nodes as the scratch has entries for, in order, and adds an instruction for each. Answers with the
    // least place of a node at fault, if there is one.
    pub fn judge(
        &self,
        scratch: &mut [u16],
        steps: &mut Table<Instruction, 2048>,
    ) -> Result<(), Untyped>
        ensures first { told result ≡ first_untyped self.now.source.text.now (contents self.now.source.outline.now) (declared self.now.declarations.now) (min (length (contents self.now.source.outline.now).nodes) (length scratch.old)) }
        ensures kept { length scratch.new ≡ length scratch.old }
        ensures added { listed steps.new ≡ pushed_below 2048 (instruction_at self.now.source.text.now (contents self.now.source.outline.now) (declared self.now.declarations.now)) (min (length (contents self.now.source.outline.now).nodes) (length scratch.old)) (listed steps.old) }
        ensures fresh { listed steps.old ≡ [] → listed steps.new ≡ tabulated (instruction_at self.now.source.text.now (contents self.now.source.outline.now) (declared self.now.declarations.now)) (min (length (contents self.now.source.outline.now).nodes) (length scratch.old)) }
        ensures least { FirstFault self.now.source.text.now (contents self.now.source.outline.now) (declared self.now.declarations.now) (min (length (contents self.now.source.outline.now).nodes) (length scratch.old)) (told result) }
        ensures laws { TypeLaws self.now.source.text.now (contents self.now.source.outline.now) (declared self.now.declarations.now) }
    {
        let nodes = self.source.outline.nodes.as_slice();
        let n = nodes.len().min(scratch.len());
        let mut least = None;
        for (i, node) in nodes[..n].iter().enumerate() {
            let left = part(scratch, i, node.left);
            let right = part(scratch, i, node.right);
            let ruling = self.rule(*node, left, right);
            scratch[i] = encode(type_of(ruling));
            least = lesser_of(least, fault_place(ruling, *node));
            steps.push(instruction_for(ruling, *node));
        }
        refused_at(least)
    }
}
