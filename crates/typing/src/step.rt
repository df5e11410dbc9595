use values::types::Ty;

// What a node does, with its names resolved. Variables are numbered within their method, the parameter first; fields and
// methods in the whole text; classes and relationships in their lines.
#[derive(Clone, Copy, PartialEq, Eq, Debug, Default)]
pub enum Step {
    Variable(usize),
    This,
    Truth(bool),
    #[default]
    Null,
    New(u8),
    Add(u8),
    Rem(u8),
    Field(usize),
    Partners(u8),
    Instances(u8),
    From,
    To,
    Compare,
    SetVariable(usize),
    SetField(usize),
    Call(usize),
    Drop,
    Branch,
    Return,
}

// What the typing rules say of a node that they cover: it has a type, it is a statement in order, or a part of it has no
// type.
#[derive(Clone, Copy, PartialEq, Eq, Debug)]
pub enum Ruling {
    Typed(Ty, Step),
    Done(Step),
    Waits,
}

// A node's step, with its method, its place in the text and the numbers of its parts.
#[derive(Clone, Copy, PartialEq, Eq, Debug, Default)]
pub struct Instruction {
    pub step: Step,
    pub method: usize,
    pub place: usize,
    pub left: Option<usize>,
    pub right: Option<usize>,
}
