use grammar::event::TypeWord;
use values::types::CellRow;

// What a text declares, with names as their places in the text. Row n of a line, from 1, is entry n - 1 of the line's
// table; row 0 is the root, which no text declares.

// A class or a relationship. Of a class, the ends are 0, and nothing reads them: both lines have one type of table, and
// ends in an Option would give each relationship a case that none has.
#[derive(Clone, Copy, PartialEq, Eq, Debug, Default)]
pub struct Row {
    pub name: usize,
    pub parent: usize,
    pub first: usize,
    pub second: usize,
}

// A field, and the row that declares it.
#[derive(Clone, Copy, PartialEq, Eq, Debug, Default)]
pub struct Field {
    pub owner: CellRow,
    pub typed: TypeWord,
    pub name: usize,
}

// A method, and the row that declares it.
#[derive(Clone, Copy, PartialEq, Eq, Debug, Default)]
pub struct Method {
    pub owner: CellRow,
    pub result: TypeWord,
    pub name: usize,
}

// A parameter or a local, and the number of its method. A method's parameter comes before its locals.
#[derive(Clone, Copy, PartialEq, Eq, Debug, Default)]
pub struct Variable {
    pub method: usize,
    pub typed: TypeWord,
    pub name: usize,
}

// What a node is, with the place of the name that it has besides its parts, where it has one.
#[derive(Clone, Copy, PartialEq, Eq, Debug, Default)]
pub enum Shape {
    Variable(usize),
    True,
    False,
    #[default]
    Null,
    This,
    New(usize),
    Add(usize),
    Rem(usize),
    Member(usize),
    Call(usize),
    Instances(usize),
    From,
    To,
    Equal,
    SetVariable(usize),
    SetMember(usize),
    Action,
    Branch,
    Return,
}

// A node, after all its parts: the number of its method, the place of its first word, and the numbers of its parts. A
// node with one part has it on the left, except that an assigned value stands on the right.
#[derive(Clone, Copy, PartialEq, Eq, Debug, Default)]
pub struct Node {
    pub shape: Shape,
    pub method: usize,
    pub place: usize,
    pub left: Option<usize>,
    pub right: Option<usize>,
}

// The blocks of a branch: its node, the number of the first node after the first block, and after the second.
#[derive(Clone, Copy, PartialEq, Eq, Debug, Default)]
pub struct Block {
    pub branch: usize,
    pub otherwise: usize,
    pub joined: usize,
}
