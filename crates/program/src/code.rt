ghost use Rattle.std.specs.Prelude.{Some, ◌++◌, ◌∷◌};
ghost use Rattle.std.specs.Fmt.{decimal};

use declarations::declarations::Declarations;
use outline::entry::Block;
use std::fmt;
use tables::table::Table;
use typing::step::Instruction;
use values::types::CellRow;

// Where a call finds a method: the row that declares it, and the number of the first method of its name in the text,
// which is the same for all methods of that name.
#[derive(Clone, Copy, PartialEq, Eq, Debug, Default)]
pub struct Dispatch {
    pub owner: CellRow,
    pub selector: usize,
}

// The tables of a program, all that its execution needs: what is declared; the row of each field; the dispatch of each
// method; the method of each variable; the nodes in the order in which they are worked out; where the blocks of its
// branches end; and the number of the method main.
#[derive(Drop)]
pub struct Code {
    pub declarations: Declarations,
    pub owners: Table<CellRow, 128>,
    pub dispatches: Table<Dispatch, 64>,
    pub variables: Table<usize, 704>,
    pub nodes: Table<Instruction, 2048>,
    pub blocks: Table<Block, 2048>,
    pub main: usize,
}

// How many classes, relationships, fields, methods and nodes a program has.
#[derive(Clone, Copy, PartialEq, Eq, Debug)]
pub struct Counts {
    pub classes: u8,
    pub relationships: u8,
    pub fields: usize,
    pub methods: usize,
    pub nodes: usize,
}

// The five numbers, with spaces between them.
impl fmt::Display for Counts {
    ghost output = { λ c. Some (decimal c.classes ++ 32 ∷ decimal c.relationships ++ 32 ∷ decimal c.fields ++ 32 ∷ decimal c.methods ++ 32 ∷ decimal c.nodes) };

    fn fmt<W: fmt::Write>(&self, f: &mut fmt::Formatter<W>) -> fmt::Result {
        let Counts {
            classes,
            relationships,
            fields,
            methods,
            nodes,
        } = *self;
        write!(f, "{classes} {relationships} {fields} {methods} {nodes}")
    }
}
