use crate::entry::{Block, Field, Method, Node, Row, Variable};
use crate::limit::{CLASSES, FIELDS, METHODS, NAMED_VARIABLES, NODES, RELATIONSHIPS};
use tables::table::Table;

// The tables of a program, each in the order of its text: what it declares, and the nodes of all methods' bodies.
#[derive(Drop)]
pub struct Outline {
    pub classes: Table<Row, CLASSES>,
    pub relationships: Table<Row, RELATIONSHIPS>,
    pub fields: Table<Field, FIELDS>,
    pub methods: Table<Method, METHODS>,
    pub variables: Table<Variable, NAMED_VARIABLES>,
    pub nodes: Table<Node, NODES>,
    pub blocks: Table<Block, NODES>,
}
