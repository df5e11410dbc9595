ghost use Rattle.std.specs.Prelude.{◌≡◌};
ghost use Rattle.outline.specs.Limits.{limit_number};

// How many of each a program may have at most: of variables a method, `this` and its parameter included.
pub const CLASSES: usize = 31;

pub const RELATIONSHIPS: usize = 31;

pub const FIELDS: usize = 128;

pub const METHODS: usize = 64;

pub const VARIABLES: usize = 12;

pub const NODES: usize = 2048;

// How high an expression or a statement may be.
pub const HEIGHT: usize = 16;

// How many parameters and locals all methods have at most.
pub const NAMED_VARIABLES: usize = METHODS * (VARIABLES - 1);

// A limit on the size of a program: how many classes, relationships, fields, methods and nodes it has, how many
// variables a method has, and how high an expression or a statement is.
#[derive(Clone, Copy, PartialEq, Eq, Debug)]
pub enum Limit {
    Classes = 1,
    Relationships,
    Fields,
    Methods,
    Variables,
    Nodes,
    Height,
}

// All limits, in the order of their numbers.
pub const LIMITS: [Limit; 7] = [
    Limit::Classes,
    Limit::Relationships,
    Limit::Fields,
    Limit::Methods,
    Limit::Variables,
    Limit::Nodes,
    Limit::Height,
];

impl Limit {
    // The limit's number.
    pub fn number(self) -> u8
        ensures { result ≡ limit_number self }
    {
        self as u8
    }
}
