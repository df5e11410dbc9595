// What a parser reports of a program, in the order of its text. A number is the place of a word: of a name that was
// read, or under `place` of the first word of what the event is about.

#[derive(Clone, Copy, PartialEq, Eq, Debug)]
pub enum Literal {
    True,
    False,
    Null,
    This,
}

#[derive(Clone, Copy, PartialEq, Eq, Debug)]
pub enum Pairing {
    Add,
    Rem,
}

#[derive(Clone, Copy, PartialEq, Eq, Debug)]
pub enum End {
    From,
    To,
}

// A type as it is written: boolean, a set of the row named there, or the row named there.
#[derive(Clone, Copy, PartialEq, Eq, Debug, Default)]
pub enum TypeWord {
    #[default]
    Boolean,
    SetOf(usize),
    Row(usize),
}

// The parts of an expression come before it, from the left. A target is what will be assigned to, and `Assigned`
// completes the last target that is not complete yet. `Bracket` follows an expression in round brackets.
#[derive(Clone, Copy, PartialEq, Eq, Debug)]
pub enum Event {
    Class {
        name: usize,
        parent: usize,
    },
    Relationship {
        name: usize,
        parent: usize,
        first: usize,
        second: usize,
    },
    // a field or a method's variable
    Declared {
        typed: TypeWord,
        name: usize,
    },
    Method {
        result: TypeWord,
        name: usize,
        typed: TypeWord,
        parameter: usize,
    },
    Variable {
        place: usize,
    },
    Literal {
        value: Literal,
        place: usize,
    },
    New {
        class: usize,
        place: usize,
    },
    Pair {
        pairing: Pairing,
        place: usize,
    },
    Member {
        name: usize,
        place: usize,
    },
    Call {
        name: usize,
        place: usize,
    },
    Instances {
        name: usize,
        place: usize,
    },
    End {
        end: End,
        place: usize,
    },
    Bracket,
    Equal {
        place: usize,
    },
    ToVariable {
        place: usize,
    },
    ToMember {
        name: usize,
        place: usize,
    },
    Assigned,
    // an action is done, and its value dropped
    Acted {
        place: usize,
    },
    // a condition is worked out; its blocks follow, parted by `Otherwise` and ended by `Joined`
    Branch {
        place: usize,
    },
    Otherwise,
    Joined,
    Return {
        place: usize,
    },
}
