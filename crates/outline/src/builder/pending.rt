ghost use Rattle.std.specs.Prelude.{◌≡◌};
ghost use Rattle.outline.specs.Drafts.{held, value_of, to_variable, to_member, in_first, parted};

use crate::entry::Shape;

// What is not complete yet.
#[derive(Clone, Copy)]
pub(crate) enum Pending {
    // a value that no node has taken: its node
    Value(usize),
    // an assignment whose value is to come, and the object to whose member is assigned
    Assignment {
        shape: Shape,
        place: usize,
        object: Option<usize>,
    },
    // a branch in its first block
    First {
        branch: usize,
    },
    // a branch in its second block, which begins at node `otherwise`
    Second {
        branch: usize,
        otherwise: usize,
    },
}

// What is not complete yet, with its height as far as its type goes, which is past the limit: of a branch, the greatest
// height of its parts.
#[derive(Clone, Copy)]
pub(crate) struct Open {
    pub(crate) pending: Pending,
    pub(crate) height: u8,
}

impl Default for Open {
    ghost is_default = { λ x. x ≡ held 0 0 };

    fn default() -> Open {
        Open::held(0, 0)
    }
}

impl Open {
    // The value of a node.
    pub(crate) fn held(node: usize, height: u8) -> Open
        ensures { result ≡ held node height }
    {
        Open {
            pending: Pending::Value(node),
            height,
        }
    }

    // The node of a value.
    pub(crate) fn node(self) -> Option<usize>
        ensures { result ≡ value_of self.pending }
    {
        match self.pending {
            Pending::Value(node) => Some(node),
            _ => None,
        }
    }

    // An assignment to the variable here.
    pub(crate) fn to_variable(place: usize) -> Open
        ensures { result ≡ to_variable place }
    {
        Open {
            pending: Pending::Assignment {
                shape: Shape::SetVariable(place),
                place,
                object: None,
            },
            height: 0,
        }
    }

    // An assignment to a member of this object.
    pub(crate) fn to_member(self, name: usize, place: usize) -> Open
        ensures { result ≡ to_member name place self }
    {
        Open {
            pending: Pending::Assignment {
                shape: Shape::SetMember(name),
                place,
                object: self.node(),
            },
            height: self.height,
        }
    }

    // A branch in its first block.
    pub(crate) fn branch(node: usize, height: u8) -> Open
        ensures { result ≡ in_first node height }
    {
        Open {
            pending: Pending::First { branch: node },
            height,
        }
    }

    // A branch whose second block begins.
    pub(crate) fn parted(self, otherwise: usize) -> Open
        ensures { result ≡ parted otherwise self }
    {
        match self.pending {
            Pending::First { branch } => Open {
                pending: Pending::Second { branch, otherwise },
                height: self.height,
            },
            _ => self,
        }
    }
}
