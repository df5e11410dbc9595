ghost use Rattle.std.specs.Prelude.{◌≡◌};
ghost use Rattle.outline.specs.Building.{node_added, block_added, leaf_added, unary_added, binary_added, bracketed, variable_targeted, member_targeted, assigned_at, statement_added, branch_added, parting, joined_at};

use super::Builder;
use super::pending::{Open, Pending};
use crate::entry::{Block, Node, Shape};

impl Builder {
    fn node(&mut self, shape: Shape, place: usize, left: Option<usize>, right: Option<usize>)
        ensures { self.new ≡ node_added self.old shape place left right }
    {
        let method = self.last_method();
        self.outline.nodes.push(Node {
            shape,
            method,
            place,
            left,
            right,
        });
    }

    // A node without parts.
    pub(crate) fn leaf(&mut self, shape: Shape, place: usize)
        ensures { self.new ≡ leaf_added self.old shape place }
    {
        let node = self.next_node();
        self.node(shape, place, None, None);
        self.open(Open::held(node, 1));
        self.count();
    }

    // A node with one part.
    pub(crate) fn unary(&mut self, shape: Shape, place: usize)
        ensures { self.new ≡ unary_added self.old shape place }
    {
        let node = self.next_node();
        let part = self.take();
        self.node(shape, place, part.node(), None);
        self.open(Open::held(node, part.height.saturating_add(1)));
        self.count();
    }

    // A node with two parts.
    pub(crate) fn binary(&mut self, shape: Shape, place: usize)
        ensures { self.new ≡ binary_added self.old shape place }
    {
        let node = self.next_node();
        let right = self.take();
        let left = self.take();
        self.node(shape, place, left.node(), right.node());
        self.open(Open::held(node, left.height.max(right.height).saturating_add(1)));
        self.count();
    }

    // An expression is in brackets.
    pub(crate) fn bracket(&mut self)
        ensures { self.new ≡ bracketed self.old }
    {
        if let Some(mut part) = self.opened.last() {
            part.height = part.height.saturating_add(1);
            self.replace(part);
        }
    }

    // A variable will be assigned to.
    pub(crate) fn to_variable(&mut self, place: usize)
        ensures { self.new ≡ variable_targeted self.old place }
    {
        self.open(Open::to_variable(place));
        self.count();
    }

    // A member of the object at hand will be assigned to.
    pub(crate) fn to_member(&mut self, name: usize, place: usize)
        ensures { self.new ≡ member_targeted self.old name place }
    {
        if let Some(object) = self.opened.last() {
            self.replace(object.to_member(name, place));
        }
        self.count();
    }

    // The value of an assignment is complete.
    pub(crate) fn assigned(&mut self)
        ensures { self.new ≡ assigned_at self.old }
    {
        let node = self.next_node();
        let value = self.take();
        let target = self.take();
        if let Pending::Assignment {
            shape,
            place,
            object,
        } = target.pending
        {
            self.node(shape, place, object, value.node());
            self.open(Open::held(node, target.height.max(value.height).saturating_add(1)));
        }
    }

    // An action or a return, its expression complete.
    pub(crate) fn statement(&mut self, shape: Shape, place: usize)
        ensures { self.new ≡ statement_added self.old shape place }
    {
        let part = self.take();
        self.node(shape, place, part.node(), None);
        self.count();
        self.settle(part.height.saturating_add(1));
    }

    // A branch, its condition complete.
    pub(crate) fn branch(&mut self, place: usize)
        ensures { self.new ≡ branch_added self.old place }
    {
        let node = self.next_node();
        let condition = self.take();
        self.node(Shape::Branch, place, condition.node(), None);
        self.open(Open::branch(node, condition.height));
        self.count();
    }

    // The first block of a branch is complete.
    pub(crate) fn otherwise(&mut self)
        ensures { self.new ≡ parting self.old }
    {
        if let Some(branch) = self.opened.last() {
            self.replace(branch.parted(self.next_node()));
        }
    }

    // Where the blocks of a branch end.
    fn block(&mut self, branch: usize, otherwise: usize)
        ensures { self.new ≡ block_added self.old branch otherwise }
    {
        let joined = self.next_node();
        self.outline.blocks.push(Block {
            branch,
            otherwise,
            joined,
        });
    }

    // The second block of a branch is complete.
    pub(crate) fn joined(&mut self)
        ensures { self.new ≡ joined_at self.old }
    {
        let Open { pending, height } = self.take();
        if let Pending::Second { branch, otherwise } = pending {
            self.block(branch, otherwise);
            self.settle(height.saturating_add(1));
        }
    }
}
