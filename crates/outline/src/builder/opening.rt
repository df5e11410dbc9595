ghost use Rattle.std.specs.Prelude.{◌≡◌};
ghost use Rattle.outline.specs.Building.{counted, opening, closing, top_of, next_node, settling};

use super::Builder;
use super::pending::Open;

impl Builder {
    // One node more.
    pub(crate) fn count(&mut self)
        ensures { self.new ≡ counted self.old }
    {
        self.tally.nodes = self.tally.nodes.saturating_add(1);
    }

    // How many nodes there are, which is the number of the next.
    pub(crate) fn next_node(&self) -> usize
        ensures { result ≡ next_node self.now }
    {
        self.outline.nodes.len()
    }

    // What was opened last.
    pub(crate) fn top(&self) -> Open
        ensures { result ≡ top_of self.now }
    {
        self.opened.last().unwrap_or(Open::held(0, 0))
    }

    // Takes what was opened last.
    pub(crate) fn take(&mut self) -> Open
        ensures top { result ≡ top_of self.old }
        ensures closed { self.new ≡ closing self.old }
    {
        let open = self.top();
        self.close();
        open
    }

    pub(crate) fn open(&mut self, open: Open)
        ensures { self.new ≡ opening self.old «open» }
    {
        self.opened.push(open);
    }

    pub(crate) fn close(&mut self)
        ensures { self.new ≡ closing self.old }
    {
        self.opened.shorten();
    }

    // Puts another in the place of what was opened last.
    pub(crate) fn replace(&mut self, open: Open)
        ensures { self.new ≡ opening (closing self.old) «open» }
    {
        self.close();
        self.open(open);
    }

    // A statement of this height is complete: a part of the branch that is open, if any is.
    pub(crate) fn settle(&mut self, height: u8)
        ensures { self.new ≡ settling self.old height }
    {
        match self.opened.last() {
            None => self.tally.tallest = self.tally.tallest.max(height),
            Some(mut branch) => {
                branch.height = branch.height.max(height);
                self.replace(branch);
            }
        }
    }
}
