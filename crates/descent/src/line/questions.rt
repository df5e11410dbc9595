ghost use Rattle.std.specs.Prelude.{◌≡◌, ℕ, length, Decides, MatchOption};
ghost use Rattle.descent.specs.Descent.{Descends, IsLine, Order, Parent, descends_to};
ghost use Rattle.descent.specs.Rows.{line_of};

use super::Line;

impl Line {
    // How many rows the line has.
    pub fn rows(&self) -> u8
        ensures count { result ≡ length (line_of self.now) }
        ensures line { IsLine (line_of self.now) }
    {
        self.rows
    }

    // The parent of a row; none for row 0 and for a row that is not there.
    #[tactic(auto, using(crate::proofs::Rows::rows_are, crate::proofs::Rows::parent_there))]
    pub fn parent(&self, row: u8) -> Option<u8>
        ensures { MatchOption result ((p : ℕ) → Parent (line_of self.now) row p → ⊥) (Parent (line_of self.now) row) }
    {
        if row == 0 || row >= self.rows {
            return None;
        }
        Some(self.parents[row as usize])
    }

    // Whether `row` descends to `to`; rows that are not there do not.
    pub fn descends(&self, row: u8, to: u8) -> bool
        ensures relation { Decides result (Descends (line_of self.now) row to) }
        ensures same { result ≡ descends_to (line_of self.now) row to }
        ensures order { Order (line_of self.now) }
    {
        if row >= self.rows {
            return false;
        }
        let mut at = row;
        while at > to {
            at = self.parents[at as usize];
        }
        at == to
    }
}
