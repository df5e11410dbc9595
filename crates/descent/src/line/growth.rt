ghost use Rattle.std.specs.Prelude.{◌≡◌, [], ◌∷◌, MatchResult};
ghost use Rattle.descent.specs.Rows.{line_of, Added, NotAdded};

use super::{Line, RowRefusal};

impl Line {
    // A line of the root alone.
    #[tactic(auto, unfolding(crate::specs::Rows::line_of))]
    pub fn new() -> Line
        ensures { line_of result ≡ 0 ∷ [] }
    {
        Line {
            parents: [0; 32],
            rows: 1,
        }
    }

    // Adds a row under `parent`, and answers its number.
    pub fn add(&mut self, parent: u8) -> Result<u8, RowRefusal>
        ensures { MatchResult result (Added (line_of self.old) parent (line_of self.new)) (NotAdded (line_of self.old) parent (line_of self.new)) }
    {
        if parent >= self.rows {
            return Err(RowRefusal::NoParent);
        }
        if self.rows >= 32 {
            return Err(RowRefusal::Full);
        }
        let row = self.rows;
        self.parents[row as usize] = parent;
        self.rows = row + 1;
        Ok(row)
    }
}
