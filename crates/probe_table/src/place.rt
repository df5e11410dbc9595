// A place of the probe table.
ghost use Rattle.std.specs.Prelude.{◌≡◌};
ghost use Rattle.probe_table.specs.Probing.{ends, is_held, row_in};

use pairs::row::{Link, Row};

#[derive(Clone, Copy)]
pub enum Place {
    // held no row since the rows were last laid out
    Free,
    // held a row that was dropped
    Dropped,
    Held(Row),
}

impl Place {
    // The row that is held.
    pub(crate) fn row(self) -> Option<Row>
        ensures { result ≡ row_in self }
    {
        match self {
            Place::Held(row) => Some(row),
            Place::Free | Place::Dropped => None,
        }
    }

    // Whether a row is held.
    pub(crate) fn is_held(self) -> bool
        ensures { result ≡ is_held self }
    {
        self.row().is_some()
    }

    // Whether a search for the row of a link ends here: the place holds that row, or is free.
    pub(crate) fn ends(self, link: Link) -> bool
        ensures { result ≡ ends link.relationship link.from link.to self }
    {
        match self {
            Place::Free => true,
            Place::Dropped => false,
            Place::Held(row) => row.joins(link),
        }
    }
}
