// A row of a pair table, and why a row is refused.
ghost use Rattle.std.specs.Prelude.{◌≡◌, ℕ, ◌<◌, ◌≤◌, Bool, true, false, Some, None};
ghost use Rattle.pairs.specs.Rows.{alike, leads, link, Judged};

// Which relationship leads from which cell to which.
#[derive(Clone, Copy, PartialEq, Eq, Debug)]
pub struct Link {
    pub relationship: u8,
    pub from: u8,
    pub to: u8,
}

// Cell `from` stands in the relationship to cell `to`, by the instance.
#[derive(Clone, Copy, PartialEq, Eq, Debug, Default)]
pub struct Row {
    pub relationship: u8,
    pub from: u8,
    pub to: u8,
    pub instance: u8,
}

// Why a row was not put in.
#[derive(Clone, Copy, PartialEq, Eq, Debug)]
pub enum PutRefusal {
    // the relationship is above 31
    BadRelationship,
    // a cell or the instance is above 127
    BadCell,
    // the relationship and both cells are those of a row with this instance
    Present(u8),
    // the table holds as many rows as its limit
    Full,
}

impl Row {
    // The relationship and the cells that the row joins by it.
    pub fn link(self) -> Link
        ensures { result ≡ link self }
    {
        Link {
            relationship: self.relationship,
            from: self.from,
            to: self.to,
        }
    }

    // Whether this is the row of that link. The to cell is compared first, since it tells most rows apart: a list is searched faster so.
    pub fn joins(self, link: Link) -> bool
        ensures { result ≡ alike self.relationship self.from self.to link.relationship link.from link.to }
    {
        self.to == link.to && self.leaves(link.relationship, link.from)
    }

    // Whether this is a row of that relationship from that cell.
    pub fn leaves(self, relationship: u8, from: u8) -> bool
        ensures { result ≡ leads self relationship from }
    {
        self.relationship == relationship && self.from == from
    }
}

// Whether a table may put the row in: `present` is the instance that its relationship and cells have already.
pub fn judged(row: Row, present: Option<u8>, full: bool) -> Result<(), PutRefusal>
    ensures { Judged row present full result }
{
    if row.relationship > 31 {
        return Err(PutRefusal::BadRelationship);
    }
    if row.from > 127 || row.to > 127 || row.instance > 127 {
        return Err(PutRefusal::BadCell);
    }
    if let Some(instance) = present {
        return Err(PutRefusal::Present(instance));
    }
    if full {
        return Err(PutRefusal::Full);
    }
    Ok(())
}
