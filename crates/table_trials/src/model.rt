// A pair table as a plain list of rows.
use pairs::row::{Link, PutRefusal, Row};
use std::alloc::{AllocError, Global};

// Whether the row is that of the link, field by field: what is tried is not asked.
fn joined(row: &Row, link: Link) -> bool {
    row.relationship == link.relationship && row.from == link.from && row.to == link.to
}

#[derive(Drop)]
pub struct Model {
    rows: Vec<Row>,
    limit: usize,
}

impl Model {
    pub(crate) fn new(heap: Global, limit: usize) -> Model {
        Model {
            rows: Vec::new(heap),
            limit,
        }
    }

    pub(crate) fn clear(&mut self) {
        self.rows.clear();
    }

    pub(crate) fn count(&self) -> usize {
        self.rows.len()
    }

    pub(crate) fn find(&self, link: Link) -> Option<u8> {
        self.rows
            .iter()
            .find(|row| joined(row, link))
            .map(|row| row.instance)
    }

    // What a table should answer to a put.
    fn judged(&self, row: Row) -> Result<(), PutRefusal> {
        if row.relationship > 31 {
            return Err(PutRefusal::BadRelationship);
        }
        if row.from > 127 || row.to > 127 || row.instance > 127 {
            return Err(PutRefusal::BadCell);
        }
        let link = Link {
            relationship: row.relationship,
            from: row.from,
            to: row.to,
        };
        if let Some(instance) = self.find(link) {
            return Err(PutRefusal::Present(instance));
        }
        if self.rows.len() >= self.limit {
            return Err(PutRefusal::Full);
        }
        Ok(())
    }

    // What the table should answer; the row is added where that is good.
    pub(crate) fn put(&mut self, row: Row) -> Result<Result<(), PutRefusal>, AllocError> {
        let said = self.judged(row);
        if said.is_ok() {
            self.rows.push(row)?;
        }
        Ok(said)
    }

    pub(crate) fn drop_row(&mut self, link: Link) -> Option<u8> {
        let place = self.rows.iter().position(|row| joined(row, link))?;
        Some(self.rows.remove(place).instance)
    }

    // Whether a row of the relationship from the cell has the instance.
    pub(crate) fn has_instance(&self, relationship: u8, from: u8, instance: u8) -> bool {
        self.rows.iter().any(|row| row.relationship == relationship
            && row.from == from
            && row.instance == instance)
    }
}
