use std::alloc::{AllocError, Global};
use store::cell::{Absent, Head, MakeRefusal};
use values::value::Value;

// The most fields of a cell and the most cells, said here apart from the stores.
pub(crate) const FIELD_LIMIT: u8 = 8;

pub(crate) const CELL_LIMIT: u8 = 128;

// The slots charged for a cell: as for one of 8 fields, or one for each field.
#[derive(Clone, Copy)]
pub enum Charging {
    Even,
    Packed,
}

#[derive(Drop)]
pub struct PlainCell {
    pub head: Head,
    pub fields: Vec<Value>,
}

impl PlainCell {
    fn count(&self) -> u8 {
        u8::try_from(self.fields.len()).unwrap_or(255)
    }
}

// A store as a list of cells on the heap.
#[derive(Drop)]
pub struct Plain {
    heap: Global,
    cells: Vec<PlainCell>,
    slot_limit: u16,
    charging: Charging,
}

impl Plain {
    pub(crate) fn new(heap: Global, slot_limit: u16, charging: Charging) -> Plain {
        Plain {
            heap,
            cells: Vec::new(heap),
            slot_limit,
            charging,
        }
    }

    pub(crate) fn clear(&mut self) {
        self.cells.clear();
    }

    pub(crate) fn charge(&self, fields: u8) -> u8 {
        match self.charging {
            Charging::Even => FIELD_LIMIT,
            Charging::Packed => fields.min(FIELD_LIMIT),
        }
    }

    pub(crate) fn cells(&self) -> usize {
        self.cells.len()
    }

    pub(crate) fn slot_limit(&self) -> u16 {
        self.slot_limit
    }

    pub(crate) fn slots(&self) -> u16 {
        self.cells.iter().fold(0u16, |sum, cell| {
            sum.wrapping_add(u16::from(self.charge(cell.count())))
        })
    }

    pub(crate) fn make(
        &mut self,
        head: Head,
        fields: u8,
    ) -> Result<Result<u8, MakeRefusal>, AllocError> {
        let cell = self.cells.len();
        if fields > FIELD_LIMIT {
            return Ok(Err(MakeRefusal::Fields));
        }
        if cell >= usize::from(CELL_LIMIT) {
            return Ok(Err(MakeRefusal::Cells));
        }
        if self.slots().wrapping_add(u16::from(self.charge(fields))) > self.slot_limit {
            return Ok(Err(MakeRefusal::Slots));
        }
        let fields = vec![in self.heap; Value::Null; fields as usize]?;
        self.cells.push(PlainCell { head, fields })?;
        Ok(Ok(cell as u8))
    }

    pub(crate) fn put(&mut self, cell: u8, field: u8, value: Value) -> Result<(), Absent> {
        let cell = self.cells.get_mut(cell as usize).ok_or(Absent::Cell)?;
        let held = cell.fields.get_mut(field as usize).ok_or(Absent::Field)?;
        *held = value;
        Ok(())
    }

    pub(crate) fn head(&self, cell: u8) -> Option<Head> {
        self.cells.get(cell as usize).map(|cell| cell.head)
    }

    pub(crate) fn fields(&self, cell: u8) -> Option<u8> {
        self.cells.get(cell as usize).map(PlainCell::count)
    }

    pub(crate) fn value(&self, cell: u8, field: u8) -> Result<Value, Absent> {
        let cell = self.cells.get(cell as usize).ok_or(Absent::Cell)?;
        cell.fields
            .get(field as usize)
            .copied()
            .ok_or(Absent::Field)
    }
}
