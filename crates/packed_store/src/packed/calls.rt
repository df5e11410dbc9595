ghost use Rattle.std.specs.Prelude.{◌≡◌, ◌<◌, [], take, Err, IfOk, MatchResult};
ghost use Rattle.store.specs.Model.{field_at};
ghost use Rattle.packed_store.specs.Packed.{Slot, packed, packed_model};
ghost use Rattle.packed_store.specs.PackedSpans.{packed_lawful};

use super::{PackedStore, SLOT_LIMIT, Span};
use store::cell::{Absent, Head, MakeRefusal};
use store::{CELL_LIMIT, FIELD_LIMIT, Store};
use values::value::Value;

impl PackedStore {
    // The spans of the cells.
    fn taken(&self) -> &[Span]
        ensures { result.now ≡ take self.now.used self.now.spans }
    {
        &self.spans[..self.used]
    }

    // Where a field's slot lies.
    #[tactic(auto, using(crate::proofs::Spans::answers))]
    fn slot(&self, cell: u8, field: u8) -> Result<usize, Absent>
        ensures place { MatchResult result (Slot self.now cell field) (λ e. field_at (packed_model self.now) cell field ≡ Err e) }
        ensures within { IfOk result (λ slot. slot < self.now.filled) }
    {
        let span = self.taken().get(cell as usize).ok_or(Absent::Cell)?;
        if field >= span.count {
            return Err(Absent::Field);
        }
        Ok(span.start + field as usize)
    }
}

#[tactic(auto, using(crate::proofs::Spans::answers))]
impl Store for PackedStore {
    ghost model = { packed_model };

    ghost lawful = { packed_lawful };

    fn clear(&mut self) {
        for slot in 0..self.filled {
            self.slots[slot] = Value::Null;
        }
        self.used = 0;
        self.filled = 0;
    }

    fn make(&mut self, head: Head, fields: u8) -> Result<u8, MakeRefusal> {
        let cell = self.next_cell(fields)?;
        self.spans[self.used] = Span {
            head,
            start: self.filled,
            count: fields,
        };
        self.used += 1;
        self.filled += fields as usize;
        Ok(cell)
    }

    fn put(&mut self, cell: u8, field: u8, value: Value) -> Result<(), Absent> {
        let slot = self.slot(cell, field)?;
        self.slots[slot] = value;
        Ok(())
    }

    fn head(&self, cell: u8) -> Option<Head> {
        self.taken().get(cell as usize).map(|span| span.head)
    }

    fn fields(&self, cell: u8) -> Option<u8> {
        self.taken().get(cell as usize).map(|span| span.count)
    }

    fn value(&self, cell: u8, field: u8) -> Result<Value, Absent> {
        let at = self.slot(cell, field)?;
        Ok(self.slots[at])
    }

    fn cells(&self) -> u8 {
        self.used as u8
    }

    fn slots(&self) -> u16 {
        self.filled as u16
    }

    fn cell_limit(&self) -> u8 {
        CELL_LIMIT as u8
    }

    fn slot_limit(&self) -> u16 {
        SLOT_LIMIT as u16
    }

    fn charge(&self, fields: u8) -> u8 {
        fields.min(FIELD_LIMIT as u8)
    }
}

impl PackedStore {
    // A store without cells.
    pub fn new() -> PackedStore
        ensures { packed_model result ≡ packed [] }
    {
        let unused = Span {
            head: Head::Object { class: 0 },
            start: 0,
            count: 0,
        };
        PackedStore {
            spans: [unused; CELL_LIMIT],
            used: 0,
            slots: [Value::Null; SLOT_LIMIT],
            filled: 0,
        }
    }
}
