ghost use Rattle.std.specs.Prelude.{◌≡◌, ◌≤◌, [], take};
ghost use Rattle.even_store.specs.Even.{even, even_model, placed};
ghost use Rattle.store.specs.Model.{new_cell};
ghost use Rattle.even_store.specs.EvenPlaces.{even_lawful};

use super::{EvenStore, Place};
use store::cell::{Absent, Head, MakeRefusal};
use store::{CELL_LIMIT, FIELD_LIMIT, Store};
use values::value::Value;

// The slots charged for a cell.
const CHARGE: usize = FIELD_LIMIT;

impl Place {
    // A cell of that many null fields.
    fn new(head: Head, fields: u8) -> Place
        requires { fields ≤ 8 }
        ensures { placed result ≡ new_cell head fields }
    {
        Place {
            head,
            count: fields,
            values: [Value::Null; FIELD_LIMIT],
        }
    }

    // The fields that the cell has.
    fn fields(&self) -> &[Value]
        ensures { result.now ≡ take self.now.count self.now.values }
    {
        &self.values[..self.count as usize]
    }
}

#[tactic(auto, using(crate::proofs::Places::answers))]
impl Store for EvenStore {
    ghost model = { even_model };

    ghost lawful = { even_lawful };

    fn clear(&mut self) {
        self.used = 0;
    }

    fn make(&mut self, head: Head, fields: u8) -> Result<u8, MakeRefusal> {
        let cell = self.next_cell(fields)?;
        self.places[self.used] = Place::new(head, fields);
        self.used += 1;
        Ok(cell)
    }

    fn put(&mut self, cell: u8, field: u8, value: Value) -> Result<(), Absent> {
        if cell as usize >= self.used {
            return Err(Absent::Cell);
        }
        if field >= self.places[cell as usize].count {
            return Err(Absent::Field);
        }
        self.places[cell as usize].values[field as usize] = value;
        Ok(())
    }

    fn head(&self, cell: u8) -> Option<Head> {
        self.taken().get(cell as usize).map(|place| place.head)
    }

    fn fields(&self, cell: u8) -> Option<u8> {
        self.taken().get(cell as usize).map(|place| place.count)
    }

    fn value(&self, cell: u8, field: u8) -> Result<Value, Absent> {
        let place = self.taken().get(cell as usize).ok_or(Absent::Cell)?;
        place
            .fields()
            .get(field as usize)
            .copied()
            .ok_or(Absent::Field)
    }

    fn cells(&self) -> u8 {
        self.used as u8
    }

    fn slots(&self) -> u16 {
        (self.used * CHARGE) as u16
    }

    fn cell_limit(&self) -> u8 {
        CELL_LIMIT as u8
    }

    fn slot_limit(&self) -> u16 {
        (CELL_LIMIT * CHARGE) as u16
    }

    fn charge(&self, _fields: u8) -> u8 {
        CHARGE as u8
    }
}

impl EvenStore {
    // A store without cells.
    pub fn new() -> EvenStore
        ensures { even_model result ≡ even [] }
    {
        EvenStore {
            places: [Place::new(Head::Object { class: 0 }, 0); CELL_LIMIT],
            used: 0,
        }
    }

    // The places of the cells.
    fn taken(&self) -> &[Place]
        ensures { result.now ≡ take self.now.used self.now.places }
    {
        &self.places[..self.used]
    }
}
