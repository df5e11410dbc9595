ghost use Rattle.std.specs.Prelude.{◌≡◌, Err, MatchResult};
ghost use Rattle.store.specs.Frames.{OneCell, OneField, RoomLasts, has_room};
ghost use Rattle.store.specs.Model.{field_at, make_answer};

use crate::Store;
use crate::cell::{Absent, Head, MakeRefusal};
use values::value::Value;

// Writes a field and reads it back.
pub fn exchange<S: Store>(store: &mut S, cell: u8, field: u8, value: Value) -> Result<Value, Absent>
    ensures { MatchResult result (λ v. (v ≡ value) × OneField (S.Store.model store.old) (S.Store.model store.new) cell field value) (λ e. (field_at (S.Store.model store.old) cell field ≡ Err e) × (S.Store.model store.new ≡ S.Store.model store.old)) }
{
    store.put(cell, field, value)?;
    store.value(cell, field)
}

// Makes an object of that class with that many fields.
#[tactic(auto, using(crate::proofs::Frames::made_cell))]
pub fn make_object<S: Store>(store: &mut S, class: u8, fields: u8) -> Result<u8, MakeRefusal>
    ensures { MatchResult result (λ c. OneCell (S.Store.model store.old) (S.Store.model store.new) (Head.Object class) fields c) (λ e. (make_answer (S.Store.model store.old) fields ≡ Err e) × (S.Store.model store.new ≡ S.Store.model store.old)) }
{
    store.make(Head::Object { class }, fields)
}

// Whether there is room for that many cells more that are charged that many slots together.
#[tactic(auto, using(crate::proofs::Room::room_lasts), unfolding(crate::specs::Frames::has_room))]
pub fn has_room<S: Store>(store: &S, cells: u8, slots: u16) -> bool
    ensures test { result ≡ has_room (S.Store.model store.now) cells slots }
    ensures lasts { RoomLasts (S.Store.model store.now) }
{
    let all_cells = u16::from(store.cells()) + u16::from(cells);
    let all_slots = u32::from(store.slots()) + u32::from(slots);
    all_cells <= u16::from(store.cell_limit()) && all_slots <= u32::from(store.slot_limit())
}
