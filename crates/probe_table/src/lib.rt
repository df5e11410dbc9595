// A pair table that reaches a row by probing from a place that its three numbers give.
#![tactic(auto)]

ghost use Rattle.std.specs.Prelude.{◌≡◌, ℕ, ◌+◌, ◌<◌, ◌≤◌, Bool, true, List, [], length, Some, None};
ghost use Rattle.pairs.specs.Gathering.{Tells};
ghost use Rattle.pairs.specs.Rows.{apart, all_small, in_force, Small};
ghost use Rattle.pairs.specs.Changes.{Added};
ghost use Rattle.probe_table.specs.declared.place.Place.{Place};
ghost use Rattle.probe_table.specs.Probing.{held, used, start, along, Reached, Located, First, Open, Same};
ghost use Rattle.std.proofs.Common.{rules};

mod place;

use crate::place::Place;
use cells::CellSet;
use pairs::gathering::gathered;
use pairs::row::{Link, PutRefusal, Row, judged};
use pairs::table::PairTable;

// How many rows there may be.
const LIMIT: usize = 256;

// How many places there are.
const PLACES: usize = 512;

// How many rows are put in before the places are laid out anew, without those of dropped rows.
const WORN: usize = 320;

// Up to 256 rows in 512 places. A dropped row's place is marked, so that rows further on are still reached.
// A place is reached by its number alone, so the places are an array: `count` and `spent` are no lengths of it.
// At most 320 places are not free at any time, so a search soon meets a free one, however many rows were put in and dropped.
#[derive(Drop)]
pub struct ProbeTable {
    places: [Place; PLACES],
    count: usize,
    spent: usize,
    ghost whole: { length places ≡ 512 },
    ghost counted: { count ≡ length (held places) },
    ghost few: { count ≤ 256 },
    ghost fresh: { spent ≤ 320 },
    ghost roomy: { used places ≤ spent },
    ghost differ: { apart (held places) ≡ true },
    ghost little: { all_small (held places) ≡ true },
    ghost reached: { Reached places },
}

// The place that is k further on from where the search for a link starts.
fn probe(link: Link, k: usize) -> usize
    requires { k < 512 }
    ensures place { result ≡ along link.relationship link.from link.to k }
    ensures below { result < 512 }
{
    let start = (link.relationship as usize * 29 + link.from as usize * 67 + link.to as usize * 131)
        % PLACES;
    (start + k) % PLACES
}

impl ProbeTable {
    // A table without rows.
    pub fn new() -> ProbeTable
        ensures rows { held result.places ≡ [] }
        ensures unspent { result.spent ≡ 0 }
    {
        ProbeTable {
            places: [Place::Free; PLACES],
            count: 0,
            spent: 0,
        }
    }

    // The first place on the way of a link at which the search stops, with what it is.
    fn first<F: Fn(&Place) -> bool>(&self, link: Link, stops: F) -> Option<(usize, Place)>
        requires { F.IsAlwaysCallable stops }
        ensures { (test : Place → Bool) → Tells F.Fn stops test → First test self.now.places link.relationship link.from link.to result }
    {
        (0..PLACES)
            .map(|k| {
                let place = probe(link, k);
                (place, self.places[place])
            })
            .find(|(_, here)| stops(here))
    }

    // The place and the instance of the row of a link.
    fn position(&self, link: Link) -> Option<(usize, u8)>
        ensures { Located self.now.places link.relationship link.from link.to result }
    {
        let (place, here) = self.first(link, |here| here.ends(link))?;
        let row = here.row()?;
        Some((place, row.instance))
    }

    // The first place on the way of a link that holds no row.
    fn room(&self, link: Link) -> usize
        requires { self.now.count < 256 }
        ensures { Open self.now.places link.relationship link.from link.to result }
    {
        let (place, _) = self.first(link, |here| !here.is_held()).unwrap();
        place
    }

    // Puts in a row that is good, is not there and has room.
    fn insert(&mut self, row: Row)
        requires fit { Small row }
        requires absent { in_force (held self.old.places) row.relationship row.from row.to ≡ None }
        requires room { self.old.count < 256 }
        requires unworn { self.old.spent < 320 }
        ensures added { Added (held self.old.places) row (held self.new.places) }
        ensures spends { self.new.spent ≡ self.old.spent + 1 }
    {
        let place = self.room(row.link());
        self.places[place] = Place::Held(row);
        self.count += 1;
        self.spent += 1;
    }

    // The same rows in fresh places.
    fn relaid(&self) -> ProbeTable
        ensures same { Same (held self.now.places) (held result.places) }
        ensures unspent { result.spent ≡ result.count }
    {
        let mut fresh = ProbeTable::new();
        for place in &self.places {
            if let Some(row) = place.row() {
                fresh.insert(row);
            }
        }
        fresh
    }

    // Lays the rows out anew once many rows have been put in.
    fn freshen(&mut self)
        requires { self.old.count < 256 }
        ensures same { Same (held self.old.places) (held self.new.places) }
        ensures unworn { self.new.spent < 320 }
    {
        if self.spent >= WORN {
            *self = self.relaid();
        }
    }
}

impl PairTable for ProbeTable {
    ghost rows = { λ t. held t.places };

    ghost limit = { λ t. 256 };

    ghost differ = { Prim.search rules };

    ghost little = { Prim.search rules };

    ghost within = { Prim.search rules };

    ghost bounds = { Prim.search rules };

    fn clear(&mut self) {
        *self = ProbeTable::new();
    }

    fn put(&mut self, row: Row) -> Result<(), PutRefusal> {
        judged(row, self.find(row.link()), self.count >= LIMIT)?;
        self.freshen();
        self.insert(row);
        Ok(())
    }

    fn drop_row(&mut self, link: Link) -> Option<u8> {
        let (place, instance) = self.position(link)?;
        self.places[place] = Place::Dropped;
        self.count -= 1;
        Some(instance)
    }

    fn find(&self, link: Link) -> Option<u8> {
        self.position(link).map(|(_, instance)| instance)
    }

    fn to_cells(&self, relationship: u8, from: u8) -> CellSet {
        gathered(&self.places, |place| {
            let row = place.row()?;
            row.leaves(relationship, from).then_some(row.to)
        })
    }

    fn instances(&self, relationship: u8, from: u8) -> CellSet {
        gathered(&self.places, |place| {
            let row = place.row()?;
            row.leaves(relationship, from).then_some(row.instance)
        })
    }

    fn count(&self) -> u16 {
        self.count as u16
    }

    fn limit(&self) -> u16 {
        LIMIT as u16
    }
}
