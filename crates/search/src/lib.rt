// The search by id: a ring of lent places, walked on from an id's home. It keeps codes of records and reads their ids off the records.
// A table of our own: C lends its places, there is no heap, and document 01 says how they are counted.
#![tactic(auto)]

ghost use Rattle.std.specs.Prelude.{◌≡◌, true, ◌+◌, ◌<◌, length, replicate};
ghost use Rattle.search.specs.Seek.{inside, home, Masks, next, dist, stops, sought, entering, removing, forgetting, Pointing};
ghost use Rattle.records.specs.Rows.{RecordAt};

use records::{ID, WIDTH, load};

// Where a search ended, the entry it found there (0 for none), and how many places it looked at.
// An entry is a number as it is stored, 0 for none: the C interface lends the places of the search (felavuti_fresh and every call after it).
#[derive(Clone, Copy)]
pub struct Probe {
    pub place: usize,
    pub entry: u64,
    pub count: usize,
}

// A mask for the homes on a ring of `m` places: m - 1 where m is a power of two, else none.
#[tactic(auto, using(crate::proofs::Masks::masks_known))]
fn mask_of(m: usize) -> Option<u64>
    requires { 0 < m }
    ensures { Masks m result }
{
    if m.is_power_of_two() {
        Some(m as u64 - 1)
    } else {
        None
    }
}

// The places as a ring, with a mask for the homes on it if there is one: then no home takes a division.
#[derive(Clone, Copy)]
pub struct Ring {
    pub places: usize,
    pub mask: Option<u64>,
    ghost some: { 0 < places },
    ghost masked: { Masks places mask },
}

impl Ring {
    pub fn new(places: usize) -> Ring
        requires { 0 < places }
        ensures places { result.places ≡ places }
        ensures masked { Masks places result.mask }
    {
        Ring {
            places,
            mask: mask_of(places),
        }
    }

    // An id's home.
    pub fn home(self, id: u64) -> usize
        ensures { result ≡ home self.places id }
    {
        match self.mask {
            Some(mask) => (id & mask) as usize,
            None => (id % self.places as u64) as usize,
        }
    }

    // The place after `p`.
    #[tactic(auto, using(crate::proofs::Distance::next_is))]
    fn after(self, p: usize) -> usize
        requires { p < self.places }
        ensures { result ≡ next self.places p }
    {
        if p + 1 == self.places { 0 } else { p + 1 }
    }

    // How many steps lead from `a` to `b`.
    #[tactic(auto, using(crate::proofs::Distance::dist_is))]
    fn steps(self, a: usize, b: usize) -> usize
        requires { (a < self.places) × (b < self.places) }
        ensures { result ≡ dist self.places a b }
    {
        if a <= b { b - a } else { self.places - (a - b) }
    }
}

// Whether entry `e` stands for a record.
#[tactic(auto, unfolding(crate::specs::Seek::inside))]
fn points(records: &[u64], e: u64) -> bool
    requires { e ≡ 0 → ⊥ }
    ensures { result ≡ inside records.now e }
{
    let r = (e - 1) as usize;
    r < records.len() / WIDTH
}

// Whether a search for `id` ends at entry `e`.
#[tactic(auto, using(crate::proofs::Walks::stops_free, crate::proofs::Walks::stops_in, crate::proofs::Walks::stops_out, crate::proofs::Entries::inside_row))]
fn ends_at(records: &[u64], e: u64, id: u64) -> bool
    ensures { result ≡ stops records.now id e }
{
    e == 0 || (points(records, e) && load(records, ID, e) == id)
}

// The search for `id`: it ends on any slices.
#[tactic(auto, using(crate::proofs::Distance::next_lt, crate::proofs::Walks::turn_on, crate::proofs::Walks::turn_stop, crate::proofs::Walks::walk_none))]
pub fn find(table: &[u64], records: &[u64], id: u64) -> Probe
    requires { 0 < length table.now }
    ensures { (result.place ≡ (sought table.now records.now id).place)
        × (result.entry ≡ (sought table.now records.now id).entry)
        × (result.count ≡ (sought table.now records.now id).count) }
{
    let ring = Ring::new(table.len());
    let mut p = ring.home(id);
    for n in 0..table.len() {
        let e = table[p];
        if ends_at(records, e, id) {
            return Probe {
                place: p,
                entry: e,
                count: n + 1,
            };
        }
        p = ring.after(p);
    }
    Probe {
        place: p,
        entry: 0,
        count: table.len(),
    }
}

// Enters the record of code `e` under `id`. An entry that has the id is overwritten.
#[tactic(auto, using(crate::proofs::Entries::sought_lt), unfolding(crate::specs::Seek::entering))]
pub fn insert(table: &mut [u64], records: &[u64], id: u64, e: u64)
    requires { 0 < length table.old }
    ensures { table.new ≡ entering table.old records.now id e }
{
    let end = find(table, records, id);
    table[end.place] = e;
}

// Takes the entry at `place` out, and moves up the entries behind it that would not be found any more.
#[tactic(auto, using(crate::proofs::Distance::home_lt, crate::proofs::Distance::next_lt, crate::proofs::Entries::inside_row))]
pub fn remove(table: &mut [u64], records: &[u64], place: usize)
    requires pointing { Pointing table.old records.now }
    requires place_in_bounds { place < length table.old }
    ensures { table.new ≡ removing table.old records.now place }
{
    let ring = Ring::new(table.len());
    table[place] = 0;
    let mut hole = place;
    let mut j = ring.after(place);
    for _ in 0..table.len() {
        let e = table[j];
        if e == 0 {
            return;
        }
        let h = ring.home(load(records, ID, e));
        let before = ring.steps(h, hole);
        let far = ring.steps(h, j);
        if before < far {
            table[hole] = e;
            table[j] = 0;
            hole = j;
        }
        j = ring.after(j);
    }
}

// Takes out the entry of the record of code `e`, where a search finds that record. A newer record with its id stays found.
#[tactic(auto, using(crate::proofs::Entries::sought_lt, crate::proofs::Forgetting::forget_one, crate::proofs::Forgetting::forget_none))]
pub fn forget(table: &mut [u64], records: &[u64], e: u64)
    requires { Pointing table.old records.now × (0 < length table.old) × RecordAt records.now e }
    ensures { table.new ≡ forgetting table.old records.now e }
{
    let end = find(table, records, load(records, ID, e));
    if end.entry == e {
        remove(table, records, end.place);
    }
}

// Every place of the table freed.
pub fn clear(table: &mut [u64])
    ensures { table.new ≡ replicate (length table.old) 0 }
{
    table.fill(0);
}
