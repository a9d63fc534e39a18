// The search of a stored book by counting: which records it finds, and how many of its places are taken. On any slices. That a ring is this search's stays a
// clause, here and in ranks: a struct of both would be lent anew for each record.
#![tactic(auto)]

ghost use Rattle.std.specs.Prelude.{◌≡◌, ◌<◌, eqb, length};
ghost use Rattle.records.specs.Rows.{RecordAt, field};
ghost use Rattle.search.specs.Seek.{entry_for};
ghost use Rattle.table.specs.Entries.{taken_in};

use records::{ID, load};
use search::{Ring, find};

// Whether the search finds the record of code `c` under its own id. Most entries stand at home: that place is looked at first.
#[tactic(auto, using(crate::proofs::Counts::home_found))]
pub fn is_found(search: &[u64], records: &[u64], ring: Ring, c: u64) -> bool
    requires { (ring.places ≡ length search.now) × RecordAt records.now c }
    ensures { result ≡ eqb (entry_for search.now records.now (field records.now 0 c)) c }
{
    let id = load(records, ID, c);
    search[ring.home(id)] == c || find(search, records, id).entry == c
}

// How many places of the search are taken: all but the free ones, which a processor counts with fewer steps.
// Stays a `for`: `iter().filter(..).count()` took 3.5 times as long on 2,048 places (1,230 nanoseconds against 350).
pub fn taken(search: &[u64]) -> usize
    ensures { result ≡ taken_in search.now }
{
    let mut n = search.len();
    for e in search {
        if *e == 0 {
            n -= 1;
        }
    }
    n
}
