// The queues and the sides of a stored book, on any slices: how many orders they have where they are right, how many of these the search finds, and whether
// bids and asks lie apart. No marks: a queue's walk ends where it has counted as many orders as there may be. Each order's record is read once.
#![tactic(auto)]

ghost use Rattle.std.specs.Prelude.{◌≡◌, ◌*◌, ◌<◌, ◌≤◌, length};
ghost use Rattle.records.specs.Rows.{record_count};
ghost use Rattle.search.specs.Seek.{Decides};
ghost use Rattle.ranks.specs.Ranks.{fit, Rises, Walks, Totals, Parted};

use arena::{HEAD, ROW, TAIL};
use records::{NEXT, PREV, PRICE, QUANTITY, WIDTH, load};
use search::Ring;
use table::is_found;

// How many orders there are, and how many of them the search finds.
#[derive(Clone, Copy)]
pub struct Tally {
    pub orders: usize,
    pub found: usize,
}

// Whether the record of code `c` can stand in a queue of this price behind `p`.
#[tactic(auto, using(crate::proofs::Queues::fit_out, crate::proofs::Queues::fit_none, crate::proofs::Queues::fit_off, crate::proofs::Queues::fit_last))]
fn fits(records: &[u64], price: u64, p: u64, c: u64) -> bool
    requires { 1 ≤ c }
    ensures { result ≡ fit records.now price p c }
{
    c as usize <= records.len() / WIDTH
        && load(records, QUANTITY, c) != 0
        && load(records, PRICE, c) == price
        && load(records, PREV, c) == p
}

// The orders of a queue; none where it is wrong, has no order or has more than `most`.
// The walk stays a `while`: it goes on by the links, and its count is the answer.
fn queue_total(
    records: &[u64],
    search: &[u64],
    ring: Ring,
    price: u64,
    head: u64,
    tail: u64,
    most: usize,
) -> Option<Tally>
    requires { ring.places ≡ length search.now }
    ensures { Walks search.now records.now price head tail most result }
{
    let mut p = 0;
    let mut c = head;
    let mut orders = 0;
    let mut found = 0;
    while c != 0 {
        if orders == most || !fits(records, price, p, c) {
            return None;
        }
        if is_found(search, records, ring, c) {
            found += 1;
        }
        p = c;
        c = load(records, NEXT, c);
        orders += 1;
    }
    if p == tail && orders != 0 {
        Some(Tally { orders, found })
    } else {
        None
    }
}

// Whether row `i`'s price is above the one before.
fn rises(levels: &[u64], i: usize) -> bool
    requires { i * 3 < length levels.now }
    ensures { Decides result (Rises levels.now i) }
{
    i == 0 || levels[(i - 1) * ROW] < levels[i * ROW]
}

// The orders of the first `n` rows of a side; none where they are wrong or have more than `most`.
pub fn side_total(
    records: &[u64],
    search: &[u64],
    ring: Ring,
    levels: &[u64],
    n: usize,
    most: usize,
) -> Option<Tally>
    requires { (n * 3 ≤ length levels.now) × (most ≤ record_count records.now) × (ring.places ≡ length search.now) }
    ensures { Totals search.now records.now levels.now n most result }
{
    let mut orders = 0;
    let mut found = 0;
    for i in 0..n {
        if !rises(levels, i) {
            return None;
        }
        let at = i * ROW;
        let queue = queue_total(
            records,
            search,
            ring,
            levels[at],
            levels[at + HEAD],
            levels[at + TAIL],
            most - orders,
        )?;
        orders += queue.orders;
        found += queue.found;
    }
    Some(Tally { orders, found })
}

// Whether the highest bid is below the lowest ask.
pub fn is_parted(bids: &[u64], asks: &[u64], nb: usize, na: usize) -> bool
    requires { (nb * 3 ≤ length bids.now) × (na * 3 ≤ length asks.now) }
    ensures { Decides result (Parted bids.now asks.now nb na) }
{
    nb == 0 || na == 0 || bids[(nb - 1) * ROW] < asks[0]
}
