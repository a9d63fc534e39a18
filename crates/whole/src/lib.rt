// Is it whole? Document 01's 'A whole book' decided exactly, on any slices, in one pass over the records, the prices and the places of the search.
// No marks: a chain that ends has no repeats, queues of different prices share nothing, a free record has quantity 0, and the lengths add up. The search
// finds only resting orders, each at a place of its own, exactly where as many of them are found as places are taken.
// Crate ranks looks at the queues and the sides, crate table at the search.
#![tactic(auto)]

ghost use Rattle.std.specs.Prelude.{◌≡◌, ◌*◌, ◌≤◌};
ghost use Rattle.search.specs.Seek.{Decides};
ghost use Rattle.ledger.specs.Stock.{stock_in};
ghost use Rattle.whole.specs.Whole.{WholeStock, Known, Lengths, Limits, size_of};
ghost use Rattle.whole.specs.Spare.{idles};

use arena::ROW;
use ledger::{BookView, OrderBook};
use models::Refusal;
use ranks::{is_parted, side_total};
use records::{NEXT, QUANTITY, WIDTH, load_before};
use search::Ring;
use table::taken;

// The size of a hall: how many orders may rest, and how many prices a side may have.
#[derive(Clone, Copy)]
pub struct Size {
    pub orders: usize,
    pub prices: usize,
}

// How many places of the search an order has.
pub const PLACES_AN_ORDER: usize = 2;

// Whether `len` numbers are exactly `rows` rows of `width`.
fn fills(len: usize, rows: usize, width: usize) -> bool
    requires { 1 ≤ width }
    ensures { Decides result (len ≡ rows * width) }
{
    rows.checked_mul(width) == Some(len)
}

// Whether storage has the right lengths.
pub fn is_sized(size: Size, view: BookView<'_>) -> bool
    ensures { Decides result (Lengths (size_of size)
        view.entry.records.now view.entry.bids.now view.entry.asks.now view.entry.search.now) }
{
    0 < size.orders
        && fills(view.records.len(), size.orders, WIDTH)
        && fills(view.bids.len(), size.prices, ROW)
        && fills(view.asks.len(), size.prices, ROW)
        && fills(view.search.len(), size.orders, PLACES_AN_ORDER)
}

// Whether counts are within limits.
fn is_limited(size: Size, book: OrderBook) -> bool
    ensures { Decides result (Limits (size_of size) book) }
{
    book.resting <= size.orders && book.bids <= size.prices && book.asks <= size.prices
}

// Whether the chain from `free` has `count` records, each with nothing. Places that were never used follow each other downwards: there the next one is
// looked at without waiting for the record to name it.
// It stays a function of its own in what is compiled: within `is_whole` its counter would go through memory, which took half as long again.
#[inline(never)]
fn is_spare(records: &[u64], free: u64, count: usize) -> bool
    ensures { result ≡ idles records.now count free }
{
    let most = records.len() / WIDTH;
    if most < free as usize {
        return false;
    }
    let mut c = free;
    let mut end = free as usize * WIDTH;
    for _ in 0..count {
        if c == 0 || load_before(records, QUANTITY, end) != 0 {
            return false;
        }
        let next = load_before(records, NEXT, end);
        c -= 1;
        end -= WIDTH;
        if next != c {
            if most < next as usize {
                return false;
            }
            c = next;
            end = next as usize * WIDTH;
        }
    }
    c == 0
}

// Whether a stored book is whole, on any slices.
pub fn is_whole(size: Size, view: BookView<'_>) -> bool
    ensures { Decides result (WholeStock (size_of size) (stock_in view.entry)) }
{
    let BookView {
        book,
        records,
        bids,
        asks,
        search,
    } = view;
    if !is_sized(size, view) || !is_limited(size, book) {
        return false;
    }
    let resting = book.resting;
    let ring = Ring::new(search.len());
    let Some(b) = side_total(records, search, ring, bids, book.bids, resting) else {
        return false;
    };
    let left = resting - b.orders;
    let Some(a) = side_total(records, search, ring, asks, book.asks, left) else {
        return false;
    };
    a.orders == left
        && is_parted(bids, asks, book.bids, book.asks)
        && is_spare(records, book.free, size.orders - resting)
        && taken(search) == b.found + a.found
}

// That a stored book is whole; else the refusal of one that isn't.
pub fn known(size: Size, view: BookView<'_>) -> Result<(), Refusal>
    ensures { Known (size_of size) (stock_in view.entry) result }
{
    if is_whole(size, view) {
        Ok(())
    } else {
        Err(Refusal::NotWhole)
    }
}
