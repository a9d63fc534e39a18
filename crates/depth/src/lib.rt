// What may be asked of a stored book: the best price of a side, its levels, whether a price is new to it, and the order found under an id.
// Nothing is refused here: what the storage must be is in each `requires`, and the public calls see to it.
#![tactic(auto)]

ghost use Rattle.std.specs.Prelude.{◌≡◌, Bool, not, List, ◌++◌, reverse, ℕ, ◌+◌, ◌*◌, ◌<◌, ◌≤◌, length};
ghost use Rattle.side.specs.Orders.{orders_in};
ghost use Rattle.rules.specs.Rules as rule;
ghost use Rattle.rows.specs.Rows.{level_row, written};
ghost use Rattle.sums.specs.Sums.{capped};
ghost use Rattle.side.specs.Prices.{Rising};
ghost use Rattle.models.specs.Readings.{side_of};
ghost use Rattle.depth.specs.Sides.{Standing, ascending, Fitting, queue_in, QueueIn, quantities};
ghost use Rattle.depth.specs.Answers.{quote_of, Looks};

use arena::{HEAD, ROW};
use ledger::BookView;
use models::{BookLevel, Id, Price, Quantity, Side};
use records::{NEXT, PRICE, QUANTITY, load};
use rows::Row;
use side::visit;

// An order that rests: its price and quantity.
#[derive(Clone, Copy, PartialEq, Eq)]
pub struct Resting {
    pub price: Price,
    pub qty: Quantity,
}

// The order found under an id, if there is one, and how many places the search looked at.
#[derive(Clone, Copy)]
pub struct Lookup {
    pub found: Option<Resting>,
    pub count: usize,
}

// The best price of a side, if it has one: of asks that of the first row, of bids that of the last row in use.
pub fn best(levels: &[u64], n: usize, side: Side) -> Option<Price>
    requires { n * 3 ≤ length levels.now }
    ensures { (rs : List ℕ) (fnd : ℕ → Bool) → Standing rs levels.now n
        → quote_of result ≡ rule.best (orders_in (side_of side) rs fnd levels.now n) }
{
    if n == 0 {
        return None;
    }
    Some(Price(levels[visit(side, n, n) * ROW]))
}

// The quantities of a queue together, if they don't exceed 2^64 - 1. The walk stays a `while`: it goes on by the links and counts no index.
fn total(records: &[u64], head: u64) -> Option<u64>
    requires { QueueIn records.now head }
    ensures { result ≡ capped (quantities records.now (queue_in records.now head)) }
{
    let mut sum = 0u64;
    let mut c = head;
    while c != 0 {
        sum = sum.checked_add(load(records, QUANTITY, c))?;
        c = load(records, NEXT, c);
    }
    Some(sum)
}

// Whether no level's total exceeds 2^64 - 1.
pub fn totals_fit(records: &[u64], levels: &[u64], n: usize) -> bool
    requires { Standing records.now levels.now n }
    ensures { (sd : rule.Side) (fnd : ℕ → Bool)
        → result ≡ not (rule.any_above rule.most (rule.levels (orders_in sd records.now fnd levels.now n))) }
{
    for k in 0..n {
        if total(records, levels[k * ROW + HEAD]).is_none() {
            return false;
        }
    }
    true
}

// Every occupied price with its total, ascending, from the start of `out` on.
pub fn put_levels(records: &[u64], levels: &[u64], n: usize, out: &mut [u64])
    requires { Standing records.now levels.now n × Fitting records.now levels.now n × (n * 2 ≤ length out.old) }
    ensures { (sd : rule.Side) (fnd : ℕ → Bool)
        → out.new
        ≡ written level_row out.old 0 (ascending sd (rule.levels (orders_in sd records.now fnd levels.now n))) }
{
    for i in 0..n {
        let at = i * ROW;
        let qty = total(records, levels[at + HEAD]).unwrap();
        let level = BookLevel {
            price: Price(levels[at]),
            qty: Quantity(qty),
        };
        level.put(out, i);
    }
}

// The asks from the start of `out` on, and the bids from the first free place after them; both ascending.
pub fn put_depth(view: BookView<'_>, out: &mut [u64])
    requires { Standing view.records.now view.bids.now view.book.bids
        × Standing view.records.now view.asks.now view.book.asks
        × Fitting view.records.now view.bids.now view.book.bids
        × Fitting view.records.now view.asks.now view.book.asks
        × ((view.book.asks + view.book.bids) * 2 ≤ length out.old) }
    ensures { (fnd : ℕ → Bool) → out.new ≡ written level_row out.old 0
        (rule.levels (orders_in rule.ask view.entry.records.now fnd view.entry.asks.now view.entry.book.asks)
        ++ reverse (rule.levels (orders_in rule.bid view.entry.records.now fnd view.entry.bids.now view.entry.book.bids))) }
{
    let na = view.book.asks;
    put_levels(view.records, view.asks, na, out);
    let past = na * BookLevel::WIDTH;
    put_levels(view.records, view.bids, view.book.bids, &mut out[past..]);
}

// Whether no order of a side has this price.
pub fn is_new_price(levels: &[u64], n: usize, price: Price) -> bool
    requires { Rising levels.now n }
    ensures { (rs : List ℕ) (sd : rule.Side) (fnd : ℕ → Bool) → Standing rs levels.now n
        → result ≡ not (rule.occupied price.0 (orders_in sd rs fnd levels.now n)) }
{
    let k = side::find_row(levels, n, price);
    n <= k || levels[k * ROW] != price.0
}

// The order that the search finds under `id`.
pub fn look(search: &[u64], records: &[u64], id: Id) -> Lookup
    requires { 0 < length search.now }
    ensures { Looks search.now records.now id.0 result }
{
    let w = search::find(search, records, id.0);
    let c = w.entry;
    let count = w.count;
    if c == 0 {
        return Lookup { found: None, count };
    }
    let price = Price(load(records, PRICE, c));
    let qty = Quantity(load(records, QUANTITY, c));
    Lookup {
        found: Some(Resting { price, qty }),
        count,
    }
}
