// One side of a book: ascending prices, each with its queue. The doors here change one side, and hold for whatever the other side is.
#![tactic(auto)]

ghost use Rattle.std.specs.Prelude.{◌≡◌, ◌≢◌, ◌+◌, ◌*◌, ◌-◌, ◌<◌, ◌≤◌, length};
ghost use Rattle.arena.specs.Links.{price_of};
ghost use Rattle.models.specs.Readings.{side_of};
ghost use Rattle.side.specs.Prices.{Opened, Closed, Rising, Bracket, Ready, row_in_turn};
ghost use Rattle.side.specs.Doors.{CanDiscard, Discards, CanRest, Rests};

use arena::{HEAD, ROW, TAIL, append, give_back, take, unlink, write};
use models::{Id, Price, Quantity, Side};
use records::{PRICE, load};

// Of n rows the one whose turn it is when k are left: asks from the lowest price up, bids from the highest down.
pub fn visit(side: Side, n: usize, k: usize) -> usize
    requires { (0 < k) × (k ≤ n) }
    ensures { (result ≡ row_in_turn (side_of side) n k) × (result < n) }
{
    match side {
        Side::Bid => k - 1,
        Side::Ask => n - k,
    }
}

// An empty level of `price` at row k: the rows from k on move up by one.
pub fn open_row(levels: &mut [u64], n: usize, k: usize, price: Price)
    requires { (k ≤ n) × (n * 3 + 3 ≤ length levels.old) }
    ensures { Opened levels.old n k price.0 levels.new }
{
    let at = k * ROW;
    levels.copy_within(at..n * ROW, at + ROW);
    levels[at] = price.0;
    levels[at + HEAD] = 0;
    levels[at + TAIL] = 0;
}

// Row k goes: those above it move down by one.
pub fn shut_row(levels: &mut [u64], n: usize, k: usize)
    requires { (k < n) × (n * 3 ≤ length levels.old) }
    ensures { Closed levels.old (k * 3) ((n - 1) * 3) levels.new }
{
    let at = k * ROW;
    levels.copy_within(at + ROW..n * ROW, at);
}

// The first row whose price is not below `price`.
pub fn find_row(levels: &[u64], n: usize, price: Price) -> usize
    requires { Rising levels.now n }
    ensures { Bracket levels.now n price.0 result result }
{
    let (rows, _) = levels.as_chunks::<ROW>();
    rows[..n].partition_point(|row| row[0] < price.0)
}

// A row of `price` at k, where the search for that price ended; the number of rows then.
pub fn ready(levels: &mut [u64], n: usize, k: usize, price: Price) -> usize
    requires { (k ≤ n) × (n * 3 ≤ length levels.old) × ((k < n → price_of levels.old k ≢ price.0) → n * 3 + 3 ≤ length levels.old) }
    ensures { Ready levels.old n k price.0 result levels.new }
{
    if k < n && levels[k * ROW] == price.0 {
        return n;
    }
    open_row(levels, n, k, price);
    n + 1
}

// What a door leaves: the side's number of rows, and the first free place.
// A side's storage stays four arguments here, and its rows with their number two in arena, survey, matching, depth and ranks: ledger's StoredBook has them all,
// and a second struct of loans, made for each call, would say over again what is lent.
#[derive(Clone, Copy)]
pub struct Ends {
    pub rows: usize,
    pub free: u64,
}

// A new order at the back of its price; its record is the first free one.
pub fn rest(
    records: &mut [u64],
    levels: &mut [u64],
    n: usize,
    free: u64,
    id: Id,
    quantity: Quantity,
    price: Price,
) -> Ends
    requires { CanRest records.old levels.old n free price.0 }
    ensures { Rests records.old levels.old n free id.0 quantity.0 price.0
        records.new levels.new result.rows result.free }
{
    let then = take(records, free);
    write(records, free, id, quantity, price);
    let k = find_row(levels, n, price);
    let rows = ready(levels, n, k, price);
    append(records, levels, k, free);
    Ends { rows, free: then }
}

// The order of code `c` leaves its side; its place is given back at once.
pub fn discard(records: &mut [u64], levels: &mut [u64], n: usize, free: u64, c: u64) -> Ends
    requires { CanDiscard records.old levels.old n free c }
    ensures { Discards records.old levels.old n free c records.new levels.new result.rows result.free }
{
    let price = Price(load(records, PRICE, c));
    let k = find_row(levels, n, price);
    unlink(records, levels, k, c);
    give_back(records, free, c);
    if levels[k * ROW + HEAD] == 0 {
        shut_row(levels, n, k);
        Ends {
            rows: n - 1,
            free: c,
        }
    } else {
        Ends { rows: n, free: c }
    }
}
