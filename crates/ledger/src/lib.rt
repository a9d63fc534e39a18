// The book: both sides, the records and the search by id, with contracts in the terms of the rules.
// `records`, `bids`, `asks` and `search` are lent; `OrderBook` has the counts and the first free place.
#![tactic(auto)]

ghost use Rattle.std.specs.Prelude.{◌≡◌, [], ◌*◌, ◌<◌, ◌≤◌, length};
ghost use Rattle.rules.specs.Rules.{stays, only};
ghost use Rattle.models.specs.Readings.{side_of};
ghost use Rattle.records.specs.Rows.{RecordAt, record_count};
ghost use Rattle.ledger.specs.Stock.{stock, stock_of, stock_in, Relent};
ghost use Rattle.ledger.specs.Desk.{Tidy, read_book, LeavesAs};
ghost use Rattle.ledger.specs.Doors.{CanJoin, Joins, CanQuit, Quits, rest_in, RoomOn, RestsOn, dropped, ApartIn, SideTold, Fronted, front_of};

use arena::{HEAD, ROW};
use models::{Id, Price, Quantity, Side};
use records::{PRICE, load};

// How many orders rest, the first free place, and how many prices each side has.
#[repr(C)]
#[derive(Clone, Copy, Default, PartialEq, Eq)]
pub struct OrderBook {
    pub resting: usize,
    pub free: u64,
    pub bids: usize,
    pub asks: usize,
}

// A stored book: the small values with the storage that is lent to be changed, the records, the level rows of each side and the places of the search.
// It has no invariant: a public call takes any slices and any numbers.
#[derive(Drop)]
pub struct StoredBook<'a> {
    pub book: OrderBook,
    pub records: &'a mut [u64],
    pub bids: &'a mut [u64],
    pub asks: &'a mut [u64],
    pub search: &'a mut [u64],
}

// A stored book that is only read.
#[derive(Clone, Copy)]
pub struct BookView<'a> {
    pub book: OrderBook,
    pub records: &'a [u64],
    pub bids: &'a [u64],
    pub asks: &'a [u64],
    pub search: &'a [u64],
}

// The parts of one side stay parameters, here and in `quit`: a struct of the five would be made at each call and taken apart at once, which is no plainer.
// A new order rests on one side, and is the one found under its id.
pub fn join(
    records: &mut [u64],
    levels: &mut [u64],
    search: &mut [u64],
    n: usize,
    free: u64,
    id: Id,
    quantity: Quantity,
    price: Price,
) -> side::Ends
    requires { CanJoin records.old levels.old search.old n free price.0 }
    ensures { Joins records.old levels.old search.old n free id.0 quantity.0 price.0
        records.new levels.new search.new result.rows result.free }
{
    let e = side::rest(records, levels, n, free, id, quantity, price);
    search::insert(search, records, id.0, free);
    e
}

// The order of code `c` leaves its side; the search forgets it, if it finds this very record.
pub fn quit(
    records: &mut [u64],
    levels: &mut [u64],
    search: &mut [u64],
    n: usize,
    free: u64,
    c: u64,
) -> side::Ends
    requires { CanQuit records.old levels.old search.old n free c }
    ensures { Quits records.old levels.old search.old n free c
        records.new levels.new search.new result.rows result.free }
{
    search::forget(search, records, c);
    side::discard(records, levels, n, free, c)
}

// A fresh book, whatever the storage held. No row of a side has to change.
pub fn fresh(records: &mut [u64], bids: &[u64], asks: &[u64], search: &mut [u64]) -> OrderBook
    requires { (length records.old ≡ record_count records.old * 5) × (record_count records.old < length search.old) }
    ensures { LeavesAs (record { bids = []; asks = [] })
        (stock result records.new bids.entry.now asks.now search.new) }
{
    let free = arena::free_all(records);
    search::clear(search);
    OrderBook {
        resting: 0,
        free,
        bids: 0,
        asks: 0,
    }
}

impl BookView<'_> {
    // The code of the best order of a side.
    pub fn front(self, side: Side) -> u64
        requires { Fronted (side_of side) self.book self.bids.now self.asks.now }
        ensures { result ≡ front_of (side_of side) self.entry.book self.entry.bids.now self.entry.asks.now }
    {
        match side {
            Side::Bid => self.bids[(self.book.bids - 1) * ROW + HEAD],
            Side::Ask => self.asks[HEAD],
        }
    }

    // The side that the resting order of code `c` is on: an ask is dearer than the highest bid.
    pub fn side_at(self, c: u64) -> Side
        requires { RecordAt self.records.now c × (self.book.bids * 3 ≤ length self.bids.now) }
        ensures { SideTold (side_of result) self.entry.records.now self.entry.bids.now self.entry.book.bids c }
    {
        let n = self.book.bids;
        if n == 0 {
            return Side::Ask;
        }
        let top = self.bids[(n - 1) * ROW];
        if top < load(self.records, PRICE, c) {
            return Side::Ask;
        }
        Side::Bid
    }
}

impl StoredBook<'_> {
    // The book as it stands, to be read.
    pub fn view(&self) -> BookView<'_>
        ensures { stock_in result ≡ stock_of self.now }
    {
        BookView {
            book: self.book,
            records: self.records,
            bids: self.bids,
            asks: self.asks,
            search: self.search,
        }
    }

    // A new order comes to rest behind all others at its price.
    pub fn rest(&mut self, side: Side, id: Id, quantity: Quantity, price: Price)
        requires { Tidy (stock_of self.old) × (self.old.book.resting < record_count self.old.records.now)
            × RoomOn (side_of side) (stock_of self.old) price.0 }
        ensures lent { Relent self.old self.new }
        ensures rests { LeavesAs (rest_in (side_of side) id.0 quantity.0 price.0 (read_book (stock_of self.old))) (stock_of self.new) }
    {
        let b = self.book;
        let resting = b.resting + 1;
        // An arm for each side, here and in `discard`: each lends another field, and after a choice by a reference the check knows neither.
        match side {
            Side::Bid => {
                let e = join(
                    self.records,
                    self.bids,
                    self.search,
                    b.bids,
                    b.free,
                    id,
                    quantity,
                    price,
                );
                self.book = OrderBook {
                    resting,
                    free: e.free,
                    bids: e.rows,
                    ..b
                };
            }
            Side::Ask => {
                let e = join(
                    self.records,
                    self.asks,
                    self.search,
                    b.asks,
                    b.free,
                    id,
                    quantity,
                    price,
                );
                self.book = OrderBook {
                    resting,
                    free: e.free,
                    asks: e.rows,
                    ..b
                };
            }
        }
    }

    // The order of code `c` leaves its side.
    pub fn discard(&mut self, side: Side, c: u64)
        requires { Tidy (stock_of self.old) × RestsOn (side_of side) c (stock_of self.old) }
        ensures lent { Relent self.old self.new }
        ensures leaves { LeavesAs (dropped (side_of side) c (stock_of self.old)) (stock_of self.new) }
    {
        let b = self.book;
        let resting = b.resting - 1;
        match side {
            Side::Bid => {
                let e = quit(self.records, self.bids, self.search, b.bids, b.free, c);
                self.book = OrderBook {
                    resting,
                    free: e.free,
                    bids: e.rows,
                    ..b
                };
            }
            Side::Ask => {
                let e = quit(self.records, self.asks, self.search, b.asks, b.free, c);
                self.book = OrderBook {
                    resting,
                    free: e.free,
                    asks: e.rows,
                    ..b
                };
            }
        }
    }

    // The order that the search finds under `id` leaves, if there is one.
    pub fn cancel(&mut self, id: Id)
        requires { Tidy (stock_of self.old) × ApartIn (stock_of self.old) }
        ensures lent { Relent self.old self.new }
        ensures leaves { LeavesAs (only (stays id.0) (read_book (stock_of self.old))) (stock_of self.new) }
    {
        let view = self.view();
        let c = search::find(view.search, view.records, id.0).entry;
        if c == 0 {
            return;
        }
        let side = view.side_at(c);
        self.discard(side, c);
    }

    // A fresh book, whatever the storage held.
    pub fn fresh(&mut self)
        requires { (length self.old.records.now ≡ record_count self.old.records.now * 5)
            × (record_count self.old.records.now < length self.old.search.now) }
        ensures lent { Relent self.old self.new }
        ensures sides { (self.new.bids.now ≡ self.old.bids.now) × (self.new.asks.now ≡ self.old.asks.now) }
        ensures empty { LeavesAs (record { bids = []; asks = [] }) (stock_of self.new) }
    {
        let bids = &mut *self.bids;
        let asks = &mut *self.asks;
        self.book = fresh(self.records, bids, asks, self.search);
    }
}
