// What the programs do in common: a desk with its storage as one value, orders in a few words, and an order carried out with its answer told.
#![tactic(auto)]

ghost use Rattle.std.specs.Prelude.{◌≡◌};
ghost use Rattle.models.specs.declared.OrderType.TheVariants.{Market, Limit, Cancel};

use ledger::{BookView, OrderBook, StoredBook};
use models::{BookDepth, Id, OrderEvent, OrderType, Price, Quantity, Refusal, Side};
use orderbook::{LEVELS, PLACES, RECORDS};
use stats::Statistics;

// Buffers: room for a fill from each order that can rest, five numbers each, and for a level at each price of both sides, two numbers each.
pub const FILLS: usize = 5120;

pub const SHOWN: usize = 512;

// What stands in a buffer before a call.
pub const MARK: u64 = 7;

// A desk: its storage and its small values.
#[derive(Clone, Copy, PartialEq)]
pub struct OwnDesk {
    pub records: [u64; RECORDS],
    pub bids: [u64; LEVELS],
    pub asks: [u64; LEVELS],
    pub search: [u64; PLACES],
    pub book: OrderBook,
    pub statistics: Statistics,
}

impl OwnDesk {
    // A desk with nothing on it. Storage of the right lengths is never refused; otherwise a line says so, and the book is one that isn't whole.
    pub fn fresh(rt: &impl Print) -> OwnDesk {
        let mut desk = OwnDesk {
            records: [0; RECORDS],
            bids: [0; LEVELS],
            asks: [0; LEVELS],
            search: [0; PLACES],
            book: OrderBook::default(),
            statistics: Statistics::fresh(),
        };
        let mut book = StoredBook {
            book: desk.book,
            records: &mut desk.records,
            bids: &mut desk.bids,
            asks: &mut desk.asks,
            search: &mut desk.search,
        };
        match orderbook::fresh(&mut book) {
            Ok(statistics) => {
                desk.book = book.book;
                desk.statistics = statistics;
            }
            Err(refusal) => tell::refused(rt, refusal),
        }
        desk
    }

    // An order or a cancel.
    pub fn execute(&mut self, fills: &mut [u64], order: OrderType) -> Result<OrderEvent, Refusal> {
        let mut book = StoredBook {
            book: self.book,
            records: &mut self.records,
            bids: &mut self.bids,
            asks: &mut self.asks,
            search: &mut self.search,
        };
        let answer = orderbook::execute(&mut book, &mut self.statistics, fills, order);
        self.book = book.book;
        answer
    }

    // The same, with a buffer of `room` numbers for the fills, and the answer told with them.
    pub fn order(&mut self, rt: &impl Print, room: usize, order: OrderType) {
        let mut fills = [MARK; FILLS];
        let answer = self.execute(&mut fills[..room.min(FILLS)], order);
        tell::answer(rt, answer, &fills);
    }

    // The book, to be read.
    fn view(&self) -> BookView<'_> {
        BookView {
            book: self.book,
            records: &self.records,
            bids: &self.bids,
            asks: &self.asks,
            search: &self.search,
        }
    }

    // The lowest ask, the highest bid and the spread told, each with its words.
    pub fn quotes(&self, rt: &impl Print, words: [(&str, &str); 3]) {
        let view = self.view();
        let [ask, bid, spread] = words;
        tell::quote(rt, ask, orderbook::min_ask(view));
        tell::quote(rt, bid, orderbook::max_bid(view));
        tell::quote(rt, spread, orderbook::spread(view));
    }

    // Depth for one level.
    pub fn depth(&self, levels: &mut [u64]) -> Result<BookDepth, Refusal> {
        orderbook::depth(self.view(), 1, levels)
    }

    // Tracking switched: no other number changes.
    pub fn track(&mut self, on: bool) {
        self.statistics = self.statistics.track_stats(on);
    }
}

// What a list does next: an order or a cancel, with a buffer of so many numbers for its fills; tracking switched; or depth, with a buffer of so many.
#[derive(Clone, Copy)]
pub enum Step {
    Order(usize, OrderType),
    Tracking(bool),
    Depth(usize),
}

pub fn limit(side: Side, id: u64, qty: u64, price: u64) -> OrderType
    ensures { result ≡ Limit (record { 0 = id }) side (record { 0 = qty }) (record { 0 = price }) }
{
    OrderType::Limit {
        id: Id(id),
        side,
        qty: Quantity(qty),
        price: Price(price),
    }
}

pub fn market(side: Side, id: u64, qty: u64) -> OrderType
    ensures { result ≡ Market (record { 0 = id }) side (record { 0 = qty }) }
{
    OrderType::Market {
        id: Id(id),
        side,
        qty: Quantity(qty),
    }
}

pub fn cancel(id: u64) -> OrderType
    ensures { result ≡ Cancel (record { 0 = id }) }
{
    OrderType::Cancel { id: Id(id) }
}
