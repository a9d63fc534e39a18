// How the small values and the answers pass as numbers to C and Rust: the twelve numbers of a desk, the four of an answer; and what an exported call
// returns and leaves, by its answer. The exports (crate ffi) lend the storage and call.
#![tactic(auto)]

ghost use Rattle.std.specs.Prelude.{◌≡◌, ℕ, List};
ghost use Rattle.numbers.specs.Numbers.{book_in, trade_in, last_in, statistics_in, numbers_of};
ghost use Rattle.numbers.specs.Numbers.{event_as_numbers, quote_as_numbers, depth_as_numbers, look_as_numbers};
ghost use Rattle.numbers.specs.Reports.{Told, Reported, order_in, side_in, OrderOf};

use depth::Lookup;
use ledger::OrderBook;
use models::{BookDepth, Id, OrderEvent, OrderType, Price, Quantity, Refusal, Side};
use stats::{Statistics, Trade};

pub mod bits; // bits.rt: an average from its bit pattern

// How many numbers a desk and an answer have.
pub const DESK: usize = 12;

pub const ANSWER: usize = 4;

// Where each number of a desk stands.
const RESTING: usize = 0;

const FREE: usize = 1;

const BIDS: usize = 2;

const ASKS: usize = 3;

pub const TRACKING: usize = 4;

const VOLUME: usize = 5;

const PRESENT: usize = 6;

const TOTAL: usize = 7;

const AVERAGE: usize = 8;

const WHOLE_AVERAGE: usize = 9;

const LAST_PRICE: usize = 10;

const LAST_QTY: usize = 11;

// The number of each event, for C (include/felavuti.h).
const UNFILLED: u64 = 0;

const PLACED: u64 = 1;

const CANCELED: u64 = 2;

const PARTIALLY_FILLED: u64 = 3;

const FILLED: u64 = 4;

// What an accepted call returns.
pub const ACCEPTED: u64 = 0;

// What the exports pass between `[u64; N]` and other crates' types is passed by functions, since `From` can't be written here: neither side is this crate's.
pub fn book_of(desk: [u64; DESK]) -> OrderBook
    ensures { result ≡ book_in desk }
{
    OrderBook {
        resting: desk[RESTING] as usize,
        free: desk[FREE],
        bids: desk[BIDS] as usize,
        asks: desk[ASKS] as usize,
    }
}

fn trade_of(desk: [u64; DESK]) -> Trade
    ensures { result ≡ trade_in desk }
{
    Trade {
        total_qty: Quantity(desk[TOTAL]),
        avg_price: bits::of_bits(desk[AVERAGE]),
        whole_avg_price: Price(desk[WHOLE_AVERAGE]),
        last_price: Price(desk[LAST_PRICE]),
        last_qty: Quantity(desk[LAST_QTY]),
    }
}

fn last_of(desk: [u64; DESK]) -> Option<Trade>
    ensures { result ≡ last_in desk }
{
    if desk[PRESENT] == 0 {
        None
    } else {
        Some(trade_of(desk))
    }
}

pub fn statistics_of(desk: [u64; DESK]) -> Statistics
    ensures { result ≡ statistics_in desk }
{
    Statistics {
        tracking: desk[TRACKING] != 0,
        volume: Quantity(desk[VOLUME]),
        last: last_of(desk),
    }
}

// The twelve numbers.
pub fn written(book: OrderBook, statistics: Statistics) -> [u64; DESK]
    ensures { result ≡ numbers_of book statistics }
{
    let mut desk = [0; DESK];
    desk[RESTING] = book.resting as u64;
    desk[FREE] = book.free;
    desk[BIDS] = book.bids as u64;
    desk[ASKS] = book.asks as u64;
    desk[TRACKING] = u64::from(statistics.tracking);
    desk[VOLUME] = statistics.volume.0;
    if let Some(t) = statistics.last {
        desk[PRESENT] = 1;
        desk[TOTAL] = t.total_qty.0;
        desk[AVERAGE] = stats::bits::bits_of(t.avg_price);
        desk[WHOLE_AVERAGE] = t.whole_avg_price.0;
        desk[LAST_PRICE] = t.last_price.0;
        desk[LAST_QTY] = t.last_qty.0;
    }
    desk
}

// What a call answers, in four numbers.
pub trait InNumbers: Copy {
    ghost as_numbers: { Self → List ℕ };

    fn numbers(self) -> [u64; ANSWER]
        ensures { result ≡ as_numbers self };
}

impl InNumbers for OrderEvent {
    ghost as_numbers = { event_as_numbers };

    fn numbers(self) -> [u64; ANSWER] {
        match self {
            OrderEvent::Unfilled { id } => [UNFILLED, id.0, 0, 0],
            OrderEvent::Placed { id } => [PLACED, id.0, 0, 0],
            OrderEvent::Canceled { id } => [CANCELED, id.0, 0, 0],
            OrderEvent::PartiallyFilled {
                id,
                filled_qty,
                fills,
            } => [PARTIALLY_FILLED, id.0, filled_qty.0, fills as u64],
            OrderEvent::Filled {
                id,
                filled_qty,
                fills,
            } => [FILLED, id.0, filled_qty.0, fills as u64],
        }
    }
}

// A quote.
impl InNumbers for Option<Price> {
    ghost as_numbers = { quote_as_numbers };

    fn numbers(self) -> [u64; ANSWER] {
        match self {
            None => [0, 0, 0, 0],
            Some(price) => [1, price.0, 0, 0],
        }
    }
}

impl InNumbers for BookDepth {
    ghost as_numbers = { depth_as_numbers };

    fn numbers(self) -> [u64; ANSWER] {
        [self.levels as u64, self.asks as u64, self.bids as u64, 0]
    }
}

impl InNumbers for Lookup {
    ghost as_numbers = { λ look. look_as_numbers look.found look.count };

    fn numbers(self) -> [u64; ANSWER] {
        let count = self.count as u64;
        match self.found {
            None => [0, 0, 0, count],
            Some(order) => [1, order.price.0, order.qty.0, count],
        }
    }
}

// What a call returns, its answer's numbers written where it is accepted.
pub fn told<T: InNumbers>(told: Result<T, Refusal>, answer: &mut [u64; ANSWER]) -> u64
    ensures { Told T.as_numbers answer.old told result answer.new }
{
    match told {
        Ok(value) => {
            *answer = value.numbers();
            ACCEPTED
        }
        Err(refusal) => u64::from(refusal),
    }
}

// The same of an order or a cancel, which leaves these small values.
pub fn reported(
    done: Result<OrderEvent, Refusal>,
    book: OrderBook,
    statistics: Statistics,
    desk: &mut [u64; DESK],
    answer: &mut [u64; ANSWER],
) -> u64
    ensures { Reported desk.old answer.old done book statistics result desk.new answer.new }
{
    if done.is_ok() {
        *desk = written(book, statistics);
    }
    told(done, answer)
}

// The side of a number, whatever it is: all but 0 are the ask's here. `order` refuses those above 1.
pub fn side_of(side: u64) -> Side
    ensures { result ≡ side_in side }
{
    if side == 0 { Side::Bid } else { Side::Ask }
}

// An order from its numbers: a limit order where it has a price, else a market order.
pub fn order(id: u64, side: u64, qty: u64, price: Option<u64>) -> Result<OrderType, Refusal>
    ensures { OrderOf (order_in id qty price) side result }
{
    let side = Side::try_from(side)?;
    let id = Id(id);
    let qty = Quantity(qty);
    match price {
        None => Ok(OrderType::Market { id, side, qty }),
        Some(price) => Ok(OrderType::Limit {
            id,
            side,
            qty,
            price: Price(price),
        }),
    }
}
