// The desk of the base for C and Rust: every public call of `orderbook` as a function that `ffi_c` exports, the check of a whole book at any size, and a
// tape's orders read and written. A slice passes as a pointer and a length; the twelve numbers of a desk, the four of an answer and the six of a slip as
// pointers. Each returns 0, or the number of the refusal, in which case nothing lent has changed. include/felavuti.h is the header.
// What travels together stays apart here, and a refusal is a number: the C interface is these parameters and this result.
#![tactic(auto)]

ghost use Rattle.std.specs.Prelude.{◌≡◌, [], not, eqb, set};
ghost use Rattle.rules.specs.Rules as rule;
ghost use Rattle.models.specs.declared.OrderType.TheVariants.{Market, Limit};
ghost use Rattle.models.specs.Readings.{call_of};
ghost use Rattle.rows.specs.Rows.{fill_row, places};
ghost use Rattle.questions.specs.Questions.{lowest_ask, highest_bid, spread_of};
ghost use Rattle.ledger.specs.Stock.{stock, stock_in};
ghost use Rattle.numbers.specs.Numbers.{yes, book_in};
ghost use Rattle.ffi.specs.Exports.{Carried, Ordered, Asked, Deepened, Sought, OpenedAs, Checked};
ghost use Rattle.ffi.specs.Tapes.{FieldRead, FieldWritten};

use ledger::{BookView, StoredBook};
use models::{Id, OrderType, Refusal};
use numbers::{ACCEPTED, ANSWER, DESK, TRACKING};
use slips::SLIP;
use whole::Size;

// A fresh book over storage of the right lengths, whatever it holds.
pub fn felavuti_fresh(
    desk: &mut [u64; DESK],
    records: &mut [u64],
    bids: &mut [u64],
    asks: &mut [u64],
    search: &mut [u64],
) -> u64
    ensures { OpenedAs desk.old records.old bids.old asks.old search.old result
        desk.new records.new bids.new asks.new search.new }
{
    let mut book = StoredBook {
        book: numbers::book_of(*desk),
        records,
        bids,
        asks,
        search,
    };
    match orderbook::fresh(&mut book) {
        Ok(statistics) => {
            *desk = numbers::written(book.book, statistics);
            ACCEPTED
        }
        Err(refusal) => u64::from(refusal),
    }
}

// An order or a cancel on the numbers lent: read, carried out, and what it answers written back where it is accepted.
fn execute_lent(
    desk: &mut [u64; DESK],
    records: &mut [u64],
    bids: &mut [u64],
    asks: &mut [u64],
    search: &mut [u64],
    fills: &mut [u64],
    order: OrderType,
    answer: &mut [u64; ANSWER],
) -> u64
    ensures { Carried (call_of (places fill_row fills.old) order)
        desk.old records.old bids.old asks.old search.old fills.old answer.old
        result desk.new records.new bids.new asks.new search.new fills.new answer.new }
{
    let mut book = StoredBook {
        book: numbers::book_of(*desk),
        records,
        bids,
        asks,
        search,
    };
    let mut statistics = numbers::statistics_of(*desk);
    let done = orderbook::execute(&mut book, &mut statistics, fills, order);
    numbers::reported(done, book.book, statistics, desk, answer)
}

// A market order.
pub fn felavuti_market(
    desk: &mut [u64; DESK],
    records: &mut [u64],
    bids: &mut [u64],
    asks: &mut [u64],
    search: &mut [u64],
    fills: &mut [u64],
    id: u64,
    side: u64,
    qty: u64,
    answer: &mut [u64; ANSWER],
) -> u64
    ensures { Ordered (λ s. Market (record { 0 = id }) s (record { 0 = qty })) side
        desk.old records.old bids.old asks.old search.old fills.old answer.old
        result desk.new records.new bids.new asks.new search.new fills.new answer.new }
{
    match numbers::order(id, side, qty, None) {
        Ok(order) => execute_lent(desk, records, bids, asks, search, fills, order, answer),
        Err(refusal) => u64::from(refusal),
    }
}

// A limit order.
pub fn felavuti_limit(
    desk: &mut [u64; DESK],
    records: &mut [u64],
    bids: &mut [u64],
    asks: &mut [u64],
    search: &mut [u64],
    fills: &mut [u64],
    id: u64,
    side: u64,
    qty: u64,
    price: u64,
    answer: &mut [u64; ANSWER],
) -> u64
    ensures { Ordered (λ s. Limit (record { 0 = id }) s (record { 0 = qty }) (record { 0 = price })) side
        desk.old records.old bids.old asks.old search.old fills.old answer.old
        result desk.new records.new bids.new asks.new search.new fills.new answer.new }
{
    match numbers::order(id, side, qty, Some(price)) {
        Ok(order) => execute_lent(desk, records, bids, asks, search, fills, order, answer),
        Err(refusal) => u64::from(refusal),
    }
}

// The order found under the id leaves, if there is one.
pub fn felavuti_cancel(
    desk: &mut [u64; DESK],
    records: &mut [u64],
    bids: &mut [u64],
    asks: &mut [u64],
    search: &mut [u64],
    id: u64,
    answer: &mut [u64; ANSWER],
) -> u64
    ensures { Carried (rule.cancel id)
        desk.old records.old bids.old asks.old search.old [] answer.old
        result desk.new records.new bids.new asks.new search.new [] answer.new }
{
    let mut book = StoredBook {
        book: numbers::book_of(*desk),
        records,
        bids,
        asks,
        search,
    };
    let statistics = numbers::statistics_of(*desk);
    let done = orderbook::cancel(&mut book, Id(id));
    numbers::reported(done, book.book, statistics, desk, answer)
}

// The book of the numbers lent, to be read alone.
fn viewed<'a>(
    desk: &[u64; DESK],
    records: &'a [u64],
    bids: &'a [u64],
    asks: &'a [u64],
    search: &'a [u64],
) -> BookView<'a>
    ensures { stock_in result ≡ stock (book_in desk.now) records.now bids.now asks.now search.now }
{
    BookView {
        book: numbers::book_of(*desk),
        records,
        bids,
        asks,
        search,
    }
}

// The lowest ask.
pub fn felavuti_min_ask(
    desk: &[u64; DESK],
    records: &[u64],
    bids: &[u64],
    asks: &[u64],
    search: &[u64],
    answer: &mut [u64; ANSWER],
) -> u64
    ensures { Asked lowest_ask desk.now records.now bids.now asks.now search.now
        answer.old result answer.new }
{
    let view = viewed(desk, records, bids, asks, search);
    numbers::told(orderbook::min_ask(view), answer)
}

// The highest bid.
pub fn felavuti_max_bid(
    desk: &[u64; DESK],
    records: &[u64],
    bids: &[u64],
    asks: &[u64],
    search: &[u64],
    answer: &mut [u64; ANSWER],
) -> u64
    ensures { Asked highest_bid desk.now records.now bids.now asks.now search.now
        answer.old result answer.new }
{
    let view = viewed(desk, records, bids, asks, search);
    numbers::told(orderbook::max_bid(view), answer)
}

// The lowest ask less the highest bid, where both are there.
pub fn felavuti_spread(
    desk: &[u64; DESK],
    records: &[u64],
    bids: &[u64],
    asks: &[u64],
    search: &[u64],
    answer: &mut [u64; ANSWER],
) -> u64
    ensures { Asked spread_of desk.now records.now bids.now asks.now search.now
        answer.old result answer.new }
{
    let view = viewed(desk, records, bids, asks, search);
    numbers::told(orderbook::spread(view), answer)
}

// Every occupied price with its total: asks from the start of `out`, then bids, both ascending.
pub fn felavuti_depth(
    desk: &[u64; DESK],
    records: &[u64],
    bids: &[u64],
    asks: &[u64],
    search: &[u64],
    out: &mut [u64],
    levels: usize,
    answer: &mut [u64; ANSWER],
) -> u64
    ensures { Deepened levels desk.now records.now bids.now asks.now search.now
        out.old answer.old result out.new answer.new }
{
    let view = viewed(desk, records, bids, asks, search);
    numbers::told(orderbook::depth(view, levels, out), answer)
}

// The order that the search finds under the id.
pub fn felavuti_get(
    desk: &[u64; DESK],
    records: &[u64],
    bids: &[u64],
    asks: &[u64],
    search: &[u64],
    id: u64,
    answer: &mut [u64; ANSWER],
) -> u64
    ensures { Sought id desk.now records.now bids.now asks.now search.now
        answer.old result answer.new }
{
    let view = viewed(desk, records, bids, asks, search);
    numbers::told(orderbook::get(view, Id(id)), answer)
}

// Whether a stored book is whole, at any size: 0, or 1 where it isn't.
pub fn felavuti_check(
    orders: usize,
    prices: usize,
    desk: &[u64; DESK],
    records: &[u64],
    bids: &[u64],
    asks: &[u64],
    search: &[u64],
) -> u64
    ensures { Checked (record { orders = orders; prices = prices })
        desk.now records.now bids.now asks.now search.now result }
{
    let view = viewed(desk, records, bids, asks, search);
    if whole::is_whole(Size { orders, prices }, view) {
        return ACCEPTED;
    }
    u64::from(Refusal::NotWhole)
}

// Switched tracking: no other number changes. Never refused.
pub fn felavuti_track_stats(desk: &mut [u64; DESK], on: u64) -> u64
    ensures { (result ≡ 0) × (desk.new ≡ set desk.old 4 (yes (not (eqb on 0)))) }
{
    desk[TRACKING] = u64::from(on != 0);
    ACCEPTED
}

// What stands at a place of a tape, as a slip.
pub fn felavuti_read_order(tape: &[u8], at: usize, order: &mut [u64; SLIP]) -> u64
    ensures { FieldRead tape.now at order.old result order.new }
{
    match slips::read_slip(tape, at) {
        Ok(slip) => {
            *order = slip;
            ACCEPTED
        }
        Err(refusal) => u64::from(refusal),
    }
}

// The order of a slip, written at a place of a tape.
pub fn felavuti_write_order(tape: &mut [u8], at: usize, order: &mut [u64; SLIP]) -> u64
    ensures { FieldWritten tape.old at order.old result tape.new order.new }
{
    match slips::write_slip(tape, at, *order) {
        Ok(slip) => {
            *order = slip;
            ACCEPTED
        }
        Err(refusal) => u64::from(refusal),
    }
}
