// The desk of the base: lobster's order book over storage for 1,024 resting orders and 128 prices a side, as public calls that demand nothing of the caller.
// Each is the call of the same name in `calls` or `questions`, at this one size; a market and a limit order are `execute` of it, and the
// lowest ask and the highest bid are `best` of a side. They stay functions of their own, a line each: README.md and docs/PROMISES.md name them, as lobster
// does most of them.
// Storage is lent: RECORDS numbers for the orders, LEVELS for the prices of each side, PLACES for the search.
#![tactic(auto)]

ghost use Rattle.rules.specs.Rules as rule;
ghost use Rattle.models.specs.declared.OrderType.TheVariants.{Market, Limit};
ghost use Rattle.models.specs.Readings.{call_of};
ghost use Rattle.rows.specs.Rows.{fill_row, places};
ghost use Rattle.ledger.specs.Stock.{stock_of, stock_in, Relent};
ghost use Rattle.calls.specs.Calls.{Cancels, Executes, Makes};
ghost use Rattle.questions.specs.Questions.{Tells, lowest_ask, highest_bid, spread_of, Shows, Finds};

use depth::Lookup;
use ledger::{BookView, StoredBook};
use models::{BookDepth, Id, OrderEvent, OrderType, Price, Quantity, Refusal, Side};
use stats::Statistics;
use whole::Size;

// How many orders may rest, and how many prices a side may have.
pub const ORDERS: usize = 1024;

pub const PRICES: usize = 128;

pub const SIZE: Size = Size {
    orders: ORDERS,
    prices: PRICES,
};

// The lengths of the lent storage: rows of 5 numbers, rows of 3 numbers, two places an order.
pub const RECORDS: usize = 5120;

pub const LEVELS: usize = 384;

pub const PLACES: usize = 2048;

// A fresh book over storage of the right lengths, whatever it holds; other lengths are refused and stay unchanged.
pub fn fresh(book: &mut StoredBook<'_>) -> Result<Statistics, Refusal>
    ensures lent { Relent book.old book.new }
    ensures makes { Makes rule.hall (stock_of book.old) result (stock_of book.new) }
{
    calls::fresh(SIZE, book)
}

// An order or a cancel.
pub fn execute(
    book: &mut StoredBook<'_>,
    statistics: &mut Statistics,
    fills: &mut [u64],
    order: OrderType,
) -> Result<OrderEvent, Refusal>
    ensures lent { Relent book.old book.new }
    ensures executes { Executes rule.hall (call_of (places fill_row fills.old) order)
        (stock_of book.old) statistics.old fills.old result (stock_of book.new) statistics.new fills.new }
{
    calls::execute(SIZE, book, statistics, fills, order)
}

// A market order.
pub fn market(
    book: &mut StoredBook<'_>,
    statistics: &mut Statistics,
    fills: &mut [u64],
    id: Id,
    side: Side,
    qty: Quantity,
) -> Result<OrderEvent, Refusal>
    ensures lent { Relent book.old book.new }
    ensures executes { Executes rule.hall (call_of (places fill_row fills.old) (Market id side qty))
        (stock_of book.old) statistics.old fills.old result (stock_of book.new) statistics.new fills.new }
{
    execute(book, statistics, fills, OrderType::Market { id, side, qty })
}

// A limit order.
pub fn limit(
    book: &mut StoredBook<'_>,
    statistics: &mut Statistics,
    fills: &mut [u64],
    id: Id,
    side: Side,
    qty: Quantity,
    price: Price,
) -> Result<OrderEvent, Refusal>
    ensures lent { Relent book.old book.new }
    ensures executes { Executes rule.hall (call_of (places fill_row fills.old) (Limit id side qty price))
        (stock_of book.old) statistics.old fills.old result (stock_of book.new) statistics.new fills.new }
{
    let order = OrderType::Limit {
        id,
        side,
        qty,
        price,
    };
    execute(book, statistics, fills, order)
}

// The order found under the id leaves, if there is one.
pub fn cancel(book: &mut StoredBook<'_>, id: Id) -> Result<OrderEvent, Refusal>
    ensures lent { Relent book.old book.new }
    ensures cancels { Cancels rule.hall id.0 (stock_of book.old) result (stock_of book.new) }
{
    calls::cancel(SIZE, book, id)
}

// The lowest ask.
pub fn min_ask(view: BookView<'_>) -> Result<Option<Price>, Refusal>
    ensures { Tells rule.hall lowest_ask (stock_in view.entry) result }
{
    questions::best(SIZE, view, Side::Ask)
}

// The highest bid.
pub fn max_bid(view: BookView<'_>) -> Result<Option<Price>, Refusal>
    ensures { Tells rule.hall highest_bid (stock_in view.entry) result }
{
    questions::best(SIZE, view, Side::Bid)
}

// The lowest ask less the highest bid, where both are there.
pub fn spread(view: BookView<'_>) -> Result<Option<Price>, Refusal>
    ensures { Tells rule.hall spread_of (stock_in view.entry) result }
{
    questions::spread(SIZE, view)
}

// Every occupied price with its total: asks from the start of `out`, then bids, both ascending. `levels` is echoed.
pub fn depth(view: BookView<'_>, levels: usize, out: &mut [u64]) -> Result<BookDepth, Refusal>
    ensures { Shows rule.hall levels (stock_in view.entry) out.old result out.new }
{
    questions::depth(SIZE, view, levels, out)
}

// The order that the search finds under the id, with the number of places that it looked at.
pub fn get(view: BookView<'_>, id: Id) -> Result<Lookup, Refusal>
    ensures { Finds rule.hall id.0 (stock_in view.entry) result }
{
    questions::get(SIZE, view, id)
}
