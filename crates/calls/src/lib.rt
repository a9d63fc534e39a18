// The public calls that make or change a book, at any size. Each demands nothing of its caller: what isn't a whole book of the given size is refused
// as not whole, and a refusal changes nothing. What may be asked of a book is in crate questions.
// Storage is lent as numbers: records, level rows of bids and asks, places of the search; the small values stand beside it in the stored book.
// The book, the statistics and the buffer for fills are lent apart, here and below: a cancel takes the book alone.
#![tactic(auto)]

ghost use Rattle.models.specs.Readings.{call_of};
ghost use Rattle.rows.specs.Rows.{fill_row, places};
ghost use Rattle.whole.specs.Whole.{size_of};
ghost use Rattle.ledger.specs.Stock.{stock_of, Relent};
ghost use Rattle.calls.specs.Calls.{Executes, Cancels, Makes};

use ledger::StoredBook;
use models::{Id, OrderEvent, OrderType, Refusal};
use perform::perform;
use stats::Statistics;
use whole::{Size, is_sized, known};

// A fresh book over storage of the right lengths, whatever it holds, and fresh statistics.
pub fn fresh(size: Size, book: &mut StoredBook<'_>) -> Result<Statistics, Refusal>
    ensures lent { Relent book.old book.new }
    ensures makes { Makes (size_of size) (stock_of book.old) result (stock_of book.new) }
{
    let view = book.view();
    if !is_sized(size, view) {
        return Err(Refusal::NotWhole);
    }
    book.fresh();
    Ok(Statistics::fresh())
}

// The order found under the id leaves, if there is one. Statistics have no part in it.
pub fn cancel(size: Size, book: &mut StoredBook<'_>, id: Id) -> Result<OrderEvent, Refusal>
    ensures lent { Relent book.old book.new }
    ensures cancels { Cancels (size_of size) id.0 (stock_of book.old) result (stock_of book.new) }
{
    known(size, book.view())?;
    desk::withdraw(book, id);
    Ok(OrderEvent::Canceled { id })
}

// An order or a cancel.
pub fn execute(
    size: Size,
    book: &mut StoredBook<'_>,
    statistics: &mut Statistics,
    fills: &mut [u64],
    order: OrderType,
) -> Result<OrderEvent, Refusal>
    ensures lent { Relent book.old book.new }
    ensures executes { Executes (size_of size) (call_of (places fill_row fills.old) order)
        (stock_of book.old) statistics.old fills.old result (stock_of book.new) statistics.new fills.new }
{
    known(size, book.view())?;
    perform(size, book, statistics, fills, order)
}
