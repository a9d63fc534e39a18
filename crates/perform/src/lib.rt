// An order or a cancel on a book that is known to be whole, at any size: what a caller who alone holds the storage needs, and what the public call does
// once it has looked.
#![tactic(auto)]

ghost use Rattle.models.specs.Readings.{call_of};
ghost use Rattle.rows.specs.Rows.{fill_row, places};
ghost use Rattle.ledger.specs.Stock.{stock_of, Relent};
ghost use Rattle.whole.specs.Whole.{WholeStock, size_of};
ghost use Rattle.desk.specs.Performs.{Performs};

use ledger::StoredBook;
use models::{OrderEvent, OrderType, Refusal};
use stats::Statistics;
use survey::Taker;
use whole::Size;

// An order or a cancel.
pub fn perform(
    size: Size,
    book: &mut StoredBook<'_>,
    statistics: &mut Statistics,
    fills: &mut [u64],
    order: OrderType,
) -> Result<OrderEvent, Refusal>
    requires { WholeStock (size_of size) (stock_of book.old) }
    ensures lent { Relent book.old book.new }
    ensures performs { Performs (WholeStock (size_of size)) (size_of size) (call_of (places fill_row fills.old) order)
        (stock_of book.old) statistics.old fills.old result (stock_of book.new) statistics.new fills.new }
{
    let taker = match order {
        OrderType::Market { id, side, qty } => Taker {
            id,
            side,
            limit: None,
            qty,
        },
        OrderType::Limit {
            id,
            side,
            qty,
            price,
        } => Taker {
            id,
            side,
            limit: Some(price),
            qty,
        },
        OrderType::Cancel { id } => {
            desk::withdraw(book, id);
            return Ok(OrderEvent::Canceled { id });
        }
    };
    desk::order(size, book, statistics, fills, taker)
}
