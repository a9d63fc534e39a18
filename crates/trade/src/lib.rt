// An order trades: it is carried out on the makers, and those that it uses up leave. What is left of the order is a matter of the caller.
#![tactic(auto)]

ghost use Rattle.std.specs.Prelude.{◌≤◌, length};
ghost use Rattle.rules.specs.Rules.{own};
ghost use Rattle.models.specs.Readings.{side_of};
ghost use Rattle.ledger.specs.Stock.{stock_of, Relent};
ghost use Rattle.ledger.specs.Desk.{Tidy, LeavesAs, read_book};
ghost use Rattle.trade.specs.Trade.{CanTrade, Trades, swept};

use ledger::StoredBook;
use matching::{Last, carry_out};
use models::Side;
use survey::Taker;

// The best order of a side leaves.
fn leave(book: &mut StoredBook<'_>, side: Side)
    requires { Tidy (stock_of book.old) × (1 ≤ length (own (side_of side) (read_book (stock_of book.old)))) }
    ensures lent { Relent book.old book.new }
    ensures leaves { LeavesAs (swept (side_of side) 1 (read_book (stock_of book.old))) (stock_of book.new) }
{
    let c = book.view().front(side);
    book.discard(side, c);
}

// The `count` best orders of a side leave, one by one from the front.
pub fn sweep(book: &mut StoredBook<'_>, side: Side, count: usize)
    requires { Tidy (stock_of book.old) × (count ≤ length (own (side_of side) (read_book (stock_of book.old)))) }
    ensures lent { Relent book.old book.new }
    ensures leaves { LeavesAs (swept (side_of side) count (read_book (stock_of book.old))) (stock_of book.new) }
{
    for _ in 0..count {
        leave(book, side);
    }
}

// The order takes from the makers, and the `used` makers that it uses up leave. The last fill's price and quantity are handed back (0 where there is none).
pub fn trade(book: &mut StoredBook<'_>, t: Taker, used: usize, fills: &mut [u64]) -> Last
    requires { CanTrade t used (stock_of book.old) fills.old }
    ensures lent { Relent book.old book.new }
    ensures trades { Trades t (read_book (stock_of book.old)) fills.old (stock_of book.new) fills.new result }
{
    // An arm for each side: each lends another field, and after a choice by a reference the check knows neither.
    match t.side {
        Side::Bid => {
            let asks = &mut *book.asks;
            let last = carry_out(book.records, asks, book.book.asks, t, fills);
            sweep(book, Side::Ask, used);
            last
        }
        Side::Ask => {
            let bids = &mut *book.bids;
            let last = carry_out(book.records, bids, book.book.bids, t, fills);
            sweep(book, Side::Bid, used);
            last
        }
    }
}
