// An order or a cancel on a book that is known to be whole, at any size: what it would do, whether it is refused, and only then what it does.
#![tactic(auto)]

ghost use Rattle.rules.specs.Rules as rule;
ghost use Rattle.models.specs.Readings.{side_of};
ghost use Rattle.side.specs.Prices.{Rising};
ghost use Rattle.ledger.specs.Stock.{stock_of, Relent};
ghost use Rattle.desk.specs.Stock.{Sound};
ghost use Rattle.desk.specs.Performs.{Performs};
ghost use Rattle.rows.specs.Rows.{fill_row, places};
ghost use Rattle.whole.specs.Whole.{size_of};
ghost use Rattle.survey.specs.Taker.{taker_of};
ghost use Rattle.fulfil.specs.Fulfils.{Foretells};
ghost use Rattle.desk.specs.Steps.{Matchable, Crowds, CrowdsOn, Held, Withdraws};

use depth::is_new_price;
use fulfil::carry;
use ledger::{BookView, StoredBook};
use models::{FillMetadata, Id, OrderEvent, Price, Refusal, Side};
use order::{checked, standing};
use rows::Row;
use stats::Statistics;
use survey::{Outlook, Taker, survey};
use whole::Size;

// What the order would do, with nothing changed. An arm for each side, here and below: a function that gives a side's rows would say the same two cases.
fn outlook(view: BookView<'_>, t: Taker) -> Outlook
    requires { Matchable view.book view.records.now view.bids.now view.asks.now }
    ensures { Foretells t view.entry.book view.entry.records.now view.entry.bids.now view.entry.asks.now result }
{
    match t.side {
        Side::Bid => survey(view.records, view.asks, view.book.asks, t),
        Side::Ask => survey(view.records, view.bids, view.book.bids, t),
    }
}

// Whether a price is new to a side that has no row left.
fn has_no_row(levels: &[u64], n: usize, price: Price, most: usize) -> bool
    requires { Rising levels.now n }
    ensures { Crowds most price.0 levels.now n result }
{
    most <= n && is_new_price(levels, n, price)
}

// Whether the price `at` at which a remainder would rest is new to its side, and that side has no row left.
fn is_crowded(view: BookView<'_>, side: Side, at: Option<Price>, most: usize) -> bool
    requires { Rising view.bids.now view.book.bids × Rising view.asks.now view.book.asks }
    ensures { CrowdsOn most (side_of side) at view.entry.book view.entry.bids.now view.entry.asks.now result }
{
    let Some(price) = at else {
        return false;
    };
    match side {
        Side::Bid => has_no_row(view.bids, view.book.bids, price, most),
        Side::Ask => has_no_row(view.asks, view.book.asks, price, most),
    }
}

// An order: what it would do, whether it is refused, and only then what it does.
pub fn order(
    size: Size,
    book: &mut StoredBook<'_>,
    statistics: &mut Statistics,
    fills: &mut [u64],
    t: Taker,
) -> Result<OrderEvent, Refusal>
    requires { Sound (size_of size) (stock_of book.old) }
    ensures lent { Relent book.old book.new }
    ensures performs { Performs (Sound (size_of size)) (size_of size) (rule.order (taker_of (places fill_row fills.old) t))
        (stock_of book.old) statistics.old fills.old result (stock_of book.new) statistics.new fills.new }
{
    let view = book.view();
    let s = outlook(view, t);
    let at = standing(t, s);
    let full = size.orders <= view.book.resting;
    let crowded = is_crowded(view, t.side, at, size.prices);
    let room = FillMetadata::places(fills);
    checked(room, t, s, *statistics, at, full, crowded)?;
    Ok(carry(book, statistics, fills, t, s, at))
}

// The order that the search finds under the id leaves, if there is one.
pub fn withdraw(book: &mut StoredBook<'_>, id: Id)
    requires { Held (stock_of book.old) }
    ensures lent { Relent book.old book.new }
    ensures withdraws { Withdraws id (stock_of book.old) (stock_of book.new) }
{
    book.cancel(id);
}
