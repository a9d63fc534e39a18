// An order that nothing speaks against is carried out on a whole book: it trades, its remainder rests or lapses, the statistics get its fills.
#![tactic(auto)]

ghost use Rattle.ledger.specs.Stock.{stock_of, Relent};
ghost use Rattle.ledger.specs.Desk.{read_book};
ghost use Rattle.fulfil.specs.Fulfils.{CanSettle, Settles, CanTrack, Tracks, Accepted, Fulfils};

use ledger::StoredBook;
use matching::Last;
use models::{OrderEvent, Price, Quantity};
use stats::Statistics;
use survey::{Outlook, Taker};
use trade::trade;

// What is left of an order rests behind all others at the price `at`, if there is one.
fn settle(book: &mut StoredBook<'_>, t: Taker, left: Quantity, at: Option<Price>)
    requires { CanSettle at t (stock_of book.old) }
    ensures lent { Relent book.old book.new }
    ensures settles { Settles at t left.0 (read_book (stock_of book.old)) (stock_of book.new) }
{
    if let Some(price) = at {
        book.rest(t.side, t.id, left, price);
    }
}

// The statistics after the fills of an order that was carried out.
fn tracked(statistics: Statistics, t: Taker, s: Outlook, last: Last) -> Statistics
    requires { CanTrack t s statistics }
    ensures { Tracks t s last statistics result }
{
    let totals = order::totals(t, s);
    // A sum may still have passed 2^64 - 1 where tracking is off: then nothing is kept of it.
    let (Some(worth), Some(filled)) = (totals.worth, totals.quantity) else {
        return statistics;
    };
    statistics.traded(Quantity(filled), worth, last.price, last.qty)
}

// An order that nothing speaks against is carried out.
pub fn carry(
    book: &mut StoredBook<'_>,
    statistics: &mut Statistics,
    fills: &mut [u64],
    t: Taker,
    s: Outlook,
    at: Option<Price>,
) -> OrderEvent
    requires { Accepted t s at (stock_of book.old) statistics.old fills.old }
    ensures lent { Relent book.old book.new }
    ensures fulfils { Fulfils t (stock_of book.old) statistics.old fills.old result (stock_of book.new) statistics.new fills.new }
{
    let last = trade(book, t, s.used, fills);
    settle(book, t, s.left, at);
    *statistics = tracked(*statistics, t, s, last);
    order::event(t, s)
}
