// What may be asked of a book at any size: quotes, depth, an order by its id. Each demands nothing of its caller: what isn't a whole book of the given
// size is refused as that. Nothing in the book changes.
#![tactic(auto)]

ghost use Rattle.std.specs.Prelude.{◌≡◌};
ghost use Rattle.rules.specs.Rules as rule;
ghost use Rattle.models.specs.Readings.{side_of};
ghost use Rattle.ledger.specs.Stock.{stock_in};
ghost use Rattle.ledger.specs.Desk.{Tidy, read_book};
ghost use Rattle.whole.specs.Whole.{size_of};
ghost use Rattle.depth.specs.Answers.{quote_of};
ghost use Rattle.questions.specs.Questions.{best_on, Below, Tells, spread_of, Shows, Finds};

use depth::{Lookup, look, put_depth, totals_fit};
use ledger::BookView;
use models::{BookDepth, BookLevel, Id, Price, Refusal, Side};
use rows::Row;
use whole::{Size, known};

// The best price of a side of a book that is known to be whole. An arm for each side: a function that gives a side's rows would say the same two cases.
fn quote(view: BookView<'_>, side: Side) -> Option<Price>
    requires { Tidy (stock_in view) }
    ensures { quote_of result ≡ best_on (side_of side) (read_book (stock_in view.entry)) }
{
    match side {
        Side::Bid => depth::best(view.bids, view.book.bids, Side::Bid),
        Side::Ask => depth::best(view.asks, view.book.asks, Side::Ask),
    }
}

// The best price of a side, if it has one: the lowest ask, or the highest bid.
pub fn best(size: Size, view: BookView<'_>, side: Side) -> Result<Option<Price>, Refusal>
    ensures { Tells (size_of size) (best_on (side_of side)) (stock_in view.entry) result }
{
    known(size, view)?;
    Ok(quote(view, side))
}

// What lies between the two, where both are there.
fn between(bid: Option<Price>, ask: Option<Price>) -> Option<Price>
    requires { Below bid ask }
    ensures { quote_of result ≡ rule.spread (quote_of bid) (quote_of ask) }
{
    let b = bid?;
    let a = ask?;
    Some(Price(a.0 - b.0))
}

// The lowest ask less the highest bid, where both are there.
pub fn spread(size: Size, view: BookView<'_>) -> Result<Option<Price>, Refusal>
    ensures { Tells (size_of size) spread_of (stock_in view.entry) result }
{
    known(size, view)?;
    Ok(between(quote(view, Side::Bid), quote(view, Side::Ask)))
}

// Every occupied price with its total: asks from the start of `out`, then bids, both ascending.
pub fn depth(
    size: Size,
    view: BookView<'_>,
    levels: usize,
    out: &mut [u64],
) -> Result<BookDepth, Refusal>
    ensures { Shows (size_of size) levels (stock_in view.entry) out.old result out.new }
{
    known(size, view)?;
    let nb = view.book.bids;
    let na = view.book.asks;
    if BookLevel::places(out) < na + nb {
        return Err(Refusal::LevelsOutnumberPlaces);
    }
    if !totals_fit(view.records, view.asks, na) || !totals_fit(view.records, view.bids, nb) {
        return Err(Refusal::TotalTooLarge);
    }
    put_depth(view, out);
    Ok(BookDepth {
        levels,
        asks: na,
        bids: nb,
    })
}

// The order that the search finds under the id, with the number of places that it looked at.
pub fn get(size: Size, view: BookView<'_>, id: Id) -> Result<Lookup, Refusal>
    ensures { Finds (size_of size) id.0 (stock_in view.entry) result }
{
    known(size, view)?;
    Ok(look(view.search, view.records, id))
}
