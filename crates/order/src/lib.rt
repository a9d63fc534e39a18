// What is decided of an order from its outlook: the lowest refusal that applies, and the event. That no more is left than was wanted stands in three clauses:
// an outlook by itself has no order to compare with.
#![tactic(auto)]

ghost use Rattle.std.specs.Prelude.{◌≡◌, ◌≤◌};
ghost use Rattle.models.specs.Readings.{event_of};
ghost use Rattle.stats.specs.Statistics.{refusal_in};
ghost use Rattle.order.specs.Decided.{filled, remains, totals_by, decided, event_by};

use models::{OrderEvent, Price, Quantity, Refusal};
use stats::{Statistics, Totals};
use survey::{Outlook, Taker};

// The price at which a remainder would rest, if one would.
pub fn standing(t: Taker, s: Outlook) -> Option<Price>
    ensures { result ≡ remains t.limit s.left.0 }
{
    if s.left.0 == 0 { None } else { t.limit }
}

// The totals of its fills.
pub fn totals(t: Taker, s: Outlook) -> Totals
    requires { s.left.0 ≤ t.qty.0 }
    ensures { result ≡ totals_by t s }
{
    Totals {
        worth: s.worth,
        quantity: Some(t.qty.0 - s.left.0),
    }
}

// The lowest refusal that applies, if one does.
pub fn checked(
    places: usize,
    t: Taker,
    s: Outlook,
    statistics: Statistics,
    at: Option<Price>,
    full: bool,
    crowded: bool,
) -> Result<(), Refusal>
    requires { s.left.0 ≤ t.qty.0 }
    ensures { refusal_in result ≡ decided places t s statistics at full crowded }
{
    if places < s.fills {
        return Err(Refusal::FillsOutnumberPlaces);
    }
    if statistics.too_large(s.fills, totals(t, s)) {
        return Err(Refusal::SumTooLarge);
    }
    match at {
        Some(_) if full => Err(Refusal::NoOrderLeft),
        Some(_) if crowded => Err(Refusal::NoPriceLeft),
        _ => Ok(()),
    }
}

// What the order is answered.
pub fn event(t: Taker, s: Outlook) -> OrderEvent
    requires { s.left.0 ≤ t.qty.0 }
    ensures { event_of result ≡ event_by t s.fills s.left.0 (filled t s) }
{
    let id = t.id;
    let fills = s.fills;
    if fills == 0 {
        return match t.limit {
            Some(_) => OrderEvent::Placed { id },
            None => OrderEvent::Unfilled { id },
        };
    }
    let filled_qty = Quantity(t.qty.0 - s.left.0);
    if s.left.0 == 0 {
        return OrderEvent::Filled {
            id,
            filled_qty,
            fills,
        };
    }
    OrderEvent::PartiallyFilled {
        id,
        filled_qty,
        fills,
    }
}
