// What an order would take from the makers, with nothing changed: the first of the two passes, from which the refusals are decided.
// `records` and `levels` are lent; `levels` has the rows of the side that the order meets, n of them used.
#![tactic(auto)]

ghost use Rattle.std.specs.Prelude.{◌≡◌, Bool, ℕ, ◌<◌, ◌≤◌};
ghost use Rattle.side.specs.Orders.{orders_in};
ghost use Rattle.rules.specs.Rules.{outcome};
ghost use Rattle.records.specs.Rows.{RecordAt};
ghost use Rattle.survey.specs.Taker.{taker_of, met_side, meets};
ghost use Rattle.survey.specs.Makers.{CanMatch};
ghost use Rattle.survey.specs.Surveyed.{met, surveyed};

use arena::{HEAD, ROW};
use models::{Id, Price, Quantity, Side};
use records::{NEXT, PRICE, QUANTITY, load};
use side::visit;
use sums::{plus, product};

// An order that comes in: it meets the prices as good as its limit, or any where it has none.
#[derive(Clone, Copy)]
pub struct Taker {
    pub id: Id,
    pub side: Side,
    pub limit: Option<Price>,
    pub qty: Quantity,
}

// What an order would do: what is left of it, how many fills it has, how many makers it uses up, and the sum of price times quantity
// where that hasn't passed 2^64 - 1.
#[derive(Clone, Copy)]
pub struct Outlook {
    pub left: Quantity,
    pub fills: usize,
    pub used: usize,
    pub worth: Option<u64>,
}

// Whether the order meets a price.
pub fn reaches(t: Taker, price: Price) -> bool
    ensures { result ≡ meets t price.0 }
{
    let Some(limit) = t.limit else {
        return true;
    };
    match t.side {
        Side::Bid => price.0 <= limit.0,
        Side::Ask => limit.0 <= price.0,
    }
}

// One maker more.
fn meet(records: &[u64], c: u64, s: Outlook) -> Outlook
    requires { RecordAt records.now c × (0 < s.left.0) × (s.fills < 18446744073709551615) × (s.used ≤ s.fills) }
    ensures { result ≡ met records.now c s }
{
    let quantity = load(records, QUANTITY, c);
    let price = Price(load(records, PRICE, c));
    let left = s.left.0;
    let fills = s.fills + 1;
    if quantity <= left {
        let worth = plus(s.worth, product(price, Quantity(quantity)));
        return Outlook {
            left: Quantity(left - quantity),
            fills,
            used: s.used + 1,
            worth,
        };
    }
    let worth = plus(s.worth, product(price, s.left));
    Outlook {
        left: Quantity(0),
        fills,
        used: s.used,
        worth,
    }
}

// What the order would do. Both walks stop at once when nothing of it is left.
pub fn survey(records: &[u64], levels: &[u64], n: usize, t: Taker) -> Outlook
    requires { CanMatch records.now levels.now n }
    ensures { (room : ℕ) (fnd : ℕ → Bool)
        → result ≡ surveyed (outcome (taker_of room t) (orders_in (met_side t) records.now fnd levels.now n)) }
{
    let mut s = Outlook {
        left: t.qty,
        fills: 0,
        used: 0,
        worth: Some(0),
    };
    if t.qty.0 == 0 {
        return s;
    }
    let makers = t.side.opposite();
    // The walks by hand, one within the other and the outer left by its label, are a form that document 01 names (docs/DECISIONS.md).
    'prices: for k in (1..=n).rev() {
        let at = visit(makers, n, k) * ROW;
        if !reaches(t, Price(levels[at])) {
            break 'prices;
        }
        let mut c = levels[at + HEAD];
        while c != 0 {
            s = meet(records, c, s);
            if s.left.0 == 0 {
                break 'prices;
            }
            c = load(records, NEXT, c);
        }
    }
    s
}
