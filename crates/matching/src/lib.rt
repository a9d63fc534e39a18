// An order carried out on the makers: the second of the two passes. Fills are written and makers' quantities fall; a used-up maker holds 0 until it leaves.
// `records` and `fills` are lent and changed; `levels` has the rows of the side that the order meets, n of them used.
#![tactic(auto)]

ghost use Rattle.records.specs.Rows.{RecordAt};
ghost use Rattle.rows.specs.Rows.{Place, fill_row};
ghost use Rattle.matching.specs.Carried.{CanCarry, Carries, Gives};

use arena::{HEAD, ROW};
use models::{FillMetadata, Id, Price, Quantity};
use records::{ID, NEXT, PRICE, QUANTITY, load, store};
use rows::Row;
use side::visit;
use survey::{Taker, reaches};

// The last fill's price and quantity; both are 0 where there is none, as the rules have it.
#[derive(Clone, Copy)]
pub struct Last {
    pub price: Price,
    pub qty: Quantity,
}

// What is left of an order, its fills so far, and the last of them.
#[derive(Clone, Copy)]
pub struct Progress {
    pub left: Quantity,
    pub fills: usize,
    pub last: Last,
}

// The maker of code `c` gives what it can: its quantity falls, and the fill is written.
fn give(records: &mut [u64], c: u64, t: Taker, fills: &mut [u64], p: Progress) -> Progress
    requires { RecordAt records.old c × Place fill_row fills.old p.fills }
    ensures { Gives t c p records.old fills.old records.new fills.new result }
{
    let quantity = load(records, QUANTITY, c);
    let maker = Id(load(records, ID, c));
    let price = Price(load(records, PRICE, c));
    let left = p.left.0;
    let given = quantity.min(left);
    let qty = Quantity(given);
    let fill = FillMetadata {
        order_1: t.id,
        order_2: maker,
        qty,
        price,
        taker_side: t.side,
        total_fill: quantity <= left,
    };
    fill.put(fills, p.fills);
    let kept = quantity - given;
    store(records, QUANTITY, c, kept);
    Progress {
        left: Quantity(left - given),
        fills: p.fills + 1,
        last: Last { price, qty },
    }
}

// The order carried out. Both walks stop at once when nothing of it is left.
pub fn carry_out(records: &mut [u64], levels: &[u64], n: usize, t: Taker, fills: &mut [u64]) -> Last
    requires { CanCarry t records.old levels.now n fills.old }
    ensures { Carries t records.old levels.now n fills.old records.new fills.new result }
{
    let mut p = Progress {
        left: t.qty,
        fills: 0,
        last: Last {
            price: Price(0),
            qty: Quantity(0),
        },
    };
    if t.qty.0 == 0 {
        return p.last;
    }
    let makers = t.side.opposite();
    // The walks by hand, one within the other and the outer left by its label, are a form that document 01 names (docs/DECISIONS.md).
    'prices: for k in (1..=n).rev() {
        let at = visit(makers, n, k) * ROW;
        if !reaches(t, Price(levels[at])) {
            break 'prices;
        }
        let mut c = levels[at + HEAD];
        while c != 0 {
            let next = load(records, NEXT, c);
            p = give(records, c, t, fills, p);
            if p.left.0 == 0 {
                break 'prices;
            }
            c = next;
        }
    }
    p.last
}
