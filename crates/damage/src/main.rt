// Refusal 1: calls on books that aren't whole and over storage of other lengths. Crate kept says of each refused order and depth whether it changed
// anything; a refused fresh book is shown to leave all four slices as they were; a quote is lent nothing that it could change.
#![tactic(auto)]

mod harms; // harms.rt: single numbers of a desk changed
mod lengths; // lengths.rt: storage of other lengths

use harms::{HARMS, Harm};
use models::OrderType;
use models::Side::{Ask, Bid};
use script::{FILLS, OwnDesk, SHOWN, cancel, limit, market};

// Asks of 5 and 3 at 105 and a bid of 4 at 100.
fn three(rt: &impl Print) -> OwnDesk {
    let mut desk = OwnDesk::fresh(rt);
    kept::order(rt, &mut desk, FILLS, limit(Ask, 1, 5, 105));
    kept::order(rt, &mut desk, FILLS, limit(Ask, 2, 3, 105));
    kept::order(rt, &mut desk, FILLS, limit(Bid, 3, 4, 100));
    desk
}

// On a copy with a damage: the three quotes, depth, and an order or a cancel.
fn attempt(rt: &impl Print, whole: &OwnDesk, harm: Harm, order: OrderType) {
    let mut desk = harm.done_to(whole);
    let _ = print!(rt; "{harm}:");
    desk.quotes(
        rt,
        [
            (" ask ", " no ask"),
            (" bid ", " no bid"),
            (" spread ", " no spread"),
        ],
    );
    let _ = println!(rt; "");
    kept::depth(rt, &desk, SHOWN);
    kept::order(rt, &mut desk, FILLS, order);
}

// The damages, with a market order, a limit order and a cancel in turn; then the lengths.
fn main(rt: HostRuntime) {
    let whole = three(&rt);
    let orders = [market(Bid, 4, 1), limit(Bid, 4, 1, 1), cancel(3)];
    for (harm, order) in HARMS.iter().zip(orders.iter().cycle()) {
        attempt(&rt, &whole, *harm, *order);
    }
    for sizes in lengths::SHORT {
        lengths::fresh(&rt, sizes);
        lengths::withdraw(&rt, &whole, sizes);
    }
    for sizes in lengths::LONG {
        lengths::fresh(&rt, sizes);
    }
}
