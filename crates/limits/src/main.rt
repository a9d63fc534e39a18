// The refusals 2 to 7 at their limits: what is still accepted and what is refused just beyond. Of each refusal crate kept says whether it changed anything.
#![tactic(auto)]

mod lists; // lists.rt: what is tried, in order

use models::OrderType;
use models::Side::{Ask, Bid};
use script::{FILLS, OwnDesk, Step, limit};

// A full book but for one order, and a full side but for one price.
const ORDERS_BUT_ONE: u64 = 1023;

const PRICES_BUT_ONE: u64 = 127;

// The first of many asks is at the price after this.
const BASE: u64 = 1000;

// A fresh book for what is tried.
fn begun(rt: &impl Print, title: &str, tracking: bool) -> OwnDesk {
    let _ = println!(rt; "{title}");
    let mut desk = OwnDesk::fresh(rt);
    desk.track(tracking);
    desk
}

// Order i of many at one price: a bid at 100.
fn together(i: u64) -> OrderType {
    limit(Bid, i, 1, 100)
}

// Order i of many: an ask at a price of its own.
fn apart(i: u64) -> OrderType {
    limit(Ask, i, 1, BASE + i % BASE)
}

// The orders 1 to n, of which nothing is told but where the book stands after them.
fn many<F: Fn(u64) -> OrderType>(rt: &impl Print, desk: &mut OwnDesk, n: u64, numbered: F)
    requires { F.IsAlwaysCallable numbered }
{
    for i in 1..=n {
        let _ = desk.execute(&mut [0; FILLS], numbered(i));
    }
    let book = desk.book;
    let _ = println!(rt; "orders 1 to {n}");
    let _ = println!(rt;
        "resting {}, bid prices {}, ask prices {}",
        book.resting, book.bids, book.asks
    );
}

// The steps of a list, one after another.
fn run(rt: &impl Print, mut desk: OwnDesk, steps: &[Step]) {
    for step in steps {
        match *step {
            Step::Order(room, order) => kept::order(rt, &mut desk, room, order),
            Step::Tracking(on) => {
                tell::tracking(rt, on);
                desk.track(on);
            }
            Step::Depth(room) => kept::depth(rt, &desk, room),
        }
    }
}

fn main(rt: HostRuntime) {
    let mut orders = begun(&rt, "4: orders that rest", false);
    many(&rt, &mut orders, ORDERS_BUT_ONE, together);
    run(&rt, orders, &lists::orders());
    let mut prices = begun(
        &rt,
        "5 and 6: prices of a side, and places for depth",
        false,
    );
    many(&rt, &mut prices, PRICES_BUT_ONE, apart);
    run(&rt, prices, &lists::prices());
    let totals = begun(&rt, "7: the total of a level", false);
    run(&rt, totals, &lists::totals());
    let room = begun(&rt, "2: places for fills", true);
    run(&rt, room, &lists::room());
    let sums = begun(&rt, "3: sums and volume", true);
    run(&rt, sums, &lists::sums());
}
