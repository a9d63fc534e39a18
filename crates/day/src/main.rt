// Document 01's trading day on the desk: T1 to T12 on one book with tracking on, then D1 to D4, each on a fresh book.
// A line says what came in; then comes the answer, a line a fill, and where the book and the statistics stand.
#![tactic(auto)]

mod lists; // lists.rt: what is done, in order

use lists::{ONE_FILL, TWO_FILLS};
use models::{BookLevel, OrderType};
use rows::Row;
use script::{MARK, OwnDesk, SHOWN, Step};
use stats::Statistics;

// Of which list a step is: of the trading day, or of one of D1 to D4.
#[derive(Clone, Copy)]
enum List {
    TradingDay,
    D(u64),
}

fn tell_statistics(rt: &impl Print, statistics: Statistics) {
    let volume = statistics.traded_volume().0;
    let _ = match statistics.last_trade() {
        None => println!(rt; "volume {volume}; no last trade"),
        Some(trade) => println!(rt;
            "volume {volume}; last trade {}, whole average {}",
            trade.total_qty.0, trade.whole_avg_price.0
        ),
    };
}

// Where the book and the statistics stand after an order; D1 and D2 look at depth instead.
fn stand(rt: &impl Print, desk: &OwnDesk, list: List) {
    if let List::D(1 | 2) = list {
        return;
    }
    let words = [
        ("ask ", "no ask"),
        (", bid ", ", no bid"),
        (", spread ", ", no spread"),
    ];
    desk.quotes(rt, words);
    let _ = print!(rt; "; ");
    tell_statistics(rt, desk.statistics);
}

// Depth for one level, with a buffer of `room` numbers: each level on a line, the asks first.
fn depth(rt: &impl Print, desk: &OwnDesk, room: usize) {
    let _ = println!(rt; "depth for 1 level, places {}", room / 2);
    let mut levels = [MARK; SHOWN];
    match desk.depth(&mut levels[..room.min(SHOWN)]) {
        Ok(depth) => {
            let _ = println!(rt; "levels {}", depth.levels);
            for i in 0..BookLevel::places(&levels) {
                let side = if i < depth.asks {
                    "ask"
                } else if i - depth.asks < depth.bids {
                    "bid"
                } else {
                    break;
                };
                let level = BookLevel::at(&levels, i);
                let _ = println!(rt; "{side} {}: {}", level.price.0, level.qty.0);
            }
        }
        Err(refusal) => tell::refused(rt, refusal),
    }
}

// What comes in, with its place in document 01: T and the row, or D and the list.
fn announce(rt: &impl Print, list: List, row: usize, room: usize, order: OrderType) {
    let _ = match room {
        ONE_FILL => println!(rt; "one place for fills"),
        TWO_FILLS => println!(rt; "two places for fills"),
        _ => Ok(()),
    };
    let _ = match list {
        List::TradingDay => print!(rt; "T{row:<3}"),
        List::D(number) => print!(rt; "D{number:<3}"),
    };
    tell::order(rt, order);
}

// The steps of a list, one after another, on a fresh book; its rows are counted from 1.
fn run(rt: &impl Print, list: List, tracking: bool, steps: &[Step]) {
    let mut desk = OwnDesk::fresh(rt);
    desk.track(tracking);
    for (row, step) in (1..).zip(steps) {
        match *step {
            Step::Order(room, order) => {
                announce(rt, list, row, room, order);
                desk.order(rt, room, order);
                stand(rt, &desk, list);
            }
            Step::Tracking(on) => {
                tell::tracking(rt, on);
                desk.track(on);
            }
            Step::Depth(room) => depth(rt, &desk, room),
        }
    }
}

fn main(rt: HostRuntime) {
    run(&rt, List::TradingDay, true, &lists::trading_day());
    run(&rt, List::D(1), false, &lists::d1());
    run(&rt, List::D(2), false, &lists::d2());
    run(&rt, List::D(3), true, &lists::d3());
    run(&rt, List::D(3), true, &lists::d3_beyond());
    run(&rt, List::D(4), true, &lists::d4());
}
