// Carries out the orders that come in on standard input, and prints what the desk answers. The stored input and output are lobster's own, both made by
// compare/src/stored.rs: so the gate holds the proved desk to lobster's answers and needs no Rust.
// After an order's answer comes a line of figures: `ask 103 bid - spread - volume 8 last 8 103 3 4637229..`, the last trade as total, last price, last
// quantity and bits of the average.
// Numbers that mean no order, an order cut off, or a read that fails end the run with a line on standard error: nothing is dropped unsaid. A program
// here gives no exit status.
#![tactic(auto)]

mod input; // input.rt: a step out of standard input

use input::{Step, next_step};
use script::{FILLS, OwnDesk};
use stats::Statistics;
use stats::bits::bits_of;

fn tell_statistics(rt: &impl Print, statistics: Statistics) {
    let volume = statistics.traded_volume().0;
    let _ = match statistics.last_trade() {
        None => println!(rt; " volume {volume} last -"),
        Some(trade) => println!(rt;
            " volume {volume} last {} {} {} {}",
            trade.total_qty.0,
            trade.last_price.0,
            trade.last_qty.0,
            bits_of(trade.avg_price)
        ),
    };
}

fn figures(rt: &impl Print, desk: &OwnDesk) {
    let words = [
        ("ask ", "ask -"),
        (" bid ", " bid -"),
        (" spread ", " spread -"),
    ];
    desk.quotes(rt, words);
    tell_statistics(rt, desk.statistics);
}

// A step carried out and its answer told.
fn carry_out(rt: &impl Print, desk: &mut OwnDesk, step: Step) {
    match step {
        Step::Order(order) => desk.order(rt, FILLS, order),
        Step::Tracking(on) => {
            tell::tracking(rt, on);
            desk.track(on);
        }
    }
}

// The steps, one after another, to the end of the input. They are counted, so that the run ends whatever comes in.
fn main(rt: HostRuntime) {
    let mut desk = OwnDesk::fresh(&rt);
    let mut stdin = rt.stdin();
    for number in 1..=u64::MAX {
        match next_step(&mut stdin) {
            Ok(Some(step)) => carry_out(&rt, &mut desk, step),
            Ok(None) => return,
            Err(fault) => {
                let _ = eprintln!(rt; "replay: order {number}{fault}");
                return;
            }
        }
        figures(&rt, &desk);
    }
}
