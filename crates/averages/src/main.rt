// The statistics, run: averages against bit patterns that Rust's own `as f64` and division gave; document 01's D3; and the fills of the trading day,
// recorded by value and by loan and compared. Each line says what was found, and `equal` or `DIFFERS`.
#![tactic(auto)]

mod cases; // cases.rt: S, quantity and the bits of their average

ghost use Rattle.stats.specs.Statistics.{fills_in, Follows};

use ledger::OrderBook;
use models::{Price, Quantity, Refusal};
use numbers::written;
use stats::{Statistics, Trade, bits, door};

// The fills of the trading day as rows: taker, maker, quantity, price, side and use.
const T4: [u64; 10] = [4, 2, 5, 103, 1, 4, 3, 3, 103, 0];

const T5: [u64; 5] = [5, 3, 4, 103, 1];

const T6: [u64; 5] = [6, 1, 10, 105, 1];

const T11: [u64; 5] = [9, 5, 1, 103, 2];

// D3: 2 at 2^63 - 1, and 2 at 2^63.
const WITHIN: [u64; 5] = [2, 1, 2, 9223372036854775807, 1];

const BEYOND: [u64; 5] = [2, 1, 2, 9223372036854775808, 1];

// A quantity of 2^64 - 1 at price 1; 2^64 in two fills at price 0; and a fill of nothing.
const MOST: [u64; 5] = [2, 1, 18446744073709551615, 1, 1];

const ONE_MORE: [u64; 10] = [2, 1, 18446744073709551615, 0, 1, 2, 1, 1, 0, 1];

const NOTHING: [u64; 5] = [2, 1, 0, 50, 1];

// The door, for statistics that are kept by value.
fn by_loan(before: Statistics, fills: &[u64], count: usize) -> (Result<(), Refusal>, Statistics)
    ensures { Follows before (fills_in fills.now count) result.0 result.1 }
{
    let mut statistics = before;
    let answer = door::record_fills(&mut statistics, fills, count);
    (answer, statistics)
}

fn verdict(same: bool) -> &'static str {
    if same { "equal" } else { "DIFFERS" }
}

// One case: the average that the library finds, and whether it is the stored one.
fn case(rt: &impl Print, worth: u64, qty: u64, stored: u64) {
    let found = bits::bits_of(stats::average(worth, Quantity(qty)));
    let verdict = verdict(found == stored);
    let _ = println!(rt; "average of {worth} by {qty}: {found:016x} {verdict}");
}

fn averages(rt: &impl Print, cases: &[(u64, u64, u64)]) {
    for &(worth, qty, stored) in cases {
        case(rt, worth, qty, stored);
    }
}

// The number of an answer: 0 where nothing is refused.
fn number_of(answer: Result<(), Refusal>) -> u64 {
    answer.err().map_or(0, u64::from)
}

fn tell_trade(rt: &impl Print, t: Trade) {
    let Quantity(total) = t.total_qty;
    let average = bits::bits_of(t.avg_price);
    let Price(whole) = t.whole_avg_price;
    let Quantity(last) = t.last_qty;
    let Price(price) = t.last_price;
    let _ = print!(rt;
        ", last trade {total}, average {average:016x}, whole average {whole}, last fill {last} at {price}"
    );
}

// Whether two statistics are the same, as numbers: an average by its bits.
fn same(a: Statistics, b: Statistics) -> bool {
    written(OrderBook::default(), a) == written(OrderBook::default(), b)
}

// Fills are recorded by value and by loan: what came of it, and whether it is the same. What the loan left is handed on.
fn record(
    rt: &impl Print,
    before: Statistics,
    label: &str,
    fills: &[u64],
    count: usize,
) -> Statistics {
    let by_value = before.recorded(fills, count);
    let answer = by_value.map(|_| ());
    let after = by_value.unwrap_or(before);
    let (lent_answer, lent_after) = by_loan(before, fills, count);
    let number = number_of(answer);
    let volume = after.traded_volume().0;
    let _ = print!(rt; "{label}: {number}, volume {volume}");
    match after.last_trade() {
        None => {
            let _ = print!(rt; ", no last trade");
        },
        Some(t) => tell_trade(rt, t),
    }
    let verdict = verdict(answer == lent_answer && same(after, lent_after));
    let _ = println!(rt; "; by loan {verdict}");
    lent_after
}

fn fresh(tracking: bool) -> Statistics {
    Statistics::fresh().track_stats(tracking)
}

// S up to 2^64 - 1, and beyond.
fn largest_worth(rt: &impl Print) {
    let b = record(rt, fresh(true), "D3, 2 at 2^63 - 1", &WITHIN, 1);
    let c = record(rt, b, "D3, 2 at 2^63", &BEYOND, 1);
    let d = record(rt, c, "D3 again, 2 at 2^63 - 1", &WITHIN, 1);
    record(rt, d, "nothing at 50", &NOTHING, 1);
}

fn untracked(rt: &impl Print) {
    record(rt, fresh(false), "D3, tracking off", &BEYOND, 1);
}

// A volume up to 2^64 - 1, and beyond.
fn largest_volume(rt: &impl Print) {
    let b = record(rt, fresh(true), "2^64 - 1 at 1", &MOST, 1);
    record(rt, b, "T6 after it", &T6, 1);
    record(rt, fresh(true), "2^64 at 0", &ONE_MORE, 2);
}

fn morning(rt: &impl Print) -> Statistics {
    let b = record(rt, fresh(true), "T4", &T4, 2);
    let c = record(rt, b, "T5", &T5, 1);
    record(rt, c, "T6", &T6, 1)
}

fn afternoon(rt: &impl Print, b: Statistics) {
    let c = record(rt, b, "T7", &T4, 0);
    let d = record(rt, c, "T11", &T11, 1);
    record(rt, d, "all rows of T4, said to be nine", &T4, 9);
}

fn main(rt: HostRuntime) {
    averages(&rt, &cases::CASES);
    largest_worth(&rt);
    untracked(&rt);
    largest_volume(&rt);
    afternoon(&rt, morning(&rt));
}
