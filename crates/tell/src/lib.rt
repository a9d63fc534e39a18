// What the programs print in common, said once: an order, what the desk answers to it, fills, quotes. Everything goes to standard output, any value can be
// told, and what can't be written is passed over.
#![tactic(auto)]

use fields::Output;
use models::{FillMetadata, OrderEvent, OrderType, Price, Refusal, Side};
use reply::count_of;
use rows::Row;
use text::{LINE, put_event, put_fill};

// Sides and orders have no Display here: they are models'.
fn word(side: Side) -> &'static str {
    match side {
        Side::Bid => "bid",
        Side::Ask => "ask",
    }
}

// What came in: `bid 4: 8 at 104`, `bid 6: 12 at any price`, `cancel 1`.
pub fn order(rt: &impl Print, order: OrderType) {
    let _ = match order {
        OrderType::Market { id, side, qty } => {
            println!(rt; "{} {}: {} at any price", word(side), id.0, qty.0)
        }
        OrderType::Limit {
            id,
            side,
            qty,
            price,
        } => println!(rt; "{} {}: {} at {}", word(side), id.0, qty.0, price.0),
        OrderType::Cancel { id } => println!(rt; "cancel {}", id.0),
    };
}

pub fn tracking(rt: &impl Print, on: bool) {
    let word = if on { "on" } else { "off" };
    let _ = println!(rt; "tracking {word}");
}

// A fill's line. It stays beside `event`, five lines each: one function for both would take a closure that asks for room.
fn fill(rt: &impl Print, fill: FillMetadata) {
    let mut bytes = [0u8; LINE];
    let mut line = Output {
        bytes: &mut bytes,
        at: 0,
    };
    put_fill(&mut line, fill);
    let end = line.at;
    let _ = rt.write_all(&bytes[..end]);
}

// The first `count` fills of the rows lent, a line each; fewer where there are fewer rows.
pub fn fills(rt: &impl Print, rows: &[u64], count: usize) {
    for i in 0..count.min(FillMetadata::places(rows)) {
        fill(rt, FillMetadata::at(rows, i));
    }
}

// An event's own line, `Placed 1` or `Filled 4 8 2`: id, and where there are fills their quantity and number.
pub fn event(rt: &impl Print, event: OrderEvent) {
    let mut bytes = [0u8; LINE];
    let mut line = Output {
        bytes: &mut bytes,
        at: 0,
    };
    put_event(&mut line, event);
    let end = line.at;
    let _ = rt.write_all(&bytes[..end]);
}

// A refusal by its number, `Refused 4`.
pub fn refused(rt: &impl Print, refusal: Refusal) {
    let _ = println!(rt; "Refused {}", u64::from(refusal));
}

// A refusal; or the event and a line a fill.
pub fn answer(rt: &impl Print, answer: Result<OrderEvent, Refusal>, rows: &[u64]) {
    match answer {
        Ok(told) => {
            event(rt, told);
            fills(rt, rows, count_of(told));
        }
        Err(refusal) => refused(rt, refusal),
    }
}

// A quote or the spread, with the words in front of a price or those for its absence; or a refusal.
pub fn quote(rt: &impl Print, (name, absent): (&str, &str), quote: Result<Option<Price>, Refusal>) {
    let _ = match quote {
        Ok(Some(price)) => print!(rt; "{name}{}", price.0),
        Ok(None) => print!(rt; "{absent}"),
        Err(refusal) => print!(rt; " Refused {}", u64::from(refusal)),
    };
}
