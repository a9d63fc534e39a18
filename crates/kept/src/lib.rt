// Refusals that change nothing: an order or depth told, and for a refusal whether everything is as it was. After a refused order the book, the
// statistics with the last trade, every number of the storage and the buffer are compared with what they were; after a refused depth its buffer (the
// rest is lent by shared reference, which can't change).
#![tactic(auto)]

ghost use Rattle.std.specs.Prelude.{Decides};
ghost use Rattle.kept.specs.Unchanged.{Unchanged};

use models::{OrderEvent, OrderType, Refusal};
use numbers::written;
use script::{FILLS, MARK, OwnDesk, SHOWN};

// Whether a buffer holds nothing but marks.
pub fn is_unwritten(buffer: &[u64]) -> bool {
    buffer.iter().all(|n| *n == MARK)
}

// Whether two desks are the same. An average counts by its bits: `==` would take no NaN for itself, and 0 for -0.
pub fn same_desk(a: &OwnDesk, b: &OwnDesk) -> bool
    ensures { Decides result (Unchanged a.now b.now) }
{
    written(a.book, a.statistics) == written(b.book, b.statistics)
        && a.records == b.records
        && a.bids == b.bids
        && a.asks == b.asks
        && a.search == b.search
}

// A refusal by its number, and whether it changed anything.
pub fn refused(rt: &impl Print, number: u64, kept: bool) {
    let words = if kept { "nothing changed" } else { "CHANGED" };
    let _ = println!(rt; "Refused {number}, {words}");
}

// An event; or a refusal.
pub fn answer(rt: &impl Print, answer: Result<OrderEvent, Refusal>, kept: bool) {
    match answer {
        Ok(event) => tell::event(rt, event),
        Err(refusal) => refused(rt, u64::from(refusal), kept),
    }
}

// An order or a cancel, with a buffer of `room` numbers for its fills, and its answer; for a refusal, whether everything is as it was.
pub fn order(rt: &impl Print, desk: &mut OwnDesk, room: usize, order: OrderType) {
    tell::order(rt, order);
    let before = *desk;
    let mut fills = [MARK; FILLS];
    let told = desk.execute(&mut fills[..room.min(FILLS)], order);
    let kept = same_desk(desk, &before) && is_unwritten(&fills);
    answer(rt, told, kept);
}

// Depth with a buffer of `room` numbers; for a refusal, whether that is as it was.
pub fn depth(rt: &impl Print, desk: &OwnDesk, room: usize) {
    let _ = println!(rt; "depth, numbers lent {room}");
    let mut levels = [MARK; SHOWN];
    match desk.depth(&mut levels[..room.min(SHOWN)]) {
        Ok(depth) => {
            let _ = println!(rt; "asks {}, bids {}", depth.asks, depth.bids);
        }
        Err(refusal) => refused(rt, u64::from(refusal), is_unwritten(&levels)),
    }
}
