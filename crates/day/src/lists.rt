// The trading day and D1 to D4 as lists of steps; each starts with a fresh book.
use models::OrderType;
use models::Side::{Ask, Bid};
use script::{Step, cancel, limit, market};

// D3: the highest price at which 2 can be recorded, 2^63 - 1, and the next.
const LAST: u64 = 9223372036854775807;

const OVER: u64 = 9223372036854775808;

// Buffers in numbers: a fill is five, a level two.
const ENOUGH: usize = 50;

pub const ONE_FILL: usize = 5;

pub const TWO_FILLS: usize = 10;

const TWO_LEVELS: usize = 4;

const THREE_LEVELS: usize = 6;

// An order with room for its fills.
fn on(order: OrderType) -> Step {
    Step::Order(ENOUGH, order)
}

// T1 to T12.
pub fn trading_day() -> [Step; 12] {
    [
        on(limit(Ask, 1, 10, 105)),
        on(limit(Ask, 2, 5, 103)),
        on(limit(Ask, 3, 7, 103)),
        on(limit(Bid, 4, 8, 104)),
        on(limit(Bid, 5, 6, 103)),
        on(market(Bid, 6, 12)),
        on(market(Bid, 7, 1)),
        on(cancel(1)),
        on(limit(Ask, 8, 0, 1)),
        on(market(Ask, 10, 0)),
        on(limit(Ask, 9, 1, 103)),
        on(cancel(5)),
    ]
}

// Two orders of one id: a cancel removes the newer, and the older can still trade.
pub fn d1() -> [Step; 9] {
    [
        on(limit(Bid, 7, 3, 50)),
        on(limit(Bid, 7, 4, 49)),
        Step::Depth(THREE_LEVELS),
        on(cancel(7)),
        Step::Depth(THREE_LEVELS),
        on(cancel(7)),
        Step::Depth(THREE_LEVELS),
        on(market(Ask, 8, 3)),
        Step::Depth(THREE_LEVELS),
    ]
}

// Every occupied price with its total: three places suffice, two don't.
pub fn d2() -> [Step; 6] {
    [
        on(limit(Bid, 1, 5, 10)),
        on(limit(Bid, 2, 2, 11)),
        on(limit(Bid, 3, 3, 10)),
        on(limit(Ask, 4, 1, 20)),
        Step::Depth(THREE_LEVELS),
        Step::Depth(TWO_LEVELS),
    ]
}

// The sum of price times quantity up to 2^64 - 1.
pub fn d3() -> [Step; 2] {
    [on(limit(Ask, 1, 2, LAST)), on(market(Bid, 2, 2))]
}

// The sum beyond it; and beyond it with tracking off.
pub fn d3_beyond() -> [Step; 4] {
    [
        on(limit(Ask, 1, 2, OVER)),
        on(market(Bid, 2, 2)),
        Step::Tracking(false),
        on(market(Bid, 2, 2)),
    ]
}

// The whole average; and one place for two fills.
pub fn d4() -> [Step; 4] {
    [
        on(limit(Ask, 1, 2, 100)),
        on(limit(Ask, 2, 1, 101)),
        Step::Order(ONE_FILL, market(Bid, 3, 3)),
        Step::Order(TWO_FILLS, market(Bid, 3, 3)),
    ]
}
