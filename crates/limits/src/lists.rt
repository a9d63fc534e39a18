// What is tried, list by list; each starts with a fresh book.
use models::OrderType;
use models::Side::{Ask, Bid};
use script::{Step, cancel, limit, market};

// The largest number, 2^64 - 1; and 2^63, which twice is more.
const MOST: u64 = 18446744073709551615;

const HALF: u64 = 9223372036854775808;

// Buffers in numbers: a fill is five, a level two. A rest too short for a row is no place.
const TWO_FILLS: usize = 10;

const SHORT_OF_TWO_FILLS: usize = 9;

const ALL_LEVELS: usize = 258;

const ONE_LEVEL_SHORT: usize = 256;

const ONE_LEVEL: usize = 2;

const NO_LEVEL: usize = 1;

fn on(order: OrderType) -> Step {
    Step::Order(TWO_FILLS, order)
}

// 4: in a book that is full but for one order the 1,024th is accepted and the next isn't, until a cancel or a trade has made room.
pub fn orders() -> [Step; 9] {
    [
        on(limit(Bid, 1024, 1, 100)),
        on(limit(Bid, 1025, 1, 100)),
        on(market(Bid, 1026, 1)),
        on(cancel(7)),
        on(limit(Bid, 1027, 1, 100)),
        on(limit(Bid, 1028, 1, 100)),
        on(limit(Ask, 1029, 1, 100)),
        on(limit(Bid, 1030, 1, 100)),
        on(limit(Bid, 1031, 1, 100)),
    ]
}

// 5 and 6: on a side that is full but for one price the 128th is accepted and the 129th isn't; depth needs a place a price.
pub fn prices() -> [Step; 6] {
    [
        on(limit(Ask, 128, 1, 1128)),
        on(limit(Ask, 129, 1, 1129)),
        on(limit(Ask, 130, 1, 1128)),
        on(limit(Bid, 131, 1, 0)),
        Step::Depth(ONE_LEVEL_SHORT),
        Step::Depth(ALL_LEVELS),
    ]
}

// 7: a level's total of 2^64 - 1 is told and one more isn't; 6 comes first.
pub fn totals() -> [Step; 5] {
    [
        on(limit(Bid, 1, MOST, 5)),
        Step::Depth(ONE_LEVEL),
        on(limit(Bid, 2, 1, 5)),
        Step::Depth(ONE_LEVEL),
        Step::Depth(NO_LEVEL),
    ]
}

// 2: two fills need two places.
pub fn room() -> [Step; 4] {
    [
        on(limit(Ask, 1, 1, 100)),
        on(limit(Ask, 2, 1, 101)),
        Step::Order(SHORT_OF_TWO_FILLS, market(Bid, 3, 2)),
        on(market(Bid, 3, 2)),
    ]
}

// 3: a sum of 2^64 - 2 is recorded and 2^64 isn't; a volume of 2^64 - 1 is reached and not passed. The refused orders find a last trade that must stay.
// 2 comes first.
pub fn sums() -> [Step; 13] {
    [
        on(limit(Ask, 1, 2, HALF - 1)),
        on(market(Bid, 2, 2)),
        on(limit(Ask, 3, 1, HALF)),
        on(limit(Ask, 4, 1, HALF)),
        on(market(Bid, 5, 2)),
        Step::Order(SHORT_OF_TWO_FILLS, market(Bid, 5, 2)),
        on(limit(Ask, 6, MOST - 2, 0)),
        on(market(Bid, 7, MOST - 2)),
        on(limit(Ask, 8, 1, 0)),
        on(market(Bid, 9, 1)),
        Step::Tracking(false),
        on(market(Bid, 9, 1)),
        on(market(Bid, 5, 2)),
    ]
}
