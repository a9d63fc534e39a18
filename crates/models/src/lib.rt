// Lobster's models as values, under lobster's names (lobster 0.7.0, src/models.rs): sides, orders, events, fills, levels.
// What each means in the rule book's terms is said in specs/Readings.antt. Trades and statistics are in crate stats.
#![tactic(auto)]

ghost use Rattle.std.specs.Prelude.{◌≡◌};
ghost use Rattle.rules.specs.Rules as rule;
ghost use Rattle.models.specs.Readings.{side_of, side_number, IsSideOf, refusal_number};

// A price, a quantity and an id are three kinds of number: one can't be given in another's place.
#[derive(Clone, Copy, PartialEq, Eq)]
pub struct Id(pub u64);

#[derive(Clone, Copy, PartialEq, Eq)]
pub struct Quantity(pub u64);

#[derive(Clone, Copy, PartialEq, Eq)]
pub struct Price(pub u64);

#[derive(Clone, Copy, PartialEq, Eq)]
pub enum Side {
    Bid,
    Ask,
}

// The numbers of the sides where they pass as numbers, as document 02 gives them: on tapes, to C and in a program's input.
const BID: u64 = 0;

const ASK: u64 = 1;

// A side's number.
impl From<Side> for u64 {
    ghost from_gives = { λ side n. n ≡ side_number side };

    fn from(side: Side) -> u64 {
        match side {
            Side::Bid => BID,
            Side::Ask => ASK,
        }
    }
}

// The side of a number; any above 1 is refused.
impl TryFrom<u64> for Side {
    type Error = Refusal;

    ghost try_from_gives = { IsSideOf };

    fn try_from(number: u64) -> Result<Side, Refusal> {
        match number {
            BID => Ok(Side::Bid),
            ASK => Ok(Side::Ask),
            _ => Err(Refusal::WrongSide),
        }
    }
}

impl Side {
    pub fn opposite(self) -> Side
        ensures { side_of result ≡ rule.opposite (side_of self) }
    {
        match self {
            Side::Bid => Side::Ask,
            Side::Ask => Side::Bid,
        }
    }
}

// An order to be carried out.
#[derive(Clone, Copy)]
pub enum OrderType {
    Market {
        id: Id,
        side: Side,
        qty: Quantity,
    },
    Limit {
        id: Id,
        side: Side,
        qty: Quantity,
        price: Price,
    },
    Cancel {
        id: Id,
    },
}

// What came of an order. `fills` is how many fills there are; they themselves are rows of the lent buffer.
#[derive(Clone, Copy)]
pub enum OrderEvent {
    Unfilled {
        id: Id,
    },
    Placed {
        id: Id,
    },
    Canceled {
        id: Id,
    },
    PartiallyFilled {
        id: Id,
        filled_qty: Quantity,
        fills: usize,
    },
    Filled {
        id: Id,
        filled_qty: Quantity,
        fills: usize,
    },
}

// A fill: taker, maker, quantity, price, the taker's side, and whether the maker was used up.
#[derive(Clone, Copy)]
pub struct FillMetadata {
    pub order_1: Id,
    pub order_2: Id,
    pub qty: Quantity,
    pub price: Price,
    pub taker_side: Side,
    pub total_fill: bool,
}

// An occupied price with its total quantity.
#[derive(Clone, Copy)]
pub struct BookLevel {
    pub price: Price,
    pub qty: Quantity,
}

// Depth: the levels asked for, and how many asks and bids were written to the lent buffer, the asks first.
#[derive(Clone, Copy)]
pub struct BookDepth {
    pub levels: usize,
    pub asks: usize,
    pub bids: usize,
}

// Why a call is refused. Documents 01 and 02 number the refusals; C and the programs' texts give that number.
#[derive(Clone, Copy, PartialEq, Eq)]
pub enum Refusal {
    NotWhole,
    FillsOutnumberPlaces,
    SumTooLarge,
    NoOrderLeft,
    NoPriceLeft,
    LevelsOutnumberPlaces,
    TotalTooLarge,
    UnknownTag,
    WrongLength,
    WrongSide,
    CutOff,
    ShortRoom,
}

// A refusal's number.
impl From<Refusal> for u64 {
    ghost from_gives = { λ refusal n. n ≡ refusal_number refusal };

    fn from(refusal: Refusal) -> u64 {
        match refusal {
            Refusal::NotWhole => 1,
            Refusal::FillsOutnumberPlaces => 2,
            Refusal::SumTooLarge => 3,
            Refusal::NoOrderLeft => 4,
            Refusal::NoPriceLeft => 5,
            Refusal::LevelsOutnumberPlaces => 6,
            Refusal::TotalTooLarge => 7,
            Refusal::UnknownTag => 8,
            Refusal::WrongLength => 9,
            Refusal::WrongSide => 10,
            Refusal::CutOff => 11,
            Refusal::ShortRoom => 19,
        }
    }
}
