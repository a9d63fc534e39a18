// Orders on a tape: each is a field whose tag says the kind. What a tape is and says is defined here (specs/Orders.antt, specs/Tape.antt), and what holds
// of whole tapes is proved; crate reader reads an order at a place, crate writer writes one.
#![tactic(auto)]

ghost use Rattle.std.specs.Prelude.{◌≡◌};
ghost use Rattle.tape.specs.Orders.{length_of, tag_for, tag_of, IsKindOf};

use models::{OrderType, Refusal};

// The kinds of order.
#[derive(Clone, Copy, PartialEq, Eq)]
pub enum Kind {
    Market,
    Limit,
    Cancel,
}

// Their tags, which document 02 gives.
const MARKET: u64 = 1;

const LIMIT: u64 = 2;

const CANCEL: u64 = 3;

// Numbers have 8 bytes.
pub const NUMBER: usize = 8;

// The longest field: tag, length, and the value of a limit order.
pub const LONGEST: usize = 28;

// An order that was read, with the place behind it.
#[derive(Clone, Copy)]
pub struct Entry {
    pub order: OrderType,
    pub next: usize,
}

// Why a field is refused, with its place.
#[derive(Clone, Copy)]
pub struct Fault {
    pub refusal: Refusal,
    pub place: usize,
}

// A kind's tag.
impl From<Kind> for u64 {
    ghost from_gives = { λ kind n. n ≡ tag_of kind };

    fn from(kind: Kind) -> u64 {
        match kind {
            Kind::Market => MARKET,
            Kind::Limit => LIMIT,
            Kind::Cancel => CANCEL,
        }
    }
}

// The kind of a tag; any other is refused.
impl TryFrom<u64> for Kind {
    type Error = Refusal;

    ghost try_from_gives = { IsKindOf };

    #[tactic(auto, unfolding(crate::specs::Orders::length_of))]
    fn try_from(tag: u64) -> Result<Kind, Refusal> {
        match tag {
            MARKET => Ok(Kind::Market),
            LIMIT => Ok(Kind::Limit),
            CANCEL => Ok(Kind::Cancel),
            _ => Err(Refusal::UnknownTag),
        }
    }
}

// An order's kind.
impl From<OrderType> for Kind {
    ghost from_gives = { λ order kind. tag_of kind ≡ tag_for order };

    fn from(order: OrderType) -> Kind {
        match order {
            OrderType::Market { .. } => Kind::Market,
            OrderType::Limit { .. } => Kind::Limit,
            OrderType::Cancel { .. } => Kind::Cancel,
        }
    }
}

impl Kind {
    // The length of a value.
    #[tactic(auto, unfolding(crate::specs::Orders::length_of))]
    pub fn length(self) -> usize
        ensures { result ≡ length_of (tag_of self) }
    {
        match self {
            Kind::Market => 17,
            Kind::Limit => 25,
            Kind::Cancel => 8,
        }
    }
}
