// Books that aren't whole: single numbers of a desk changed.
use script::OwnDesk;
use std::fmt;

// In a book of three orders on fresh storage: where the quantity and the price of order 1 stand (orders take their places from the last one down, five
// numbers each), where the search has its place for id 1, and the numbers of the places of orders 1 and 2.
const QUANTITY_OF_1: usize = 5116;

const PRICE_OF_1: usize = 5117;

const HOME_OF_1: usize = 1;

const PLACE_OF_1: u64 = 1024;

const PLACE_OF_2: u64 = 1023;

// What is changed, and to what number; or nothing.
#[derive(Clone, Copy)]
pub enum Harm {
    Quantity(u64),
    Price(u64),
    LowestBid(u64),
    Home(u64),
    Resting(usize),
    Asks(usize),
    Free(u64),
    Nothing,
}

// Seven damages, and last none.
pub const HARMS: [Harm; 8] = [
    Harm::Quantity(0),
    Harm::Price(106),
    Harm::LowestBid(105),
    Harm::Home(PLACE_OF_2),
    Harm::Resting(4),
    Harm::Asks(2),
    Harm::Free(PLACE_OF_1),
    Harm::Nothing,
];

impl fmt::Display for Harm {
    fn fmt<W: fmt::Write>(&self, f: &mut fmt::Formatter<W>) -> fmt::Result {
        match self {
            Harm::Quantity(n) => write!(f, "a record's quantity {n} for 5"),
            Harm::Price(n) => write!(f, "a record's price {n} for 105"),
            Harm::LowestBid(n) => write!(f, "a bid level's price {n} for 100"),
            Harm::Home(_) => write!(f, "order 2 in the search's place for id 1"),
            Harm::Resting(n) => write!(f, "{n} said to rest"),
            Harm::Asks(n) => write!(f, "{n} ask prices said"),
            Harm::Free(_) => write!(f, "order 1's place said to be free"),
            Harm::Nothing => write!(f, "no damage"),
        }
    }
}

impl Harm {
    // A desk of three orders with the damage done.
    pub fn done_to(self, whole: &OwnDesk) -> OwnDesk {
        let mut desk = *whole;
        match self {
            Harm::Quantity(n) => desk.records[QUANTITY_OF_1] = n,
            Harm::Price(n) => desk.records[PRICE_OF_1] = n,
            Harm::LowestBid(n) => desk.bids[0] = n,
            Harm::Home(n) => desk.search[HOME_OF_1] = n,
            Harm::Resting(n) => desk.book.resting = n,
            Harm::Asks(n) => desk.book.asks = n,
            Harm::Free(n) => desk.book.free = n,
            Harm::Nothing => {}
        }
        desk
    }
}
