// Storage of other lengths than a book's: one slice is a row or a place too short, or too long.
use kept::{is_unwritten, refused};
use ledger::{OrderBook, StoredBook};
use models::Id;
use orderbook::{LEVELS, PLACES, RECORDS};
use script::{MARK, OwnDesk};
use std::fmt;

// A row more of records and of levels, a place more of the search.
const LONG_RECORDS: usize = 5125;

const LONG_LEVELS: usize = 387;

const LONG_PLACES: usize = 2049;

const SHORT_RECORDS: usize = 5115;

const SHORT_LEVELS: usize = 381;

const SHORT_PLACES: usize = 2047;

#[derive(Clone, Copy)]
pub struct Sizes {
    records: usize,
    bids: usize,
    asks: usize,
    search: usize,
}

const WHOLE: Sizes = Sizes {
    records: RECORDS,
    bids: LEVELS,
    asks: LEVELS,
    search: PLACES,
};

// Each slice too short.
pub const SHORT: [Sizes; 4] = [
    Sizes {
        records: SHORT_RECORDS,
        ..WHOLE
    },
    Sizes {
        bids: SHORT_LEVELS,
        ..WHOLE
    },
    Sizes {
        asks: SHORT_LEVELS,
        ..WHOLE
    },
    Sizes {
        search: SHORT_PLACES,
        ..WHOLE
    },
];

// Each too long.
pub const LONG: [Sizes; 4] = [
    Sizes {
        records: LONG_RECORDS,
        ..WHOLE
    },
    Sizes {
        bids: LONG_LEVELS,
        ..WHOLE
    },
    Sizes {
        asks: LONG_LEVELS,
        ..WHOLE
    },
    Sizes {
        search: LONG_PLACES,
        ..WHOLE
    },
];

impl fmt::Display for Sizes {
    fn fmt<W: fmt::Write>(&self, f: &mut fmt::Formatter<W>) -> fmt::Result {
        let Sizes {
            records,
            bids,
            asks,
            search,
        } = *self;
        write!(
            f,
            "records {records}, bids {bids}, asks {asks}, search {search}"
        )
    }
}

// A cancel of order 3 over the first numbers of a desk's storage, which is enough for them; for a refusal, whether everything is as it was.
pub fn withdraw(rt: &impl Print, whole: &OwnDesk, sizes: Sizes) {
    let mut desk = *whole;
    let mut book = StoredBook {
        book: desk.book,
        records: &mut desk.records[..sizes.records.min(RECORDS)],
        bids: &mut desk.bids[..sizes.bids.min(LEVELS)],
        asks: &mut desk.asks[..sizes.asks.min(LEVELS)],
        search: &mut desk.search[..sizes.search.min(PLACES)],
    };
    let answer = orderbook::cancel(&mut book, Id(3));
    desk.book = book.book;
    let _ = print!(rt; "{sizes}, cancel 3: ");
    kept::answer(rt, answer, kept::same_desk(&desk, whole));
}

// A fresh book over slices of marks; for a refusal, whether they are as they were.
pub fn fresh(rt: &impl Print, sizes: Sizes) {
    let mut records = [MARK; LONG_RECORDS];
    let mut bids = [MARK; LONG_LEVELS];
    let mut asks = [MARK; LONG_LEVELS];
    let mut search = [MARK; LONG_PLACES];
    let mut book = StoredBook {
        book: OrderBook::default(),
        records: &mut records[..sizes.records.min(LONG_RECORDS)],
        bids: &mut bids[..sizes.bids.min(LONG_LEVELS)],
        asks: &mut asks[..sizes.asks.min(LONG_LEVELS)],
        search: &mut search[..sizes.search.min(LONG_PLACES)],
    };
    let opening = orderbook::fresh(&mut book);
    let _ = print!(rt; "{sizes}, a fresh book: ");
    match opening {
        Ok(_) => {
            let _ = println!(rt; "made");
        }
        Err(refusal) => {
            let kept = is_unwritten(&records)
                && is_unwritten(&bids)
                && is_unwritten(&asks)
                && is_unwritten(&search);
            refused(rt, u64::from(refusal), kept);
        }
    }
}
