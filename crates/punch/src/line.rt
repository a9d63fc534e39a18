// A line's order: `limit ask 1 10 105`, `market bid 6 12`, `cancel 5`. The words are read along the line, and the first that is wrong ends the reading.
use crate::faults::Fault;
use crate::words::{is_gap, number_of, side_of};
use models::{Id, OrderType, Price, Quantity};

// A line has at most so many bytes.
pub const LONGEST_LINE: usize = 4096;

// What a line says; an empty one, and one whose first letter is `#`, says nothing.
pub fn read_line(line: &[u8]) -> Result<Option<OrderType>, Fault<'_>> {
    if line.len() > LONGEST_LINE {
        return Err(Fault::TooLong);
    }
    let mut words = line.split(|b| is_gap(*b)).filter(|word| !word.is_empty());
    let Some(kind) = words.next() else {
        return Ok(None);
    };
    let order = match kind {
        [b'#', ..] => return Ok(None),
        b"limit" => OrderType::Limit {
            side: side_of(words.next())?,
            id: Id(number_of(words.next())?),
            qty: Quantity(number_of(words.next())?),
            price: Price(number_of(words.next())?),
        },
        b"market" => OrderType::Market {
            side: side_of(words.next())?,
            id: Id(number_of(words.next())?),
            qty: Quantity(number_of(words.next())?),
        },
        b"cancel" => OrderType::Cancel {
            id: Id(number_of(words.next())?),
        },
        _ => return Err(Fault::NoKind(kind)),
    };
    match words.next() {
        Some(word) => Err(Fault::TooMany(word)),
        None => Ok(Some(order)),
    }
}
