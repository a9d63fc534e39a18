// Reads the order at a place of a tape, with nothing demanded of the caller: any bytes, any place.
#![tactic(auto)]

ghost use Rattle.std.specs.Prelude.{◌≡◌, ◌+◌, ◌<◌, ◌≤◌, length, drop, get_or, true, false, Ok, Some, IfOk, IfErr};
ghost use Rattle.fields.specs.Fields.{front_of};
ghost use Rattle.models.specs.Readings.{IsSideOf, refusal_number};
ghost use Rattle.models.specs.declared.Refusal.TheVariants.{WrongSide};
ghost use Rattle.tape.specs.Orders.{length_of, tag_of, order_in, odd_side, entry, fault, read_at, read_of};

use fields::{HEADER, Header, Stump, header_at, number_at};
use models::{Id, OrderType, Price, Quantity, Refusal, Side};
use tape::{Entry, Fault, Kind, NUMBER};

// Behind the id stand the side, the quantity and the price.
const SIDE: usize = 8;

const QUANTITY: usize = 9;

const PRICE: usize = 17;

// The side of a byte.
fn side_at(tape: &[u8], at: usize) -> Result<Side, Refusal>
    requires { at < length tape.now }
    ensures { IsSideOf (get_or tape.now at 0) result }
{
    Side::try_from(u64::from(tape[at]))
}

// The order of a kind, out of its whole value; where the kind has a side, its byte may be none.
#[tactic(auto, unfolding(tape::specs::Orders::length_of, tape::specs::Orders::order_in))]
fn order_at(tape: &[u8], at: usize, kind: Kind) -> Result<OrderType, Refusal>
    requires { at + length_of (tag_of kind) ≤ length tape.now }
    ensures order { IfOk result (λ o. (o ≡ order_in (tag_of kind) (drop at tape.now)) × (odd_side (tag_of kind) (drop at tape.now) ≡ false)) }
    ensures refused { IfErr result (λ e. (e ≡ WrongSide) × (odd_side (tag_of kind) (drop at tape.now) ≡ true)) }
{
    let id = Id(number_at(tape, at, NUMBER));
    match kind {
        Kind::Market => Ok(OrderType::Market {
            id,
            side: side_at(tape, at + SIDE)?,
            qty: Quantity(number_at(tape, at + QUANTITY, NUMBER)),
        }),
        Kind::Limit => Ok(OrderType::Limit {
            id,
            side: side_at(tape, at + SIDE)?,
            qty: Quantity(number_at(tape, at + QUANTITY, NUMBER)),
            price: Price(number_at(tape, at + PRICE, NUMBER)),
        }),
        Kind::Cancel => Ok(OrderType::Cancel { id }),
    }
}

// The order of the field at a place, whose header is read.
fn field_at(tape: &[u8], at: usize, header: Header) -> Result<Entry, Refusal>
    requires { Ok (Some header) ≡ front_of (drop at tape.now) }
    ensures order { IfOk result (λ e. entry e.order e.next ≡ read_at tape.now at) }
    ensures refused { IfErr result (λ e. fault (refusal_number e) at ≡ read_at tape.now at) }
{
    let kind = Kind::try_from(header.tag)?;
    let wanted = kind.length();
    if header.length != wanted as u64 {
        return Err(Refusal::WrongLength);
    }
    let value = at + HEADER;
    if tape.len() - value < wanted {
        return Err(Refusal::CutOff);
    }
    let order = order_at(tape, value, kind)?;
    Ok(Entry {
        order,
        next: value + wanted,
    })
}

// The order at a place; past the end there is none.
fn entry_at(tape: &[u8], at: usize) -> Result<Option<Entry>, Refusal>
    ensures order { IfOk result (λ e. read_of (Ok e) ≡ read_at tape.now at) }
    ensures refused { IfErr result (λ e. fault (refusal_number e) at ≡ read_at tape.now at) }
{
    match header_at(tape, at) {
        Ok(Some(header)) => Ok(Some(field_at(tape, at, header)?)),
        Ok(None) => Ok(None),
        Err(Stump) => Err(Refusal::CutOff),
    }
}

// What stands at a place of a tape: an order, or nothing past the end; a bad field is refused.
pub fn read_order(tape: &[u8], at: usize) -> Result<Option<Entry>, Fault>
    ensures { read_of result ≡ read_at tape.now at }
{
    entry_at(tape, at).map_err(|refusal| Fault { refusal, place: at })
}
