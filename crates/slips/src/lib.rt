// An order as six numbers, a slip, in which it passes to C and Rust (specs/Slips.antt): read at a place of a tape, and written there. Nothing is demanded of
// the caller. A slip is passed by value, so after a refusal the caller's own is as it was; and so are the bytes.
#![tactic(auto)]

ghost use Rattle.std.specs.Prelude.{◌≡◌, ℕ, List, false, IfOk, IfErr};
ghost use Rattle.std.proofs.Math.Option.{some};
ghost use Rattle.models.specs.Readings.{refusal_number};
ghost use Rattle.slips.specs.Slips.{slip_for, order_of, no_kind, no_side, refusal, outcome_of, read_by, written_by, bytes_by};

use models::{Id, OrderType, Price, Quantity, Refusal, Side};
use reader::read_order;
use tape::{Entry, Kind};
use writer::write_order;

// How many numbers a slip has, and where each stands. It stays numbers: felavuti_read_order and felavuti_write_order are lent it so.
pub const SLIP: usize = 6;

const KIND: usize = 0;

const ID: usize = 1;

const SIDE: usize = 2;

const QUANTITY: usize = 3;

const PRICE: usize = 4;

const PLACE: usize = 5;

// An order's kind is its tag on the tape; this is the end's, for C (include/felavuti.h).
const END: u64 = 0;

// An order with the place behind it.
fn slip_of(entry: Entry) -> [u64; SLIP]
    ensures { result ≡ slip_for entry.order entry.next }
{
    let kind = u64::from(Kind::from(entry.order));
    let next = entry.next as u64;
    match entry.order {
        OrderType::Market { id, side, qty } => [kind, id.0, u64::from(side), qty.0, 0, next],
        OrderType::Limit {
            id,
            side,
            qty,
            price,
        } => [kind, id.0, u64::from(side), qty.0, price.0, next],
        OrderType::Cancel { id } => [kind, id.0, 0, 0, 0, next],
    }
}

// What stands at a place of a tape.
pub fn read_slip(tape: &[u8], at: usize) -> Result<[u64; SLIP], Refusal>
    ensures { (s : List ℕ) → outcome_of s result ≡ read_by tape.now at s }
{
    match read_order(tape, at) {
        Ok(Some(entry)) => Ok(slip_of(entry)),
        Ok(None) => Ok([END, 0, 0, 0, 0, at as u64]),
        Err(fault) => Err(fault.refusal),
    }
}

// The order of a slip; a kind or a side that is none is refused, whatever the tape.
fn order_of(slip: [u64; SLIP]) -> Result<OrderType, Refusal>
    ensures order { IfOk result (λ o. (o ≡ order_of slip) × (no_kind slip ≡ false) × (no_side slip ≡ false)) }
    ensures refused { IfErr result (λ e. (l : List ℕ) (at : ℕ) → refusal l at slip ≡ some (refusal_number e)) }
{
    let kind = Kind::try_from(slip[KIND])?;
    let id = Id(slip[ID]);
    let side = Side::try_from(slip[SIDE]);
    let qty = Quantity(slip[QUANTITY]);
    match kind {
        Kind::Market => Ok(OrderType::Market {
            id,
            side: side?,
            qty,
        }),
        Kind::Limit => Ok(OrderType::Limit {
            id,
            side: side?,
            qty,
            price: Price(slip[PRICE]),
        }),
        Kind::Cancel => Ok(OrderType::Cancel { id }),
    }
}

// The order of a slip at a place of a tape; the slip with the place behind it.
pub fn write_slip(tape: &mut [u8], at: usize, slip: [u64; SLIP]) -> Result<[u64; SLIP], Refusal>
    ensures { (outcome_of slip result ≡ written_by tape.old at slip) × (tape.new ≡ bytes_by tape.old at slip) }
{
    let order = order_of(slip)?;
    let next = write_order(tape, at, order)?;
    let mut after = slip;
    after[PLACE] = next as u64;
    Ok(after)
}
