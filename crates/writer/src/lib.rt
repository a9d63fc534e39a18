// Writes an order at a place of a lent tape, with nothing demanded of the caller: where room is short it is refused, and nothing changes.
#![tactic(auto)]

ghost use Rattle.std.specs.Prelude.{◌≡◌, ◌+◌, ◌≤◌, length};
ghost use Rattle.overlay.specs.Over.{Put};
ghost use Rattle.fields.specs.Output.{Lent};
ghost use Rattle.tape.specs.Orders.{length_of, tag_for, wish_of, value_of, written_at, written_to};

use fields::{HEADER, Header, Output};
use models::{Id, OrderType, Quantity, Refusal, Side};
use tape::{Kind, NUMBER};

// A side has one byte.
const SIDE: usize = 1;

// Id, side and quantity.
fn put_wish(output: &mut Output<'_>, id: Id, side: Side, qty: Quantity)
    requires { output.old.at + 17 ≤ length output.old.bytes.now }
    ensures lent { Lent output.old output.new }
    ensures put { Put output.old.bytes.now output.old.at (wish_of id.0 side qty.0) output.new.bytes.now output.new.at }
    ensures place { output.new.at ≡ output.old.at + 17 }
{
    output.put_number(NUMBER, id.0);
    output.put_number(SIDE, u64::from(side));
    output.put_number(NUMBER, qty.0);
}

// An order's value.
#[tactic(auto, unfolding(tape::specs::Orders::length_of))]
fn put_value(output: &mut Output<'_>, order: OrderType)
    requires { output.old.at + length_of (tag_for order) ≤ length output.old.bytes.now }
    ensures lent { Lent output.old output.new }
    ensures put { Put output.old.bytes.now output.old.at (value_of order) output.new.bytes.now output.new.at }
{
    match order {
        OrderType::Market { id, side, qty } => put_wish(output, id, side, qty),
        OrderType::Limit {
            id,
            side,
            qty,
            price,
        } => {
            put_wish(output, id, side, qty);
            output.put_number(NUMBER, price.0);
        }
        OrderType::Cancel { id } => output.put_number(NUMBER, id.0),
    }
}

// An order at a place of a tape: the place behind it; where room is short it is refused, and nothing changes. The tape and the place come apart and not as an
// Output, as felavuti_write_order is lent them: the place may be any number.
pub fn write_order(out: &mut [u8], at: usize, order: OrderType) -> Result<usize, Refusal>
    ensures { (result ≡ written_at out.old at order) × (out.new ≡ written_to out.old at order) }
{
    let kind = Kind::from(order);
    let size = kind.length();
    if out.len() < at || out.len() - at < HEADER + size {
        return Err(Refusal::ShortRoom);
    }
    let mut output = Output { bytes: out, at };
    output.put_header(Header {
        tag: u64::from(kind),
        length: size as u64,
    });
    put_value(&mut output, order);
    Ok(output.at)
}
