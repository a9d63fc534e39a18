// Lines of text into a lent buffer, exactly: each function puts its bytes at the buffer's place, and the place goes behind them. Room is the caller's matter:
// LINE bytes are enough for any line.
#![tactic(auto)]

ghost use Rattle.std.specs.Prelude.{◌≡◌, ◌++◌, ◌+◌, ◌*◌, ◌≤◌, length};
ghost use Rattle.overlay.specs.Over.{Put};
ghost use Rattle.fields.specs.Output.{Lent};
ghost use Rattle.models.specs.Readings.{event_of, fill_of};
ghost use Rattle.text.specs.Text.{spaced, numbered, event_line, used_up, fill_line, refused_line, stopped_line};

use fields::Output;
use models::{FillMetadata, OrderEvent};

// No line is longer.
pub const LINE: usize = 79;

// No number has more digits.
const DIGITS: usize = 20;

// A space and a number.
fn put_number(output: &mut Output<'_>, x: u64)
    requires { output.old.at + 21 ≤ length output.old.bytes.now }
    ensures lent { Lent output.old output.new }
    ensures put { Put output.old.bytes.now output.old.at (spaced x) output.new.bytes.now output.new.at }
    ensures upper_bound { output.new.at ≤ output.old.at + 21 }
{
    let mut digits = [0u8; DIGITS];
    let count = io::decimal(x, &mut digits);
    output.put(b" ");
    output.put(&digits[..count]);
}

// A word, some numbers, and what stands behind them.
fn put_line(output: &mut Output<'_>, word: &[u8], numbers: &[u64], end: &[u8])
    requires { output.old.at + length word.now + length numbers.now * 21 + length end.now ≤ length output.old.bytes.now }
    ensures lent { Lent output.old output.new }
    ensures put { Put output.old.bytes.now output.old.at (word.now ++ numbered numbers.now end.now) output.new.bytes.now output.new.at }
    ensures upper_bound { output.new.at ≤ output.old.at + length word.now + length numbers.now * 21 + length end.now }
{
    output.put(word);
    for number in numbers {
        put_number(output, *number);
    }
    output.put(end);
}

// An event's line.
pub fn put_event(output: &mut Output<'_>, event: OrderEvent)
    requires { output.old.at + 79 ≤ length output.old.bytes.now }
    ensures lent { Lent output.old output.new }
    ensures put { Put output.old.bytes.now output.old.at (event_line (event_of event)) output.new.bytes.now output.new.at }
{
    match event {
        OrderEvent::Unfilled { id } => put_line(output, b"Unfilled", &[id.0], b"\n"),
        OrderEvent::Placed { id } => put_line(output, b"Placed", &[id.0], b"\n"),
        OrderEvent::Canceled { id } => put_line(output, b"Canceled", &[id.0], b"\n"),
        OrderEvent::PartiallyFilled {
            id,
            filled_qty,
            fills,
        } => put_line(
            output,
            b"PartiallyFilled",
            &[id.0, filled_qty.0, fills as u64],
            b"\n",
        ),
        OrderEvent::Filled {
            id,
            filled_qty,
            fills,
        } => put_line(
            output,
            b"Filled",
            &[id.0, filled_qty.0, fills as u64],
            b"\n",
        ),
    }
}

// A fill's line.
pub fn put_fill(output: &mut Output<'_>, fill: FillMetadata)
    requires { output.old.at + 79 ≤ length output.old.bytes.now }
    ensures lent { Lent output.old output.new }
    ensures put { Put output.old.bytes.now output.old.at (fill_line (fill_of fill)) output.new.bytes.now output.new.at }
{
    let numbers = [fill.order_2.0, fill.qty.0, fill.price.0];
    if fill.total_fill {
        put_line(output, b"fill", &numbers, b" whole\n");
    } else {
        put_line(output, b"fill", &numbers, b" part\n");
    }
}

// The line of an order that the desk refuses with this number.
pub fn put_refused(output: &mut Output<'_>, number: u64)
    requires { output.old.at + 79 ≤ length output.old.bytes.now }
    ensures lent { Lent output.old output.new }
    ensures put { Put output.old.bytes.now output.old.at (refused_line number) output.new.bytes.now output.new.at }
{
    put_line(output, b"Refused", &[number], b"\n");
}

// The line of a bad field, with the number of its refusal.
pub fn put_stopped(output: &mut Output<'_>, number: u64, offset: u64)
    requires { output.old.at + 79 ≤ length output.old.bytes.now }
    ensures lent { Lent output.old output.new }
    ensures put { Put output.old.bytes.now output.old.at (stopped_line number offset) output.new.bytes.now output.new.at }
{
    put_line(output, b"Refused", &[number], b" at");
    put_line(output, b"", &[offset], b"\n");
}
