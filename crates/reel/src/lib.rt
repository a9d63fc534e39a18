// The desk along a tape of which only a part is at hand: its fields one after another, as far as they and the room for their text go.
// Who refills the part and empties the buffer goes on from there; that the refills don't matter is proved (proofs/Refills.antt).
#![tactic(auto)]

ghost use Rattle.std.specs.Prelude.{◌≡◌, ◌+◌, ◌*◌, ◌≤◌, ◌<◌, length};
ghost use Rattle.fields.specs.Output.{Lent};
ghost use Rattle.ledger.specs.Stock.{stock_of, Relent};
ghost use Rattle.whole.specs.Whole.{size_of};
ghost use Rattle.text.specs.Text.{longest};
ghost use Rattle.serve.specs.Serve.{keeping, Ready};
ghost use Rattle.reel.specs.Reel.{Part, Handed, GoesOn};

use fields::Output;
use ledger::StoredBook;
use serve::{State, Turn, step};
use stats::Statistics;
use tape::LONGEST;
use whole::Size;

// Whether a field can be read, with so many bytes at hand, which may be the tape's last.
fn is_at_hand(last: bool, hand: usize) -> bool
    ensures { Handed last hand result }
{
    last || hand >= LONGEST
}

// Whether one more field is served: the tape goes on, a field is at hand, and there is room for its text.
fn goes_on(state: State, last: bool, hand: usize, left: usize, room: usize) -> bool
    ensures { GoesOn state last hand left room result }
{
    match state {
        State::Going => room <= left && is_at_hand(last, hand),
        State::Stopped | State::Ended => false,
    }
}

// Fields from the place `at` on of the tape's bytes at hand, which begin at the offset `base` of the tape and are its last or not; their text is put out,
// where `room` bytes hold any text of one order.
pub fn part(
    tape: &[u8],
    at: usize,
    base: u64,
    last: bool,
    size: Size,
    book: &mut StoredBook<'_>,
    statistics: &mut Statistics,
    fills: &mut [u64],
    output: &mut Output<'_>,
    room: usize,
) -> Turn
    requires { Ready (size_of size) (keeping (stock_of book.old) statistics.old fills.old)
        × (at ≤ length tape.now) × (base + length tape.now < 18446744073709551616) × (output.old.at ≤ length output.old.bytes.now)
        × (longest + size.orders * longest ≤ room) }
    ensures relent { Relent book.old book.new }
    ensures lent { Lent output.old output.new }
    ensures part { Part (size_of size) tape.now base last at
        (keeping (stock_of book.old) statistics.old fills.old)
        output.old.bytes.now output.old.at room result.state result.next output.new.at
        (keeping (stock_of book.new) statistics.new fills.new)
        output.new.bytes.now }
{
    let mut turn = Turn {
        state: State::Going,
        next: at,
    };
    while goes_on(
        turn.state,
        last,
        tape.len() - turn.next,
        output.bytes.len() - output.at,
        room,
    ) {
        turn = step(tape, turn.next, base, size, book, statistics, fills, output);
    }
    turn
}
