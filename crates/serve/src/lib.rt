// The desk at one field of a tape: it is read, its order carried out, and what the desk says of it put into a lent buffer as text.
// The book must be whole: whoever alone holds the storage has it so from the start, and every step keeps it.
#![tactic(auto)]

ghost use Rattle.std.specs.Prelude.{◌+◌, ◌*◌, ◌≤◌, ◌<◌, length};
ghost use Rattle.fields.specs.Output.{Lent};
ghost use Rattle.ledger.specs.Stock.{stock_of, Relent};
ghost use Rattle.whole.specs.Whole.{size_of};
ghost use Rattle.text.specs.Text.{longest};
ghost use Rattle.serve.specs.Serve.{keeping, Ready, Step};

use fields::Output;
use ledger::StoredBook;
use perform::perform;
use reader::read_order;
use reply::put_answer;
use stats::Statistics;
use text::put_stopped;
use whole::Size;

// The tape goes on, a bad field stopped it, or it ended.
#[derive(Clone, Copy)]
pub enum State {
    Going,
    Stopped,
    Ended,
}

// The state, and the place of the next field, which counts in every state: whoever refills what is at hand goes on from it.
#[derive(Clone, Copy)]
pub struct Turn {
    pub state: State,
    pub next: usize,
}

// One field: `at` is its place among the tape's bytes at hand, which begin at the offset `base` of the tape; its text is put out.
pub fn step(
    tape: &[u8],
    at: usize,
    base: u64,
    size: Size,
    book: &mut StoredBook<'_>,
    statistics: &mut Statistics,
    fills: &mut [u64],
    output: &mut Output<'_>,
) -> Turn
    requires { Ready (size_of size) (keeping (stock_of book.old) statistics.old fills.old)
        × (base + at < 18446744073709551616) × (output.old.at + longest + size.orders * longest ≤ length output.old.bytes.now) }
    ensures relent { Relent book.old book.new }
    ensures lent { Lent output.old output.new }
    ensures step { Step (size_of size) tape.now base at
        (keeping (stock_of book.old) statistics.old fills.old)
        output.old.bytes.now output.old.at result.state result.next output.new.at
        (keeping (stock_of book.new) statistics.new fills.new)
        output.new.bytes.now }
{
    match read_order(tape, at) {
        Ok(None) => Turn {
            state: State::Ended,
            next: at,
        },
        Err(fault) => {
            put_stopped(output, u64::from(fault.refusal), base + fault.place as u64);
            Turn {
                state: State::Stopped,
                next: at,
            }
        }
        Ok(Some(entry)) => {
            let answer = perform(size, book, statistics, fills, entry.order);
            put_answer(output, answer, fills);
            Turn {
                state: State::Going,
                next: entry.next,
            }
        }
    }
}
