// Punches a tape of orders: reads lines of text from the file that the first argument names, or from standard input where there is none, and writes the tape
// to standard output. A line is an order: `limit ask 1 10 105` (side, id, quantity, price), `market bid 6 12`, `cancel 5`; an empty line, and one whose first
// letter is `#`, is passed over. A bad line is named on standard error, and the tape ends there; so does what can't be read or written. A text may be of any
// length, a line of up to 4,096 bytes. A program here gives no exit status.
#![tactic(auto)]

mod faults; // faults.rt: what is wrong with a line
mod line; // line.rt: a line's order
mod output; // output.rt: the tape that goes out
mod text; // text.rt: the lines that come in
mod words; // words.rt: what a word means

use line::read_line;
use output::Tape;
use stream::{Failed, Source};
use text::Text;

// No file has a longer name.
const NAME: usize = 4096;

// The orders of a text go onto a tape, up to the first bad line. The lines are counted, so that the run ends whatever comes in.
fn punch(rt: &HostRuntime, text: &mut Text<'_>, tape: &mut Tape) -> Result<(), Failed> {
    for number in 1..=u64::MAX {
        let Some(line) = text.next_line(&rt.stderr())? else {
            break;
        };
        match read_line(line) {
            Ok(Some(order)) => tape.punch(rt, order)?,
            Ok(None) => {}
            Err(fault) => {
                faults::say(&rt.stderr(), number, fault);
                break;
            }
        }
    }
    Ok(())
}

fn main(rt: HostRuntime) {
    let mut name = [0u8; NAME];
    if let Ok(source) = Source::open(&rt, &mut name) {
        let mut text = Text::new(source);
        let mut tape = Tape::new();
        let _ = punch(&rt, &mut text, &mut tape);
        let _ = tape.write(&rt);
    }
}
