// The desk on a tape: reads orders from the file that the first argument names, or from standard input where there is none, carries them out on a fresh desk
// whose tracking is off, and writes what the desk says of each. A tape may be of any length: it goes through a buffer, and what is at hand is answered before
// more is waited for. What can't be opened, read or written is said on standard error. A program here gives no exit status.
#![tactic(auto)]

mod window; // window.rt: what is at hand of the tape

ghost use Rattle.std.specs.Prelude.{◌≡◌};
ghost use Rattle.rules.specs.Rules as rule;
ghost use Rattle.ledger.specs.Stock.{stock_of};
ghost use Rattle.serve.specs.Serve.{keeping, Ready};

use fields::Output;
use ledger::{OrderBook, StoredBook};
use orderbook::{LEVELS, PLACES, RECORDS, SIZE};
use reel::part;
use serve::State;
use stats::Statistics;
use stream::{Failed, Source, write_out};
use window::Window;

// Five numbers for a fill of every order that can rest.
const FILLS: usize = 5120;

// The longest text of an order, a line and a line a fill; and the buffer for texts, which goes out when it has no room for one.
const TEXT: usize = 80975;

const OUT: usize = 131072;

// No file has a longer name.
const NAME: usize = 4096;

// More turns than any tape takes, so that the run ends whatever comes in.
const MOST: u64 = 140737488355328;

// The orders of a tape, one after another, on a desk that is ready for them.
fn run(
    rt: &HostRuntime,
    window: &mut Window<'_>,
    book: &mut StoredBook<'_>,
    statistics: &mut Statistics,
    fills: &mut [u64],
) -> Result<(), Failed>
    requires { Ready rule.hall (keeping (stock_of book.old) statistics.old fills.old) × (window.old.base ≡ 0) }
{
    let mut out = [0u8; OUT];
    for n in 0..MOST {
        window.refill(&rt.stderr())?;
        let mut output = Output {
            bytes: &mut out,
            at: 0,
        };
        let turn = part(
            &window.bytes[..window.end],
            window.start,
            window.base,
            window.last,
            SIZE,
            book,
            statistics,
            fills,
            &mut output,
            TEXT,
        );
        window.start = turn.next;
        let behind = output.at;
        write_out(&rt.stdout(), &rt.stderr(), &out[..behind])?;
        match turn.state {
            State::Going => {}
            State::Stopped | State::Ended => break,
        }
    }
    Ok(())
}

// A tape on a fresh desk.
fn carry_out(rt: &HostRuntime, source: Source<'_>) {
    let mut records = [0u64; RECORDS];
    let mut bids = [0u64; LEVELS];
    let mut asks = [0u64; LEVELS];
    let mut search = [0u64; PLACES];
    let mut book = StoredBook {
        book: OrderBook::default(),
        records: &mut records,
        bids: &mut bids,
        asks: &mut asks,
        search: &mut search,
    };
    if let Ok(mut statistics) = orderbook::fresh(&mut book) {
        let mut window = Window::new(source);
        let mut fills = [0u64; FILLS];
        let _ = run(rt, &mut window, &mut book, &mut statistics, &mut fills);
    }
}

fn main(rt: HostRuntime) {
    let mut name = [0u8; NAME];
    if let Ok(source) = Source::open(&rt, &mut name) {
        carry_out(&rt, source);
    }
}
