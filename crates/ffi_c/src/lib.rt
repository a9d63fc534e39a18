// The exports for C and Rust, as a static library: each calls the function of its name in `ffi` and promises what that does. include/felavuti.h is the header.
// They stay twins of `ffi`'s: a crate is a library, which the theorems need, or a static library, which the C interface needs.
#![tactic(auto)]

ghost use Rattle.std.specs.Prelude.{◌≡◌, [], not, eqb, set};
ghost use Rattle.rules.specs.Rules as rule;
ghost use Rattle.models.specs.declared.OrderType.TheVariants.{Market, Limit};
ghost use Rattle.models.specs.Readings.{call_of};
ghost use Rattle.rows.specs.Rows.{fill_row, places};
ghost use Rattle.questions.specs.Questions.{lowest_ask, highest_bid, spread_of};
ghost use Rattle.numbers.specs.Numbers.{yes};
ghost use Rattle.ffi.specs.Exports.{Carried, Ordered, Asked, Deepened, Sought, OpenedAs, Checked};
ghost use Rattle.ffi.specs.Tapes.{FieldRead, FieldWritten};

use numbers::{ANSWER, DESK};
use slips::SLIP;

// A fresh book over storage of the right lengths, whatever it holds.
#[unsafe(no_mangle)]
pub extern "C" fn felavuti_fresh(
    desk: &mut [u64; DESK],
    records: &mut [u64],
    bids: &mut [u64],
    asks: &mut [u64],
    search: &mut [u64],
) -> u64
    ensures { OpenedAs desk.old records.old bids.old asks.old search.old result
        desk.new records.new bids.new asks.new search.new }
{
    ffi::felavuti_fresh(desk, records, bids, asks, search)
}

// A market order.
#[unsafe(no_mangle)]
pub extern "C" fn felavuti_market(
    desk: &mut [u64; DESK],
    records: &mut [u64],
    bids: &mut [u64],
    asks: &mut [u64],
    search: &mut [u64],
    fills: &mut [u64],
    id: u64,
    side: u64,
    qty: u64,
    answer: &mut [u64; ANSWER],
) -> u64
    ensures { Ordered (λ s. Market (record { 0 = id }) s (record { 0 = qty })) side
        desk.old records.old bids.old asks.old search.old fills.old answer.old
        result desk.new records.new bids.new asks.new search.new fills.new answer.new }
{
    ffi::felavuti_market(
        desk, records, bids, asks, search, fills, id, side, qty, answer,
    )
}

// A limit order.
#[unsafe(no_mangle)]
pub extern "C" fn felavuti_limit(
    desk: &mut [u64; DESK],
    records: &mut [u64],
    bids: &mut [u64],
    asks: &mut [u64],
    search: &mut [u64],
    fills: &mut [u64],
    id: u64,
    side: u64,
    qty: u64,
    price: u64,
    answer: &mut [u64; ANSWER],
) -> u64
    ensures { Ordered (λ s. Limit (record { 0 = id }) s (record { 0 = qty }) (record { 0 = price })) side
        desk.old records.old bids.old asks.old search.old fills.old answer.old
        result desk.new records.new bids.new asks.new search.new fills.new answer.new }
{
    ffi::felavuti_limit(
        desk, records, bids, asks, search, fills, id, side, qty, price, answer,
    )
}

// The order found under the id leaves, if there is one.
#[unsafe(no_mangle)]
pub extern "C" fn felavuti_cancel(
    desk: &mut [u64; DESK],
    records: &mut [u64],
    bids: &mut [u64],
    asks: &mut [u64],
    search: &mut [u64],
    id: u64,
    answer: &mut [u64; ANSWER],
) -> u64
    ensures { Carried (rule.cancel id)
        desk.old records.old bids.old asks.old search.old [] answer.old
        result desk.new records.new bids.new asks.new search.new [] answer.new }
{
    ffi::felavuti_cancel(desk, records, bids, asks, search, id, answer)
}

// The lowest ask.
#[unsafe(no_mangle)]
pub extern "C" fn felavuti_min_ask(
    desk: &[u64; DESK],
    records: &[u64],
    bids: &[u64],
    asks: &[u64],
    search: &[u64],
    answer: &mut [u64; ANSWER],
) -> u64
    ensures { Asked lowest_ask desk.now records.now bids.now asks.now search.now
        answer.old result answer.new }
{
    ffi::felavuti_min_ask(desk, records, bids, asks, search, answer)
}

// The highest bid.
#[unsafe(no_mangle)]
pub extern "C" fn felavuti_max_bid(
    desk: &[u64; DESK],
    records: &[u64],
    bids: &[u64],
    asks: &[u64],
    search: &[u64],
    answer: &mut [u64; ANSWER],
) -> u64
    ensures { Asked highest_bid desk.now records.now bids.now asks.now search.now
        answer.old result answer.new }
{
    ffi::felavuti_max_bid(desk, records, bids, asks, search, answer)
}

// The lowest ask less the highest bid, where both are there.
#[unsafe(no_mangle)]
pub extern "C" fn felavuti_spread(
    desk: &[u64; DESK],
    records: &[u64],
    bids: &[u64],
    asks: &[u64],
    search: &[u64],
    answer: &mut [u64; ANSWER],
) -> u64
    ensures { Asked spread_of desk.now records.now bids.now asks.now search.now
        answer.old result answer.new }
{
    ffi::felavuti_spread(desk, records, bids, asks, search, answer)
}

// Every occupied price with its total: asks from the start of `out`, then bids, both ascending.
#[unsafe(no_mangle)]
pub extern "C" fn felavuti_depth(
    desk: &[u64; DESK],
    records: &[u64],
    bids: &[u64],
    asks: &[u64],
    search: &[u64],
    out: &mut [u64],
    levels: usize,
    answer: &mut [u64; ANSWER],
) -> u64
    ensures { Deepened levels desk.now records.now bids.now asks.now search.now
        out.old answer.old result out.new answer.new }
{
    ffi::felavuti_depth(desk, records, bids, asks, search, out, levels, answer)
}

// The order that the search finds under the id.
#[unsafe(no_mangle)]
pub extern "C" fn felavuti_get(
    desk: &[u64; DESK],
    records: &[u64],
    bids: &[u64],
    asks: &[u64],
    search: &[u64],
    id: u64,
    answer: &mut [u64; ANSWER],
) -> u64
    ensures { Sought id desk.now records.now bids.now asks.now search.now
        answer.old result answer.new }
{
    ffi::felavuti_get(desk, records, bids, asks, search, id, answer)
}

// Whether a stored book is whole, at any size: 0, or 1 where it isn't.
#[unsafe(no_mangle)]
pub extern "C" fn felavuti_check(
    orders: usize,
    prices: usize,
    desk: &[u64; DESK],
    records: &[u64],
    bids: &[u64],
    asks: &[u64],
    search: &[u64],
) -> u64
    ensures { Checked (record { orders = orders; prices = prices })
        desk.now records.now bids.now asks.now search.now result }
{
    ffi::felavuti_check(orders, prices, desk, records, bids, asks, search)
}

// Switched tracking: no other number changes. Never refused.
#[unsafe(no_mangle)]
pub extern "C" fn felavuti_track_stats(desk: &mut [u64; DESK], on: u64) -> u64
    ensures { (result ≡ 0) × (desk.new ≡ set desk.old 4 (yes (not (eqb on 0)))) }
{
    ffi::felavuti_track_stats(desk, on)
}

// What stands at a place of a tape, as a slip.
#[unsafe(no_mangle)]
pub extern "C" fn felavuti_read_order(tape: &[u8], at: usize, order: &mut [u64; SLIP]) -> u64
    ensures { FieldRead tape.now at order.old result order.new }
{
    ffi::felavuti_read_order(tape, at, order)
}

// The order of a slip, written at a place of a tape.
#[unsafe(no_mangle)]
pub extern "C" fn felavuti_write_order(tape: &mut [u8], at: usize, order: &mut [u64; SLIP]) -> u64
    ensures { FieldWritten tape.old at order.old result tape.new order.new }
{
    ffi::felavuti_write_order(tape, at, order)
}
