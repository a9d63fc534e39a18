// The arena: records in the queues of their prices, tied both ways, and the free places.
// A queue's ends stand in its level's row (price, head, tail) in lent storage; taking a record out needs no walk. The ties stay codes of rows: C lends the
// storage, and there is no heap.
#![tactic(auto)]

ghost use Rattle.std.specs.Prelude.{◌≡◌, ◌+◌, ◌*◌, ◌<◌, ◌≤◌, length};
ghost use Rattle.records.specs.Rows.{RecordAt, field, record_count};
ghost use Rattle.arena.specs.Links.{tail_of, link_rs, link_lv, untied, untied_row, appended, appended_row};
ghost use Rattle.arena.specs.Free.{returned, record_written, Freed};

use models::{Id, Price, Quantity};
use records::{ID, NEXT, PREV, PRICE, QUANTITY, WIDTH, load, store};

// The columns of a level's row beside its price, which comes first, and how many there are.
pub const HEAD: usize = 1;

pub const TAIL: usize = 2;

pub const ROW: usize = 3;

// The node `p` of the queue whose row has its end at `at`, tied to `v` by column `f`: node 0 is the row.
pub fn fasten(records: &mut [u64], levels: &mut [u64], f: usize, at: usize, p: u64, v: u64)
    requires f_bound { (f < 5) × (at < length levels.old) }
    requires record_at { 1 ≤ p → RecordAt records.old p }
    ensures records_after { records.new ≡ link_rs records.old f p v }
    ensures levels_after { levels.new ≡ link_lv levels.old at p v }
{
    if p == 0 {
        levels[at] = v;
    } else {
        store(records, f, p, v);
    }
}

// The record `c` out of its queue, that of row k: what came before it is tied to what followed it.
pub fn unlink(records: &mut [u64], levels: &mut [u64], k: usize, c: u64)
    requires { (k * 3 + 2 < length levels.old) × RecordAt records.old c
        × (1 ≤ field records.old 4 c → RecordAt records.old (field records.old 4 c))
        × (1 ≤ field records.old 3 c → RecordAt records.old (field records.old 3 c)) }
    ensures records_after { records.new ≡ untied records.old (field records.old 4 c) (field records.old 3 c) }
    ensures levels_after { levels.new ≡ untied_row levels.old k (field records.old 4 c) (field records.old 3 c) }
{
    let n = load(records, NEXT, c);
    let p = load(records, PREV, c);
    let at = k * ROW;
    fasten(records, levels, NEXT, at + HEAD, p, n);
    fasten(records, levels, PREV, at + TAIL, n, p);
}

// The record `c` behind the last of row k's queue.
pub fn append(records: &mut [u64], levels: &mut [u64], k: usize, c: u64)
    requires { (k * 3 + 2 < length levels.old) × RecordAt records.old c
        × (1 ≤ tail_of levels.old k → RecordAt records.old (tail_of levels.old k)) }
    ensures records_after { records.new ≡ appended records.old (tail_of levels.old k) c }
    ensures levels_after { levels.new ≡ appended_row levels.old k (tail_of levels.old k) c }
{
    let at = k * ROW;
    let t = levels[at + TAIL];
    fasten(records, levels, NEXT, at + HEAD, t, c);
    levels[at + TAIL] = c;
    store(records, NEXT, c, 0);
    store(records, PREV, c, t);
}

// The first free place `free` is taken: the free place behind it is the first then.
pub fn take(records: &[u64], free: u64) -> u64
    requires { RecordAt records.now free }
    ensures { result ≡ field records.now 3 free }
{
    load(records, NEXT, free)
}

// The record `c` written.
pub fn write(records: &mut [u64], c: u64, id: Id, quantity: Quantity, price: Price)
    requires { RecordAt records.old c }
    ensures { records.new ≡ record_written records.old c id.0 quantity.0 price.0 }
{
    store(records, ID, c, id.0);
    store(records, QUANTITY, c, quantity.0);
    store(records, PRICE, c, price.0);
}

// The record `c` given back: it comes before the free place `free`.
pub fn give_back(records: &mut [u64], free: u64, c: u64)
    requires { RecordAt records.old c }
    ensures { records.new ≡ returned records.old c free }
{
    store(records, QUANTITY, c, 0);
    store(records, NEXT, c, free);
}

// Every place freed; the first free one then.
pub fn free_all(records: &mut [u64]) -> u64
    ensures { (result ≡ record_count records.old) × Freed records.new result }
{
    let n = (records.len() / WIDTH) as u64;
    for i in 0..n {
        give_back(records, i, i + 1);
    }
    n
}
