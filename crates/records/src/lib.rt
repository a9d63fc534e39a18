// The records of a book: rows of five numbers in lent storage, read and written here and nowhere else.
// A record is named by its code, its row + 1; code 0 is none.
// Codes and columns stay numbers: they are what is stored, in storage that the C interface lends (felavuti_fresh and every call after it). That a code has a
// record stays a clause: it is about the code and the records lent, which no value holds together.
#![tactic(auto)]

ghost use Rattle.std.specs.Prelude.{◌≡◌, ℕ, ◌*◌, ◌<◌, ◌≤◌, length};
ghost use Rattle.records.specs.Rows.{RecordAt, field, put};

// The columns of a record, and how many there are.
pub const ID: usize = 0;

pub const QUANTITY: usize = 1;

pub const PRICE: usize = 2;

pub const NEXT: usize = 3;

pub const PREV: usize = 4;

pub const WIDTH: usize = 5;

// The number in column `f` of the record of code `c`.
pub fn load(records: &[u64], f: usize, c: u64) -> u64
    requires { (f < 5) × RecordAt records.now c }
    ensures { result ≡ field records.now f c }
{
    records[(c as usize - 1) * WIDTH + f]
}

// The same, for a walk that keeps beside a record's code where its row ends.
// Stays beside `load`: by codes alone the check of a book whose places are free takes 3.3 microseconds, by ends 1.5.
pub fn load_before(records: &[u64], f: usize, end: usize) -> u64
    requires { (f < 5) × (5 ≤ end) × (end ≤ length records.now) }
    ensures { (c : ℕ) → 1 ≤ c → end ≡ c * 5 → result ≡ field records.now f c }
{
    records[end - WIDTH + f]
}

// `v` written there.
pub fn store(records: &mut [u64], f: usize, c: u64, v: u64)
    requires { (f < 5) × RecordAt records.old c }
    ensures { records.new ≡ put records.old f c v }
{
    records[(c as usize - 1) * WIDTH + f] = v;
}
