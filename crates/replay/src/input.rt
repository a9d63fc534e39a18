// A step out of standard input: five numbers of 8 bytes, low byte first: kind, side, id, quantity, price. What a kind hasn't may be anything; a cancel has no
// side, and of tracking 0 is off and 1 is on.
use models::{OrderType, Side};
use script::{cancel, limit, market};
use std::fmt;
use std::io::Read;

// The kinds, as the stored input has them.
const MARKET: u64 = 0;

const LIMIT: u64 = 1;

const CANCEL: u64 = 2;

const TRACKING: u64 = 3;

const NUMBER: usize = 8;

const NUMBERS: usize = 5;

const STEP: usize = NUMBERS * NUMBER;

// An order or a cancel; or tracking switched on or off.
#[derive(Clone, Copy)]
pub enum Step {
    Order(OrderType),
    Tracking(bool),
}

// What is wrong with a step.
#[derive(Clone, Copy)]
pub enum Fault {
    Unknown,
    Cut,
    Failed,
}

impl fmt::Display for Fault {
    fn fmt<W: fmt::Write>(&self, f: &mut fmt::Formatter<W>) -> fmt::Result {
        f.write_str(match self {
            Fault::Unknown => ": no such kind or side",
            Fault::Cut => " is cut off",
            Fault::Failed => " could not be read",
        })
    }
}

// Reads until all bytes are there, the input ends or a read fails; how many came. It counts by what each read brings, so it stays a `while`: std's
// `read_exact` doesn't say how many came before an error.
fn read_full(from: &mut impl Read, bytes: &mut [u8]) -> usize {
    let mut done = 0;
    while done < bytes.len() {
        match from.read(&mut bytes[done..]) {
            Ok(0) | Err(_) => break,
            Ok(n) => done += n,
        }
    }
    done
}

// The numbers of a step. Where some of their bytes are missing, one more read tells the end of the input from an error.
fn read_numbers(from: &mut impl Read) -> Result<Option<[u64; NUMBERS]>, Fault> {
    let mut numbers = [[0u8; NUMBER]; NUMBERS];
    let got = read_full(from, numbers.as_flattened_mut());
    if got == STEP {
        return Ok(Some(numbers.map(u64::from_le_bytes)));
    }
    match from.read(&mut [0u8; 1]) {
        Ok(0) if got == 0 => Ok(None),
        Ok(_) => Err(Fault::Cut),
        Err(_) => Err(Fault::Failed),
    }
}

// What five numbers mean.
fn step_of(numbers: [u64; NUMBERS]) -> Result<Step, Fault> {
    let [kind, side, id, qty, price] = numbers;
    if kind == CANCEL {
        return Ok(Step::Order(cancel(id)));
    }
    let side = Side::try_from(side).map_err(|_| Fault::Unknown)?;
    match kind {
        MARKET => Ok(Step::Order(market(side, id, qty))),
        LIMIT => Ok(Step::Order(limit(side, id, qty, price))),
        TRACKING => Ok(Step::Tracking(side == Side::Ask)),
        _ => Err(Fault::Unknown),
    }
}

// The next step, or none at the end of the input.
pub fn next_step(from: &mut impl Read) -> Result<Option<Step>, Fault> {
    match read_numbers(from)? {
        Some(numbers) => Ok(Some(step_of(numbers)?)),
        None => Ok(None),
    }
}
