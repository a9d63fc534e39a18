// The tape that is punched: orders gather in a buffer with its place (std's buffered writers need a heap).
ghost use Rattle.std.specs.Prelude.{◌≡◌, ◌+◌, ◌≤◌, length, OnOk};
ghost use Rattle.overlay.specs.Over.{Put};
ghost use Rattle.tape.specs.Orders.{field_of};

use models::OrderType;
use stream::{Failed, write_out};
use tape::LONGEST;
use writer::write_order;

// What is punched before it goes out, at most.
const ROOM: usize = 65536;

// Up to `to` of the buffer the tape is punched and not yet written.
#[derive(Drop)]
pub struct Tape {
    bytes: [u8; ROOM],
    to: usize,
    ghost within: { to ≤ 65536 },
}

impl Tape {
    pub fn new() -> Tape {
        Tape {
            bytes: [0; ROOM],
            to: 0,
        }
    }

    // Room for any order: where there is none, what is punched is written first.
    fn make_room(&mut self, rt: &HostRuntime) -> Result<(), Failed>
        ensures { OnOk result (self.new.to + 28 ≤ 65536) }
    {
        if ROOM - self.to < LONGEST {
            return self.write(rt);
        }
        Ok(())
    }

    // An order goes onto the tape.
    pub fn punch(&mut self, rt: &HostRuntime, order: OrderType) -> Result<(), Failed> {
        self.make_room(rt)?;
        self.to = put_order(&mut self.bytes, self.to, order);
        Ok(())
    }

    // What is punched goes out.
    pub fn write(&mut self, rt: &HostRuntime) -> Result<(), Failed>
        ensures { self.new.to ≡ 0 }
    {
        let to = self.to;
        self.to = 0;
        write_out(&rt.stdout(), &rt.stderr(), &self.bytes[..to])
    }
}

// An order at a place that has room for any; the place behind it.
pub fn put_order(tape: &mut [u8], at: usize, order: OrderType) -> usize
    requires { at + 28 ≤ length tape.old }
    ensures { Put tape.old at (field_of order) tape.new result }
{
    write_order(tape, at, order).unwrap_or(at)
}
