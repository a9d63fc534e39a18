// What is at hand of the tape, which is read as its fields are wanted, into a buffer with its places (std's buffered readers need a heap).
ghost use Rattle.std.specs.Prelude.{◌≡◌, ◌+◌, ◌≤◌, ◌<◌};
ghost use Rattle.felavuti.specs.Windows.{Refilled};

use stream::{Failed, Source, move_down};
use tape::LONGEST;

// So much is at hand, at most.
const ROOM: usize = 65536;

// From `start` up to `end` of the buffer the tape is read and its fields aren't yet served. The buffer's first byte has the offset `base` of the tape; no more
// comes where these are its last bytes.
#[derive(Drop)]
pub struct Window<'a> {
    source: Source<'a>,
    pub bytes: [u8; ROOM],
    pub start: usize,
    pub end: usize,
    pub base: u64,
    pub last: bool,
    ghost within: { (start ≤ end) × (end ≤ 65536) },
}

impl<'a> Window<'a> {
    pub fn new(source: Source<'a>) -> Window<'a>
        ensures { (result.start ≡ 0) × (result.end ≡ 0) × (result.base ≡ 0) }
    {
        Window {
            source,
            bytes: [0; ROOM],
            start: 0,
            end: 0,
            base: 0,
            last: false,
        }
    }

    // More of the tape, where too little is at hand for a field. A failure leaves what is at hand.
    pub fn refill(&mut self, err: &impl Print) -> Result<(), Failed>
        requires { self.old.base + self.old.start < 18446744073709551616 }
        ensures base { self.new.base ≤ self.old.base + self.old.start }
        ensures refilled { Refilled self.old.bytes self.old.start self.old.end self.old.base self.old.last
            self.new.bytes self.new.start self.new.end self.new.base self.new.last }
    {
        if self.last || self.end - self.start >= LONGEST {
            return Ok(());
        }
        let kept = move_down(&mut self.bytes, self.start, self.end);
        self.base += self.start as u64;
        self.start = 0;
        self.end = kept;
        let came = self.source.read_behind(err, &mut self.bytes, kept)?;
        self.end = kept + came;
        self.last = came == 0;
        Ok(())
    }
}
