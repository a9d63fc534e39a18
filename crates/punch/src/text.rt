// The lines of a text, which is read as they are wanted, into a buffer with its places (std's buffered readers need a heap).
ghost use Rattle.std.specs.Prelude.{◌≡◌, ◌⊎◌, ◌-◌, ◌<◌, ◌≤◌, true, OnOk};

use crate::line::LONGEST_LINE;
use stream::{Failed, Source, move_down};

// What is at hand of a text, at most.
const ROOM: usize = 65536;

// So many bytes without a line feed are a line that is too long, even if the last is a carriage return.
const TOO_LONG: usize = LONGEST_LINE + 2;

// From `start` up to `end` of the buffer the text is read and its lines aren't yet taken; the text may have ended there.
// Stays beside felavuti's Window: that one counts the tape's offset and promises which bytes are at hand; with them a line would be no plainer.
#[derive(Drop)]
pub struct Text<'a> {
    source: Source<'a>,
    bytes: [u8; ROOM],
    start: usize,
    end: usize,
    ended: bool,
    ghost within: { (start ≤ end) × (end ≤ 65536) },
}

impl<'a> Text<'a> {
    pub fn new(source: Source<'a>) -> Text<'a> {
        Text {
            source,
            bytes: [0; ROOM],
            start: 0,
            end: 0,
            ended: false,
        }
    }

    // More is at hand, or the text has ended.
    fn read_more(&mut self, err: &impl Print) -> Result<(), Failed>
        ensures { OnOk result ((self.new.ended ≡ true) ⊎ (self.old.end - self.old.start < self.new.end - self.new.start)) }
    {
        let kept = move_down(&mut self.bytes, self.start, self.end);
        self.start = 0;
        self.end = kept;
        let more = self.source.read_behind(err, &mut self.bytes, kept)?;
        self.end = kept + more;
        self.ended = more == 0;
        Ok(())
    }

    // The next line, without what ends it: a line feed, which may have a carriage return before it, or the text's end. There is none where the text has ended.
    pub fn next_line(&mut self, err: &impl Print) -> Result<Option<&[u8]>, Failed> {
        loop {
            let start = self.start;
            let end = self.end;
            if let Some(length) = self.bytes[start..end].iter().position(|b| *b == b'\n') {
                self.start = start + length + 1;
                let text = &*self;
                return Ok(Some(trimmed(&text.bytes[start..start + length])));
            }
            if self.ended && start == end {
                return Ok(None);
            }
            if self.ended || end - start >= TOO_LONG {
                self.start = end;
                let text = &*self;
                return Ok(Some(trimmed(&text.bytes[start..end])));
            }
            self.read_more(err)?;
        }
    }
}

// A line without a carriage return at its end.
fn trimmed(line: &[u8]) -> &[u8] {
    line.strip_suffix(b"\r").unwrap_or(line)
}
