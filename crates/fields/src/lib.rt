// Fields of bytes: a tag of one byte, a length of two, a value; and numbers of a few bytes, high byte first. What a tag means is its user's matter.
// The functions that read a number or write demand room of their callers; `header_at` demands nothing.
#![tactic(auto)]

ghost use Rattle.std.specs.Prelude.{◌≡◌, ◌++◌, ◌+◌, ◌≤◌, ◌<◌, length, drop};
ghost use Rattle.fields.specs.Bytes.{number, bytes};
ghost use Rattle.overlay.specs.Over.{Put};
ghost use Rattle.fields.specs.Fields.{front_of};
ghost use Rattle.fields.specs.Output.{Lent};

// Tag and length together.
pub const HEADER: usize = 3;

const TAG: usize = 1;

const LENGTH: usize = 2;

const BYTE: u64 = 256;

// A field's tag and the length of its value.
#[derive(Clone, Copy)]
pub struct Header {
    pub tag: u64,
    pub length: u64,
}

// Some bytes are left, and too few for a header.
#[derive(Clone, Copy)]
pub struct Stump;

// The number in k bytes from a place on; k is 1, 2 or 8, so that `from_be_bytes` would be three functions.
pub fn number_at(tape: &[u8], at: usize, k: usize) -> u64
    requires { (at + k ≤ length tape.now) × (k ≤ 8) }
    ensures { result ≡ number k (drop at tape.now) }
{
    let mut n = 0;
    for byte in &tape[at..at + k] {
        n = n * BYTE + u64::from(*byte);
    }
    n
}

// The header that stands at a place; past the end none does.
pub fn header_at(tape: &[u8], at: usize) -> Result<Option<Header>, Stump>
    ensures { result ≡ front_of (drop at tape.now) }
{
    if tape.len() <= at {
        return Ok(None);
    }
    if tape.len() - at < HEADER {
        return Err(Stump);
    }
    Ok(Some(Header {
        tag: u64::from(tape[at]),
        length: number_at(tape, at + TAG, LENGTH),
    }))
}

// A lent buffer, and the place in it to which the next bytes go.
#[derive(Drop)]
pub struct Output<'a> {
    pub bytes: &'a mut [u8],
    pub at: usize,
}

impl Output<'_> {
    // Some bytes.
    pub fn put(&mut self, bytes: &[u8])
        requires { self.old.at + length bytes.now ≤ length self.old.bytes.now }
        ensures lent { Lent self.old self.new }
        ensures put { Put self.old.bytes.now self.old.at bytes.now self.new.bytes.now self.new.at }
    {
        let behind = self.at + bytes.len();
        self.bytes[self.at..behind].copy_from_slice(bytes);
        self.at = behind;
    }

    // A number in k bytes.
    pub fn put_number(&mut self, k: usize, n: u64)
        requires { self.old.at + k ≤ length self.old.bytes.now }
        ensures lent { Lent self.old self.new }
        ensures put { Put self.old.bytes.now self.old.at (bytes k n) self.new.bytes.now self.new.at }
        ensures place { self.new.at ≡ self.old.at + k }
    {
        let behind = self.at + k;
        let mut rest = n;
        for i in (self.at..behind).rev() {
            self.bytes[i] = (rest % BYTE) as u8;
            rest /= BYTE;
        }
        self.at = behind;
    }

    // Tag and length.
    #[tactic(auto, using(overlay::proofs::Over::put_more))]
    pub fn put_header(&mut self, header: Header)
        requires { self.old.at + 3 ≤ length self.old.bytes.now }
        ensures lent { Lent self.old self.new }
        ensures put { Put self.old.bytes.now self.old.at (bytes 1 header.tag ++ bytes 2 header.length) self.new.bytes.now self.new.at }
        ensures place { self.new.at ≡ self.old.at + 3 }
    {
        self.put_number(TAG, header.tag);
        self.put_number(LENGTH, header.length);
    }
}
