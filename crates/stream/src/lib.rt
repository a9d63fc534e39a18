// What the programs that read a stream have in common: its source, named by the first argument, what is at hand of it in a lent buffer, and what goes out.
// Whatever fails is said on standard error, with its name.
#![tactic(auto)]

ghost use Rattle.std.specs.Prelude.{◌≡◌, ◌+◌, ◌-◌, ◌≤◌, length, take, drop, IfOk};
ghost use Rattle.std.proofs.Math.Seq.{paste};

use std::env::FillError;
use std::fs::File;
use std::io;
use std::io::{Print, Read, Stdin, Write};
use std::rt::Env;

// The system's numbers of two errors: a name is too long; and one is no UTF-8, which std can't open.
const TOO_LONG: i32 = 36;

const NOT_TEXT: i32 = 84;

// No words of an error are longer; and what stands behind them, with the system's number.
const WORDS: usize = 128;

const OS_ERROR: &[u8] = b" (os error ";

// Something failed, and was said on standard error.
#[derive(Clone, Copy, Debug)]
pub struct Failed;

// Where the bytes come from.
#[derive(Drop)]
pub enum Input {
    Standard(Stdin),
    Named(File),
}

impl Read for Input {
    fn read(&mut self, buf: &mut [u8]) -> io::Result<usize> {
        match self {
            Input::Standard(stdin) => stdin.read(buf),
            Input::Named(file) => file.read(buf),
        }
    }
}

// A stream, and its name.
#[derive(Drop)]
pub struct Source<'a, R = Input> {
    pub input: R,
    pub name: &'a [u8],
}

impl<'a> Source<'a> {
    // The file that the program's first argument names, whose name is put into a lent buffer, or standard input where there is no argument.
    pub fn open(rt: &HostRuntime, buffer: &'a mut [u8]) -> Result<Source<'a>, Failed> {
        match rt.arg(1, buffer) {
            Ok(length) => {
                let name = &buffer[..length];
                let input = open_named(rt, name)?;
                Ok(Source { input, name })
            }
            Err(FillError::NotPresent) => Ok(Source {
                input: Input::Standard(rt.stdin()),
                name: b"standard input",
            }),
            Err(FillError::TooLong) => Err(fail(
                &rt.stderr(),
                b"the first argument",
                io::Error::from_raw_os_error(TOO_LONG),
            )),
        }
    }
}

impl<R: Read> Source<'_, R> {
    // One read, behind the bytes that are kept, which stay as they are; the stream has ended where it brings none. A failure is said, with the name of what
    // is read.
    pub fn read_behind(
        &mut self,
        err: &impl Print,
        buffer: &mut [u8],
        kept: usize,
    ) -> Result<usize, Failed>
        requires { kept ≤ length buffer.old }
        ensures within { IfOk result (λ bytes. kept + bytes ≤ length buffer.old) }
        ensures kept { take kept buffer.new ≡ take kept buffer.old }
    {
        let name = self.name;
        self.input
            .read(&mut buffer[kept..])
            .map_err(|error| fail(err, name, error))
    }
}

// The file of a name, if it can be opened.
fn open_named(rt: &HostRuntime, name: &[u8]) -> Result<Input, Failed> {
    let opened = match std::str::from_utf8(name) {
        Ok(text) => File::open(rt, text),
        Err(_) => Err(io::Error::from_raw_os_error(NOT_TEXT)),
    };
    opened
        .map(Input::Named)
        .map_err(|error| fail(&rt.stderr(), name, error))
}

// Where the words of an error end: std puts the system's number behind them.
fn words_end(text: &[u8]) -> usize
    ensures { result ≤ length text.now }
{
    text.windows(OS_ERROR.len())
        .position(|part| part == OS_ERROR)
        .unwrap_or(text.len())
}

// A line on standard error: what failed, a colon, and the words of its error. A line that can't be written is lost.
pub fn fail(err: &impl Print, what: &[u8], error: io::Error) -> Failed {
    let mut text = [0u8; WORDS];
    let mut left = &mut text[..];
    let _ = write!(left, "{error}");
    let n = WORDS.saturating_sub(left.len());
    let end = words_end(&text[..n]);
    let _ = err.write_all(what);
    let _ = err.write_all(b": ");
    let _ = err.write_all(&text[..end]);
    let _ = err.write_all(b"\n");
    Failed
}

// The bytes from `from` up to `end` move to the front of the buffer; how many they are.
pub fn move_down(buffer: &mut [u8], from: usize, end: usize) -> usize
    requires { (from ≤ end) × (end ≤ length buffer.old) }
    ensures { (result ≡ end - from) × (buffer.new ≡ paste buffer.old 0 (drop from buffer.old) (end - from)) }
{
    buffer.copy_within(from..end, 0);
    end - from
}

// A text goes out.
pub fn write_out(out: &impl Print, err: &impl Print, text: &[u8]) -> Result<(), Failed> {
    out.write_all(text)
        .map_err(|error| fail(err, b"standard output", error))
}
