// What is wrong with a line, and what is said of it on standard error: the line's number, its first wrong word, and what is wrong.

// A word that is not what it should be; or the whole line isn't.
#[derive(Clone, Copy)]
pub enum Fault<'a> {
    NoKind(&'a [u8]),
    NoSide(&'a [u8]),
    NoNumber(&'a [u8]),
    TooLarge(&'a [u8]),
    TooMany(&'a [u8]),
    TooFew,
    TooLong,
}

fn put(err: &impl Print, text: &[u8]) {
    let _ = err.write_all(text);
}

// A word may be any bytes, so it isn't printed as text.
fn put_word(err: &impl Print, word: &[u8], fault: &[u8]) {
    put(err, b"'");
    put(err, word);
    put(err, fault);
}

pub fn say(err: &impl Print, line: u64, fault: Fault<'_>) {
    let _ = print!(err; "punch: line {line}: ");
    match fault {
        Fault::NoKind(word) => put_word(err, word, b"' is no kind of order\n"),
        Fault::NoSide(word) => put_word(err, word, b"' is no side\n"),
        Fault::NoNumber(word) => put_word(err, word, b"' is no number\n"),
        Fault::TooLarge(word) => put_word(err, word, b"' is above 18446744073709551615\n"),
        Fault::TooMany(word) => put_word(err, word, b"' is a word too many\n"),
        Fault::TooFew => put(err, b"too few words\n"),
        Fault::TooLong => put(err, b"longer than 4096 bytes\n"),
    }
}
