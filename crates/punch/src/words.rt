// What a word of a line means, which spaces and tabs keep apart: a side or a number. The word is absent where the line has too few.
use crate::faults::Fault;
use models::Side;

const TEN: u64 = 10;

pub fn is_gap(b: u8) -> bool {
    b == b' ' || b == b'\t'
}

pub fn side_of(word: Option<&[u8]>) -> Result<Side, Fault<'_>> {
    let word = word.ok_or(Fault::TooFew)?;
    match word {
        b"bid" => Ok(Side::Bid),
        b"ask" => Ok(Side::Ask),
        _ => Err(Fault::NoSide(word)),
    }
}

// Not by `parse`: a word may be no text, and one that is too large is told from one that is no number.
pub fn number_of(word: Option<&[u8]>) -> Result<u64, Fault<'_>> {
    let word = word.ok_or(Fault::TooFew)?;
    let mut number: u64 = 0;
    for b in word {
        let digit = char::from(*b).to_digit(10).ok_or(Fault::NoNumber(word))?;
        number = number
            .checked_mul(TEN)
            .and_then(|tens| tens.checked_add(u64::from(digit)))
            .ok_or(Fault::TooLarge(word))?;
    }
    Ok(number)
}
