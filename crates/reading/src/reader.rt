// From a text to its number.
ghost use Rattle.std.specs.Prelude.{◌≡◌, ◌≤◌, [], ◌∷◌, IfOk};
ghost use Rattle.reading.specs.Outcomes.{digit_value, digits_value, unsigned_reading, plain, negative, reading, Meant};

use crate::ReadingFault;

// The value of one digit.
fn digit(byte: u8) -> Result<u32, ReadingFault>
    ensures { result ≡ digit_value byte }
{
    match byte {
        b'0'..=b'9' => Ok((byte - b'0') as u32),
        _ => Err(ReadingFault::WrongForm),
    }
}

// The number that five digits write.
fn five_digits(a: u8, b: u8, c: u8, d: u8, e: u8) -> Result<u32, ReadingFault>
    ensures outcome { result ≡ digits_value (a ∷ b ∷ c ∷ d ∷ e ∷ []) }
    ensures bound { IfOk result (λ m. m ≤ 99_999) }
{
    Ok(digit(a)? * 10_000 + digit(b)? * 1_000 + digit(c)? * 100 + digit(d)? * 10 + digit(e)?)
}

// A reading without its sign.
fn unsigned(text: &[u8]) -> Result<u32, ReadingFault>
    ensures outcome { result ≡ unsigned_reading text.now }
    ensures bound { IfOk result (λ m. m ≤ 99_999) }
{
    match text {
        [ones, b'.', a, b, c] => five_digits(b'0', *ones, *a, *b, *c),
        [b'0', ..] => Err(ReadingFault::WrongForm),
        [tens, ones, b'.', a, b, c] => five_digits(*tens, *ones, *a, *b, *c),
        _ => Err(ReadingFault::WrongForm),
    }
}

// A text that does not begin with a minus.
fn without_minus(text: &[u8]) -> Result<i32, ReadingFault>
    ensures { result ≡ plain (unsigned_reading text.now) }
{
    Ok(unsigned(text)? as i32)
}

// What follows a minus, which never stands on zero.
fn after_minus(text: &[u8]) -> Result<i32, ReadingFault>
    ensures { result ≡ negative (unsigned_reading text.now) }
{
    let magnitude = unsigned(text)? as i32;
    if magnitude == 0 {
        return Err(ReadingFault::WrongForm);
    }
    Ok(-magnitude)
}

// The number that the text means, in thousandths.
pub fn read(text: &[u8]) -> Result<i32, ReadingFault>
    ensures outcome { result ≡ reading text.now }
    ensures meaning { Meant text.now result }
{
    match text {
        [b'-', rest @ ..] => after_minus(rest),
        _ => without_minus(text),
    }
}
