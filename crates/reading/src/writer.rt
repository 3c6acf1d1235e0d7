// From a number to its text.
ghost use Rattle.std.specs.Prelude.{◌≡◌};
ghost use Rattle.reading.specs.Faults.{refusal_number};
ghost use Rattle.reading.specs.Texts.{last_digit, five_digits, laid};
ghost use Rattle.reading.specs.Outcomes.{Placed, Written, ReadsBack};

use crate::{GREATEST_READING, WriteRefusal};

impl WriteRefusal {
    // The number by which the refusal is reported.
    pub fn number(self) -> u8
        ensures { result ≡ refusal_number self }
    {
        self as u8
    }
}

// The character of the lowest digit.
fn last_digit(number: u32) -> u8
    ensures { result ≡ last_digit number }
{
    b'0' + (number % 10) as u8
}

// The characters of the five lowest digits.
fn five_digits(number: u32) -> [u8; 5]
    ensures { result ≡ five_digits number }
{
    [
        last_digit(number / 10_000),
        last_digit(number / 1_000),
        last_digit(number / 100),
        last_digit(number / 10),
        last_digit(number),
    ]
}

// Copies the text to the front of the buffer, if it is long enough.
fn put(text: &[u8], buffer: &mut [u8]) -> Result<usize, WriteRefusal>
    ensures { Placed text.now buffer.old buffer.new result }
{
    if buffer.len() < text.len() {
        return Err(WriteRefusal::BufferTooShort);
    }
    buffer[0..text.len()].copy_from_slice(text);
    Ok(text.len())
}

// Puts the text that the digits make, without a needless zero.
fn put_digits(minus: bool, digits: [u8; 5], buffer: &mut [u8]) -> Result<usize, WriteRefusal>
    ensures { Placed (laid minus digits) buffer.old buffer.new result }
{
    match (minus, digits) {
        (false, [b'0', ones, a, b, c]) => put(&[ones, b'.', a, b, c], buffer),
        (false, [tens, ones, a, b, c]) => put(&[tens, ones, b'.', a, b, c], buffer),
        (true, [b'0', ones, a, b, c]) => put(&[b'-', ones, b'.', a, b, c], buffer),
        (true, [tens, ones, a, b, c]) => put(&[b'-', tens, ones, b'.', a, b, c], buffer),
    }
}

// Writes the text of the number at the front of the buffer, and answers its length.
pub fn write(thousandths: i32, buffer: &mut [u8]) -> Result<usize, WriteRefusal>
    ensures outcome { Written thousandths buffer.old buffer.new result }
    ensures meaning { ReadsBack thousandths buffer.new result }
{
    if thousandths < -GREATEST_READING || thousandths > GREATEST_READING {
        return Err(WriteRefusal::BeyondRange);
    }
    put_digits(
        thousandths < 0,
        five_digits(thousandths.unsigned_abs()),
        buffer,
    )
}
