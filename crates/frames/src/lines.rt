// The input is lines of hexadecimal, each ended by 0A.
ghost use Rattle.std.specs.Prelude.{◌≡◌, ◌==◌, [], MatchOption, position};
ghost use Rattle.frames.specs.Decoding.{decoded_pairs, decoded_line, line_frame, kept, kept_line, framed_line};
ghost use Rattle.frames.specs.Lines.{digit_value, byte_value, lines_of};
ghost use Rattle.frames.specs.Splitting.{plain_line, First};

use crate::{Decoded, LineFault};

// The byte that ends a line.
const END: u8 = b'\n';

// The characters of a line, which 0A ended, or the input before one came.
#[derive(Clone, Copy, PartialEq, Eq, Debug)]
pub enum Line<'a> {
    Ended(&'a [u8]),
    Cut(&'a [u8]),
}

// The place of the first 0A.
fn line_end(input: &[u8]) -> Option<usize>
    ensures { result ≡ position (λ character. character == 10) input.now }
{
    input.iter().position(|character| *character == END)
}

// Splits off the first line; None for no input.
pub fn next_line(input: &[u8]) -> Option<(Line<'_>, &[u8])>
    ensures { MatchOption result (input.now ≡ []) (λ split. First input.now (plain_line split.0) split.1.now) }
{
    if input.is_empty() {
        return None;
    }
    match line_end(input) {
        Some(end) => Some((Line::Ended(&input[..end]), &input[end + 1..])),
        None => Some((Line::Cut(input), &input[input.len()..])),
    }
}

// The value of one character.
fn digit(character: u8) -> Option<u8>
    ensures { result ≡ digit_value character }
{
    match character {
        b'0'..=b'9' => Some(character - b'0'),
        b'A'..=b'F' => Some(character - b'A' + 10),
        _ => None,
    }
}

// The byte that a pair of characters is.
fn byte(high: u8, low: u8) -> Option<u8>
    ensures { result ≡ byte_value high low }
{
    Some(digit(high)? * 16 + digit(low)?)
}

// The first bytes of the pairs, if the characters are pairs to the last.
fn decode_pairs(characters: &[u8]) -> Option<Decoded>
    ensures { kept result ≡ decoded_pairs characters.now }
{
    let mut decoded = Decoded::new();
    let mut rest = characters;
    while let [high, low, others @ ..] = rest {
        decoded.push(byte(*high, *low)?);
        rest = others;
    }
    if rest.is_empty() { Some(decoded) } else { None }
}

// The first bytes of a line, if it holds pairs of hexadecimal characters, at least one, and is ended.
pub fn decode_line(line: Line<'_>) -> Result<Decoded, LineFault>
    ensures bytes { kept_line result ≡ decoded_line (plain_line line.entry) }
    ensures frame { framed_line result ≡ line_frame (plain_line line.entry) }
{
    match line {
        Line::Ended(characters) if !characters.is_empty() => {
            decode_pairs(characters).ok_or(LineFault::NotPairs)
        }
        _ => Err(LineFault::NotPairs),
    }
}
