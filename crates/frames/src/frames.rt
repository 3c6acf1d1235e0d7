// A frame is its kind byte and the rest. Numbers of several bytes have the highest byte first.
ghost use Rattle.std.specs.Prelude.{◌≡◌};
ghost use Rattle.frames.specs.Frames.{frame_of, correction_of, plain};

use crate::FrameFault;

// The kind bytes, as the format has them: a slice pattern names kind and fields in one.
const TABLE: u8 = 1;

const TIE: u8 = 2;

const TEST: u8 = 3;

const CORRECT: u8 = 4;

const END: u8 = 5;

#[derive(Clone, Copy, PartialEq, Eq, Debug)]
pub enum Frame<'a> {
    Table {
        rows: u32,
    },
    Tie {
        table: u8,
        other: u8,
        p: u16,
        q: u16,
        cost: u16,
    },
    Test {
        table: u8,
        p: u16,
        q: u16,
        cost: u16,
        kind: u8,
    },
    Correct {
        table: u8,
        reading: &'a [u8],
    },
    End,
}

impl Frame<'_> {
    // The frame that the bytes are. A correction keeps its reading as the characters that stand in the bytes.
    pub fn decode(bytes: &[u8]) -> Result<Frame<'_>, FrameFault>
        ensures { plain result ≡ frame_of bytes.now }
    {
        match bytes {
            [TABLE, a, b, c, d] => Ok(Frame::Table {
                rows: u32::from_be_bytes([*a, *b, *c, *d]),
            }),
            [TIE, table, other, ph, pl, qh, ql, ch, cl] => Ok(Frame::Tie {
                table: *table,
                other: *other,
                p: u16::from_be_bytes([*ph, *pl]),
                q: u16::from_be_bytes([*qh, *ql]),
                cost: u16::from_be_bytes([*ch, *cl]),
            }),
            [TEST, table, ph, pl, qh, ql, ch, cl, kind] => Ok(Frame::Test {
                table: *table,
                p: u16::from_be_bytes([*ph, *pl]),
                q: u16::from_be_bytes([*qh, *ql]),
                cost: u16::from_be_bytes([*ch, *cl]),
                kind: *kind,
            }),
            [CORRECT, table, reading @ ..] if reading.len() >= 5 && reading.len() <= 7 => {
                Ok(Frame::Correct {
                    table: *table,
                    reading,
                })
            }
            [END] => Ok(Frame::End),
            _ => Err(FrameFault::BadFrame),
        }
    }
}

// What a correction's reading means, in thousandths.
pub fn correction(reading: &[u8]) -> Result<i32, FrameFault>
    ensures { result ≡ correction_of reading.now }
{
    Ok(reading::read(reading)?)
}
