// The lines that a program writes.
ghost use Rattle.std.specs.Prelude.{◌≡◌, ◌+◌, ◌*◌, ◌<◌, ◌≤◌, [], ◌∷◌, ◌++◌, length, take};
ghost use Rattle.frames.specs.Hexadecimal.{hex_line};
ghost use Rattle.program.specs.Labels.{label_byte};

use crate::labels::Label;
use frames::put_line;

// Room for a plan of 29 pairs, the longest price and the tries.
const ROOM: usize = 191;

// The bytes that are written so far, of which the first `len` count: lines are put into a lent room from a place on.
#[derive(Clone, Copy)]
pub struct Output {
    bytes: [u8; ROOM],
    len: usize,
    ghost room: { length bytes ≡ 191 },
    ghost within: { len ≤ 191 },
}

// A label and bytes, at the front of a room.
fn put_label(room: &mut [u8], label: u8, bytes: &[u8])
    requires { length bytes.now < length room.old }
    ensures { take (length bytes.now + 1) room.new ≡ label ∷ bytes.now }
{
    room[0] = label;
    room[1..bytes.len() + 1].copy_from_slice(bytes);
}

impl Output {
    // Nothing is written.
    pub(crate) fn empty() -> Output
        ensures empty { take result.len result.bytes ≡ [] }
        ensures len { result.len ≡ 0 }
    {
        Output {
            bytes: [0; ROOM],
            len: 0,
        }
    }

    // What is written.
    pub fn as_slice(&self) -> &[u8]
        ensures { result.now ≡ take self.now.len self.now.bytes }
    {
        &self.bytes[0..self.len]
    }

    // Writes bytes as a line.
    pub(crate) fn line(&mut self, bytes: &[u8])
        requires { self.old.len + (2 * length bytes.now + 1) ≤ 191 }
        ensures text { take self.new.len self.new.bytes ≡ take self.old.len self.old.bytes ++ hex_line bytes.now }
        ensures length { self.new.len ≡ self.old.len + (2 * length bytes.now + 1) }
    {
        if let Some(end) = put_line(&mut self.bytes, self.len, bytes) {
            self.len = end;
        }
    }

    // Writes a label and bytes as a line.
    pub(crate) fn labelled(&mut self, label: Label, bytes: &[u8])
        requires { (length bytes.now ≤ 12) × (self.old.len + (2 * length bytes.now + 3) ≤ 191) }
        ensures text { take self.new.len self.new.bytes ≡ take self.old.len self.old.bytes ++ hex_line (label_byte label ∷ bytes.now) }
        ensures length { self.new.len ≡ self.old.len + (2 * length bytes.now + 3) }
    {
        let mut room = [0; 13];
        put_label(&mut room, label as u8, bytes);
        self.line(&room[0..bytes.len() + 1]);
    }
}
