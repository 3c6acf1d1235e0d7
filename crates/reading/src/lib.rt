// Readings: the text of a signed number of thousandths, as `-0.250`.
#![tactic(auto)]

ghost use Rattle.std.specs.Prelude.{◌≡◌};
ghost use Rattle.reading.specs.Faults.{fault_number};
ghost use Rattle.reading.specs.Undo.{Undo, Samples};

mod reader;
mod writer;

pub use reader::read;
pub use writer::write;

// Readings go from the negative of this to this.
pub const GREATEST_READING: i32 = 99_999;

// The length of the longest text.
pub const LONGEST_TEXT: usize = 7;

// Why a text is no reading.
#[derive(Clone, Copy, PartialEq, Eq, Debug)]
pub enum ReadingFault {
    WrongForm = 20,
}

// Why a number was not written.
#[derive(Clone, Copy, PartialEq, Eq, Debug)]
pub enum WriteRefusal {
    BeyondRange = 16,
    BufferTooShort = 17,
}

impl ReadingFault {
    // The number by which the fault is reported.
    pub fn number(self) -> u8
        ensures { result ≡ fault_number self }
    {
        self as u8
    }
}

// Reading and writing undo each other, so that each number has one text and each text one number.
pub fn reading_and_writing_undo_each_other()
    ensures law { Undo }
    ensures samples { Samples }
{}
