// Lines of hexadecimal, frames, and the turn of their reader.
#![tactic(auto)]

ghost use Rattle.frames.specs.Laws.{CutAtEnds, LinesReadBack, TenDecide};
ghost use Rattle.frames.specs.Samples.{Samples};

mod decoded;
mod faults;
mod frames;
mod hexadecimal;
mod layers;
mod lines;
mod turns;

pub use decoded::{Decoded, KEPT};
pub use faults::{FrameFault, LineFault};
pub use frames::{Frame, correction};
pub use hexadecimal::put_line;
pub use layers::Layer;
pub use lines::{Line, decode_line, next_line};
pub use turns::Turn;

// The lines of an input are the input, cut at each 0A.
pub fn lines_are_the_input()
    ensures { CutAtEnds }
{}

// A written line is a line of its own, and decoding it gives the bytes back.
pub fn written_lines_read_back()
    ensures { LinesReadBack }
{}

// The first ten bytes of a line decide which frame it is.
pub fn ten_bytes_decide_the_frame()
    ensures { TenDecide }
{}

// Lines, frames and refusals by example.
pub fn samples_hold()
    ensures { Samples }
{}
