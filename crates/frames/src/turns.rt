// The turn says which kinds of frame may come: tables, then ties, tests and corrections in any order, then one end.
ghost use Rattle.std.specs.Prelude.{◌≡◌};
ghost use Rattle.frames.specs.Frames.{plain_frame};
ghost use Rattle.frames.specs.Turns.{turn_after, turn_finished};

use crate::{Frame, FrameFault};

#[derive(Clone, Copy, PartialEq, Eq, Debug)]
pub enum Turn {
    Tables,
    Predicates,
    Ended,
}

impl Turn {
    // The turn after the frame, if it may come.
    pub fn after(self, frame: &Frame<'_>) -> Result<Turn, FrameFault>
        ensures { result ≡ turn_after self (plain_frame frame.now) }
    {
        match (self, frame) {
            (Turn::Tables, Frame::Table { .. }) => Ok(Turn::Tables),
            (
                Turn::Tables | Turn::Predicates,
                Frame::Tie { .. } | Frame::Test { .. } | Frame::Correct { .. },
            ) => Ok(Turn::Predicates),
            (Turn::Tables | Turn::Predicates, Frame::End) => Ok(Turn::Ended),
            _ => Err(FrameFault::OutOfTurn),
        }
    }

    // After the last frame: whether an end was among them.
    pub fn finish(self) -> Result<(), FrameFault>
        ensures { result ≡ turn_finished self }
    {
        match self {
            Turn::Ended => Ok(()),
            Turn::Tables | Turn::Predicates => Err(FrameFault::NoEnd),
        }
    }
}
