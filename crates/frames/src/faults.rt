// Why a line or a frame is refused.
ghost use Rattle.std.specs.Prelude.{◌≡◌};
ghost use Rattle.frames.specs.Faults.{layer_number, line_fault_number, line_fault_layer, frame_fault_number, frame_fault_layer};
ghost use Rattle.frames.specs.declared.faults.FrameFault.TheVariants.{Reading};

use crate::Layer;
use reading::ReadingFault;

#[derive(Clone, Copy, PartialEq, Eq, Debug)]
pub enum LineFault {
    NotPairs = 21,
}

impl LineFault {
    // The number by which the fault is reported.
    pub fn number(self) -> u8
        ensures { result ≡ line_fault_number self }
    {
        self as u8
    }

    // The layer that reports it.
    pub fn layer(self) -> Layer
        ensures { layer_number result ≡ line_fault_layer self }
    {
        Layer::Lines
    }
}

#[derive(Clone, Copy, PartialEq, Eq, Debug)]
pub enum FrameFault {
    BadFrame,
    OutOfTurn,
    NoEnd,
    Reading(ReadingFault),
}

impl FrameFault {
    // The number by which the fault is reported: a reading's fault keeps its own, so it can't be a discriminant.
    pub fn number(self) -> u8
        ensures { result ≡ frame_fault_number self }
    {
        match self {
            FrameFault::BadFrame => 22,
            FrameFault::OutOfTurn => 23,
            FrameFault::NoEnd => 24,
            FrameFault::Reading(cause) => cause.number(),
        }
    }

    // The layer that reports it.
    pub fn layer(self) -> Layer
        ensures { layer_number result ≡ frame_fault_layer self }
    {
        Layer::Frames
    }
}

// `From` is written out: the kit's derive of it has no contract, and clauses name the fault that `?` makes.
impl From<ReadingFault> for FrameFault {
    ghost from_gives = { λ e r. r ≡ Reading e };

    fn from(fault: ReadingFault) -> FrameFault {
        FrameFault::Reading(fault)
    }
}
