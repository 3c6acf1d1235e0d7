// Why a program writes no plan.
ghost use Rattle.std.specs.Prelude.{◌≡◌};
ghost use Rattle.frames.specs.Faults.{layer_number};
ghost use Rattle.program.specs.Faults.{on_line, program_layer, program_number};
ghost use Rattle.program.specs.declared.faults.ProgramFault.TheVariants.{Change, Frame, Line, Solve};

use catalogue::ChangeRefusal;
use frames::{FrameFault, Layer, LineFault};
use solver::SolveRefusal;

// The fault of a layer below, unchanged, or that the input is too long.
#[derive(Clone, Copy, PartialEq, Eq, Debug)]
pub enum ProgramFault {
    InputTooLong,
    Line(LineFault),
    Frame(FrameFault),
    Change(ChangeRefusal),
    Solve(SolveRefusal),
}

impl ProgramFault {
    // The refusal's number, which its cause has.
    pub fn number(self) -> u8
        ensures { result ≡ program_number self }
    {
        match self {
            ProgramFault::InputTooLong => 25,
            ProgramFault::Line(fault) => fault.number(),
            ProgramFault::Frame(fault) => fault.number(),
            ProgramFault::Change(refusal) => refusal.number(),
            ProgramFault::Solve(refusal) => refusal.number(),
        }
    }

    // The layer that refuses.
    pub fn layer(self) -> Layer
        ensures { layer_number result ≡ program_layer self }
    {
        match self {
            ProgramFault::InputTooLong => Layer::Lines,
            ProgramFault::Line(fault) => fault.layer(),
            ProgramFault::Frame(fault) => fault.layer(),
            ProgramFault::Change(_) => Layer::Changes,
            ProgramFault::Solve(_) => Layer::Solve,
        }
    }
}

// A fault and the number of the line that it names.
#[derive(Clone, Copy, PartialEq, Eq, Debug)]
pub struct Refused {
    pub fault: ProgramFault,
    pub line: u16,
}

// What was judged, or the refusal of the line that it names.
pub(crate) fn at_line<T>(judged: Result<T, ProgramFault>, line: u16) -> Result<T, Refused>
    ensures { result ≡ on_line line judged }
{
    judged.map_err(|fault| Refused { fault, line })
}

// `From` is written out: the kit's derive of it has no contract, and clauses name the fault that `?` makes.
impl From<LineFault> for ProgramFault {
    ghost from_gives = { λ e r. r ≡ Line e };

    fn from(fault: LineFault) -> ProgramFault {
        ProgramFault::Line(fault)
    }
}

impl From<FrameFault> for ProgramFault {
    ghost from_gives = { λ e r. r ≡ Frame e };

    fn from(fault: FrameFault) -> ProgramFault {
        ProgramFault::Frame(fault)
    }
}

impl From<ChangeRefusal> for ProgramFault {
    ghost from_gives = { λ e r. r ≡ Change e };

    fn from(refusal: ChangeRefusal) -> ProgramFault {
        ProgramFault::Change(refusal)
    }
}

impl From<SolveRefusal> for ProgramFault {
    ghost from_gives = { λ e r. r ≡ Solve e };

    fn from(refusal: SolveRefusal) -> ProgramFault {
        ProgramFault::Solve(refusal)
    }
}
