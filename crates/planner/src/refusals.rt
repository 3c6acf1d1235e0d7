// Why a call is refused.
ghost use Rattle.std.specs.Prelude.{◌≡◌};
ghost use Rattle.planner.specs.Refusals.{refusal_number, tell_number};
ghost use Rattle.planner.specs.declared.refusals.Refusal.TheVariants.{Change, Check, Solve, Tell};

use catalogue::ChangeRefusal;
use checker::CheckRefusal;
use solver::SolveRefusal;

#[derive(Clone, Copy, PartialEq, Eq, Debug)]
pub enum TellRefusal {
    NothingStands = 15,
    BufferTooShort = 17,
}

impl TellRefusal {
    // The refusal's number: 15 or 17.
    pub fn number(self) -> u8
        ensures { result ≡ tell_number self }
    {
        self as u8
    }
}

// A refusal of any call.
#[derive(Clone, Copy, PartialEq, Eq, Debug)]
pub enum Refusal {
    Change(ChangeRefusal),
    Solve(SolveRefusal),
    Tell(TellRefusal),
    Check(CheckRefusal),
}

impl Refusal {
    // The refusal's number, 1 to 19, which its cause has.
    pub fn number(self) -> u8
        ensures { result ≡ refusal_number self }
    {
        match self {
            Refusal::Change(refusal) => refusal.number(),
            Refusal::Solve(refusal) => refusal.number(),
            Refusal::Tell(refusal) => refusal.number(),
            Refusal::Check(refusal) => refusal.number(),
        }
    }
}

// `From` is written out: the kit's derive of it has no contract, and clauses name the refusal that `?` makes.
impl From<ChangeRefusal> for Refusal {
    ghost from_gives = { λ e r. r ≡ Change e };

    fn from(refusal: ChangeRefusal) -> Refusal {
        Refusal::Change(refusal)
    }
}

impl From<SolveRefusal> for Refusal {
    ghost from_gives = { λ e r. r ≡ Solve e };

    fn from(refusal: SolveRefusal) -> Refusal {
        Refusal::Solve(refusal)
    }
}

impl From<TellRefusal> for Refusal {
    ghost from_gives = { λ e r. r ≡ Tell e };

    fn from(refusal: TellRefusal) -> Refusal {
        Refusal::Tell(refusal)
    }
}

impl From<CheckRefusal> for Refusal {
    ghost from_gives = { λ e r. r ≡ Check e };

    fn from(refusal: CheckRefusal) -> Refusal {
        Refusal::Check(refusal)
    }
}
