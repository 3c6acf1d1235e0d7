// What solving answers.
ghost use Rattle.std.specs.Prelude.{◌≡◌};
ghost use Rattle.solver.specs.Solves.{solve_number};

use readoff::PlanBytes;

// Why there is no plan to tell, each with its number.
#[derive(Clone, Copy, PartialEq, Eq, Debug)]
pub enum SolveRefusal {
    NoTables = 11,
    ListTooShort = 12,
    NoPlan = 13,
    PastCount = 14,
}

impl SolveRefusal {
    // The refusal's number, 11 to 14.
    pub fn number(self) -> u8
        ensures { result ≡ solve_number self }
    {
        self as u8
    }
}

// A plan in bytes, with its price and the tries it took to find it.
#[derive(Clone, Copy)]
pub struct Solution<P> {
    pub plan: PlanBytes,
    pub price: P,
    pub tries: u64,
}
