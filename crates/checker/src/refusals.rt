// Why a check is refused.
ghost use Rattle.std.specs.Prelude.{◌≡◌};
ghost use Rattle.checker.specs.Refusals.{check_number};

#[derive(Clone, Copy, PartialEq, Eq, Debug)]
pub enum CheckRefusal {
    ListTooShort = 12,
    BadPair = 18,
    NoValidPlan = 19,
}

impl CheckRefusal {
    // The refusal's number: 12, 18 or 19.
    pub fn number(self) -> u8
        ensures { result ≡ check_number self }
    {
        self as u8
    }
}
