// Why a change of a question is refused.
ghost use Rattle.std.specs.Prelude.{◌≡◌};
ghost use Rattle.catalogue.specs.Refusals.{change_number};
ghost use Rattle.catalogue.specs.declared.refusals.ChangeRefusal.TheVariants.{NoSuchKind};

#[derive(Clone, Copy, PartialEq, Eq, Debug)]
pub enum ChangeRefusal {
    TenTables = 1,
    TooManyRows = 2,
    NoSuchTable = 3,
    SameTable = 4,
    BadSelectivity = 5,
    AlreadyTied = 6,
    NoSuchKind = 7,
    AlreadyTested = 8,
    NoTest = 9,
    CostOutOfRange = 10,
}

impl ChangeRefusal {
    // The refusal's number, 1 to 10.
    pub fn number(self) -> u8
        ensures { result ≡ change_number self }
    {
        self as u8
    }
}

impl From<pricing::NoSuchKind> for ChangeRefusal {
    ghost from_gives = { λ _ refusal. refusal ≡ NoSuchKind };

    fn from(_: pricing::NoSuchKind) -> ChangeRefusal {
        ChangeRefusal::NoSuchKind
    }
}
