// The kind of a test.
ghost use Rattle.std.specs.Prelude.{◌≡◌};
ghost use Rattle.pricing.specs.Kinds.{NumberOf, kind_number};

// A look reads the catalogue; a fetch sends the gripper for a cartridge.
#[derive(Clone, Copy, PartialEq, Eq, Debug)]
pub enum Kind {
    Look = 0,
    Fetch = 1,
}

// A number that no kind has.
#[derive(Clone, Copy, PartialEq, Eq, Debug)]
pub struct NoSuchKind(pub u8);

impl Kind {
    // 0 for a look, 1 for a fetch.
    pub fn number(self) -> u8
        ensures { result ≡ kind_number self }
    {
        self as u8
    }
}

// The kind that has this number; none but 0 and 1 has one.
impl TryFrom<u8> for Kind {
    type Error = NoSuchKind;

    ghost try_from_gives = { NumberOf };

    fn try_from(number: u8) -> Result<Kind, NoSuchKind> {
        match number {
            0 => Ok(Kind::Look),
            1 => Ok(Kind::Fetch),
            _ => Err(NoSuchKind(number)),
        }
    }
}
