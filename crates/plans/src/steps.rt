// The operations of plan bytes, two bytes each.
ghost use Rattle.std.specs.Prelude.{◌≡◌};
ghost use Rattle.plans.specs.Steps.{StepOf, step_bytes};

// A table, the test that a table has on what precedes, or a join of the two newest parts.
#[derive(Clone, Copy, PartialEq, Eq, Debug)]
pub enum Step {
    Table(u8),
    Test(u8),
    Join,
}

// A pair of bytes that is no operation.
#[derive(Clone, Copy, PartialEq, Eq, Debug)]
pub struct NoStep;

impl From<Step> for [u8; 2] {
    ghost from_gives = { λ step bytes. bytes ≡ step_bytes step };

    fn from(step: Step) -> [u8; 2] {
        match step {
            Step::Table(table) => [0x10, table],
            Step::Test(table) => [0x11, table],
            Step::Join => [0x12, 0],
        }
    }
}

impl TryFrom<[u8; 2]> for Step {
    type Error = NoStep;

    ghost try_from_gives = { StepOf };

    fn try_from(bytes: [u8; 2]) -> Result<Step, NoStep> {
        match bytes {
            [0x10, table] => Ok(Step::Table(table)),
            [0x11, table] => Ok(Step::Test(table)),
            [0x12, 0] => Ok(Step::Join),
            _ => Err(NoStep),
        }
    }
}
