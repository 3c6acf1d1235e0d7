// A plan is read off from its row downwards, and written in postorder.
ghost use Rattle.std.specs.Prelude.{◌≤◌, length};
ghost use Rattle.buffers.specs.Put.{PutOrNot};
ghost use Rattle.plans.specs.Steps.{step_bytes};
ghost use Rattle.readoff.specs.Leads.{choice_in};
ghost use Rattle.readoff.specs.Written.{Emitted};

use crate::choices::{Choice, choice_at};
use buffers::put_pair;
use plans::Step;
use sets::{Row, SmallSet};

// Writes the plan of the row from `at` on, and answers where it ends.
pub(crate) fn emit(
    choices: &[u16],
    tested: SmallSet,
    row: Row,
    buffer: &mut [u8],
    at: usize,
) -> Option<usize>
    requires { at ≤ length buffer.old }
    ensures { Emitted (choice_in choices.now tested.bits) row.tables.bits row.tests.bits buffer.old buffer.new at result }
{
    let choice = choice_at(choices, tested, row)?;
    match choice {
        Choice::Table(table) => put(buffer, at, Step::Table(table)),
        Choice::Test { test, input } => {
            let end = emit(choices, tested, input, buffer, at)?;
            put(buffer, end, Step::Test(test))
        }
        Choice::Join { left, right } => {
            let middle = emit(choices, tested, left, buffer, at)?;
            let end = emit(choices, tested, right, buffer, middle)?;
            put(buffer, end, Step::Join)
        }
    }
}

// Writes one operation at `at`, and answers where it ends; None if there is no room for it.
fn put(buffer: &mut [u8], at: usize, step: Step) -> Option<usize>
    ensures { PutOrNot buffer.old buffer.new at (step_bytes step) result }
{
    let [first, second]: [u8; 2] = step.into();
    put_pair(buffer, at, first, second)
}
