// Reads the plan of a row off the choices of the rows, as plan bytes.
#![tactic(auto)]

ghost use Rattle.std.specs.Prelude.{◌≤◌, length};
ghost use Rattle.plans.specs.Plans.{Plan, WellFormed};
ghost use Rattle.plans.specs.Questions.{Question};
ghost use Rattle.plans.specs.Spelling.{spelled};
ghost use Rattle.pricing.specs.Models.{Model};
ghost use Rattle.readoff.specs.Leads.{choice_in};
ghost use Rattle.readoff.specs.Statement.{LeadsToPlans};
ghost use Rattle.readoff.specs.Written.{ReadOff};

mod choices;
mod reading;

use buffers::Bytes;
pub use choices::{BARE_TABLE, Choice, FIRST_JOIN, FIRST_TEST, choice_at};
use reading::emit;
use sets::{Row, SmallSet};

// No plan of ten tables has more bytes.
pub const MOST_PLAN_BYTES: usize = 58;

// The bytes of a plan.
pub type PlanBytes = Bytes<MOST_PLAN_BYTES>;

// Writes the plan of the row at the front of the buffer, and answers the number of its bytes; None if the choices lead to no plan,
// or to one that is longer than the buffer. `tested` are the tables that have a test.
pub fn read_off(choices: &[u16], tested: SmallSet, row: Row, buffer: &mut [u8]) -> Option<usize>
    ensures { ReadOff (choice_in choices.now tested.bits) row.tables.bits row.tests.bits buffer.old buffer.new result }
{
    emit(choices, tested, row, buffer, 0)
}

// The choices of the recurrence lead to its plans, under any model with prices of the type P.
pub fn choices_lead_to_the_plan<P>()
    ensures { (m : Model P) (Q : Question) → LeadsToPlans m Q }
{}

// A buffer of 58 bytes holds every plan of a question with at most ten tables.
pub fn plans_have_at_most_58_bytes()
    ensures { (Q : Question) (p : Plan) → Q.count ≤ 10 → WellFormed Q p → length (spelled p) ≤ 58 }
{}
