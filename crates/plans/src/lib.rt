// What a question, a plan and its price are, and that the recurrence over sets of tables and tests finds a cheapest plan.
#![tactic(auto)]

ghost use Rattle.plans.specs.Questions.{Question};
ghost use Rattle.plans.specs.Samples.{Samples};
ghost use Rattle.plans.specs.Spelling.{SpelledOneWay};
ghost use Rattle.plans.specs.Statement.{Planned, ValidByCounting};

use pricing::PriceModel;

mod entries;
mod predicates;
mod steps;

pub use entries::Entry;
pub use predicates::{Test, Tie};
pub use steps::{NoStep, Step};

// Under the model the recurrence gives every question a cheapest valid plan wherever there is a valid one.
pub fn recurrence_is_cheapest<M: PriceModel>(model: &M)
    ensures { (Q : Question) → Planned (M.meaning model.now) Q }
{}

// A plan is valid just where each table and each test stands once in it, in its place, and nothing else.
pub fn valid_plans_are_counted()
    ensures { (Q : Question) → ValidByCounting Q }
{}

// Each plan has one spelling in bytes, and bytes spell one plan or none.
pub fn plans_are_spelled_one_way()
    ensures { SpelledOneWay }
{}

// The sample questions have the outcomes that the handbook gives.
pub fn samples_hold()
    ensures { Samples }
{}
