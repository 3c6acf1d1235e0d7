// A question under a price model: the seven calls, and the law that no told plan is undercut.
#![tactic(auto)]

ghost use Rattle.planner.specs.Law.{Law};

use pricing::PriceModel;

mod calls;
mod held;
mod questions;
mod refusals;
mod runs;

pub use calls::{Call, Reply};
pub use held::Held;
pub use questions::Question;
pub use refusals::{Refusal, TellRefusal};
pub use runs::replay;

// The law over runs of calls, for every model: whatever was called since a question was made, what tell answers is a cheapest plan of the
// question as it stands, and solve refuses only where there is none to tell.
pub fn told_plans_are_never_undercut<M: PriceModel>(model: &M)
    ensures { Law (M.meaning model.now) }
{}
