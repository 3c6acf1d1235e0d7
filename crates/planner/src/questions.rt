// A question under a price model, with what always holds of it.
ghost use Rattle.catalogue.specs.Asked.{asked};
ghost use Rattle.planner.specs.Standing.{StandsValid};

use crate::Held;
use pricing::PriceModel;

mod changes;
mod planning;

// The model is kept for good. What stands is a valid plan of the question as it stands.
#[derive(Drop)]
pub struct Question<M: PriceModel> {
    model: M,
    held: Held<M::Price>,
    ghost valid: { ∥ StandsValid (asked held.catalogue) held.standing ∥₁ },
}
