// What a question holds beside its model.
use catalogue::Catalogue;
use solver::Solution;

// The tables, ties and tests, and the plan that stands, with its price and tries.
#[derive(Clone, Copy)]
pub struct Held<P> {
    pub catalogue: Catalogue,
    pub standing: Option<Solution<P>>,
}
