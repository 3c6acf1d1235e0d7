// A price of Fetches first.
ghost use Rattle.std.specs.Prelude.{T};
ghost use Rattle.pricing.specs.Counts.{counts};

// Fetches, and then milliseconds. Only the price past the count has as many fetches as the limit.
#[derive(Clone, Copy, PartialEq, Eq, PartialOrd, Ord, Debug)]
pub struct FetchPrice {
    pub fetches: u32,
    pub ms: u64,
    ghost whole: { T (counts fetches ms) },
}
