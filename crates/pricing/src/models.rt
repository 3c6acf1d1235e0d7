// The price model: five answers, and the laws that they keep.
ghost use Rattle.std.specs.Prelude.{◌≡◌};
ghost use Rattle.pricing.specs.Models.{Model, Lawful, cheaper as cheaper_by};

use crate::Kind;

// A model's answers depend only on their inputs and its settings; asking for one changes nothing and is never refused.
pub trait PriceModel {
    type Price: Copy;

    // What the model means.
    ghost meaning: { Self → Model Self.Price };

    // A bare table's price, from its rows.
    fn bare(&self, rows: u32) -> Self::Price
        ensures { result ≡ (meaning self.now).bare rows };

    // A test's price, from the price and the size of its input, and the test's cost and kind.
    fn tested(&self, input: Self::Price, size: u32, cost: u16, kind: Kind) -> Self::Price
        ensures { result ≡ (meaning self.now).tested input size cost kind };

    // A join's price, from the prices and the sizes of both sides, the result's size, and the summed costs of the ties across.
    fn joined(
        &self,
        left: Self::Price,
        right: Self::Price,
        left_size: u32,
        right_size: u32,
        size: u32,
        costs: u32,
    ) -> Self::Price
        ensures { result ≡ (meaning self.now).joined left right left_size right_size size costs };

    // Whether `a` is at most `b`.
    fn at_most(&self, a: Self::Price, b: Self::Price) -> bool
        ensures { result ≡ (meaning self.now).at_most a b };

    // Whether the price is past the count.
    fn past(&self, price: Self::Price) -> bool
        ensures { result ≡ (meaning self.now).past price };

    // Whether `a` is cheaper than `b`, which is that `b` is not at most `a`.
    fn cheaper(&self, a: Self::Price, b: Self::Price) -> bool
        ensures { result ≡ cheaper_by (meaning self.now) a b }
    {
        !self.at_most(b, a)
    }

    ghost lawful: { (m : Self) → Lawful (meaning m) };
}
