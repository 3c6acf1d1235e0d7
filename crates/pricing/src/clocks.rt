// Clock: prices in milliseconds.
ghost use Rattle.std.specs.Prelude.{◌≡◌, ℕ, ◌+◌, ◌*◌, ◌^◌, ◌<◌};
ghost use Rattle.pricing.specs.Clocks.{clock, limited as limited_ms, test_ms, join_ms};
ghost use Rattle.std.proofs.Common.{rules};

use crate::{Kind, PriceModel};

// The milliseconds up to 2^64 - 1.
pub(crate) fn limited(ms: u128) -> u64
    ensures { result ≡ limited_ms ms }
{
    ms.min(u64::MAX as u128) as u64
}

// What a test adds.
pub(crate) fn test_ms(size: u32, cost: u16) -> u128
    ensures value { result ≡ test_ms size cost }
    ensures bound { result < 2 ^ 64 }
{
    (size as u64 * cost as u64) as u128
}

// The costs of the ties across, for each pair of rows.
fn pair_ms(left_size: u32, right_size: u32, costs: u32) -> u128
    ensures value { result ≡ left_size * right_size * costs }
    ensures bound { result < 2 ^ 96 }
{
    let pairs = left_size as u64 * right_size as u64;
    pairs as u128 * costs as u128
}

// What a join adds.
pub(crate) fn join_ms(left_size: u32, right_size: u32, size: u32, costs: u32) -> u128
    ensures value { result ≡ join_ms left_size right_size size costs }
    ensures bound { result < 2 ^ 97 }
{
    size as u128 + pair_ms(left_size, right_size, costs)
}

#[derive(Clone, Copy, Debug)]
pub struct Clock;

impl PriceModel for Clock {
    type Price = u64;

    ghost meaning = { λ _. clock };

    ghost lawful = { Prim.search rules };

    fn bare(&self, rows: u32) -> u64 {
        rows as u64
    }

    fn tested(&self, input: u64, size: u32, cost: u16, _kind: Kind) -> u64 {
        limited(input as u128 + test_ms(size, cost))
    }

    fn joined(
        &self,
        left: u64,
        right: u64,
        left_size: u32,
        right_size: u32,
        size: u32,
        costs: u32,
    ) -> u64 {
        limited(left as u128 + right as u128 + join_ms(left_size, right_size, size, costs))
    }

    fn at_most(&self, a: u64, b: u64) -> bool {
        a <= b
    }

    fn past(&self, price: u64) -> bool {
        price >= u64::MAX
    }
}
