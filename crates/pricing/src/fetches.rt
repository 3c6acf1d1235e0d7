// Fetches first: prices by fetches, and of equally many by milliseconds.
ghost use Rattle.std.specs.Prelude.{◌≡◌};
ghost use Rattle.pricing.specs.Fetches.{OnePast, counted as counted_price, fetches_first, test_fetches};
ghost use Rattle.pricing.specs.Prices.{fetches_first_lawful};

use crate::clocks::{join_ms, limited, test_ms};
use crate::{FetchPrice, Kind, PriceModel};

// As many fetches or more are past the count.
const MOST_FETCHES: u32 = u32::MAX;

// The price of so many fetches and milliseconds; fetches at the limit or above take the milliseconds with them.
fn counted(fetches: u64, ms: u128) -> FetchPrice
    ensures { result ≡ counted_price fetches ms }
{
    if fetches >= MOST_FETCHES as u64 {
        FetchPrice {
            fetches: MOST_FETCHES,
            ms: u64::MAX,
        }
    } else {
        FetchPrice {
            fetches: fetches as u32,
            ms: limited(ms),
        }
    }
}

// What a test adds to the fetches.
fn test_fetches(kind: Kind, size: u32) -> u32
    ensures { result ≡ test_fetches kind size }
{
    match kind {
        Kind::Look => 0,
        Kind::Fetch => size,
    }
}

#[derive(Clone, Copy, Debug)]
pub struct FetchesFirst;

impl PriceModel for FetchesFirst {
    type Price = FetchPrice;

    ghost meaning = { λ _. fetches_first };

    ghost lawful = { λ m. fetches_first_lawful };

    fn bare(&self, rows: u32) -> FetchPrice {
        counted(0, rows as u128)
    }

    fn tested(&self, input: FetchPrice, size: u32, cost: u16, kind: Kind) -> FetchPrice {
        counted(
            input.fetches as u64 + test_fetches(kind, size) as u64,
            input.ms as u128 + test_ms(size, cost),
        )
    }

    fn joined(
        &self,
        left: FetchPrice,
        right: FetchPrice,
        left_size: u32,
        right_size: u32,
        size: u32,
        costs: u32,
    ) -> FetchPrice {
        counted(
            left.fetches as u64 + right.fetches as u64,
            left.ms as u128 + right.ms as u128 + join_ms(left_size, right_size, size, costs),
        )
    }

    fn at_most(&self, a: FetchPrice, b: FetchPrice) -> bool {
        a <= b
    }

    fn past(&self, price: FetchPrice) -> bool {
        price.fetches >= MOST_FETCHES
    }
}

// Under each model one price alone is past the count.
pub fn one_price_is_past_the_count()
    ensures { OnePast }
{}
