// The price of a valid plan, and of its operations by the parts below them.
ghost use Rattle.std.specs.Prelude.{◌≡◌, ◌+◌, ◌≤◌, length, slice_index_or};
ghost use Rattle.catalogue.specs.Asked.{asked};
ghost use Rattle.checker.specs.Checks.{Priced, SpellsSome};
ghost use Rattle.checker.specs.Stored.{Reaches, price_from, row_size};

use crate::operations::Operation;
use crate::parts::Parts;
use catalogue::Catalogue;
use pricing::PriceModel;
use sets::Row;

// The size of a part.
fn size_of(catalogue: &Catalogue, part: Row) -> u32
    ensures { result ≡ row_size (asked catalogue.now) part }
{
    catalogue.size(part.tables, part.tests)
}

// The price of an operation: its input, or left side, has the price at `at`, and its right side the next.
fn price_of<M: PriceModel>(
    model: &M,
    catalogue: &Catalogue,
    done: Operation,
    prices: &[M::Price],
    at: usize,
) -> M::Price
    requires { Reaches done at (length prices.now) }
    ensures { result ≡ price_from (M.meaning model.now) (asked catalogue.now) done (slice_index_or prices.now at result) (slice_index_or prices.now (at + 1) result) }
{
    match done {
        Operation::Table(table) => model.bare(size_of(catalogue, table)),
        Operation::Test(number, input) => match catalogue.test_of(number) {
            Some(test) => model.tested(prices[at], size_of(catalogue, input), test.cost, test.kind),
            None => prices[at],
        },
        Operation::Join(left, right, both) => model.joined(
            prices[at],
            prices[at + 1],
            size_of(catalogue, left),
            size_of(catalogue, right),
            size_of(catalogue, both),
            catalogue.across(left.tables, right.tables),
        ),
    }
}

// The price of the valid plan that the bytes spell; entry k takes the price of the last operation above k unjoined parts.
pub(crate) fn price_plan<M: PriceModel>(
    model: &M,
    catalogue: &Catalogue,
    bytes: &[u8],
    prices: &mut [M::Price],
) -> M::Price
    requires room { 10 ≤ length prices.old }
    requires valid { SpellsSome (asked catalogue.now) bytes.now }
    ensures { Priced (M.meaning model.now) (asked catalogue.now) bytes.now prices.old result prices.new }
{
    let mut parts = Parts::none();
    let mut left = bytes;
    while let [first, second, rest @ ..] = left {
        let Some(done) = parts.take(catalogue, *first, *second) else {
            unreachable()
        };
        let at = parts.depth - 1;
        let price = price_of(model, catalogue, done, prices, at);
        prices[at] = price;
        left = rest;
    }
    prices[0]
}
