// Whether plan bytes are pairs that name something.
ghost use Rattle.std.specs.Prelude.{◌≡◌};
ghost use Rattle.catalogue.specs.Asked.{asked};
ghost use Rattle.checker.specs.Checks.{named, named_pairs};

use catalogue::Catalogue;
use plans::{NoStep, Step};

// Whether the pair names a given table, the test of a given table or a join.
fn is_named(catalogue: &Catalogue, first: u8, second: u8) -> bool
    ensures { result ≡ named (asked catalogue.now) first second }
{
    match Step::try_from([first, second]) {
        Ok(Step::Table(table)) => table < catalogue.count(),
        Ok(Step::Test(table)) => table < catalogue.count() && catalogue.test_of(table).is_some(),
        Ok(Step::Join) => true,
        Err(NoStep) => false,
    }
}

// Whether the bytes are pairs, and each names something.
pub(crate) fn all_named(catalogue: &Catalogue, bytes: &[u8]) -> bool
    ensures { result ≡ named_pairs (asked catalogue.now) bytes.now }
{
    let mut left = bytes;
    while let [first, second, rest @ ..] = left {
        if !is_named(catalogue, *first, *second) {
            return false;
        }
        left = rest;
    }
    left.is_empty()
}
