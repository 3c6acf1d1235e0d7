// Whether plan bytes spell a valid plan.
ghost use Rattle.std.specs.Prelude.{List, Decides};
ghost use Rattle.catalogue.specs.Asked.{asked};
ghost use Rattle.checker.specs.Checks.{SpellsSome};
ghost use Rattle.checker.specs.Taken.{Holds, Read, Whole};
ghost use Rattle.plans.specs.Plans.{Plan};

use crate::parts::Parts;
use catalogue::Catalogue;

// The parts after all pairs, if a valid plan may come of each.
fn read(catalogue: &Catalogue, bytes: &[u8]) -> Option<Parts>
    ensures { Read (asked catalogue.now) bytes.now result }
{
    let mut parts = Parts::none();
    let mut left = bytes;
    while let [first, second, rest @ ..] = left {
        parts.take(catalogue, *first, *second)?;
        left = rest;
    }
    if left.is_empty() { Some(parts) } else { None }
}

// Whether there is one part, with all tables and all tests.
fn is_whole(catalogue: &Catalogue, parts: &Parts) -> bool
    ensures { (all : List Plan) → Holds (asked catalogue.now) parts.now all → Decides result (Whole (asked catalogue.now) all) }
{
    if parts.depth != 1 {
        return false;
    }
    let row = parts.rows[0];
    row.tables == catalogue.tables() && row.tests == catalogue.tests()
}

// Whether the bytes spell a valid plan of the question.
pub(crate) fn is_valid(catalogue: &Catalogue, bytes: &[u8]) -> bool
    ensures { Decides result (SpellsSome (asked catalogue.now) bytes.now) }
{
    match read(catalogue, bytes) {
        Some(parts) => is_whole(catalogue, &parts),
        None => false,
    }
}
