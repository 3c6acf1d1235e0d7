// The calls themselves.
ghost use Rattle.std.specs.Prelude.{◌≡◌};
ghost use Rattle.bench_calls.specs.Built.{built};
ghost use Rattle.bench_calls.specs.Outcome.{Outcome, plan_told, refusal_told};

use crate::{Told, build};
use catalogue::Catalogue;
use pricing::Clock;
use solver::{Solution, solve};

// A refusal, and nothing beside it.
fn refused(number: u8) -> Told
    ensures { result ≡ refusal_told number }
{
    Told {
        refusal: number as u64,
        price: 0,
        tries: 0,
        len: 0,
        bytes: [0; 58],
    }
}

// A plan, with zeros behind its bytes, and its price and its tries.
fn planned(found: Solution<u64>) -> Told
    ensures { result ≡ plan_told found }
{
    let plan = found.plan.as_slice();
    let mut bytes = [0; 58];
    bytes[..plan.len()].copy_from_slice(plan);
    Told {
        refusal: 0,
        price: found.price,
        tries: found.tries,
        len: plan.len() as u64,
        bytes,
    }
}

// Solves the question of the tables, ties and tests under Clock in lent lists, and tells the outcome.
#[unsafe(no_mangle)]
pub extern "C" fn bench_solve(
    rows: &[u32],
    ties: &[u16],
    tests: &[u16],
    prices: &mut [u64],
    sizes: &mut [u32],
    choices: &mut [u16],
    told: &mut Told,
)
    ensures { Outcome (built rows.now ties.now tests.now) prices.old prices.new sizes.old sizes.new choices.old choices.new told.new }
{
    *told = match build(rows, ties, tests) {
        Ok(question) => match solve(&Clock, &question, prices, sizes, choices) {
            Ok(found) => planned(found),
            Err(refusal) => refused(refusal.number()),
        },
        Err(refusal) => refused(refusal.number()),
    };
}
