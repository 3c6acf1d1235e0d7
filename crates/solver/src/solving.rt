// Solves a question.
ghost use Rattle.std.specs.Prelude.{◌≡◌, ◌≤◌, ◌&&◌, length, nat_le};
ghost use Rattle.catalogue.specs.Asked.{asked};
ghost use Rattle.plans.specs.Questions.{all_tables, all_tests};
ghost use Rattle.plans.specs.Recurrence.{all_tries, opt};
ghost use Rattle.solver.specs.Solved.{Solved};
ghost use Rattle.solver.specs.Solves.{Answers, Cheapest, Lists, Readable, enough, filled, outcome, rows_of, whole_plan};

use crate::lists::price_at;
use crate::rows::solve_rows;
use crate::{Solution, SolveRefusal};
use catalogue::Catalogue;
use pricing::PriceModel;
use readoff::{MOST_PLAN_BYTES, PlanBytes, read_off};
use sets::{Row, position, row_count};

// Reads the whole question's plan off rows that are filled.
fn whole<M: PriceModel>(
    model: &M,
    catalogue: &Catalogue,
    prices: &[M::Price],
    choices: &[u16],
    tries: u64,
) -> Result<Solution<M::Price>, SolveRefusal>
    requires readable { Readable (M.meaning model.now) (asked catalogue.now) prices.now choices.now }
    requires tried { tries ≡ all_tries (M.meaning model.now) (asked catalogue.now) }
    ensures { Answers (M.meaning model.now) (asked catalogue.now) (whole_plan (M.meaning model.now) (asked catalogue.now) (opt (M.meaning model.now) (asked catalogue.now) (all_tables (asked catalogue.now)) (all_tests (asked catalogue.now)))) result }
{
    let tested = catalogue.tests();
    let row = Row {
        tables: catalogue.tables(),
        tests: tested,
    };
    let price = price_at(prices, choices, position(row, tested)).ok_or(SolveRefusal::NoPlan)?;
    if model.past(price) {
        return Err(SolveRefusal::PastCount);
    }
    let mut room = [0; MOST_PLAN_BYTES];
    let len = read_off(choices, tested, row, &mut room).ok_or(SolveRefusal::NoPlan)?;
    Ok(Solution {
        plan: PlanBytes::of(room, len).unwrap(),
        price,
        tries,
    })
}

// How many working rows the question has.
fn working_rows(catalogue: &Catalogue) -> u32
    ensures { result ≡ rows_of (asked catalogue.now) }
{
    row_count(catalogue.count(), catalogue.tests()).unwrap_or(0)
}

// Whether no list has fewer entries than there are working rows.
fn room<P: Copy>(rows: u32, prices: &[P], sizes: &[u32], choices: &[u16]) -> bool
    ensures { result ≡ (nat_le rows (length prices.now) && (nat_le rows (length sizes.now) && nat_le rows (length choices.now))) }
{
    let rows = rows as usize;
    rows <= prices.len() && rows <= sizes.len() && rows <= choices.len()
}

// Fills a working row for each set of tables and its tests, and tells the cheapest plan of the whole question.
pub fn solve<M: PriceModel>(
    model: &M,
    catalogue: &Catalogue,
    prices: &mut [M::Price],
    sizes: &mut [u32],
    choices: &mut [u16],
) -> Result<Solution<M::Price>, SolveRefusal>
    ensures outcome { Answers (M.meaning model.now) (asked catalogue.now) (outcome (M.meaning model.now) (asked catalogue.now) (enough (asked catalogue.now) (length prices.old) (length sizes.old) (length choices.old))) result }
    ensures cheapest { Cheapest (M.meaning model.now) (asked catalogue.now) result }
    ensures lists { Lists (M.meaning model.now) (asked catalogue.now) (filled (asked catalogue.now) (length prices.old) (length sizes.old) (length choices.old)) prices.old prices.new sizes.old sizes.new choices.old choices.new }
{
    if catalogue.count() == 0 {
        return Err(SolveRefusal::NoTables);
    }
    let rows = working_rows(catalogue);
    if !room(rows, prices, sizes, choices) {
        return Err(SolveRefusal::ListTooShort);
    }
    let tries = solve_rows(model, catalogue, rows, prices, sizes, choices);
    whole(model, catalogue, prices, choices, tries)
}
