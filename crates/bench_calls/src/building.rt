// A question from flat lists.
ghost use Rattle.std.specs.Prelude.{◌≡◌, min};
ghost use Rattle.bench_calls.specs.Built.{asked_by, built, left_by, tables_of, tests_of, ties_of};
ghost use Rattle.catalogue.specs.Asked.{asked};

use catalogue::{Catalogue, ChangeRefusal};

// Each tie and each test is so many numbers.
const WIDTH: usize = 5;

// The number, or 255 for one above it; no table and no kind has 255.
fn clipped(number: u16) -> u8
    ensures { result ≡ min number 255 }
{
    number.min(255) as u8
}

// Adds a table for each number of rows.
fn add_tables(question: &mut Catalogue, rows: &[u32]) -> Result<(), ChangeRefusal>
    ensures { left_by result (asked question.new) ≡ tables_of (asked question.old) rows.now }
{
    for n in rows {
        question.table(*n)?;
    }
    Ok(())
}

// Adds the ties: table, other, p, q and cost of each.
fn add_ties(question: &mut Catalogue, ties: &[u16]) -> Result<(), ChangeRefusal>
    ensures { left_by result (asked question.new) ≡ ties_of (asked question.old) ties.now }
{
    for tie in ties.as_chunks::<WIDTH>().0 {
        let [table, other, p, q, cost] = *tie;
        question.tie(clipped(table), clipped(other), p, q, cost)?;
    }
    Ok(())
}

// Adds the tests: table, p, q, cost and kind of each.
fn add_tests(question: &mut Catalogue, tests: &[u16]) -> Result<(), ChangeRefusal>
    ensures { left_by result (asked question.new) ≡ tests_of (asked question.old) tests.now }
{
    for test in tests.as_chunks::<WIDTH>().0 {
        let [table, p, q, cost, kind] = *test;
        question.test(clipped(table), p, q, cost, clipped(kind))?;
    }
    Ok(())
}

// The question of the tables, ties and tests, or the first refusal.
pub fn build(rows: &[u32], ties: &[u16], tests: &[u16]) -> Result<Catalogue, ChangeRefusal>
    ensures { asked_by result ≡ built rows.now ties.now tests.now }
{
    let mut question = Catalogue::new();
    add_tables(&mut question, rows)?;
    add_ties(&mut question, ties)?;
    add_tests(&mut question, tests)?;
    Ok(question)
}
