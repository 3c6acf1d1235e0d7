// A bench sheet: what corrections of a test's cost do to the plan of a question, under both price models.
#![tactic(auto)]

mod planning;
mod sample;

use catalogue::Catalogue;
use checker::check;
use planning::planned;
use plans::Step;
use pricing::{Clock, FetchesFirst, PriceModel};
use sample::sample;
use sheet::{
    BY_NUMBER, CORRECTED, ROWS, Worded, print_by_number, print_cost, print_tables, read_line,
    table_name,
};
use solver::Solution;
use std::io;

// An operation of a plan.
fn print_step(rt: &HostRuntime, step: Step) -> io::Result<()> {
    match step {
        Step::Table(table) => print!(rt; " {},", table_name(table)),
        Step::Test(table) => print!(rt; " test the {},", table_name(table)),
        Step::Join => print!(rt; " join,"),
    }
}

// The operations of a plan, each after what it works on.
fn print_plan<P>(rt: &HostRuntime, found: &Solution<P>) -> io::Result<()> {
    let told = found.plan.as_slice();
    print!(rt; "   ")?;
    for bytes in told.as_chunks::<2>().0 {
        if let Ok(step) = Step::try_from(*bytes) {
            print_step(rt, step)?;
        }
    }
    println!(rt; " done")
}

// The cheapest plan under a model, worked out in lent room for prices.
fn print_cheapest<M: Worded>(
    rt: &HostRuntime,
    model: &M,
    question: &Catalogue,
    prices: &mut [M::Price],
) -> io::Result<()> {
    match planned(model, question, prices) {
        Ok(found) => {
            let words = model.words(found.price);
            println!(rt; "  {}: {words}, found in {} tries", M::NAME, found.tries)?;
            print_plan(rt, &found)
        }
        Err(refusal) => println!(rt; "  {}: no plan (refusal {})", M::NAME, refusal.number()),
    }
}

// The cheapest plans, and one that is not.
fn print_plans(rt: &HostRuntime, question: &Catalogue) -> io::Result<()> {
    print_cheapest(rt, &Clock, question, &mut [Clock.bare(0); ROWS])?;
    print_cheapest(
        rt,
        &FetchesFirst,
        question,
        &mut [FetchesFirst.bare(0); ROWS],
    )?;
    let checked = check(&Clock, question, &BY_NUMBER, &mut [0; 10]);
    print_by_number(rt, &Clock, checked)
}

// One line of the sheet: corrects the question, or says why not and leaves it as it was.
fn correct(rt: &HostRuntime, question: &mut Catalogue, number: u64, text: &str) -> io::Result<()> {
    let Some(by) = read_line(rt, number, text)? else {
        return Ok(());
    };
    if let Err(refusal) = question.correct(CORRECTED, by) {
        return println!(rt;
            "line {number}: {text} is refused (refusal {})",
            refusal.number()
        );
    }
    print!(rt; "line {number}: corrected by {text} s, ")?;
    print_cost(rt, question)?;
    print_plans(rt, question)
}

// Standard input is a bench sheet, a reading a line, in seconds: each corrects the cost that the lines above it left.
fn main(rt: HostRuntime) -> anyhow::Result<()> {
    let Ok(mut question) = sample() else {
        return Ok(());
    };
    print_tables(&rt, &question)?;
    print_cost(&rt, &question)?;
    print_plans(&rt, &question)?;
    for (number, line) in (1u64..).zip(rt.lines(rt.alloc())) {
        correct(&rt, &mut question, number, line?.as_str())?;
    }
    Ok(())
}
