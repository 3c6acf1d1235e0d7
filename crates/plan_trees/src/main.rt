// A bench sheet: what corrections of a test's cost do to the plan of a question, under both price models.
#![tactic(auto)]

mod planning;
mod sample;
mod trees;

use planner::{Question, Reply};
use planning::plan;
use pricing::{Clock, FetchPrice, FetchesFirst, PriceModel};
use readoff::MOST_PLAN_BYTES;
use sample::planned;
use sets::Row;
use sheet::{
    BY_NUMBER, CORRECTED, ROWS, Worded, print_by_number, print_cost, print_tables, read_line,
};
use std::io;
use trees::{Solved, print_tree};

// The bytes of a plan, in hexadecimal.
fn print_bytes(rt: &HostRuntime, bytes: &[u8]) -> io::Result<()> {
    print!(rt; "  told as")?;
    for byte in bytes {
        print!(rt; " {byte:02X}")?;
    }
    println!(rt; "")
}

// The cheapest plan as a tree and in bytes, and another plan beside it.
fn print_plan<M: Worded>(
    rt: &HostRuntime,
    model: &M,
    question: &mut Question<M>,
    prices: &mut [M::Price],
) -> io::Result<()> {
    let mut sizes = [0; ROWS];
    let mut choices = [0; ROWS];
    let mut bytes = [0; MOST_PLAN_BYTES];
    match plan(question, prices, &mut sizes, &mut choices, &mut bytes) {
        Ok(told) => {
            let words = model.words(told.price);
            println!(rt; "  {}: {words}, found in {} tries", M::TITLE, told.tries)?;
            let row = Row {
                tables: question.catalogue().tables(),
                tests: question.catalogue().tests(),
            };
            let solved = Solved {
                prices,
                sizes: &sizes,
                choices: &choices,
                tested: row.tests,
            };
            print_tree(rt, model, &solved, row, 2)?;
            print_bytes(rt, told.bytes)?;
        }
        Err(refusal) => {
            println!(rt; "  {}: no plan (refusal {})", M::TITLE, refusal.number())?;
        }
    }
    print_by_number(rt, model, question.check(&BY_NUMBER, prices))
}

// Whether a plan stands.
fn print_standing<M: Worded>(rt: &HostRuntime, question: &Question<M>) -> io::Result<()> {
    match question.tell(&mut [0; MOST_PLAN_BYTES]) {
        Ok(_) => println!(rt; "  {}: a plan stands", M::TITLE),
        Err(refusal) => {
            println!(rt;
                "  {}: no plan stands until it is solved again (refusal {})",
                M::TITLE,
                refusal.number()
            )
        }
    }
}

// Corrects the question and says what then stands, or why it is left as it was.
fn correct<M: Worded>(rt: &HostRuntime, question: &mut Question<M>, by: i32) -> io::Result<bool> {
    if let Err(refusal) = question.correct(CORRECTED, by) {
        println!(rt;
            "  {}: the correction is refused (refusal {})",
            M::TITLE,
            refusal.number()
        )?;
        return Ok(false);
    }
    print_standing(rt, question)?;
    Ok(true)
}

// Standard input is a bench sheet, a reading a line, in seconds: each corrects the cost that the lines above it left.
fn read_sheet(
    rt: &HostRuntime,
    clock: &mut Question<Clock>,
    clock_prices: &mut [u64],
    fetches: &mut Question<FetchesFirst>,
    fetch_prices: &mut [FetchPrice],
) -> anyhow::Result<()> {
    for (number, line) in (1u64..).zip(rt.lines(rt.alloc())) {
        let line = line?;
        if let Some(by) = read_line(rt, number, line.as_str())? {
            println!(rt; "line {number}: a correction by {line} s")?;
            let by_clock = correct(rt, clock, by)?;
            let by_fetches = correct(rt, fetches, by)?;
            if by_clock && by_fetches {
                print_cost(rt, clock.catalogue())?;
                print_plan(rt, &Clock, clock, clock_prices)?;
                print_plan(rt, &FetchesFirst, fetches, fetch_prices)?;
            }
        }
    }
    Ok(())
}

fn main(rt: HostRuntime) -> anyhow::Result<()> {
    let mut sizes = [0; ROWS];
    let mut choices = [0; ROWS];
    let mut clock_prices = [Clock.bare(0); ROWS];
    let mut clock_replies = [Reply::Done; 11];
    let mut clock = planned(
        Clock,
        &mut clock_prices,
        &mut sizes,
        &mut choices,
        &mut clock_replies,
    );
    let mut fetch_prices = [FetchesFirst.bare(0); ROWS];
    let mut fetch_replies = [Reply::Done; 11];
    let mut fetches = planned(
        FetchesFirst,
        &mut fetch_prices,
        &mut sizes,
        &mut choices,
        &mut fetch_replies,
    );
    print_tables(&rt, clock.catalogue())?;
    print_cost(&rt, clock.catalogue())?;
    print_plan(&rt, &Clock, &mut clock, &mut clock_prices)?;
    print_plan(&rt, &FetchesFirst, &mut fetches, &mut fetch_prices)?;
    read_sheet(
        &rt,
        &mut clock,
        &mut clock_prices,
        &mut fetches,
        &mut fetch_prices,
    )
}
