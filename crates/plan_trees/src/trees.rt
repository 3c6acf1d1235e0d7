// A plan as an indented tree, from the lists that it was found in.
use pricing::PriceModel;
use readoff::{Choice, choice_at};
use sets::{Row, SmallSet, position};
use sheet::{Worded, table_name};
use std::io;

// The lists after a solve; `tested` are the tables that have a test.
#[derive(Clone, Copy, PartialEq, Eq, Debug)]
pub struct Solved<'a, P> {
    pub prices: &'a [P],
    pub sizes: &'a [u32],
    pub choices: &'a [u16],
    pub tested: SmallSet,
}

// Two blanks for each level.
fn print_indent(rt: &HostRuntime, depth: usize) -> io::Result<()> {
    for _ in 0..depth {
        print!(rt; "  ")?;
    }
    Ok(())
}

// The rows and the price of an operation's result.
fn print_row<M: Worded>(
    rt: &HostRuntime,
    model: &M,
    solved: &Solved<M::Price>,
    row: Row,
) -> io::Result<()> {
    let place = position(row, solved.tested);
    match (solved.sizes.get(place), solved.prices.get(place)) {
        (Some(size), Some(price)) => println!(rt; ": {size} rows, {}", model.words(*price)),
        _ => println!(rt; ""),
    }
}

// An operation, and below it what it works on.
pub fn print_tree<M: Worded>(
    rt: &HostRuntime,
    model: &M,
    solved: &Solved<M::Price>,
    row: Row,
    depth: usize,
) -> io::Result<()> {
    let Some(choice) = choice_at(solved.choices, solved.tested, row) else {
        return Ok(());
    };
    print_indent(rt, depth)?;
    let below = depth.saturating_add(1);
    match choice {
        Choice::Table(table) => {
            print!(rt; "{}", table_name(table))?;
            print_row(rt, model, solved, row)
        }
        Choice::Test { test, input } => {
            print!(rt; "test the {}", table_name(test))?;
            print_row(rt, model, solved, row)?;
            print_tree(rt, model, solved, input, below)
        }
        Choice::Join { left, right } => {
            print!(rt; "join")?;
            print_row(rt, model, solved, row)?;
            print_tree(rt, model, solved, left, below)?;
            print_tree(rt, model, solved, right, below)
        }
    }
}
