// A program's standard input and output.
#![tactic(auto)]

use pricing::PrintableModel;
use program::{MOST_INPUT, run};
use std::io::{Read, Write};

// Each list that a program lends has so many rows.
pub const ROWS: usize = 2187;

// Reads the input, at most one byte more than it may have, and writes what the run comes to.
pub fn serve<M: PrintableModel + Drop>(
    rt: &HostRuntime,
    model: M,
    prices: &mut [M::Price],
) -> anyhow::Result<()> {
    let mut input = Vec::new(rt.alloc());
    rt.stdin()
        .take(MOST_INPUT as u64 + 1)
        .read_to_end(&mut input)?;
    let mut sizes = [0; ROWS];
    let mut choices = [0; ROWS];
    let output = run(model, input.as_slice(), prices, &mut sizes, &mut choices);
    rt.stdout().write_all(output.as_slice())?;
    Ok(())
}
