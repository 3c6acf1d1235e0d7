// Plans the question on standard input by fetches first, and then by the clock.
#![tactic(auto)]

use pricing::{FetchesFirst, PriceModel};
use streams::{ROWS, serve};

fn main(rt: HostRuntime) -> anyhow::Result<()> {
    let mut prices = [FetchesFirst.bare(0); ROWS];
    serve(&rt, FetchesFirst, &mut prices)
}
