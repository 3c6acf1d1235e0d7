// Plans the question on standard input by the clock.
#![tactic(auto)]

use pricing::{Clock, PriceModel};
use streams::{ROWS, serve};

fn main(rt: HostRuntime) -> anyhow::Result<()> {
    let mut prices = [Clock.bare(0); ROWS];
    serve(&rt, Clock, &mut prices)
}
