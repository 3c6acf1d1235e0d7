// Solving a question that is given in flat lists, for callers in other languages.
#![tactic(auto)]

mod building;
mod calls;
mod told;

pub use building::build;
pub use calls::bench_solve;
pub use told::Told;
