// Finds the cheapest plan of every set of tables and tests, and reads that of the whole question off.
#![tactic(auto)]

mod bests;
mod candidates;
mod left_sides;
mod lists;
mod ordered;
mod rows;
mod solutions;
mod solving;

pub use solutions::{Solution, SolveRefusal};
pub use solving::solve;
