// Sets of small numbers, the rows of a table for sets of tables and tests, and the table itself.
#![tactic(auto)]

mod cells;
mod places;
mod products;
mod rows;
mod small_sets;

pub use cells::{Ragged, fill};
pub use places::Places;
pub use products::product;
pub use rows::{Row, contracted, next_row, position, row_count, rows_are_in_order};
pub use small_sets::SmallSet;
