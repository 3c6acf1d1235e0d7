// What the demos share: the question that a bench sheet corrects, and its tables, prices and readings in words.
#![tactic(auto)]

mod printing;
mod sample;
mod words;

pub use printing::{print_by_number, print_cost, print_tables, read_line};
pub use sample::{BY_NUMBER, CORRECTED, ROWS};
pub use words::{FetchesAndTime, Milliseconds, Worded, table_name};
