// A whole run of a program: lines of hexadecimal in, a plan or one fault line out.
#![tactic(auto)]

mod faults;
mod gathering;
mod judging;
mod labels;
mod outputs;
mod running;
mod writing;

pub use faults::{ProgramFault, Refused};
pub use outputs::Output;
pub use running::{MOST_INPUT, run};
