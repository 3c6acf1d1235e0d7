// Whether plan bytes are a valid plan of a question, and its price.
#![tactic(auto)]

mod checks;
mod named;
mod operations;
mod parts;
mod priced;
mod refusals;
mod taking;
mod valid;

pub use checks::check;
pub use refusals::CheckRefusal;
