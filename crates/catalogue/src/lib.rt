// A question's tables, ties and tests, and the four calls that change them.
#![tactic(auto)]

mod catalogues;
mod changes;
mod cuts;
mod known_sizes;
mod links;
mod refusals;
mod sizes;
mod tables;

pub use catalogues::Catalogue;
pub use changes::MOST_ROWS;
pub use cuts::Cuts;
pub use refusals::ChangeRefusal;
