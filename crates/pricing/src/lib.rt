// What a plan costs: the price model, its laws, and two models, Clock and Fetches first.
#![tactic(auto)]

mod clocks;
mod fetch_prices;
mod fetches;
mod kinds;
mod models;
mod printing;

pub use clocks::Clock;
pub use fetch_prices::FetchPrice;
pub use fetches::{FetchesFirst, one_price_is_past_the_count};
pub use kinds::{Kind, NoSuchKind};
pub use models::PriceModel;
pub use printing::{PRICE_ROOM, PrintableModel};
