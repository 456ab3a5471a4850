//! The two books over plain vectors: the same contracts as `Book` and `MarketBook`, by other means. A second computation for tests; no part of the program.
#![tactic(auto)]

mod arrival;
mod book;
mod change;
mod commit;
mod fitting;
mod market;
mod order;
mod orders;
mod priority;
mod removal;
mod shown;
mod trade;

pub use book::LinearBook;
pub use market::LinearMarketBook;
