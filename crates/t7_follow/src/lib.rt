//! A member that follows the feed over lines that are handed in: it takes receipts one by one, and prints what it shows. It takes all its
//! memory before the first receipt.
#![tactic(auto)]

mod command;
mod follower;
mod laws;
mod print;

pub use command::{Addresses, follow};
pub use laws::counts_are_of_accepted;
