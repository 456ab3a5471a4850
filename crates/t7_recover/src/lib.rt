//! Recoverable responses: those that an exchange stores for each session, the ranges of them that it sends
//! again, and those that a client gathered.
#![tactic(auto)]

mod gathered;
mod laws;
mod store;
#[cfg(test)]
mod tests;

pub use gathered::{Gathered, Offered};
pub use laws::ranges_are_slices;
pub use store::{BadRange, Store};
