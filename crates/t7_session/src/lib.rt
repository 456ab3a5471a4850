//! One ETI connection of an exchange: its bytes in whatever pieces they come, the tests on each frame that need nothing
//! but the connection and the layout table, the numbers of its requests, and its heartbeats.
#![tactic(auto)]

mod checks;
mod laws;
mod session;
#[cfg(test)]
mod tests;

pub use laws::the_first_failing_test_is_told;
pub use session::{Beat, Session, Step, heartbeat_interval};
