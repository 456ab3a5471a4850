//! The network and the time of day as traits: a link that carries connections, the four lines of market data, and the clock; with
//! their real forms. What an object was asked, took and sent is told or not; where it isn't told, no clause speaks of it.
#![tactic(auto)]

mod clock;
mod line;
mod link;
mod real_clock;
mod real_lines;
mod real_link;
#[cfg(test)]
mod tests;

pub use clock::Clock;
pub use line::{LineItem, Lines, Received};
pub use link::{Link, LinkEvent, LinkItem};
pub use real_clock::RealClock;
pub use real_lines::RealLines;
pub use real_link::RealLink;
