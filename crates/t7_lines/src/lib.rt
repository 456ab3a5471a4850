//! Two lines with one content: the live messages of the last numbers, each once, and how much each feed gave.
#![tactic(auto)]

mod gap;
mod put;
mod ring;
mod tally;

pub use gap::GapBuffer;
pub use put::Put;
pub use tally::{Tallies, Tally};

#[cfg(test)]
mod tests;
