//! The network and the clock in memory: what comes is given, what is asked and sent is noted in room that was taken before, and chosen
//! calls fail.
#![tactic(auto)]

mod cut;
mod kinds;
mod memory_clock;
mod memory_lines;
mod memory_link;
mod note;
mod room;
#[cfg(test)]
mod tests;

pub use kinds::{Asking, Binding, Sending};
pub use memory_clock::MemoryClock;
pub use memory_lines::MemoryLines;
pub use memory_link::MemoryLink;
