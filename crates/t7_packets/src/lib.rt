//! Live datagrams: a command's messages packed greedily behind a header, and heartbeats.
#![tactic(auto)]

mod laws;
mod packing;
mod write;

pub use laws::live_datagrams_carry_the_trace;
pub use packing::{Packed, pack, pack_beat};

#[cfg(test)]
mod tests;
