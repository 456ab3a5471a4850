//! Snapshots of the book: the cycles of datagrams that the exchange sends, and the whole cycles that a member finds among those
//! that came.
#![tactic(auto)]

mod assembler;
mod awaited;
mod cycle;
mod image;
mod progress;
mod script;
mod slot;
mod tally;
mod walk;
mod whole;

pub use assembler::Assembler;
pub use cycle::Cycle;
pub use whole::{WholeSnapshot, WholeWalk};
