//! The top call: what the words ask for, over the files, the sink, the network and the clock that are handed in.
#![tactic(auto)]

mod check;
mod exercise;
mod inputs;
mod jobs;
mod text;
mod top;
mod words;

pub use t7_outcome::Status;
pub use top::run;
