//! The drill: a generated day of order entry whose datagrams reach the member on two lossy lines.
#![tactic(auto)]

mod asking;
mod day;
mod entering;
mod feeding;
mod run;
mod snapping;
mod telling;

pub use run::{PRODUCT, drill};
