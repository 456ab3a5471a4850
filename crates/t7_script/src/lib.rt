//! The script of `replay`: the events that its lines are, and the lines of its reports.
#![tactic(auto)]

mod cells;
mod draw;
mod event;
mod laws;
mod lines;
mod reading;
mod words;

pub use draw::{Draw, sample};
pub use event::{Event, LineRefusal};
pub use laws::a_cleared_security_is_listed;
pub use lines::{kept_line, misfit_words, order_line};
pub use reading::read_event;

#[cfg(test)]
mod tests;
