//! What order requests come to: commands of the book, or the first test that fails; and the recoverable responses of commands.
#![tactic(auto)]

mod judged;
mod laws;
mod response;
#[cfg(test)]
mod tests;

pub use judged::{MOST_COMMANDS, command};
pub use laws::{
    commands_are_taken, responses_are_numbered_from_one, responses_grow,
    the_first_failing_test_is_told,
};
pub use response::{Numbered, answers};
