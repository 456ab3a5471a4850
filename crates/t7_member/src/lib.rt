//! The member of a feed: it keeps the book of a product from the datagrams that come, and shows the number that the book stands at.
#![tactic(auto)]

mod laws;
mod member;
mod standing;

pub use laws::{
    kept_is_reported, refusals_have_their_cause, what_is_fresh_is_new, what_is_shown_is_supported,
};
pub use member::{Delivered, Member};
pub use standing::Refusal;
pub use t7_feed::State;
pub use t7_lines::Tally;

#[cfg(test)]
mod tests;
