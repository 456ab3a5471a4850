//! What a member of the feed is delivered and what of it counts: the words in which the book that it shows is described, and what
//! always holds of them.
#![tactic(auto)]

mod laws;

pub use laws::{
    cycles_are_one, genuine_cycles_are_books, genuine_deliveries_are_sent, reached_is_never_below,
    reached_is_one, reports_are_one, short_deliveries, what_came_in_words, what_came_only_grows,
};
use t7_mbook::Misfit;

/// What a member shows.
#[derive(Clone, Copy, Debug, PartialEq, Eq)]
pub enum State {
    /// No number: no whole snapshot came.
    Wait,
    /// The number of the last message that the book knows, which is the greatest that is known.
    Sync(u32),
    /// The number of the next message, which is missing.
    Miss(u32),
    /// No number: this message didn't fit the book.
    Refused { number: u32, why: Misfit },
}
