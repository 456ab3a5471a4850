//! The fields of messages, read and written in place.
#![tactic(auto)]

mod bytes;
mod laws;
mod message;
mod saying;
#[cfg(test)]
mod tests;
mod view;
mod writer;

pub use laws::{
    a_message_says_what_is_written, bytes_read_again, numbers_read_again, one_record,
    ordinary_numbers_are_known, signed_read_again,
};
pub use message::Fields;
pub use saying::{begin, say, write};
pub use view::{Short, View};
pub use writer::{Scalar, Writer};
