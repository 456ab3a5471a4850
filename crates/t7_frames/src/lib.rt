//! The frames of a T7 ETI connection. A stream of bytes is cut into frames by the length that each frame begins with, in
//! one way, however the stream comes in pieces.
#![tactic(auto)]

mod buffer;
mod laws;
#[cfg(test)]
mod tests;

pub use buffer::{Frame, FrameBuf};
pub use laws::{
    a_front_begins_the_split, a_split_goes_on, pieces_make_no_difference, streams_split_in_one_way,
};
