//! The lines of what a client has gathered: written to a sink one by one, or gathered in a text.
#![tactic(auto)]

mod gathered;
mod text;

pub use gathered::put_gathered;
pub use text::push_gathered;
