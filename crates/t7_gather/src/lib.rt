//! The recovery of a session's responses over a link that is handed in: it dials, runs a client over the connection, and prints what the
//! client has gathered.
#![tactic(auto)]

mod command;
mod gatherer;

pub use command::gather;
