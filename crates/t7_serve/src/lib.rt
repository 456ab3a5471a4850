//! An exchange on the network: it listens for members, takes the events of its link one by one, sends its replies, and casts its datagrams on
//! both lines.
#![tactic(auto)]

mod command;
mod counts;
mod laws;
mod sending;
mod server;

pub use command::{Addresses, serve};
pub use laws::casts_are_those_of_the_acts;
