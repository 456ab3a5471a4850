//! The exchange: order entry over connections, the book, the stored responses, and the datagrams of both channels.
#![tactic(auto)]

mod connections;
mod desk;
mod exchange;
mod outbox;
mod pieces;
mod replies;
mod sent;
mod serving;
mod wires;

pub use exchange::Exchange;
pub use pieces::Stalled;
pub use replies::Reply;
pub use sent::{ClearRefusal, Sent};
