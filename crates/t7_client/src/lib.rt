//! A client of a session that recovers its responses over connections that are cut: it gathers those that come down, and asks
//! for the ones that it missed.
#![tactic(auto)]

mod client;
mod fault;
mod hearing;
mod laws;
mod machine;
mod sending;
#[cfg(test)]
mod tests;

pub use client::Client;
pub use fault::ClientFault;
pub use laws::fronts_are_gathered;
