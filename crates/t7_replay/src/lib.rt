//! A script is played line by line over the exchange, the member and a client: what the exchange does by the script's events, what is
//! delivered of the datagrams that it sends, the member's report at each SHOW, and the client's at each LIST. The one public call is
//! `play`; its clause `written` is the headline, whose words stand in `specs/Reports`.
#![tactic(auto)]

mod caller;
mod calls;
mod first;
mod handing;
mod playing;
mod print;
mod replayer;
mod report;

pub use playing::play;
