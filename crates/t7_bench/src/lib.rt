//! What bench/run and bench/member time: a market data reader, a writer of datagrams, both books and a member at work on given bytes. These
//! are calls from C that keep nothing between them; what they return is compared with what plain Rust makes of the same bytes.
#![tactic(auto)]

mod book;
mod datagrams;
mod member;
mod orders;
mod pack;
