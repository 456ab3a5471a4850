//! Market data: datagrams read in place, and the messages that the exchange casts.
#![tactic(auto)]

mod faults;
mod laws;
mod messages;
mod packet;
mod ranges;
mod records;
mod roles;
mod sizes;
mod walks;
mod write;

pub use faults::{PacketFault, PacketWhy};
pub use laws::{
    datagrams_are_messages_behind_a_header, datagrams_read_again, items_are_in_their_ranges,
    the_first_fault_is_told, what_is_written_is_said,
};
pub use packet::Packet;
pub use sizes::{message_size, snap_size};
pub use walks::{Live, LiveWalk, Snap, SnapWalk};
pub use write::{write_beat, write_header, write_public, write_snap};

#[cfg(test)]
mod tests;
