//! One live datagram: the longest run of messages that fits, or a heartbeat.

ghost use Rattle.std.specs.Prelude.{◌≡◌, ◌≤◌, ◌<◌, ◌+◌, ◌++◌, length, take, drop, sum_by};
ghost use Rattle.std.specs.List.{All};
ghost use Rattle.t7_layout.specs.declared.roles.Role.TheVariants as role;
ghost use Rattle.t7_eobi.specs.Bytes.{IsSequence};
ghost use Rattle.t7_eobi.specs.Said.{ReadsLive};
ghost use Rattle.t7_greedy.specs.Cuts.{IsLongestRun};
ghost use Rattle.t7_eobi.specs.Sizes.{message_size, role_size};
ghost use Rattle.t7_packets.specs.Packing.{IsWritable, datagram_bytes, of_beat, of_messages, room_in};

use crate::write::write_behind;
use t7_base::Public;
use t7_eobi::{datagrams_read_again, message_size, write_beat, write_header};
use t7_layout::Table;

/// How much one datagram took: its length in bytes, from 16, and how many of the messages it has, from 1.
#[derive(Clone, Copy, Debug, PartialEq, Eq)]
pub struct Packed {
    pub len: usize,
    pub used: usize,
}

/// Writes one live datagram with this number, for the product of this MarketSegmentID: the header, and behind it as many of the
/// messages, from the first of them on, as fit in `limit` bytes. The messages are numbered one after another from `first` on.
/// What stands in `out` behind the datagram stays as it was.
pub fn pack(
    table: &Table,
    segment: u32,
    limit: u32,
    number: u32,
    first: u32,
    messages: &[Public],
    out: &mut [u8],
) -> Packed
    requires some { 0 < length messages.now }
    requires writable { All IsWritable messages.now }
    requires segment_some { 1 ≤ segment }
    requires segment_most { segment ≤ 2_147_483_647 }
    requires limit_least { 256 ≤ limit }
    requires limit_most { limit ≤ 1472 }
    requires room { 1472 ≤ length out.old }
    requires number { IsSequence number }
    requires first { 1 ≤ first }
    requires last { first + length messages.now ≤ 4_294_967_295 }
    ensures some { 1 ≤ result.used }
    ensures used { result.used ≤ length messages.now }
    ensures greedy { IsLongestRun (message_size table.now) (room_in table.now limit) messages.now (take result.used messages.now) (drop result.used messages.now) }
    ensures within { result.len ≤ limit }
    ensures sizes { result.len ≡ role_size table.now role.PacketHeader + sum_by (message_size table.now) (take result.used messages.now) }
    ensures length { result.len ≡ length (datagram_bytes table.now segment (of_messages number first (take result.used messages.now))) }
    ensures bytes { out.new ≡ datagram_bytes table.now segment (of_messages number first (take result.used messages.now)) ++ drop result.len out.old }
    ensures reads { ReadsLive table.now segment number (of_messages number first (take result.used messages.now)).items (take result.len out.new) }
{
    datagrams_read_again();
    let mut len = write_header(table, segment, number, out);
    for (used, message) in messages.iter().enumerate() {
        let left = limit as usize - len;
        if left < message_size(table, message) {
            return Packed { len, used };
        }
        len += write_behind(table, first + used as u32, message, len, out);
    }
    Packed {
        len,
        used: messages.len(),
    }
}

/// Writes one live datagram with this number that has one heartbeat, which names the last message, 0 where there was none, and
/// answers its length. What stands in `out` behind the datagram stays as it was.
pub fn pack_beat(table: &Table, segment: u32, number: u32, last: u32, out: &mut [u8]) -> usize
    requires segment_some { 1 ≤ segment }
    requires segment_most { segment ≤ 2_147_483_647 }
    requires number { IsSequence number }
    requires last { last ≤ 4_294_967_294 }
    requires room { 1472 ≤ length out.old }
    ensures within { result ≤ 256 }
    ensures length { result ≡ length (datagram_bytes table.now segment (of_beat number last)) }
    ensures bytes { out.new ≡ datagram_bytes table.now segment (of_beat number last) ++ drop result out.old }
    ensures reads { ReadsLive table.now segment number (of_beat number last).items (take result out.new) }
{
    datagrams_read_again();
    let header = write_header(table, segment, number, out);
    header + write_beat(table, last, &mut out[header..])
}
