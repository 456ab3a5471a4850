//! Datagrams that were read.

ghost use Rattle.std.specs.Prelude.{◌≡◌, ◌↔◌, List, ℕ, None, Some, IfOk, IfErr, IsOk, nat_abs};
ghost use Rattle.t7_base.specs.declared.ids.Channel.TheVariants as channels;
ghost use Rattle.t7_eobi.specs.Datagrams.{behind, lives_left, lives_of, packet_number, snaps_left, snaps_of};
ghost use Rattle.t7_eobi.specs.Bytes.{IsSequence};
ghost use Rattle.t7_eobi.specs.Faults.{Datagram, fault_of};
ghost use Rattle.t7_eobi.specs.Grammar.{IsDatagram};

use crate::faults::{PacketFault, fault_of};
use crate::messages::{read, split_whole};
use crate::records::packet_number;
use crate::walks::{LiveWalk, SnapWalk};
use std::marker::Model;
use t7_base::Channel;
use t7_layout::{Role, Table};

/// A datagram of a channel, in place: a header of the product and the messages behind it. None of the tests of
/// `PacketWhy` fails.
#[derive(Drop)]
pub struct Packet<'a> {
    table: &'a Table,
    segment: u32,
    channel: Channel,
    bytes: &'a [u8],
}

impl<'a> Model for Packet<'a> {
    ghost use Rattle.std.specs.Prelude.{◌≡◌, None};
    ghost use Rattle.t7_eobi.specs.Faults.{Datagram, fault_of};

    ghost Value = { Datagram };

    ghost view = { λ p. record { reading = record { layouts = p.table.now; segment = p.segment; channel = p.channel }; bytes = p.bytes.now } };

    ghost invariant = { λ p. fault_of (record { layouts = p.table.now; segment = p.segment; channel = p.channel }) p.bytes.now ≡ None };
}

impl<'a> Packet<'a> {
    /// Reads a datagram of a channel in place, for the product of this MarketSegmentID. It is refused exactly where a test of
    /// `PacketWhy` fails, with the first fault from the front.
    pub fn read(
        table: &'a Table,
        segment: u32,
        channel: Channel,
        bytes: &'a [u8],
    ) -> Result<Packet<'a>, PacketFault>
        ensures packet { IfOk result (λ p. p ≡ record { reading = record { layouts = table.now; segment = segment; channel = channel }; bytes = bytes.now }) }
        ensures sound { IfOk result (λ p. fault_of (record { layouts = table.now; segment = segment; channel = channel }) bytes.now ≡ None) }
        ensures grammar { IsOk result ↔ ((messages : List (List ℕ)) × IsDatagram (record { layouts = table.now; segment = segment; channel = channel }) bytes.now messages) }
        ensures fault { IfErr result (λ e. fault_of (record { layouts = table.now; segment = segment; channel = channel }) bytes.now ≡ Some e) }
    {
        match fault_of(table, segment, channel, bytes) {
            Some(fault) => Err(fault),
            None => Ok(Packet {
                table,
                segment,
                channel,
                bytes,
            }),
        }
    }

    /// A datagram that was accepted once by this table, for this product and channel, in place. Its bytes are not tested again.
    pub fn accepted(table: &'a Table, segment: u32, channel: Channel, bytes: &'a [u8]) -> Packet<'a>
        requires { fault_of (record { layouts = table.now; segment = segment; channel = channel }) bytes.now ≡ None }
        ensures { result ≡ record { reading = record { layouts = table.now; segment = segment; channel = channel }; bytes = bytes.now } }
    {
        Packet {
            table,
            segment,
            channel,
            bytes,
        }
    }

    /// Its number in its channel, ApplSeqNum: 1 to 4,294,967,294.
    pub fn number(&self) -> u32
        ensures value { result ≡ packet_number self.now.reading.layouts self.now.bytes }
        ensures in_range { IsSequence result }
    {
        let (header, _) = split_whole(self.bytes);
        packet_number(&read(self.table, Role::PacketHeader, header))
    }

    /// The whole datagram.
    pub fn bytes(&self) -> &'a [u8]
        ensures { result.now ≡ self.now.bytes }
    {
        self.bytes
    }

    // The bytes behind its header.
    fn rest(&self) -> &'a [u8]
        ensures { result.now ≡ behind self.now.bytes }
    {
        let (_, rest) = split_whole(self.bytes);
        rest
    }

    /// Its items, one by one, where it was read for the live channel: messages of live roles and others with their
    /// numbers, and heartbeats.
    pub fn live(&self) -> LiveWalk<'a>
        requires { self.now.reading.channel ≡ channels.Live }
        ensures walk { result ≡ record { layouts = self.now.reading.layouts; rest = behind self.now.bytes } }
        ensures items { lives_left result ≡ lives_of self.now.reading.layouts self.now.bytes }
    {
        LiveWalk::new(self.table, self.rest())
    }

    /// Its items, one by one, where it was read for the snapshot channel: messages of snapshot roles.
    pub fn snap(&self) -> SnapWalk<'a>
        requires { self.now.reading.channel ≡ channels.Snap }
        ensures walk { result ≡ record { layouts = self.now.reading.layouts; rest = behind self.now.bytes } }
        ensures items { snaps_left result ≡ snaps_of self.now.reading.layouts self.now.bytes }
    {
        SnapWalk::new(self.table, self.rest())
    }
}
