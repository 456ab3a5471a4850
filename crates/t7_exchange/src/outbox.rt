//! The messages that are still to be sent, the live datagrams, and the snapshot datagrams.

ghost use Rattle.std.specs.Prelude.{◌≡◌, ◌≢◌, ◌↔◌, ◌+◌, ◌<◌, ◌≤◌, [], length, IsTrue, IfOk, OnOk, OnErr, MatchOption, vec_len};
ghost use Rattle.std.specs.List.{All};
ghost use Rattle.t7_packets.specs.Packing.{IsWritable, of_beat};
ghost use Rattle.t7_snapshot.specs.Noting.{FitInTurn};
ghost use Rattle.t7_exchange.specs.Outbox.{IsPut, Ships, Snaps, all_noted, empty_outbox, first_in, frozen, passed, pushed, told};

use crate::sent::Sent;
use std::alloc::{AllocError, Global};
use std::collections::VecDeque;
use std::marker::Model;
use t7_base::{Product, Public};
use t7_layout::Table;
use t7_packets::{pack, pack_beat};
use t7_snapshot::Cycle;

// The sender of snapshot cycles notes messages, for which it has room, and which fit in turn what it noted so far.
fn note_all(cycle: &mut Cycle<'_>, messages: &[Public])
    requires room { length messages.now ≤ cycle.old.spare }
    requires few { cycle.old.noted + length messages.now ≤ 4_000_000_000 }
    requires fit { FitInTurn cycle.old.terms.listing.securities cycle.old.image messages.now }
    ensures { cycle.new ≡ all_noted cycle.old messages.now cycle.new.spare }
{
    for message in messages {
        cycle.note(message);
    }
}

/// The messages that are still to be sent, those of each command in a list of its own, the snapshot cycle under way, and the numbers of
/// the messages and of the datagrams of both channels: of one product.
#[derive(Drop)]
pub(crate) struct Outbox<'t> {
    queue: VecDeque<Vec<Public>>,
    // How many messages of the first list are sent.
    begun: usize,
    // The number of the last message, and that of the first one that isn't sent.
    last: u32,
    next: u32,
    // How many datagrams were sent, and how many of them were heartbeats.
    live: u32,
    beats: u32,
    // The sender of snapshot cycles, and how many datagrams it sent.
    cycle: Cycle<'t>,
    snaps: u32,
}

impl<'t> Model for Outbox<'t> {
    ghost use Rattle.t7_exchange.specs.Outbox.{Outbox};
    ghost use Rattle.t7_exchange.specs.OutboxInside.{IsOutboxInside, outbox_in};

    ghost Value = { Outbox };

    ghost view = { outbox_in };

    ghost invariant = { IsOutboxInside };
}

impl<'t> Outbox<'t> {
    /// Nothing was told, and nothing was sent. An error comes only where memory is wanting.
    pub(crate) fn new(
        alloc: Global,
        table: &'t Table,
        product: &'t Product,
    ) -> Result<Outbox<'t>, AllocError>
        ensures { IfOk result (λ out. out ≡ empty_outbox (record { layouts = table.now; listing = product.now }) out.spare out.cycle.spare) }
    {
        Ok(Outbox {
            queue: VecDeque::new(alloc),
            begun: 0,
            last: 0,
            next: 1,
            live: 0,
            beats: 0,
            cycle: Cycle::new(alloc, table, product)?,
            snaps: 0,
        })
    }

    /// The number of the last message, 0 where there was none.
    pub(crate) fn last(&self) -> u32
        ensures value { result ≡ self.now.last }
        ensures few { result ≤ 800_000 }
    {
        self.last
    }

    /// Room for one command more, with so many messages. After an error nothing else has changed.
    pub(crate) fn reserve(&mut self, messages: usize) -> Result<(), AllocError>
        ensures same { self.new ≡ record self.old { spare = self.new.spare; cycle = record self.old.cycle { spare = self.new.cycle.spare } } }
        ensures room { OnOk result (1 ≤ self.new.spare) }
        ensures noting { OnOk result (messages ≤ self.new.cycle.spare) }
    {
        self.queue.reserve(1)?;
        self.cycle.reserve(messages)
    }

    /// The messages of a command are told: they are to be sent, and the sender of snapshot cycles notes them.
    pub(crate) fn tell(&mut self, messages: Vec<Public>)
        requires room { 1 ≤ self.old.spare }
        requires writable { All IsWritable messages.items }
        requires few { self.old.last + vec_len messages ≤ 800_000 }
        requires noting { length messages.items ≤ self.old.cycle.spare }
        requires countable { self.old.cycle.noted + length messages.items ≤ 4_000_000_000 }
        requires fit { FitInTurn self.old.cycle.terms.listing.securities self.old.cycle.image messages.items }
        ensures { self.new ≡ told self.old messages.items self.new.spare self.new.cycle.spare }
    {
        note_all(&mut self.cycle, &messages);
        self.push(messages);
    }

    // The messages of a command are put behind those that are still to be sent.
    fn push(&mut self, messages: Vec<Public>)
        requires room { 1 ≤ self.old.spare }
        requires writable { All IsWritable messages.items }
        requires few { self.old.last + vec_len messages ≤ 800_000 }
        ensures { self.new ≡ pushed self.old messages.items self.new.spare }
    {
        self.last += messages.len() as u32;
        if !messages.is_empty() {
            self.queue.push_back_reserved(messages);
        }
    }

    // The messages of the first command that are still to be sent.
    fn waiting(&self) -> &[Public]
        ensures { result.now ≡ first_in self.now.untold }
    {
        match self.queue.front() {
            Some(first) => &first[self.begun..],
            None => &[],
        }
    }

    // So many of them are sent in a datagram.
    fn pass(&mut self, used: usize)
        requires some { 1 ≤ used }
        requires within { used ≤ length (first_in self.old.untold) }
        ensures { self.new ≡ passed self.old used self.new.spare }
    {
        let count = self.waiting().len();
        self.next += used as u32;
        self.live += 1;
        if used < count {
            self.begun += used;
            return;
        }
        self.begun = 0;
        let _ = self.queue.pop_front();
    }

    /// The next datagram: of the messages of the first command, as many as fit. None exactly where no message waits.
    pub(crate) fn next_datagram(
        &mut self,
        table: &Table,
        product: &Product,
        out: &mut [u8],
    ) -> Option<Sent>
        requires { 1472 ≤ length out.old }
        ensures { MatchOption result ((self.old.untold ≡ []) × (self.new ≡ self.old) × (out.new ≡ out.old))
            (λ s. Ships table.now product.now self.old self.new out.old out.new s) }
    {
        let number = self.live + 1;
        let first = self.next;
        let messages = self.waiting();
        if messages.is_empty() {
            return None;
        }
        let limit = product.datagram();
        let packed = pack(
            table,
            product.segment(),
            limit,
            number,
            first,
            messages,
            out,
        );
        self.pass(packed.used);
        Some(Sent {
            number,
            len: packed.len,
        })
    }

    /// A datagram of one heartbeat, which names the last message.
    pub(crate) fn beat(&mut self, table: &Table, product: &Product, out: &mut [u8]) -> Sent
        requires none { self.old.untold ≡ [] }
        requires few { self.old.beats < 2_000_000_000 }
        requires room { 1472 ≤ length out.old }
        ensures put { IsPut table.now product.now.segment (of_beat (self.old.live + 1) self.old.last) out.old out.new result }
        ensures counted { self.new ≡ record self.old { live = self.old.live + 1; beats = self.old.beats + 1 } }
    {
        let number = self.live + 1;
        let len = pack_beat(table, product.segment(), number, self.last, out);
        self.live = number;
        self.beats += 1;
        Sent { number, len }
    }

    /// Whether datagrams of a snapshot cycle are left.
    pub(crate) fn under_way(&self) -> bool
        ensures { IsTrue result ↔ (self.now.cycle.left ≢ []) }
    {
        self.cycle.under_way()
    }

    // A new cycle begins with what was noted, where none is under way.
    fn freeze(&mut self)
        ensures frozen { self.new ≡ frozen self.old }
        ensures left { self.new.cycle.left ≢ [] }
    {
        if !self.cycle.under_way() {
            self.cycle.begin();
        }
    }

    /// The next snapshot datagram: of the cycle under way, or the first of a new one of what was noted. No memory is taken.
    pub(crate) fn snap(&mut self, out: &mut [u8]) -> Sent
        requires few { self.old.snaps < 4_000_000_000 }
        requires room { 1472 ≤ length out.old }
        ensures { Snaps self.old self.new out.old out.new result }
    {
        self.freeze();
        let number = self.snaps + 1;
        let len = self.cycle.next_packet(number, out);
        self.snaps = number;
        Sent { number, len }
    }
}
