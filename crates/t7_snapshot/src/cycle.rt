//! The snapshot datagrams of the image of the market.

ghost use Rattle.std.specs.Prelude.{◌≡◌, ◌≢◌, ◌↔◌, ℕ, List, [], ◌∷◌, ◌++◌, ◌≤◌, ◌<◌, ◌+◌, IsTrue, IfOk, OnOk, None, length, take, drop};
ghost use Rattle.std.specs.Bool.{OnFalse};
ghost use Rattle.t7_eobi.specs.Bytes.{IsKnown, IsSequence, snap_bytes};
ghost use Rattle.t7_eobi.specs.Said.{SaysSnap};
ghost use Rattle.t7_eobi.specs.Sizes.{snap_size};
ghost use Rattle.t7_base.specs.declared.public.Public.{Public};
ghost use Rattle.t7_mbook.specs.Changes.{after};
ghost use Rattle.t7_mbook.specs.Misfits.{misfit_of};
ghost use Rattle.t7_feed.specs.Sending.{cycle_at};
ghost use Rattle.t7_snapshot.specs.Noting.{HasNoted};
ghost use Rattle.t7_snapshot.specs.Sending.{Packs, Sends, fresh_sender};

use crate::image::{carry, carry_all};
use crate::script::Script;
use std::alloc::{AllocError, Global};
use std::marker::Model;
use t7_base::{Product, Public};
use t7_eobi::{Snap, datagrams_read_again, snap_size, write_header, write_snap};
use t7_greedy::greedy_cuts_are_one;
use t7_layout::Table;
use t7_mbook::MarketBook;

// Writes an item behind the first `at` bytes, and answers its length.
fn write_behind(table: &Table, snap: &Snap, at: usize, out: &mut [u8]) -> usize
    requires room { at + snap_size table.now snap.now ≤ length out.old }
    requires known { IsKnown snap.now }
    ensures size { result ≡ snap_size table.now snap.now }
    ensures length { result ≡ length (snap_bytes table.now snap.now) }
    ensures bytes { out.new ≡ take at out.old ++ (snap_bytes table.now snap.now ++ drop (at + result) out.old) }
    ensures says { SaysSnap table.now snap.now (snap_bytes table.now snap.now) }
{
    write_snap(table, snap, &mut out[at..])
}

// Writes the next datagram of a script, and answers its length.
fn fill(table: &Table, product: &Product, number: u32, script: &mut Script, out: &mut [u8]) -> usize
    requires some { 0 < length script.old }
    requires number { IsSequence number }
    requires room { 1472 ≤ length out.old }
    ensures { Packs (record { layouts = table.now; listing = product.now }) number script.old script.new result out.old out.new }
{
    datagrams_read_again();
    let limit = product.datagram() as usize;
    let mut len = write_header(table, product.segment(), number, out);
    while let Some(snap) = script.peek() {
        if limit - len < snap_size(table, &snap) {
            return len;
        }
        len += write_behind(table, &snap, len, out);
        script.pass();
    }
    len
}

/// The sender of EOBI snapshot cycles: one after another, each the image of the market beside a message of the live channel, told from
/// ProductSummary to the last order in datagrams of the greedy cut. The image is the book that the messages make which were noted, from
/// the empty book on.
///
/// Contracts see it as `CycleState`: the table and the product that it writes by, the datagrams of the cycle under way that are left, the
/// count of the messages that were noted, the list of orders that they make, and for how many more messages there is room.
#[derive(Drop)]
pub struct Cycle<'t> {
    table: &'t Table,
    product: &'t Product,
    // What is left to tell of the cycle under way.
    script: Script,
    // The book at the beginning of the cycle under way, or now where none is; and the messages that came since.
    image: MarketBook,
    waiting: Vec<Public>,
    noted: u32,
}

impl<'t> Model for Cycle<'t> {
    ghost use Rattle.std.specs.Prelude.{◌-◌, length, vec_capacity};
    ghost use Rattle.t7_eobi.specs.Sizes.{snap_size};
    ghost use Rattle.t7_packets.specs.Packing.{room_in};
    ghost use Rattle.t7_greedy.specs.Cuts.{cut};
    ghost use Rattle.t7_snapshot.specs.Sending.{CycleState};
    ghost use Rattle.t7_snapshot.specs.Noting.{IsCarried, after_all};

    ghost Value = { CycleState };

    ghost view = { λ c. record {
      terms = record { layouts = c.table.now; listing = c.product.now };
      left = cut (snap_size c.table.now) (room_in c.table.now c.product.now.datagram) c.script;
      noted = c.noted;
      image = after_all c.product.now.securities c.image.orders c.waiting.items;
      spare = vec_capacity c.waiting - length c.waiting.items;
    } };

    ghost invariant = { λ c. IsCarried c.product.now c.image c.waiting.items c.script c.noted };
}

impl<'t> Cycle<'t> {
    /// A sender with no cycle under way, which has noted no message, with room for the 20,000 orders of a cycle. It writes by this table,
    /// for this product.
    ///
    /// An error comes only where memory is wanting.
    pub fn new(
        alloc: Global,
        table: &'t Table,
        product: &'t Product,
    ) -> Result<Cycle<'t>, AllocError>
        ensures { IfOk result (λ cycle. cycle ≡ fresh_sender (record { layouts = table.now; listing = product.now }) cycle.spare) }
    {
        Ok(Cycle {
            table,
            product,
            script: Script::new(alloc)?,
            image: MarketBook::new(alloc, product)?,
            waiting: Vec::new(alloc),
            noted: 0,
        })
    }

    /// Makes room for at least so many more messages. After an error nothing else has changed.
    pub fn reserve(&mut self, n: usize) -> Result<(), AllocError>
        ensures same { self.new ≡ record self.old { spare = self.new.spare } }
        ensures room { OnOk result (n ≤ self.new.spare) }
    {
        self.waiting.reserve(n)
    }

    /// Notes the next message of the live channel, which fits the list of orders that the messages noted so far make from the empty list, where
    /// there is room for it and fewer than 4,000,000,000 were noted. What is left of a cycle under way stays as it is. No memory is taken.
    pub fn note(&mut self, message: &Public)
        requires room { 1 ≤ self.old.spare }
        requires few { self.old.noted < 4_000_000_000 }
        requires fits { misfit_of self.old.terms.listing.securities self.old.image message.now ≡ None }
        ensures noted { self.new ≡ record self.old {
          noted = self.old.noted + 1;
          image = after self.old.terms.listing.securities self.old.image message.now;
          spare = self.new.spare;
        } }
        ensures room { self.old.spare ≤ self.new.spare + 1 }
        ensures messages { (messages : List Public) → HasNoted self.old messages → HasNoted self.new (messages ++ message.now ∷ []) }
    {
        self.noted += 1;
        if self.script.is_told() {
            carry(&mut self.image, message);
        } else {
            self.waiting.push_reserved(*message);
        }
    }

    /// Begins a cycle, where none is under way: of the list of orders that the messages noted so far make, beside their count. What is noted
    /// later changes nothing in it. Each order is looked at once here and once when it is sent. No memory is taken.
    pub fn begin(&mut self)
        requires { self.old.left ≡ [] }
        ensures { self.new ≡ record self.old { left = cycle_at self.old.terms self.old.noted self.old.image } }
    {
        let securities = self.product.securities();
        self.script.begin(securities, &self.image, self.noted);
    }

    /// Whether a cycle is under way: datagrams of it are left to send.
    pub fn under_way(&self) -> bool
        ensures under_way { IsTrue result ↔ (self.now.left ≢ []) }
        ensures idle { OnFalse result (self.now.left ≡ []) }
    {
        self.script.peek().is_some()
    }

    /// Writes the next datagram of the cycle under way, with this number (ApplSeqNum), and answers its length in bytes, at most the product's
    /// `datagram`. `out` has at least 1,472 bytes; what stands in it behind the datagram stays as it was. No memory is taken.
    pub fn next_packet(&mut self, number: u32, out: &mut [u8]) -> usize
        requires under_way { self.old.left ≢ [] }
        requires number { IsSequence number }
        requires room { 1472 ≤ length out.old }
        ensures { Sends self.old self.new number result out.old out.new }
    {
        greedy_cuts_are_one::<Snap>();
        let len = fill(self.table, self.product, number, &mut self.script, out);
        if self.script.is_told() {
            carry_all(&mut self.image, &self.waiting);
            self.waiting.clear();
        }
        len
    }
}
