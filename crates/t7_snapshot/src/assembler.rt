//! The assembler: it keeps the snapshot datagrams of the last numbers and finds whole cycles among them.

ghost use Rattle.std.specs.Prelude.{◌≡◌, ℕ, ◌+◌, ◌<◌, ◌≤◌, max, List, Option, Some, None, MatchOption, IsTrue, ◌↔◌, IfOk, IfSome, ◌∷◌, get_or, length, false, true};
ghost use Rattle.std.specs.Bool.{OnTrue};
ghost use Rattle.std.specs.Borrow.{sem};
ghost use Rattle.t7_base.specs.Listing.{IsListing};
ghost use Rattle.t7_eobi.specs.Bytes.{IsSequence};
ghost use Rattle.t7_eobi.specs.Datagrams.{packet_number, snaps_left, snaps_of};
ghost use Rattle.t7_eobi.specs.Faults.{fault_of};
ghost use Rattle.t7_eobi.specs.declared.walks.Snap.{Snap};
ghost use Rattle.t7_eobi.specs.declared.walks.Snap.TheVariants as items;
ghost use Rattle.t7_snapshot.specs.Store.{free, held, seen, IsNew, IsSnapDatagram, Takes, reading};
ghost use Rattle.t7_snapshot.specs.Taking.{Answers, IsWhole, TakesLent};
ghost use Rattle.t7_snapshot.specs.Reading.{fresh, Completes, done_of, Kept, Nearest, opens as opens_of, read_all};
ghost use Rattle.t7_snapshot.specs.Remembered.{IsProgress, IsRow};

use crate::awaited::Awaited;
use crate::progress::{Progress, nothing_read};
use crate::slot::{Slot, free_slots};
use crate::whole::WholeSnapshot;
use std::alloc::{AllocError, Global};
use std::marker::Model;
use t7_base::{Channel, Product};
use t7_eobi::{
    Packet, Snap, SnapWalk, datagrams_are_messages_behind_a_header, items_are_in_their_ranges,
};
use t7_layout::Table;

/// The assembler of EOBI snapshot cycles. It keeps the first datagram that came of each number (ApplSeqNum) above the highest less the
/// product's `packets`, in places of 1,472 bytes that are taken at `new`, and finds whole cycles among them.
///
/// Contracts see it as `Store`: the table and the product that it reads by, the highest number, and the kept datagrams by their numbers.
#[derive(Drop)]
pub struct Assembler<'t> {
    table: &'t Table,
    product: &'t Product,
    highest: u32,
    ring: Vec<Slot>,
    // What is remembered of the datagram in each place of the ring.
    places: Vec<Progress<'t>>,
    // The number of the datagram that opened the cycle that was read last.
    recent: u32,
}

impl<'t> Model for Assembler<'t> {
    ghost use Rattle.t7_snapshot.specs.Store.{Store};
    ghost use Rattle.t7_snapshot.specs.Remembered.{IsKeeping};

    ghost Value = { Store };

    ghost view = { λ a. record { terms = record { layouts = a.table.now; listing = a.product.now }; highest = a.highest; ring = a.ring.items } };

    ghost invariant = { λ a. IsKeeping
        (record { terms = record { layouts = a.table.now; listing = a.product.now }; highest = a.highest; ring = a.ring.items }) a.places.items };
}

// Whether a datagram opens a cycle: its first item is a ProductSummary.
fn opens_cycle(snaps: SnapWalk<'_>) -> bool
    ensures { result ≡ opens_of (snaps_left snaps.entry) }
{
    let mut walk = snaps;
    match walk.next() {
        Some(Snap::Product(_)) => true,
        _ => false,
    }
}

// A cycle's number and its last datagram.
#[derive(Clone, Copy)]
struct Ending {
    number: u32,
    last: u32,
}

impl<'t> Assembler<'t> {
    /// An assembler that keeps nothing, with room for all datagrams that it will keep. It reads by this table, for this product.
    ///
    /// An error comes only where memory is wanting.
    pub fn new(
        alloc: Global,
        table: &'t Table,
        product: &'t Product,
    ) -> Result<Assembler<'t>, AllocError>
        ensures terms { IfOk result (λ store. store.terms ≡ record { layouts = table.now; listing = product.now }) }
        ensures highest { IfOk result (λ store. store.highest ≡ 0) }
        ensures empty { IfOk result (λ store. (n : ℕ) → held store n ≡ None) }
    {
        let packets = product.packets();
        Ok(Assembler {
            table,
            product,
            highest: 0,
            ring: free_slots(alloc, packets as usize)?,
            places: nothing_read(alloc, packets as usize, product.securities())?,
            recent: 0,
        })
    }

    // Whether a number is one that is kept.
    fn is_near(&self, n: u32) -> bool
        ensures near { IsTrue result ↔ ((0 < n) × (self.now.highest < n + self.now.terms.listing.packets)) }
        ensures top { self.now.highest < 4294967295 }
    {
        0 < n && (self.highest < n || self.highest - n < self.product.packets())
    }

    // The datagram that is kept under a number.
    fn at(&self, n: u32) -> Option<&[u8]>
        ensures held { MatchOption result (held self.now n ≡ None) (λ bytes. held self.now n ≡ Some bytes.now) }
        ensures sound { IfSome result (λ bytes. IsSnapDatagram self.now.terms bytes.now) }
        ensures bound { IfSome result (λ _. (0 < n) × (n ≤ self.now.highest)) }
        ensures top { self.now.highest < 4294967295 }
    {
        if !self.is_near(n) {
            return None;
        }
        let slot = &self.ring[(n % self.product.packets()) as usize];
        if slot.number() == n {
            Some(slot.bytes())
        } else {
            None
        }
    }

    /// The items of the datagram that is kept under a number.
    pub(crate) fn read(&self, n: u32) -> Option<SnapWalk<'_>>
        ensures held { MatchOption result (seen self.now n ≡ None) (λ walk. seen self.now n ≡ Some (snaps_left walk)) }
        ensures bound { IfSome result (λ _. (0 < n) × (n ≤ self.now.highest)) }
        ensures top { self.now.highest < 4294967295 }
    {
        let bytes = self.at(n)?;
        let packet = Packet::accepted(self.table, self.product.segment(), Channel::Snap, bytes);
        Some(packet.snap())
    }

    /// At most as many datagrams are kept as the product's `packets`, and each has at most 1,472 bytes.
    pub fn is_within_window(&self)
        ensures many { length self.now.ring ≤ self.now.terms.listing.packets }
        ensures small { (place : ℕ) → 0 < (get_or self.now.ring place free).0 → length (get_or self.now.ring place free).1 ≤ 1472 }
    {
        datagrams_are_messages_behind_a_header();
        let _ring = &self.ring;
    }

    /// Whether `take` would keep a datagram of this number, from 1 on: it is above the highest number that came less the product's `packets`,
    /// and none of its number is kept.
    pub fn is_new(&self, number: u32) -> bool
        requires { 0 < number }
        ensures { IsTrue result ↔ IsNew self.now number }
    {
        self.is_near(number) && self.at(number).is_none()
    }

    // What is remembered of the datagram that is kept under a number.
    fn progress(&self, n: u32) -> &Progress<'t>
        ensures { (snaps : List Snap) → seen self.now n ≡ Some snaps → IsProgress self.now n result.now }
    {
        &self.places[(n % self.product.packets()) as usize]
    }

    // Whether the datagram that is kept under a number opens a cycle.
    fn opens(&self, n: u32) -> Option<bool>
        ensures kept { MatchOption result (seen self.now n ≡ None) (λ does. Kept (seen self.now) n does) }
        ensures below { IfSome result (λ _. (m : ℕ) (more : List Snap) → seen self.now n ≡ Some (items.Product m ∷ more) → m < 4294967295) }
        ensures bound { IfSome result (λ _. (0 < n) × (n ≤ self.now.highest)) }
    {
        items_are_in_their_ranges();
        let _bytes = self.at(n)?;
        Some(self.progress(n).opens)
    }

    // Whether a datagram was read already, in the cycle that another one opens.
    fn was_read(&self, first: u32, n: u32) -> bool
        ensures nearest { OnTrue result (Nearest (seen self.now) n first) }
        ensures below { OnTrue result ((m : ℕ) (more : List Snap) → seen self.now first ≡ Some (items.Product m ∷ more) → m < 4294967295) }
    {
        match self.opens(first) {
            Some(true) => first <= n && n < self.progress(first).next,
            _ => false,
        }
    }

    // The number before the datagrams that are kept in a row up to one of them, as far as that is known, and of which none opens a cycle.
    fn before(&self, n: u32) -> u32
        requires some { 0 < n }
        requires kept { Kept (seen self.now) n false }
        ensures less { result < n }
        ensures between { (k : ℕ) → result < k → k ≤ n → Kept (seen self.now) k false }
    {
        let lowest = self.highest.saturating_sub(self.product.packets());
        self.progress(n).back.max(lowest).min(n - 1)
    }

    // The number before the datagrams that are kept in a row before a new one, as far as that is known, and of which none opens a cycle.
    fn back_of(&self, number: u32) -> u32
        requires { 0 < number }
        ensures { IsRow self.now number result }
    {
        match self.opens(number - 1) {
            Some(false) => self.progress(number - 1).back,
            _ => number - 1,
        }
    }

    // Keeps a datagram, where it is new.
    fn put(&mut self, number: u32, bytes: &[u8], opens: bool)
        requires some { 0 < number }
        requires room { number < 4294967295 }
        requires sound { IsSnapDatagram self.old.terms bytes.now }
        requires small { length bytes.now ≤ 1472 }
        requires opens { opens ≡ opens_of (snaps_of self.old.terms.layouts bytes.now) }
        ensures { Takes number bytes.now self.old self.new }
    {
        if !self.is_new(number) {
            self.highest = number.max(self.highest);
            return;
        }
        let back = self.back_of(number);
        let securities = self.product.securities();
        self.highest = number.max(self.highest);
        let place = (number % self.product.packets()) as usize;
        let slot = &mut self.ring[place];
        slot.keep(number, bytes);
        self.places[place] = Progress {
            opens,
            next: number,
            awaited: Awaited::new(securities),
            back,
        };
    }

    // What is awaited behind a datagram, where it is kept, has what is awaited and doesn't end the cycle.
    fn behind(&self, n: u32, awaited: &Awaited<'t>) -> Option<Awaited<'t>>
        ensures read { IfSome result (λ after. (snaps : List Snap) × (seen self.now n ≡ Some snaps)
            × (read_all awaited.now snaps ≡ Some after) × (done_of after ≡ None)) }
        ensures bound { IfSome result (λ _. n ≤ self.now.highest) }
        ensures top { self.now.highest < 4294967295 }
    {
        let snaps = self.read(n)?;
        let mut after = awaited.again();
        if after.read_all(snaps) && after.done().is_none() {
            Some(after)
        } else {
            None
        }
    }

    // The cycle that a kept datagram opens, read as far as its datagrams are kept and it goes on.
    fn read_on(&self, first: u32) -> Progress<'t>
        requires { Kept (seen self.now) first true }
        ensures { IsProgress self.now first result }
    {
        let remembered = self.progress(first);
        let mut next = remembered.next;
        let mut awaited = remembered.awaited.again();
        while let Some(after) = self.behind(next, &awaited) {
            awaited = after;
            next += 1;
        }
        Progress {
            opens: true,
            next,
            awaited,
            back: remembered.back,
        }
    }

    // Reads the cycle in which a datagram stands as far as its datagrams are kept, and remembers how far that is.
    fn remember(&mut self, i: u32)
        ensures { self.new ≡ self.old }
    {
        let Some(first) = self.find_begin(i) else {
            return;
        };
        let progress = self.read_on(first);
        let place = (first % self.product.packets()) as usize;
        self.places[place] = progress;
        self.recent = first;
    }

    // Keeps a datagram, where it is new, and reads on in its cycle.
    fn keep(&mut self, number: u32, bytes: &[u8], opens: bool)
        requires some { 0 < number }
        requires room { number < 4294967295 }
        requires sound { IsSnapDatagram self.old.terms bytes.now }
        requires small { length bytes.now ≤ 1472 }
        requires opens { opens ≡ opens_of (snaps_of self.old.terms.layouts bytes.now) }
        ensures { Takes number bytes.now self.old self.new }
    {
        self.put(number, bytes, opens);
        self.remember(number);
    }

    // The nearest datagram up to number i that opens a cycle, where all after it are kept.
    fn find_begin(&self, i: u32) -> Option<u32>
        ensures nearest { MatchOption result ((p : ℕ) → Nearest (seen self.now) i p → ⊥) (λ p. Nearest (seen self.now) i p) }
        ensures below { IfSome result (λ p. (m : ℕ) (more : List Snap) → seen self.now p ≡ Some (items.Product m ∷ more) → m < 4294967295) }
    {
        let mut n = i;
        while let Some(opens) = self.opens(n) {
            if opens {
                return Some(n);
            }
            n = self.before(n);
            if self.was_read(self.recent, n) {
                return Some(self.recent);
            }
        }
        None
    }

    // The end of the cycle that begins with a datagram.
    fn find_end(&self, first: u32) -> Option<Ending>
        requires { Kept (seen self.now) first true }
        ensures room { IfSome result (λ end. end.last < 4294967295) }
        ensures end { MatchOption result ((m q : ℕ) → Completes (seen self.now) (fresh self.now.terms.listing.securities) first m q → ⊥)
            (λ end. Completes (seen self.now) (fresh self.now.terms.listing.securities) first end.number end.last) }
    {
        let remembered = self.progress(first);
        let mut awaited = remembered.awaited.again();
        let mut n = remembered.next;
        while let Some(snaps) = self.read(n) {
            if !awaited.read_all(snaps) {
                return None;
            }
            if let Some(number) = awaited.done() {
                return Some(Ending { number, last: n });
            }
            n += 1;
        }
        None
    }

    // The whole cycle in which a datagram stands.
    fn whole(&self, i: u32) -> Option<WholeSnapshot<'_>>
        ensures { Answers self.now i result }
    {
        let Some(first) = self.find_begin(i) else {
            return None;
        };
        let Some(ending) = self.find_end(first) else {
            return None;
        };
        if ending.last < i {
            return None;
        }
        Some(WholeSnapshot {
            number: ending.number,
            first,
            last: ending.last,
            store: self,
        })
    }

    /// Keeps a snapshot datagram, where its number is new (`is_new`), and answers the whole cycle in which it stands: None exactly where its
    /// number stands in no run of kept datagrams with consecutive numbers that spells one whole cycle. The packet was read for
    /// the snapshot channel, with the assembler's table and its product's segment.
    ///
    /// The items of a datagram are looked at up to the first when it comes, and read once when all before it in its cycle are there. Where a run
    /// ends a cycle, or misfits, its last datagram is read again with each datagram of the run that comes after. The way back to the
    /// first datagram of a cycle goes from one that came out of turn to the next such, over what is remembered of their places.
    pub fn take<'a>(&'a mut self, packet: &Packet<'_>) -> Option<WholeSnapshot<'a>>
        requires reading { packet.now.reading ≡ reading self.old.terms }
        requires sound { fault_of packet.now.reading packet.now.bytes ≡ None }
        ensures* takes { sem 𝓛 (TakesLent self.entry (packet_number packet.now.reading.layouts packet.now.bytes) packet.now.bytes result) }
        ensures whole { IfSome result (λ whole. Takes (packet_number packet.now.reading.layouts packet.now.bytes) packet.now.bytes self.old whole.store.now
            × IsWhole (packet_number packet.now.reading.layouts packet.now.bytes) whole) }
    {
        datagrams_are_messages_behind_a_header();
        let number = packet.number();
        let opens = opens_cycle(packet.snap());
        self.keep(number, packet.bytes(), opens);
        self.whole(number)
    }
}
