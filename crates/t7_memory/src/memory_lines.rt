//! The lines in memory: their receipts are given, and chosen calls fail.
ghost use Rattle.std.specs.Prelude.{◌≡◌, ◌≢◌, ◌-◌, ◌≤◌, [], ◌∷◌, ◌++◌, drop, length, slice_get, OnOk, OnErr, IfOk, None, Some};
ghost use Rattle.std.specs.Option.{option_map};
ghost use Rattle.t7_base.specs.Outside.{Rose, HasCause, Grew};
ghost use Rattle.t7_memory.specs.LinesStates.{Receives, cut_receipt};
ghost use Rattle.t7_memory.specs.Notes.{bound_by, cast_by, more, told_at};
ghost use Rattle.t7_memory.specs.Rooms.{CallFails, PassesRoom, failed, passed, used};
ghost use Rattle.t7_net.specs.Lines.{Fits, line_taken};

use crate::kinds::Binding;
use crate::note::CallNotes;
use crate::room::{Going, Room};
use std::alloc::{AllocError, Global};
use std::marker::Model;
use t7_base::{Failed, Feed};
use t7_net::{LineItem, Lines, Received};

/// The lines in memory, with room for so many calls, and for so many bytes of addresses and of what is cast. A call that passes the room
/// fails, and after a bind that does the lines no longer tell the binds. Behind the last receipt all is quiet.
///
/// Contracts see them as `LinesState`: what they were asked, took and cast, the receipts that are left, and their room.
#[derive(Drop)]
pub struct MemoryLines {
    items: Vec<LineItem>,
    /// How many bytes fitted, of each receipt that was taken.
    counts: Vec<usize>,
    asked: CallNotes<Binding>,
    cast: CallNotes<Feed>,
    room: Room,
}

impl Model for MemoryLines {
    ghost use Rattle.std.specs.Prelude.{◌+◌, ◌≤◌, drop, length, vec_len, vec_capacity};
    ghost use Rattle.t7_memory.specs.LinesStates.{LinesState, receipts_of};
    ghost use Rattle.t7_memory.specs.Notes.{bound_by, cast_by, calls_by};

    ghost Value = { LinesState };

    ghost view = { λ s. record {
      asked = calls_by bound_by s.asked.told;
      taken = receipts_of s.items.items s.counts.items;
      cast = calls_by cast_by s.cast.told;
      left = drop (length s.counts.items) s.items.items;
      room = s.room;
    } };

    ghost invariant = { λ s. (vec_len s.counts + s.room.calls ≤ vec_capacity s.counts)
        × (s.room.calls ≤ s.asked.calls) × (s.room.calls ≤ s.cast.calls)
        × (s.room.bytes ≤ s.asked.bytes) × (s.room.bytes ≤ s.cast.bytes) };
}

impl MemoryLines {
    /// Room for so many calls and bytes. The calls of the numbers in `failing`, from 1, fail.
    ///
    /// An error comes only where memory is wanting.
    pub fn new(
        alloc: Global,
        receipts: Vec<LineItem>,
        calls: usize,
        bytes: usize,
        failing: Vec<u64>,
    ) -> Result<MemoryLines, AllocError>
        ensures { IfOk result (λ lines. lines ≡ record {
          asked = Some [];
          taken = [];
          cast = Some [];
          left = receipts.items;
          room = record { calls = calls; bytes = bytes; made = 0; failing = failing.items; faults = 0 };
        }) }
    {
        Ok(MemoryLines {
            items: receipts,
            counts: Vec::with_capacity(alloc, calls)?,
            asked: CallNotes::new(alloc, calls, bytes)?,
            cast: CallNotes::new(alloc, calls, bytes)?,
            room: Room::new(calls, bytes, failing),
        })
    }

    /// The bind that was made as number `at` from 0, with its address: None behind the last, and where they are no longer told.
    pub fn asked_at(&self, at: usize) -> Option<(Binding, &[u8])>
        ensures { option_map (λ ask. bound_by ask.0 ask.1.now) result ≡ told_at self.now.asked at }
    {
        self.asked.get(at)
    }

    /// The datagram that was cast as number `at` from 0, and its feed: None behind the last.
    pub fn cast_at(&self, at: usize) -> Option<(Feed, &[u8])>
        ensures { option_map (λ cast. cast_by cast.0 cast.1.now) result ≡ told_at self.now.cast at }
    {
        self.cast.get(at)
    }

    // Takes the first of the receipts that are left, and notes it.
    fn take_first(&mut self, into: &mut [u8]) -> Received
        requires { 1 ≤ self.old.room.calls }
        ensures receives { Receives (slice_get self.old.left 0) result into.new }
        ensures fits { Fits result (length into.old) }
        ensures no_fault { result ≢ Received.Failed }
        ensures taken { self.new.taken ≡ self.old.taken ++ line_taken result into.new }
        ensures left { self.new.left ≡ drop 1 self.old.left }
        ensures same { self.new ≡ record self.old {
          taken = self.new.taken;
          left = self.new.left;
          room = record self.old.room { calls = self.old.room.calls - 1 };
        } }
    {
        self.room.spend(0);
        let Some(item) = self.items.get(self.counts.len()) else {
            self.counts.push_reserved(0);
            return Received::Quiet;
        };
        let (found, count) = front_of(item, into);
        self.counts.push_reserved(count);
        found
    }
}

// What a receipt gives, and how many of its bytes fit.
fn front_of(item: &LineItem, into: &mut [u8]) -> (Received, usize)
    ensures found { Receives (Some item.now) result.0 into.new }
    ensures taken { line_taken result.0 into.new ≡ cut_receipt (Some item.now) result.1 ∷ [] }
    ensures fits { Fits result.0 (length into.old) }
    ensures no_fault { result.0 ≢ Received.Failed }
{
    match item {
        LineItem::Quiet => (Received::Quiet, 0),
        LineItem::Datagram(feed, bytes) => {
            let bytes = bytes.bytes();
            let count = bytes.len().min(into.len());
            into[..count].copy_from_slice(&bytes[..count]);
            (Received::Datagram(*feed, count), count)
        }
    }
}

impl Lines for MemoryLines {
    ghost asked = { λ s. s.asked };

    ghost taken = { λ s. Some s.taken };

    ghost cast = { λ s. s.cast };

    ghost faults = { λ s. s.room.faults };

    fn bind(&mut self, feed: Feed, address: &str, listen: bool) -> Result<(), Failed>
        ensures asked { Grew self.old.asked self.new.asked (λ added.
            added ≡ record { feed = feed; address = address.now; listen = listen } ∷ []) }
        ensures taken { Some self.new.taken ≡ Some self.old.taken }
        ensures cast { self.new.cast ≡ self.old.cast }
        ensures cause { HasCause self.old.room.faults self.new.room.faults result }
        // It fails exactly where it passes the room or is one of the calls that fail.
        ensures fails_only { OnErr result (CallFails self.old.room (length address.now)) }
        ensures fails { OnOk result (CallFails self.old.room (length address.now) → ⊥) }
        ensures done { OnOk result (self.new ≡ record self.old {
          asked = more self.old.asked (record { feed = feed; address = address.now; listen = listen });
          room = used self.old.room (length address.now);
        }) }
        ensures undone { OnErr result ((PassesRoom self.old.room (length address.now) → ⊥) → self.new ≡ record self.old {
          asked = more self.old.asked (record { feed = feed; address = address.now; listen = listen });
          room = failed self.old.room (length address.now);
        }) }
        ensures past { OnErr result (PassesRoom self.old.room (length address.now)
            → self.new ≡ record self.old { asked = None; room = passed self.old.room }) }
    {
        let going = self.room.call(address.len());
        if going == Going::Past {
            self.asked.forget();
            return Err(Failed);
        }
        self.room.spend(address.len());
        self.asked
            .note(Binding { feed, listen }, address.as_bytes());
        if going == Going::Fails {
            Err(Failed)
        } else {
            Ok(())
        }
    }

    fn receive(&mut self, into: &mut [u8]) -> Received
        requires { 1473 ≤ length into.old }
        ensures taken { Grew (Some self.old.taken) (Some self.new.taken) (λ added. added ≡ line_taken result into.new) }
        ensures nothing { result ≡ Received.Failed → Some self.new.taken ≡ Some self.old.taken }
        ensures fits { Fits result (length into.old) }
        ensures asked { self.new.asked ≡ self.old.asked }
        ensures cast { self.new.cast ≡ self.old.cast }
        ensures count { self.old.room.faults ≤ self.new.room.faults }
        ensures failed { result ≡ Received.Failed → Rose self.old.room.faults self.new.room.faults }
        // It fails exactly where it passes the room or is one of the calls that fail; else it takes the first of what is left.
        ensures fails_only { result ≡ Received.Failed → CallFails self.old.room 0 }
        ensures fails { CallFails self.old.room 0 → result ≡ Received.Failed }
        ensures receives { result ≢ Received.Failed → Receives (slice_get self.old.left 0) result into.new }
        ensures done { result ≢ Received.Failed → self.new ≡ record self.old {
          taken = self.old.taken ++ line_taken result into.new;
          left = drop 1 self.old.left;
          room = used self.old.room 0;
        } }
        ensures undone { result ≡ Received.Failed → self.new ≡ record self.old { room = failed self.old.room 0 } }
    {
        match self.room.call(0) {
            Going::Past => Received::Failed,
            Going::Fails => {
                self.room.spend(0);
                Received::Failed
            }
            Going::Goes => self.take_first(into),
        }
    }

    fn cast(&mut self, feed: Feed, bytes: &[u8]) -> Result<(), Failed>
        ensures ok { OnOk result (Grew self.old.cast self.new.cast (λ added. added ≡ record { feed = feed; bytes = bytes.now } ∷ [])) }
        ensures err { OnErr result (self.new.cast ≡ self.old.cast) }
        ensures asked { self.new.asked ≡ self.old.asked }
        ensures taken { Some self.new.taken ≡ Some self.old.taken }
        ensures cause { HasCause self.old.room.faults self.new.room.faults result }
        // It fails exactly where it passes the room or is one of the calls that fail.
        ensures fails_only { OnErr result (CallFails self.old.room (length bytes.now)) }
        ensures fails { OnOk result (CallFails self.old.room (length bytes.now) → ⊥) }
        ensures done { OnOk result (self.new ≡ record self.old {
          cast = more self.old.cast (record { feed = feed; bytes = bytes.now });
          room = used self.old.room (length bytes.now);
        }) }
        ensures undone { OnErr result ((PassesRoom self.old.room (length bytes.now) → ⊥)
            → self.new ≡ record self.old { room = failed self.old.room 0 }) }
        ensures past { OnErr result (PassesRoom self.old.room (length bytes.now)
            → self.new ≡ record self.old { room = passed self.old.room }) }
    {
        match self.room.call(bytes.len()) {
            Going::Past => Err(Failed),
            Going::Fails => {
                self.room.spend(0);
                Err(Failed)
            }
            Going::Goes => {
                self.room.spend(bytes.len());
                self.cast.note(feed, bytes);
                Ok(())
            }
        }
    }
}
