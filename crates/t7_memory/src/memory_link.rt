//! A link in memory: its events are given, and chosen calls fail.
ghost use Rattle.std.specs.Prelude.{◌≡◌, ◌≢◌, ◌+◌, ◌-◌, ◌^◌, ◌≤◌, ◌⊎◌, ◌∷◌, ◌++◌};
ghost use Rattle.std.specs.Prelude.{[], List, ℕ, length, OnOk, OnErr, IfOk, is_ok, true, false, None, Some};
ghost use Rattle.std.specs.Option.{option_map};
ghost use Rattle.std.specs.Result.{result_ok};
ghost use Rattle.t7_base.specs.Outside.{Rose, HasCause, Grew, Begins};
ghost use Rattle.t7_memory.specs.LinkStates.{Takes, trimmed};
ghost use Rattle.t7_memory.specs.Notes.{asked_by, more, sent_by, told_at};
ghost use Rattle.t7_memory.specs.Rooms.{CallFails, PassesRoom, failed, passed, used};
ghost use Rattle.t7_net.specs.Links.{Dialed, Listened, Gave, Shut, IsPiece, link_taken};

use crate::cut::{Cut, count_of, first_left, front_of};
use crate::kinds::{Asking, Sending};
use crate::note::CallNotes;
use crate::room::{Going, Room};
use std::alloc::{AllocError, Global};
use std::marker::Model;
use t7_base::Failed;
use t7_net::{Link, LinkEvent, LinkItem};

/// A link in memory, with room for so many calls, and for so many bytes of addresses and of what is sent. A call that passes the room fails
/// where it can, and after it the link no longer tells what that call had to add. A piece of no bytes is skipped, behind the last event all
/// is quiet, and the dials that succeed are numbered from 1.
///
/// Contracts see it as `LinkState`: what it was asked, took and sent, the events that are left, and its room.
#[derive(Drop)]
pub struct MemoryLink {
    items: Vec<LinkItem>,
    /// The item that is next, and how many of its bytes were taken.
    at: usize,
    start: usize,
    cuts: Vec<Cut>,
    asked: CallNotes<Asking>,
    sent: CallNotes<Sending>,
    dials: u32,
    room: Room,
}

impl Model for MemoryLink {
    ghost use Rattle.std.specs.Prelude.{◌+◌, ◌≤◌, drop, map, vec_len, vec_capacity};
    ghost use Rattle.t7_memory.specs.LinkStates.{LinkState, behind, cut_of, trimmed};
    ghost use Rattle.t7_memory.specs.Notes.{asked_by, calls_by, sent_by};

    ghost Value = { LinkState };

    ghost view = { λ s. record {
      asked = calls_by asked_by s.asked.told;
      events = map (cut_of s.items.items) s.cuts.items;
      sent = calls_by sent_by s.sent.told;
      left = trimmed (behind s.start (drop s.at s.items.items));
      dials = s.dials;
      room = s.room;
    } };

    ghost invariant = { λ s. (vec_len s.cuts + s.room.calls ≤ vec_capacity s.cuts)
        × (s.room.calls ≤ s.asked.calls) × (s.room.calls ≤ s.sent.calls)
        × (s.room.bytes ≤ s.asked.bytes) × (s.room.bytes ≤ s.sent.bytes) × (s.at ≤ vec_len s.items) };
}

impl MemoryLink {
    /// Room for so many calls and bytes. Of its calls that can fail those of the numbers in `failing`, from 1, fail.
    ///
    /// An error comes only where memory is wanting.
    pub fn new(
        alloc: Global,
        events: Vec<LinkItem>,
        calls: usize,
        bytes: usize,
        failing: Vec<u64>,
    ) -> Result<MemoryLink, AllocError>
        ensures { IfOk result (λ link. link ≡ record {
          asked = Some [];
          events = [];
          sent = Some [];
          left = trimmed events.items;
          dials = 0;
          room = record { calls = calls; bytes = bytes; made = 0; failing = failing.items; faults = 0 };
        }) }
    {
        Ok(MemoryLink {
            items: events,
            at: 0,
            start: 0,
            cuts: Vec::with_capacity(alloc, calls)?,
            asked: CallNotes::new(alloc, calls, bytes)?,
            sent: CallNotes::new(alloc, calls, bytes)?,
            dials: 0,
            room: Room::new(calls, bytes, failing),
        })
    }

    /// The listen or dial that was made as number `at` from 0, with its address: None behind the last, and where they are no longer told.
    pub fn asked_at(&self, at: usize) -> Option<(Asking, &[u8])>
        ensures { option_map (λ ask. asked_by ask.0 ask.1.now) result ≡ told_at self.now.asked at }
    {
        self.asked.get(at)
    }

    /// What was sent as number `at` from 0: bytes on a connection, or its close. None behind the last, and where it is no longer told.
    pub fn sent_at(&self, at: usize) -> Option<(Sending, &[u8])>
        ensures { option_map (λ sent. sent_by sent.0 sent.1.now) result ≡ told_at self.now.sent at }
    {
        self.sent.get(at)
    }

    // Takes the first of the events that are left, and notes it.
    fn take_first(&mut self, into: &mut [u8]) -> LinkEvent
        requires some { into.old ≢ [] }
        requires room { 1 ≤ self.old.room.calls }
        ensures takes { Takes self.old.left result into.new self.new.left }
        ensures taken { self.new.events ≡ self.old.events ++ link_taken result into.new }
        ensures piece { IsPiece result (length into.old) }
        ensures no_fault { result ≢ LinkEvent.Failed }
        ensures same { self.new ≡ record self.old {
          events = self.new.events;
          left = self.new.left;
          room = record self.old.room { calls = self.old.room.calls - 1 };
        } }
    {
        let (at, start) = first_left(&self.items, self.at, self.start);
        self.room.spend(0);
        let Some(item) = self.items.get(at) else {
            self.cuts.push_reserved(Cut {
                at,
                start,
                count: 0,
            });
            return LinkEvent::Quiet;
        };
        let event = front_of(item, start, into);
        let count = count_of(event);
        self.cuts.push_reserved(Cut { at, start, count });
        if count == 0 {
            self.at = at + 1;
            self.start = 0;
        } else {
            self.at = at;
            self.start = start + count;
        }
        event
    }
}

impl Link for MemoryLink {
    ghost asked = { λ s. s.asked };

    ghost events = { λ s. Some s.events };

    ghost sent = { λ s. s.sent };

    ghost faults = { λ s. s.room.faults };

    fn listen(&mut self, address: &str) -> Result<(), Failed>
        ensures asked { Grew self.old.asked self.new.asked (λ added. added ≡ Listened address.now (is_ok result) ∷ []) }
        ensures events { Some self.new.events ≡ Some self.old.events }
        ensures sent { self.new.sent ≡ self.old.sent }
        ensures cause { HasCause self.old.room.faults self.new.room.faults result }
        // It fails exactly where it passes the room or is one of the calls that fail.
        ensures fails_only { OnErr result (CallFails self.old.room (length address.now)) }
        ensures fails { OnOk result (CallFails self.old.room (length address.now) → ⊥) }
        ensures done { OnOk result (self.new ≡ record self.old {
          asked = more self.old.asked (Listened address.now true);
          room = used self.old.room (length address.now);
        }) }
        ensures undone { OnErr result ((PassesRoom self.old.room (length address.now) → ⊥) → self.new ≡ record self.old {
          asked = more self.old.asked (Listened address.now false);
          room = failed self.old.room (length address.now);
        }) }
        ensures past { OnErr result (PassesRoom self.old.room (length address.now)
            → self.new ≡ record self.old { asked = None; room = passed self.old.room }) }
    {
        match self.room.call(address.len()) {
            Going::Past => {
                self.asked.forget();
                Err(Failed)
            }
            Going::Fails => {
                self.room.spend(address.len());
                self.asked.note(Asking::Listen(false), address.as_bytes());
                Err(Failed)
            }
            Going::Goes => {
                self.room.spend(address.len());
                self.asked.note(Asking::Listen(true), address.as_bytes());
                Ok(())
            }
        }
    }

    fn dial(&mut self, address: &str) -> Result<u32, Failed>
        ensures asked { Grew self.old.asked self.new.asked (λ added. added ≡ Dialed address.now (result_ok result) ∷ []) }
        ensures events { Some self.new.events ≡ Some self.old.events }
        ensures sent { self.new.sent ≡ self.old.sent }
        ensures cause { HasCause self.old.room.faults self.new.room.faults result }
        // The successful dials are numbered from 1, up to the greatest u32; a dial more fails.
        ensures number { IfOk result (λ conn. conn ≡ self.old.dials + 1) }
        ensures fails_only { OnErr result (CallFails self.old.room (length address.now) ⊎ (self.old.dials ≡ 2 ^ 32 - 1)) }
        ensures fails { OnOk result (CallFails self.old.room (length address.now) → ⊥) }
        ensures done { OnOk result (self.new ≡ record self.old {
          asked = more self.old.asked (Dialed address.now (Some (self.old.dials + 1)));
          dials = self.old.dials + 1;
          room = used self.old.room (length address.now);
        }) }
        ensures undone { OnErr result ((PassesRoom self.old.room (length address.now) → ⊥) → self.new ≡ record self.old {
          asked = more self.old.asked (Dialed address.now None);
          room = failed self.old.room (length address.now);
        }) }
        ensures past { OnErr result (PassesRoom self.old.room (length address.now)
            → self.new ≡ record self.old { asked = None; room = passed self.old.room }) }
    {
        match self.room.call(address.len()) {
            Going::Past => {
                self.asked.forget();
                Err(Failed)
            }
            Going::Fails => {
                self.room.spend(address.len());
                self.asked.note(Asking::Dial(None), address.as_bytes());
                Err(Failed)
            }
            Going::Goes => {
                self.room.spend(address.len());
                if self.dials == u32::MAX {
                    self.room.fault();
                    self.asked.note(Asking::Dial(None), address.as_bytes());
                    return Err(Failed);
                }
                self.dials += 1;
                self.asked
                    .note(Asking::Dial(Some(self.dials)), address.as_bytes());
                Ok(self.dials)
            }
        }
    }

    fn next(&mut self, into: &mut [u8]) -> LinkEvent
        requires { into.old ≢ [] }
        ensures events { Grew (Some self.old.events) (Some self.new.events) (λ added. added ≡ link_taken result into.new) }
        ensures nothing { result ≡ LinkEvent.Failed → Some self.new.events ≡ Some self.old.events }
        ensures piece { IsPiece result (length into.old) }
        ensures asked { self.new.asked ≡ self.old.asked }
        ensures sent { self.new.sent ≡ self.old.sent }
        ensures count { self.old.room.faults ≤ self.new.room.faults }
        ensures failed { result ≡ LinkEvent.Failed → Rose self.old.room.faults self.new.room.faults }
        // It fails exactly where it passes the room or is one of the calls that fail; else it takes the first of what is left.
        ensures fails_only { result ≡ LinkEvent.Failed → CallFails self.old.room 0 }
        ensures fails { CallFails self.old.room 0 → result ≡ LinkEvent.Failed }
        ensures takes { result ≢ LinkEvent.Failed → Takes self.old.left result into.new self.new.left }
        ensures done { result ≢ LinkEvent.Failed → self.new ≡ record self.old {
          events = self.old.events ++ link_taken result into.new;
          left = self.new.left;
          room = used self.old.room 0;
        } }
        ensures undone { result ≡ LinkEvent.Failed → self.new ≡ record self.old { room = failed self.old.room 0 } }
    {
        match self.room.call(0) {
            Going::Past => LinkEvent::Failed,
            Going::Fails => {
                self.room.spend(0);
                LinkEvent::Failed
            }
            Going::Goes => self.take_first(into),
        }
    }

    fn send(&mut self, conn: u32, bytes: &[u8]) -> Result<(), Failed>
        ensures ok { OnOk result (Grew self.old.sent self.new.sent (λ added. added ≡ Gave conn bytes.now ∷ [])) }
        ensures err { OnErr result (Grew self.old.sent self.new.sent (λ added.
            (front : List ℕ) × Begins front bytes.now × (added ≡ Gave conn front ∷ []))) }
        ensures asked { self.new.asked ≡ self.old.asked }
        ensures events { Some self.new.events ≡ Some self.old.events }
        ensures cause { HasCause self.old.room.faults self.new.room.faults result }
        // It fails exactly where it passes the room or is one of the calls that fail; of the bytes of one that fails none are sent.
        ensures fails_only { OnErr result (CallFails self.old.room (length bytes.now)) }
        ensures fails { OnOk result (CallFails self.old.room (length bytes.now) → ⊥) }
        ensures done { OnOk result (self.new ≡ record self.old {
          sent = more self.old.sent (Gave conn bytes.now);
          room = used self.old.room (length bytes.now);
        }) }
        ensures undone { OnErr result ((PassesRoom self.old.room (length bytes.now) → ⊥) → self.new ≡ record self.old {
          sent = more self.old.sent (Gave conn []);
          room = failed self.old.room 0;
        }) }
        ensures past { OnErr result (PassesRoom self.old.room (length bytes.now)
            → self.new ≡ record self.old { sent = None; room = passed self.old.room }) }
    {
        match self.room.call(bytes.len()) {
            Going::Past => {
                self.sent.forget();
                Err(Failed)
            }
            Going::Fails => {
                self.room.spend(0);
                self.sent.note(Sending::Bytes(conn), b"");
                Err(Failed)
            }
            Going::Goes => {
                self.room.spend(bytes.len());
                self.sent.note(Sending::Bytes(conn), bytes);
                Ok(())
            }
        }
    }

    fn close(&mut self, conn: u32)
        ensures sent { Grew self.old.sent self.new.sent (λ added. added ≡ Shut conn ∷ []) }
        ensures asked { self.new.asked ≡ self.old.asked }
        ensures events { Some self.new.events ≡ Some self.old.events }
        ensures count { self.old.room.faults ≤ self.new.room.faults }
        ensures done { 1 ≤ self.old.room.calls → self.new ≡ record self.old {
          sent = more self.old.sent (Shut conn);
          room = record self.old.room { calls = self.old.room.calls - 1 };
        } }
        ensures past { self.old.room.calls ≡ 0 → self.new ≡ record self.old { sent = None } }
    {
        if !self.room.has_call() {
            self.sent.forget();
            return;
        }
        self.room.spend(0);
        self.sent.note(Sending::Close(conn), b"");
    }
}
