//! The room of an object in memory: how many calls and bytes it can still note, and which of its calls fail.
ghost use Rattle.std.specs.Prelude.{◌≡◌, ◌-◌, ◌≤◌, ◌↔◌, IsTrue};
ghost use Rattle.t7_memory.specs.Rooms.{IsGoing, up};

use std::marker::Model;

/// How a call that can fail goes.
#[derive(Clone, Copy, Debug, PartialEq, Eq)]
pub enum Going {
    /// It passes the room, and fails.
    Past,
    /// It is one of those that fail.
    Fails,
    /// It does what it should.
    Goes,
}

/// The calls and bytes that can still be noted, the calls that were made, and those that fail.
#[derive(Drop)]
pub struct Room {
    calls: usize,
    bytes: usize,
    made: u64,
    failing: Vec<u64>,
    faults: u64,
}

impl Model for Room {
    ghost use Rattle.t7_memory.specs.Rooms.{RoomState};

    ghost Value = { RoomState };

    ghost view = { λ r. record { calls = r.calls; bytes = r.bytes; made = r.made; failing = r.failing.items; faults = r.faults } };
}

impl Room {
    /// Room for so many calls and bytes. The calls of these numbers, from 1, fail.
    pub fn new(calls: usize, bytes: usize, failing: Vec<u64>) -> Room
        ensures { result ≡ record { calls = calls; bytes = bytes; made = 0; failing = failing.items; faults = 0 } }
    {
        Room {
            calls,
            bytes,
            made: 0,
            failing,
            faults: 0,
        }
    }

    /// One call more that can fail, with so many bytes to note. It takes room only by `spend`. Where it fails the count of faults rises.
    pub fn call(&mut self, bytes: usize) -> Going
        ensures going { IsGoing result self.old bytes self.new }
        ensures count { self.old.faults ≤ self.new.faults }
    {
        self.made = self.made.saturating_add(1);
        if self.calls == 0 || self.bytes < bytes {
            self.fault();
            return Going::Past;
        }
        if self.failing.contains(&self.made) {
            self.fault();
            return Going::Fails;
        }
        Going::Goes
    }

    /// A fault more.
    pub fn fault(&mut self)
        ensures fault { self.new ≡ record self.old { faults = up self.old.faults } }
        ensures count { self.old.faults ≤ self.new.faults }
    {
        self.faults = self.faults.saturating_add(1);
    }

    /// Whether there is room for one call.
    pub fn has_call(&self) -> bool
        ensures { IsTrue result ↔ (1 ≤ self.now.calls) }
    {
        self.calls != 0
    }

    /// Takes the room of one call and so many bytes.
    pub fn spend(&mut self, bytes: usize)
        requires calls { 1 ≤ self.old.calls }
        requires bytes { bytes ≤ self.old.bytes }
        ensures { self.new ≡ record self.old { calls = self.old.calls - 1; bytes = self.old.bytes - bytes } }
    {
        self.calls -= 1;
        self.bytes -= bytes;
    }
}
