//! The live messages that came out of turn.

ghost use Rattle.std.specs.Prelude.{◌≡◌, ℕ, ◌+◌, ◌<◌, ◌≤◌, ◌↔◌, max, IsTrue, IfNone, IfOk, IfSome, List, [], None, Some, length};
ghost use Rattle.t7_base.specs.declared.public.Public.{Public};
ghost use Rattle.t7_feed.specs.Whole.{IsBelow};
ghost use Rattle.t7_lines.specs.Gap.{kept_at, no_tallies, noted_on, tally_of};
ghost use Rattle.t7_lines.specs.Puts.{IsPut, Puts, TakesOff};

use crate::put::Put;
use crate::ring::message_at;
use crate::tally::{Tallies, Tally};
use std::alloc::{AllocError, Global};
use std::marker::Model;
use t7_base::{Feed, Public};

// Whether there is no base, or one below the number.
fn is_below(base: Option<u32>, number: u32) -> bool
    ensures { IsTrue result ↔ IsBelow base number }
{
    match base {
        Some(n) => n < number,
        None => true,
    }
}

// Whether a number is among the last W numbers up to the highest.
fn is_within(number: u32, highest: u32, window: u32) -> bool
    ensures { IsTrue result ↔ ((number ≤ highest) × (highest < number + window)) }
{
    number <= highest && highest - number < window
}

/// The live messages of the last W numbers, each once, whichever line they came on: those above the highest number put so far less the window W. A
/// number that is put or asked for is compared and kept at its place modulo W, so that no call but `new` takes memory or goes over the window.
///
/// Contracts see it as `Gap`: its window, the highest number, the kept messages with their numbers, and the counts of the four feeds.
#[derive(Debug, Drop)]
pub struct GapBuffer {
    window: u32,
    highest: u32,
    ring: Vec<Option<(u32, Public)>>,
    tallies: Tallies,
}

impl Model for GapBuffer {
    ghost use Rattle.t7_lines.specs.Gap.{Gap};
    ghost use Rattle.t7_lines.specs.Inside.{IsRing, gap_of};

    ghost Value = { Gap };

    ghost view = { gap_of };

    ghost invariant = { IsRing };
}

impl GapBuffer {
    /// Nothing was put; takes room for as many messages as the window has numbers.
    ///
    /// An error comes only where memory is wanting.
    pub fn new(alloc: Global, window: u32) -> Result<GapBuffer, AllocError>
        ensures { IfOk result (λ gap. gap ≡ record { window = window; highest = 0; kept = []; tallies = no_tallies }) }
    {
        let mut ring = Vec::new(alloc);
        ring.resize(window as usize, None)?;
        Ok(GapBuffer {
            window,
            highest: 0,
            ring,
            tallies: Tallies::new(),
        })
    }

    /// Puts a live message that came, beside the number that the book stands at, or none. With h the highest number put so far, this one included, the
    /// answer is `Old` exactly where the number is at most the base or is kept already, else `Outside` exactly where it is at most h less the
    /// window, else `New`, and the message is kept. The numbers that are at most h less the window are dropped.
    pub fn put(&mut self, base: Option<u32>, number: u32, message: Public) -> Put
        ensures answer { IsPut result self.old.window (max number self.old.highest) base number self.old.kept }
        ensures same { self.new ≡ record self.old { highest = max number self.old.highest; kept = self.new.kept } }
        ensures kept { Puts result self.old.window (max number self.old.highest) number message self.old.kept self.new.kept }
    {
        self.highest = number.max(self.highest);
        if !is_below(base, number) {
            return Put::Old;
        }
        if self.highest - number >= self.window {
            return Put::Outside;
        }
        let place = (number % self.window) as usize;
        let found = message_at(self.ring[place], number);
        if found.is_some() {
            return Put::Old;
        }
        self.ring[place] = Some((number, message));
        Put::New
    }

    /// Takes number n + 1 off and gives its message: `None` exactly where it isn't kept.
    pub fn take_next(&mut self, n: u32) -> Option<Public>
        requires { n < 4294967295 }
        ensures answer { result ≡ kept_at self.old.kept (n + 1) }
        ensures none { IfNone result (self.new ≡ self.old) }
        ensures same { self.new ≡ record self.old { kept = self.new.kept } }
        ensures kept { TakesOff (n + 1) self.old.kept self.new.kept }
        ensures bound { IfSome result (λ _. n < self.old.highest) }
    {
        let number = n + 1;
        if !is_within(number, self.highest, self.window) {
            return None;
        }
        let place = (number % self.window) as usize;
        let Some(message) = message_at(self.ring[place], number) else {
            return None;
        };
        self.ring[place] = None;
        Some(message)
    }

    /// Counts a delivery that was taken on a feed, and whether it gave something new.
    pub fn note(&mut self, feed: Feed, fresh: bool)
        ensures { self.new ≡ record self.old { tallies = noted_on self.old.tallies feed fresh } }
    {
        self.tallies.note(feed, fresh);
    }

    /// The counts of a feed.
    pub fn tally(&self, feed: Feed) -> Tally
        ensures { result ≡ tally_of self.now.tallies feed }
    {
        self.tallies.of(feed)
    }

    /// At most as many messages are kept as the window has numbers.
    pub fn is_within_window(&self)
        ensures { length self.now.kept ≤ self.now.window }
    {
        let _ring = &self.ring;
    }
}
