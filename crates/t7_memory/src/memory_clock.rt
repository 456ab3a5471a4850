//! A clock in memory: its moments are given.
ghost use Rattle.std.specs.Prelude.{◌≡◌, ◌+◌, ◌-◌, ◌^◌, ◌<◌, [], ◌∷◌, IfOk, IsOk, None, Some};
ghost use Rattle.t7_base.specs.Outside.{Grew};
ghost use Rattle.t7_memory.specs.ClockStates.{moment_at};
ghost use Rattle.t7_memory.specs.Notes.{more};

use std::alloc::{AllocError, Global};
use std::marker::Model;
use t7_base::Moment;
use t7_net::Clock;

/// A clock in memory. At the end of its moments it gives the last again, or 0 where it has none. It counts its calls up to the greatest
/// usize, and after one more no longer tells what it gave.
///
/// Contracts see it as `ClockState`: the moments that it gave, those that it holds, and its calls.
#[derive(Drop)]
pub struct MemoryClock {
    moments: Vec<Moment>,
    calls: usize,
    told: bool,
}

impl Model for MemoryClock {
    ghost use Rattle.std.specs.Prelude.{Some, None, if◌then◌else◌};
    ghost use Rattle.t7_memory.specs.ClockStates.{ClockState, moments_of};

    ghost Value = { ClockState };

    ghost view = { λ s. record {
      given = if s.told then Some (moments_of s.moments.items s.calls) else None;
      moments = s.moments.items;
      calls = s.calls;
    } };
}

impl MemoryClock {
    /// It gives these moments, one after another. It takes no memory, and no error comes.
    pub fn new(_alloc: Global, moments: Vec<Moment>) -> Result<MemoryClock, AllocError>
        ensures ok { IfOk result (λ clock. clock ≡ record { given = Some []; moments = moments.items; calls = 0 }) }
        ensures never_fails { IsOk result }
    {
        Ok(MemoryClock {
            moments,
            calls: 0,
            told: true,
        })
    }

    // The moment that is next.
    fn next(&self) -> Moment
        ensures { result ≡ moment_at self.now.moments self.now.calls }
    {
        let at = self.calls.min(self.moments.len().saturating_sub(1));
        match self.moments.get(at) {
            Some(moment) => *moment,
            None => match Moment::new(0) {
                Some(moment) => moment,
                None => unreachable!(),
            },
        }
    }
}

impl Clock for MemoryClock {
    ghost given = { λ s. s.given };

    fn now(&mut self) -> Moment
        ensures given { Grew self.old.given self.new.given (λ added. added ≡ result ∷ []) }
        ensures gives { result ≡ moment_at self.old.moments self.old.calls }
        ensures done { self.old.calls < 2 ^ 64 - 1
            → self.new ≡ record self.old { given = more self.old.given result; calls = self.old.calls + 1 } }
        ensures past { self.old.calls ≡ 2 ^ 64 - 1 → self.new ≡ record self.old { given = None } }
    {
        let moment = self.next();
        if self.calls == usize::MAX {
            self.told = false;
        } else {
            self.calls += 1;
        }
        moment
    }
}
