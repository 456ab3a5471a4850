//! The reader of a cycle's items.

ghost use Rattle.std.specs.Prelude.{◌≡◌, Some, None};
ghost use Rattle.std.specs.Bool.{OnTrue, OnFalse};
ghost use Rattle.t7_eobi.specs.Datagrams.{snaps_left};
ghost use Rattle.t7_snapshot.specs.Reading.{fresh, read_one, read_all, done_of};

use std::marker::Model;
use t7_base::SecurityId;
use t7_eobi::{Snap, SnapWalk};

/// What a cycle still awaits: its number, the securities to come, and so many orders of the one under way.
#[derive(Drop)]
pub(crate) struct Awaited<'s> {
    number: Option<u32>,
    securities: &'s [SecurityId],
    count: u16,
}

impl<'s> Model for Awaited<'s> {
    ghost use Rattle.t7_snapshot.specs.Reading.{Awaits};

    ghost Value = { Awaits };

    ghost view = { λ a. record { number = a.number; securities = a.securities.now; count = a.count } };
}

impl<'s> Awaited<'s> {
    pub(crate) fn new(securities: &'s [SecurityId]) -> Awaited<'s>
        ensures { result ≡ fresh securities.now }
    {
        Awaited {
            number: None,
            securities,
            count: 0,
        }
    }

    /// The same state once more.
    pub(crate) fn again(&self) -> Awaited<'s>
        ensures { result ≡ self.now }
    {
        Awaited {
            number: self.number,
            securities: self.securities,
            count: self.count,
        }
    }

    /// Reads one item, if it is awaited.
    #[tactic(auto, unfolding(crate::specs::Reading::read_one))]
    fn read(&mut self, snap: &Snap) -> bool
        ensures fits { OnTrue result (read_one self.old snap.now ≡ Some self.new) }
        ensures misfits { OnFalse result (read_one self.old snap.now ≡ None) }
    {
        match (snap, self.number) {
            (Snap::Product(number), None) => {
                self.number = Some(*number);
                true
            }
            (Snap::Instrument { security, count }, Some(_)) => {
                let Some((next, others)) = self.securities.split_first() else {
                    return false;
                };
                if next != security || self.count != 0 {
                    return false;
                }
                self.securities = others;
                self.count = *count;
                true
            }
            (Snap::Order { .. }, _) => {
                if self.count == 0 {
                    return false;
                }
                self.count -= 1;
                true
            }
            _ => false,
        }
    }

    /// Reads the items of a datagram, if each is awaited.
    pub(crate) fn read_all(&mut self, snaps: SnapWalk<'_>) -> bool
        ensures fits { OnTrue result (read_all self.old (snaps_left snaps.entry) ≡ Some self.new) }
        ensures misfits { OnFalse result (read_all self.old (snaps_left snaps.entry) ≡ None) }
    {
        for snap in snaps {
            if !self.read(&snap) {
                return false;
            }
        }
        true
    }

    /// The cycle's number, where nothing more is awaited.
    #[tactic(auto, unfolding(crate::specs::Reading::done_of))]
    pub(crate) fn done(&self) -> Option<u32>
        ensures { result ≡ done_of self.now }
    {
        if self.securities.is_empty() && self.count == 0 {
            self.number
        } else {
            None
        }
    }
}
