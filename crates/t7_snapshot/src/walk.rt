//! The walk over a whole snapshot.

ghost use Rattle.std.specs.Prelude.{◌≡◌, ◌<◌, ℕ, List};
ghost use Rattle.t7_feed.specs.Cycles.{Section, orders_of};
ghost use Rattle.t7_snapshot.specs.Taking.{IsCycle};
ghost use Rattle.t7_snapshot.specs.Walking.{told_left};
ghost use Rattle.t7_snapshot.specs.Whole.{order_in, under_after};

use crate::whole::{WholeSnapshot, WholeWalk};
use t7_base::{Resting, SecurityId};
use t7_eobi::Snap;

// The security that is under way after an item.
#[tactic(auto, unfolding(crate::specs::Whole::under_after))]
fn under_after(under: SecurityId, snap: &Snap) -> SecurityId
    ensures { result ≡ under_after under snap.now }
{
    match snap {
        Snap::Instrument { security, .. } => *security,
        _ => under,
    }
}

// The order that an item is.
#[tactic(auto, unfolding(crate::specs::Whole::order_in))]
fn order_in(under: SecurityId, snap: &Snap) -> Option<Resting>
    ensures { result ≡ order_in under snap.now }
{
    match snap {
        Snap::Order {
            side,
            price,
            stamp,
            qty,
        } => Some(Resting {
            security: under,
            side: *side,
            price: *price,
            stamp: *stamp,
            qty: *qty,
        }),
        _ => None,
    }
}

impl<'a> WholeSnapshot<'a> {
    /// The number of the last live message (LastMsgSeqNumProcessed of ProductSummary) that the snapshot knows: 0 to 4,294,967,294.
    pub fn number(&self) -> u32
        ensures value { result ≡ self.now.number }
        ensures below { result < 4294967295 }
    {
        self.number
    }

    /// The orders of the cycle, in the order in which they came: SnapshotOrder by SnapshotOrder, each in the security of the InstrumentSummary before it.
    pub fn orders(&self) -> WholeWalk<'_>
        ensures { (parts : List Section) → IsCycle self.now parts → told_left result ≡ orders_of parts }
    {
        let rest = match self.store.read(self.first) {
            Some(walk) => walk,
            None => unreachable!(),
        };
        WholeWalk {
            store: self.store,
            rest,
            security: SecurityId(0),
            next: self.first + 1,
            left: self.last - self.first,
        }
    }
}

impl<'a> Iterator for WholeWalk<'a> {
    type Item = Resting;

    ghost use Rattle.std.specs.Iterator.{YieldsFirst, item_count};
    ghost use Rattle.t7_snapshot.specs.Walking.{told_left};

    ghost next_gives = { YieldsFirst told_left };

    ghost remaining = { item_count told_left };

    fn next(&mut self) -> Option<Resting> {
        loop {
            match self.rest.next() {
                Some(snap) => {
                    self.security = under_after(self.security, &snap);
                    if let Some(order) = order_in(self.security, &snap) {
                        return Some(order);
                    }
                }
                None => {
                    if self.left == 0 {
                        return None;
                    }
                    if let Some(walk) = self.store.read(self.next) {
                        self.rest = walk;
                    }
                    self.next += 1;
                    self.left -= 1;
                }
            }
        }
    }
}
