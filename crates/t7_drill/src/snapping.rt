//! Snapshot datagrams and heartbeats, as they reach the member.

ghost use Rattle.std.specs.Prelude.{◌≡◌, ◌==◌, ◌+◌, ◌<◌, ◌≤◌, ◌∷◌, [], List, length, if◌then◌else◌};
ghost use Rattle.t7_entry.specs.Days.{last_of};
ghost use Rattle.t7_exchange.specs.Sending.{terms_of};
ghost use Rattle.t7_feed.specs.Arrivals.{AreTerms, Delivery, Terms};
ghost use Rattle.t7_feed.specs.Sending.{cycle_now};
ghost use Rattle.t7_drill.specs.Entering.{accepted_in};
ghost use Rattle.t7_drill.specs.Feeding.{Heard, delivered};
ghost use Rattle.t7_drill.specs.Worlds.{beat_bytes, snap_bytes, snapped, to_send};
ghost use Rattle.t7_base.specs.declared.ids.Feed.TheVariants.{LiveA};

use crate::feeding::{deliver, deliver_unless};
use t7_base::{Feed, MOST_DATAGRAM};
use t7_entry::last_markets_are_books;
use t7_exchange::Exchange;
use t7_member::Member;

// A cycle is no longer than a book may be.
fn cycles_are_short(exchange: &Exchange<'_>)
    ensures { length (cycle_now (terms_of exchange.now) (accepted_in exchange.now)) ≤ 21_001 }
{
    exchange.is_sound();
    last_markets_are_books();
    let _len = exchange.book().len();
}

/// The next snapshot datagram is sent, and delivered on a feed unless the number that was drawn for it is 0.
pub fn snap(exchange: &mut Exchange<'_>, member: &mut Member<'_>, feed: Feed, number: u64)
    requires none { exchange.old.untold ≡ [] }
    requires few { exchange.old.snaps < 4_000_000_000 }
    ensures day { exchange.new ≡ snapped exchange.old }
    ensures some { length (to_send exchange.old) ≡ length exchange.new.left + 1 }
    ensures left { length exchange.old.left ≤ 21_001 → length exchange.new.left ≤ 21_001 }
    ensures heard { (terms : Terms) (came : List Delivery) → AreTerms terms → Heard terms member.old came
        → Heard terms member.new (if number == 0 then came else delivered feed (snap_bytes exchange.old) came) }
{
    cycles_are_short(exchange);
    let mut datagram = [0; MOST_DATAGRAM];
    let sent = exchange.snap(&mut datagram);
    deliver_unless(member, feed, &datagram[..sent.len], number);
}

/// A Heartbeat is sent, and delivered on line A.
pub fn beat(exchange: &mut Exchange<'_>, member: &mut Member<'_>)
    requires none { exchange.old.untold ≡ [] }
    requires few { exchange.old.beats < 2_000_000_000 }
    ensures day { exchange.new ≡ record exchange.old { live = exchange.old.live + 1; beats = exchange.old.beats + 1 } }
    ensures heard { (terms : Terms) (came : List Delivery) → AreTerms terms → Heard terms member.old came
        → Heard terms member.new (delivered LiveA (beat_bytes exchange.old) came) }
{
    let mut datagram = [0; MOST_DATAGRAM];
    let sent = exchange.beat(&mut datagram);
    deliver(member, Feed::LiveA, &datagram[..sent.len]);
}
