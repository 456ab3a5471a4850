//! Datagrams, as they reach the member.

ghost use Rattle.std.specs.Prelude.{◌≡◌, ◌==◌, ◌+◌, ◌++◌, ◌∷◌, [], List, length, OnOk, if◌then◌else◌};
ghost use Rattle.t7_base.specs.declared.ids.Feed.TheVariants.{LiveB};
ghost use Rattle.t7_entry.specs.Days.{due};
ghost use Rattle.t7_feed.specs.Arrivals.{AreTerms, Delivery, Terms};
ghost use Rattle.t7_script.specs.Draws.{next_state};
ghost use Rattle.t7_drill.specs.Entering.{due_bytes};
ghost use Rattle.t7_drill.specs.Feeding.{Fed, Heard, all_delivered, came_after, cast_all, copies_after, delivered};

use std::alloc::{AllocError, Global};
use t7_base::{Feed, MOST_DATAGRAM, Octets};
use t7_exchange::Exchange;
use t7_member::{Member, what_is_fresh_is_new};
use t7_script::Draw;

/// A datagram is delivered on a feed.
pub fn deliver(member: &mut Member<'_>, feed: Feed, bytes: &[u8])
    ensures { (terms : Terms) (came : List Delivery) → AreTerms terms → Heard terms member.old came → Heard terms member.new (delivered feed bytes.now came) }
{
    what_is_fresh_is_new();
    let _delivered = member.deliver(feed, bytes);
}

/// Datagrams are delivered on a feed, one after another.
fn deliver_all(member: &mut Member<'_>, feed: Feed, datagrams: &[Octets])
    ensures { (terms : Terms) (came : List Delivery) → AreTerms terms → Heard terms member.old came
        → Heard terms member.new (all_delivered feed datagrams.now came) }
{
    for datagram in datagrams {
        deliver(member, feed, datagram.bytes());
    }
}

/// A datagram is delivered on a feed, unless the number that was drawn for it is 0.
pub fn deliver_unless(member: &mut Member<'_>, feed: Feed, bytes: &[u8], number: u64)
    ensures { (terms : Terms) (came : List Delivery) → AreTerms terms → Heard terms member.old came
        → Heard terms member.new (if number == 0 then came else delivered feed bytes.now came) }
{
    if number == 0 {
        return;
    }
    deliver(member, feed, bytes);
}

// A copy of a datagram is kept, unless the number that was drawn for it is 0.
fn keep_unless(
    alloc: Global,
    copies: &mut Vec<Octets>,
    bytes: &[u8],
    number: u64,
) -> Result<(), AllocError>
    ensures { OnOk result (copies.new.items ≡ (if number == 0 then copies.old.items else copies.old.items ++ bytes.now ∷ [])) }
{
    if number == 0 {
        return Ok(());
    }
    copies.push(Octets::new(bytes.to_vec(alloc)?))?;
    Ok(())
}

// A live datagram goes out: it is delivered on line A and its B copy is kept, each unless the draw for it is 0.
fn cast(
    alloc: Global,
    member: &mut Member<'_>,
    draw: &mut Draw,
    copies: &mut Vec<Octets>,
    bytes: &[u8],
) -> Result<(), AllocError>
    ensures draw { OnOk result (draw.new ≡ next_state (next_state draw.old)) }
    ensures copies { OnOk result (copies.new.items ≡ copies_after bytes.now draw.old copies.old.items) }
    ensures heard { OnOk result ((terms : Terms) (came : List Delivery) → AreTerms terms → Heard terms member.old came
        → Heard terms member.new (came_after bytes.now draw.old came)) }
{
    deliver_unless(member, Feed::LiveA, bytes, draw.next(4));
    keep_unless(alloc, copies, bytes, draw.next(4))
}

// The live datagrams that are due go out, one after another.
fn send_due(
    alloc: Global,
    exchange: &mut Exchange<'_>,
    member: &mut Member<'_>,
    draw: &mut Draw,
    copies: &mut Vec<Octets>,
) -> Result<(), AllocError>
    ensures day { OnOk result (exchange.new ≡ record exchange.old { untold = []; live = exchange.old.live + length (due exchange.old) }) }
    ensures fed { OnOk result ((terms : Terms) (came : List Delivery) → AreTerms terms → Heard terms member.old came
        → Fed terms (cast_all (due_bytes exchange.old) (record { draw = draw.old; copies = copies.old.items; came = came }))
        draw.new copies.new.items member.new) }
{
    let mut datagram = [0; MOST_DATAGRAM];
    while let Some(sent) = exchange.next_datagram(&mut datagram) {
        cast(alloc, member, draw, copies, &datagram[..sent.len])?;
    }
    Ok(())
}

/// The B copies that are kept are delivered, and none is kept then.
pub fn catch_up(member: &mut Member<'_>, copies: &mut Vec<Octets>)
    ensures none { copies.new.items ≡ [] }
    ensures heard { (terms : Terms) (came : List Delivery) → AreTerms terms → Heard terms member.old came
        → Heard terms member.new (all_delivered LiveB copies.old.items came) }
{
    deliver_all(member, Feed::LiveB, copies.as_slice());
    copies.clear();
}

/// The B copies that were kept are delivered, and then the live datagrams that are due go out.
pub fn feed(
    alloc: Global,
    exchange: &mut Exchange<'_>,
    member: &mut Member<'_>,
    draw: &mut Draw,
    copies: &mut Vec<Octets>,
) -> Result<(), AllocError>
    ensures day { OnOk result (exchange.new ≡ record exchange.old { untold = []; live = exchange.old.live + length (due exchange.old) }) }
    ensures fed { OnOk result ((terms : Terms) (came : List Delivery) → AreTerms terms → Heard terms member.old came
        → Fed terms (cast_all (due_bytes exchange.old) (record { draw = draw.old; copies = []; came = all_delivered LiveB copies.old.items came }))
        draw.new copies.new.items member.new) }
{
    catch_up(member, copies);
    send_due(alloc, exchange, member, draw, copies)
}
