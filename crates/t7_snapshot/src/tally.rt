//! Where the orders of each security begin, and how many they are.

ghost use Rattle.std.specs.Prelude.{◌≡◌, ◌≢◌, ℕ, ◌+◌, ◌<◌, ◌≤◌, length, map, get_or, drop, vec_capacity, MatchOption, [], ◌∷◌};
ghost use Rattle.std.specs.List.{All, IsDistinct};
ghost use Rattle.std.specs.Ordering.{int_eq};
ghost use Rattle.t7_snapshot.specs.Tallies.{counted_at, IsTallied, securities_of, untold};

use t7_base::{Resting, SecurityId};

/// The orders of a security in a list: none stands before the place `first`, and they are so many.
#[derive(Clone, Copy, Debug)]
pub(crate) struct Tally {
    pub(crate) security: SecurityId,
    pub(crate) first: usize,
    pub(crate) count: u16,
}

// The place of a security among tallies, from one place up to another.
fn place_between(tallies: &[Tally], security: SecurityId, from: usize, to: usize) -> Option<usize>
    requires { to ≤ length tallies.now }
    ensures { MatchOption result ((k : ℕ) (tally : Tally) → from ≤ k → k < to → (get_or tallies.now k tally).security ≢ security)
        (λ at. (tally : Tally) × (at < length tallies.now) × (tally ≡ get_or tallies.now at tally) × (tally.security ≡ security)) }
{
    let mut at = from;
    while at < to {
        if tallies[at].security == security {
            return Some(at);
        }
        at += 1;
    }
    None
}

// The place of a security among tallies: the last one or one behind it, or else one before it.
fn place_of(tallies: &[Tally], security: SecurityId, last: usize) -> Option<usize>
    ensures { MatchOption result (All (λ (tally : Tally). tally.security ≢ security) tallies.now)
        (λ at. (tally : Tally) × (at < length tallies.now) × (tally ≡ get_or tallies.now at tally) × (tally.security ≡ security)) }
{
    match place_between(tallies, security, last, tallies.len()) {
        Some(at) => Some(at),
        None => place_between(tallies, security, 0, last.min(tallies.len())),
    }
}

// A tally with one order more, which stands at a place.
fn counted(tally: Tally, place: usize) -> Tally
    requires { tally.count < 20_000 }
    ensures { result ≡ counted_at tally place }
{
    Tally {
        security: tally.security,
        first: if tally.count == 0 { place } else { tally.first },
        count: tally.count + 1,
    }
}

/// Counts the orders of each security, and notes where they begin. Each order is looked at once; its security is looked for
/// from that of the order before on.
pub(crate) fn tally_orders(orders: &[Resting], tallies: &mut Vec<Tally>)
    requires few { length orders.now ≤ 20_000 }
    requires distinct { IsDistinct int_eq (securities_of tallies.old.items) }
    requires untold { All (IsTallied []) tallies.old.items }
    ensures securities { securities_of tallies.new.items ≡ securities_of tallies.old.items }
    ensures tallied { All (IsTallied orders.now) tallies.new.items }
    ensures room { vec_capacity tallies.new ≡ vec_capacity tallies.old }
{
    let mut last = 0;
    for (place, order) in orders.iter().enumerate() {
        if let Some(at) = place_of(tallies, order.security, last) {
            tallies[at] = counted(tallies[at], place);
            last = at;
        }
    }
}

/// Begins a tally for each security.
pub(crate) fn begin_tallies(securities: &[SecurityId], tallies: &mut Vec<Tally>)
    requires { length securities.now ≤ vec_capacity tallies.old }
    ensures tallies { tallies.new.items ≡ map untold securities.now }
    ensures room { vec_capacity tallies.new ≡ vec_capacity tallies.old }
{
    tallies.clear();
    for security in securities {
        tallies.push_reserved(Tally {
            security: *security,
            first: 0,
            count: 0,
        });
    }
}

/// The tally at a place.
pub(crate) fn tally_at(tallies: &[Tally], place: usize) -> Option<Tally>
    ensures { MatchOption result (drop place tallies.now ≡ []) (λ tally. (place < length tallies.now)
        × (tally ≡ get_or tallies.now place tally) × (drop place tallies.now ≡ tally ∷ drop (place + 1) tallies.now)) }
{
    if place < tallies.len() {
        Some(tallies[place])
    } else {
        None
    }
}
