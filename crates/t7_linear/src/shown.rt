//! The orders of the member's book, as one list in the order of the book. Nothing else touches how they are kept.

ghost use Rattle.std.specs.Prelude.{◌≡◌, ◌≤◌, ◌<◌, IfOk, IsSome, [], not, map, length, vec_capacity};
ghost use Rattle.std.specs.List.{insert, filter};
ghost use Rattle.std.specs.Ordering.{int_eq};
ghost use Rattle.t7_book.specs.Orders.{placed, goes_before};
ghost use Rattle.t7_mbook.specs.Changes.{named, without_name, renewed_resting};

use crate::priority::goes_before;
use std::alloc::{AllocError, Global};
use std::marker::Model;
use t7_base::{Resting, SecurityId, Side, Stamp};
use t7_book::MOST_ORDERS;
use t7_book::priority::{has_name, same_name};

/// The orders of a book as the feed shows them. Room for all that it may hold is taken at the beginning, so that no other
/// call takes memory.
#[derive(Debug, Drop)]
pub(crate) struct Shown {
    items: Vec<Resting>,
}

impl Model for Shown {
    ghost use Rattle.std.specs.Prelude.{◌≤◌, List, length, vec_capacity};
    ghost use Rattle.t7_base.specs.declared.public.Resting.{Resting};

    ghost Value = { List Resting };

    ghost view = { λ o. o.items.items };

    ghost invariant = { λ o. (length o.items.items ≤ 20_000) × (20_000 ≤ vec_capacity o.items) };
}

impl Shown {
    /// No orders, with room for all that a book may hold.
    pub(crate) fn new(alloc: Global) -> Result<Shown, AllocError>
        ensures { IfOk result (λ orders. orders ≡ []) }
    {
        Ok(Shown {
            items: Vec::with_capacity(alloc, MOST_ORDERS)?,
        })
    }

    /// How many orders there are.
    pub(crate) fn len(&self) -> usize
        ensures value { result ≡ length self.now }
        ensures within { result ≤ 20_000 }
    {
        self.items.len()
    }

    /// The order of this name.
    pub(crate) fn named(&self, security: SecurityId, side: Side, stamp: Stamp) -> Option<Resting>
        ensures { result ≡ named security side stamp self.now }
    {
        self.items
            .iter()
            .copied()
            .find(|y| has_name(security, side, stamp, y))
    }

    /// Puts an order in its place.
    pub(crate) fn place(&mut self, securities: &[SecurityId], x: Resting)
        requires { length self.old < 20_000 }
        ensures { self.new ≡ placed (goes_before securities.now) x self.old }
    {
        let at = place_of(securities, &self.items, &x);
        let _ = self.items.insert(at, x);
    }

    /// Takes the order of this name out. Where it was there, there is room for another.
    pub(crate) fn remove(&mut self, security: SecurityId, side: Side, stamp: Stamp)
        ensures items { self.new ≡ without_name security side stamp self.old }
        ensures room { IsSome (named security side stamp self.old) → length self.new < 20_000 }
    {
        self.items.retain(|y| !has_name(security, side, stamp, y));
    }

    /// Takes the orders of a security out.
    pub(crate) fn remove_security(&mut self, security: SecurityId)
        ensures { self.new ≡ filter (λ y. not (int_eq y.security security)) self.old }
    {
        self.items.retain(|y| y.security != security);
    }

    /// Puts x where the order of its name stands.
    pub(crate) fn renew(&mut self, x: &Resting)
        ensures { self.new ≡ map (renewed_resting x.now) self.old }
    {
        renew_in(&mut self.items, x);
    }

    /// The orders, in the order of the book.
    pub(crate) fn all(&self) -> &[Resting]
        ensures { result.now ≡ self.now }
    {
        &self.items
    }
}

/// How many of the orders, from the first on, go before x.
fn place_of(securities: &[SecurityId], orders: &[Resting], x: &Resting) -> usize
    ensures within { result ≤ length orders.now }
    ensures place { placed (goes_before securities.now) x.now orders.now ≡ insert orders.now result x.now }
{
    for (i, y) in orders.iter().enumerate() {
        if !goes_before(securities, y, x) {
            return i;
        }
    }
    orders.len()
}

/// x where y has its name, else y.
fn renewed_resting(x: &Resting, y: &Resting) -> Resting
    ensures { result ≡ renewed_resting x.now y.now }
{
    if same_name(x, y) { *x } else { *y }
}

/// Puts x where the order of its name stands.
fn renew_in(orders: &mut Vec<Resting>, x: &Resting)
    ensures items { orders.new.items ≡ map (renewed_resting x.now) orders.old.items }
    ensures same { length orders.new.items ≡ length orders.old.items }
    ensures room { vec_capacity orders.new ≡ vec_capacity orders.old }
{
    for y in orders.iter_mut() {
        *y = renewed_resting(x, y);
    }
}
