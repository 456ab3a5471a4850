//! The orders of the member's book, on linked price levels. Nothing else touches how they are kept.

ghost use Rattle.std.specs.Prelude.{◌≡◌, ◌≤◌, ◌<◌, ◌&&◌, true, None, IfOk, IfSome, IsSome, [], not, map, length};
ghost use Rattle.std.specs.Iterator.{YieldsFirst, item_count};
ghost use Rattle.std.specs.List.{filter, find};
ghost use Rattle.std.specs.Ordering.{int_eq};
ghost use Rattle.t7_book.specs.Orders.{placed, goes_before, is_side};
ghost use Rattle.t7_mbook.specs.Changes.{named, without_name, renewed_resting};
ghost use Rattle.t7_mbook.specs.Misfits.{is_listed};
ghost use Rattle.t7_mbook.specs.Kept.{shown_option};
ghost use Rattle.std.specs.Option.{option_copied};
ghost use Rattle.t7_mbook.specs.Walk.{walk_rest};

use crate::kept::{Kept, OrderName};
use std::alloc::{AllocError, Global};
use std::marker::Model;
use t7_base::{Price, Qty, Resting, SecurityId, Side, Stamp};
use t7_book::Sides;
use t7_levels::{Shelves, Walk};

/// The orders of a book as the feed shows them. Room for all that it may hold is taken at the beginning, so that no other
/// call takes memory.
#[derive(Drop)]
pub(crate) struct Orders {
    sides: Sides,
    shelves: Shelves<OrderName, Kept>,
}

impl Model for Orders {
    ghost use Rattle.t7_mbook.specs.Kept.{RestingList, shown_orders, AreKept};

    ghost Value = { RestingList };

    ghost view = { λ o. record { securities = o.sides; list = shown_orders o.shelves.list } };

    ghost invariant = { λ o. AreKept o.sides o.shelves };
}

impl Orders {
    /// No orders, with room for all that a book may hold.
    pub(crate) fn new(alloc: Global, securities: Vec<SecurityId>) -> Result<Orders, AllocError>
        requires { length securities.items ≤ 1_000 }
        ensures securities { IfOk result (λ orders. orders.securities ≡ securities.items) }
        ensures list { IfOk result (λ orders. orders.list ≡ []) }
    {
        let sides = 2 * securities.len();
        let shelves = Shelves::new(alloc, sides, vacant())?;
        Ok(Orders {
            sides: Sides::new(alloc, securities)?,
            shelves,
        })
    }

    /// How many orders there are.
    pub(crate) fn len(&self) -> usize
        ensures value { result ≡ length self.now.list }
        ensures within { result ≤ 20_000 }
    {
        let _ = &self.sides;
        self.shelves.len()
    }

    /// Whether the security is the product's.
    pub(crate) fn lists(&self, security: SecurityId) -> bool
        ensures { result ≡ is_listed self.now.securities security }
    {
        let _ = &self.shelves;
        match self.sides.rank(security) {
            None => false,
            Some(_) => true,
        }
    }

    /// The order of this name.
    pub(crate) fn named(&self, security: SecurityId, side: Side, stamp: Stamp) -> Option<Resting>
        ensures { result ≡ named security side stamp self.now.list }
    {
        match self.sides.number(security, side) {
            None => None,
            Some(number) => shown(self.shelves.find(name_of(stamp, number))),
        }
    }

    /// The first order of a side.
    pub(crate) fn first(&self, security: SecurityId, side: Side) -> Option<Resting>
        ensures { result ≡ find (λ y. int_eq y.security security && is_side y.side side) self.now.list }
    {
        match self.sides.number(security, side) {
            None => None,
            Some(number) => shown(self.shelves.first_of(number)),
        }
    }

    /// Takes the orders of a side out.
    fn remove_side(&mut self, security: SecurityId, side: Side)
        ensures list { self.new.list ≡ filter (λ y. not (int_eq y.security security && is_side y.side side)) self.old.list }
        ensures securities { self.new.securities ≡ self.old.securities }
    {
        while let Some(first) = self.first(security, side) {
            self.remove(security, side, first.stamp);
        }
    }

    /// Takes the orders of a security out.
    pub(crate) fn remove_security(&mut self, security: SecurityId)
        ensures list { self.new.list ≡ filter (λ y. not (int_eq y.security security)) self.old.list }
        ensures securities { self.new.securities ≡ self.old.securities }
    {
        self.remove_side(security, Side::Buy);
        self.remove_side(security, Side::Sell);
    }

    /// Takes all orders out.
    pub(crate) fn clear(&mut self)
        ensures list { self.new.list ≡ [] }
        ensures securities { self.new.securities ≡ self.old.securities }
    {
        let _ = &self.sides;
        self.shelves.clear();
    }

    /// Puts an order in its place.
    pub(crate) fn place(&mut self, x: Resting)
        requires listed { is_listed self.old.securities x.security ≡ true }
        requires room { length self.old.list < 20_000 }
        requires new { named x.security x.side x.stamp self.old.list ≡ None }
        ensures list { self.new.list ≡ placed (goes_before self.old.securities) x self.old.list }
        ensures securities { self.new.securities ≡ self.old.securities }
    {
        match self.sides.number(x.security, x.side) {
            None => {}
            Some(number) => self.shelves.place(Kept { number, order: x }),
        }
    }

    /// Takes the order of this name out. Where it was there, there is room for another.
    pub(crate) fn remove(&mut self, security: SecurityId, side: Side, stamp: Stamp)
        ensures list { self.new.list ≡ without_name security side stamp self.old.list }
        ensures room { IsSome (named security side stamp self.old.list) → length self.new.list < 20_000 }
        ensures securities { self.new.securities ≡ self.old.securities }
    {
        match self.sides.number(security, side) {
            None => {}
            Some(number) => self.shelves.remove(name_of(stamp, number)),
        }
    }

    /// Puts x where the order of its name stands, which has its price.
    pub(crate) fn renew(&mut self, x: &Resting)
        requires { IfSome (named x.now.security x.now.side x.now.stamp self.old.list) (λ kept. kept.price ≡ x.now.price) }
        ensures list { self.new.list ≡ map (renewed_resting x.now) self.old.list }
        ensures securities { self.new.securities ≡ self.old.securities }
    {
        match self.sides.number(x.security, x.side) {
            None => {}
            Some(number) => self.shelves.renew(Kept { number, order: *x }),
        }
    }

    /// The orders, in the order of the book.
    pub(crate) fn walk(&self) -> MarketWalk<'_>
        ensures { walk_rest result ≡ self.now.list }
    {
        let _ = &self.sides;
        MarketWalk {
            walk: self.shelves.walk(),
        }
    }
}

/// What stands in the free slots.
fn vacant() -> Kept {
    Kept {
        number: 0,
        order: Resting {
            security: SecurityId(0),
            side: Side::Buy,
            price: Price::new(0).unwrap(),
            stamp: Stamp::new(1).unwrap(),
            qty: Qty::new(1).unwrap(),
        },
    }
}

/// A kept order as the feed shows it.
fn shown(kept: Option<&Kept>) -> Option<Resting>
    ensures { result ≡ shown_option (option_copied kept.entry) }
{
    match kept {
        None => None,
        Some(kept) => Some(kept.order),
    }
}

/// The name of an order.
fn name_of(stamp: Stamp, number: usize) -> OrderName
    ensures { result ≡ record { stamp = stamp; number = number } }
{
    OrderName {
        stamp: stamp.get(),
        number,
    }
}

/// The orders of a member's book that are still to come, in the order of the book.
#[derive(Drop)]
pub struct MarketWalk<'a> {
    walk: Walk<'a, Kept>,
}

impl<'a> Iterator for MarketWalk<'a> {
    type Item = Resting;

    ghost next_gives = { YieldsFirst walk_rest };

    ghost remaining = { item_count walk_rest };

    fn next(&mut self) -> Option<Resting> {
        match self.walk.next() {
            None => None,
            Some(kept) => Some(kept.order),
        }
    }
}
