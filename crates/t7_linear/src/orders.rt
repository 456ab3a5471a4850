//! The resting orders, as one list in the order of the book. Nothing else touches how they are kept.

ghost use Rattle.std.specs.Prelude.{◌≡◌, ◌≤◌, ◌<◌, ◌++◌, IfOk, [], length, vec_capacity, not};
ghost use Rattle.std.specs.List.{insert, filter};
ghost use Rattle.std.specs.Option.{option_copied};
ghost use Rattle.t7_book.specs.Orders.{with_order, without, renewed, order_of, is_in, is_of};
ghost use Rattle.t7_book.specs.Trades.{trades, traded};

use crate::order::renewed_order;
use crate::priority;
use std::alloc::{AllocError, Global};
use std::marker::Model;
use t7_base::{OrderId, Resting, SecurityId, SessionId};
use t7_book::priority::same_name;
use t7_book::{MOST_ORDERS, Order, Trade};

/// The resting orders of a book. Room for all that it may hold is taken at the beginning.
#[derive(Debug, Drop)]
pub(crate) struct Orders {
    items: Vec<Order>,
}

impl Model for Orders {
    ghost use Rattle.std.specs.Prelude.{◌≤◌, List, length, vec_capacity};
    ghost use Rattle.t7_book.specs.declared.order.Order.{Order};

    ghost Value = { List Order };

    ghost view = { λ o. o.items.items };

    ghost invariant = { λ o. (length o.items.items ≤ 20_000) × (20_000 ≤ vec_capacity o.items) };
}

impl Orders {
    /// No orders, with room for all that a book may hold.
    pub(crate) fn new(alloc: Global) -> Result<Orders, AllocError>
        ensures { IfOk result (λ orders. orders ≡ []) }
    {
        Ok(Orders {
            items: Vec::with_capacity(alloc, MOST_ORDERS)?,
        })
    }

    /// The allocator.
    pub(crate) fn alloc(&self) -> Global {
        *self.items.allocator()
    }

    /// How many orders there are.
    pub(crate) fn len(&self) -> usize
        ensures value { result ≡ length self.now }
        ensures within { result ≤ 20_000 }
    {
        self.items.len()
    }

    /// How many orders are in a security.
    pub(crate) fn count_in(&self, security: SecurityId) -> usize
        ensures value { result ≡ length (filter (is_in security) self.now) }
        ensures within { result ≤ 20_000 }
    {
        self.items
            .iter()
            .filter(|y| y.rest.security == security)
            .count()
    }

    /// How many orders a session has in a security.
    pub(crate) fn count_of(&self, session: SessionId, security: SecurityId) -> usize
        ensures value { result ≡ length (filter (is_of session security) self.now) }
        ensures within { result ≤ 20_000 }
    {
        self.items
            .iter()
            .filter(|y| y.owner == session && y.rest.security == security)
            .count()
    }

    /// The orders of a session in a security, in the order of the book.
    pub(crate) fn orders_of(
        &self,
        session: SessionId,
        security: SecurityId,
    ) -> Result<Vec<Order>, AllocError>
        ensures found { IfOk result (λ found. found.items ≡ filter (is_of session security) self.now) }
        ensures within { IfOk result (λ found. length found.items ≤ 20_000) }
    {
        let alloc = self.alloc();
        self.items
            .iter()
            .copied()
            .filter(|y| y.owner == session && y.rest.security == security)
            .collect(alloc)
    }

    /// The order with this id and this owner.
    pub(crate) fn find(&self, session: SessionId, id: OrderId) -> Option<&Order>
        ensures { option_copied result ≡ order_of self.now session id }
    {
        self.items.iter().find(|y| y.id == id && y.owner == session)
    }

    /// The trades of an incoming order.
    pub(crate) fn trades(&self, x: &Resting) -> Result<Vec<Trade>, AllocError>
        ensures trades { IfOk result (λ found. found.items ≡ trades x.now self.now) }
        ensures within { IfOk result (λ found. traded found.items ≤ x.now.qty) }
        ensures few { length self.now ≤ 20_000 }
    {
        trades_of(self.alloc(), x, &self.items)
    }

    /// Puts an order in its place.
    pub(crate) fn place(&mut self, securities: &[SecurityId], x: Order)
        requires { length self.old < 20_000 }
        ensures { self.new ≡ with_order securities.now x self.old }
    {
        let at = place_of(securities, &self.items, &x);
        let _ = self.items.insert(at, x);
    }

    /// Takes the order of this name out.
    pub(crate) fn remove(&mut self, x: &Resting)
        ensures { self.new ≡ without x.now self.old }
    {
        self.items.retain(|y| !same_name(x, &y.rest));
    }

    /// Takes the orders of a security out.
    pub(crate) fn remove_security(&mut self, security: SecurityId)
        ensures { self.new ≡ filter (λ y. not (is_in security y)) self.old }
    {
        self.items.retain(|y| y.rest.security != security);
    }

    /// Puts x where the order of its name stands.
    pub(crate) fn renew(&mut self, x: &Order)
        ensures { self.new ≡ renewed x.now self.old }
    {
        renew_in(&mut self.items, x);
    }

    /// The orders, in the order of the book.
    pub(crate) fn all(&self) -> &[Order]
        ensures { result.now ≡ self.now }
    {
        &self.items
    }
}

/// How many of the orders, from the first on, go before x.
fn place_of(securities: &[SecurityId], orders: &[Order], x: &Order) -> usize
    ensures within { result ≤ length orders.now }
    ensures place { with_order securities.now x.now orders.now ≡ insert orders.now result x.now }
{
    for (i, y) in orders.iter().enumerate() {
        if !priority::goes_before(securities, &y.rest, &x.rest) {
            return i;
        }
    }
    orders.len()
}

/// Puts x where the order of its name stands.
fn renew_in(orders: &mut Vec<Order>, x: &Order)
    ensures items { orders.new.items ≡ renewed x.now orders.old.items }
    ensures same { length orders.new.items ≡ length orders.old.items }
    ensures room { vec_capacity orders.new ≡ vec_capacity orders.old }
{
    for y in orders.iter_mut() {
        *y = renewed_order(x, y);
    }
}

/// The trades of an incoming order with the orders that it crosses, in the order of the book.
fn trades_of(alloc: Global, x: &Resting, orders: &[Order]) -> Result<Vec<Trade>, AllocError>
    ensures trades { IfOk result (λ found. found.items ≡ trades x.now orders.now) }
    ensures within { IfOk result (λ found. traded found.items ≤ x.now.qty) }
{
    let mut found = Vec::new(alloc);
    let mut left = Some(x.qty);
    for y in orders {
        let Some(wanted) = left else {
            return Ok(found);
        };
        if priority::crosses(x, &y.rest) {
            let qty = wanted.smaller(y.rest.qty);
            found.push(Trade { maker: *y, qty })?;
            left = wanted.less(qty);
        }
    }
    Ok(found)
}
