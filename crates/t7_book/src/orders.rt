//! The resting orders of a book, on linked price levels. Nothing else touches how they are kept.

ghost use Rattle.std.specs.Prelude.{◌≡◌, ◌≤◌, ◌<◌, ◌++◌, true, ◌+◌, ◌-◌, ◌*◌, IfOk, [], length, replicate, slice_index_or, slice_set, not};
ghost use Rattle.std.specs.List.{filter, find};
ghost use Rattle.std.specs.Option.{option_copied};
ghost use Rattle.t7_levels.specs.Side.{Once, from_first};
ghost use Rattle.t7_base.specs.declared.public.Resting.{Resting};
ghost use Rattle.t7_book.specs.Orders.{with_order, without, renewed, order_of, is_in, is_of};
ghost use Rattle.t7_book.specs.Laws.{Distinct};
ghost use Rattle.t7_book.specs.Kept.{EndsAtFirst, MayEnter, Requantifies, Stands, is_on, order_in, owned};
ghost use Rattle.t7_book.specs.Numbers.{is_listed, opposite};
ghost use Rattle.t7_book.specs.Trades.{crosses, trades, traded};
ghost use Rattle.t7_book.specs.Walk.{walk_rest};
ghost use Rattle.std.specs.Iterator.{YieldsFirstRef, item_count};

use crate::kept::Kept;
use crate::sides::{Sides, opposite};
use crate::{Order, Trade, priority};
use std::alloc::{AllocError, Global};
use std::marker::Model;
use t7_base::{OrderId, Price, Qty, Resting, SecurityId, SessionId, Side, Stamp};
use t7_levels::{Shelves, Walk};

/// The resting orders of a book. Room for all that it may hold is taken at the beginning.
#[derive(Drop)]
pub(crate) struct Orders {
    sides: Sides,
    // How many orders each security has.
    counts: Vec<usize>,
    shelves: Shelves<u64, Kept>,
}

impl Model for Orders {
    ghost use Rattle.t7_book.specs.Kept.{OrderList, orders_in, AreKept};

    ghost Value = { OrderList };

    ghost view = { λ o. record { securities = o.sides; list = orders_in o.shelves.list } };

    ghost invariant = { λ o. AreKept o.sides o.shelves o.counts.items };
}

impl Orders {
    /// No orders, with room for all that a book may hold.
    pub(crate) fn new(alloc: Global, securities: Vec<SecurityId>) -> Result<Orders, AllocError>
        requires { length securities.items ≤ 1_000 }
        ensures securities { IfOk result (λ orders. orders.securities ≡ securities.items) }
        ensures list { IfOk result (λ orders. orders.list ≡ []) }
    {
        let places = securities.len();
        let sides = Sides::new(alloc, securities)?;
        let counts = zeros(alloc, places)?;
        let shelves = Shelves::new(alloc, 2 * places, vacant())?;
        Ok(Orders::of(sides, counts, shelves))
    }

    /// No orders, on levels without orders.
    fn of(sides: Sides, counts: Vec<usize>, shelves: Shelves<u64, Kept>) -> Orders
        requires counts { counts.items ≡ replicate (length sides) 0 }
        requires sides { shelves.sides ≡ 2 * length sides }
        requires none { shelves.list ≡ [] }
        ensures securities { result.securities ≡ sides }
        ensures list { result.list ≡ [] }
    {
        Orders {
            sides,
            counts,
            shelves,
        }
    }

    /// The allocator.
    pub(crate) fn alloc(&self) -> Global {
        self.sides.alloc()
    }

    /// How many orders there are.
    pub(crate) fn len(&self) -> usize
        ensures value { result ≡ length self.now.list }
        ensures within { result ≤ 20_000 }
    {
        let _ = &self.sides;
        self.shelves.len()
    }

    /// What the orders keep: each has a stamp and an id of its own.
    pub(crate) fn apart(&self)
        ensures stamps { Distinct self.now.list }
        ensures ids { Once (λ y. y.id) self.now.list }
        ensures few { length self.now.list ≤ 20_000 }
    {
        let _ = &self.sides;
        self.shelves.once();
    }

    /// How many orders are in a security.
    pub(crate) fn count_in(&self, security: SecurityId) -> usize
        ensures value { result ≡ length (filter (is_in security) self.now.list) }
        ensures within { result ≤ 20_000 }
    {
        match self.sides.rank(security) {
            None => 0,
            Some(rank) => counted(&self.counts, rank),
        }
    }

    /// How many orders a session has in a security.
    pub(crate) fn count_of(&self, session: SessionId, security: SecurityId) -> usize
        ensures value { result ≡ length (filter (is_of session security) self.now.list) }
        ensures within { result ≤ 20_000 }
    {
        self.apart();
        let mut count = 0;
        for y in self.walk() {
            if y.owner == session && y.rest.security == security {
                count += 1;
            }
        }
        count
    }

    /// The orders of a session in a security, in the order of the book.
    pub(crate) fn orders_of(
        &self,
        session: SessionId,
        security: SecurityId,
    ) -> Result<Vec<Order>, AllocError>
        ensures found { IfOk result (λ found. found.items ≡ filter (is_of session security) self.now.list) }
        ensures within { IfOk result (λ found. length found.items ≤ 20_000) }
    {
        self.apart();
        let mut found = Vec::new(self.alloc());
        for y in self.walk() {
            if y.owner == session && y.rest.security == security {
                found.push(*y)?;
            }
        }
        Ok(found)
    }

    /// The order with this id and this owner.
    pub(crate) fn find(&self, session: SessionId, id: OrderId) -> Option<&Order>
        ensures { option_copied result ≡ order_of self.now.list session id }
    {
        self.shelves.once();
        owned(session, self.shelves.find(name_of(id)))
    }

    /// The first order of a side.
    pub(crate) fn first(&self, security: SecurityId, side: Side) -> Option<&Order>
        ensures { option_copied result ≡ find (is_on security side) self.now.list }
    {
        match self.sides.number(security, side) {
            None => None,
            Some(number) => order_in(self.shelves.first_of(number)),
        }
    }

    /// The trades of an incoming order.
    pub(crate) fn trades(&self, x: &Resting) -> Result<Vec<Trade>, AllocError>
        requires { is_listed self.now.securities x.now.security ≡ true }
        ensures trades { IfOk result (λ found. found.items ≡ trades x.now self.now.list) }
        ensures within { IfOk result (λ found. traded found.items ≤ x.now.qty) }
        ensures few { length self.now.list ≤ 20_000 }
    {
        self.apart();
        let others = self.walk_of(x.security, opposite(x.side));
        trades_of(self.alloc(), x, others)
    }

    /// Puts an order in its place.
    pub(crate) fn place(&mut self, x: &Order)
        requires { MayEnter self.old x.now }
        ensures list { self.new.list ≡ with_order self.old.securities x.now self.old.list }
        ensures securities { self.new.securities ≡ self.old.securities }
    {
        let number = self.sides.listed_number(x.rest.security, x.rest.side);
        let rank = self.sides.listed_rank(x.rest.security);
        count_up(&mut self.counts, rank);
        self.shelves.place(Kept { number, order: *x });
    }

    /// Takes an order out.
    pub(crate) fn remove(&mut self, x: &Order)
        requires { Stands self.old.list x.now }
        ensures list { self.new.list ≡ without x.now.rest self.old.list }
        ensures securities { self.new.securities ≡ self.old.securities }
    {
        self.shelves.once();
        let rank = self.sides.listed_rank(x.rest.security);
        count_down(&mut self.counts, rank);
        self.shelves.remove(name_of(x.id));
    }

    /// Takes the orders of a side out.
    fn remove_side(&mut self, security: SecurityId, side: Side)
        ensures list { self.new.list ≡ filter (λ y. not (is_on security side y)) self.old.list }
        ensures securities { self.new.securities ≡ self.old.securities }
    {
        self.apart();
        while let Some(first) = self.first(security, side) {
            let gone = *first;
            self.remove(&gone);
            self.apart();
        }
    }

    /// Takes the orders of a security out.
    pub(crate) fn remove_security(&mut self, security: SecurityId)
        ensures list { self.new.list ≡ filter (λ y. not (is_in security y)) self.old.list }
        ensures securities { self.new.securities ≡ self.old.securities }
    {
        self.remove_side(security, Side::Buy);
        self.remove_side(security, Side::Sell);
    }

    /// Gives an order other quantities.
    pub(crate) fn renew(&mut self, x: &Order)
        requires { Requantifies self.old.list x.now }
        ensures list { self.new.list ≡ renewed x.now self.old.list }
        ensures securities { self.new.securities ≡ self.old.securities }
    {
        self.shelves.once();
        let number = self.sides.listed_number(x.rest.security, x.rest.side);
        self.shelves.renew(Kept { number, order: *x });
    }

    /// The orders, in the order of the book.
    pub(crate) fn walk(&self) -> BookWalk<'_>
        ensures { walk_rest result ≡ self.now.list }
    {
        let _ = &self.sides;
        BookWalk {
            walk: self.shelves.walk(),
        }
    }

    /// The orders from the first of a side on. Where an order of the other side of the security doesn't cross one of them, it
    /// crosses none behind.
    fn walk_of(&self, security: SecurityId, side: Side) -> BookWalk<'_>
        requires { is_listed self.now.securities security ≡ true }
        ensures rest { walk_rest result ≡ from_first (is_on security side) self.now.list }
        ensures ends { (x : Resting) → x.security ≡ security → opposite x.side ≡ side → EndsAtFirst (λ y. crosses x y.rest) (walk_rest result) }
    {
        let number = self.sides.listed_number(security, side);
        BookWalk {
            walk: self.shelves.walk_of(number),
        }
    }
}

/// So many zeros.
fn zeros(alloc: Global, n: usize) -> Result<Vec<usize>, AllocError>
    ensures { IfOk result (λ counts. counts.items ≡ replicate n 0) }
{
    vec![in alloc; 0; n]
}

/// How many orders are counted at this place.
fn counted(counts: &Vec<usize>, at: usize) -> usize
    requires { at < length counts.now.items }
    ensures { result ≡ slice_index_or counts.now.items at 0 }
{
    counts[at]
}

/// One more order at this place.
fn count_up(counts: &mut Vec<usize>, at: usize)
    requires within { at < length counts.old.items }
    requires few { slice_index_or counts.old.items at 0 < 20_000 }
    ensures { counts.new.items ≡ slice_set counts.old.items at (slice_index_or counts.old.items at 0 + 1) }
{
    counts[at] += 1;
}

/// One order fewer at this place.
fn count_down(counts: &mut Vec<usize>, at: usize)
    requires within { at < length counts.old.items }
    requires some { 1 ≤ slice_index_or counts.old.items at 0 }
    ensures { counts.new.items ≡ slice_set counts.old.items at (slice_index_or counts.old.items at 0 - 1) }
{
    counts[at] -= 1;
}

/// What stands in the free slots.
fn vacant() -> Kept {
    let qty = Qty::new(1).unwrap();
    Kept {
        number: 0,
        order: Order {
            rest: Resting {
                security: SecurityId(0),
                side: Side::Buy,
                price: Price::new(0).unwrap(),
                stamp: Stamp::new(1).unwrap(),
                qty,
            },
            total: qty,
            executed: 0,
            owner: SessionId(0),
            id: OrderId(0),
        },
    }
}

/// The name of an order on the levels.
fn name_of(id: OrderId) -> u64
    ensures { result ≡ id }
{
    id.0
}

/// The order of a kept one.
fn order_in(kept: Option<&Kept>) -> Option<&Order>
    ensures { option_copied result ≡ order_in (option_copied kept.entry) }
{
    match kept {
        None => None,
        Some(kept) => Some(&kept.order),
    }
}

/// The order of a kept one, where the session owns it.
fn owned(session: SessionId, kept: Option<&Kept>) -> Option<&Order>
    ensures { option_copied result ≡ owned session (option_copied kept.entry) }
{
    match kept {
        None => None,
        Some(kept) => {
            if kept.order.owner == session {
                Some(&kept.order)
            } else {
                None
            }
        }
    }
}

/// The orders of a book that are still to come, in the order of the book.
#[derive(Drop)]
pub struct BookWalk<'a> {
    walk: Walk<'a, Kept>,
}

impl<'a> Iterator for BookWalk<'a> {
    type Item = &'a Order;

    ghost next_gives = { YieldsFirstRef walk_rest };

    ghost remaining = { item_count walk_rest };

    fn next(&mut self) -> Option<&'a Order> {
        match self.walk.next() {
            None => None,
            Some(kept) => Some(&kept.order),
        }
    }
}

/// The trades of an incoming order with the orders that it crosses, which stand in front of all that it doesn't cross.
fn trades_of(alloc: Global, x: &Resting, others: BookWalk<'_>) -> Result<Vec<Trade>, AllocError>
    requires { EndsAtFirst (λ y. crosses x.now y.rest) (walk_rest others) }
    ensures trades { IfOk result (λ found. found.items ≡ trades x.now (walk_rest others.entry)) }
    ensures within { IfOk result (λ found. traded found.items ≤ x.now.qty) }
{
    let mut found = Vec::new(alloc);
    let mut left = Some(x.qty);
    for y in others {
        let Some(wanted) = left else {
            return Ok(found);
        };
        if !priority::crosses(x, &y.rest) {
            return Ok(found);
        }
        let qty = wanted.smaller(y.rest.qty);
        found.push(Trade { maker: *y, qty })?;
        left = wanted.less(qty);
    }
    Ok(found)
}
