//! What is left to tell of a frozen book.

ghost use Rattle.std.specs.Prelude.{◌≡◌, ◌≢◌, MatchBool, ℕ, ◌+◌, ◌<◌, ◌≤◌, List, Option, Some, None, MatchOption, IfSome, IfOk, [], ◌∷◌, length, drop, get_or, vec_capacity};
ghost use Rattle.std.specs.List.{All, IsDistinct};
ghost use Rattle.std.specs.Ordering.{int_eq};
ghost use Rattle.t7_base.specs.declared.public.Resting.{Resting};
ghost use Rattle.t7_eobi.specs.declared.walks.Snap.{Snap};
ghost use Rattle.t7_eobi.specs.Bytes.{IsKnown, IsSecurity};
ghost use Rattle.t7_feed.specs.Cycles.{cycle_of, item_of};
ghost use Rattle.t7_feed.specs.Sending.{entry_of, parts_of};
ghost use Rattle.t7_snapshot.specs.Sending.{items_in, items_under};

use crate::tally::{Tally, begin_tallies, tally_at, tally_orders};
use std::alloc::{AllocError, Global};
use std::marker::Model;
use t7_base::{Resting, SecurityId};
use t7_eobi::Snap;
use t7_mbook::MarketBook;

// The most orders of a book.
const MOST_ORDERS: usize = 20_000;

// The most securities of a product.
const MOST_SECURITIES: usize = 1000;

// The place of the next order of a security, from a place on.
#[tactic(auto, using(crate::proofs::Scripts::next_skips, crate::proofs::Scripts::next_found, crate::proofs::Scripts::next_none))]
fn next_in(orders: &[Resting], security: SecurityId, from: usize) -> Option<usize>
    ensures { MatchOption result (items_in security (drop from orders.now) ≡ [])
        (λ at. (order : Resting) × (at < length orders.now) × (order ≡ get_or orders.now at order)
        × (items_in security (drop from orders.now) ≡ item_of (entry_of order) ∷ items_in security (drop (at + 1) orders.now))) }
{
    let mut at = from;
    while at < orders.len() {
        if orders[at].security == security {
            return Some(at);
        }
        at += 1;
    }
    None
}

// The place of the next order of the security under way, from a place on, where so many are left.
#[tactic(auto, using(crate::proofs::Scripts::none_left))]
fn next_under(
    orders: &[Resting],
    under: Option<SecurityId>,
    place: usize,
    left: u16,
) -> Option<usize>
    requires { left ≡ length (items_under under (drop place orders.now)) }
    ensures { MatchOption result (items_under under (drop place orders.now) ≡ [])
        (λ at. (order : Resting) × (at < length orders.now) × (order ≡ get_or orders.now at order)
        × (items_under under (drop place orders.now) ≡ item_of (entry_of order) ∷ items_under under (drop (at + 1) orders.now))) }
{
    match under {
        Some(security) if left > 0 => next_in(orders, security, place),
        _ => None,
    }
}

// Copies the orders of a book.
fn copy_orders(book: &MarketBook, orders: &mut Vec<Resting>)
    requires { 20_000 ≤ vec_capacity orders.old }
    ensures copied { orders.new.items ≡ book.now.orders }
    ensures few { length orders.new.items ≤ 20_000 }
    ensures room { 20_000 ≤ vec_capacity orders.new }
{
    let _most = book.len();
    orders.clear();
    for order in book.walk() {
        orders.push_reserved(order);
    }
}

/// The items of a cycle of a frozen book that are left to tell, in order.
#[derive(Drop)]
pub(crate) struct Script {
    orders: Vec<Resting>,
    tallies: Vec<Tally>,
    // The number of the cycle, while it isn't told.
    number: Option<u32>,
    // The place of the next security's tally.
    next: usize,
    under: Option<SecurityId>,
    // So many orders of the security under way are left, from this place on.
    place: usize,
    left: u16,
}

impl Model for Script {
    ghost use Rattle.std.specs.Prelude.{List, drop, ◌≤◌, vec_capacity};
    ghost use Rattle.t7_eobi.specs.declared.walks.Snap.{Snap};
    ghost use Rattle.t7_snapshot.specs.Sending.{left_of};
    ghost use Rattle.t7_snapshot.specs.Tallies.{IsTelling, securities_of};

    ghost Value = { List Snap };

    ghost view = { λ s. left_of s.number s.under (securities_of (drop s.next s.tallies.items)) (drop s.place s.orders.items) s.orders.items };

    ghost invariant = { λ s. IsTelling s.orders.items s.tallies.items s.number s.under s.place s.left
        × (20000 ≤ vec_capacity s.orders) × (1000 ≤ vec_capacity s.tallies) };
}

impl Script {
    /// Nothing is left; takes room for the orders of a book and the securities of a product.
    pub(crate) fn new(alloc: Global) -> Result<Script, AllocError>
        ensures { IfOk result (λ script. script ≡ []) }
    {
        Ok(Script {
            orders: Vec::with_capacity(alloc, MOST_ORDERS)?,
            tallies: Vec::with_capacity(alloc, MOST_SECURITIES)?,
            number: None,
            next: 0,
            under: None,
            place: 0,
            left: 0,
        })
    }

    /// Begins to tell a book beside message m, for these securities.
    pub(crate) fn begin(&mut self, securities: &[SecurityId], book: &MarketBook, m: u32)
        requires few { length securities.now ≤ 1000 }
        requires distinct { IsDistinct int_eq securities.now }
        requires ranged { All IsSecurity securities.now }
        requires number { m ≤ 4_294_967_294 }
        ensures { self.new ≡ cycle_of m (parts_of securities.now book.now.orders) }
    {
        copy_orders(book, &mut self.orders);
        begin_tallies(securities, &mut self.tallies);
        tally_orders(&self.orders, &mut self.tallies);
        self.number = Some(m);
        self.next = 0;
        self.under = None;
        self.place = 0;
        self.left = 0;
    }

    /// Whether nothing is left.
    pub(crate) fn is_told(&self) -> bool
        ensures { MatchBool result (self.now ≡ []) (self.now ≢ []) }
    {
        self.peek().is_none()
    }

    /// The next item.
    pub(crate) fn peek(&self) -> Option<Snap>
        ensures next { MatchOption result (self.now ≡ []) (λ snap. (rest : List Snap) × (self.now ≡ snap ∷ rest)) }
        ensures known { IfSome result IsKnown }
    {
        if let Some(m) = self.number {
            return Some(Snap::Product(m));
        }
        if let Some(at) = next_under(&self.orders, self.under, self.place, self.left) {
            let order = self.orders[at];
            return Some(Snap::Order {
                side: order.side,
                price: order.price,
                stamp: order.stamp,
                qty: order.qty,
            });
        }
        let tally = tally_at(&self.tallies, self.next)?;
        Some(Snap::Instrument {
            security: tally.security,
            count: tally.count,
        })
    }

    /// Passes over the next item.
    pub(crate) fn pass(&mut self)
        requires { 0 < length self.old }
        ensures { (snap : Snap) × (self.old ≡ snap ∷ self.new) }
    {
        if let Some(_) = self.number {
            self.number = None;
            return;
        }
        if let Some(at) = next_under(&self.orders, self.under, self.place, self.left) {
            self.place = at + 1;
            self.left -= 1;
            return;
        }
        if let Some(tally) = tally_at(&self.tallies, self.next) {
            self.under = Some(tally.security);
            self.place = tally.first;
            self.left = tally.count;
            self.next += 1;
        }
    }
}
