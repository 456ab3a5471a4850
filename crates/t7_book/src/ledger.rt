//! The book of one product as its commands leave it, and what it does with a command.

ghost use Rattle.std.specs.Prelude.{◌≡◌, ◌≢◌, true, ◌≤◌, ◌<◌, ◌+◌, IfOk, Some, false, IsTrue, List, [], length};
ghost use Rattle.std.specs.List.{Contains};
ghost use Rattle.std.specs.Option.{option_copied};
ghost use Rattle.t7_book.specs.declared.command.Command.TheVariants as command;
ghost use Rattle.t7_book.specs.declared.command.Note.{Note};
ghost use Rattle.t7_book.specs.Orders.{empty_book, order_of};
ghost use Rattle.t7_book.specs.Commands.{IsForProduct, is_full, new_stamp, keeps_priority, executed_of};
ghost use Rattle.t7_book.specs.Sound.{IsRunning};
ghost use Rattle.t7_book.specs.Steps.{Applies};

use crate::commit::commit;
use crate::orders::Orders;
use crate::{BookRefusal, Command, Done, Note, Order, arrival, order, removal};
use std::alloc::{AllocError, Global};
use std::marker::Model;
use t7_base::{Moment, OrderId, Price, Public, Qty, Resting, SecurityId, SessionId, Stamp};
use t7_levels::MOST_ORDERS;

/// How many orders of one security a book holds at most: 10,000.
pub const MOST_OF_SECURITY: usize = 10_000;

/// What a book holds: its orders, the last id and the last stamp, and how many commands were applied.
#[derive(Drop)]
pub(crate) struct Ledger {
    sessions: Vec<SessionId>,
    orders: Orders,
    last_id: u64,
    last_stamp: u64,
    applied: u64,
}

impl Model for Ledger {
    ghost use Rattle.t7_book.specs.Orders.{BookState};
    ghost use Rattle.t7_book.specs.Sound.{IsSound};

    ghost Value = { BookState };

    ghost view = { λ b. record { roster = record { securities = b.orders.securities; sessions = b.sessions.items }; orders = b.orders.list; last_id = b.last_id; last_stamp = b.last_stamp; applied = b.applied } };

    ghost invariant = { λ b. IsSound (record { roster = record { securities = b.orders.securities; sessions = b.sessions.items }; orders = b.orders.list; last_id = b.last_id; last_stamp = b.last_stamp; applied = b.applied }) };
}

impl Ledger {
    /// An empty book with these securities and sessions.
    pub(crate) fn new(
        alloc: Global,
        securities: Vec<SecurityId>,
        sessions: Vec<SessionId>,
    ) -> Result<Ledger, AllocError>
        requires { length securities.items ≤ 1_000 }
        ensures { IfOk result (λ ledger. ledger ≡ empty_book (record { securities = securities.items; sessions = sessions.items })) }
    {
        Ok(Ledger {
            orders: Orders::new(alloc, securities)?,
            sessions,
            last_id: 0,
            last_stamp: 0,
            applied: 0,
        })
    }

    /// The orders.
    pub(crate) fn orders(&self) -> &Orders
        ensures list { result.now.list ≡ self.now.orders }
        ensures securities { result.now.securities ≡ self.now.roster.securities }
    {
        &self.orders
    }

    /// The id of the last new order, or 0 where there was none.
    pub(crate) fn last_id(&self) -> OrderId
        ensures { result ≡ self.now.last_id }
    {
        OrderId(self.last_id)
    }

    /// Whether the book takes no further order of the security.
    pub(crate) fn is_full(&self, security: SecurityId) -> bool
        ensures { result ≡ is_full self.now.orders security }
    {
        self.orders.len() >= MOST_ORDERS || self.orders.count_in(security) >= MOST_OF_SECURITY
    }

    /// Carries out a command.
    pub(crate) fn apply(
        &mut self,
        command: &Command,
        out: &mut Vec<Public>,
        notes: &mut Vec<Note>,
    ) -> Result<Done, BookRefusal>
        requires running { IsRunning self.old }
        requires product { IsForProduct self.old.roster command.now }
        requires few { self.old.applied < 1_000_000 }
        ensures { Applies self.old self.new command.now out.old.items out.new.items notes.old.items notes.new.items result }
    {
        match *command {
            Command::New {
                moment,
                session,
                security,
                side,
                price,
                qty,
                client,
            } => {
                let rest = Resting {
                    security,
                    side,
                    price,
                    stamp: self.next_stamp(moment),
                    qty,
                };
                self.enter(moment, session, &rest, client, out, notes)
            }
            Command::Modify {
                moment,
                session,
                order,
                price,
                qty,
                client,
            } => self.modify(moment, session, order, price, qty, client, out, notes),
            Command::Delete {
                moment,
                session,
                order,
                client,
            } => self.cancel(moment, session, order, client, out),
            Command::DeleteAll {
                moment,
                session,
                security,
            } => self.withdraw(moment, session, security, out),
            Command::Clear { moment, security } => self.clear(moment, security, out, notes),
        }
    }

    /// The new stamp of a command at this moment.
    fn next_stamp(&self, moment: Moment) -> Stamp
        requires { self.now.applied < 1_000_000 }
        ensures { result ≡ new_stamp self.now moment }
    {
        Stamp::new(moment.get().max(self.last_stamp + 1)).unwrap()
    }

    /// A New.
    fn enter(
        &mut self,
        moment: Moment,
        session: SessionId,
        rest: &Resting,
        client: u64,
        out: &mut Vec<Public>,
        notes: &mut Vec<Note>,
    ) -> Result<Done, BookRefusal>
        requires running { IsRunning self.old }
        requires listed { Contains self.old.roster.securities rest.now.security }
        requires few { self.old.applied < 1_000_000 }
        requires stamp { rest.now.stamp ≡ new_stamp self.old moment }
        ensures { Applies self.old self.new (command.New moment session rest.now.security rest.now.side rest.now.price rest.now.qty client) out.old.items out.new.items notes.old.items notes.new.items result }
    {
        if self.is_full(rest.security) {
            return Err(BookRefusal::BookFull);
        }
        let order = Order {
            rest: *rest,
            total: rest.qty,
            executed: 0,
            owner: session,
            id: OrderId(self.last_id + 1),
        };
        match arrival::arrive(&mut self.orders, &order, out, notes) {
            Err(_) => return Err(BookRefusal::Memory),
            Ok(()) => {}
        }
        self.last_id += 1;
        self.last_stamp = rest.stamp.get();
        self.applied += 1;
        Ok(Done {
            order: order.id,
            stamp: rest.stamp,
            count: 0,
        })
    }

    /// A Modify that keeps the priority of y.
    fn resize(
        &mut self,
        moment: Moment,
        session: SessionId,
        y: &Order,
        id: OrderId,
        price: Price,
        qty: Qty,
        client: u64,
        out: &mut Vec<Public>,
    ) -> Result<Done, BookRefusal>
        requires running { IsRunning self.old }
        requires few { self.old.applied < 1_000_000 }
        requires found { order_of self.old.orders session id ≡ Some y.now }
        requires above { executed_of y.now < qty }
        requires keeps { IsTrue (keeps_priority y.now price qty) }
        ensures { (told : List Note) → Applies self.old self.new (command.Modify moment session id price qty client) out.old.items out.new.items told told result }
    {
        let x = order::with_total(y, qty);
        let old = &y.rest;
        let new = &x.rest;
        let message = Public::SamePriority {
            security: old.security,
            side: old.side,
            stamp: old.stamp,
            price: old.price,
            prev_qty: old.qty,
            qty: new.qty,
        };
        match out.push(message) {
            Err(_) => return Err(BookRefusal::Memory),
            Ok(()) => {}
        }
        self.orders.renew(&x);
        self.applied += 1;
        Ok(Done {
            order: id,
            stamp: old.stamp,
            count: 0,
        })
    }

    /// A Modify that gives y a new stamp.
    fn requeue(
        &mut self,
        moment: Moment,
        session: SessionId,
        y: &Order,
        id: OrderId,
        price: Price,
        qty: Qty,
        client: u64,
        out: &mut Vec<Public>,
        notes: &mut Vec<Note>,
    ) -> Result<Done, BookRefusal>
        requires running { IsRunning self.old }
        requires few { self.old.applied < 1_000_000 }
        requires found { order_of self.old.orders session id ≡ Some y.now }
        requires above { executed_of y.now < qty }
        requires moves { keeps_priority y.now price qty ≡ false }
        ensures { Applies self.old self.new (command.Modify moment session id price qty client) out.old.items out.new.items notes.old.items notes.new.items result }
    {
        let stamp = self.next_stamp(moment);
        let x = order::changed_order(y, price, qty, stamp);
        match arrival::change(&mut self.orders, y, &x, out, notes) {
            Err(_) => return Err(BookRefusal::Memory),
            Ok(()) => {}
        }
        self.last_stamp = stamp.get();
        self.applied += 1;
        Ok(Done {
            order: id,
            stamp,
            count: 0,
        })
    }

    /// A Modify.
    fn modify(
        &mut self,
        moment: Moment,
        session: SessionId,
        id: OrderId,
        price: Price,
        qty: Qty,
        client: u64,
        out: &mut Vec<Public>,
        notes: &mut Vec<Note>,
    ) -> Result<Done, BookRefusal>
        requires running { IsRunning self.old }
        requires few { self.old.applied < 1_000_000 }
        ensures { Applies self.old self.new (command.Modify moment session id price qty client) out.old.items out.new.items notes.old.items notes.new.items result }
    {
        let y = match self.orders.find(session, id) {
            None => return Err(BookRefusal::UnknownOrder),
            Some(found) => *found,
        };
        if qty.units() <= order::executed(&y) {
            return Err(BookRefusal::BelowExecuted);
        }
        if order::keeps_priority(&y, price, qty) {
            self.resize(moment, session, &y, id, price, qty, client, out)
        } else {
            self.requeue(moment, session, &y, id, price, qty, client, out, notes)
        }
    }

    /// A Delete.
    fn cancel(
        &mut self,
        moment: Moment,
        session: SessionId,
        id: OrderId,
        client: u64,
        out: &mut Vec<Public>,
    ) -> Result<Done, BookRefusal>
        requires running { IsRunning self.old }
        requires few { self.old.applied < 1_000_000 }
        ensures { Applies self.old self.new (command.Delete moment session id client) out.old.items out.new.items [] [] result }
    {
        let y = match self.orders.find(session, id) {
            None => return Err(BookRefusal::UnknownOrder),
            Some(found) => *found,
        };
        self.strike(moment, session, &y, id, client, out)
    }

    /// A Delete of y.
    fn strike(
        &mut self,
        moment: Moment,
        session: SessionId,
        y: &Order,
        id: OrderId,
        client: u64,
        out: &mut Vec<Public>,
    ) -> Result<Done, BookRefusal>
        requires running { IsRunning self.old }
        requires few { self.old.applied < 1_000_000 }
        requires found { order_of self.old.orders session id ≡ Some y.now }
        ensures { Applies self.old self.new (command.Delete moment session id client) out.old.items out.new.items [] [] result }
    {
        match out.push(Public::Delete { order: y.rest }) {
            Err(_) => return Err(BookRefusal::Memory),
            Ok(()) => {}
        }
        self.orders.remove(y);
        self.applied += 1;
        Ok(Done {
            order: id,
            stamp: y.rest.stamp,
            count: 0,
        })
    }

    /// A DeleteAll.
    fn withdraw(
        &mut self,
        moment: Moment,
        session: SessionId,
        security: SecurityId,
        out: &mut Vec<Public>,
    ) -> Result<Done, BookRefusal>
        requires running { IsRunning self.old }
        requires few { self.old.applied < 1_000_000 }
        ensures { Applies self.old self.new (command.DeleteAll moment session security) out.old.items out.new.items [] [] result }
    {
        let Ok(gone) = self.orders.orders_of(session, security) else {
            return Err(BookRefusal::Memory);
        };
        match removal::append_deletions(self.orders.alloc(), &gone, out) {
            Err(_) => return Err(BookRefusal::Memory),
            Ok(()) => {}
        }
        removal::remove_all(&mut self.orders, &gone);
        self.applied += 1;
        Ok(Done {
            order: OrderId(0),
            stamp: first_stamp(),
            count: gone.len() as u16,
        })
    }

    /// A Clear.
    fn clear(
        &mut self,
        moment: Moment,
        security: SecurityId,
        out: &mut Vec<Public>,
        notes: &mut Vec<Note>,
    ) -> Result<Done, BookRefusal>
        requires running { IsRunning self.old }
        requires few { self.old.applied < 1_000_000 }
        ensures { Applies self.old self.new (command.Clear moment security) out.old.items out.new.items notes.old.items notes.new.items result }
    {
        let Ok(told) = removal::cleared(&self.sessions, security, &self.orders) else {
            return Err(BookRefusal::Memory);
        };
        match commit(out, notes, &[Public::MassDelete { security }], &told) {
            Err(_) => return Err(BookRefusal::Memory),
            Ok(()) => {}
        }
        let count = self.orders.count_in(security) as u16;
        self.orders.remove_security(security);
        self.applied += 1;
        Ok(Done {
            order: OrderId(0),
            stamp: first_stamp(),
            count,
        })
    }
}

/// The stamp 1.
fn first_stamp() -> Stamp
    ensures { result ≡ 1 }
{
    Stamp::new(1).unwrap()
}
