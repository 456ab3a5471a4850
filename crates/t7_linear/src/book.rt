//! The exchange's book over a vector, and what it does with a command.

ghost use Rattle.std.specs.Prelude.{◌≡◌, ◌≤◌, ◌<◌, ◌+◌, ◌++◌, IfOk, Some, false, OnOk, OnErr, IsTrue, MatchOption, IfErr, List, []};
ghost use Rattle.t7_book.specs.declared.command.Command.TheVariants as command;
ghost use Rattle.t7_book.specs.declared.command.Note.{Note};
ghost use Rattle.t7_book.specs.Orders.{empty_book, roster_of, order_of};
ghost use Rattle.t7_book.specs.Commands.{IsForProduct, refusal, is_full, new_stamp, keeps_priority, executed_of};
ghost use Rattle.t7_book.specs.Steps.{Applies, done_of, book_after, messages, steps, notes_of};

use crate::commit::commit;
use crate::orders::Orders;
use crate::{arrival, order, removal};
use std::alloc::{AllocError, Global};
use std::marker::Model;
use t7_base::{
    Moment, OrderId, Price, Product, Public, Qty, Resting, SecurityId, SessionId, Stamp,
};
use t7_book::{BookRefusal, Command, Done, MOST_OF_SECURITY, MOST_ORDERS, Note, Order};

/// The order book of one product with its orders in one vector, in the order of the book: each command looks at all of them.
///
/// Contracts see it as they see `Book`, as `BookState`.
#[derive(Debug, Drop)]
pub struct LinearBook {
    securities: Vec<SecurityId>,
    sessions: Vec<SessionId>,
    orders: Orders,
    last_id: u64,
    last_stamp: u64,
    applied: u64,
}

impl Model for LinearBook {
    ghost use Rattle.t7_book.specs.Orders.{BookState};
    ghost use Rattle.t7_book.specs.Sound.{IsSound};

    ghost Value = { BookState };

    ghost view = { λ b. record { roster = record { securities = b.securities.items; sessions = b.sessions.items }; orders = b.orders; last_id = b.last_id; last_stamp = b.last_stamp; applied = b.applied } };

    ghost invariant = { λ b. IsSound (record { roster = record { securities = b.securities.items; sessions = b.sessions.items }; orders = b.orders; last_id = b.last_id; last_stamp = b.last_stamp; applied = b.applied }) };
}

impl LinearBook {
    /// An empty book for the product, with room for all the orders that it may hold.
    ///
    /// An error comes only where memory is wanting.
    pub fn new(alloc: Global, product: &Product) -> Result<LinearBook, AllocError>
        ensures { IfOk result (λ book. book ≡ empty_book (roster_of product.now)) }
    {
        Ok(LinearBook {
            securities: product.securities().to_vec(alloc)?,
            sessions: product.sessions().to_vec(alloc)?,
            orders: Orders::new(alloc)?,
            last_id: 0,
            last_stamp: 0,
            applied: 0,
        })
    }

    /// The id of the last new order, or 0 where there was none.
    pub fn last_id(&self) -> OrderId
        ensures { result ≡ self.now.last_id }
    {
        OrderId(self.last_id)
    }

    /// Whether the book takes no further order of the security: it holds 20,000 orders, or 10,000 of the security.
    fn is_full(&self, security: SecurityId) -> bool
        ensures { result ≡ is_full self.now.orders security }
    {
        self.orders.len() >= MOST_ORDERS || self.orders.count_in(security) >= MOST_OF_SECURITY
    }

    /// The orders, in the order of the book.
    pub fn orders(&self) -> &[Order]
        ensures { result.now ≡ self.now.orders }
    {
        self.orders.all()
    }

    /// Carries out a command as `Book` does: the messages that it gives go behind `out`, and the notes for the owners of the orders
    /// behind `notes`.
    pub fn apply(
        &mut self,
        command: &Command,
        out: &mut Vec<Public>,
        notes: &mut Vec<Note>,
    ) -> Result<Done, BookRefusal>
        requires product { IsForProduct self.old.roster command.now }
        requires few { self.old.applied < 1_000_000 }
        ensures done { IfOk result (λ d. d ≡ done_of self.old command.now) }
        ensures book { OnOk result (self.new ≡ book_after self.old command.now) }
        ensures out { OnOk result (out.new.items ≡ out.old.items ++ messages (steps self.old command.now)) }
        ensures notes { OnOk result (notes.new.items ≡ notes.old.items ++ notes_of self.old command.now) }

        // The refusal has its cause, and comes where its cause is; beside it only memory can be wanting.
        ensures refused { MatchOption (refusal self.old command.now) (IfErr result (λ why. why ≡ BookRefusal.Memory)) (λ why. result ≡ Err why) }
        ensures same_product { self.new.roster ≡ self.old.roster }
        ensures one_more { self.new.applied ≤ self.old.applied + 1 }
        ensures same_book { OnErr result (self.new ≡ self.old) }
        ensures same_out { OnErr result (out.new.items ≡ out.old.items) }
        ensures same_notes { OnErr result (notes.new.items ≡ notes.old.items) }
    {
        match *command {
            Command::New {
                moment,
                session,
                security,
                side,
                price,
                qty,
                client,
            } => {
                let rest = Resting {
                    security,
                    side,
                    price,
                    stamp: self.next_stamp(moment),
                    qty,
                };
                self.enter(moment, session, &rest, client, out, notes)
            }
            Command::Modify {
                moment,
                session,
                order,
                price,
                qty,
                client,
            } => self.modify(moment, session, order, price, qty, client, out, notes),
            Command::Delete {
                moment,
                session,
                order,
                client,
            } => self.cancel(moment, session, order, client, out),
            Command::DeleteAll {
                moment,
                session,
                security,
            } => self.withdraw(moment, session, security, out),
            Command::Clear { moment, security } => self.clear(moment, security, out, notes),
        }
    }

    /// The new stamp of a command at this moment.
    fn next_stamp(&self, moment: Moment) -> Stamp
        requires { self.now.applied < 1_000_000 }
        ensures { result ≡ new_stamp self.now moment }
    {
        Stamp::new(moment.get().max(self.last_stamp + 1)).unwrap()
    }

    /// A New.
    fn enter(
        &mut self,
        moment: Moment,
        session: SessionId,
        rest: &Resting,
        client: u64,
        out: &mut Vec<Public>,
        notes: &mut Vec<Note>,
    ) -> Result<Done, BookRefusal>
        requires few { self.old.applied < 1_000_000 }
        requires stamp { rest.now.stamp ≡ new_stamp self.old moment }
        ensures { Applies self.old self.new (command.New moment session rest.now.security rest.now.side rest.now.price rest.now.qty client) out.old.items out.new.items notes.old.items notes.new.items result }
    {
        if self.is_full(rest.security) {
            return Err(BookRefusal::BookFull);
        }
        let order = Order {
            rest: *rest,
            total: rest.qty,
            executed: 0,
            owner: session,
            id: OrderId(self.last_id + 1),
        };
        match arrival::arrive(&self.securities, &mut self.orders, &order, out, notes) {
            Err(_) => return Err(BookRefusal::Memory),
            Ok(()) => {}
        }
        self.last_id += 1;
        self.last_stamp = rest.stamp.get();
        self.applied += 1;
        Ok(Done {
            order: order.id,
            stamp: rest.stamp,
            count: 0,
        })
    }

    /// A Modify that keeps the priority of y.
    fn resize(
        &mut self,
        moment: Moment,
        session: SessionId,
        y: &Order,
        id: OrderId,
        price: Price,
        qty: Qty,
        client: u64,
        out: &mut Vec<Public>,
    ) -> Result<Done, BookRefusal>
        requires few { self.old.applied < 1_000_000 }
        requires found { order_of self.old.orders session id ≡ Some y.now }
        requires above { executed_of y.now < qty }
        requires keeps { IsTrue (keeps_priority y.now price qty) }
        ensures { (told : List Note) → Applies self.old self.new (command.Modify moment session id price qty client) out.old.items out.new.items told told result }
    {
        let x = order::with_total(y, qty);
        let old = &y.rest;
        let new = &x.rest;
        let message = Public::SamePriority {
            security: old.security,
            side: old.side,
            stamp: old.stamp,
            price: old.price,
            prev_qty: old.qty,
            qty: new.qty,
        };
        match out.push(message) {
            Err(_) => return Err(BookRefusal::Memory),
            Ok(()) => {}
        }
        self.orders.renew(&x);
        self.applied += 1;
        Ok(Done {
            order: id,
            stamp: old.stamp,
            count: 0,
        })
    }

    /// A Modify that gives y a new stamp.
    fn requeue(
        &mut self,
        moment: Moment,
        session: SessionId,
        y: &Order,
        id: OrderId,
        price: Price,
        qty: Qty,
        client: u64,
        out: &mut Vec<Public>,
        notes: &mut Vec<Note>,
    ) -> Result<Done, BookRefusal>
        requires few { self.old.applied < 1_000_000 }
        requires found { order_of self.old.orders session id ≡ Some y.now }
        requires above { executed_of y.now < qty }
        requires moves { keeps_priority y.now price qty ≡ false }
        ensures { Applies self.old self.new (command.Modify moment session id price qty client) out.old.items out.new.items notes.old.items notes.new.items result }
    {
        let stamp = self.next_stamp(moment);
        let x = order::changed_order(y, price, qty, stamp);
        match arrival::change(&self.securities, &mut self.orders, y, &x, out, notes) {
            Err(_) => return Err(BookRefusal::Memory),
            Ok(()) => {}
        }
        self.last_stamp = stamp.get();
        self.applied += 1;
        Ok(Done {
            order: id,
            stamp,
            count: 0,
        })
    }

    /// A Modify.
    fn modify(
        &mut self,
        moment: Moment,
        session: SessionId,
        id: OrderId,
        price: Price,
        qty: Qty,
        client: u64,
        out: &mut Vec<Public>,
        notes: &mut Vec<Note>,
    ) -> Result<Done, BookRefusal>
        requires { self.old.applied < 1_000_000 }
        ensures { Applies self.old self.new (command.Modify moment session id price qty client) out.old.items out.new.items notes.old.items notes.new.items result }
    {
        let y = match self.orders.find(session, id) {
            None => return Err(BookRefusal::UnknownOrder),
            Some(found) => *found,
        };
        if qty.units() <= order::executed(&y) {
            return Err(BookRefusal::BelowExecuted);
        }
        if order::keeps_priority(&y, price, qty) {
            self.resize(moment, session, &y, id, price, qty, client, out)
        } else {
            self.requeue(moment, session, &y, id, price, qty, client, out, notes)
        }
    }

    /// A Delete.
    fn cancel(
        &mut self,
        moment: Moment,
        session: SessionId,
        id: OrderId,
        client: u64,
        out: &mut Vec<Public>,
    ) -> Result<Done, BookRefusal>
        requires { self.old.applied < 1_000_000 }
        ensures { Applies self.old self.new (command.Delete moment session id client) out.old.items out.new.items [] [] result }
    {
        let Some(found) = self.orders.find(session, id) else {
            return Err(BookRefusal::UnknownOrder);
        };
        let rest = found.rest;
        match out.push(Public::Delete { order: rest }) {
            Err(_) => return Err(BookRefusal::Memory),
            Ok(()) => {}
        }
        self.orders.remove(&rest);
        self.applied += 1;
        Ok(Done {
            order: id,
            stamp: rest.stamp,
            count: 0,
        })
    }

    /// A DeleteAll.
    fn withdraw(
        &mut self,
        moment: Moment,
        session: SessionId,
        security: SecurityId,
        out: &mut Vec<Public>,
    ) -> Result<Done, BookRefusal>
        requires { self.old.applied < 1_000_000 }
        ensures { Applies self.old self.new (command.DeleteAll moment session security) out.old.items out.new.items [] [] result }
    {
        let Ok(gone) = self.orders.orders_of(session, security) else {
            return Err(BookRefusal::Memory);
        };
        match removal::append_deletions(self.orders.alloc(), &gone, out) {
            Err(_) => return Err(BookRefusal::Memory),
            Ok(()) => {}
        }
        removal::remove_all(&mut self.orders, &gone);
        self.applied += 1;
        Ok(Done {
            order: OrderId(0),
            stamp: first_stamp(),
            count: gone.len() as u16,
        })
    }

    /// A Clear.
    fn clear(
        &mut self,
        moment: Moment,
        security: SecurityId,
        out: &mut Vec<Public>,
        notes: &mut Vec<Note>,
    ) -> Result<Done, BookRefusal>
        requires { self.old.applied < 1_000_000 }
        ensures { Applies self.old self.new (command.Clear moment security) out.old.items out.new.items notes.old.items notes.new.items result }
    {
        let Ok(told) = removal::cleared(&self.sessions, security, &self.orders) else {
            return Err(BookRefusal::Memory);
        };
        match commit(out, notes, &[Public::MassDelete { security }], &told) {
            Err(_) => return Err(BookRefusal::Memory),
            Ok(()) => {}
        }
        let count = self.orders.count_in(security) as u16;
        self.orders.remove_security(security);
        self.applied += 1;
        Ok(Done {
            order: OrderId(0),
            stamp: first_stamp(),
            count,
        })
    }
}

/// The stamp 1.
fn first_stamp() -> Stamp
    ensures { result ≡ 1 }
{
    Stamp::new(1).unwrap()
}
