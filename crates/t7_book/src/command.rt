//! Commands, and what they give beside the messages.

ghost use Rattle.std.specs.Prelude.{◌↔◌, IsTrue};

use t7_base::{Moment, OrderId, Price, Product, Qty, SecurityId, SessionId, Side, Stamp};

/// A command to the book. The first four stand for the order requests of the order entry interface, made by a session
/// at a moment; `client` is the number by which the client names its request (ClOrdID), which the book doesn't look at.
#[derive(Clone, Copy, Debug, PartialEq, Eq)]
pub enum Command {
    /// A new order (NewOrderSingleRequest).
    New {
        moment: Moment,
        session: SessionId,
        security: SecurityId,
        side: Side,
        price: Price,
        qty: Qty,
        client: u64,
    },
    /// A new price and a new total for an order of the session (ModifyOrderSingleRequest).
    Modify {
        moment: Moment,
        session: SessionId,
        order: OrderId,
        price: Price,
        qty: Qty,
        client: u64,
    },
    /// An order of the session is deleted (DeleteOrderSingleRequest).
    Delete {
        moment: Moment,
        session: SessionId,
        order: OrderId,
        client: u64,
    },
    /// All orders of the session in a security are deleted (DeleteAllOrderRequest).
    DeleteAll {
        moment: Moment,
        session: SessionId,
        security: SecurityId,
    },
    /// The exchange deletes all orders of a security.
    Clear {
        moment: Moment,
        security: SecurityId,
    },
}

impl Command {
    ghost use Rattle.t7_book.specs.Commands.{IsForProduct};
    ghost use Rattle.t7_book.specs.Orders.{roster_of};

    /// Whether the security and the session of the command, where it has them, are the product's.
    pub fn is_for(&self, product: &Product) -> bool
        ensures { IsTrue result ↔ IsForProduct (roster_of product.now) self.now }
    {
        match *self {
            Command::New {
                session,
                security,
                ..
            } => product.sessions().contains(&session) && product.securities().contains(&security),
            Command::Modify { session, .. } => product.sessions().contains(&session),
            Command::Delete { session, .. } => product.sessions().contains(&session),
            Command::DeleteAll {
                session,
                security,
                ..
            } => product.sessions().contains(&session) && product.securities().contains(&security),
            Command::Clear { security, .. } => product.securities().contains(&security),
        }
    }
}

/// What the owner of an order is told of a command that another gave.
#[derive(Clone, Copy, Debug, PartialEq, Eq)]
pub enum Note {
    /// A trade (OrderExecNotification): the resting order, its owner and its side; of it and of the incoming order what is
    /// left and what was executed in all, directly after this trade; the traded quantity, and the resting order's price.
    Fill {
        maker: OrderId,
        maker_owner: SessionId,
        maker_side: Side,
        maker_leaves: i64,
        maker_cum: i64,
        taker_leaves: i64,
        taker_cum: i64,
        qty: Qty,
        price: Price,
    },
    /// So many orders of the session, 1 to 10,000, went when a security was cleared.
    Cleared {
        session: SessionId,
        count: u16,
    },
}

/// The answer to a command. After a New, a Modify and a Delete: the order, and its stamp after the command (for a Delete
/// before it), with a count of 0. After a DeleteAll and a Clear: how many orders it removed, with order 0 and stamp 1.
#[derive(Clone, Copy, Debug, PartialEq, Eq)]
pub struct Done {
    pub order: OrderId,
    pub stamp: Stamp,
    pub count: u16,
}

/// Why a command was refused. Each refusal leaves everything as before.
#[derive(Clone, Copy, Debug, PartialEq, Eq)]
pub enum BookRefusal {
    /// No resting order has this id and this owner.
    UnknownOrder,
    /// The new total isn't above what was executed of the order.
    BelowExecuted,
    /// The book holds 20,000 orders, or 10,000 of the security.
    BookFull,
    /// Memory is wanting.
    Memory,
}
