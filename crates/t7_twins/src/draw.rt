//! Drawn commands.

ghost use Rattle.std.specs.Prelude.{◌<◌};

use t7_base::{Moment, OrderId, Price, Qty, SecurityId, SessionId, Side};
use t7_book::{Book, Command};

/// Three securities and two sessions.
pub(crate) const PRODUCT: &[u8] =
    b"product,7\nwindow,4\npackets,8\ndatagram,1472\nsecurity,1001,1\nsecurity,1002,1\nsecurity,1003,1\nsession,21\nsession,22\n";

/// A generator of numbers, always the same for one seed.
#[derive(Drop)]
pub(crate) struct Draw(u64);

impl Draw {
    pub(crate) fn new(seed: u64) -> Draw {
        Draw(seed)
    }

    /// A number below the bound.
    fn below(&mut self, bound: u64) -> u64
        requires { 0 < bound }
        ensures { result < bound }
    {
        self.0 = self
            .0
            .wrapping_mul(3_202_034_522_624_059_733)
            .wrapping_add(4_354_685_564_936_845_355);
        (self.0 >> 29) % bound
    }

    fn session(&mut self) -> SessionId {
        SessionId(if self.below(2) == 0 { 21 } else { 22 })
    }

    fn security(&mut self) -> SecurityId {
        SecurityId(match self.below(4) {
            0 => 1002,
            1 => 1003,
            _ => 1001,
        })
    }

    fn side(&mut self) -> Side {
        if self.below(2) == 0 {
            Side::Buy
        } else {
            Side::Sell
        }
    }

    /// One of a few prices, at which orders stand behind one another and trade, or one of many, at which they rest.
    fn price(&mut self, side: Side) -> Option<Price> {
        let few = self.below(2) == 0;
        let step = self.below(11) as i64;
        let far = self.below(2_000) as i64;
        Price::new(match side {
            Side::Buy if !few => 94 - far,
            Side::Sell if !few => 106 + far,
            _ => 95 + step,
        })
    }

    /// The id of one of the orders up to this one, half of the time of one of the last hundred.
    fn order(&mut self, last: OrderId) -> OrderId {
        let most = last.0.min(1_000_000) + 1;
        let recent = self.below(100).min(most);
        if self.below(2) == 0 {
            OrderId(most - recent)
        } else {
            OrderId(self.below(most))
        }
    }

    /// A modification, half of the time at the price that the order has.
    fn modification(&mut self, book: &Book, client: u64) -> Option<Command> {
        let session = self.session();
        let order = self.order(book.last_id());
        let side = self.side();
        let drawn = self.price(side)?;
        let price = match book.find(session, order) {
            Some(kept) if self.below(2) == 0 => kept.rest.price,
            _ => drawn,
        };
        Some(Command::Modify {
            moment: Moment::new(self.below(1_500))?,
            session,
            order,
            price,
            qty: Qty::new(1 + self.below(40) as i64)?,
            client,
        })
    }

    /// A new order, at a moment that is often behind the last stamp.
    fn entry(&mut self, client: u64) -> Option<Command> {
        let side = self.side();
        Some(Command::New {
            moment: Moment::new(self.below(1_500))?,
            session: self.session(),
            security: self.security(),
            side,
            price: self.price(side)?,
            qty: Qty::new(1 + self.below(40) as i64)?,
            client,
        })
    }

    /// The next command to the book: of a thousand some 600 orders, 200 modifications, 194 deletions, 4 of all orders of a session in a
    /// security, and 2 of all orders of a security.
    pub(crate) fn command(&mut self, book: &Book, client: u64) -> Option<Command> {
        let moment = Moment::new(self.below(1_500))?;
        match self.below(1_000) {
            0..=599 => self.entry(client),
            600..=799 => self.modification(book, client),
            800..=993 => Some(Command::Delete {
                moment,
                session: self.session(),
                order: self.order(book.last_id()),
                client,
            }),
            994..=997 => Some(Command::DeleteAll {
                moment,
                session: self.session(),
                security: self.security(),
            }),
            _ => Some(Command::Clear {
                moment,
                security: self.security(),
            }),
        }
    }
}
