//! The book of one product.

ghost use Rattle.std.specs.Prelude.{◌≡◌, ◌≤◌, ◌<◌, ◌+◌, ◌++◌, ◌↔◌, IfOk, OnOk, OnErr, IsTrue, MatchOption, IfErr, [], length};
ghost use Rattle.std.specs.List.{find};
ghost use Rattle.std.specs.Option.{option_copied};
ghost use Rattle.t7_book.specs.Orders.{empty_book, roster_of, order_of};
ghost use Rattle.t7_book.specs.Commands.{IsForProduct, refusal, is_full};
ghost use Rattle.t7_book.specs.Kept.{is_on};
ghost use Rattle.t7_book.specs.Laws.{Each, IsBook};
ghost use Rattle.t7_book.specs.Sound.{IsEarlier};
ghost use Rattle.t7_book.specs.Steps.{done_of, book_after, messages, steps, notes_of};
ghost use Rattle.t7_book.specs.Walk.{walk_rest};

use crate::ledger::Ledger;
use crate::{BookRefusal, BookWalk, Command, Done, Note, Order};
use std::alloc::{AllocError, Global};
use std::marker::Model;
use t7_base::{OrderId, Product, Public, SecurityId, SessionId, Side};

/// The order book of one product: the resting orders of its securities in price-time priority, at most 20,000 in all and
/// 10,000 of one security.
///
/// Contracts see it as `BookState`: the product's securities and sessions, the list of orders in the order of the book (the securities as
/// in the product file, in each the buys and then the sells, each side by better price and then by earlier stamp), the last
/// id and the last stamp (both 0 in the beginning), and the number of commands that were applied.
#[derive(Drop)]
pub struct Book {
    ledger: Ledger,
}

impl Model for Book {
    ghost use Rattle.t7_book.specs.Orders.{BookState};
    ghost use Rattle.t7_book.specs.Sound.{IsRunning};

    ghost Value = { BookState };

    ghost view = { λ b. b.ledger };

    ghost invariant = { λ b. IsRunning b.ledger };
}

impl Book {
    /// An empty book for the product, with room for all the orders that it may hold.
    ///
    /// An error comes only where memory is wanting.
    pub fn new(alloc: Global, product: &Product) -> Result<Book, AllocError>
        ensures { IfOk result (λ book. book ≡ empty_book (roster_of product.now)) }
    {
        let securities = product.securities().to_vec(alloc)?;
        let sessions = product.sessions().to_vec(alloc)?;
        Ok(Book {
            ledger: Ledger::new(alloc, securities, sessions)?,
        })
    }

    /// What always holds of a book: its orders stand in the order of the book, each once and under an id of its own, at most
    /// 20,000 in all and 10,000 of one security, and what is left of an order is its total less what was executed. The stamp
    /// and the id of an order are at most the last ones, and its security is the product's.
    pub fn is_sound(&self)
        ensures list { IsBook self.now.roster.securities self.now.orders }
        ensures earlier { Each (IsEarlier self.now) self.now.orders }
    {
        let _ledger = &self.ledger;
    }

    /// How many orders rest, at most 20,000.
    pub fn len(&self) -> usize
        ensures value { result ≡ length self.now.orders }
        ensures within { result ≤ 20_000 }
    {
        self.ledger.orders().len()
    }

    /// Whether no order rests.
    pub fn is_empty(&self) -> bool
        ensures { IsTrue result ↔ (self.now.orders ≡ []) }
    {
        self.ledger.orders().len() == 0
    }

    /// The id of the last new order, or 0 where there was none.
    pub fn last_id(&self) -> OrderId
        ensures { result ≡ self.now.last_id }
    {
        self.ledger.last_id()
    }

    /// Whether the book takes no further order of the security: it holds 20,000 orders, or 10,000 of the security.
    pub fn is_full(&self, security: SecurityId) -> bool
        ensures { result ≡ is_full self.now.orders security }
    {
        self.ledger.is_full(security)
    }

    /// The resting order with this id and this owner. None exactly where no resting order has that id and that owner.
    pub fn find(&self, session: SessionId, id: OrderId) -> Option<&Order>
        ensures { option_copied result ≡ order_of self.now.orders session id }
    {
        self.ledger.orders().find(session, id)
    }

    /// The first order of that side of that security in the order of the book: the best price's earliest. None exactly where
    /// there is none.
    pub fn first(&self, security: SecurityId, side: Side) -> Option<&Order>
        ensures { option_copied result ≡ find (is_on security side) self.now.orders }
    {
        self.ledger.orders().first(security, side)
    }

    /// The orders, in the order of the book.
    pub fn walk(&self) -> BookWalk<'_>
        ensures { walk_rest result ≡ self.now.orders }
    {
        self.ledger.orders().walk()
    }

    /// Carries out a command, which stands for an ETI order request or for the exchange's own Clear: the EOBI messages that
    /// it gives go behind `out`, and the notes for the owners of the orders behind `notes`.
    ///
    /// The security and the session of the command, where it has them, are the product's (`Command::is_for` tells), and
    /// fewer than 1,000,000 commands were applied.
    ///
    /// A New is refused as `BookFull` exactly where the book is full for its security. A Modify is refused as `UnknownOrder`
    /// exactly where the book finds no order with its id and session, and as `BelowExecuted` exactly where it finds one and
    /// the new total isn't above what was executed. A Delete is refused as `UnknownOrder` exactly where the book finds no
    /// such order. A DeleteAll and a Clear are never refused. `Memory` comes only where no refusal does. Each of these
    /// leaves the book, the messages and the notes as before.
    pub fn apply(
        &mut self,
        command: &Command,
        out: &mut Vec<Public>,
        notes: &mut Vec<Note>,
    ) -> Result<Done, BookRefusal>
        requires product { IsForProduct self.old.roster command.now }
        requires few { self.old.applied < 1_000_000 }
        ensures done { IfOk result (λ d. d ≡ done_of self.old command.now) }
        ensures book { OnOk result (self.new ≡ book_after self.old command.now) }
        ensures out { OnOk result (out.new.items ≡ out.old.items ++ messages (steps self.old command.now)) }
        ensures notes { OnOk result (notes.new.items ≡ notes.old.items ++ notes_of self.old command.now) }

        // The refusal has its cause, and comes where its cause is; beside it only memory can be wanting.
        ensures refused { MatchOption (refusal self.old command.now) (IfErr result (λ why. why ≡ BookRefusal.Memory)) (λ why. result ≡ Err why) }
        ensures same_product { self.new.roster ≡ self.old.roster }
        ensures one_more { self.new.applied ≤ self.old.applied + 1 }
        ensures same_book { OnErr result (self.new ≡ self.old) }
        ensures same_out { OnErr result (out.new.items ≡ out.old.items) }
        ensures same_notes { OnErr result (notes.new.items ≡ notes.old.items) }
    {
        self.ledger.apply(command, out, notes)
    }
}
