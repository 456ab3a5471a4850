//! The messages of a command to both forms of the member's book.

use crate::part::Part;
use std::alloc::{AllocError, Global};
use t7_base::{Product, Public};
use t7_book::Book;
use t7_linear::LinearMarketBook;
use t7_mbook::MarketBook;

/// The two forms of the member's book.
#[derive(Drop)]
pub(crate) struct Members {
    market: MarketBook,
    linear: LinearMarketBook,
}

/// Whether a message that was carried out doesn't fit a second time.
fn fits_once(message: &Public) -> bool {
    match message {
        Public::Add { .. } | Public::Delete { .. } | Public::Full { .. } => true,
        _ => false,
    }
}

impl Members {
    /// Two empty books.
    pub(crate) fn new(alloc: Global, product: &Product) -> Result<Members, AllocError> {
        Ok(Members {
            linear: LinearMarketBook::new(alloc, product)?,
            market: MarketBook::new(alloc, product)?,
        })
    }

    /// Whether both answer a message in the same way.
    fn answer_alike(&mut self, message: &Public) -> bool {
        self.market.apply(message) == self.linear.apply(message)
    }

    /// Gives the messages to both books, and those that fit once a second time; answers whether both answered in the same way.
    fn tell_all(&mut self, messages: &[Public]) -> bool {
        for message in messages {
            if !self.answer_alike(message) || fits_once(message) && !self.answer_alike(message) {
                return false;
            }
        }
        true
    }

    /// Gives the messages to both books.
    pub(crate) fn tell(&mut self, messages: &[Public]) -> Result<(), Part> {
        if self.tell_all(messages) {
            Ok(())
        } else {
            Err(Part::Misfit)
        }
    }

    /// Compares the orders of both books, and those that the exchange's book shows.
    pub(crate) fn compare(&self, book: &Book) -> Result<(), Part> {
        if !walks_agree(&self.market, &self.linear) {
            return Err(Part::MarketWalk);
        }
        if !shows(&self.market, book) {
            return Err(Part::Shown);
        }
        Ok(())
    }
}

/// Whether the two walks give the same orders.
fn walks_agree(market: &MarketBook, linear: &LinearMarketBook) -> bool {
    let others = linear.orders();
    let mut place = 0usize;
    for order in market.walk() {
        if others.get(place) != Some(&order) {
            return false;
        }
        place = place.wrapping_add(1);
    }
    place == others.len()
}

/// Whether the member's book shows the orders of the exchange's.
fn shows(market: &MarketBook, book: &Book) -> bool {
    for (shown, order) in market.walk().zip(book.walk()) {
        if shown != order.rest {
            return false;
        }
    }
    market.len() == book.len()
}
