//! The member's book over a vector.

ghost use Rattle.std.specs.Prelude.{◌≡◌, [], IfOk, OnOk, OnErr, MatchOption, IsOk};
ghost use Rattle.t7_mbook.specs.Changes.{after};
ghost use Rattle.t7_mbook.specs.Misfits.{misfit_of};

use crate::shown::Shown;
use crate::{change, fitting};
use std::alloc::{AllocError, Global};
use std::marker::Model;
use t7_base::{Product, Public, Resting, SecurityId};
use t7_mbook::Misfit;

/// The book that a member rebuilds from the messages of the market data feed (EOBI) with its orders in one vector, in the order of the
/// book: each message looks at all of them. It has no second book.
///
/// Contracts see it as they see `MarketBook`, as `MarketState`, with nothing staged.
#[derive(Debug, Drop)]
pub struct LinearMarketBook {
    securities: Vec<SecurityId>,
    orders: Shown,
}

impl Model for LinearMarketBook {
    ghost use Rattle.std.specs.Prelude.{[]};
    ghost use Rattle.t7_mbook.specs.State.{MarketState};

    ghost Value = { MarketState };

    ghost view = { λ b. record { securities = b.securities.items; orders = b.orders; staged = [] } };
}

impl LinearMarketBook {
    /// An empty book for the product, with room for all that it may hold.
    ///
    /// An error comes only where memory is wanting.
    pub fn new(alloc: Global, product: &Product) -> Result<LinearMarketBook, AllocError>
        ensures { IfOk result (λ book. book ≡ record { securities = product.now.securities; orders = []; staged = [] }) }
    {
        Ok(LinearMarketBook {
            securities: product.securities().to_vec(alloc)?,
            orders: Shown::new(alloc)?,
        })
    }

    /// The orders, in the order of the book.
    pub fn orders(&self) -> &[Resting]
        ensures { result.now ≡ self.now.orders }
    {
        self.orders.all()
    }

    /// Carries out a message of the feed, exactly where it fits the book; else answers the first test that it fails, with the
    /// kept and the said value, and leaves the book as before.
    pub fn apply(&mut self, message: &Public) -> Result<(), Misfit>
        ensures misfit { MatchOption (misfit_of self.old.securities self.old.orders message.now) (IsOk result) (λ why. result ≡ Err why) }
        ensures ok { OnOk result (self.new ≡ record self.old { orders = after self.old.securities self.old.orders message.now }) }
        ensures err { OnErr result (self.new ≡ self.old) }
    {
        match fitting::misfit_of(&self.securities, &self.orders, message) {
            Some(why) => Err(why),
            None => {
                change::carry_out(&self.securities, &mut self.orders, message);
                Ok(())
            }
        }
    }
}
