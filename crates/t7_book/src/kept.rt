//! Orders as they are kept on their levels.

ghost use Rattle.std.specs.Prelude.{◌≡◌};
ghost use Rattle.t7_book.specs.Numbers.{rank_of_price};

use crate::Order;
use t7_base::Side;
use t7_levels::{Called, Ranked};
use t7_lists::Stamped;

/// An order with the number of its side. Its name is its id.
#[derive(Clone, Copy, Debug, PartialEq, Eq)]
pub(crate) struct Kept {
    pub(crate) number: usize,
    pub(crate) order: Order,
}

impl Stamped for Kept {
    ghost stamped = { λ k. k.order.rest.stamp };

    fn stamp(&self) -> u64 {
        self.order.rest.stamp.get()
    }
}

impl Ranked for Kept {
    ghost number_of = { λ k. k.number };

    ghost rank_of = { λ k. rank_of_price k.order.rest.side k.order.rest.price };

    fn number(&self) -> usize {
        self.number
    }

    fn rank(&self) -> i64 {
        let price = self.order.rest.price.get();
        match self.order.rest.side {
            Side::Buy => -price,
            Side::Sell => price,
        }
    }
}

impl Called<u64> for Kept {
    ghost name_of = { λ k. k.order.id };

    fn name(&self) -> u64 {
        self.order.id.0
    }
}
