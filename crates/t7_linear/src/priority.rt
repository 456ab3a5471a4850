//! The order of the book, and which orders cross.

ghost use Rattle.std.specs.Prelude.{◌≡◌};
ghost use Rattle.std.specs.Ordering.{int_eq};
ghost use Rattle.t7_book.specs.Orders.{rank_of, is_better, is_before, by_side, goes_before, is_side};
ghost use Rattle.t7_book.specs.Trades.{price_crosses, crosses};

use t7_base::{Price, Resting, SecurityId, Side};

/// Where a security stands in the product file.
pub(crate) fn rank_of(securities: &[SecurityId], security: SecurityId) -> usize
    ensures { result ≡ rank_of securities.now security }
{
    for (i, listed) in securities.iter().enumerate() {
        if *listed == security {
            return i;
        }
    }
    securities.len()
}

fn is_better(side: Side, first: Price, second: Price) -> bool
    ensures { result ≡ is_better side first second }
{
    match side {
        Side::Buy => first.get() > second.get(),
        Side::Sell => first.get() < second.get(),
    }
}

fn is_before(x: &Resting, y: &Resting) -> bool
    ensures { result ≡ is_before x.now y.now }
{
    if x.price == y.price {
        x.stamp.get() < y.stamp.get()
    } else {
        is_better(x.side, x.price, y.price)
    }
}

/// Whether x stands before y in the book.
pub(crate) fn goes_before(securities: &[SecurityId], x: &Resting, y: &Resting) -> bool
    ensures { result ≡ goes_before securities.now x.now y.now }
{
    if x.security != y.security {
        let i = rank_of(securities, x.security);
        let j = rank_of(securities, y.security);
        if i != j {
            return i < j;
        }
    }
    match (x.side, y.side) {
        (Side::Buy, Side::Sell) => true,
        (Side::Sell, Side::Buy) => false,
        _ => is_before(x, y),
    }
}

fn price_crosses(side: Side, resting_side: Side, own: Price, theirs: Price) -> bool
    ensures { result ≡ price_crosses side resting_side own theirs }
{
    match (side, resting_side) {
        (Side::Buy, Side::Sell) => theirs.get() <= own.get(),
        (Side::Sell, Side::Buy) => own.get() <= theirs.get(),
        _ => false,
    }
}

/// Whether the incoming order x crosses the resting order y.
pub(crate) fn crosses(x: &Resting, y: &Resting) -> bool
    ensures { result ≡ crosses x.now y.now }
{
    x.security == y.security && price_crosses(x.side, y.side, x.price, y.price)
}
