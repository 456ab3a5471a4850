//! Which orders cross, and the names of orders on the feed.

ghost use Rattle.std.specs.Prelude.{◌≡◌};
ghost use Rattle.t7_book.specs.Orders.{has_name, same_name};
ghost use Rattle.t7_book.specs.Trades.{price_crosses, crosses};

use t7_base::{Price, Resting, SecurityId, Side, Stamp};

fn price_crosses(side: Side, resting_side: Side, own: Price, theirs: Price) -> bool
    ensures { result ≡ price_crosses side resting_side own theirs }
{
    match (side, resting_side) {
        (Side::Buy, Side::Sell) => theirs.get() <= own.get(),
        (Side::Sell, Side::Buy) => own.get() <= theirs.get(),
        _ => false,
    }
}

/// Whether the incoming order x crosses the resting order y.
pub(crate) fn crosses(x: &Resting, y: &Resting) -> bool
    ensures { result ≡ crosses x.now y.now }
{
    x.security == y.security && price_crosses(x.side, y.side, x.price, y.price)
}

/// Whether an order has this name on the feed: security, side and stamp.
pub fn has_name(security: SecurityId, side: Side, stamp: Stamp, y: &Resting) -> bool
    ensures { result ≡ has_name security side stamp y.now }
{
    y.security == security && y.side == side && y.stamp == stamp
}

/// Whether two orders have one name on the feed: security, side and stamp.
pub fn same_name(x: &Resting, y: &Resting) -> bool
    ensures { result ≡ same_name x.now y.now }
{
    y.security == x.security && y.side == x.side && y.stamp == x.stamp
}
