//! A resting order with what the exchange knows of it.

ghost use Rattle.std.specs.Prelude.{◌≡◌, ◌<◌, ◌-◌};
ghost use Rattle.t7_book.specs.Orders.{with_left};
ghost use Rattle.t7_book.specs.Commands.{with_total, changed_order, keeps_priority, executed_of};

use t7_base::{OrderId, Price, Qty, Resting, SessionId, Stamp};

/// A resting order of the exchange's book: as the feed shows it, its total (the OrderQty of its owner), what was
/// executed of it in all, the session that owns it, and its number.
///
/// The quantity in `rest` is the total less what was executed, and is at least 1.
#[derive(Clone, Copy, Debug, PartialEq, Eq)]
pub struct Order {
    /// The order as the feed shows it.
    pub rest: Resting,
    /// The quantity that its owner asked for, executed or not.
    pub total: Qty,
    /// What was executed of it in all, from 0 on and below the total.
    pub executed: i64,
    /// The session that entered it.
    pub owner: SessionId,
    /// Its number, from 1 on, which it keeps through every modification.
    pub id: OrderId,
}

/// The order of which this much is left.
pub(crate) fn with_left(y: &Order, left: Qty) -> Order
    ensures { result ≡ with_left y.now left }
{
    Order {
        rest: Resting {
            qty: left,
            ..y.rest
        },
        executed: y.total.get() - left.get(),
        ..*y
    }
}

/// What was executed of an order.
pub(crate) fn executed(y: &Order) -> u64
    ensures { result ≡ executed_of y.now }
{
    y.total.units().saturating_sub(y.rest.qty.units())
}

/// The order y with a new total, above what was executed of it.
pub(crate) fn with_total(y: &Order, qty: Qty) -> Order
    requires { executed_of y.now < qty }
    ensures { result ≡ with_total y.now qty }
{
    Order {
        rest: Resting {
            qty: Qty::new((qty.units() - executed(y)) as i64).unwrap(),
            ..y.rest
        },
        total: qty,
        ..*y
    }
}

/// The order y with a new price, a new total above what was executed of it, and a new stamp.
pub(crate) fn changed_order(y: &Order, price: Price, qty: Qty, stamp: Stamp) -> Order
    requires { executed_of y.now < qty }
    ensures { result ≡ changed_order y.now price qty stamp }
{
    let x = with_total(y, qty);
    Order {
        rest: Resting {
            price,
            stamp,
            ..x.rest
        },
        ..x
    }
}

/// Whether a modification keeps the priority: the price stays, and the total isn't higher.
pub(crate) fn keeps_priority(y: &Order, price: Price, qty: Qty) -> bool
    ensures { result ≡ keeps_priority y.now price qty }
{
    y.rest.price == price && qty.units() <= y.total.units()
}
