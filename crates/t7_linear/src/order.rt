//! A resting order after a trade or a modification.

ghost use Rattle.std.specs.Prelude.{◌≡◌, ◌<◌, ◌-◌};
ghost use Rattle.t7_book.specs.Orders.{with_left, renewed_order};
ghost use Rattle.t7_book.specs.Commands.{with_total, changed_order, keeps_priority, executed_of};

use t7_base::{Price, Qty, Resting, Stamp};
use t7_book::Order;
use t7_book::priority::same_name;

/// The order of which this much is left.
pub(crate) fn with_left(y: &Order, left: Qty) -> Order
    ensures { result ≡ with_left y.now left }
{
    Order {
        rest: Resting {
            qty: left,
            ..y.rest
        },
        executed: y.total.get() - left.get(),
        ..*y
    }
}

/// What was executed of an order.
pub(crate) fn executed(y: &Order) -> u64
    ensures { result ≡ executed_of y.now }
{
    y.total.units().saturating_sub(y.rest.qty.units())
}

/// The order y with a new total, above what was executed of it.
pub(crate) fn with_total(y: &Order, qty: Qty) -> Order
    requires { executed_of y.now < qty }
    ensures { result ≡ with_total y.now qty }
{
    Order {
        rest: Resting {
            qty: Qty::new((qty.units() - executed(y)) as i64).unwrap(),
            ..y.rest
        },
        total: qty,
        ..*y
    }
}

/// The order y with a new price, a new total above what was executed of it, and a new stamp.
pub(crate) fn changed_order(y: &Order, price: Price, qty: Qty, stamp: Stamp) -> Order
    requires { executed_of y.now < qty }
    ensures { result ≡ changed_order y.now price qty stamp }
{
    let x = with_total(y, qty);
    Order {
        rest: Resting {
            price,
            stamp,
            ..x.rest
        },
        ..x
    }
}

/// Whether a modification keeps the priority: the price stays, and the total isn't higher.
pub(crate) fn keeps_priority(y: &Order, price: Price, qty: Qty) -> bool
    ensures { result ≡ keeps_priority y.now price qty }
{
    y.rest.price == price && qty.units() <= y.total.units()
}

/// x where y has its name, else y.
pub(crate) fn renewed_order(x: &Order, y: &Order) -> Order
    ensures { result ≡ renewed_order x.now y.now }
{
    if same_name(&x.rest, &y.rest) { *x } else { *y }
}
