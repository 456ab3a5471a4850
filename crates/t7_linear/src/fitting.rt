//! The tests of a message against the orders.

ghost use Rattle.std.specs.Prelude.{◌≡◌, ◌==◌, nat_lt, if◌then◌else◌};
ghost use Rattle.t7_mbook.specs.Misfits.{is_listed, security_test, kept_test, present_test, full_test, and_then, misfit_of};

use crate::shown::Shown;
use t7_base::{Price, Public, Qty, Resting, SecurityId, Side, Stamp};
use t7_book::MOST_ORDERS;
use t7_mbook::Misfit;

/// Whether the security is the product's.
fn is_listed(securities: &[SecurityId], security: SecurityId) -> bool
    ensures { result ≡ is_listed securities.now security }
{
    for listed in securities {
        if *listed == security {
            return true;
        }
    }
    false
}

/// The security is the product's.
fn security_test(securities: &[SecurityId], security: SecurityId) -> Option<Misfit>
    ensures { result ≡ security_test securities.now security }
{
    if is_listed(securities, security) {
        None
    } else {
        Some(Misfit::Security)
    }
}

/// The kept order has this price and this quantity.
fn exact_test(found: Option<Resting>, price: Price, said: Qty) -> Option<Misfit>
    ensures { result ≡ kept_test found price (λ kept. kept == said) said }
{
    let Some(kept) = found else {
        return Some(Misfit::Absent);
    };
    if kept.price != price {
        return Some(Misfit::Price {
            kept: kept.price,
            said: price,
        });
    }
    if kept.qty == said {
        None
    } else {
        Some(Misfit::Quantity {
            kept: kept.qty,
            said,
        })
    }
}

/// The kept order has this price, and more than this quantity.
fn above_test(found: Option<Resting>, price: Price, said: Qty) -> Option<Misfit>
    ensures { result ≡ kept_test found price (λ kept. nat_lt said kept) said }
{
    let Some(kept) = found else {
        return Some(Misfit::Absent);
    };
    if kept.price != price {
        return Some(Misfit::Price {
            kept: kept.price,
            said: price,
        });
    }
    if said.units() < kept.qty.units() {
        None
    } else {
        Some(Misfit::Quantity {
            kept: kept.qty,
            said,
        })
    }
}

/// No order has the name.
fn present_test(orders: &Shown, security: SecurityId, side: Side, stamp: Stamp) -> Option<Misfit>
    ensures { result ≡ present_test security side stamp orders.now }
{
    if orders.named(security, side, stamp).is_some() {
        Some(Misfit::Present)
    } else {
        None
    }
}

/// No other order has the new name.
fn renamed_test(
    orders: &Shown,
    security: SecurityId,
    side: Side,
    prev_stamp: Stamp,
    stamp: Stamp,
) -> Option<Misfit>
    ensures { result ≡ (if stamp == prev_stamp then None else present_test security side stamp orders.now) }
{
    if stamp == prev_stamp {
        None
    } else {
        present_test(orders, security, side, stamp)
    }
}

/// There is room for one order more.
fn full_test(orders: &Shown) -> Option<Misfit>
    ensures { result ≡ full_test orders.now }
{
    if orders.len() >= MOST_ORDERS {
        Some(Misfit::Full)
    } else {
        None
    }
}

/// The first of two tests that fails.
fn and_then(first: Option<Misfit>, next: Option<Misfit>) -> Option<Misfit>
    ensures { result ≡ and_then first next }
{
    match first {
        None => next,
        Some(why) => Some(why),
    }
}

/// The first test that fails, if one does.
pub(crate) fn misfit_of(
    securities: &[SecurityId],
    orders: &Shown,
    message: &Public,
) -> Option<Misfit>
    ensures { result ≡ misfit_of securities.now orders.now message.now }
{
    match *message {
        Public::Add { order } => and_then(
            security_test(securities, order.security),
            and_then(
                present_test(orders, order.security, order.side, order.stamp),
                full_test(orders),
            ),
        ),
        Public::Modify {
            security,
            side,
            prev_stamp,
            prev_price,
            prev_qty,
            stamp,
            ..
        } => {
            let present = renamed_test(orders, security, side, prev_stamp, stamp);
            let found = orders.named(security, side, prev_stamp);
            and_then(
                security_test(securities, security),
                and_then(exact_test(found, prev_price, prev_qty), present),
            )
        }
        Public::SamePriority {
            security,
            side,
            stamp,
            price,
            prev_qty,
            ..
        } => and_then(
            security_test(securities, security),
            exact_test(orders.named(security, side, stamp), price, prev_qty),
        ),
        Public::Delete { order } => and_then(
            security_test(securities, order.security),
            exact_test(
                orders.named(order.security, order.side, order.stamp),
                order.price,
                order.qty,
            ),
        ),
        Public::MassDelete { security } => security_test(securities, security),
        Public::Partial {
            security,
            side,
            stamp,
            price,
            last_qty,
            ..
        } => and_then(
            security_test(securities, security),
            above_test(orders.named(security, side, stamp), price, last_qty),
        ),
        Public::Full {
            security,
            side,
            stamp,
            price,
            last_qty,
            ..
        } => and_then(
            security_test(securities, security),
            exact_test(orders.named(security, side, stamp), price, last_qty),
        ),
        Public::Summary { security, .. } => security_test(securities, security),
        Public::Other => None,
    }
}
