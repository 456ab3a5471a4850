//! What an incoming order trades.

ghost use Rattle.std.specs.Prelude.{◌≡◌, ◌<◌, ◌≤◌, ◌++◌, IfOk, OnOk, map, length};
ghost use Rattle.t7_book.specs.Trades.{traded, last_price, is_used_up, after_trade, after_trades, execution, fill, fills};

use crate::order;
use crate::orders::Orders;
use std::alloc::{AllocError, Global};
use t7_base::{Price, Public, Qty};
use t7_book::{Note, Trade};

/// The sum of the traded quantities.
pub(crate) fn sum_of(trades: &[Trade]) -> u64
    requires { traded trades.now ≤ 1_000_000_000_000_000 }
    ensures sum { result ≡ traded trades.now }
    ensures positive { 0 < length trades.now → 1 ≤ result }
{
    let mut sum = 0;
    for t in trades {
        sum += t.qty.units();
    }
    sum
}

/// The price of the last trade.
pub(crate) fn last_price(price: Price, trades: &[Trade]) -> Price
    ensures { result ≡ last_price price trades.now }
{
    let mut last = price;
    for t in trades {
        last = t.maker.rest.price;
    }
    last
}

/// Whether the trade takes all that is left of the resting order.
fn is_used_up(t: &Trade) -> bool
    ensures { result ≡ is_used_up t.now }
{
    t.maker.rest.qty.units() <= t.qty.units()
}

/// Carries out a trade on the resting order.
fn carry_out_one(orders: &mut Orders, t: &Trade)
    ensures items { orders.new ≡ after_trade t.now orders.old }
    ensures fewer { length orders.new ≤ length orders.old }
{
    match t.maker.rest.qty.less(t.qty) {
        None => orders.remove(&t.maker.rest),
        Some(left) => orders.renew(&order::with_left(&t.maker, left)),
    }
}

/// Carries out the trades on the resting orders.
pub(crate) fn carry_out(orders: &mut Orders, trades: &[Trade])
    ensures items { orders.new ≡ after_trades trades.now orders.old }
    ensures fewer { length orders.new ≤ length orders.old }
{
    for t in trades {
        carry_out_one(orders, t);
    }
}

/// The message of a trade.
fn execution(t: &Trade) -> Public
    ensures { result ≡ execution t.now }
{
    let y = t.maker.rest;
    if is_used_up(t) {
        Public::Full {
            security: y.security,
            side: y.side,
            stamp: y.stamp,
            price: y.price,
            last_qty: t.qty,
            last_price: y.price,
        }
    } else {
        Public::Partial {
            security: y.security,
            side: y.side,
            stamp: y.stamp,
            price: y.price,
            last_qty: t.qty,
            last_price: y.price,
        }
    }
}

/// Appends the messages of the trades.
pub(crate) fn push_executions(trades: &[Trade], out: &mut Vec<Public>) -> Result<(), AllocError>
    ensures { OnOk result (out.new.items ≡ out.old.items ++ map execution trades.now) }
{
    for t in trades {
        out.push(execution(t))?;
    }
    Ok(())
}

/// The note of a trade, after which this much is left of the incoming order.
fn fill(t: &Trade, total: Qty, left: u64) -> Note
    requires { left ≤ 1_000_000_000_000_000 }
    ensures { result ≡ fill t.now total left }
{
    let y = &t.maker;
    let rest = &y.rest;
    let maker_left = rest.qty.units().saturating_sub(t.qty.units());
    Note::Fill {
        maker: y.id,
        maker_owner: y.owner,
        maker_side: rest.side,
        maker_leaves: maker_left as i64,
        maker_cum: y.total.get() - maker_left as i64,
        taker_leaves: left as i64,
        taker_cum: total.get() - left as i64,
        qty: t.qty,
        price: rest.price,
    }
}

/// The notes of the trades of an order with this total, of which this much is left before them.
pub(crate) fn fills(
    alloc: Global,
    trades: &[Trade],
    total: Qty,
    before: Qty,
) -> Result<Vec<Note>, AllocError>
    ensures { IfOk result (λ notes. notes.items ≡ fills trades.now total before) }
{
    let mut notes = Vec::new(alloc);
    let mut left = before.units();
    for t in trades {
        left = left.saturating_sub(t.qty.units());
        notes.push(fill(t, total, left))?;
    }
    Ok(notes)
}
