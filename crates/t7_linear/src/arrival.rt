//! An order comes into the book, a new one or one with a new stamp: it trades, and what is left of it rests.

ghost use Rattle.std.specs.Prelude.{◌≡◌, ◌≤◌, ◌<◌, ◌-◌, ◌++◌, IfOk, IfNone, IfSome, OnOk, OnErr, [], length};
ghost use Rattle.t7_book.specs.Orders.{without};
ghost use Rattle.t7_book.specs.Trades.{trades, traded, fills};
ghost use Rattle.t7_book.specs.Steps.{messages, list_after, arrival, change, crossing, summary};

use crate::commit::commit;
use crate::orders::Orders;
use crate::{order, trade};
use std::alloc::{AllocError, Global};
use t7_base::{Public, Qty, SecurityId};
use t7_book::{Note, Order, Trade};

/// What is left of an incoming order after these trades.
fn left_after(x: &Order, trades: &[Trade]) -> Option<Qty>
    requires { traded trades.now ≤ x.now.rest.qty }
    ensures none { IfNone result (x.now.rest.qty ≡ traded trades.now) }
    ensures some { IfSome result (λ left. (left ≡ x.now.rest.qty - traded trades.now) × (1 ≤ left)) }
{
    let qty = x.rest.qty;
    Qty::new((qty.units() - trade::sum_of(trades)) as i64)
}

/// The summary of an incoming order with these trades.
fn summary(x: &Order, trades: &[Trade]) -> Public
    requires some { 0 < length trades.now }
    requires within { traded trades.now ≤ x.now.rest.qty }
    ensures { result ≡ summary x.now trades.now }
{
    let rest = &x.rest;
    let most = rest.qty.units();
    let sum = trade::sum_of(trades) as i64;
    Public::Summary {
        security: rest.security,
        side: rest.side,
        stamp: rest.stamp,
        last_qty: Qty::new(sum).unwrap(),
        last_price: trade::last_price(rest.price, trades),
    }
}

/// Appends the messages of an incoming order with these trades.
fn push_crossing(x: &Order, trades: &[Trade], out: &mut Vec<Public>) -> Result<(), AllocError>
    requires some { 0 < length trades.now }
    requires within { traded trades.now ≤ x.now.rest.qty }
    ensures { OnOk result (out.new.items ≡ out.old.items ++ messages (crossing [] x.now trades.now [])) }
{
    out.push(summary(x, trades))?;
    trade::push_executions(trades, out)?;
    if let Some(left) = left_after(x, trades) {
        let order = order::with_left(x, left).rest;
        out.push(Public::Add { order })?;
    }
    Ok(())
}

/// The messages of a new order with these trades.
fn arrival_messages(alloc: Global, x: &Order, trades: &[Trade]) -> Result<Vec<Public>, AllocError>
    requires { traded trades.now ≤ x.now.rest.qty }
    ensures { IfOk result (λ v. v.items ≡ messages (arrival [] x.now trades.now [])) }
{
    let mut out = Vec::new(alloc);
    if trades.is_empty() {
        out.push(Public::Add { order: x.rest })?;
    } else {
        push_crossing(x, trades, &mut out)?;
    }
    Ok(out)
}

/// Carries out the trades, and lets what is left of the incoming order rest.
fn settle(securities: &[SecurityId], orders: &mut Orders, x: &Order, trades: &[Trade])
    requires within { traded trades.now ≤ x.now.rest.qty }
    requires room { length orders.old < 20_000 }
    ensures { orders.new ≡ list_after (crossing securities.now x.now trades.now orders.old) orders.old }
{
    let left = left_after(x, trades);
    trade::carry_out(orders, trades);
    if let Some(left) = left {
        orders.place(securities, order::with_left(x, left));
    }
}

/// Lets an incoming order with these trades into the book.
fn admit(securities: &[SecurityId], orders: &mut Orders, x: &Order, trades: &[Trade])
    requires within { traded trades.now ≤ x.now.rest.qty }
    requires room { length orders.old < 20_000 }
    ensures { orders.new ≡ list_after (arrival securities.now x.now trades.now orders.old) orders.old }
{
    if trades.is_empty() {
        orders.place(securities, *x);
    } else {
        settle(securities, orders, x, trades);
    }
}

/// A new order comes into the book.
pub(crate) fn arrive(
    securities: &[SecurityId],
    orders: &mut Orders,
    x: &Order,
    out: &mut Vec<Public>,
    notes: &mut Vec<Note>,
) -> Result<(), AllocError>
    requires room { length orders.old < 20_000 }
    ensures orders { OnOk result (orders.new ≡ list_after (arrival securities.now x.now (trades x.now.rest orders.old) orders.old) orders.old) }
    ensures out { OnOk result (out.new.items ≡ out.old.items ++ messages (arrival securities.now x.now (trades x.now.rest orders.old) orders.old)) }
    ensures notes { OnOk result (notes.new.items ≡ notes.old.items ++ fills (trades x.now.rest orders.old) x.now.total x.now.rest.qty) }
    ensures same_orders { OnErr result (orders.new ≡ orders.old) }
    ensures same_out { OnErr result (out.new.items ≡ out.old.items) }
    ensures same_notes { OnErr result (notes.new.items ≡ notes.old.items) }
{
    let alloc = orders.alloc();
    let trades = orders.trades(&x.rest)?;
    let told = trade::fills(alloc, &trades, x.total, x.rest.qty)?;
    let messages = arrival_messages(alloc, x, &trades)?;
    commit(out, notes, &messages, &told)?;
    admit(securities, orders, x, &trades);
    Ok(())
}

/// The messages of a modification that takes a new stamp.
fn change_messages(
    alloc: Global,
    y: &Order,
    x: &Order,
    trades: &[Trade],
) -> Result<Vec<Public>, AllocError>
    requires { traded trades.now ≤ x.now.rest.qty }
    ensures { IfOk result (λ v. v.items ≡ messages (change [] y.now x.now trades.now [])) }
{
    let mut out = Vec::new(alloc);
    if trades.is_empty() {
        let old = &y.rest;
        let new = &x.rest;
        out.push(Public::Modify {
            security: new.security,
            side: new.side,
            prev_stamp: old.stamp,
            prev_price: old.price,
            prev_qty: old.qty,
            stamp: new.stamp,
            price: new.price,
            qty: new.qty,
        })?;
    } else {
        out.push(Public::Delete { order: y.rest })?;
        push_crossing(x, trades, &mut out)?;
    }
    Ok(out)
}

/// The resting order y becomes x, with a new stamp.
pub(crate) fn change(
    securities: &[SecurityId],
    orders: &mut Orders,
    y: &Order,
    x: &Order,
    out: &mut Vec<Public>,
    notes: &mut Vec<Note>,
) -> Result<(), AllocError>
    requires side { y.now.rest.side ≡ x.now.rest.side }
    requires rests { length (without y.now.rest orders.old) < length orders.old }
    ensures orders { let others = without y.now.rest orders.old in OnOk result (orders.new ≡ list_after (change securities.now y.now x.now (trades x.now.rest others) others) orders.old) }
    ensures out { let others = without y.now.rest orders.old in OnOk result (out.new.items ≡ out.old.items ++ messages (change securities.now y.now x.now (trades x.now.rest others) others)) }
    ensures notes { let others = without y.now.rest orders.old in OnOk result (notes.new.items ≡ notes.old.items ++ fills (trades x.now.rest others) x.now.total x.now.rest.qty) }
    ensures same_orders { OnErr result (orders.new ≡ orders.old) }
    ensures same_out { OnErr result (out.new.items ≡ out.old.items) }
    ensures same_notes { OnErr result (notes.new.items ≡ notes.old.items) }
{
    let alloc = orders.alloc();
    let trades = orders.trades(&x.rest)?;
    let told = trade::fills(alloc, &trades, x.total, x.rest.qty)?;
    let messages = change_messages(alloc, y, x, &trades)?;
    commit(out, notes, &messages, &told)?;
    orders.remove(&y.rest);
    admit(securities, orders, x, &trades);
    Ok(())
}
