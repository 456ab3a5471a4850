//! Messages, notes, answers and orders as rows of numbers.

use crate::{BookRefusal, Done, Note};
use t7_base::{Public, Resting, Side};

/// A kind, and then the values of a message, a note, an answer or an order.
pub type Row = [i64; 10];

pub const BUY: i64 = 1;

pub const SELL: i64 = 2;

/// Security, side, price, quantity and stamp.
pub const ADD: i64 = 1;

/// As an Add.
pub const DELETE: i64 = 2;

/// Security, side; price, quantity and stamp before, and those after.
pub const MODIFY: i64 = 3;

/// Security, side, price, the quantities before and after, and the stamp.
pub const SAME_PRIORITY: i64 = 4;

/// Security.
pub const MASS_DELETE: i64 = 5;

/// Security, side, price and stamp of the resting order; the quantity and the price of the trade.
pub const PARTIAL: i64 = 6;

/// As a Partial.
pub const FULL: i64 = 7;

/// Security, side, stamp, the sum of the trades and the price of the last.
pub const SUMMARY: i64 = 8;

/// Id, owner and side of the resting order; what is left and was executed of it, and of the incoming order; quantity, price.
pub const FILL: i64 = 9;

/// Session and count.
pub const CLEARED: i64 = 10;

/// Order, stamp and count.
pub const DONE: i64 = 11;

/// The reason.
pub const REFUSED: i64 = 12;

/// An order of the book, as an Add.
pub const REST: i64 = 13;

pub const UNKNOWN_ORDER: i64 = 1;

pub const BELOW_EXECUTED: i64 = 2;

pub fn side_number(side: Side) -> i64 {
    match side {
        Side::Buy => BUY,
        Side::Sell => SELL,
    }
}

pub fn answer_row(answer: &Result<Done, BookRefusal>) -> Row {
    match answer {
        Ok(done) => {
            let id = done.order.0.min(1_000_000) as i64;
            [
                DONE,
                id,
                done.stamp.get() as i64,
                i64::from(done.count),
                0,
                0,
                0,
                0,
                0,
                0,
            ]
        }
        Err(BookRefusal::UnknownOrder) => [REFUSED, UNKNOWN_ORDER, 0, 0, 0, 0, 0, 0, 0, 0],
        Err(BookRefusal::BelowExecuted) => [REFUSED, BELOW_EXECUTED, 0, 0, 0, 0, 0, 0, 0, 0],
        Err(BookRefusal::BookFull) => [REFUSED, 3, 0, 0, 0, 0, 0, 0, 0, 0],
        Err(BookRefusal::Memory) => [REFUSED, 4, 0, 0, 0, 0, 0, 0, 0, 0],
    }
}

pub fn order_row(kind: i64, y: &Resting) -> Row {
    let side = side_number(y.side);
    [
        kind,
        y.security.0,
        side,
        y.price.get(),
        y.qty.get(),
        y.stamp.get() as i64,
        0,
        0,
        0,
        0,
    ]
}

pub fn message_row(message: &Public) -> Row {
    match *message {
        Public::Add { order } => order_row(ADD, &order),
        Public::Delete { order } => order_row(DELETE, &order),
        Public::Modify {
            security,
            side,
            prev_stamp,
            prev_price,
            prev_qty,
            stamp,
            price,
            qty,
        } => {
            let before = prev_stamp.get() as i64;
            let after = stamp.get() as i64;
            let side = side_number(side);
            [
                MODIFY,
                security.0,
                side,
                prev_price.get(),
                prev_qty.get(),
                before,
                price.get(),
                qty.get(),
                after,
                0,
            ]
        }
        Public::SamePriority {
            security,
            side,
            stamp,
            price,
            prev_qty,
            qty,
        } => {
            let at = stamp.get() as i64;
            [
                SAME_PRIORITY,
                security.0,
                side_number(side),
                price.get(),
                prev_qty.get(),
                qty.get(),
                at,
                0,
                0,
                0,
            ]
        }
        Public::MassDelete { security } => [MASS_DELETE, security.0, 0, 0, 0, 0, 0, 0, 0, 0],
        Public::Partial {
            security,
            side,
            stamp,
            price,
            last_qty,
            last_price,
        } => {
            let at = stamp.get() as i64;
            [
                PARTIAL,
                security.0,
                side_number(side),
                price.get(),
                at,
                last_qty.get(),
                last_price.get(),
                0,
                0,
                0,
            ]
        }
        Public::Full {
            security,
            side,
            stamp,
            price,
            last_qty,
            last_price,
        } => {
            let at = stamp.get() as i64;
            [
                FULL,
                security.0,
                side_number(side),
                price.get(),
                at,
                last_qty.get(),
                last_price.get(),
                0,
                0,
                0,
            ]
        }
        Public::Summary {
            security,
            side,
            stamp,
            last_qty,
            last_price,
        } => {
            let at = stamp.get() as i64;
            [
                SUMMARY,
                security.0,
                side_number(side),
                at,
                last_qty.get(),
                last_price.get(),
                0,
                0,
                0,
                0,
            ]
        }
        Public::Other => [0; 10],
    }
}

pub fn note_row(note: &Note) -> Row {
    match *note {
        Note::Fill {
            maker,
            maker_owner,
            maker_side,
            maker_leaves,
            maker_cum,
            taker_leaves,
            taker_cum,
            qty,
            price,
        } => {
            let id = maker.0.min(1_000_000) as i64;
            let side = side_number(maker_side);
            let owner = i64::from(maker_owner.0);
            [
                FILL,
                id,
                owner,
                side,
                maker_leaves,
                maker_cum,
                taker_leaves,
                taker_cum,
                qty.get(),
                price.get(),
            ]
        }
        Note::Cleared { session, count } => [
            CLEARED,
            i64::from(session.0),
            i64::from(count),
            0,
            0,
            0,
            0,
            0,
            0,
            0,
        ],
    }
}
