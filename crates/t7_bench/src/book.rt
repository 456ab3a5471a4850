//! Messages of the live channel, carried out on a member's book.

use std::alloc::{AllocError, Global};
use t7_base::{Price, Product, Public, Qty, Resting, SecurityId, Side, Stamp};
use t7_mbook::MarketBook;

// How many numbers a message has.
const NUMBERS: usize = 9;

fn side_of(number: i64) -> Side {
    if number == 1 { Side::Buy } else { Side::Sell }
}

fn stamp_of(number: i64) -> Option<Stamp> {
    Stamp::new(u64::try_from(number).ok()?)
}

// The order that numbers say: a security, a side, a stamp, a price and a quantity.
fn order_of(numbers: &[i64]) -> Option<Resting> {
    let [security, side, stamp, price, qty] = numbers else {
        return None;
    };
    Some(Resting {
        security: SecurityId(*security),
        side: side_of(*side),
        price: Price::new(*price)?,
        stamp: stamp_of(*stamp)?,
        qty: Qty::new(*qty)?,
    })
}

// The change of an order's price and quantity that numbers say behind it: its previous stamp, price and quantity.
fn modify_of(order: Resting, previous: &[i64]) -> Option<Public> {
    let [stamp, price, qty] = previous else {
        return None;
    };
    Some(Public::Modify {
        security: order.security,
        side: order.side,
        prev_stamp: stamp_of(*stamp)?,
        prev_price: Price::new(*price)?,
        prev_qty: Qty::new(*qty)?,
        stamp: order.stamp,
        price: order.price,
        qty: order.qty,
    })
}

// The execution of a part of an order, at its price.
fn partial_of(order: Resting) -> Public {
    Public::Partial {
        security: order.security,
        side: order.side,
        stamp: order.stamp,
        price: order.price,
        last_qty: order.qty,
        last_price: order.price,
    }
}

// The message that nine numbers say: its kind (1 a new order, 2 a change, 3 a deletion, 4 an execution in part), its order
// and, of a change, the order's previous stamp, price and quantity.
fn message_in(numbers: &[i64]) -> Option<Public> {
    let (kind, rest) = numbers.split_first()?;
    let (order, previous) = rest.split_at_checked(5)?;
    let order = order_of(order)?;
    match *kind {
        1 => Some(Public::Add { order }),
        2 => modify_of(order, previous),
        3 => Some(Public::Delete { order }),
        4 => Some(partial_of(order)),
        _ => None,
    }
}

// How many of the messages fit the book, which carries these out.
fn apply_all(book: &mut MarketBook, numbers: &[i64]) -> u64 {
    let mut fitting = 0u64;
    for row in numbers.chunks_exact(NUMBERS) {
        if let Some(message) = message_in(row) {
            if book.apply(&message).is_ok() {
                fitting = fitting.wrapping_add(1);
            }
        }
    }
    fitting
}

// The places, stamps and quantities of the orders in the order of the book, added up so that their order counts.
fn book_sum(book: &MarketBook) -> u64 {
    let mut sum = 0u64;
    for order in book.walk() {
        sum = sum
            .wrapping_mul(31)
            .wrapping_add(order.stamp.get())
            .wrapping_add(order.qty.units());
    }
    sum
}

fn book_of(alloc: Global, product: &[u8]) -> Result<MarketBook, AllocError> {
    match Product::read(alloc, product) {
        Ok(product) => MarketBook::new(alloc, &product),
        Err(_) => Err(AllocError),
    }
}

/// Makes an empty book of a product, and carries out messages of nine numbers each. Gives how many of them fit, added to a
/// sum of the orders that are left; 0 where there is no such product or memory is wanting.
#[unsafe(no_mangle)]
pub extern "C" fn t7_bench_book(alloc: Global, product: &[u8], numbers: &[i64]) -> u64 {
    match book_of(alloc, product) {
        Ok(mut book) => {
            let fitting = apply_all(&mut book, numbers);
            book_sum(&book).wrapping_add(fitting)
        }
        Err(_) => 0,
    }
}
