//! The tests of an order request against the product and the book.

ghost use Rattle.std.specs.Prelude.{◌≡◌, pos, nat_abs, ◌≤ℤ◌, true, false, MatchOption};
ghost use Rattle.std.specs.List.{position};
ghost use Rattle.std.specs.Ordering.{int_eq};
ghost use Rattle.t7_book.specs.Orders.{roster_of};
ghost use Rattle.t7_book.specs.Commands.{executed_of};
ghost use Rattle.t7_eti.specs.declared.request.Request.TheVariants as request;
ghost use Rattle.t7_orders.specs.Judged.{IsOrder, is_listed, is_price, is_quantity, is_side, judged, side_of, step_of};

use t7_base::{Moment, OrderId, Price, Product, Qty, SecurityId, SessionId, Side};
use t7_book::{Book, Command, Order};
use t7_eti::{Reason, Request};

/// How many commands a day takes.
pub const MOST_COMMANDS: u32 = 200_000;

// Whether a security is the product's.
fn is_listed(product: &Product, security: SecurityId) -> bool
    ensures { result ≡ is_listed product.now security }
{
    product.securities().contains(&security)
}

// Where a security stands in the product file, if it does.
fn place_of(product: &Product, security: SecurityId) -> Option<usize>
    ensures { result ≡ position (λ s. int_eq s security) product.now.securities }
{
    product
        .securities()
        .iter()
        .position(|listed| *listed == security)
}

// The step that prices of a security are multiples of; 1 for one that isn't the product's.
fn step_of(product: &Product, security: SecurityId) -> i64
    ensures value { result ≡ step_of product.now security }
    ensures some { pos 1 ≤ℤ result }
{
    let ticks = product.ticks();
    match place_of(product, security) {
        Some(place) => ticks[place],
        None => 1,
    }
}

// The price of a number, where it is in its range and on the security's step.
fn price_of(product: &Product, security: SecurityId, number: i64) -> Option<Price>
    ensures { MatchOption result (is_price product.now security number ≡ false) (λ p. (is_price product.now security number ≡ true) × (p ≡ number)) }
{
    let step = step_of(product, security);
    let Some(price) = Price::new(number) else {
        return None;
    };
    if number.unsigned_abs() % step.unsigned_abs() != 0 {
        return None;
    }
    Some(price)
}

// The quantity of a number, where it is in its range.
fn quantity_of(number: i64) -> Option<Qty>
    ensures { MatchOption result (is_quantity number ≡ false) (λ q. (is_quantity number ≡ true) × (q ≡ nat_abs number)) }
{
    Qty::new(number)
}

// The side of a number.
fn side_of(number: u8) -> Option<Side>
    ensures { MatchOption result (is_side number ≡ false) (λ s. (is_side number ≡ true) × (s ≡ side_of number)) }
{
    match number {
        1 => Some(Side::Buy),
        2 => Some(Side::Sell),
        _ => None,
    }
}

// What was executed of an order.
fn executed(order: &Order) -> u64
    ensures { result ≡ executed_of order.now }
{
    order.total.units().saturating_sub(order.rest.qty.units())
}

// The command of a New, whatever its number.
fn new_order(
    product: &Product,
    book: &Book,
    session: SessionId,
    accepted: u32,
    moment: Moment,
    security: i64,
    side: u8,
    price: i64,
    qty: i64,
    client: u64,
) -> Result<Command, Reason>
    ensures { result ≡ judged product.now book.now session accepted moment (request.New 0 security side price qty client) }
{
    let security = SecurityId(security);
    if !is_listed(product, security) {
        return Err(Reason::UnknownSecurity);
    }
    let Some(side) = side_of(side) else {
        return Err(Reason::BadSide);
    };
    let Some(price) = price_of(product, security, price) else {
        return Err(Reason::BadPrice);
    };
    let Some(qty) = quantity_of(qty) else {
        return Err(Reason::BadQty);
    };
    if accepted >= MOST_COMMANDS {
        return Err(Reason::DayFull);
    }
    if book.is_full(security) {
        return Err(Reason::BookFull);
    }
    Ok(Command::New {
        moment,
        session,
        security,
        side,
        price,
        qty,
        client,
    })
}

// The command of a Modify, whatever its number.
fn changed_order(
    product: &Product,
    book: &Book,
    session: SessionId,
    accepted: u32,
    moment: Moment,
    order: OrderId,
    client: u64,
    price: i64,
    qty: i64,
) -> Result<Command, Reason>
    ensures { result ≡ judged product.now book.now session accepted moment (request.Modify 0 order client price qty) }
{
    let found = book.find(session, order).ok_or(Reason::UnknownOrder)?;
    let price = price_of(product, found.rest.security, price).ok_or(Reason::BadPrice)?;
    let qty = quantity_of(qty).ok_or(Reason::BadQty)?;
    if qty.units() <= executed(found) {
        return Err(Reason::BelowExecuted);
    }
    if accepted >= MOST_COMMANDS {
        return Err(Reason::DayFull);
    }
    Ok(Command::Modify {
        moment,
        session,
        order,
        price,
        qty,
        client,
    })
}

/// The command of an order request that a session makes at a moment, when so many commands were accepted, or the first
/// failing test. The book is of the product, and the request is a New, a Modify, a Delete or a DeleteAll.
///
/// In this order: UnknownSecurity where the security of a New or a DeleteAll isn't the product's; BadSide where the side of
/// a New is neither 1 nor 2; UnknownOrder where the book finds no order of the session with the id of a Modify or a Delete;
/// for a New and a Modify BadPrice where the price isn't in -10^17..=10^17 or is no multiple of the security's step, and
/// BadQty where the quantity isn't in 1..=10^15; BelowExecuted where the total of a Modify isn't above what was executed;
/// DayFull where 200,000 commands were accepted; BookFull where the book holds 20,000 orders, or 10,000 of the security of a
/// New. `the_first_failing_test_is_told` says the same of the table of tests, and `commands_are_taken` that the book takes
/// the command. No memory is taken.
pub fn command(
    product: &Product,
    book: &Book,
    session: SessionId,
    accepted: u32,
    moment: Moment,
    request: &Request,
) -> Result<Command, Reason>
    requires product { book.now.roster ≡ roster_of product.now }
    requires order { IsOrder request.now }
    ensures { result ≡ judged product.now book.now session accepted moment request.now }
{
    match *request {
        Request::New {
            security,
            side,
            price,
            qty,
            client,
            ..
        } => new_order(
            product, book, session, accepted, moment, security, side, price, qty, client,
        ),
        Request::Modify {
            order,
            client,
            price,
            qty,
            ..
        } => {
            let order = OrderId(order);
            changed_order(
                product, book, session, accepted, moment, order, client, price, qty,
            )
        }
        Request::Delete { order, client, .. } => {
            let order = OrderId(order);
            book.find(session, order).ok_or(Reason::UnknownOrder)?;
            if accepted >= MOST_COMMANDS {
                return Err(Reason::DayFull);
            }
            Ok(Command::Delete {
                moment,
                session,
                order,
                client,
            })
        }
        Request::DeleteAll { security, .. } => {
            let security = SecurityId(security);
            if !is_listed(product, security) {
                return Err(Reason::UnknownSecurity);
            }
            if accepted >= MOST_COMMANDS {
                return Err(Reason::DayFull);
            }
            Ok(Command::DeleteAll {
                moment,
                session,
                security,
            })
        }
        _ => unreachable!(),
    }
}
