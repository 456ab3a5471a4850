//! Commands of order entry, carried out on an exchange's book.

ghost use Rattle.std.specs.Prelude.{◌≡◌, ◌≤◌, ◌+◌};
ghost use Rattle.t7_book.specs.Orders.{roster_of};

use std::alloc::{AllocError, Global};
use t7_base::{Moment, OrderId, Price, Product, Public, Qty, SecurityId, SessionId, Side};
use t7_book::{Book, Command, Note};

// How many numbers a command has.
const NUMBERS: usize = 6;

// How many commands are carried out at most.
const MOST_COMMANDS: u64 = 900_000;

// The session that gives the commands.
const SESSION: SessionId = SessionId(21);

fn side_of(number: i64) -> Side {
    if number == 1 { Side::Buy } else { Side::Sell }
}

fn moment_of(number: i64) -> Option<Moment> {
    Moment::new(u64::try_from(number).ok()?)
}

fn order_of(number: i64) -> Option<OrderId> {
    Some(OrderId(u64::try_from(number).ok()?))
}

// The command that six numbers say: its kind (1 a new order, 2 a modification, 3 a deletion), its moment, the security of a new
// order or else the id of its order, and the side, the price and the total where it has them.
fn command_of(numbers: &[i64]) -> Option<Command> {
    let [kind, moment, name, side, price, qty] = numbers else {
        return None;
    };
    let moment = moment_of(*moment)?;
    match *kind {
        1 => Some(Command::New {
            moment,
            session: SESSION,
            security: SecurityId(*name),
            side: side_of(*side),
            price: Price::new(*price)?,
            qty: Qty::new(*qty)?,
            client: 0,
        }),
        2 => Some(Command::Modify {
            moment,
            session: SESSION,
            order: order_of(*name)?,
            price: Price::new(*price)?,
            qty: Qty::new(*qty)?,
            client: 0,
        }),
        3 => Some(Command::Delete {
            moment,
            session: SESSION,
            order: order_of(*name)?,
            client: 0,
        }),
        _ => None,
    }
}

// Carries out a command of the product, and gives how many messages and notes it has.
fn apply(
    book: &mut Book,
    product: &Product,
    command: &Command,
    messages: &mut Vec<Public>,
    notes: &mut Vec<Note>,
) -> u64
    requires roster { book.old.roster ≡ roster_of product.now }
    requires few { book.old.applied ≤ 900_000 }
    ensures roster { book.new.roster ≡ book.old.roster }
    ensures applied { book.new.applied ≤ book.old.applied + 1 }
{
    messages.clear();
    notes.clear();
    if !command.is_for(product) {
        return 0;
    }
    match book.apply(command, messages, notes) {
        Ok(_) => (messages.len() as u64).wrapping_add(notes.len() as u64),
        Err(_) => 0,
    }
}

// How many messages and notes the commands have, which the book carries out.
fn apply_all(alloc: Global, book: &mut Book, product: &Product, numbers: &[i64]) -> u64
    requires roster { book.old.roster ≡ roster_of product.now }
    requires none { book.old.applied ≡ 0 }
{
    let mut messages = Vec::new(alloc);
    let mut notes = Vec::new(alloc);
    let mut left = MOST_COMMANDS;
    let mut said = 0u64;
    for row in numbers.chunks_exact(NUMBERS) {
        if left == 0 {
            return said;
        }
        left -= 1;
        if let Some(command) = command_of(row) {
            said = said.wrapping_add(apply(book, product, &command, &mut messages, &mut notes));
        }
    }
    said
}

// The stamps and quantities of the orders in the order of the book, added up so that their order counts.
fn orders_sum(book: &Book) -> u64 {
    let mut sum = 0u64;
    for order in book.walk() {
        sum = sum
            .wrapping_mul(31)
            .wrapping_add(order.rest.stamp.get())
            .wrapping_add(order.rest.qty.units());
    }
    sum
}

// What the book of a product has said of commands, added to a sum of the orders that they leave.
fn commands_sum(alloc: Global, product: &Product, numbers: &[i64]) -> Result<u64, AllocError> {
    let mut book = Book::new(alloc, product)?;
    let said = apply_all(alloc, &mut book, product, numbers);
    Ok(orders_sum(&book).wrapping_add(said))
}

/// Makes an empty book of a product, and carries out commands of six numbers each, at most 900,000. Gives how many messages and notes
/// they have, added to a sum of the orders that are left; 0 where there is no such product or memory is wanting.
#[unsafe(no_mangle)]
pub extern "C" fn t7_bench_orders(alloc: Global, product: &[u8], numbers: &[i64]) -> u64 {
    match Product::read(alloc, product) {
        Ok(product) => commands_sum(alloc, &product, numbers).unwrap_or(0),
        Err(_) => 0,
    }
}
