//! A command to both forms of the exchange's book.

ghost use Rattle.std.specs.Prelude.{◌≡◌, ◌≤◌, ◌<◌, ◌+◌};
ghost use Rattle.t7_book.specs.Orders.{roster_of};

use crate::part::Part;
use std::alloc::Global;
use t7_base::{Product, Public};
use t7_book::{Book, BookRefusal, Command, Done, Note};
use t7_linear::LinearBook;

/// What a command gave.
#[derive(Drop)]
struct Given {
    answer: Result<Done, BookRefusal>,
    out: Vec<Public>,
    notes: Vec<Note>,
}

/// Where the second gave something else than the first.
fn other(first: &Given, second: &Given) -> Option<Part> {
    if first.answer != second.answer {
        return Some(Part::Answer);
    }
    if first.out.as_slice() != second.out.as_slice() {
        return Some(Part::Messages);
    }
    if first.notes.as_slice() != second.notes.as_slice() {
        return Some(Part::Notes);
    }
    None
}

/// Carries out a command on a book.
fn carry_out(alloc: Global, product: &Product, book: &mut Book, command: &Command) -> Given
    requires product { book.old.roster ≡ roster_of product.now }
    requires few { book.old.applied < 1_000_000 }
    ensures same_product { book.new.roster ≡ book.old.roster }
    ensures one_more { book.new.applied ≤ book.old.applied + 1 }
{
    let mut out = Vec::new(alloc);
    let mut notes = Vec::new(alloc);
    let answer = if command.is_for(product) {
        book.apply(command, &mut out, &mut notes)
    } else {
        Err(BookRefusal::UnknownOrder)
    };
    Given { answer, out, notes }
}

/// Carries out a command on a book over a vector.
fn carry_out_linear(
    alloc: Global,
    product: &Product,
    book: &mut LinearBook,
    command: &Command,
) -> Given
    requires product { book.old.roster ≡ roster_of product.now }
    requires few { book.old.applied < 1_000_000 }
    ensures same_product { book.new.roster ≡ book.old.roster }
    ensures one_more { book.new.applied ≤ book.old.applied + 1 }
{
    let mut out = Vec::new(alloc);
    let mut notes = Vec::new(alloc);
    let answer = if command.is_for(product) {
        book.apply(command, &mut out, &mut notes)
    } else {
        Err(BookRefusal::UnknownOrder)
    };
    Given { answer, out, notes }
}

/// Carries out a command on both books; answers its messages, or what the second gave otherwise.
pub(crate) fn command_both(
    alloc: Global,
    product: &Product,
    book: &mut Book,
    linear: &mut LinearBook,
    command: &Command,
) -> Result<Vec<Public>, Part>
    requires product { book.old.roster ≡ roster_of product.now }
    requires few { book.old.applied < 1_000_000 }
    requires linear_product { linear.old.roster ≡ roster_of product.now }
    requires linear_few { linear.old.applied < 1_000_000 }
    ensures same_product { book.new.roster ≡ book.old.roster }
    ensures one_more { book.new.applied ≤ book.old.applied + 1 }
    ensures linear_same_product { linear.new.roster ≡ linear.old.roster }
    ensures linear_one_more { linear.new.applied ≤ linear.old.applied + 1 }
{
    let first = carry_out(alloc, product, book, command);
    let second = carry_out_linear(alloc, product, linear, command);
    match other(&first, &second) {
        Some(part) => Err(part),
        None => Ok(first.out),
    }
}

/// Compares the orders of both books.
pub(crate) fn compare_walks(book: &Book, linear: &LinearBook) -> Result<(), Part> {
    if walks_agree(book, linear) {
        Ok(())
    } else {
        Err(Part::Walk)
    }
}

/// Whether the two walks give the same orders.
fn walks_agree(book: &Book, linear: &LinearBook) -> bool {
    let others = linear.orders();
    let mut place = 0usize;
    for order in book.walk() {
        if others.get(place) != Some(order) {
            return false;
        }
        place = place.wrapping_add(1);
    }
    place == others.len()
}
