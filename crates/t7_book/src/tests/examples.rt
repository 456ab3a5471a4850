//! Small books, with what each command gives.

ghost use Rattle.std.specs.Prelude.{◌≡◌, ◌≤◌, ◌<◌, ◌+◌, length};
ghost use Rattle.t7_book.specs.Orders.{roster_of};

use super::fixture::*;
use super::rows::*;
use crate::{Book, BookRefusal, Command, Done, Note};
use std::alloc::Global;
use std::process::Abort;
use std::test::Fail;
use t7_base::{OrderId, Product, Public, SecurityId, Side};

/// A New: its session, its moment, side, price and total.
const NEW: i64 = 21;

/// A Modify of the first session at moment 0: the id, the price and the total.
const CHANGE: i64 = 22;

/// A Delete of the first session: the id.
const CANCEL: i64 = 23;

/// A DeleteAll of the first session in the first security.
const WITHDRAW: i64 = 24;

/// A Clear of a security.
const CLEAR: i64 = 25;

/// Four buys at falling prices, and a sell that trades with three and a half of them.
static SWEEP: [Row; 34] = [
    [NEW, 21, 0, BUY, 103, 10, 0, 0, 0, 0],
    [DONE, 1, 1, 0, 0, 0, 0, 0, 0, 0],
    [ADD, 1001, BUY, 103, 10, 1, 0, 0, 0, 0],
    [REST, 1001, BUY, 103, 10, 1, 0, 0, 0, 0],
    [NEW, 21, 0, BUY, 102, 10, 0, 0, 0, 0],
    [DONE, 2, 2, 0, 0, 0, 0, 0, 0, 0],
    [ADD, 1001, BUY, 102, 10, 2, 0, 0, 0, 0],
    [REST, 1001, BUY, 103, 10, 1, 0, 0, 0, 0],
    [REST, 1001, BUY, 102, 10, 2, 0, 0, 0, 0],
    [NEW, 21, 0, BUY, 101, 10, 0, 0, 0, 0],
    [DONE, 3, 3, 0, 0, 0, 0, 0, 0, 0],
    [ADD, 1001, BUY, 101, 10, 3, 0, 0, 0, 0],
    [REST, 1001, BUY, 103, 10, 1, 0, 0, 0, 0],
    [REST, 1001, BUY, 102, 10, 2, 0, 0, 0, 0],
    [REST, 1001, BUY, 101, 10, 3, 0, 0, 0, 0],
    [NEW, 21, 0, BUY, 100, 10, 0, 0, 0, 0],
    [DONE, 4, 4, 0, 0, 0, 0, 0, 0, 0],
    [ADD, 1001, BUY, 100, 10, 4, 0, 0, 0, 0],
    [REST, 1001, BUY, 103, 10, 1, 0, 0, 0, 0],
    [REST, 1001, BUY, 102, 10, 2, 0, 0, 0, 0],
    [REST, 1001, BUY, 101, 10, 3, 0, 0, 0, 0],
    [REST, 1001, BUY, 100, 10, 4, 0, 0, 0, 0],
    [NEW, 21, 0, SELL, 100, 35, 0, 0, 0, 0],
    [DONE, 5, 5, 0, 0, 0, 0, 0, 0, 0],
    [SUMMARY, 1001, SELL, 5, 35, 100, 0, 0, 0, 0],
    [FULL, 1001, BUY, 103, 1, 10, 103, 0, 0, 0],
    [FULL, 1001, BUY, 102, 2, 10, 102, 0, 0, 0],
    [FULL, 1001, BUY, 101, 3, 10, 101, 0, 0, 0],
    [PARTIAL, 1001, BUY, 100, 4, 5, 100, 0, 0, 0],
    [FILL, 1, 21, BUY, 0, 10, 25, 10, 10, 103],
    [FILL, 2, 21, BUY, 0, 10, 15, 20, 10, 102],
    [FILL, 3, 21, BUY, 0, 10, 5, 30, 10, 101],
    [FILL, 4, 21, BUY, 5, 5, 0, 35, 5, 100],
    [REST, 1001, BUY, 100, 5, 4, 0, 0, 0, 0],
];

/// A smaller total keeps the place, the same total too, and a greater one goes behind.
static RESIZE: [Row; 24] = [
    [NEW, 21, 0, BUY, 100, 50, 0, 0, 0, 0],
    [DONE, 1, 1, 0, 0, 0, 0, 0, 0, 0],
    [ADD, 1001, BUY, 100, 50, 1, 0, 0, 0, 0],
    [REST, 1001, BUY, 100, 50, 1, 0, 0, 0, 0],
    [NEW, 21, 0, BUY, 100, 20, 0, 0, 0, 0],
    [DONE, 2, 2, 0, 0, 0, 0, 0, 0, 0],
    [ADD, 1001, BUY, 100, 20, 2, 0, 0, 0, 0],
    [REST, 1001, BUY, 100, 50, 1, 0, 0, 0, 0],
    [REST, 1001, BUY, 100, 20, 2, 0, 0, 0, 0],
    [CHANGE, 1, 100, 30, 0, 0, 0, 0, 0, 0],
    [DONE, 1, 1, 0, 0, 0, 0, 0, 0, 0],
    [SAME_PRIORITY, 1001, BUY, 100, 50, 30, 1, 0, 0, 0],
    [REST, 1001, BUY, 100, 30, 1, 0, 0, 0, 0],
    [REST, 1001, BUY, 100, 20, 2, 0, 0, 0, 0],
    [CHANGE, 1, 100, 30, 0, 0, 0, 0, 0, 0],
    [DONE, 1, 1, 0, 0, 0, 0, 0, 0, 0],
    [SAME_PRIORITY, 1001, BUY, 100, 30, 30, 1, 0, 0, 0],
    [REST, 1001, BUY, 100, 30, 1, 0, 0, 0, 0],
    [REST, 1001, BUY, 100, 20, 2, 0, 0, 0, 0],
    [CHANGE, 1, 100, 40, 0, 0, 0, 0, 0, 0],
    [DONE, 1, 3, 0, 0, 0, 0, 0, 0, 0],
    [MODIFY, 1001, BUY, 100, 30, 1, 100, 40, 3, 0],
    [REST, 1001, BUY, 100, 20, 2, 0, 0, 0, 0],
    [REST, 1001, BUY, 100, 40, 3, 0, 0, 0, 0],
];

/// A modification that trades: the order goes, trades, and what is left of it comes to rest.
static CROSS: [Row; 17] = [
    [NEW, 21, 0, BUY, 100, 50, 0, 0, 0, 0],
    [DONE, 1, 1, 0, 0, 0, 0, 0, 0, 0],
    [ADD, 1001, BUY, 100, 50, 1, 0, 0, 0, 0],
    [REST, 1001, BUY, 100, 50, 1, 0, 0, 0, 0],
    [NEW, 21, 0, SELL, 105, 20, 0, 0, 0, 0],
    [DONE, 2, 2, 0, 0, 0, 0, 0, 0, 0],
    [ADD, 1001, SELL, 105, 20, 2, 0, 0, 0, 0],
    [REST, 1001, BUY, 100, 50, 1, 0, 0, 0, 0],
    [REST, 1001, SELL, 105, 20, 2, 0, 0, 0, 0],
    [CHANGE, 1, 105, 60, 0, 0, 0, 0, 0, 0],
    [DONE, 1, 3, 0, 0, 0, 0, 0, 0, 0],
    [DELETE, 1001, BUY, 100, 50, 1, 0, 0, 0, 0],
    [SUMMARY, 1001, BUY, 3, 20, 105, 0, 0, 0, 0],
    [FULL, 1001, SELL, 105, 2, 20, 105, 0, 0, 0],
    [ADD, 1001, BUY, 105, 40, 3, 0, 0, 0, 0],
    [FILL, 2, 21, SELL, 0, 20, 40, 20, 20, 105],
    [REST, 1001, BUY, 105, 40, 3, 0, 0, 0, 0],
];

/// A security is cleared and its sessions are told; one without orders is cleared all the same.
static CLEARS: [Row; 30] = [
    [NEW, 21, 0, BUY, 100, 50, 0, 0, 0, 0],
    [DONE, 1, 1, 0, 0, 0, 0, 0, 0, 0],
    [ADD, 1001, BUY, 100, 50, 1, 0, 0, 0, 0],
    [REST, 1001, BUY, 100, 50, 1, 0, 0, 0, 0],
    [NEW, 21, 0, SELL, 105, 20, 0, 0, 0, 0],
    [DONE, 2, 2, 0, 0, 0, 0, 0, 0, 0],
    [ADD, 1001, SELL, 105, 20, 2, 0, 0, 0, 0],
    [REST, 1001, BUY, 100, 50, 1, 0, 0, 0, 0],
    [REST, 1001, SELL, 105, 20, 2, 0, 0, 0, 0],
    [CLEAR, 1001, 0, 0, 0, 0, 0, 0, 0, 0],
    [DONE, 0, 1, 2, 0, 0, 0, 0, 0, 0],
    [MASS_DELETE, 1001, 0, 0, 0, 0, 0, 0, 0, 0],
    [CLEARED, 21, 2, 0, 0, 0, 0, 0, 0, 0],
    [CLEAR, 1002, 0, 0, 0, 0, 0, 0, 0, 0],
    [DONE, 0, 1, 0, 0, 0, 0, 0, 0, 0],
    [MASS_DELETE, 1002, 0, 0, 0, 0, 0, 0, 0, 0],
    [NEW, 22, 0, BUY, 101, 5, 0, 0, 0, 0],
    [DONE, 3, 3, 0, 0, 0, 0, 0, 0, 0],
    [ADD, 1001, BUY, 101, 5, 3, 0, 0, 0, 0],
    [REST, 1001, BUY, 101, 5, 3, 0, 0, 0, 0],
    [NEW, 21, 0, SELL, 106, 7, 0, 0, 0, 0],
    [DONE, 4, 4, 0, 0, 0, 0, 0, 0, 0],
    [ADD, 1001, SELL, 106, 7, 4, 0, 0, 0, 0],
    [REST, 1001, BUY, 101, 5, 3, 0, 0, 0, 0],
    [REST, 1001, SELL, 106, 7, 4, 0, 0, 0, 0],
    [CLEAR, 1001, 0, 0, 0, 0, 0, 0, 0, 0],
    [DONE, 0, 1, 2, 0, 0, 0, 0, 0, 0],
    [MASS_DELETE, 1001, 0, 0, 0, 0, 0, 0, 0, 0],
    [CLEARED, 21, 1, 0, 0, 0, 0, 0, 0, 0],
    [CLEARED, 22, 1, 0, 0, 0, 0, 0, 0, 0],
];

/// All orders of a session go, in the order of the book and not in that of their ids; then none of them is known.
static LEAVE: [Row; 22] = [
    [NEW, 21, 0, SELL, 105, 20, 0, 0, 0, 0],
    [DONE, 1, 1, 0, 0, 0, 0, 0, 0, 0],
    [ADD, 1001, SELL, 105, 20, 1, 0, 0, 0, 0],
    [REST, 1001, SELL, 105, 20, 1, 0, 0, 0, 0],
    [NEW, 21, 0, BUY, 99, 10, 0, 0, 0, 0],
    [DONE, 2, 2, 0, 0, 0, 0, 0, 0, 0],
    [ADD, 1001, BUY, 99, 10, 2, 0, 0, 0, 0],
    [REST, 1001, BUY, 99, 10, 2, 0, 0, 0, 0],
    [REST, 1001, SELL, 105, 20, 1, 0, 0, 0, 0],
    [NEW, 21, 0, BUY, 100, 50, 0, 0, 0, 0],
    [DONE, 3, 3, 0, 0, 0, 0, 0, 0, 0],
    [ADD, 1001, BUY, 100, 50, 3, 0, 0, 0, 0],
    [REST, 1001, BUY, 100, 50, 3, 0, 0, 0, 0],
    [REST, 1001, BUY, 99, 10, 2, 0, 0, 0, 0],
    [REST, 1001, SELL, 105, 20, 1, 0, 0, 0, 0],
    [WITHDRAW, 0, 0, 0, 0, 0, 0, 0, 0, 0],
    [DONE, 0, 1, 3, 0, 0, 0, 0, 0, 0],
    [DELETE, 1001, BUY, 100, 50, 3, 0, 0, 0, 0],
    [DELETE, 1001, BUY, 99, 10, 2, 0, 0, 0, 0],
    [DELETE, 1001, SELL, 105, 20, 1, 0, 0, 0, 0],
    [CANCEL, 1, 0, 0, 0, 0, 0, 0, 0, 0],
    [REFUSED, UNKNOWN_ORDER, 0, 0, 0, 0, 0, 0, 0, 0],
];

/// An order of which 20 were executed: its total falls, may not fall to 20, and rises with another price.
static EXECUTED: [Row; 24] = [
    [NEW, 21, 0, BUY, 100, 50, 0, 0, 0, 0],
    [DONE, 1, 1, 0, 0, 0, 0, 0, 0, 0],
    [ADD, 1001, BUY, 100, 50, 1, 0, 0, 0, 0],
    [REST, 1001, BUY, 100, 50, 1, 0, 0, 0, 0],
    [NEW, 22, 7, SELL, 100, 20, 0, 0, 0, 0],
    [DONE, 2, 7, 0, 0, 0, 0, 0, 0, 0],
    [SUMMARY, 1001, SELL, 7, 20, 100, 0, 0, 0, 0],
    [PARTIAL, 1001, BUY, 100, 1, 20, 100, 0, 0, 0],
    [FILL, 1, 21, BUY, 30, 20, 0, 20, 20, 100],
    [REST, 1001, BUY, 100, 30, 1, 0, 0, 0, 0],
    [CHANGE, 1, 100, 40, 0, 0, 0, 0, 0, 0],
    [DONE, 1, 1, 0, 0, 0, 0, 0, 0, 0],
    [SAME_PRIORITY, 1001, BUY, 100, 30, 20, 1, 0, 0, 0],
    [REST, 1001, BUY, 100, 20, 1, 0, 0, 0, 0],
    [CHANGE, 1, 100, 20, 0, 0, 0, 0, 0, 0],
    [REFUSED, BELOW_EXECUTED, 0, 0, 0, 0, 0, 0, 0, 0],
    [REST, 1001, BUY, 100, 20, 1, 0, 0, 0, 0],
    [CHANGE, 1, 101, 60, 0, 0, 0, 0, 0, 0],
    [DONE, 1, 8, 0, 0, 0, 0, 0, 0, 0],
    [MODIFY, 1001, BUY, 100, 20, 1, 101, 40, 8, 0],
    [REST, 1001, BUY, 101, 40, 8, 0, 0, 0, 0],
    [CHANGE, 2, 101, 60, 0, 0, 0, 0, 0, 0],
    [REFUSED, UNKNOWN_ORDER, 0, 0, 0, 0, 0, 0, 0, 0],
    [REST, 1001, BUY, 101, 40, 8, 0, 0, 0, 0],
];

/// The command of a row, in the first security where it has no other.
fn command_of(row: &Row) -> Result<Command, Fail> {
    let start = moment(0)?;
    let client = 9;
    Ok(match row[0] {
        NEW => Command::New {
            moment: moment(row[2].unsigned_abs())?,
            session: if row[1] == 22 { NIGHT } else { DAY },
            security: FIRST,
            side: if row[3] == BUY { Side::Buy } else { Side::Sell },
            price: price(row[4])?,
            qty: qty(row[5])?,
            client,
        },
        CHANGE => Command::Modify {
            moment: start,
            session: DAY,
            order: OrderId(row[1].unsigned_abs()),
            price: price(row[2])?,
            qty: qty(row[3])?,
            client,
        },
        CANCEL => Command::Delete {
            moment: start,
            session: DAY,
            order: OrderId(row[1].unsigned_abs()),
            client,
        },
        WITHDRAW => Command::DeleteAll {
            moment: start,
            session: DAY,
            security: FIRST,
        },
        _ => Command::Clear {
            moment: start,
            security: SecurityId(row[1]),
        },
    })
}

/// In rows the answer, the messages, the notes and the orders of the book.
fn told_of(
    alloc: Global,
    answer: &Result<Done, BookRefusal>,
    out: &[Public],
    notes: &[Note],
    book: &Book,
) -> Result<Vec<Row>, Fail> {
    let mut told = Vec::new(alloc);
    told.push(answer_row(answer))?;
    push_messages(out, &mut told)?;
    push_notes(notes, &mut told)?;
    push_orders(book, &mut told)?;
    Ok(told)
}

fn push_messages(out: &[Public], told: &mut Vec<Row>) -> Result<(), Fail> {
    for message in out {
        told.push(message_row(message))?;
    }
    Ok(())
}

fn push_notes(notes: &[Note], told: &mut Vec<Row>) -> Result<(), Fail> {
    for note in notes {
        told.push(note_row(note))?;
    }
    Ok(())
}

fn push_orders(book: &Book, told: &mut Vec<Row>) -> Result<(), Fail> {
    for order in book.walk() {
        told.push(order_row(REST, &order.rest))?;
    }
    Ok(())
}

/// Carries out the command of a row; answers in rows the answer, the messages, the notes and the book after it.
fn told_by(
    rt: &impl Abort,
    alloc: Global,
    product: &Product,
    book: &mut Book,
    row: &Row,
) -> Result<Vec<Row>, Fail>
    requires product { book.old.roster ≡ roster_of product.now }
    requires few { book.old.applied < 1_000_000 }
    ensures same_product { book.new.roster ≡ book.old.roster }
    ensures one_more { book.new.applied ≤ book.old.applied + 1 }
{
    let command = command_of(row)?;
    assert!(rt; command.is_for(product));
    let mut out = Vec::new(alloc);
    let mut notes = Vec::new(alloc);
    let answer = book.apply(&command, &mut out, &mut notes);
    told_of(alloc, &answer, &out, &notes, book)
}

/// Carries out the commands of the rows. Behind each command stand the rows that it must give.
fn play_on(
    rt: &impl Abort,
    alloc: Global,
    product: &Product,
    book: &mut Book,
    rows: &[Row],
) -> Result<(), Fail>
    requires product { book.old.roster ≡ roster_of product.now }
    requires few { book.old.applied + length rows.now ≤ 1_000_000 }
{
    let mut told: Vec<Row> = Vec::new(alloc);
    let mut next = 0usize;
    for row in rows {
        if row[0] >= NEW {
            assert_eq!(rt; next, told.len(), "before {row:?}");
            told = told_by(rt, alloc, product, book, row)?;
            next = 0;
        } else {
            let found = told.get(next).copied().unwrap_or([0; 10]);
            assert_eq!(rt; found, *row);
            next = next.wrapping_add(1);
        }
    }
    assert_eq!(rt; next, told.len(), "at the end");
    Ok(())
}

/// Carries out the commands of the rows from an empty book on.
fn play(rt: &impl Abort, alloc: Global, product: &Product, rows: &[Row]) -> Result<(), Fail>
    requires { length rows.now ≤ 1_000 }
{
    let mut book = Book::new(alloc, product)?;
    play_on(rt, alloc, product, &mut book, rows)
}

#[test]
fn small_books(rt: HostRuntime) -> Result<(), Fail> {
    let alloc = rt.alloc();
    let product = product(alloc)?;
    play(&rt, alloc, &product, &SWEEP)?;
    play(&rt, alloc, &product, &RESIZE)?;
    play(&rt, alloc, &product, &CROSS)?;
    play(&rt, alloc, &product, &CLEARS)?;
    play(&rt, alloc, &product, &LEAVE)?;
    play(&rt, alloc, &product, &EXECUTED)
}
