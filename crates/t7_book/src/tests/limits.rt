//! A book takes 10,000 orders of one security and 20,000 in all.

ghost use Rattle.std.specs.Prelude.{◌≡◌, ◌≤◌, ◌<◌, ◌+◌};
ghost use Rattle.t7_book.specs.Orders.{roster_of};

use super::fixture::*;
use crate::{Book, BookRefusal, Command, Done, Note};
use std::process::Abort;
use std::test::Fail;
use t7_base::{OrderId, Product, Public, SecurityId, Side};

/// So many orders more of a security, with ids from `first` on; and for which of the three securities the book is full then.
struct Filling {
    security: i64,
    first: u32,
    count: u16,
    full: [bool; 3],
}

/// 10,000 orders of a security are as many as it may have, and 20,000 as many as the book may: then no security has room.
static FILLINGS: [Filling; 4] = [
    Filling {
        security: 1002,
        first: 1,
        count: 9_999,
        full: [false, false, false],
    },
    Filling {
        security: 1002,
        first: 10_000,
        count: 1,
        full: [false, true, false],
    },
    Filling {
        security: 1001,
        first: 10_001,
        count: 9_999,
        full: [false, true, false],
    },
    Filling {
        security: 1003,
        first: 20_000,
        count: 1,
        full: [true, true, true],
    },
];

/// A new sell in a security, at this price.
fn sell_in(security: SecurityId, at: i64) -> Result<Command, Fail> {
    Ok(Command::New {
        moment: moment(0)?,
        session: DAY,
        security,
        side: Side::Sell,
        price: price(at)?,
        qty: qty(10)?,
        client: 9,
    })
}

/// Enters one order, and answers as the book does.
fn enter(
    rt: &impl Abort,
    book: &mut Book,
    product: &Product,
    command: &Command,
    out: &mut Vec<Public>,
    notes: &mut Vec<Note>,
) -> Result<Done, BookRefusal>
    requires product { book.old.roster ≡ roster_of product.now }
    requires few { book.old.applied < 1_000_000 }
    ensures same_product { book.new.roster ≡ book.old.roster }
    ensures one_more { book.new.applied ≤ book.old.applied + 1 }
{
    assert!(rt; command.is_for(product));
    book.apply(command, out, notes)
}

/// Enters so many orders in a security, each of which goes in front of all others.
fn fill(
    rt: &impl Abort,
    book: &mut Book,
    product: &Product,
    filling: &Filling,
    out: &mut Vec<Public>,
    notes: &mut Vec<Note>,
) -> Result<(), Fail>
    requires product { book.old.roster ≡ roster_of product.now }
    requires few { book.old.applied + filling.now.count ≤ 1_000_000 }
    ensures same_product { book.new.roster ≡ book.old.roster }
    ensures applied { book.new.applied ≤ book.old.applied + filling.now.count }
{
    for number in 0..filling.count {
        let id = filling.first.wrapping_add(u32::from(number));
        let command = sell_in(SecurityId(filling.security), 40_000 - i64::from(id))?;
        let answer = enter(rt, book, product, &command, out, notes);
        let wanted = Done {
            order: OrderId(u64::from(id)),
            stamp: stamp(u64::from(id))?,
            count: 0,
        };
        assert_eq!(rt; answer, Ok(wanted));
    }
    Ok(())
}

/// Where the book is full for a security it says so, and refuses a further order.
fn check_full(
    rt: &impl Abort,
    book: &mut Book,
    product: &Product,
    security: SecurityId,
    full: bool,
    out: &mut Vec<Public>,
    notes: &mut Vec<Note>,
) -> Result<(), Fail>
    requires product { book.old.roster ≡ roster_of product.now }
    requires few { book.old.applied < 1_000_000 }
    ensures same_product { book.new.roster ≡ book.old.roster }
    ensures one_more { book.new.applied ≤ book.old.applied + 1 }
{
    assert_eq!(rt; book.is_full(security), full);
    if full {
        let more = sell_in(security, 1)?;
        let answer = enter(rt, book, product, &more, out, notes);
        assert_eq!(rt; answer, Err(BookRefusal::BookFull));
    }
    Ok(())
}

/// Enters the orders of a filling, and sees for which securities the book is full then.
fn fill_and_check(
    rt: &impl Abort,
    book: &mut Book,
    product: &Product,
    filling: &Filling,
    out: &mut Vec<Public>,
    notes: &mut Vec<Note>,
) -> Result<(), Fail>
    requires product { book.old.roster ≡ roster_of product.now }
    requires few { book.old.applied + 70_000 ≤ 1_000_000 }
    ensures same_product { book.new.roster ≡ book.old.roster }
    ensures applied { book.new.applied ≤ book.old.applied + 70_000 }
{
    let [first, second, third] = filling.full;
    fill(rt, book, product, filling, out, notes)?;
    check_full(rt, book, product, FIRST, first, out, notes)?;
    check_full(rt, book, product, SECOND, second, out, notes)?;
    check_full(rt, book, product, THIRD, third, out, notes)
}

/// Enters the orders of all fillings.
fn fill_up(
    rt: &impl Abort,
    book: &mut Book,
    product: &Product,
    out: &mut Vec<Public>,
    notes: &mut Vec<Note>,
) -> Result<(), Fail>
    requires product { book.old.roster ≡ roster_of product.now }
    requires fresh { book.old.applied ≡ 0 }
{
    for filling in &FILLINGS {
        fill_and_check(rt, book, product, filling, out, notes)?;
    }
    assert_eq!(rt; (book.len(), out.len(), notes.len()), (20_000, 20_000, 0));
    assert_eq!(rt; book.last_id(), OrderId(20_000));
    assert!(rt; book.find(DAY, OrderId(20_000)).is_some());
    assert!(rt; book.find(NIGHT, OrderId(20_000)).is_none());
    assert!(rt; book.find(DAY, OrderId(20_001)).is_none());
    Ok(())
}

#[test]
fn a_full_book_takes_no_more(rt: HostRuntime) -> Result<(), Fail> {
    let alloc = rt.alloc();
    let product = product(alloc)?;
    let mut book = Book::new(alloc, &product)?;
    let mut out = Vec::new(alloc);
    let mut notes = Vec::new(alloc);
    fill_up(&rt, &mut book, &product, &mut out, &mut notes)
}
