//! Order requests against the table of tests, and the responses of orders against what is worked out by hand.

ghost use Rattle.std.specs.Prelude.{◌≡◌, ◌≤◌, ◌<◌, ◌+◌};
ghost use Rattle.t7_book.specs.Orders.{roster_of};

use crate::{MOST_COMMANDS, answers, command};
use std::alloc::Global;
use std::process::Abort;
use std::test::Fail;
use t7_base::{Moment, OrderId, Product, ProductRefusal, SecurityId, SessionId, Side};
use t7_book::{Book, Command};
use t7_eti::{Kept, Reason, Request};

const DAY: SessionId = SessionId(21);

const NIGHT: SessionId = SessionId(22);

// Three securities, of which the first has prices in steps of 5, and two sessions.
fn product(alloc: Global) -> Result<Product, ProductRefusal> {
    Product::read(
        alloc,
        b"product,7\nwindow,4\npackets,8\ndatagram,1472\nsecurity,1001,5\nsecurity,1002,1\nsecurity,1003,1\nsession,21\nsession,22\n",
    )
}

// An order request as numbers: its kind; the security, or the order; the side; the price; the quantity.
type Asked = [i64; 5];

const ORDER: i64 = 1;

const CHANGE: i64 = 2;

const DELETE: i64 = 3;

const DELETE_ALL: i64 = 4;

fn request_of(asked: Asked, client: u64) -> Option<Request> {
    let [kind, about, side, price, qty] = asked;
    match kind {
        ORDER => Some(Request::New {
            seq: 2,
            security: about,
            side: u8::try_from(side).ok()?,
            price,
            qty,
            client,
        }),
        CHANGE => Some(Request::Modify {
            seq: 2,
            order: about.unsigned_abs(),
            client,
            price,
            qty,
        }),
        DELETE => Some(Request::Delete {
            seq: 2,
            order: about.unsigned_abs(),
            client,
        }),
        DELETE_ALL => Some(Request::DeleteAll {
            seq: 2,
            security: about,
        }),
        _ => None,
    }
}

// What an order request of a session comes to, when so many commands were accepted; nothing for other requests.
fn judge(
    product: &Product,
    book: &Book,
    session: SessionId,
    accepted: u32,
    asked: Asked,
    client: u64,
) -> Option<Result<Command, Reason>>
    requires { book.now.roster ≡ roster_of product.now }
{
    let moment = Moment::new(0)?;
    let request = request_of(asked, client)?;
    match request {
        Request::New { .. }
        | Request::Modify { .. }
        | Request::Delete { .. }
        | Request::DeleteAll { .. } => Some(command(
            product, book, session, accepted, moment, &request,
        )),
        _ => None,
    }
}

// Has the book carry out a command, and gives its responses.
fn play(
    rt: &impl Abort,
    alloc: Global,
    product: &Product,
    book: &mut Book,
    command: &Command,
) -> Result<Vec<(SessionId, Kept)>, Fail>
    requires product { book.old.roster ≡ roster_of product.now }
    requires few { book.old.applied < 1_000_000 }
    ensures same_product { book.new.roster ≡ book.old.roster }
    ensures one_more { book.new.applied ≤ book.old.applied + 1 }
{
    assert!(rt; command.is_for(product));
    let mut out = Vec::new(alloc);
    let mut notes = Vec::new(alloc);
    let done = book.apply(command, &mut out, &mut notes)?;
    assert!(rt; notes.len() <= 64);
    let mut told = Vec::new(alloc);
    told.reserve(2 + 2 * notes.len())?;
    answers(command, &done, &notes, &mut told);
    Ok(told)
}

// Has the book carry out an order request of a session, which is to pass its tests, and gives the responses.
fn enter(
    rt: &impl Abort,
    alloc: Global,
    product: &Product,
    book: &mut Book,
    session: SessionId,
    asked: Asked,
    client: u64,
) -> Result<Vec<(SessionId, Kept)>, Fail>
    requires product { book.old.roster ≡ roster_of product.now }
    requires few { book.old.applied < 1_000_000 }
    ensures same_product { book.new.roster ≡ book.old.roster }
    ensures one_more { book.new.applied ≤ book.old.applied + 1 }
{
    let command = judge(product, book, session, 0, asked, client).ok_or("no order")??;
    play(rt, alloc, product, book, &command)
}

// Enters so many orders of one unit on a side of a security, at rising prices, so that a buy goes in front of those before it.
fn fill(
    rt: &impl Abort,
    alloc: Global,
    product: &Product,
    book: &mut Book,
    security: i64,
    count: u64,
) -> Result<(), Fail>
    requires product { book.old.roster ≡ roster_of product.now }
    requires few { book.old.applied + count ≤ 1_000_000 }
    ensures same_product { book.new.roster ≡ book.old.roster }
    ensures applied { book.new.applied ≤ book.old.applied + count }
{
    for number in 0..count {
        let asked = [ORDER, security, 1, 200 + 5 * number as i64, 1];
        let _ = enter(rt, alloc, product, book, NIGHT, asked, 9)?;
    }
    Ok(())
}

// A request that comes when so many commands were accepted, and the reason for which it is refused.
type Case = (u32, Asked, Option<Reason>);

// What the requests of the first session are refused for.
fn assert_judged(
    rt: &impl Abort,
    product: &Product,
    book: &Book,
    cases: &[Case],
) -> Result<(), Fail>
    requires { book.now.roster ≡ roster_of product.now }
{
    for case in cases {
        let (accepted, asked, reason) = *case;
        let judged = judge(product, book, DAY, accepted, asked, 9).ok_or("no order")?;
        assert_eq!(rt; judged.err(), reason, "{asked:?} behind {accepted}");
    }
    Ok(())
}

const MOST_PRICE: i64 = 100_000_000_000_000_000;

const MOST_QTY: i64 = 1_000_000_000_000_000;

const LAST: u32 = MOST_COMMANDS - 1;

// Each test at the ends of its range: of order 1, a buy of 50 at 100 of the first session, 20 are executed; order 2 is used
// up, and order 3 is the other session's.
static ENDS: [Case; 40] = [
    (0, [ORDER, 1000, 1, 100, 1], Some(Reason::UnknownSecurity)),
    (0, [ORDER, 1001, 0, 100, 1], Some(Reason::BadSide)),
    (0, [ORDER, 1001, 1, 100, 1], None),
    (0, [ORDER, 1001, 2, 100, 1], None),
    (0, [ORDER, 1001, 3, 100, 1], Some(Reason::BadSide)),
    (0, [ORDER, 1001, 1, MOST_PRICE, 1], None),
    (
        0,
        [ORDER, 1002, 1, MOST_PRICE + 1, 1],
        Some(Reason::BadPrice),
    ),
    (0, [ORDER, 1001, 1, -MOST_PRICE, 1], None),
    (
        0,
        [ORDER, 1002, 1, -MOST_PRICE - 1, 1],
        Some(Reason::BadPrice),
    ),
    (0, [ORDER, 1001, 1, 99, 1], Some(Reason::BadPrice)),
    (0, [ORDER, 1001, 1, 101, 1], Some(Reason::BadPrice)),
    (0, [ORDER, 1002, 1, 101, 1], None),
    (0, [ORDER, 1001, 1, 0, 1], None),
    (0, [ORDER, 1001, 1, -4, 1], Some(Reason::BadPrice)),
    (0, [ORDER, 1001, 1, -5, 1], None),
    (0, [ORDER, 1001, 1, -6, 1], Some(Reason::BadPrice)),
    (0, [ORDER, 1001, 1, 100, -1], Some(Reason::BadQty)),
    (0, [ORDER, 1001, 1, 100, 0], Some(Reason::BadQty)),
    (0, [ORDER, 1001, 1, 100, MOST_QTY], None),
    (0, [ORDER, 1001, 1, 100, MOST_QTY + 1], Some(Reason::BadQty)),
    (0, [CHANGE, 0, 0, 100, 50], Some(Reason::UnknownOrder)),
    (0, [CHANGE, 2, 0, 100, 50], Some(Reason::UnknownOrder)),
    (0, [CHANGE, 3, 0, 100, 50], Some(Reason::UnknownOrder)),
    (0, [CHANGE, 1, 0, 101, 50], Some(Reason::BadPrice)),
    (
        0,
        [CHANGE, 1, 0, MOST_PRICE + 5, 50],
        Some(Reason::BadPrice),
    ),
    (0, [CHANGE, 1, 0, 100, 0], Some(Reason::BadQty)),
    (0, [CHANGE, 1, 0, 100, MOST_QTY + 1], Some(Reason::BadQty)),
    (0, [CHANGE, 1, 0, 100, 1], Some(Reason::BelowExecuted)),
    (0, [CHANGE, 1, 0, 100, 20], Some(Reason::BelowExecuted)),
    (0, [CHANGE, 1, 0, 100, 21], None),
    (0, [DELETE, 3, 0, 0, 0], Some(Reason::UnknownOrder)),
    (LAST, [DELETE, 1, 0, 0, 0], None),
    (MOST_COMMANDS, [DELETE, 1, 0, 0, 0], Some(Reason::DayFull)),
    (
        0,
        [DELETE_ALL, 1004, 0, 0, 0],
        Some(Reason::UnknownSecurity),
    ),
    (LAST, [DELETE_ALL, 1003, 0, 0, 0], None),
    (
        MOST_COMMANDS,
        [DELETE_ALL, 1003, 0, 0, 0],
        Some(Reason::DayFull),
    ),
    (LAST, [ORDER, 1001, 1, 100, 1], None),
    (
        MOST_COMMANDS,
        [ORDER, 1001, 1, 100, 1],
        Some(Reason::DayFull),
    ),
    (
        MOST_COMMANDS + 1,
        [ORDER, 1001, 1, 100, 1],
        Some(Reason::DayFull),
    ),
    (
        MOST_COMMANDS,
        [CHANGE, 1, 0, 100, 21],
        Some(Reason::DayFull),
    ),
];

// The second security has 10,000 orders, and the others have room.
static FULL_SECURITY: [Case; 2] = [
    (0, [ORDER, 1002, 1, 100, 1], Some(Reason::BookFull)),
    (0, [ORDER, 1001, 1, 100, 1], None),
];

// Each test is the first to fail, while each later one that can fails too: the day is full, and so is the book.
static FULL_BOOK: [Case; 14] = [
    (
        MOST_COMMANDS,
        [ORDER, 1004, 3, MOST_PRICE + 1, 0],
        Some(Reason::UnknownSecurity),
    ),
    (
        MOST_COMMANDS,
        [DELETE_ALL, 1004, 0, 0, 0],
        Some(Reason::UnknownSecurity),
    ),
    (
        MOST_COMMANDS,
        [ORDER, 1001, 3, 101, 0],
        Some(Reason::BadSide),
    ),
    (
        MOST_COMMANDS,
        [CHANGE, 3, 0, 101, 0],
        Some(Reason::UnknownOrder),
    ),
    (
        MOST_COMMANDS,
        [DELETE, 3, 0, 0, 0],
        Some(Reason::UnknownOrder),
    ),
    (
        MOST_COMMANDS,
        [ORDER, 1001, 1, 101, 0],
        Some(Reason::BadPrice),
    ),
    (
        MOST_COMMANDS,
        [CHANGE, 1, 0, 101, 0],
        Some(Reason::BadPrice),
    ),
    (
        MOST_COMMANDS,
        [ORDER, 1001, 1, 100, 0],
        Some(Reason::BadQty),
    ),
    (MOST_COMMANDS, [CHANGE, 1, 0, 100, 0], Some(Reason::BadQty)),
    (
        MOST_COMMANDS,
        [CHANGE, 1, 0, 100, 20],
        Some(Reason::BelowExecuted),
    ),
    (
        MOST_COMMANDS,
        [ORDER, 1001, 1, 100, 1],
        Some(Reason::DayFull),
    ),
    (LAST, [ORDER, 1001, 1, 100, 1], Some(Reason::BookFull)),
    (LAST, [ORDER, 1003, 2, 100, 1], Some(Reason::BookFull)),
    (LAST, [CHANGE, 1, 0, 100, 21], None),
];

#[test]
fn the_first_failing_test_is_the_answer(rt: HostRuntime) -> Result<(), Fail> {
    let alloc = rt.alloc();
    let product = product(alloc)?;
    let mut book = Book::new(alloc, &product)?;
    let _ = enter(
        &rt,
        alloc,
        &product,
        &mut book,
        DAY,
        [ORDER, 1001, 1, 100, 50],
        9,
    )?;
    let _ = enter(
        &rt,
        alloc,
        &product,
        &mut book,
        NIGHT,
        [ORDER, 1001, 2, 100, 20],
        9,
    )?;
    let _ = enter(
        &rt,
        alloc,
        &product,
        &mut book,
        NIGHT,
        [ORDER, 1001, 1, 95, 10],
        9,
    )?;
    assert_judged(&rt, &product, &book, &ENDS)?;
    fill(&rt, alloc, &product, &mut book, 1002, 10_000)?;
    assert_judged(&rt, &product, &book, &FULL_SECURITY)?;
    fill(&rt, alloc, &product, &mut book, 1001, 9_998)?;
    assert_judged(&rt, &product, &book, &FULL_BOOK)
}

// A response as numbers: the session that stores it, its kind, and its fields, with zeros behind them.
type Row = [i128; 8];

const NEW: i128 = 1;

const CHANGED: i128 = 2;

const DELETED: i128 = 3;

const DELETED_ALL: i128 = 4;

const CLEARED: i128 = 5;

const EXEC: i128 = 6;

fn side_number(side: Side) -> i128 {
    match side {
        Side::Buy => 1,
        Side::Sell => 2,
    }
}

fn row(told: &(SessionId, Kept)) -> Row {
    let session = told.0.0 as i128;
    match told.1 {
        Kept::New {
            order,
            client,
            stamp,
        } => [
            session,
            NEW,
            order.0 as i128,
            client as i128,
            stamp.get() as i128,
            0,
            0,
            0,
        ],
        Kept::Changed {
            order,
            client,
            stamp,
        } => [
            session,
            CHANGED,
            order.0 as i128,
            client as i128,
            stamp.get() as i128,
            0,
            0,
            0,
        ],
        Kept::Deleted { order, client } => [
            session,
            DELETED,
            order.0 as i128,
            client as i128,
            0,
            0,
            0,
            0,
        ],
        Kept::DeletedAll { security, count } => [
            session,
            DELETED_ALL,
            security.0 as i128,
            count as i128,
            0,
            0,
            0,
            0,
        ],
        Kept::Cleared { security, count } => [
            session,
            CLEARED,
            security.0 as i128,
            count as i128,
            0,
            0,
            0,
            0,
        ],
        Kept::Exec {
            order,
            side,
            leaves,
            cum,
            last_qty,
            last_price,
        } => [
            session,
            EXEC,
            order.0 as i128,
            side_number(side),
            leaves as i128,
            cum as i128,
            last_qty.get() as i128,
            last_price.get() as i128,
        ],
    }
}

// Responses are these rows.
fn assert_told(rt: &impl Abort, told: &[(SessionId, Kept)], wanted: &[Row]) {
    assert_eq!(rt; told.len(), wanted.len());
    for (one, want) in told.iter().zip(wanted) {
        assert_eq!(rt; row(one), *want);
    }
}

// The requests of sessions, and what each is told.
struct Told {
    session: u32,
    asked: Asked,
    client: u64,
    rows: &'static [Row],
}

// Orders that rest, are changed so that they trade, are changed in place and go; the numbers of an order that trades in turn.
static TALE: [Told; 9] = [
    Told {
        session: 21,
        asked: [ORDER, 1001, 1, 100, 50],
        client: 9,
        rows: &[[21, NEW, 1, 9, 1, 0, 0, 0]],
    },
    Told {
        session: 21,
        asked: [ORDER, 1001, 2, 105, 20],
        client: 10,
        rows: &[[21, NEW, 2, 10, 2, 0, 0, 0]],
    },
    Told {
        session: 21,
        asked: [CHANGE, 1, 0, 105, 60],
        client: 11,
        rows: &[
            [21, CHANGED, 1, 11, 3, 0, 0, 0],
            [21, EXEC, 1, 1, 40, 20, 20, 105],
            [21, EXEC, 2, 2, 0, 20, 20, 105],
        ],
    },
    Told {
        session: 21,
        asked: [CHANGE, 1, 0, 105, 50],
        client: 12,
        rows: &[[21, CHANGED, 1, 12, 3, 0, 0, 0]],
    },
    Told {
        session: 22,
        asked: [ORDER, 1001, 1, 105, 7],
        client: 13,
        rows: &[[22, NEW, 3, 13, 4, 0, 0, 0]],
    },
    Told {
        session: 22,
        asked: [ORDER, 1001, 2, 100, 35],
        client: 14,
        rows: &[
            [22, NEW, 4, 14, 5, 0, 0, 0],
            [22, EXEC, 4, 2, 5, 30, 30, 105],
            [21, EXEC, 1, 1, 0, 50, 30, 105],
            [22, EXEC, 4, 2, 0, 35, 5, 105],
            [22, EXEC, 3, 1, 2, 5, 5, 105],
        ],
    },
    Told {
        session: 22,
        asked: [DELETE, 3, 0, 0, 0],
        client: 15,
        rows: &[[22, DELETED, 3, 15, 0, 0, 0, 0]],
    },
    Told {
        session: 21,
        asked: [ORDER, 1002, 1, 3, 4],
        client: 16,
        rows: &[[21, NEW, 5, 16, 6, 0, 0, 0]],
    },
    Told {
        session: 21,
        asked: [DELETE_ALL, 1002, 0, 0, 0],
        client: 0,
        rows: &[[21, DELETED_ALL, 1002, 1, 0, 0, 0, 0]],
    },
];

// Clears a security.
fn clear(
    rt: &impl Abort,
    alloc: Global,
    product: &Product,
    book: &mut Book,
    security: i64,
) -> Result<Vec<(SessionId, Kept)>, Fail>
    requires product { book.old.roster ≡ roster_of product.now }
    requires few { book.old.applied < 1_000_000 }
    ensures same_product { book.new.roster ≡ book.old.roster }
    ensures one_more { book.new.applied ≤ book.old.applied + 1 }
{
    let command = Command::Clear {
        moment: Moment::new(0).ok_or("moment")?,
        security: SecurityId(security),
    };
    play(rt, alloc, product, book, &command)
}

// Plays the tale from an empty book.
fn assert_tale(rt: &impl Abort, alloc: Global, product: &Product) -> Result<(), Fail> {
    let mut book = Book::new(alloc, product)?;
    for told in &TALE {
        let session = SessionId(told.session);
        let responses = enter(
            rt,
            alloc,
            product,
            &mut book,
            session,
            told.asked,
            told.client,
        )?;
        assert_told(rt, &responses, told.rows);
    }
    Ok(())
}

// An order of 600 from which 501 orders of 1 take in turn.
fn assert_trades(rt: &impl Abort, alloc: Global, product: &Product) -> Result<(), Fail> {
    let mut book = Book::new(alloc, product)?;
    let told = enter(
        rt,
        alloc,
        product,
        &mut book,
        DAY,
        [ORDER, 1001, 1, 100, 600],
        9,
    )?;
    assert_told(rt, &told, &[[21, NEW, 1, 9, 1, 0, 0, 0]]);
    for order in 2..503 {
        let asked = [ORDER, 1001, 2, 100, 1];
        let told = enter(rt, alloc, product, &mut book, NIGHT, asked, order)?;
        let number = order as i128;
        let rows = [
            [22, NEW, number, number, number, 0, 0, 0],
            [22, EXEC, number, 2, 0, 1, 1, 100],
            [21, EXEC, 1, 1, 601 - number, number - 1, 1, 100],
        ];
        assert_told(rt, &told, &rows);
    }
    Ok(())
}

#[test]
fn each_command_has_its_responses(rt: HostRuntime) -> Result<(), Fail> {
    let alloc = rt.alloc();
    let product = product(alloc)?;
    assert_tale(&rt, alloc, &product)?;
    assert_trades(&rt, alloc, &product)
}

// Two orders of a session are cleared together, which it is told once; where none rests nobody is told.
#[test]
fn a_clear_tells_each_owner_once(rt: HostRuntime) -> Result<(), Fail> {
    let alloc = rt.alloc();
    let product = product(alloc)?;
    let mut book = Book::new(alloc, &product)?;
    let _ = enter(
        &rt,
        alloc,
        &product,
        &mut book,
        DAY,
        [ORDER, 1001, 1, 100, 50],
        9,
    )?;
    let _ = enter(
        &rt,
        alloc,
        &product,
        &mut book,
        DAY,
        [ORDER, 1001, 2, 105, 20],
        10,
    )?;
    let told = clear(&rt, alloc, &product, &mut book, 1001)?;
    assert_told(&rt, &told, &[[21, CLEARED, 1001, 2, 0, 0, 0, 0]]);
    let told = clear(&rt, alloc, &product, &mut book, 1002)?;
    assert_told(&rt, &told, &[]);
    Ok(())
}
