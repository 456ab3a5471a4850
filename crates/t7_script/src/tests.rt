//! Lines of scripts and of reports, as the manual gives them.

use crate::{Draw, Event, LineRefusal, kept_line, misfit_words, order_line, read_event, sample};
use std::test::Fail;
use t7_base::{Feed, Moment, OrderId, Price, Product, Qty, Resting, SecurityId, Side, Stamp};
use t7_eti::Kept;
use t7_mbook::Misfit;

const PRODUCT: &[u8] =
    b"product,7\nwindow,4\npackets,8\ndatagram,1472\nsecurity,1001,1\nsecurity,1002,1\nsession,21\nsession,22\n";

/// What is read of a line: the event's word and two of its numbers, or the refusal's.
type Said = (&'static str, i64, i64);

fn told(read: &Result<Event, LineRefusal>) -> Said {
    match read {
        Ok(event) => said(event),
        Err(LineRefusal::Event) => ("no event", 0, 0),
        Err(LineRefusal::Number) => ("no number", 0, 0),
        Err(LineRefusal::Memory) => ("no memory", 0, 0),
    }
}

fn said(event: &Event) -> Said {
    match event {
        Event::Raw => ("RAW", 0, 0),
        Event::Opens { conn } => ("OPEN", *conn as i64, 0),
        Event::Input { conn, bytes } => ("IN", *conn as i64, last(bytes.bytes())),
        Event::Cut { conn } => ("CUT", *conn as i64, 0),
        Event::Tick { moment } => ("TICK", moment.get() as i64, 0),
        Event::Snap => ("SNAP", 0, 0),
        Event::Beat => ("BEAT", 0, 0),
        Event::Clear { security } => ("CLEAR", security.0, 0),
        Event::Deliver { feed, number } => ("DELIVER", some(Some(*number)), line(*feed)),
        Event::Forge { feed, bytes } => ("FORGE", last(bytes.bytes()), line(*feed)),
        Event::Dial { conn, session } => ("DIAL", *conn as i64, session.0 as i64),
        Event::Order {
            side,
            price,
            qty,
            ..
        } => ("ORDER", price.get(), sign(*side, qty.get())),
        Event::Up { count } => ("UP", some(*count), 0),
        Event::Down { count } => ("DOWN", some(*count), 0),
        Event::Show => ("SHOW", 0, 0),
        Event::List => ("LIST", 0, 0),
    }
}

fn last(bytes: &[u8]) -> i64 {
    match bytes.last() {
        Some(byte) => *byte as i64,
        None => -1,
    }
}

fn line(feed: Feed) -> i64 {
    match feed {
        Feed::LiveA => 1,
        Feed::LiveB => 2,
        Feed::SnapA => 3,
        Feed::SnapB => 4,
    }
}

fn sign(side: Side, qty: i64) -> i64 {
    match side {
        Side::Buy => qty,
        Side::Sell => qty.saturating_neg(),
    }
}

fn some(count: Option<u64>) -> i64 {
    match count {
        Some(number) => number.min(1_000) as i64,
        None => -1,
    }
}

#[test]
fn each_line_is_its_event_or_the_first_test_that_it_fails(rt: HostRuntime) -> Result<(), Fail> {
    let product = Product::read(rt.alloc(), PRODUCT)?;
    let moment = Moment::new(5).ok_or("moment")?;
    let no_event = ("no event", 0, 0);
    let no_number = ("no number", 0, 0);
    let cases: [(&str, Said); 60] = [
        ("RAW", ("RAW", 0, 0)),
        ("RAW ", no_event),
        ("raw", no_event),
        ("", no_event),
        (" RAW", no_event),
        ("DANCE 1", no_event),
        ("OPEN 1000", ("OPEN", 1000, 0)),
        ("OPEN 1001", no_number),
        ("OPEN 0", no_number),
        ("OPEN 01", no_number),
        ("OPEN", no_event),
        ("OPEN  1", no_event),
        ("OPEN 1 1", no_event),
        ("IN 1 0aFf", ("IN", 1, 255)),
        ("IN 1 0a0", no_number),
        ("IN 1 ", no_number),
        ("IN 1 -", no_number),
        ("IN 1", no_event),
        ("IN 0 00", no_number),
        ("IN 1 0g", no_number),
        ("CUT 7", ("CUT", 7, 0)),
        ("TICK 5", ("TICK", 5, 0)),
        ("TICK 4", no_number),
        (
            "TICK 4611686018427387903",
            ("TICK", 4_611_686_018_427_387_903, 0),
        ),
        ("TICK 4611686018427387904", no_number),
        ("SNAP", ("SNAP", 0, 0)),
        ("BEAT", ("BEAT", 0, 0)),
        ("BEAT 1", no_event),
        ("CLEAR 1002", ("CLEAR", 1002, 0)),
        ("CLEAR 1003", no_number),
        ("LA 1", ("DELIVER", 1, 1)),
        ("LB 2", ("DELIVER", 2, 2)),
        ("SA 3", ("DELIVER", 3, 3)),
        ("SB 18446744073709551616", no_number),
        ("LC 1", no_event),
        ("FORGE LA -", ("FORGE", -1, 1)),
        ("FORGE SB 0102", ("FORGE", 2, 4)),
        ("FORGE LX 0102", no_number),
        ("FORGE LA ", no_number),
        ("DIAL 1 22", ("DIAL", 1, 22)),
        ("DIAL 1 23", no_number),
        ("ORDER 1001 1 100 50 9", ("ORDER", 100, 50)),
        ("ORDER 1001 2 -100 50 9", ("ORDER", -100, -50)),
        ("ORDER 1001 3 100 50 9", no_number),
        ("ORDER 1003 1 100 50 9", no_number),
        ("ORDER 1001 1 -0 50 9", no_number),
        ("ORDER 1001 1 0 50 9", ("ORDER", 0, 50)),
        ("ORDER 1001 1 100000000000000001 50 9", no_number),
        ("ORDER 1001 1 100 0 9", no_number),
        ("ORDER 1001 1 100 1000000000000001 9", no_number),
        ("ORDER 1001 1 100 50 18446744073709551615", no_number),
        (
            "ORDER 1001 1 100 50 18446744073709551614",
            ("ORDER", 100, 50),
        ),
        ("ORDER 1001 1 100 50", no_event),
        ("ORDER 1001 1 100 50 9 9", no_event),
        ("UP *", ("UP", -1, 0)),
        ("UP 20", ("UP", 20, 0)),
        ("DOWN 0", ("DOWN", 0, 0)),
        ("DOWN **", no_number),
        ("SHOW", ("SHOW", 0, 0)),
        ("LIST", ("LIST", 0, 0)),
    ];
    for (line, expected) in cases {
        let read = read_event(rt.alloc(), &product, moment, line.as_bytes());
        assert_eq!(rt; told(&read), expected, "{line}");
    }
    Ok(())
}

fn order() -> Option<Resting> {
    Some(Resting {
        security: SecurityId(1001),
        side: Side::Sell,
        price: Price::new(-100)?,
        stamp: Stamp::new(3)?,
        qty: Qty::new(50)?,
    })
}

fn execution() -> Option<Kept> {
    Some(Kept::Exec {
        order: OrderId(1),
        side: Side::Buy,
        leaves: 25,
        cum: 26,
        last_qty: Qty::new(15)?,
        last_price: Price::new(100)?,
    })
}

fn differs() -> Option<Misfit> {
    Some(Misfit::Quantity {
        kept: Qty::new(7)?,
        said: Qty::new(8)?,
    })
}

#[test]
fn lines_are_written_at_the_front(rt: HostRuntime) -> Result<(), Fail> {
    let mut out = [b'.'; 256];
    let order = order().ok_or("order")?;
    let end = order_line(&order, &mut out);
    assert_eq!(rt; &out[..end], b"1001 S -100 50 3".as_slice());
    assert_eq!(rt; out[end], b'.');
    let execution = execution().ok_or("execution")?;
    let new = Kept::New {
        order: OrderId(1),
        client: 9,
        stamp: order.stamp,
    };
    let cleared = Kept::Cleared {
        security: SecurityId(1001),
        count: 2,
    };
    let cases = [
        (new, b"1 NEW 1 9 3".as_slice()),
        (cleared, b"1 CLEARED 1001 2".as_slice()),
        (execution, b"1 EXEC 1 B 25 26 15 100".as_slice()),
    ];
    for (what, expected) in cases {
        let end = kept_line(1, &what, &mut out);
        assert_eq!(rt; &out[..end], expected);
    }
    let end = misfit_words(&differs().ok_or("misfit")?, &mut out);
    assert_eq!(rt; &out[..end], b"quantity 7 8".as_slice());
    Ok(())
}

// The first draws from a seed: the state times 6364136223846793005 plus 1442695040888963407, cut to 64 bits, gives its upper 31 bits.
#[test]
fn draws(rt: HostRuntime) {
    for (seed, limits, numbers) in [
        (1, [10, 2, 200], [4, 1, 196]),
        (u64::MAX, [10, 1 << 33, 1], [8, 1_490_332_343, 0]),
    ] {
        let mut draw = Draw::new(seed);
        for (limit, number) in limits.iter().zip(&numbers) {
            if *limit > 0 {
                assert_eq!(rt; draw.next(*limit), *number);
            }
        }
    }
    assert_eq!(rt; sample().first(), Some(&b'f'));
}
