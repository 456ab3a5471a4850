//! Datagrams of the sample table and what a member shows, in short words.

use crate::{Delivered, Member, State};
use std::alloc::Global;
use std::process::Abort;
use std::test::Fail;
use t7_base::{Feed, Product, ProductRefusal, SecurityId, Side};

/// A window of four live messages and of eight snapshot datagrams, and two securities.
pub fn product(alloc: Global) -> Result<Product, ProductRefusal> {
    Product::read(
        alloc,
        b"product,7\nwindow,4\npackets,8\ndatagram,1472\nsecurity,1001,1\nsecurity,1002,1\nsession,21\nsession,22\n",
    )
}

/// A resting buy of security 1001: its price, what is left of it, and its stamp.
pub type Buy = (u64, u64, u64);

/// The PacketHeader of segment 7.
fn header(alloc: Global, number: u32) -> Result<Vec<u8>, Fail> {
    let mut bytes = Vec::new(alloc);
    bytes.extend_from_slice(&[16, 0, 1, 0, 255, 255, 255, 255])?;
    bytes.extend_from_slice(&number.to_le_bytes())?;
    bytes.extend_from_slice(&[7, 0, 0, 0])?;
    Ok(bytes)
}

/// Live datagram k with message k: the buy comes to rest.
pub fn live(alloc: Global, k: u32, buy: Buy) -> Result<Vec<u8>, Fail> {
    let mut bytes = header(alloc, k)?;
    bytes.extend_from_slice(&[48, 0, 3, 0])?;
    bytes.extend_from_slice(&k.to_le_bytes())?;
    bytes.extend_from_slice(&1001_u64.to_le_bytes())?;
    bytes.extend_from_slice(&buy.2.to_le_bytes())?;
    bytes.extend_from_slice(&buy.1.to_le_bytes())?;
    bytes.extend_from_slice(&1_u64.to_le_bytes())?;
    bytes.extend_from_slice(&buy.0.to_le_bytes())?;
    Ok(bytes)
}

/// A live datagram with a Heartbeat that names the last message.
pub fn beat(alloc: Global, number: u32, last: u32) -> Result<Vec<u8>, Fail> {
    let mut bytes = header(alloc, number)?;
    bytes.extend_from_slice(&[16, 0, 2, 0, 255, 255, 255, 255])?;
    bytes.extend_from_slice(&last.to_le_bytes())?;
    bytes.extend_from_slice(&[0, 0, 0, 0])?;
    Ok(bytes)
}

/// The InstrumentSummary of a security with a count of orders.
fn instrument(bytes: &mut Vec<u8>, security: u64, count: u64) -> Result<(), Fail> {
    bytes.extend_from_slice(&[24, 0, 12, 0, 255, 255, 255, 255])?;
    bytes.extend_from_slice(&security.to_le_bytes())?;
    bytes.extend_from_slice(&count.to_le_bytes())?;
    Ok(())
}

/// A snapshot datagram that is a whole cycle at m with these buys.
pub fn snapshot(alloc: Global, number: u32, m: u32, buys: &[Buy]) -> Result<Vec<u8>, Fail> {
    let mut bytes = header(alloc, number)?;
    bytes.extend_from_slice(&[16, 0, 11, 0, 255, 255, 255, 255])?;
    bytes.extend_from_slice(&m.to_le_bytes())?;
    bytes.extend_from_slice(&[0, 0, 0, 0])?;
    instrument(&mut bytes, 1001, buys.len() as u64)?;
    for buy in buys {
        bytes.extend_from_slice(&[40, 0, 13, 0, 255, 255, 255, 255])?;
        bytes.extend_from_slice(&buy.2.to_le_bytes())?;
        bytes.extend_from_slice(&buy.1.to_le_bytes())?;
        bytes.extend_from_slice(&1_u64.to_le_bytes())?;
        bytes.extend_from_slice(&buy.0.to_le_bytes())?;
    }
    instrument(&mut bytes, 1002, 0)?;
    Ok(bytes)
}

/// A live datagram with ApplSeqNum 9 and message 4, which deletes an order that doesn't rest.
pub const FORGED: [u8; 64] = [
    16, 0, 1, 0, 255, 255, 255, 255, 9, 0, 0, 0, 7, 0, 0, 0, 48, 0, 6, 0, 4, 0, 0, 0, 233, 3, 0, 0,
    0, 0, 0, 0, 77, 0, 0, 0, 0, 0, 0, 0, 10, 0, 0, 0, 0, 0, 0, 0, 1, 0, 0, 0, 0, 0, 0, 0, 100, 0,
    0, 0, 0, 0, 0, 0,
];

/// A header, and a message that says it is longer than what is there.
pub const CUT: [u8; 20] = [
    16, 0, 1, 0, 255, 255, 255, 255, 1, 0, 0, 0, 7, 0, 0, 0, 48, 0, 0, 0,
];

/// What comes to a member, or what it then shows: live datagram k; a snapshot datagram by its number, with the first m buys of the day; a
/// Heartbeat in a datagram of a number; the forged datagram; and a state beside the first buys of the book.
#[derive(Clone, Copy)]
pub enum Step {
    Live(Feed, u32),
    Snap(Feed, u32, u32),
    Beat(Feed, u32, u32),
    Forged(Feed),
    Shows(State, u32),
}

/// The member takes these bytes.
fn takes(rt: &impl Abort, member: &mut Member<'_>, feed: Feed, bytes: &[u8]) {
    assert_eq!(rt; member.deliver(feed, bytes), Delivered::Taken);
}

/// The member shows this, and these buys in this order.
fn shows(rt: &impl Abort, member: &Member<'_>, state: State, buys: &[Buy]) {
    assert_eq!(rt; member.status(), state);
    let mut orders = member.orders();
    for buy in buys {
        let order = orders.next().expect(rt, "an order");
        assert_eq!(rt; order.security, SecurityId(1001));
        assert_eq!(rt; order.side, Side::Buy);
        assert_eq!(rt; order.stamp.get(), buy.2);
        assert_eq!(rt; i128::from(order.price.get()), i128::from(buy.0));
        assert_eq!(rt; i128::from(order.qty.get()), i128::from(buy.1));
    }
    assert!(rt; orders.next().is_none());
}

/// A day: buy k is its message k; and its book at the end, in the order of the book.
#[derive(Clone, Copy)]
pub struct Day<'a> {
    pub buys: &'a [Buy],
    pub book: &'a [Buy],
}

/// One step of a day.
fn take_step(
    rt: &impl Abort,
    alloc: Global,
    member: &mut Member<'_>,
    day: Day<'_>,
    step: Step,
) -> Result<(), Fail> {
    match step {
        Step::Live(feed, k) => {
            let buy = day.buys.get((k as usize).saturating_sub(1)).copied();
            takes(rt, member, feed, &live(alloc, k, buy.ok_or("buy")?)?);
        }
        Step::Snap(feed, number, m) => {
            let buys = day.buys.get(..m as usize).ok_or("buys")?;
            takes(rt, member, feed, &snapshot(alloc, number, m, buys)?);
        }
        Step::Beat(feed, number, last) => takes(rt, member, feed, &beat(alloc, number, last)?),
        Step::Forged(feed) => takes(rt, member, feed, &FORGED),
        Step::Shows(state, count) => {
            shows(
                rt,
                member,
                state,
                day.book.get(..count as usize).ok_or("book")?,
            );
        }
    }
    Ok(())
}

/// The steps of a day, one after another.
pub fn play(
    rt: &impl Abort,
    alloc: Global,
    member: &mut Member<'_>,
    day: Day<'_>,
    steps: &[Step],
) -> Result<(), Fail> {
    for step in steps {
        take_step(rt, alloc, member, day, *step)?;
    }
    Ok(())
}
