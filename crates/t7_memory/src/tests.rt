//! Each object in memory once: what it gives, notes and refuses.

use crate::{Asking, MemoryClock, MemoryLines, MemoryLink, Sending};
use std::test::Fail;
use t7_base::{Failed, Feed, Moment, Octets};
use t7_net::{Clock, LineItem, Lines, Link, LinkEvent, LinkItem, Received};

#[test]
fn a_link_gives_its_events_in_pieces(rt: HostRuntime) -> Result<(), Fail> {
    let alloc = rt.alloc();
    let mut items = Vec::new(alloc);
    items.push(LinkItem::Opened(7))?;
    items.push(LinkItem::Bytes(7, Octets::new(b"".to_vec(alloc)?)))?;
    items.push(LinkItem::Bytes(7, Octets::new(b"hello".to_vec(alloc)?)))?;
    items.push(LinkItem::Closed(7))?;
    let mut link = MemoryLink::new(alloc, items, 7, 0, [2].to_vec(alloc)?)?;
    let mut into = [0u8; 3];
    assert_eq!(rt; link.next(&mut into), LinkEvent::Opened(7));
    assert_eq!(rt; link.next(&mut into), LinkEvent::Failed);
    assert_eq!(rt; link.next(&mut into), LinkEvent::Bytes(7, 3));
    assert_eq!(rt; into.as_slice(), b"hel".as_slice());
    assert_eq!(rt; link.next(&mut into), LinkEvent::Bytes(7, 2));
    assert!(rt; into.starts_with(b"lo"));
    assert_eq!(rt; link.next(&mut into), LinkEvent::Closed(7));
    assert_eq!(rt; link.next(&mut into), LinkEvent::Quiet);
    Ok(())
}

#[test]
fn a_link_notes_what_is_asked_and_sent(rt: HostRuntime) -> Result<(), Fail> {
    let alloc = rt.alloc();
    let mut link = MemoryLink::new(alloc, Vec::new(alloc), 3, 12, [3].to_vec(alloc)?)?;
    assert_eq!(rt; link.listen("here"), Ok(()));
    assert_eq!(rt; link.send(1, b"some"), Ok(()));
    assert_eq!(rt; link.send(1, b"lost"), Err(Failed));
    let here = (Asking::Listen(true), b"here".as_slice());
    assert_eq!(rt; link.asked_at(0), Some(here));
    assert_eq!(rt;
        link.sent_at(0),
        Some((Sending::Bytes(1), b"some".as_slice()))
    );
    assert_eq!(rt; link.sent_at(1), Some((Sending::Bytes(1), b"".as_slice())));
    Ok(())
}

#[test]
fn the_lines_give_their_receipts_and_note_what_is_cast(rt: HostRuntime) -> Result<(), Fail> {
    let alloc = rt.alloc();
    let mut items = Vec::new(alloc);
    items.push(LineItem::Datagram(Feed::SnapB, Octets::new([7; 1500].to_vec(alloc)?)))?;
    let mut lines = MemoryLines::new(alloc, items, 4, 8, [1].to_vec(alloc)?)?;
    let mut into = [0u8; 1473];
    assert_eq!(rt; lines.receive(&mut into), Received::Failed);
    let whole = Received::Datagram(Feed::SnapB, 1473);
    assert_eq!(rt; lines.receive(&mut into), whole);
    assert_eq!(rt; into[1472], 7);
    assert_eq!(rt; lines.receive(&mut into), Received::Quiet);
    assert_eq!(rt; lines.cast(Feed::LiveA, b"one"), Ok(()));
    assert_eq!(rt; lines.cast_at(0), Some((Feed::LiveA, b"one".as_slice())));
    Ok(())
}

#[test]
fn the_clock_gives_its_last_moment_again(rt: HostRuntime) -> Result<(), Fail> {
    let alloc = rt.alloc();
    let mut moments = Vec::new(alloc);
    moments.push(Moment::new(5).ok_or("no moment")?)?;
    moments.push(Moment::new(9).ok_or("no moment")?)?;
    let mut clock = MemoryClock::new(alloc, moments)?;
    assert_eq!(rt; clock.now().get(), 5);
    assert_eq!(rt; clock.now().get(), 9);
    assert_eq!(rt; clock.now().get(), 9);
    let mut none = MemoryClock::new(alloc, Vec::new(alloc))?;
    assert_eq!(rt; none.now().get(), 0);
    Ok(())
}
