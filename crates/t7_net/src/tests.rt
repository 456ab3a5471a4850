//! Each real form in one process, on the loopback. Where no port can be had a test passes over what it is to show.
use crate::{Clock, Lines, Link, LinkEvent, RealClock, RealLines, RealLink, Received};
use std::test::Fail;
use std::time::Instant;
use t7_base::Feed;

// Addresses of which one is likely to be free.
const ADDRESSES: [&str; 4] = [
    "127.0.0.1:24117",
    "127.0.0.1:25219",
    "127.0.0.1:27361",
    "127.0.0.1:29483",
];

// An address at which the link listens now.
fn listen_somewhere<L: Link>(link: &mut L) -> Option<&'static str> {
    for address in ADDRESSES {
        if link.listen(address).is_ok() {
            return Some(address);
        }
    }
    None
}

// An address at which the lines hear a feed now.
fn hear_somewhere<D: Lines>(lines: &mut D, feed: Feed) -> Option<&'static str> {
    for address in ADDRESSES {
        if lines.bind(feed, address, true).is_ok() {
            return Some(address);
        }
    }
    None
}

#[test]
fn a_link_that_listens_takes_the_bytes_of_those_that_dial(rt: HostRuntime) -> Result<(), Fail> {
    let mut here = RealLink::new(rt.alloc(), &rt);
    let mut there = RealLink::new(rt.alloc(), &rt);
    let mut into = [0u8; 4096];
    let Some(address) = listen_somewhere(&mut here) else {
        return Ok(());
    };
    assert_eq!(rt; there.dial(address), Ok(1));
    assert_eq!(rt; there.dial(address), Ok(2));
    assert_eq!(rt; here.next(&mut into), LinkEvent::Opened(1));
    assert_eq!(rt; here.next(&mut into), LinkEvent::Opened(2));
    assert_eq!(rt; there.send(2, b"hello"), Ok(()));
    assert_eq!(rt; here.next(&mut into), LinkEvent::Bytes(2, 5));
    assert_eq!(rt; &into[..5], b"hello".as_slice());
    assert_eq!(rt; here.send(1, b"one"), Ok(()));
    assert_eq!(rt; there.next(&mut into), LinkEvent::Bytes(1, 3));
    let start = Instant::now(&rt)?;
    assert_eq!(rt; here.next(&mut into), LinkEvent::Quiet);
    assert!(rt; start.elapsed(&rt)?.as_millis() >= 80);
    there.close(2);
    assert_eq!(rt; here.next(&mut into), LinkEvent::Closed(2));
    assert_eq!(rt; here.send(2, b"gone"), Ok(()));
    here.close(1);
    assert_eq!(rt; there.next(&mut into), LinkEvent::Closed(1));
    assert_eq!(rt; here.next(&mut into), LinkEvent::Quiet);
    assert!(rt; there.dial("no address").is_err());
    Ok(())
}

#[test]
fn lines_that_listen_take_the_datagrams_of_lines_that_cast(rt: HostRuntime) -> Result<(), Fail> {
    let mut here = RealLines::new(&rt);
    let mut there = RealLines::new(&rt);
    let mut into = [0u8; 1473];
    let (Some(live), Some(snap)) = (
        hear_somewhere(&mut here, Feed::LiveB),
        hear_somewhere(&mut here, Feed::SnapA),
    ) else {
        return Ok(());
    };
    assert_eq!(rt; there.bind(Feed::LiveB, live, false), Ok(()));
    assert_eq!(rt; there.bind(Feed::SnapA, snap, false), Ok(()));
    let start = Instant::now(&rt)?;
    assert_eq!(rt; here.receive(&mut into), Received::Quiet);
    assert!(rt; start.elapsed(&rt)?.as_millis() >= 80);
    assert_eq!(rt; there.cast(Feed::LiveB, &[7; 1500]), Ok(()));
    assert_eq!(rt;
        here.receive(&mut into),
        Received::Datagram(Feed::LiveB, 1473)
    );
    assert_eq!(rt; there.cast(Feed::SnapA, b"snap"), Ok(()));
    assert_eq!(rt; here.receive(&mut into), Received::Datagram(Feed::SnapA, 4));
    assert_eq!(rt; &into[..4], b"snap".as_slice());
    assert!(rt; there.cast(Feed::SnapB, b"unbound").is_err());
    assert!(rt; here.cast(Feed::LiveB, b"for listening").is_err());
    assert!(rt; here.bind(Feed::LiveA, "no address", true).is_err());
    Ok(())
}

#[test]
fn the_clock_shows_a_moment_of_this_century(rt: HostRuntime) -> Result<(), Fail> {
    let mut clock = RealClock::new(&rt);
    let first = clock.now();
    let second = clock.now();
    assert!(rt; first.get() > 1_500_000_000_000_000_000);
    assert!(rt; second.get() > 1_500_000_000_000_000_000);
    Ok(())
}
