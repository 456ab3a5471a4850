//! The events of a link in memory, cut into those that are taken: what is left of them, and what is found first.
ghost use Rattle.std.specs.Prelude.{◌≡◌, ◌≢◌, ◌+◌, ◌^◌, ◌<◌, ◌≤◌, ◌↔◌, [], length, drop, slice_get, IfSome, IsTrue};
ghost use Rattle.t7_net.specs.Links.{IsPiece};
ghost use Rattle.t7_memory.specs.LinkStates.{FoundIn, IsLeft, behind, given_by, trimmed};

use t7_net::{LinkEvent, LinkItem};

/// An event that was taken of those that were given: the place of the item, and of its bytes where the piece starts and how long it is.
#[derive(Clone, Copy, Debug)]
pub struct Cut {
    pub at: usize,
    pub start: usize,
    pub count: usize,
}

/// The bytes that an event gives.
pub fn count_of(event: LinkEvent) -> usize
    ensures { result ≡ given_by event }
{
    match event {
        LinkEvent::Bytes(_, count) => count,
        _ => 0,
    }
}

/// Whether anything is left of an item, of which so many bytes were taken.
pub fn is_left(item: &LinkItem, start: usize) -> bool
    ensures { IsTrue result ↔ IsLeft item.now start }
{
    match item {
        LinkItem::Bytes(_, bytes) => start < bytes.bytes().len(),
        _ => true,
    }
}

/// The first item of which anything is left.
pub fn first_left(items: &[LinkItem], from: usize, taken: usize) -> (usize, usize)
    requires { from ≤ length items.now }
    ensures within { result.0 ≤ length items.now }
    ensures same { trimmed (behind result.1 (drop result.0 items.now)) ≡ trimmed (behind taken (drop from items.now)) }
    ensures left { IfSome (slice_get items.now result.0) (λ item. IsLeft item result.1) }
{
    let mut at = from;
    let mut start = taken;
    while at < items.len() {
        if is_left(&items[at], start) {
            return (at, start);
        }
        at += 1;
        start = 0;
    }
    (at, start)
}

/// What is found in an item, of which so many bytes were taken.
pub fn front_of(item: &LinkItem, start: usize, into: &mut [u8]) -> LinkEvent
    requires some { into.old ≢ [] }
    requires left { IsLeft item.now start }
    ensures found { FoundIn item.now start result into.new }
    ensures piece { IsPiece result (length into.new) }
    ensures room { start + given_by result < 2 ^ 64 }
{
    match item {
        LinkItem::Opened(conn) => LinkEvent::Opened(*conn),
        LinkItem::Closed(conn) => LinkEvent::Closed(*conn),
        LinkItem::Quiet => LinkEvent::Quiet,
        LinkItem::Bytes(conn, bytes) => {
            let rest = &bytes.bytes()[start..];
            let count = rest.len().min(into.len());
            into[..count].copy_from_slice(&rest[..count]);
            LinkEvent::Bytes(*conn, count)
        }
    }
}
