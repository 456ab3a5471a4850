//! A stamp that isn't the greatest of its price finds its place.

use super::fixture::*;
use t7_base::Side;

#[test]
fn late_stamps_find_their_places(rt: HostRuntime) {
    let mut book = empty_book(&rt, rt.alloc());
    for at in [5, 3, 4] {
        enter(&rt, &mut book, 10, at);
    }
    check_stamps(&rt, &book, &[3, 4, 5]);
    let first = book.first(FIRST, Side::Buy).expect(&rt, "first");
    assert_eq!(rt; first.stamp.get(), 3);
    let found = book.find(FIRST, Side::Buy, stamp(&rt, 4));
    assert_eq!(rt; found, Some(buy(&rt, FIRST, 10, 4)));
    assert!(rt; book.first(FIRST, Side::Sell).is_none());
    assert!(rt; book.find(UNKNOWN, Side::Buy, stamp(&rt, 4)).is_none());
}
