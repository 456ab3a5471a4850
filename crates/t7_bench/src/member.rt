//! Deliveries of both channels, taken by a member.

use std::alloc::Global;
use t7_base::{Feed, Product};
use t7_layout::Table;
use t7_member::{Member, State, Tally};

// The feed of a number: live A and B, snapshot A and B from 0 on.
fn feed_of(number: u32) -> Feed {
    match number {
        0 => Feed::LiveA,
        1 => Feed::LiveB,
        2 => Feed::SnapA,
        _ => Feed::SnapB,
    }
}

// Which state it is, added to the number that it names.
fn state_sum(state: &State) -> u64 {
    match *state {
        State::Wait => 1,
        State::Sync(n) => (n as u64).wrapping_add(1 << 40),
        State::Miss(n) => (n as u64).wrapping_add(2 << 40),
        State::Refused { number, .. } => (number as u64).wrapping_add(3 << 40),
    }
}

fn tally_sum(sum: u64, tally: Tally) -> u64 {
    sum.wrapping_mul(31)
        .wrapping_add(tally.taken)
        .wrapping_mul(31)
        .wrapping_add(tally.fresh)
}

// The stamps and quantities of the orders in the order of the book, added up so that their order counts.
fn orders_sum(member: &Member<'_>) -> u64 {
    let mut sum = 0u64;
    for order in member.orders() {
        sum = sum
            .wrapping_mul(31)
            .wrapping_add(order.stamp.get())
            .wrapping_add(order.qty.units());
    }
    sum
}

// What a member shows, added up: its state, its orders, and the counts of the feeds.
fn member_sum(member: &Member<'_>) -> u64 {
    let mut sum = state_sum(&member.status()).wrapping_add(member.bad());
    sum = tally_sum(sum, member.tally(Feed::LiveA));
    sum = tally_sum(sum, member.tally(Feed::LiveB));
    sum = tally_sum(sum, member.tally(Feed::SnapA));
    sum = tally_sum(sum, member.tally(Feed::SnapB));
    sum.wrapping_add(orders_sum(member))
}

// Takes the deliveries: of each, 65,536 times the number of its feed and its length. Their bytes stand one behind another.
fn deliver_all(member: &mut Member<'_>, deliveries: &[u32], bytes: &[u8]) {
    let mut rest = bytes;
    for delivery in deliveries {
        let Some((datagram, others)) = rest.split_at_checked((*delivery % 65536) as usize) else {
            return;
        };
        let _ = member.deliver(feed_of(*delivery / 65536), datagram);
        rest = others;
    }
}

/// Makes a member of a product that reads by a layout table, and gives it deliveries: of each, 65,536 times the number of its feed
/// (live A and B, snapshot A and B from 0 on) and its length; their bytes stand one behind another. Gives a sum of what
/// the member shows then; 0 where the table or the product is refused or memory is wanting.
#[unsafe(no_mangle)]
pub extern "C" fn t7_bench_member(
    alloc: Global,
    table: &[u8],
    product: &[u8],
    deliveries: &[u32],
    bytes: &[u8],
) -> u64 {
    let (Ok(table), Ok(product)) = (Table::read(alloc, table), Product::read(alloc, product)) else {
        return 0;
    };
    let Ok(mut member) = Member::new(alloc, &table, &product) else {
        return 0;
    };
    deliver_all(&mut member, deliveries, bytes);
    member_sum(&member)
}
