//! Datagrams of the live channel, read and walked.

ghost use Rattle.std.specs.Prelude.{◌≡◌, ◌≤◌};
ghost use Rattle.t7_base.specs.declared.ids.Channel.TheVariants as channels;

use std::alloc::Global;
use t7_base::{Channel, Public, Resting};
use t7_eobi::{Live, Packet};
use t7_layout::Table;

// The numbers of an order, added up.
fn order_sum(order: &Resting) -> u64 {
    order
        .stamp
        .get()
        .wrapping_add(order.qty.units())
        .wrapping_add(order.price.get().unsigned_abs())
        .wrapping_add(order.security.0.unsigned_abs())
}

// The numbers of an item, added up.
fn item_sum(item: &Live) -> u64 {
    match *item {
        Live::Message(number, Public::Add { order }) => {
            order_sum(&order).wrapping_add(number as u64)
        }
        Live::Message(number, _) => number as u64,
        Live::Beat(number) => number as u64,
    }
}

// The numbers of the items of a datagram, added up.
fn walk_sum(packet: &Packet<'_>) -> u64
    requires { packet.now.reading.channel ≡ channels.Live }
{
    let mut sum = 0u64;
    for item in packet.live() {
        sum = sum.wrapping_add(item_sum(&item));
    }
    sum
}

// The sum of a datagram: of its items where it is walked, else its number. 0 where it is refused.
fn datagram_sum(table: &Table, segment: u32, bytes: &[u8], walks: bool) -> u64 {
    match Packet::read(table, segment, Channel::Live, bytes) {
        Ok(packet) => {
            if walks {
                walk_sum(&packet)
            } else {
                packet.number() as u64
            }
        }
        Err(_) => 0,
    }
}

// The sums of datagrams of so many bytes each, added up.
fn turn_sum(table: &Table, segment: u32, datagrams: &[u8], size: usize, walks: bool) -> u64
    requires { 1 ≤ size }
{
    let mut sum = 0u64;
    for bytes in datagrams.chunks_exact(size) {
        sum = sum.wrapping_add(datagram_sum(table, segment, bytes, walks));
    }
    sum
}

// The bytes from a place on.
fn behind(bytes: &[u8], place: usize) -> &[u8] {
    if place > bytes.len() {
        return &[];
    }
    bytes.split_at(place).1
}

/// Reads a layout table, and then so many times the live datagrams of a product, of so many bytes each: in turn from the
/// first, the second, and so on up to the eighth. Gives the sum of their items where they are walked, else of their numbers;
/// 0 where the table is refused.
#[unsafe(no_mangle)]
pub extern "C" fn t7_bench_datagrams(
    alloc: Global,
    table: &[u8],
    segment: u32,
    datagrams: &[u8],
    size: usize,
    walks: bool,
    turns: u32,
) -> u64
    requires some { 1 ≤ size }
    requires most { size ≤ 1472 }
{
    let Ok(table) = Table::read(alloc, table) else {
        return 0;
    };
    let mut sum = 0u64;
    for turn in 0..turns {
        let place = turn as usize % 8 * size;
        let rest = behind(datagrams, place);
        sum = sum.wrapping_add(turn_sum(&table, segment, rest, size, walks));
    }
    sum
}
