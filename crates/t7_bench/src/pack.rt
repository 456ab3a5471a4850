//! Live datagrams, packed from new orders.

ghost use Rattle.std.specs.Prelude.{◌≤◌, ◌<◌, IfOk, IfSome, length};
ghost use Rattle.std.specs.List.{All};
ghost use Rattle.t7_eobi.specs.Bytes.{IsSecurity};
ghost use Rattle.t7_packets.specs.Packing.{IsWritable};

use std::alloc::{AllocError, Global};
use t7_base::{Price, Public, Qty, Resting, SecurityId, Side, Stamp};
use t7_layout::Table;
use t7_packets::pack;

// How many numbers an order has.
const NUMBERS: usize = 5;
// The most orders that are packed.
const MOST: usize = 1000;

const SEGMENT: u32 = 7;

const LIMIT: u32 = 1472;

// The security of a number, where it can be written.
fn security_of(number: i64) -> Option<SecurityId>
    ensures { IfSome result IsSecurity }
{
    if number > i64::MIN {
        Some(SecurityId(number))
    } else {
        None
    }
}

// The new order that numbers say: a security, a side, a stamp, a price and a quantity.
fn add_of(numbers: &[i64]) -> Option<Public>
    ensures { IfSome result IsWritable }
{
    let [security, side, stamp, price, qty] = numbers else {
        return None;
    };
    let order = Resting {
        security: security_of(*security)?,
        side: if *side == 1 { Side::Buy } else { Side::Sell },
        price: Price::new(*price)?,
        stamp: Stamp::new(u64::try_from(*stamp).ok()?)?,
        qty: Qty::new(*qty)?,
    };
    Some(Public::Add { order })
}

// The new orders that numbers say.
fn adds_of(alloc: Global, numbers: &[i64]) -> Result<Vec<Public>, AllocError>
    ensures { IfOk result (λ v. All IsWritable v.items) }
{
    let mut adds = Vec::new(alloc);
    for row in numbers.chunks_exact(NUMBERS) {
        if let Some(add) = add_of(row) {
            adds.push(add)?;
        }
    }
    Ok(adds)
}

// Packs a datagram of these orders so many times, and adds up how long it was and, in turn, one of its first bytes.
fn pack_sum(table: &Table, adds: &[Public], turns: u32) -> u64
    requires some { 0 < length adds.now }
    requires few { length adds.now ≤ 1000 }
    requires writable { All IsWritable adds.now }
{
    let mut out = [0u8; LIMIT as usize];
    let mut sum = 0u64;
    for turn in 0..turns {
        let number = turn % 1_000_000 + 1;
        let packed = pack(table, SEGMENT, LIMIT, number, number, adds, &mut out);
        sum = sum
            .wrapping_add(packed.len as u64)
            .wrapping_add(out[turn as usize % 64] as u64);
    }
    sum
}

/// Reads a layout table and new orders of five numbers each, at most 1,000, and packs a datagram of them so many times. Gives
/// how long the datagrams were, added up with one of the first 64 bytes of each in turn; 0 where the table is refused, there
/// are no orders or too many, or memory is wanting.
#[unsafe(no_mangle)]
pub extern "C" fn t7_bench_pack(alloc: Global, table: &[u8], numbers: &[i64], turns: u32) -> u64 {
    let Ok(table) = Table::read(alloc, table) else {
        return 0;
    };
    match adds_of(alloc, numbers) {
        Ok(adds) if !adds.is_empty() && adds.len() <= MOST => pack_sum(&table, &adds, turns),
        _ => 0,
    }
}
