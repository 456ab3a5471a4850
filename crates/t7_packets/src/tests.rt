//! Datagrams of the sample table: how many messages each has, and their bytes.

ghost use Rattle.std.specs.Prelude.{◌≤◌, ◌<◌, IfOk, length};
ghost use Rattle.std.specs.List.{All};
ghost use Rattle.t7_packets.specs.Packing.{IsWritable};

use super::*;
use std::test::Fail;
use t7_base::{Price, Public, Qty, Resting, SecurityId, Side, Stamp};
use t7_layout::Table;
use t7_sample::SAMPLE;

// Datagram 1 of segment 7: message 1, a buy of 50 of security 1001 at 100 with stamp 1.
const LIVE: [u8; 64] = [
    0x10, 0x00, 0x01, 0x00, 0xff, 0xff, 0xff, 0xff, 0x01, 0x00, 0x00, 0x00, 0x07, 0x00, 0x00, 0x00,
    0x30, 0x00, 0x03, 0x00, 0x01, 0x00, 0x00, 0x00, 0xe9, 0x03, 0x00, 0x00, 0x00, 0x00, 0x00, 0x00,
    0x01, 0x00, 0x00, 0x00, 0x00, 0x00, 0x00, 0x00, 0x32, 0x00, 0x00, 0x00, 0x00, 0x00, 0x00, 0x00,
    0x01, 0x00, 0x00, 0x00, 0x00, 0x00, 0x00, 0x00, 0x64, 0x00, 0x00, 0x00, 0x00, 0x00, 0x00, 0x00,
];

// Datagram 9 of segment 7: a heartbeat that names message 3.
const BEAT: [u8; 32] = [
    0x10, 0x00, 0x01, 0x00, 0xff, 0xff, 0xff, 0xff, 0x09, 0x00, 0x00, 0x00, 0x07, 0x00, 0x00, 0x00,
    0x10, 0x00, 0x02, 0x00, 0xff, 0xff, 0xff, 0xff, 0x03, 0x00, 0x00, 0x00, 0x00, 0x00, 0x00, 0x00,
];

const SECURITY: SecurityId = SecurityId(1001);

fn price(number: i64) -> Result<Price, Fail> {
    Ok(Price::new(number).ok_or("price")?)
}

fn qty(number: i64) -> Result<Qty, Fail> {
    Ok(Qty::new(number).ok_or("quantity")?)
}

fn stamp(number: u64) -> Result<Stamp, Fail> {
    Ok(Stamp::new(number).ok_or("stamp")?)
}

// A buy comes to rest.
fn add(number: i64, at: u64, left: i64) -> Result<Public, Fail>
    ensures { IfOk result IsWritable }
{
    let order = Resting {
        security: SECURITY,
        side: Side::Buy,
        price: price(number)?,
        stamp: stamp(at)?,
        qty: qty(left)?,
    };
    Ok(Public::Add { order })
}

// A sell has traded 35, the last of it at 100.
fn summary() -> Result<Public, Fail>
    ensures { IfOk result IsWritable }
{
    Ok(Public::Summary {
        security: SECURITY,
        side: Side::Sell,
        stamp: stamp(5)?,
        last_qty: qty(35)?,
        last_price: price(100)?,
    })
}

// A resting buy of 10 is executed whole.
fn full(number: i64, at: u64) -> Result<Public, Fail>
    ensures { IfOk result IsWritable }
{
    Ok(Public::Full {
        security: SECURITY,
        side: Side::Buy,
        stamp: stamp(at)?,
        price: price(number)?,
        last_qty: qty(10)?,
        last_price: price(number)?,
    })
}

// Of the last resting buy 5 are executed.
fn partial() -> Result<Public, Fail>
    ensures { IfOk result IsWritable }
{
    Ok(Public::Partial {
        security: SECURITY,
        side: Side::Buy,
        stamp: stamp(4)?,
        price: price(100)?,
        last_qty: qty(5)?,
        last_price: price(100)?,
    })
}

// Four buys of 10 come to rest, and a sell of 35 trades with each of them.
fn four_buys_and_a_sell() -> Result<[Public; 9], Fail>
    ensures { IfOk result (λ messages. All IsWritable messages) }
{
    Ok([
        add(103, 1, 10)?,
        add(102, 2, 10)?,
        add(101, 3, 10)?,
        add(100, 4, 10)?,
        summary()?,
        full(103, 1)?,
        full(102, 2)?,
        full(101, 3)?,
        partial()?,
    ])
}

// Packs the messages from one place up to another, each numbered by its place.
fn pack_between(
    table: &Table,
    limit: u32,
    messages: &[Public],
    from: usize,
    to: usize,
    out: &mut [u8],
) -> Packed
    requires writable { All IsWritable messages.now }
    requires some { from < to }
    requires within { to ≤ length messages.now }
    requires few { to ≤ 100 }
    requires limit_least { 256 ≤ limit }
    requires limit_most { limit ≤ 1472 }
    requires room { 1472 ≤ length out.old }
{
    pack(
        table,
        7,
        limit,
        1,
        1 + from as u32,
        &messages[from..to],
        out,
    )
}

#[test]
fn each_datagram_has_the_longest_run(rt: HostRuntime) -> Result<(), Fail> {
    let table = Table::read(rt.alloc(), SAMPLE.as_bytes())?;
    let messages = four_buys_and_a_sell()?;
    let mut out = [0; 1472];
    let cases = [
        // The five commands, each in datagrams of its own.
        (256, 0, 1, 64, 1),
        (256, 1, 2, 64, 1),
        (256, 2, 3, 64, 1),
        (256, 3, 4, 64, 1),
        (256, 4, 9, 232, 4),
        (256, 8, 9, 72, 1),
        // A run that fills the datagram to its last byte, and one byte too few.
        (256, 0, 9, 256, 5),
        (256, 5, 9, 240, 4),
        (311, 0, 9, 256, 5),
        (312, 0, 9, 312, 6),
        (1472, 0, 9, 480, 9),
    ];
    for (limit, from, to, len, used) in cases {
        assert!(rt; 256 <= limit && limit <= 1472 && from < to && to <= 9);
        let packed = pack_between(&table, limit, &messages, from, to, &mut out);
        assert_eq!(rt; packed, Packed { len, used }, "from {from} at {limit}");
        assert_eq!(rt; out[20] as usize, 1 + from, "from {from} at {limit}");
    }
    Ok(())
}

#[test]
fn datagrams_have_known_bytes(rt: HostRuntime) -> Result<(), Fail> {
    let table = Table::read(rt.alloc(), SAMPLE.as_bytes())?;
    let mut out = [0; 1472];
    let message = add(100, 1, 50)?;
    let packed = pack(&table, 7, 1472, 1, 1, &[message], &mut out);
    assert_eq!(rt; &out[..packed.len], LIVE.as_slice());
    let beat = pack_beat(&table, 7, 9, 3, &mut out);
    assert_eq!(rt; &out[..beat], BEAT.as_slice());
    Ok(())
}

#[test]
fn the_last_message_ends_beside_the_end(rt: HostRuntime) -> Result<(), Fail> {
    let table = Table::read(rt.alloc(), SAMPLE.as_bytes())?;
    let mut out = [0; 1472];
    let messages = [add(100, 1, 50)?; 31];
    let packed = pack(&table, 7, 1472, 1, 1, &messages, &mut out);
    assert_eq!(rt;
        packed,
        Packed {
            len: 1456,
            used: 30
        }
    );
    assert_eq!(rt; out[1412], 30);
    assert_eq!(rt; &out[1416..1456], &LIVE[24..]);
    Ok(())
}
