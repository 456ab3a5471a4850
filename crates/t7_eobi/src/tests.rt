//! Datagrams of the sample table, read and written.

ghost use Rattle.std.specs.Prelude.{◌≡◌, ◌≢◌, ◌<◌, ◌≤◌, IfSome, length, pos};
ghost use Rattle.t7_base.specs.declared.public.Public.TheVariants as public;
ghost use Rattle.t7_eobi.specs.Bytes.{IsKnown, IsSecurity, IsSequence, security_of};

mod vectors;

use super::*;
use byteorder::{ByteOrder, LittleEndian};
use std::test::Fail;
use t7_base::{Channel, Price, Public, Qty, Resting, SecurityId, Side, Stamp};
use t7_layout::Table;
use t7_sample::SAMPLE;

// Datagram 1 of segment 7: message 1, a buy of 50 of security 1001 at 100 with stamp 1.
const LIVE: [u8; 64] = [
    0x10, 0x00, 0x01, 0x00, 0xff, 0xff, 0xff, 0xff, 0x01, 0x00, 0x00, 0x00, 0x07, 0x00, 0x00, 0x00,
    0x30, 0x00, 0x03, 0x00, 0x01, 0x00, 0x00, 0x00, 0xe9, 0x03, 0x00, 0x00, 0x00, 0x00, 0x00, 0x00,
    0x01, 0x00, 0x00, 0x00, 0x00, 0x00, 0x00, 0x00, 0x32, 0x00, 0x00, 0x00, 0x00, 0x00, 0x00, 0x00,
    0x01, 0x00, 0x00, 0x00, 0x00, 0x00, 0x00, 0x00, 0x64, 0x00, 0x00, 0x00, 0x00, 0x00, 0x00, 0x00,
];

// Snapshot datagram 5 of segment 7: at message 1, one order of security 1001.
const SNAP: [u8; 96] = [
    0x10, 0x00, 0x01, 0x00, 0xff, 0xff, 0xff, 0xff, 0x05, 0x00, 0x00, 0x00, 0x07, 0x00, 0x00, 0x00,
    0x10, 0x00, 0x0b, 0x00, 0xff, 0xff, 0xff, 0xff, 0x01, 0x00, 0x00, 0x00, 0x00, 0x00, 0x00, 0x00,
    0x18, 0x00, 0x0c, 0x00, 0xff, 0xff, 0xff, 0xff, 0xe9, 0x03, 0x00, 0x00, 0x00, 0x00, 0x00, 0x00,
    0x01, 0x00, 0x00, 0x00, 0x00, 0x00, 0x00, 0x00, 0x28, 0x00, 0x0d, 0x00, 0xff, 0xff, 0xff, 0xff,
    0x01, 0x00, 0x00, 0x00, 0x00, 0x00, 0x00, 0x00, 0x32, 0x00, 0x00, 0x00, 0x00, 0x00, 0x00, 0x00,
    0x01, 0x00, 0x00, 0x00, 0x00, 0x00, 0x00, 0x00, 0x64, 0x00, 0x00, 0x00, 0x00, 0x00, 0x00, 0x00,
];

// Datagram 9 of segment 7: a message 2 of template 99, a heartbeat at 3, and a message of template 99 without a number.
const OTHERS: [u8; 56] = [
    0x10, 0x00, 0x01, 0x00, 0xff, 0xff, 0xff, 0xff, 0x09, 0x00, 0x00, 0x00, 0x07, 0x00, 0x00, 0x00,
    0x10, 0x00, 0x63, 0x00, 0x02, 0x00, 0x00, 0x00, 0x00, 0x00, 0x00, 0x00, 0x00, 0x00, 0x00, 0x00,
    0x10, 0x00, 0x02, 0x00, 0xff, 0xff, 0xff, 0xff, 0x03, 0x00, 0x00, 0x00, 0x00, 0x00, 0x00, 0x00,
    0x08, 0x00, 0x63, 0x00, 0x00, 0x00, 0x00, 0x00,
];

// LIVE with 8 bytes more behind its order, which say nothing.
const LONGER: [u8; 72] = [
    0x10, 0x00, 0x01, 0x00, 0xff, 0xff, 0xff, 0xff, 0x01, 0x00, 0x00, 0x00, 0x07, 0x00, 0x00, 0x00,
    0x38, 0x00, 0x03, 0x00, 0x01, 0x00, 0x00, 0x00, 0xe9, 0x03, 0x00, 0x00, 0x00, 0x00, 0x00, 0x00,
    0x01, 0x00, 0x00, 0x00, 0x00, 0x00, 0x00, 0x00, 0x32, 0x00, 0x00, 0x00, 0x00, 0x00, 0x00, 0x00,
    0x01, 0x00, 0x00, 0x00, 0x00, 0x00, 0x00, 0x00, 0x64, 0x00, 0x00, 0x00, 0x00, 0x00, 0x00, 0x00,
    0xff, 0xff, 0xff, 0xff, 0xff, 0xff, 0xff, 0xff,
];

// The first fault of a datagram of segment 7.
fn fault(table: &Table, channel: Channel, bytes: &[u8]) -> Option<(&'static str, usize)> {
    match Packet::read(table, 7, channel, bytes) {
        Ok(_) => None,
        Err(fault) => Some((fault.why.text(), fault.place)),
    }
}

// The order that LIVE adds.
fn order() -> Option<Resting>
    ensures { IfSome result (λ o. o.security ≡ pos 1001) }
{
    Some(Resting {
        security: SecurityId(1001),
        side: Side::Buy,
        price: Price::new(100)?,
        stamp: Stamp::new(1)?,
        qty: Qty::new(50)?,
    })
}

#[test]
fn one_byte_makes_each_fault(rt: HostRuntime) -> Result<(), Fail> {
    let table = Table::read(rt.alloc(), SAMPLE.as_bytes())?;
    let cases = [
        (Channel::Live, 64, 0, None),
        (Channel::Live, 0, 0x07, Some(("cut", 0))),
        (Channel::Live, 2, 0x02, Some(("no header", 0))),
        (Channel::Live, 0, 0x08, Some(("length", 0))),
        (Channel::Live, 8, 0x00, Some(("value", 0))),
        (Channel::Live, 12, 0x08, Some(("product", 0))),
        (Channel::Live, 16, 0x31, Some(("cut", 16))),
        (Channel::Live, 16, 0x07, Some(("cut", 16))),
        (Channel::Live, 18, 0x04, Some(("length", 16))),
        (Channel::Live, 18, 0x63, None),
        (Channel::Live, 18, 0x0d, None),
        (Channel::Live, 18, 0x01, None),
        (Channel::Live, 20, 0x00, Some(("value", 16))),
        (Channel::Live, 48, 0xff, Some(("null", 16))),
        (Channel::Live, 48, 0x03, Some(("value", 16))),
        (Channel::Snap, 64, 0, None),
        (Channel::Snap, 2, 0x02, Some(("no header", 0))),
        (Channel::Snap, 12, 0x08, Some(("product", 0))),
        (Channel::Snap, 16, 0x31, Some(("cut", 16))),
        (Channel::Snap, 18, 0x04, Some(("length", 16))),
        (Channel::Snap, 18, 0x0d, Some(("value", 16))),
        (Channel::Snap, 20, 0x00, None),
        (Channel::Snap, 48, 0xff, None),
    ];
    for (channel, place, byte, expected) in cases {
        let mut bytes = LIVE;
        if place < 64 {
            bytes[place] = byte;
        }
        assert_eq!(rt; fault(&table, channel, &bytes), expected, "byte {place}");
    }
    Ok(())
}

#[test]
fn a_datagram_is_cut_where_it_ends(rt: HostRuntime) -> Result<(), Fail> {
    let table = Table::read(rt.alloc(), SAMPLE.as_bytes())?;
    for end in 0..65 {
        let expected = match end {
            0..=15 => Some(("cut", 0)),
            16 | 64 => None,
            _ => Some(("cut", 16)),
        };
        assert_eq!(rt;
            fault(&table, Channel::Live, &LIVE[..end]),
            expected,
            "end {end}"
        );
    }
    let two_bytes_behind = [
        0x10, 0x00, 0x01, 0x00, 0xff, 0xff, 0xff, 0xff, 0x01, 0x00, 0x00, 0x00, 0x07, 0x00, 0x00,
        0x00, 0x30, 0x00,
    ];
    assert_eq!(rt;
        fault(&table, Channel::Live, &two_bytes_behind),
        Some(("cut", 16))
    );
    assert_eq!(rt; fault(&table, Channel::Live, &[0; 1472]), Some(("cut", 0)));
    assert_eq!(rt;
        fault(&table, Channel::Live, &[0; 1473]),
        Some(("too long", 1472))
    );
    Ok(())
}

// The order that stands behind a header and the message's own, by the places of the layout.
fn order_in(bytes: &[u8; 64]) -> Option<Resting> {
    Some(Resting {
        security: SecurityId(LittleEndian::read_i64(&bytes[24..32])),
        side: if bytes[48] == 1 {
            Side::Buy
        } else {
            Side::Sell
        },
        price: Price::new(LittleEndian::read_i64(&bytes[56..64]))?,
        stamp: Stamp::new(LittleEndian::read_u64(&bytes[32..40]))?,
        qty: Qty::new(LittleEndian::read_i64(&bytes[40..48]))?,
    })
}

// What LIVE with another byte says: its number, and behind a header that has its length still, one item. A heartbeat names what
// stands where the order's security does.
fn said(bytes: &[u8; 64]) -> Option<(u32, usize, [Option<Live>; 3])> {
    let number = LittleEndian::read_u32(&bytes[20..24]);
    let message = match LittleEndian::read_u16(&bytes[18..20]) {
        2 => return Some((1, 64, [Some(Live::Beat(1001)), None, None])),
        3 => Public::Add {
            order: order_in(bytes)?,
        },
        6 => Public::Delete {
            order: order_in(bytes)?,
        },
        7 => Public::MassDelete {
            security: SecurityId(1001),
        },
        _ => Public::Other,
    };
    let item = if bytes[0] == 16 {
        Some(Live::Message(number, message))
    } else {
        None
    };
    Some((
        LittleEndian::read_u32(&bytes[8..12]),
        64,
        [item, None, None],
    ))
}

// Where a fault of LIVE with another byte is: at its message. A header of another length puts it where the message behind it then begins.
fn is_place(found: usize, place: usize, byte: u8) -> bool {
    let message = if place < 16 { 0 } else { 16 };
    let moved = place == 0 && byte > 16 && found == byte as usize;
    found == message || moved
}

#[test]
fn a_changed_byte_is_in_fault_or_says_something_else(rt: HostRuntime) -> Result<(), Fail> {
    let table = Table::read(rt.alloc(), SAMPLE.as_bytes())?;
    for place in 0..64 {
        for byte in 0..=255 {
            let mut bytes = LIVE;
            bytes[place] = byte;
            match fault(&table, Channel::Live, &bytes) {
                Some((_, found)) => assert!(rt; is_place(found, place, byte), "byte {place}"),
                None => assert_eq!(rt; lives(&table, &bytes), said(&bytes), "byte {place}"),
            }
        }
    }
    Ok(())
}

#[test]
fn a_snapshot_datagram_has_its_faults(rt: HostRuntime) -> Result<(), Fail> {
    let table = Table::read(rt.alloc(), SAMPLE.as_bytes())?;
    let cases = [
        (0, 0x07, Some(("cut", 0))),
        (2, 0x02, Some(("no header", 0))),
        (12, 0x08, Some(("product", 0))),
        (32, 0x10, Some(("length", 32))),
        (80, 0xff, Some(("null", 56))),
        (80, 0x02, None),
        (80, 0x03, Some(("value", 56))),
    ];
    for (place, byte, expected) in cases {
        let mut bytes = SNAP;
        assert!(rt; place < 96);
        bytes[place] = byte;
        assert_eq!(rt;
            fault(&table, Channel::Snap, &bytes),
            expected,
            "byte {place}"
        );
    }
    assert_eq!(rt;
        fault(&table, Channel::Snap, &[0; 1473]),
        Some(("too long", 1472))
    );
    Ok(())
}

// The number, the length and the first items of a live datagram of segment 7.
fn lives(table: &Table, bytes: &[u8]) -> Option<(u32, usize, [Option<Live>; 3])> {
    match Packet::read(table, 7, Channel::Live, bytes) {
        Ok(packet) => {
            let mut walk = packet.live();
            let items = [walk.next(), walk.next(), walk.next()];
            Some((packet.number(), packet.bytes().len(), items))
        }
        Err(_) => None,
    }
}

// The first items of a snapshot datagram of segment 7.
fn snaps(table: &Table, bytes: &[u8]) -> Option<[Option<Snap>; 4]> {
    match Packet::read(table, 7, Channel::Snap, bytes) {
        Ok(packet) => {
            let mut walk = packet.snap();
            Some([walk.next(), walk.next(), walk.next(), walk.next()])
        }
        Err(_) => None,
    }
}

#[test]
fn items_are_read_in_order(rt: HostRuntime) -> Result<(), Fail> {
    let table = Table::read(rt.alloc(), SAMPLE.as_bytes())?;
    let order = order().ok_or("order")?;
    let (side, price, stamp, qty) = (order.side, order.price, order.stamp, order.qty);
    let add = Some(Live::Message(1, Public::Add { order }));
    assert_eq!(rt; lives(&table, &LIVE), Some((1, 64, [add, None, None])));
    let other = Some(Live::Message(2, Public::Other));
    assert_eq!(rt;
        lives(&table, &OTHERS),
        Some((9, 56, [other, Some(Live::Beat(3)), None]))
    );
    let security = SecurityId(1001);
    let items = [
        Some(Snap::Product(1)),
        Some(Snap::Instrument { security, count: 1 }),
        Some(Snap::Order {
            side,
            price,
            stamp,
            qty,
        }),
        None,
    ];
    assert_eq!(rt; snaps(&table, &SNAP), Some(items));
    Ok(())
}

#[test]
fn an_other_message_follows_an_order(rt: HostRuntime) -> Result<(), Fail> {
    let table = Table::read(rt.alloc(), SAMPLE.as_bytes())?;
    let order = order().ok_or("order")?;
    let mut bytes = [0; 80];
    bytes[..64].copy_from_slice(&LIVE);
    bytes[64..].copy_from_slice(&OTHERS[16..32]);
    let add = Some(Live::Message(1, Public::Add { order }));
    let other = Some(Live::Message(2, Public::Other));
    assert_eq!(rt; lives(&table, &bytes), Some((1, 80, [add, other, None])));
    Ok(())
}

// Writes a live message where there is room for no more than it.
fn put_live(table: &Table, number: u32, message: &Public, out: &mut [u8]) -> usize
    requires some { message.now ≢ public.Other }
    requires number { IsSequence number }
    requires security { IsSecurity (security_of message.now) }
    requires room { 128 ≤ length out.old }
    ensures short { result ≤ 128 }
{
    let size = message_size(table, message);
    write_public(table, number, message, &mut out[..size])
}

// Writes an item of a snapshot where there is room for no more than it.
fn put_snap(table: &Table, snap: &Snap, out: &mut [u8]) -> usize
    requires known { IsKnown snap.now }
    requires room { 128 ≤ length out.old }
    ensures short { result ≤ 128 }
{
    let size = snap_size(table, snap);
    write_snap(table, snap, &mut out[..size])
}

#[test]
fn a_further_field_of_the_table_changes_no_order(rt: HostRuntime) -> Result<(), Fail> {
    let (front, back) = SAMPLE.split_once("EOBI,4,").ok_or("rows")?;
    let rows = "EOBI,3,OrderAdd,RequestTime,48,8,U,18446744073709551615\nEOBI,4,";
    let text = format!(in rt.alloc(); "{front}{rows}{back}")?;
    let table = Table::read(rt.alloc(), text.as_bytes())?;
    let order = order().ok_or("order")?;
    let add = Public::Add { order };
    let item = Some(Live::Message(1, add));
    assert_eq!(rt; lives(&table, &LONGER), Some((1, 72, [item, None, None])));
    assert_eq!(rt; fault(&table, Channel::Live, &LIVE), Some(("length", 16)));
    let mut out = [0; 512];
    let header = write_header(&table, 7, 1, &mut out);
    let end = header + put_live(&table, 1, &add, &mut out[header..]);
    assert_eq!(rt; &out[..end], LONGER.as_slice());
    Ok(())
}

#[test]
fn a_live_datagram_is_written(rt: HostRuntime) -> Result<(), Fail> {
    let table = Table::read(rt.alloc(), SAMPLE.as_bytes())?;
    let order = order().ok_or("order")?;
    let mut out = [0; 512];
    let header = write_header(&table, 7, 1, &mut out);
    let add = put_live(&table, 1, &Public::Add { order }, &mut out[header..]);
    assert_eq!(rt; &out[..header + add], LIVE.as_slice());
    let beat = write_beat(&table, 3, &mut out);
    assert_eq!(rt; &out[..beat], &OTHERS[32..48]);
    Ok(())
}

#[test]
fn a_snapshot_datagram_is_written(rt: HostRuntime) -> Result<(), Fail> {
    let table = Table::read(rt.alloc(), SAMPLE.as_bytes())?;
    let order = order().ok_or("order")?;
    let (side, price, stamp, qty) = (order.side, order.price, order.stamp, order.qty);
    let mut out = [0; 512];
    let header = write_header(&table, 7, 5, &mut out);
    let product = header + put_snap(&table, &Snap::Product(1), &mut out[header..]);
    let instrument = Snap::Instrument {
        security: SecurityId(1001),
        count: 1,
    };
    let security = product + put_snap(&table, &instrument, &mut out[product..]);
    let item = Snap::Order {
        side,
        price,
        stamp,
        qty,
    };
    let end = security + put_snap(&table, &item, &mut out[security..]);
    assert_eq!(rt; &out[..end], SNAP.as_slice());
    Ok(())
}
