//! Every answer of a run with its number and its last line.

use crate::{CaptureWhy, Finish, PeerWhy, ScriptWhy, Status, Stop, close};
use std::alloc::Global;
use std::test::Fail;
use t7_base::{MemorySink, ProductWhy};
use t7_layout::{TableFault, TableWhy};

/// What the sink got of the last line, and the answer's number; `None` at a write fault, which is not closed.
fn closed(
    alloc: Global,
    ended: Result<Finish, Stop>,
    failing: &[u64],
) -> Result<Option<(Vec<u8>, u8)>, Fail> {
    let mut sink = MemorySink::new(alloc, 10, 1_000, failing.to_vec(alloc)?)?;
    if ended == Err(Stop::WriteFault) {
        return Ok(None);
    }
    let status = close(ended, &mut sink);
    let written = sink.written().ok_or("the sink tells what it got")?;
    Ok(Some((written.to_vec(alloc)?, status.number())))
}

fn script(row: u32, why: ScriptWhy) -> Result<Finish, Stop> {
    Err(Stop::Script { row, why })
}

fn capture(place: u64, why: CaptureWhy) -> Result<Finish, Stop> {
    Err(Stop::Capture { place, why })
}

#[test]
fn each_end_has_its_number_and_its_last_line(rt: HostRuntime) -> Result<(), Fail> {
    let overlap = TableFault {
        row: 7,
        why: TableWhy::Overlap,
    };
    let missing = Stop::Product {
        row: 10,
        why: ProductWhy::Missing,
    };
    let cases: [(Result<Finish, Stop>, u8, &[u8]); 25] = [
        (Ok(Finish::End(u64::MAX)), 0, b"END 18446744073709551615\n"),
        (Ok(Finish::Text), 0, b""),
        (Err(Stop::Usage), 2, b"usage\n"),
        (Err(Stop::Layout(overlap)), 3, b"layout: row 7: overlap\n"),
        (Err(missing), 4, b"product: row 10: missing\n"),
        (
            script(200_001, ScriptWhy::Long),
            5,
            b"script: row 200001: long\n",
        ),
        (script(1, ScriptWhy::Event), 5, b"script: row 1: event\n"),
        (script(2, ScriptWhy::Number), 5, b"script: row 2: number\n"),
        (
            script(3, ScriptWhy::Connection),
            5,
            b"script: row 3: connection\n",
        ),
        (script(4, ScriptWhy::Client), 5, b"script: row 4: client\n"),
        (script(5, ScriptWhy::Bytes), 5, b"script: row 5: bytes\n"),
        (
            script(6, ScriptWhy::Datagram),
            5,
            b"script: row 6: datagram\n",
        ),
        (Err(Stop::ReadFault), 6, b"read fault\n"),
        (Err(Stop::NetFault), 8, b"net fault\n"),
        (Err(Stop::TooLong), 9, b"too long\n"),
        (Err(Stop::Peer(PeerWhy::Byte(24))), 10, b"peer: byte 24\n"),
        (
            Err(Stop::Peer(PeerWhy::Reject(13))),
            10,
            b"peer: reject 13\n",
        ),
        (Err(Stop::Peer(PeerWhy::Closed)), 10, b"peer: closed\n"),
        (
            Err(Stop::Unfinished { gathered: 502 }),
            11,
            b"unfinished: 502\n",
        ),
        (Err(Stop::Memory), 12, b"memory\n"),
        (Err(Stop::Unbuilt { row: 8 }), 13, b"unbuilt: row 8\n"),
        (
            capture(0, CaptureWhy::Magic),
            14,
            b"capture: byte 0: magic\n",
        ),
        (
            capture(24, CaptureWhy::Header),
            14,
            b"capture: byte 24: header\n",
        ),
        (
            capture(40, CaptureWhy::Record),
            14,
            b"capture: byte 40: record\n",
        ),
        (
            capture(56, CaptureWhy::Length),
            14,
            b"capture: byte 56: length\n",
        ),
    ];
    for (ended, number, line) in &cases {
        let (written, answer) = closed(rt.alloc(), *ended, &[])?.ok_or("it is closed")?;
        assert_eq!(rt; written.as_slice(), *line);
        assert_eq!(rt; answer, *number);
    }
    Ok(())
}

#[test]
fn a_last_line_that_fails_is_a_write_fault(rt: HostRuntime) -> Result<(), Fail> {
    let (written, answer) = closed(rt.alloc(), Err(Stop::Usage), &[1])?.ok_or("it is closed")?;
    assert_eq!(rt; written.as_slice(), b"".as_slice());
    assert_eq!(rt; answer, 7);
    assert_eq!(rt; Status::WriteFault.number(), 7);
    Ok(())
}
