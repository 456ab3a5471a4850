//! A client's connections, against frames that are worked by hand from the manuals' layouts.

use crate::Client;
use std::alloc::{AllocError, Global};
use std::process::Abort;
use std::test::Fail;
use t7_base::{OrderId, Price, Qty, SecurityId, SessionId, Side, Stamp};
use t7_eti::{Kept, Reason};
use t7_layout::Table;
use t7_sample::SAMPLE;

// What comes down: a LogonResponse, a Reject with a SessionRejectReason, an answer with its ApplEndMsgID
// and RefApplLastMsgID, and a NewOrderResponse with its ApplMsgID, which is its OrderID too.
#[derive(Clone, Copy, Debug)]
enum Down {
    LoggedOn,
    Rejected(u8),
    Answer(u8, u8),
    New(u8),
}

// Appends the bytes of a frame.
fn push_frame(stream: &mut Vec<u8>, frame: Down) -> Result<(), AllocError> {
    match frame {
        Down::LoggedOn => stream.extend_from_slice(b"\x10\0\0\0\xc9\0\0\0\x01\0\0\00u\0\0"),
        Down::Rejected(reason) => {
            stream.extend_from_slice(b"\x10\0\0\0\xcc\0\0\0\x01\0\0\0")?;
            stream.extend_from_slice(&[reason, 0, 0, 0])
        }
        Down::Answer(last, known) => {
            stream.extend_from_slice(b"0\0\0\0\xcd\0\0\0\x02\0\0\0\0\0\0\0")?;
            stream.extend_from_slice(&[0; 15])?;
            stream.extend_from_slice(&[last, 0, 0, 0, 0, 0, 0, 0, 0, 0, 0, 0, 0, 0, 0, 0])?;
            stream.extend_from_slice(&[known])
        }
        Down::New(number) => {
            stream.extend_from_slice(b"0\0\0\0\xd3\0\0\0")?;
            stream.extend_from_slice(&[0; 15])?;
            stream.extend_from_slice(&[number, number, 0, 0, 0, 0, 0, 0, 0])?;
            stream.extend_from_slice(b"\x09\0\0\0\0\0\0\0\x01\0\0\0\0\0\0\0")
        }
    }
}

// The bytes of frames, one after another.
fn stream_of(alloc: Global, frames: &[Down]) -> Result<Vec<u8>, AllocError> {
    let mut stream = Vec::new(alloc);
    for frame in frames {
        push_frame(&mut stream, *frame)?;
    }
    Ok(stream)
}

// A client that gathered responses has those of these numbers.
fn assert_responses(rt: &impl Abort, client: &Client<'_>) -> Result<(), Fail> {
    let stamp = Stamp::new(1).ok_or("stamp")?;
    for (i, kept) in client.responses().iter().enumerate() {
        let wanted = Kept::New {
            order: OrderId((i as u64).saturating_add(1)),
            client: 9,
            stamp,
        };
        assert_eq!(rt; *kept, wanted, "{i}");
    }
    Ok(())
}

// A connection in which a client logs on, makes an order and logs out. How many bytes it sends.
fn order_once(
    rt: &impl Abort,
    client: &mut Client<'_>,
    price: Price,
    qty: Qty,
    out: &mut [u8],
) -> Result<usize, Fail> {
    client.dial()?;
    client.down(b"\x10\0\0\0\xc9\0\0\0\x01\0\0\00u\0\0")?;
    assert!(rt; client.logged_on());
    client.order(SecurityId(1001), Side::Buy, price, qty, 9)?;
    client.logout()?;
    let (front, back) = out.split_at_mut(out.len().min(10));
    let count = client.up(front) + client.up(back);
    client.down(b"\x10\0\0\0\xca\0\0\0\x04\0\0\0\0\0\0\0")?;
    Ok(count)
}

#[test]
fn requests_wait_in_their_order(rt: HostRuntime) -> Result<(), Fail> {
    let alloc = rt.alloc();
    let table = Table::read(alloc, SAMPLE.as_bytes())?;
    let price = Price::new(100).ok_or("price")?;
    let qty = Qty::new(50).ok_or("quantity")?;
    let mut out = [0; 160];
    let mut client = Client::new(alloc, &table, SessionId(21))?;
    assert_eq!(rt; order_once(&rt, &mut client, price, qty, &mut out)?, 136);
    assert_eq!(rt; out.get(..24).ok_or("logon")?, LOGON);
    assert_eq!(rt; out.get(24..72).ok_or("request")?, ASKS_FOR_ALL);
    assert_eq!(rt; out.get(72..120).ok_or("order")?, ORDER);
    assert_eq!(rt; out.get(120..136).ok_or("logout")?, LOGOUT);
    assert_eq!(rt; (client.logged_on(), client.pending()), (false, 0));
    Ok(())
}

// The requests for all responses, and for those above number 1, both with MsgSeqNum 2.
const ASKS_FOR_ALL: &[u8] =
    b"0\0\0\0l\0\0\0\x02\0\0\0\0\0\0\0\0\0\0\0\0\0\0\0\0\0\0\0\0\0\0\0\xff\xff\xff\xff\xff\xff\xff\xff\xff\xff\xff\xff\xff\xff\xff\xff";

const ASKS_ABOVE_1: &[u8] =
    b"0\0\0\0l\0\0\0\x02\0\0\0\0\0\0\0\0\0\0\0\0\0\0\0\0\0\0\0\0\0\0\x01\xff\xff\xff\xff\xff\xff\xff\xff\xff\xff\xff\xff\xff\xff\xff\xff";

const LOGON: &[u8] = b"\x18\0\0\0e\0\0\0\x01\0\0\00u\0\0\x15\0\0\0\0\0\0\0";

const ORDER: &[u8] =
    b"0\0\0\0h\0\0\0\x03\0\0\0\x01\0\0\0\xe9\x03\0\0\0\0\0\0\x09\0\0\0\0\0\0\0d\0\0\0\0\0\0\02\0\0\0\0\0\0\0";

const LOGOUT: &[u8] = b"\x10\0\0\0f\0\0\0\x04\0\0\0\0\0\0\0";

// A client dials, hears these frames and sends what waits. How many bytes it sends.
fn connect(
    alloc: Global,
    client: &mut Client<'_>,
    frames: &[Down],
    out: &mut [u8],
) -> Result<usize, Fail> {
    let stream = stream_of(alloc, frames)?;
    client.dial()?;
    let (bytes, _) = stream.split_at(stream.len().min(4096));
    client.down(bytes)?;
    Ok(client.up(out))
}

#[test]
fn a_client_goes_on_after_a_cut(rt: HostRuntime) -> Result<(), Fail> {
    let alloc = rt.alloc();
    let table = Table::read(alloc, SAMPLE.as_bytes())?;
    let mut out = [0; 160];
    let mut client = Client::new(alloc, &table, SessionId(21))?;
    let first = [
        Down::LoggedOn,
        Down::Answer(2, 2),
        Down::New(1),
        Down::Rejected(7),
    ];
    assert_eq!(rt; connect(alloc, &mut client, &first, &mut out)?, 72);
    assert_eq!(rt; out.get(24..72).ok_or("request")?, ASKS_FOR_ALL);
    client.cut();
    assert_eq!(rt;
        (client.logged_on(), client.is_recovered(), client.pending()),
        (false, false, 0)
    );
    assert_eq!(rt; client.rejected(), Some(Reason::UnknownSession));
    let second = [Down::LoggedOn, Down::Answer(2, 2), Down::New(2)];
    assert_eq!(rt; connect(alloc, &mut client, &second, &mut out)?, 72);
    assert_eq!(rt; out.get(24..72).ok_or("request")?, ASKS_ABOVE_1);
    assert_eq!(rt;
        (
            client.rejected(),
            client.responses().len(),
            client.is_recovered()
        ),
        (None, 2, true)
    );
    assert_responses(&rt, &client)
}
