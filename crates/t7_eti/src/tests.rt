//! Messages of the sample table, against bytes that were laid out by hand.

ghost use Rattle.std.specs.Prelude.{◌≤◌, length};

use crate::{
    FieldFault, Kept, Reason, Request, Response, read_number, read_request, read_response,
    write_request, write_response,
};
use std::test::Fail;
use t7_base::{OrderId, Price, Qty, SecurityId, Side, Stamp};
use t7_fields::View;
use t7_layout::{FieldName, Role, Table};
use t7_sample::SAMPLE;

// Messages, and the requests that they are read as.
const REQUESTS: [(Role, &[u8], Result<Request, FieldFault>); 12] = [
    (
        Role::LogonRequest,
        b"\x18\0\0\0e\0\0\0\x01\0\0\00u\0\0\x15\0\0\0\0\0\0\0",
        Ok(Request::Logon {
            seq: 1,
            heart: 30_000,
            session: 21,
        }),
    ),
    (
        Role::LogoutRequest,
        b"\x10\0\0\0f\0\0\0\x09\0\0\0\0\0\0\0",
        Ok(Request::Logout { seq: 9 }),
    ),
    (
        Role::EtiHeartbeat,
        b"\x08\0\0\0g\0\0\0",
        Ok(Request::Heartbeat),
    ),
    (
        Role::NewOrderSingleRequest,
        b"0\0\0\0h\0\0\0\x02\0\0\0\x01\0\0\0\xe9\x03\0\0\0\0\0\0\x09\0\0\0\0\0\0\0d\0\0\0\0\0\0\02\0\0\0\0\0\0\0",
        Ok(Request::New {
            seq: 2,
            security: 1001,
            side: 1,
            price: 100,
            qty: 50,
            client: 9,
        }),
    ),
    (
        Role::ModifyOrderSingleRequest,
        b"0\0\0\0i\0\0\0\x03\0\0\0\0\0\0\0\x07\0\0\0\0\0\0\0\x0a\0\0\0\0\0\0\0\x06\xff\xff\xff\xff\xff\xff\xff\x3c\0\0\0\0\0\0\0",
        Ok(Request::Modify {
            seq: 3,
            order: 7,
            client: 10,
            price: -250,
            qty: 60,
        }),
    ),
    (
        Role::DeleteOrderSingleRequest,
        b"\x20\0\0\0j\0\0\0\x04\0\0\0\0\0\0\0\x07\0\0\0\0\0\0\0\x0b\0\0\0\0\0\0\0",
        Ok(Request::Delete {
            seq: 4,
            order: 7,
            client: 11,
        }),
    ),
    (
        Role::DeleteAllOrderRequest,
        b"\x18\0\0\0k\0\0\0\x05\0\0\0\0\0\0\0\xe9\x03\0\0\0\0\0\0",
        Ok(Request::DeleteAll {
            seq: 5,
            security: 1001,
        }),
    ),
    (
        Role::RetransmitMEMessageRequest,
        b"0\0\0\0l\0\0\0\x06\0\0\0\0\0\0\0\0\0\0\0\0\0\0\0\0\0\0\0\0\0\x01\x02\xff\xff\xff\xff\xff\xff\xff\xff\xff\xff\xff\xff\xff\xff\xff\xff",
        Ok(Request::Resend {
            seq: 6,
            after: 258,
            upto: u128::MAX,
        }),
    ),
    (
        Role::LogonRequest,
        b"\x18\0\0\0e\0\0\0\xff\xff\xff\xff\xff\xff\xff\xff\x15\0\0\0\0\0\0\0",
        Err(FieldFault::Null(FieldName::MsgSeqNum)),
    ),
    (
        Role::NewOrderSingleRequest,
        b"0\0\0\0h\0\0\0\x02\0\0\0\x01\0\0\0\0\0\0\0\0\0\0\x80\xff\xff\xff\xff\xff\xff\xff\xffd\0\0\0\0\0\0\0\0\0\0\0\0\0\0\x80",
        Err(FieldFault::Null(FieldName::SecurityID)),
    ),
    (
        Role::LogonResponse,
        b"\x10\0\0\0\xc9\0\0\0\x01\0\0\00u\0\0",
        Err(FieldFault::NoRole),
    ),
    (
        Role::OrderMassDelete,
        b"\x10\0\x07\0\x01\0\0\0\xe9\x03\0\0\0\0\0\0",
        Err(FieldFault::NoRole),
    ),
];

// Messages, and the numbers of their requests.
const NUMBERS: [(Role, &[u8], Option<u32>); 4] = [
    (
        Role::LogonRequest,
        b"\x18\0\0\0e\0\0\0\x01\0\0\00u\0\0\x15\0\0\0\0\0\0\0",
        Some(1),
    ),
    (Role::EtiHeartbeat, b"\x08\0\0\0g\0\0\0", None),
    (
        Role::LogonRequest,
        b"\x18\0\0\0e\0\0\0\xff\xff\xff\xff\xff\xff\xff\xff\x15\0\0\0\0\0\0\0",
        None,
    ),
    (
        Role::NewOrderSingleRequest,
        b"0\0\0\0h\0\0\0\x02\0\0\0\x01\0\0\0\0\0\0\0\0\0\0\x80\xff\xff\xff\xff\xff\xff\xff\xffd\0\0\0\0\0\0\0\0\0\0\0\0\0\0\x80",
        Some(2),
    ),
];

// Messages, and the responses that they are read as.
const RESPONSES: [(Role, &[u8], Result<Response, FieldFault>); 14] = [
    (
        Role::LogonResponse,
        b"\x10\0\0\0\xc9\0\0\0\x01\0\0\00u\0\0",
        Ok(Response::Logon {
            seq: 1,
            heart: 30_000,
        }),
    ),
    (
        Role::LogoutResponse,
        b"\x10\0\0\0\xca\0\0\0\x09\0\0\0\0\0\0\0",
        Ok(Response::Logout { seq: 9 }),
    ),
    (
        Role::HeartbeatNotification,
        b"\x08\0\0\0\xcb\0\0\0",
        Ok(Response::Beat),
    ),
    (
        Role::Reject,
        b"\x10\0\0\0\xcc\0\0\0\x08\0\0\0\x11\0\0\0",
        Ok(Response::Reject {
            seq: Some(8),
            reason: Reason::BadRange,
        }),
    ),
    (
        Role::Reject,
        b"\x10\0\0\0\xcc\0\0\0\xff\xff\xff\xff\x02\0\0\0",
        Ok(Response::Reject {
            seq: None,
            reason: Reason::BadLength,
        }),
    ),
    (
        Role::RetransmitMEMessageResponse,
        b"0\0\0\0\xcd\0\0\0\x06\0\0\0\x03\0\0\0\0\0\0\0\0\0\0\0\0\0\0\0\0\0\x01\x05\0\0\0\0\0\0\0\0\0\0\0\0\0\x01\x11p",
        Ok(Response::Resent {
            seq: 6,
            count: 3,
            last: 261,
            known: 70_000,
        }),
    ),
    (
        Role::DeleteOrderResponse,
        b"\x28\0\0\0\xd5\0\0\0\0\0\0\0\0\0\0\0\0\0\0\0\0\0\0\x03\x07\0\0\0\0\0\0\0\x0b\0\0\0\0\0\0\0",
        Ok(Response::Kept {
            number: 3,
            what: Kept::Deleted {
                order: OrderId(7),
                client: 11,
            },
        }),
    ),
    (
        Role::DeleteAllOrderResponse,
        b"\x28\0\0\0\xd6\0\0\0\0\0\0\0\0\0\0\0\0\0\0\0\0\0\0\x04\xe9\x03\0\0\0\0\0\0\x02\0\0\0\0\0\0\0",
        Ok(Response::Kept {
            number: 4,
            what: Kept::DeletedAll {
                security: SecurityId(1001),
                count: 2,
            },
        }),
    ),
    (
        Role::DeleteAllOrderBroadcast,
        b"\x28\0\0\0\xd7\0\0\0\0\0\0\0\0\0\0\0\0\0\0\0\0\0\0\x05\xe9\x03\0\0\0\0\0\0\x02\0\0\0\0\0\0\0",
        Ok(Response::Kept {
            number: 5,
            what: Kept::Cleared {
                security: SecurityId(1001),
                count: 2,
            },
        }),
    ),
    (
        Role::LogonRequest,
        b"\x18\0\0\0e\0\0\0\x01\0\0\00u\0\0\x15\0\0\0\0\0\0\0",
        Err(FieldFault::NoRole),
    ),
    (
        Role::NewOrderResponse,
        b"0\0\0\0\xd3\0\0\0\0\0\0\0\0\0\0\0\0\0\0\0\0\0\0\x01\x01\0\0\0\0\0\0\0\xff\xff\xff\xff\xff\xff\xff\xff\0\0\0\0\0\0\0\0",
        Err(FieldFault::Null(FieldName::ClOrdID)),
    ),
    (
        Role::NewOrderResponse,
        b"0\0\0\0\xd3\0\0\0\0\0\0\0\0\0\0\0\0\0\0\0\0\0\0\x01\x01\0\0\0\0\0\0\0\x09\0\0\0\0\0\0\0\0\0\0\0\0\0\0\0",
        Err(FieldFault::Value(FieldName::TrdRegTSTimePriority)),
    ),
    (
        Role::Reject,
        b"\x10\0\0\0\xcc\0\0\0\x01\0\0\0\x12\0\0\0",
        Err(FieldFault::Value(FieldName::SessionRejectReason)),
    ),
    (
        Role::OrderExecNotification,
        b"H\0\0\0\xd8\0\0\0\0\0\0\0\0\0\0\0\0\0\0\0\0\0\x01\0\x07\0\0\0\0\0\0\0\x28\0\0\0\0\0\0\0\x0a\0\0\0\0\0\0\0\x0a\0\0\0\0\0\0\0\x01\0\x8a\x5dxEc\x01\x03\0\0\0\0\0\0\0",
        Err(FieldFault::Value(FieldName::FillPx)),
    ),
];

// The request of the bytes under a role's template, if they are a message of it.
#[tactic(auto, using(crate::proofs::OwnFacts::role_is_own))]
fn request_said(table: &Table, role: Role, bytes: &[u8]) -> Option<Result<Request, FieldFault>> {
    let view = View::of(table.role(role), bytes).ok()?;
    Some(read_request(table, view))
}

// The number of the request that they say.
#[tactic(auto, using(crate::proofs::OwnFacts::role_is_own))]
fn number_said(table: &Table, role: Role, bytes: &[u8]) -> Option<u32> {
    let view = View::of(table.role(role), bytes).ok()?;
    read_number(table, view)
}

// The response.
#[tactic(auto, using(crate::proofs::OwnFacts::role_is_own))]
fn response_said(table: &Table, role: Role, bytes: &[u8]) -> Option<Result<Response, FieldFault>> {
    let view = View::of(table.role(role), bytes).ok()?;
    Some(read_response(table, view))
}

// Writes a logon and a new order.
fn write_logon(table: &Table, out: &mut [u8]) -> usize
    requires { 1024 ≤ length out.old }
{
    let _templates = table.templates();
    let logon = Request::Logon {
        seq: 1,
        heart: 30_000,
        session: 21,
    };
    write_request(table, &logon, out)
}

fn write_order(table: &Table, out: &mut [u8]) -> usize
    requires { 1024 ≤ length out.old }
{
    let _templates = table.templates();
    let order = Request::New {
        seq: 2,
        security: 1001,
        side: 1,
        price: 100,
        qty: 50,
        client: 9,
    };
    write_request(table, &order, out)
}

// Writes the answers to them.
fn write_logged_on(table: &Table, out: &mut [u8]) -> usize
    requires { 1024 ≤ length out.old }
{
    let _templates = table.templates();
    let answer = Response::Logon {
        seq: 1,
        heart: 30_000,
    };
    write_response(table, &answer, out)
}

fn write_accepted(table: &Table, stamp: Stamp, out: &mut [u8]) -> usize
    requires { 1024 ≤ length out.old }
{
    let _templates = table.templates();
    let _number = stamp.get();
    let what = Kept::New {
        order: OrderId(1),
        client: 9,
        stamp,
    };
    write_response(table, &Response::Kept { number: 1, what }, out)
}

#[test]
fn requests_are_read(rt: HostRuntime) -> Result<(), Fail> {
    let table = Table::read(rt.alloc(), SAMPLE.as_bytes())?;
    for &(role, bytes, want) in &REQUESTS {
        assert_eq!(rt; request_said(&table, role, bytes), Some(want));
    }
    for &(role, bytes, want) in &NUMBERS {
        assert_eq!(rt; number_said(&table, role, bytes), want);
    }
    Ok(())
}

#[test]
fn responses_are_read(rt: HostRuntime) -> Result<(), Fail> {
    let table = Table::read(rt.alloc(), SAMPLE.as_bytes())?;
    let stamp = Stamp::new(1).ok_or("stamp")?;
    let last_qty = Qty::new(10).ok_or("quantity")?;
    let last_price = Price::new(-5).ok_or("price")?;
    for &(role, bytes, want) in &RESPONSES {
        assert_eq!(rt; response_said(&table, role, bytes), Some(want));
    }
    let want = Response::Kept {
        number: 1,
        what: Kept::New {
            order: OrderId(1),
            client: 9,
            stamp,
        },
    };
    let bytes =
        b"0\0\0\0\xd3\0\0\0\0\0\0\0\0\0\0\0\0\0\0\0\0\0\0\x01\x01\0\0\0\0\0\0\0\x09\0\0\0\0\0\0\0\x01\0\0\0\0\0\0\0".as_slice();
    assert_eq!(rt;
        response_said(&table, Role::NewOrderResponse, bytes),
        Some(Ok(want))
    );
    let want = Response::Kept {
        number: 2,
        what: Kept::Changed {
            order: OrderId(7),
            client: 10,
            stamp,
        },
    };
    let bytes =
        b"0\0\0\0\xd4\0\0\0\0\0\0\0\0\0\0\0\0\0\0\0\0\0\0\x02\x07\0\0\0\0\0\0\0\x0a\0\0\0\0\0\0\0\x01\0\0\0\0\0\0\0".as_slice();
    assert_eq!(rt;
        response_said(&table, Role::ModifyOrderResponse, bytes),
        Some(Ok(want))
    );
    let want = Response::Kept {
        number: 256,
        what: Kept::Exec {
            order: OrderId(7),
            side: Side::Sell,
            leaves: 40,
            cum: 10,
            last_qty,
            last_price,
        },
    };
    let bytes =
        b"H\0\0\0\xd8\0\0\0\0\0\0\0\0\0\0\0\0\0\0\0\0\0\x01\0\x07\0\0\0\0\0\0\0\x28\0\0\0\0\0\0\0\x0a\0\0\0\0\0\0\0\x0a\0\0\0\0\0\0\0\xfb\xff\xff\xff\xff\xff\xff\xff\x02\0\0\0\0\0\0\0".as_slice();
    assert_eq!(rt;
        response_said(&table, Role::OrderExecNotification, bytes),
        Some(Ok(want))
    );
    Ok(())
}

#[test]
fn messages_are_written(rt: HostRuntime) -> Result<(), Fail> {
    let table = Table::read(rt.alloc(), SAMPLE.as_bytes())?;
    let stamp = Stamp::new(1).ok_or("stamp")?;
    let mut out = [7; 1024];
    let len = write_logon(&table, &mut out);
    assert_eq!(rt;
        out.get(..len).ok_or("length")?,
        b"\x18\0\0\0e\0\0\0\x01\0\0\00u\0\0\x15\0\0\0\0\0\0\0".as_slice()
    );
    let len = write_order(&table, &mut out);
    assert_eq!(rt;
        out.get(..len).ok_or("length")?,
        b"0\0\0\0h\0\0\0\x02\0\0\0\x01\0\0\0\xe9\x03\0\0\0\0\0\0\x09\0\0\0\0\0\0\0d\0\0\0\0\0\0\02\0\0\0\0\0\0\0".as_slice()
    );
    let len = write_logged_on(&table, &mut out);
    assert_eq!(rt;
        out.get(..len).ok_or("length")?,
        b"\x10\0\0\0\xc9\0\0\0\x01\0\0\00u\0\0".as_slice()
    );
    let len = write_accepted(&table, stamp, &mut out);
    assert_eq!(rt;
        out.get(..len).ok_or("length")?,
        b"0\0\0\0\xd3\0\0\0\0\0\0\0\0\0\0\0\0\0\0\0\0\0\0\x01\x01\0\0\0\0\0\0\0\x09\0\0\0\0\0\0\0\x01\0\0\0\0\0\0\0".as_slice()
    );
    assert_eq!(rt; out[48], 7);
    Ok(())
}
