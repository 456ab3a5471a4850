//! The requests of a client, as bytes that wait to be sent.

ghost use Rattle.std.specs.Prelude.{◌≡◌, ◌++◌, ◌≤◌, IfOk, OnOk, OnErr};
ghost use Rattle.t7_eti.specs.declared.request.Request.TheVariants as request;
ghost use Rattle.t7_eti.specs.Requests.{IsAskable};
ghost use Rattle.t7_eti.specs.Saying.{EachOrdinary, request_bytes, request_fields, side_number};

use std::alloc::{AllocError, Global};
use t7_base::{SessionId, Side};
use t7_eti::{Request, ordinary_requests_may_be_written, write_request};
use t7_layout::Table;

// How many bytes a request has at most.
const LONGEST: usize = 1024;

/// Appends a request to the bytes that wait. Where memory is wanting, they are as before.
pub(crate) fn push_request(
    table: &Table,
    request: &Request,
    queue: &mut Vec<u8>,
) -> Result<(), AllocError>
    requires ordinary { EachOrdinary (request_fields request.now) }
    requires askable { IsAskable request.now }
    ensures ok { OnOk result (queue.new.items ≡ queue.old.items ++ request_bytes table.now request.now) }
    ensures err { OnErr result (queue.new.items ≡ queue.old.items) }
{
    ordinary_requests_may_be_written();
    table.templates();
    let mut bytes = [0; LONGEST];
    let count = write_request(table, request, &mut bytes);
    queue.extend_from_slice(&bytes[..count])
}

/// A LogonRequest of a session, with number 1 and a HeartBtInt of 30,000.
pub(crate) fn logon(alloc: Global, table: &Table, session: SessionId) -> Result<Vec<u8>, AllocError>
    requires { session ≤ 4_000_000_000 }
    ensures { IfOk result (λ queue. queue.items ≡ request_bytes table.now (request.Logon 1 30_000 session)) }
{
    let mut queue = Vec::new(alloc);
    let request = Request::Logon {
        seq: 1,
        heart: 30_000,
        session: session.0,
    };
    push_request(table, &request, &mut queue)?;
    Ok(queue)
}

/// The number of a side on the wire.
pub(crate) fn side_number(side: Side) -> u8
    ensures { result ≡ side_number side }
{
    match side {
        Side::Buy => 1,
        Side::Sell => 2,
    }
}
