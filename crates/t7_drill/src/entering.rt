//! Requests, as they go through the exchange.

ghost use Rattle.std.specs.Prelude.{◌≡◌, ◌≤◌, ◌<◌, ◌++◌, [], length, take, OnOk, IfOk};
ghost use Rattle.t7_eti.specs.Requests.{IsAskable};
ghost use Rattle.t7_eti.specs.Saying.{EachOrdinary, request_bytes, request_fields};
ghost use Rattle.t7_entry.specs.Days.{day_after};
ghost use Rattle.t7_entry.specs.Events.{Bytes, Opened};
ghost use Rattle.t7_drill.specs.Entering.{day_asked, some_reject};

use std::alloc::AllocError;
use t7_base::Moment;
use t7_eti::{Request, ordinary_requests_may_be_written, write_request};
use t7_exchange::Exchange;
use t7_layout::Table;

/// A connection is opened, where it isn't open and fewer than 1,024 are.
pub fn open(exchange: &mut Exchange<'_>, conn: u32) -> Result<(), AllocError>
    ensures { OnOk result (exchange.new ≡ day_after exchange.old (Opened conn)) }
{
    if exchange.is_open(conn) || exchange.connections() >= 1024 {
        Ok(())
    } else {
        exchange.opened(conn)
    }
}

// Bytes come on a connection; where it isn't open nothing happens.
fn take(
    exchange: &mut Exchange<'_>,
    conn: u32,
    bytes: &[u8],
    moment: Moment,
) -> Result<(), AllocError>
    ensures { OnOk result (exchange.new ≡ day_after exchange.old (Bytes conn bytes.now moment)) }
{
    if !exchange.is_open(conn) {
        return Ok(());
    }
    match exchange.piece(conn, bytes, moment) {
        Ok(()) => Ok(()),
        Err(_) => Err(AllocError),
    }
}

// All replies that wait are handed out. Whether one of them was a Reject.
fn hand_out(exchange: &mut Exchange<'_>) -> bool
    ensures day { exchange.new ≡ record exchange.old { waiting = [] } }
    ensures rejected { result ≡ some_reject exchange.old.waiting }
{
    let mut frame = [0; 1024];
    let mut rejected = false;
    loop {
        let refusal = exchange.next_refusal();
        let Some(_reply) = exchange.next_reply(&mut frame) else {
            return rejected;
        };
        rejected = rejected || refusal.is_some();
    }
}

// Writes the frame of a request to the front of `out`, and answers its length.
fn frame(table: &Table, request: &Request, out: &mut [u8]) -> usize
    requires room { 1024 ≤ length out.old }
    requires ordinary { EachOrdinary (request_fields request.now) }
    requires askable { IsAskable request.now }
    ensures within { result ≤ length out.old }
    ensures bytes { take result out.new ≡ request_bytes table.now request.now }
{
    ordinary_requests_may_be_written();
    let _templates = table.templates();
    write_request(table, request, out)
}

/// A request comes on a connection, and the replies are handed out. Whether one of them was a Reject.
pub fn ask(
    exchange: &mut Exchange<'_>,
    table: &Table,
    conn: u32,
    request: &Request,
) -> Result<bool, AllocError>
    requires ordinary { EachOrdinary (request_fields request.now) }
    requires askable { IsAskable request.now }
    requires table { table.now ≡ exchange.old.setting.layouts }
    ensures day { OnOk result (exchange.new ≡ record (day_asked conn request.now exchange.old) { waiting = [] }) }
    ensures rejected { IfOk result (λ r. r ≡ some_reject (day_asked conn request.now exchange.old).waiting) }
{
    let Some(moment) = Moment::new(0) else {
        unreachable!()
    };
    let mut buffer = [0; 1024];
    let len = frame(table, request, &mut buffer);
    take(exchange, conn, &buffer[..len], moment)?;
    Ok(hand_out(exchange))
}
