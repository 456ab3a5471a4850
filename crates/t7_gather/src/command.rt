//! The command `gather`: it dials, recovers a session's responses, and prints them.
ghost use Rattle.std.specs.Prelude.{◌≡◌, ◌≤◌, ℕ, Option, None, [], ◌∷◌, Err, IfErr};
ghost use Rattle.t7_base.specs.Outside.{Grew, Rose};
ghost use Rattle.t7_net.specs.Links.{Dialed};
ghost use Rattle.t7_gather.specs.Clauses.{EndsBy, OfGather, OnDial, SentBy, TakesUpTo, WroteBy, conn_of};
ghost use Rattle.t7_gather.specs.Gathering.{client_of, report_at};
ghost use Rattle.t7_gather.specs.Turns.{turns};

use crate::gatherer::{Gatherer, recover};
use std::alloc::Global;
use t7_base::{SessionId, Sink};
use t7_layout::Table;
use t7_net::Link;
use t7_outcome::{Finish, Stop};
use t7_report::put_gathered;

/// Dials the address, recovers the responses of the session, 1..=4,000,000,000, and prints them. No logout is sent, and nothing is closed.
///
/// `count` counts the events that are taken from the link: bytes, openings and closes of any connection, and times when nothing came; it is
/// in 1..=1,000,000,000. After the dial and after each event all is sent that the client has queued. Behind each event these are looked for,
/// and the first that is there ends the run: bytes that are no responses, a Reject, the recovery of all, and a close of the connection.
///
/// It ends with the number of responses. `Peer` and `TooLong` come exactly where the events say so, and `Unfinished` where so many events
/// were taken and none of them ended it; the report is printed only where all is recovered. `NetFault` comes only where the count of
/// `link` rose, also where the dial fails; `WriteFault` only where that of `sink` rose; `Memory` only where memory is wanting.
pub fn gather<L: Link, S: Sink>(
    alloc: Global,
    table: &Table,
    address: &str,
    session: SessionId,
    count: u32,
    link: &mut L,
    sink: &mut S,
) -> Result<Finish, Stop>
    requires { (1 ≤ session) × (session ≤ 4_000_000_000) }

    // It ends as the events say that were taken, but for a fault of the outside and want of memory.
    ensures end { OnDial (L.asked link.old) (L.asked link.new) (L.events link.old) (L.events link.new)
        (λ conn events. EndsBy count conn (client_of table.now session) events result) }

    // The report is written where all is recovered, of which a write fault cuts off the end, and nothing else.
    ensures written { OnDial (L.asked link.old) (L.asked link.new) (L.events link.old) (L.events link.new)
        (λ conn events. Grew (S.written sink.old) (S.written sink.new) (WroteBy (report_at conn (client_of table.now session) events) result)) }

    // The bytes are sent that the client queued, on its connection and in their order, of which a fault of the link or want of memory cuts off
    // the end; and nothing is closed.
    ensures sent { OnDial (L.asked link.old) (L.asked link.new) (L.events link.old) (L.events link.new)
        (λ conn events. Grew (L.sent link.old) (L.sent link.new) (SentBy conn (turns conn (client_of table.now session) events).sent result)) }

    // No more than COUNT events are taken, and none behind one that ended it.
    ensures taken { OnDial (L.asked link.old) (L.asked link.new) (L.events link.old) (L.events link.new)
        (λ conn events. TakesUpTo count conn (client_of table.now session) events) }

    // The address is dialed, and nothing else is asked. Where that fails it is a net fault, and nothing is taken, sent or written.
    ensures asked { Grew (L.asked link.old) (L.asked link.new) (λ asks. (conn : Option ℕ) × (asks ≡ Dialed address.now conn ∷ [])) }
    ensures undialed { Grew (L.asked link.old) (L.asked link.new) (λ asks. conn_of asks ≡ None → (result ≡ Err Stop.NetFault)
        × (L.events link.new ≡ L.events link.old) × (L.sent link.new ≡ L.sent link.old) × (S.written sink.new ≡ S.written sink.old)) }

    // Each stop has its cause.
    ensures only { IfErr result OfGather }
    ensures link_count { L.faults link.old ≤ L.faults link.new }
    ensures net_fault { result ≡ Err Stop.NetFault → Rose (L.faults link.old) (L.faults link.new) }
    ensures sink_count { S.faults sink.old ≤ S.faults sink.new }
    ensures write_fault { result ≡ Err Stop.WriteFault → Rose (S.faults sink.old) (S.faults sink.new) }
{
    let Ok(conn) = link.dial(address) else {
        return Err(Stop::NetFault);
    };
    let Ok(mut gatherer) = Gatherer::new(alloc, table, session, conn) else {
        return Err(Stop::Memory);
    };
    let finish = recover(&mut gatherer, count, link)?;
    put_gathered(true, gatherer.responses(), sink)?;
    Ok(finish)
}
