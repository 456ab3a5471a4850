//! The exchange's command: it listens, binds the four feeds, takes events, and sends and casts what comes of them.
ghost use Rattle.std.specs.Prelude.{◌≡◌, ◌≤◌, ◌⊎◌, [], ◌∷◌, Err, IfErr, IfOk, false, length};
ghost use Rattle.t7_base.specs.Outside.{Begins, Grew, HasCause, Rose};
ghost use Rattle.t7_feed.specs.Arrivals.{Terms};
ghost use Rattle.t7_feed.specs.Sending.{AreActs};
ghost use Rattle.t7_net.specs.Lines.{Bind};
ghost use Rattle.t7_net.specs.Links.{Listened};
ghost use Rattle.t7_outcome.specs.Outcome.{Ends};
ghost use Rattle.t7_serve.specs.Clauses.{AsksFor, CastAt, ListensAt, OfServe, OfTakings, SentAt, TakesUpTo, binds_of};
ghost use Rattle.t7_serve.specs.Served.{done_by, served};
ghost use Rattle.t7_serve.specs.Servers.{Came, IsReady, terms_by};
ghost use Rattle.t7_serve.specs.Venues.{new_venue};

use crate::laws::casts_are_those_of_the_acts;
use crate::server::{Server, take_events};
use std::alloc::Global;
use t7_base::{Feed, Product};
use t7_layout::Table;
use t7_net::{Clock, Lines, Link};
use t7_outcome::{Finish, Stop};

/// Where an exchange listens for connections, and where it sends the four feeds: any words; one that can't be used is a net fault.
#[derive(Clone, Copy, Debug)]
pub struct Addresses<'a> {
    /// Connections of members.
    pub listen: &'a str,
    /// Live messages, line A.
    pub live_a: &'a str,
    /// Live messages, line B.
    pub live_b: &'a str,
    /// Snapshots, line A.
    pub snap_a: &'a str,
    /// Snapshots, line B.
    pub snap_b: &'a str,
}

/// Listens, binds the four feeds for sending, and takes so many events of the link, of which one without news is one too. After each event it
/// sends the replies and casts the live datagrams that come of it, each datagram on line A and then on line B. After one without news, and
/// after each event whose number is a multiple of 16, it ticks, and casts a heartbeat and a snapshot datagram.
///
/// `NetFault` comes only where the count of `link` or of `lines` rose, `TooLong` exactly where an open connection gave more than 64 MiB, and
/// `Memory` only where memory is wanting. The end has the number of the last message.
pub fn serve<L: Link, D: Lines, C: Clock>(
    alloc: Global,
    table: &Table,
    product: &Product,
    addresses: &Addresses<'_>,
    count: u32,
    link: &mut L,
    lines: &mut D,
    clock: &mut C,
) -> Result<Finish, Stop>
    requires { count ≤ 1_000_000_000 }
    // It ends as the events say that were taken, but for a net fault and want of memory.
    ensures end { OfTakings (L.events link.old) (L.events link.new) (C.given clock.old) (C.given clock.new)
        (λ takings. Ends (served {Moment = Unit {0}} (terms_by table.now product.now) count takings) result) }

    // What is sent on connections, in its order, are the replies to the events that were taken, and the closes of openings beyond 1,024.
    ensures sent { OfTakings (L.events link.old) (L.events link.new) (C.given clock.old) (C.given clock.new)
        (λ takings. Grew (L.sent link.old) (L.sent link.new) (SentAt (done_by (terms_by table.now product.now) takings).sent result)) }

    // What is cast, in its order, are the datagrams of these events, each on line A and then on line B.
    ensures cast { OfTakings (L.events link.old) (L.events link.new) (C.given clock.old) (C.given clock.new)
        (λ takings. Grew (D.cast lines.old) (D.cast lines.new) (CastAt (done_by (terms_by table.now product.now) takings).cast result)) }

    // At its end the acts of these events, of which `casts_are_those_of_the_acts` says that they send what is cast, are an exchange's.
    ensures acts { IfOk result (λ finish. OfTakings (L.events link.old) (L.events link.new) (C.given clock.old) (C.given clock.new)
        (λ takings. AreActs product.now (done_by (terms_by table.now product.now) takings).acts)) }

    // One listen is asked for and then the four binds; so many events are taken and no more, each at one moment of the clock.
    ensures listens { Grew (L.asked link.old) (L.asked link.new) (ListensAt addresses.now.listen.now result) }
    ensures binds { Grew (D.asked lines.old) (D.asked lines.new) (AsksFor (binds_of addresses.now) result) }
    ensures events { Grew (L.events link.old) (L.events link.new) (TakesUpTo count result) }
    ensures moments { Grew (L.events link.old) (L.events link.new)
        (λ items. Grew (C.given clock.old) (C.given clock.new) (λ moments. length moments ≡ length items)) }
    ensures taken { D.taken lines.new ≡ D.taken lines.old }

    // Each stop has its cause.
    ensures only { IfErr result OfServe }
    ensures link_count { L.faults link.old ≤ L.faults link.new }
    ensures lines_count { D.faults lines.old ≤ D.faults lines.new }
    ensures net_fault { result ≡ Err Stop.NetFault → Rose (L.faults link.old) (L.faults link.new) ⊎ Rose (D.faults lines.old) (D.faults lines.new) }
{
    listen(addresses.listen, link)?;
    bind_all(addresses, lines)?;
    host(alloc, table, product, count, link, lines, clock)
}

// Takes the events with an exchange at the beginning of its day.
fn host<L: Link, D: Lines, C: Clock>(
    alloc: Global,
    table: &Table,
    product: &Product,
    count: u32,
    link: &mut L,
    lines: &mut D,
    clock: &mut C,
) -> Result<Finish, Stop>
    requires { count ≤ 1_000_000_000 }
    ensures came { OfTakings (L.events link.old) (L.events link.new) (C.given clock.old) (C.given clock.new)
        (Came (terms_by table.now product.now) count result (L.sent link.old) (L.sent link.new) (D.cast lines.old) (D.cast lines.new)) }
    ensures acts { IfOk result (λ finish. OfTakings (L.events link.old) (L.events link.new) (C.given clock.old) (C.given clock.new)
        (λ takings. AreActs product.now (done_by (terms_by table.now product.now) takings).acts)) }
    ensures events { Grew (L.events link.old) (L.events link.new) (TakesUpTo count result) }
    ensures only { IfErr result OfServe }
    ensures listens { L.asked link.new ≡ L.asked link.old }
    ensures binds { D.asked lines.new ≡ D.asked lines.old }
    ensures taken { D.taken lines.new ≡ D.taken lines.old }
    ensures link_count { L.faults link.old ≤ L.faults link.new }
    ensures lines_count { D.faults lines.old ≤ D.faults lines.new }
    ensures net_fault { result ≡ Err Stop.NetFault → Rose (L.faults link.old) (L.faults link.new) ⊎ Rose (D.faults lines.old) (D.faults lines.new) }
{
    let Ok(mut server) = Server::new(alloc, table, product) else {
        return Err(Stop::Memory);
    };
    run(&mut server, count, link, lines, clock)
}

// Takes the events, and tells the number of the last message.
fn run<L: Link, D: Lines, C: Clock>(
    server: &mut Server<'_>,
    count: u32,
    link: &mut L,
    lines: &mut D,
    clock: &mut C,
) -> Result<Finish, Stop>
    requires new { IsReady server.old }
    requires none { server.old.events ≡ 0 }
    requires few { count ≤ 1_000_000_000 }
    ensures came { (terms : Terms) → server.old ≡ new_venue terms → OfTakings (L.events link.old) (L.events link.new) (C.given clock.old) (C.given clock.new)
        (Came terms count result (L.sent link.old) (L.sent link.new) (D.cast lines.old) (D.cast lines.new)) }
    ensures acts { IfOk result (λ finish. (terms : Terms) → server.old ≡ new_venue terms
        → OfTakings (L.events link.old) (L.events link.new) (C.given clock.old) (C.given clock.new)
        (λ takings. AreActs terms.listing (done_by terms takings).acts)) }
    ensures events { Grew (L.events link.old) (L.events link.new) (TakesUpTo count result) }
    ensures only { IfErr result OfServe }
    ensures listens { L.asked link.new ≡ L.asked link.old }
    ensures binds { D.asked lines.new ≡ D.asked lines.old }
    ensures taken { D.taken lines.new ≡ D.taken lines.old }
    ensures link_count { L.faults link.old ≤ L.faults link.new }
    ensures lines_count { D.faults lines.old ≤ D.faults lines.new }
    ensures net_fault { result ≡ Err Stop.NetFault → Rose (L.faults link.old) (L.faults link.new) ⊎ Rose (D.faults lines.old) (D.faults lines.new) }
{
    take_events(server, count, link, lines, clock)?;
    casts_are_those_of_the_acts();
    server.is_sound();
    Ok(Finish::End(server.messages()))
}

// Listens for connections.
fn listen<L: Link>(address: &str, link: &mut L) -> Result<(), Stop>
    ensures asked { Grew (L.asked link.old) (L.asked link.new) (ListensAt address.now result) }
    ensures events { L.events link.new ≡ L.events link.old }
    ensures sent { L.sent link.new ≡ L.sent link.old }
    ensures cause { HasCause (L.faults link.old) (L.faults link.new) result }
    ensures only { IfErr result (λ stop. stop ≡ Stop.NetFault) }
{
    match link.listen(address) {
        Ok(()) => Ok(()),
        Err(_) => Err(Stop::NetFault),
    }
}

// Binds the four feeds for sending.
fn bind_all<D: Lines>(addresses: &Addresses<'_>, lines: &mut D) -> Result<(), Stop>
    ensures asked { Grew (D.asked lines.old) (D.asked lines.new) (AsksFor (binds_of addresses.now) result) }
    ensures taken { D.taken lines.new ≡ D.taken lines.old }
    ensures cast { D.cast lines.new ≡ D.cast lines.old }
    ensures cause { HasCause (D.faults lines.old) (D.faults lines.new) result }
    ensures only { IfErr result (λ stop. stop ≡ Stop.NetFault) }
{
    bind_pair(
        (Feed::LiveA, addresses.live_a),
        (Feed::LiveB, addresses.live_b),
        lines,
    )?;
    bind_pair(
        (Feed::SnapA, addresses.snap_a),
        (Feed::SnapB, addresses.snap_b),
        lines,
    )
}

// Binds two feeds for sending.
fn bind_pair<D: Lines>(first: (Feed, &str), second: (Feed, &str), lines: &mut D) -> Result<(), Stop>
    ensures asked { Grew (D.asked lines.old) (D.asked lines.new) (AsksFor
        (record { feed = first.entry.0; address = first.entry.1.now; listen = false }
        ∷ record { feed = second.entry.0; address = second.entry.1.now; listen = false } ∷ []) result) }
    ensures taken { D.taken lines.new ≡ D.taken lines.old }
    ensures cast { D.cast lines.new ≡ D.cast lines.old }
    ensures cause { HasCause (D.faults lines.old) (D.faults lines.new) result }
    ensures only { IfErr result (λ stop. stop ≡ Stop.NetFault) }
{
    bind(first.0, first.1, lines)?;
    bind(second.0, second.1, lines)
}

// Binds a feed for sending.
fn bind<D: Lines>(feed: Feed, address: &str, lines: &mut D) -> Result<(), Stop>
    ensures asked { Grew (D.asked lines.old) (D.asked lines.new) (λ asked. asked ≡ record { feed = feed; address = address.now; listen = false } ∷ []) }
    ensures taken { D.taken lines.new ≡ D.taken lines.old }
    ensures cast { D.cast lines.new ≡ D.cast lines.old }
    ensures cause { HasCause (D.faults lines.old) (D.faults lines.new) result }
    ensures only { IfErr result (λ stop. stop ≡ Stop.NetFault) }
{
    match lines.bind(feed, address, false) {
        Ok(()) => Ok(()),
        Err(_) => Err(Stop::NetFault),
    }
}
