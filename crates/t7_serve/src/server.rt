//! An exchange at hand, with the counts of the bytes that came on its connections.
ghost use Rattle.std.specs.Prelude.{◌≡◌, ◌≢◌, ◌+◌, ◌<◌, ◌≤◌, ◌⊎◌, [], ◌∷◌, Err, IfErr, IfOk, List, OnErr, OnOk, false, length, ℕ};
ghost use Rattle.t7_base.specs.Outside.{Begins, Grew, HasCause, Rose};
ghost use Rattle.t7_base.specs.declared.ids.Feed.TheVariants.{LiveA, LiveB};
ghost use Rattle.t7_book.specs.Trace.{AreAccepted};
ghost use Rattle.t7_entry.specs.ByNumber.{insert, len};
ghost use Rattle.t7_entry.specs.Days.{due, last_of};
ghost use Rattle.t7_entry.specs.Events.{Opened};
ghost use Rattle.t7_entry.specs.Stalls.{IsShut};
ghost use Rattle.t7_feed.specs.Arrivals.{Terms};
ghost use Rattle.t7_feed.specs.Sending.{AreRanged};
ghost use Rattle.t7_net.specs.Links.{IsPiece};
ghost use Rattle.t7_net.specs.declared.link.LinkItem.TheVariants.{Bytes};
ghost use Rattle.t7_serve.specs.Clauses.{OfServe, OfTakings, OfTurn, TakesUpTo};
ghost use Rattle.t7_serve.specs.Fronts.{SentFront};
ghost use Rattle.t7_serve.specs.Servers.{Broke, CastsNext, Done, IsReady, SendsNext, Serves, Stepped, item_of, waiting_sent};
ghost use Rattle.t7_serve.specs.Turns.{beats, does, due_bytes, enters, hands_out, hears, is_due, is_too_long};
ghost use Rattle.t7_serve.specs.Turns.{loses, on_both, opens, snaps, takes, ticks, without_closed};
ghost use Rattle.t7_serve.specs.Venues.{new_venue};

use crate::counts::Counts;
use crate::sending::{cast_both, send};
use std::alloc::{AllocError, Global};
use std::marker::Model;
use t7_base::{Feed, MOST_DATAGRAM, Moment, Product};
use t7_exchange::{Exchange, Reply};
use t7_layout::Table;
use t7_net::{Clock, Lines, Link, LinkEvent};
use t7_outcome::Stop;

/// The most bytes of one connection: 64 MiB.
const MOST_BYTES: usize = 67_108_864;

/// The most open connections.
const MOST_CONNECTIONS: usize = 1024;

/// An exchange on the network.
///
/// Contracts see it as `Venue`.
#[derive(Drop)]
pub(crate) struct Server<'t> {
    exchange: Exchange<'t>,
    came: Counts,
    events: u32,
}

impl<'t> Model for Server<'t> {
    ghost use Rattle.t7_serve.specs.Venues.{Venue};

    ghost Value = { Venue };

    ghost view = { λ s. record { day = s.exchange; came = s.came; events = s.events } };
}

impl<'t> Server<'t> {
    /// Before the first event. An error comes only where memory is wanting.
    pub(crate) fn new(
        alloc: Global,
        table: &'t Table,
        product: &'t Product,
    ) -> Result<Server<'t>, AllocError>
        ensures { IfOk result (λ server. server ≡ new_venue (record { layouts = table.now; listing = product.now })) }
    {
        Ok(Server {
            exchange: Exchange::new(alloc, table, product)?,
            came: Counts::new(alloc),
            events: 0,
        })
    }

    /// What always holds of the accepted commands: the book refused none of them, and their fields are in their ranges.
    pub(crate) fn is_sound(&self)
        ensures accepted { AreAccepted self.now.day.setting.listing self.now.day.state.core.accepted }
        ensures ranged { AreRanged self.now.day.state.core.accepted }
    {
        self.exchange.is_sound();
    }

    /// The number of the last live message, 0 where there was none.
    pub(crate) fn messages(&self) -> u64
        ensures { result ≡ last_of self.now.day }
    {
        self.exchange.last() as u64
    }

    // Sends the first reply that waits, or closes its connection; false where none waits.
    fn send_next<L: Link>(&mut self, link: &mut L) -> Result<bool, Stop>
        ensures went { IfOk result (SendsNext self.old self.new (L.sent link.old) (L.sent link.new)) }
        ensures broke { OnErr result (Grew (L.sent link.old) (L.sent link.new) (SentFront (waiting_sent self.old))) }
        ensures asked { L.asked link.new ≡ L.asked link.old }
        ensures events { L.events link.new ≡ L.events link.old }
        ensures cause { HasCause (L.faults link.old) (L.faults link.new) result }
        ensures only { IfErr result (λ stop. stop ≡ Stop.NetFault) }
    {
        let mut out = [0u8; 1024];
        match self.exchange.next_reply(&mut out) {
            None => Ok(false),
            Some(Reply::Close { conn }) => {
                link.close(conn);
                self.came.remove(conn);
                Ok(true)
            }
            Some(Reply::Bytes { conn, len }) => send(conn, &out[..len], link),
        }
    }

    // Sends all replies that wait, in their order.
    fn send_replies<L: Link>(&mut self, link: &mut L) -> Result<(), Stop>
        ensures venue { OnOk result (self.new ≡ record self.old {
          day = record self.old.day { waiting = [] };
          came = without_closed self.old.came self.old.day.waiting;
        }) }
        ensures sent { OnOk result (Grew (L.sent link.old) (L.sent link.new) (λ added. added ≡ waiting_sent self.old)) }
        ensures broke { OnErr result (Grew (L.sent link.old) (L.sent link.new) (SentFront (waiting_sent self.old))) }
        ensures asked { L.asked link.new ≡ L.asked link.old }
        ensures events { L.events link.new ≡ L.events link.old }
        ensures cause { HasCause (L.faults link.old) (L.faults link.new) result }
        ensures only { IfErr result (λ stop. stop ≡ Stop.NetFault) }
    {
        while self.send_next(link)? {}
        Ok(())
    }

    // Casts the next live datagram on both lines; false where no message waits.
    fn cast_next<D: Lines>(&mut self, lines: &mut D) -> Result<bool, Stop>
        ensures went { IfOk result (CastsNext self.old self.new (D.cast lines.old) (D.cast lines.new)) }
        ensures broke { OnErr result (Grew (D.cast lines.old) (D.cast lines.new)
            (λ added. Begins added (on_both LiveA LiveB (due_bytes self.old.day)))) }
        ensures asked { D.asked lines.new ≡ D.asked lines.old }
        ensures taken { D.taken lines.new ≡ D.taken lines.old }
        ensures cause { HasCause (D.faults lines.old) (D.faults lines.new) result }
        ensures only { IfErr result (λ stop. stop ≡ Stop.NetFault) }
    {
        let mut out = [0u8; MOST_DATAGRAM];
        let Some(sent) = self.exchange.next_datagram(&mut out) else {
            return Ok(false);
        };
        cast_both(Feed::LiveA, Feed::LiveB, &out[..sent.len], lines)?;
        Ok(true)
    }

    // Casts all live datagrams that are due.
    fn cast_live<D: Lines>(&mut self, lines: &mut D) -> Result<(), Stop>
        ensures venue { OnOk result (self.new ≡ record self.old {
          day = record self.old.day { untold = []; live = self.old.day.live + length (due self.old.day) };
        }) }
        ensures cast { OnOk result (Grew (D.cast lines.old) (D.cast lines.new) (λ added. added ≡ on_both LiveA LiveB (due_bytes self.old.day))) }
        ensures broke { OnErr result (Grew (D.cast lines.old) (D.cast lines.new)
            (λ added. Begins added (on_both LiveA LiveB (due_bytes self.old.day)))) }
        ensures asked { D.asked lines.new ≡ D.asked lines.old }
        ensures taken { D.taken lines.new ≡ D.taken lines.old }
        ensures cause { HasCause (D.faults lines.old) (D.faults lines.new) result }
        ensures only { IfErr result (λ stop. stop ≡ Stop.NetFault) }
    {
        while self.cast_next(lines)? {}
        Ok(())
    }

    // Sends the replies that wait, and casts the live datagrams that are due.
    fn hand_out<L: Link, D: Lines>(&mut self, link: &mut L, lines: &mut D) -> Result<(), Stop>
        ensures done { OnOk result (Done (hands_out self.old) self.new (L.sent link.old) (L.sent link.new) (D.cast lines.old) (D.cast lines.new)) }
        ensures broke { OnErr result (Broke (hands_out self.old) (L.sent link.old) (L.sent link.new) (D.cast lines.old) (D.cast lines.new)) }
        ensures only { IfErr result (λ stop. stop ≡ Stop.NetFault) }
        ensures listens { L.asked link.new ≡ L.asked link.old }
        ensures events { L.events link.new ≡ L.events link.old }
        ensures binds { D.asked lines.new ≡ D.asked lines.old }
        ensures taken { D.taken lines.new ≡ D.taken lines.old }
        ensures link_count { L.faults link.old ≤ L.faults link.new }
        ensures lines_count { D.faults lines.old ≤ D.faults lines.new }
        ensures net_fault { result ≡ Err Stop.NetFault → Rose (L.faults link.old) (L.faults link.new) ⊎ Rose (D.faults lines.old) (D.faults lines.new) }
    {
        self.send_replies(link)?;
        self.cast_live(lines)
    }

    // A connection is opened; beyond 1,024 it is closed at once.
    fn open<L: Link>(&mut self, conn: u32, link: &mut L) -> Result<(), Stop>
        ensures venue { OnOk result (self.new ≡ (opens conn self.old).venue) }
        ensures sent { OnOk result (Grew (L.sent link.old) (L.sent link.new) (λ added. added ≡ (opens conn self.old).sent)) }
        ensures none { OnErr result (L.sent link.new ≡ L.sent link.old) }
        ensures only { IfErr result (λ stop. stop ≡ Stop.Memory) }
        ensures asked { L.asked link.new ≡ L.asked link.old }
        ensures events { L.events link.new ≡ L.events link.old }
        ensures count { L.faults link.old ≤ L.faults link.new }
    {
        if self.exchange.is_open(conn) {
            return Ok(());
        }
        if self.exchange.connections() >= MOST_CONNECTIONS {
            link.close(conn);
            return Ok(());
        }
        self.admit(conn)
    }

    // A connection is opened that isn't open, where fewer than 1,024 are.
    fn admit(&mut self, conn: u32) -> Result<(), Stop>
        requires shut { IsShut self.old.day conn }
        requires few { len self.old.day.state.inputs < 1024 }
        ensures venue { OnOk result (self.new ≡ (enters (Opened conn) (record self.old { came = insert self.old.came conn 0 })).venue) }
        ensures only { IfErr result (λ stop. stop ≡ Stop.Memory) }
    {
        if self.came.set(conn, 0).is_err() || self.exchange.opened(conn).is_err() {
            return Err(Stop::Memory);
        }
        Ok(())
    }

    // Bytes come on a connection, if it is open.
    fn hear(&mut self, conn: u32, piece: &[u8], moment: Moment) -> Result<(), Stop>
        requires { is_too_long (Bytes conn piece.now) self.old ≡ false }
        ensures venue { OnOk result (self.new ≡ (hears conn piece.now moment self.old).venue) }
        ensures only { IfErr result (λ stop. stop ≡ Stop.Memory) }
    {
        if !self.exchange.is_open(conn) {
            return Ok(());
        }
        let count = self.came.get(conn) + piece.len();
        if self.came.set(conn, count).is_err()
            || self.exchange.piece(conn, piece, moment).is_err()
        {
            return Err(Stop::Memory);
        }
        Ok(())
    }

    // A peer has closed its connection.
    fn lose(&mut self, conn: u32)
        ensures { self.new ≡ (loses conn self.old).venue }
    {
        self.came.remove(conn);
        self.exchange.closed(conn);
    }

    // Whether an event brings an open connection above 64 MiB.
    fn is_too_long(&self, event: LinkEvent, into: &[u8]) -> bool
        requires { IsPiece event (length into.now) }
        ensures { result ≡ is_too_long (item_of event into.now) self.now }
    {
        match event {
            LinkEvent::Bytes(conn, count) => {
                self.exchange.is_open(conn)
                    && self.came.get(conn).saturating_add(count) > MOST_BYTES
            }
            _ => false,
        }
    }

    // Does what an event asks for, whose bytes stand at the front of what it was received into.
    fn take<L: Link>(
        &mut self,
        event: LinkEvent,
        into: &[u8],
        moment: Moment,
        link: &mut L,
    ) -> Result<(), Stop>
        requires fits { IsPiece event (length into.now) }
        requires short { is_too_long (item_of event into.now) self.old ≡ false }
        ensures venue { OnOk result (self.new ≡ (takes (item_of event into.now) moment self.old).venue) }
        ensures sent { OnOk result (Grew (L.sent link.old) (L.sent link.new) (λ added. added ≡ (takes (item_of event into.now) moment self.old).sent)) }
        ensures none { OnErr result (L.sent link.new ≡ L.sent link.old) }
        ensures only { IfErr result (λ stop. stop ≡ Stop.Memory) }
        ensures asked { L.asked link.new ≡ L.asked link.old }
        ensures events { L.events link.new ≡ L.events link.old }
        ensures count { L.faults link.old ≤ L.faults link.new }
    {
        match event {
            LinkEvent::Opened(conn) => self.open(conn, link),
            LinkEvent::Bytes(conn, count) => self.hear(conn, &into[..count], moment),
            LinkEvent::Closed(conn) => {
                self.lose(conn);
                Ok(())
            }
            LinkEvent::Quiet | LinkEvent::Failed => Ok(()),
        }
    }

    // Casts a heartbeat.
    fn beat<D: Lines>(&mut self, lines: &mut D) -> Result<(), Stop>
        requires told { self.old.day.untold ≡ [] }
        requires few { self.old.day.beats < 2_000_000_000 }
        ensures venue { self.new ≡ (beats self.old).venue }
        ensures cast { OnOk result (Grew (D.cast lines.old) (D.cast lines.new) (λ added. added ≡ (beats self.old).cast)) }
        ensures broke { OnErr result (Grew (D.cast lines.old) (D.cast lines.new) (λ added. Begins added (beats self.old).cast)) }
        ensures asked { D.asked lines.new ≡ D.asked lines.old }
        ensures taken { D.taken lines.new ≡ D.taken lines.old }
        ensures cause { HasCause (D.faults lines.old) (D.faults lines.new) result }
        ensures only { IfErr result (λ stop. stop ≡ Stop.NetFault) }
    {
        let mut out = [0u8; MOST_DATAGRAM];
        let sent = self.exchange.beat(&mut out);
        cast_both(Feed::LiveA, Feed::LiveB, &out[..sent.len], lines)
    }

    // Casts the next snapshot datagram.
    fn snap<D: Lines>(&mut self, lines: &mut D) -> Result<(), Stop>
        requires told { self.old.day.untold ≡ [] }
        requires few { self.old.day.snaps < 4_000_000_000 }
        ensures venue { self.new ≡ (snaps self.old).venue }
        ensures cast { OnOk result (Grew (D.cast lines.old) (D.cast lines.new) (λ added. added ≡ (snaps self.old).cast)) }
        ensures broke { OnErr result (Grew (D.cast lines.old) (D.cast lines.new) (λ added. Begins added (snaps self.old).cast)) }
        ensures asked { D.asked lines.new ≡ D.asked lines.old }
        ensures taken { D.taken lines.new ≡ D.taken lines.old }
        ensures cause { HasCause (D.faults lines.old) (D.faults lines.new) result }
        ensures only { IfErr result (λ stop. stop ≡ Stop.NetFault) }
    {
        let mut out = [0u8; MOST_DATAGRAM];
        let sent = self.exchange.snap(&mut out);
        cast_both(Feed::SnapA, Feed::SnapB, &out[..sent.len], lines)
    }

    // The time goes on: a tick, of which all that waits goes out, a heartbeat, and a snapshot datagram.
    fn tick<L: Link, D: Lines>(
        &mut self,
        moment: Moment,
        link: &mut L,
        lines: &mut D,
    ) -> Result<(), Stop>
        requires beats { self.old.day.beats < 2_000_000_000 }
        requires snaps { self.old.day.snaps < 4_000_000_000 }
        ensures done { OnOk result (Done (ticks moment self.old) self.new (L.sent link.old) (L.sent link.new) (D.cast lines.old) (D.cast lines.new)) }
        ensures broke { OnErr result (Broke (ticks moment self.old) (L.sent link.old) (L.sent link.new) (D.cast lines.old) (D.cast lines.new)) }
        ensures only { IfErr result OfTurn }
        ensures listens { L.asked link.new ≡ L.asked link.old }
        ensures events { L.events link.new ≡ L.events link.old }
        ensures binds { D.asked lines.new ≡ D.asked lines.old }
        ensures taken { D.taken lines.new ≡ D.taken lines.old }
        ensures link_count { L.faults link.old ≤ L.faults link.new }
        ensures lines_count { D.faults lines.old ≤ D.faults lines.new }
        ensures net_fault { result ≡ Err Stop.NetFault → Rose (L.faults link.old) (L.faults link.new) ⊎ Rose (D.faults lines.old) (D.faults lines.new) }
    {
        if self.exchange.tick(moment).is_err() {
            return Err(Stop::Memory);
        }
        self.hand_out(link, lines)?;
        self.beat(lines)?;
        self.snap(lines)
    }

    // Takes the next event, does what it asks for, and sends and casts all that comes of it.
    fn step<L: Link, D: Lines, C: Clock>(
        &mut self,
        into: &mut [u8],
        link: &mut L,
        lines: &mut D,
        clock: &mut C,
    ) -> Result<(), Stop>
        requires room { into.old ≢ [] }
        requires ready { IsReady self.old }
        requires fewer { self.old.events < 1_000_000_000 }
        ensures stepped { Grew (L.events link.old) (L.events link.new) (λ items. Grew (C.given clock.old) (C.given clock.new)
            (Stepped self.old self.new (L.sent link.old) (L.sent link.new) (D.cast lines.old) (D.cast lines.new) result items)) }
        ensures one { Grew (L.events link.old) (L.events link.new) (TakesUpTo 1 result) }
        ensures ready { OnOk result (IsReady self.new) }
        ensures counted { OnOk result (self.new.events ≡ self.old.events + 1) }
        ensures only { IfErr result OfServe }
        ensures listens { L.asked link.new ≡ L.asked link.old }
        ensures binds { D.asked lines.new ≡ D.asked lines.old }
        ensures taken { D.taken lines.new ≡ D.taken lines.old }
        ensures link_count { L.faults link.old ≤ L.faults link.new }
        ensures lines_count { D.faults lines.old ≤ D.faults lines.new }
        ensures net_fault { result ≡ Err Stop.NetFault → Rose (L.faults link.old) (L.faults link.new) ⊎ Rose (D.faults lines.old) (D.faults lines.new) }
    {
        let event = link.next(into);
        if event == LinkEvent::Failed {
            return Err(Stop::NetFault);
        }
        let moment = clock.now();
        if self.is_too_long(event, into) {
            return Err(Stop::TooLong);
        }
        self.do_event(event, into, moment, link, lines)
    }

    // Does what an event asks for, sends and casts all that comes of it, and what follows it.
    fn do_event<L: Link, D: Lines>(
        &mut self,
        event: LinkEvent,
        into: &[u8],
        moment: Moment,
        link: &mut L,
        lines: &mut D,
    ) -> Result<(), Stop>
        requires fits { IsPiece event (length into.now) }
        requires some { event ≢ LinkEvent.Failed }
        requires short { is_too_long (item_of event into.now) self.old ≡ false }
        requires ready { IsReady self.old }
        requires fewer { self.old.events < 1_000_000_000 }
        ensures done { OnOk result (Done (does (item_of event into.now) moment self.old) self.new
            (L.sent link.old) (L.sent link.new) (D.cast lines.old) (D.cast lines.new)) }
        ensures broke { OnErr result (Broke (does (item_of event into.now) moment self.old)
            (L.sent link.old) (L.sent link.new) (D.cast lines.old) (D.cast lines.new)) }
        ensures ready { OnOk result (IsReady self.new) }
        ensures counted { OnOk result (self.new.events ≡ self.old.events + 1) }
        ensures only { IfErr result OfTurn }
        ensures listens { L.asked link.new ≡ L.asked link.old }
        ensures events { L.events link.new ≡ L.events link.old }
        ensures binds { D.asked lines.new ≡ D.asked lines.old }
        ensures taken { D.taken lines.new ≡ D.taken lines.old }
        ensures link_count { L.faults link.old ≤ L.faults link.new }
        ensures lines_count { D.faults lines.old ≤ D.faults lines.new }
        ensures net_fault { result ≡ Err Stop.NetFault → Rose (L.faults link.old) (L.faults link.new) ⊎ Rose (D.faults lines.old) (D.faults lines.new) }
    {
        self.events += 1;
        self.take(event, into, moment, link)?;
        self.hand_out(link, lines)?;
        if is_due(event, self.events) {
            self.tick(moment, link, lines)?;
        }
        Ok(())
    }
}

/// Takes so many events.
pub(crate) fn take_events<L: Link, D: Lines, C: Clock>(
    server: &mut Server<'_>,
    count: u32,
    link: &mut L,
    lines: &mut D,
    clock: &mut C,
) -> Result<(), Stop>
    requires new { IsReady server.old }
    requires none { server.old.events ≡ 0 }
    requires few { count ≤ 1_000_000_000 }
    ensures served { (terms : Terms) → server.old ≡ new_venue terms → OfTakings (L.events link.old) (L.events link.new) (C.given clock.old) (C.given clock.new)
        (Serves terms count server.new (L.sent link.old) (L.sent link.new) (D.cast lines.old) (D.cast lines.new) result) }
    ensures events { Grew (L.events link.old) (L.events link.new) (TakesUpTo count result) }
    ensures ready { OnOk result (IsReady server.new) }
    ensures counted { OnOk result (server.new.events ≡ count) }
    ensures only { IfErr result OfServe }
    ensures listens { L.asked link.new ≡ L.asked link.old }
    ensures binds { D.asked lines.new ≡ D.asked lines.old }
    ensures taken { D.taken lines.new ≡ D.taken lines.old }
    ensures link_count { L.faults link.old ≤ L.faults link.new }
    ensures lines_count { D.faults lines.old ≤ D.faults lines.new }
    ensures net_fault { result ≡ Err Stop.NetFault → Rose (L.faults link.old) (L.faults link.new) ⊎ Rose (D.faults lines.old) (D.faults lines.new) }
{
    let mut into = [0u8; 4096];
    for _number in 0..count {
        server.step(&mut into, link, lines, clock)?;
    }
    Ok(())
}

// Whether a tick, a heartbeat and a snapshot datagram follow an event of that number.
fn is_due(event: LinkEvent, number: u32) -> bool
    ensures { (into : List ℕ) → event ≢ LinkEvent.Failed → result ≡ is_due (item_of event into) number }
{
    event == LinkEvent::Quiet || number % 16 == 0
}
