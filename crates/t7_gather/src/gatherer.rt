//! A client over a connection of a link.
ghost use Rattle.std.specs.Prelude.{◌≡◌, ◌≢◌, ◌<◌, ◌≤◌, ℕ, [], List, Ok, Err, None, Option, IfErr, IfOk, OnOk, length, reverse};
ghost use Rattle.t7_base.specs.Outside.{Grew, HasCause, Rose};
ghost use Rattle.t7_net.specs.Links.{IsPiece};
ghost use Rattle.t7_gather.specs.Clauses.{SentBy};
ghost use Rattle.t7_gather.specs.Gathering.{client_of};
ghost use Rattle.t7_gather.specs.Steps.{IsGoing, Meets, Hears, OfTurns, OnLink, Recovers, Sends, SendsNext, SentAt, Stepped, answered, is_shut, news_in};
ghost use Rattle.t7_gather.specs.Turns.{end_behind, turns};

use std::alloc::{AllocError, Global};
use t7_base::SessionId;
use t7_client::{Client, ClientFault};
use t7_eti::Kept;
use t7_layout::Table;
use t7_net::{Link, LinkEvent};
use t7_outcome::{Finish, PeerWhy, Stop};

/// So many bytes a connection may give: 64 MiB.
const CONNECTION_LIMIT: usize = 67_108_864;

/// A client, the number of its connection, and how many bytes came on it.
#[derive(Drop)]
pub(crate) struct Gatherer<'t> {
    client: Client<'t>,
    conn: u32,
    came: usize,
}

impl<'t> Gatherer<'t> {
    /// A client of the session that has dialed, on the connection of this number. An error comes only where memory is wanting.
    pub(crate) fn new(
        alloc: Global,
        table: &'t Table,
        session: SessionId,
        conn: u32,
    ) -> Result<Gatherer<'t>, AllocError>
        requires { (1 ≤ session) × (session ≤ 4_000_000_000) }
        ensures client { IfOk result (λ gatherer. gatherer.client ≡ client_of table.now session) }
        ensures conn { IfOk result (λ gatherer. gatherer.conn ≡ conn) }
        ensures going { IfOk result (λ gatherer. IsGoing gatherer.client gatherer.came) }
    {
        let mut client = Client::new(alloc, table, session)?;
        client.dial()?;
        Ok(Gatherer {
            client,
            conn,
            came: 0,
        })
    }

    /// The responses that it gathered.
    pub(crate) fn responses(&self) -> &[Kept]
        ensures { result.now ≡ self.now.client.gathered }
    {
        self.client.responses()
    }

    // Sends the next piece of what is queued.
    fn send_next<L: Link>(&mut self, out: &mut [u8], link: &mut L) -> Result<(), Stop>
        requires room { out.old ≢ [] }
        requires some { self.old.client.queue ≢ [] }
        ensures sent { Grew (L.sent link.old) (L.sent link.new) (SendsNext self.old.conn self.old.client.queue self.new.client.queue result) }
        ensures fewer { length self.new.client.queue < length self.old.client.queue }
        ensures client { self.new.client ≡ record self.old.client { queue = self.new.client.queue } }
        ensures conn { self.new.conn ≡ self.old.conn }
        ensures came { self.new.came ≡ self.old.came }
        ensures asked { L.asked link.new ≡ L.asked link.old }
        ensures events { L.events link.new ≡ L.events link.old }
        ensures cause { HasCause (L.faults link.old) (L.faults link.new) result }
        ensures only { IfErr result (λ stop. stop ≡ Stop.NetFault) }
    {
        let count = self.client.up(out);
        match link.send(self.conn, &out[..count]) {
            Ok(()) => Ok(()),
            Err(_) => Err(Stop::NetFault),
        }
    }

    // Sends all that is queued.
    fn send<L: Link>(&mut self, link: &mut L) -> Result<(), Stop>
        ensures sent { Grew (L.sent link.old) (L.sent link.new) (Sends self.old.conn self.old.client.queue result) }
        ensures client { OnOk result (self.new.client ≡ record self.old.client { queue = [] }) }
        ensures conn { self.new.conn ≡ self.old.conn }
        ensures came { self.new.came ≡ self.old.came }
        ensures asked { L.asked link.new ≡ L.asked link.old }
        ensures events { L.events link.new ≡ L.events link.old }
        ensures cause { HasCause (L.faults link.old) (L.faults link.new) result }
        ensures only { IfErr result (λ stop. stop ≡ Stop.NetFault) }
    {
        let mut out = [0u8; 1024];
        while self.client.pending() > 0 {
            self.send_next(&mut out, link)?;
        }
        Ok(())
    }

    // Hears bytes that came on the connection. The place from which they are no responses, where they are not.
    fn hear(&mut self, bytes: &[u8]) -> Result<Option<usize>, Stop>
        requires { IsGoing self.old.client self.old.came }
        ensures hears { Hears self.old.client bytes.now self.new.client result }
        ensures going { result ≡ Ok None → IsGoing self.new.client self.new.came }
        ensures conn { self.new.conn ≡ self.old.conn }
    {
        if bytes.len() > CONNECTION_LIMIT - self.came {
            return Err(Stop::TooLong);
        }
        self.came += bytes.len();
        match self.client.down(bytes) {
            Ok(()) => Ok(None),
            Err(ClientFault::Misfit { place }) => Ok(Some(place)),
            Err(ClientFault::Memory) => Err(Stop::Memory),
        }
    }

    // Takes what was found: bytes on its own connection are heard, which stand at the front of what they were received into.
    fn meet(&mut self, event: LinkEvent, into: &[u8]) -> Result<Option<usize>, Stop>
        requires piece { IsPiece event (length into.now) }
        requires going { IsGoing self.old.client self.old.came }
        ensures meets { Meets (news_in self.old.conn event into.now) self.old.client self.new.client result }
        ensures going { result ≡ Ok None → IsGoing self.new.client self.new.came }
        ensures conn { self.new.conn ≡ self.old.conn }
    {
        match event {
            LinkEvent::Bytes(conn, count) if conn == self.conn => self.hear(&into[..count]),
            _ => Ok(None),
        }
    }

    // What ends the run behind an event, by the place from which bytes are no responses and whether the connection was closed.
    fn look(&self, misfit: Option<usize>, closed: bool) -> Result<Option<Finish>, Stop>
        ensures { result ≡ answered (end_behind misfit self.now.client closed) }
    {
        if let Some(place) = misfit {
            return Err(Stop::Peer(PeerWhy::Byte(place as u64)));
        }
        if let Some(reason) = self.client.rejected() {
            return Err(Stop::Peer(PeerWhy::Reject(reason.number())));
        }
        if self.client.is_recovered() {
            return Ok(Some(Finish::End(self.responses().len() as u64)));
        }
        if closed {
            return Err(Stop::Peer(PeerWhy::Closed));
        }
        Ok(None)
    }

    // Takes an event, and sends what it makes due.
    fn step<L: Link>(&mut self, into: &mut [u8], link: &mut L) -> Result<Option<Finish>, Stop>
        requires room { into.old ≢ [] }
        requires going { IsGoing self.old.client self.old.came }
        ensures stepped { OnLink (L.events link.old) (L.events link.new) (L.sent link.old) (L.sent link.new)
            (Stepped self.old.conn self.old.client self.new.client result) (SentAt self.old.conn self.old.client result) }
        ensures going { result ≡ Ok None → IsGoing self.new.client self.new.came }
        ensures conn { self.new.conn ≡ self.old.conn }
        ensures asked { L.asked link.new ≡ L.asked link.old }
        ensures only { IfErr result OfTurns }
        ensures link_count { L.faults link.old ≤ L.faults link.new }
        ensures net_fault { result ≡ Err Stop.NetFault → Rose (L.faults link.old) (L.faults link.new) }
    {
        let event = link.next(into);
        if event == LinkEvent::Failed {
            return Err(Stop::NetFault);
        }
        let misfit = self.meet(event, into)?;
        self.send(link)?;
        self.look(misfit, closes(event, self.conn))
    }
}

// Whether the other side closed the connection of this number.
fn closes(event: LinkEvent, conn: u32) -> bool
    ensures { (into : List ℕ) → result ≡ is_shut (news_in conn event into) }
{
    match event {
        LinkEvent::Closed(other) => other == conn,
        _ => false,
    }
}

/// Sends what the dial queued, and takes events, at most so many, until one of them ends the run.
pub(crate) fn recover<L: Link>(
    gatherer: &mut Gatherer<'_>,
    count: u32,
    link: &mut L,
) -> Result<Finish, Stop>
    requires { IsGoing gatherer.old.client gatherer.old.came }
    ensures recovers { OnLink (L.events link.old) (L.events link.new) (L.sent link.old) (L.sent link.new)
        (λ taken. Recovers count gatherer.old.conn gatherer.old.client gatherer.new.client result (reverse taken))
        (λ taken. SentBy gatherer.old.conn (turns gatherer.old.conn gatherer.old.client (reverse taken)).sent result) }
    ensures asked { L.asked link.new ≡ L.asked link.old }
    ensures only { IfErr result OfTurns }
    ensures link_count { L.faults link.old ≤ L.faults link.new }
    ensures net_fault { result ≡ Err Stop.NetFault → Rose (L.faults link.old) (L.faults link.new) }
{
    gatherer.send(link)?;
    let mut into = [0u8; 4096];
    for _number in 0..count {
        if let Some(finish) = gatherer.step(&mut into, link)? {
            return Ok(finish);
        }
    }
    Err(Stop::Unfinished {
        gathered: gatherer.responses().len() as u64,
    })
}
