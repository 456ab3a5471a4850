//! The open connections.

ghost use Rattle.std.specs.Prelude.{◌≡◌, ◌+◌, ◌-◌, ◌<◌, ◌≤◌, length, min, Some, None, is_some, IsNone, IsSome, IfSome, IfOk, OnOk, OnErr, option_map, max};
ghost use Rattle.std.specs.Option.{option_and_then, option_map_or};
ghost use Rattle.t7_frames.specs.Frames.{front_of, not_yet};
ghost use Rattle.t7_entry.specs.ByNumber as map;
ghost use Rattle.t7_eti.specs.Requests.{IsAskable};
ghost use Rattle.t7_session.specs.Heartbeats.{beat_of, interval_of};
ghost use Rattle.t7_session.specs.Held.{opened};
ghost use Rattle.t7_session.specs.Refused.{number_refused};
ghost use Rattle.t7_session.specs.Steps.{asked_in, done_of, step_of};
ghost use Rattle.t7_entry.specs.Treatment.{holds};
ghost use Rattle.t7_exchange.specs.Maps.{changed, fed, holder_in};

use std::alloc::{AllocError, Global};
use std::collections::BTreeMap;
use std::marker::Model;
use t7_base::{Moment, SessionId};
use t7_layout::Table;
use t7_session::{Beat, Session, Step};

/// The open connections, by their numbers.
#[derive(Drop)]
pub(crate) struct Connections {
    sessions: BTreeMap<u32, Session>,
}

impl Model for Connections {
    ghost use Rattle.t7_entry.specs.ByNumber.{ByNumber, Rises};
    ghost use Rattle.t7_session.specs.Held.{Held};

    ghost Value = { ByNumber Held };

    ghost view = { λ a. a.sessions.entries };

    ghost invariant = { λ a. Rises a.sessions.entries };
}

impl Connections {
    /// None is open.
    pub(crate) fn new(alloc: Global) -> Connections
        ensures { result ≡ map.empty }
    {
        Connections {
            sessions: BTreeMap::new(alloc),
        }
    }

    pub(crate) fn is_open(&self, conn: u32) -> bool
        ensures value { result ≡ map.contains_key self.now conn }
        ensures rises { map.Rises self.now }
    {
        self.sessions.contains_key(&conn)
    }

    /// How many are open.
    pub(crate) fn len(&self) -> usize
        ensures { result ≡ map.len self.now }
    {
        self.sessions.len()
    }

    /// The numbers of the open connections, which rise.
    pub(crate) fn numbers(&self, alloc: Global) -> Result<Vec<u32>, AllocError>
        ensures keys { IfOk result (λ numbers. numbers.items ≡ map.keys self.now) }
        ensures rises { map.Rises self.now }
    {
        self.sessions.keys().copied().collect(alloc)
    }

    /// A connection is opened. After an error everything is as before.
    pub(crate) fn open(&mut self, alloc: Global, conn: u32) -> Result<(), AllocError>
        ensures ok { OnOk result (self.new ≡ map.insert self.old conn opened) }
        ensures err { OnErr result (self.new ≡ self.old) }
    {
        let session = Session::new(alloc)?;
        self.sessions.insert(conn, session)?;
        Ok(())
    }

    pub(crate) fn close(&mut self, conn: u32)
        ensures { self.new ≡ map.remove self.old conn }
    {
        self.sessions.remove(&conn);
    }

    /// An open connection takes the first bytes of a piece, as many as fit, and answers how many.
    pub(crate) fn feed(&mut self, conn: u32, piece: &[u8], now: Moment) -> usize
        ensures fed { self.new ≡ changed self.old conn (fed piece.now result now) }
        ensures rises { map.Rises self.old }
        ensures count { IfSome (map.get self.old conn) (λ h. result ≡ min (length piece.now) (8192 - length h.untreated)) }
    {
        let Some(session) = self.sessions.get_mut(&conn) else {
            return 0;
        };
        session.feed(piece, now)
    }

    /// What the front of a connection's bytes is; nothing yet, where it isn't open.
    pub(crate) fn step(&mut self, conn: u32, table: &Table) -> Step
        ensures step { result ≡ option_map_or (step_of table.now) (map.get self.old conn) Step.NotYet }
        ensures asks { self.new ≡ changed self.old conn (λ h. record h { asked = asked_in result }) }
        ensures askable { IfSome (asked_in result) IsAskable }
        ensures refused { IfSome (number_refused result) (λ n. n < 4_294_967_295) }
        ensures waits { result ≡ Step.NotYet → IfSome (map.get self.old conn) (λ h. front_of h.untreated ≡ not_yet) }
        ensures rises { map.Rises self.old }
    {
        let Some(session) = self.sessions.get_mut(&conn) else {
            return Step::NotYet;
        };
        session.step(table)
    }

    /// The session of a connection.
    pub(crate) fn who(&self, conn: u32) -> Option<SessionId>
        ensures { result ≡ option_and_then (λ h. h.session) (map.get self.now conn) }
    {
        match self.sessions.get(&conn) {
            Some(session) => session.who(),
            None => None,
        }
    }

    /// A session is logged on where the connection has none.
    pub(crate) fn log_on(&mut self, conn: u32, session: SessionId, heart: u32, now: Moment)
        requires { IfSome (map.get self.old conn) (λ h. IsNone h.session) }
        ensures { self.new ≡ changed self.old conn (λ h. record h { session = Some session; heart = interval_of heart }) }
    {
        let Some(held) = self.sessions.get_mut(&conn) else {
            return;
        };
        held.logged_on(session, heart, now);
    }

    /// The front frame, which asked something, is taken off.
    pub(crate) fn done(&mut self, conn: u32)
        requires { IfSome (map.get self.old conn) (λ h. IsSome h.asked) }
        ensures { self.new ≡ changed self.old conn done_of }
    {
        let Some(session) = self.sessions.get_mut(&conn) else {
            return;
        };
        session.done();
    }

    /// Something was sent.
    pub(crate) fn sent(&mut self, conn: u32, now: Moment)
        ensures { self.new ≡ changed self.old conn (λ h. record h { sent = max h.sent now }) }
    {
        let Some(session) = self.sessions.get_mut(&conn) else {
            return;
        };
        session.sent(now);
    }

    /// What the heartbeat rule wants of a connection: nothing, where it isn't open.
    pub(crate) fn tick(&mut self, conn: u32, now: Moment) -> Beat
        ensures beat { result ≡ option_map_or (λ h. beat_of h now) (map.get self.old conn) Beat.Nothing }
        ensures kept { self.new ≡ self.old }
    {
        let Some(session) = self.sessions.get_mut(&conn) else {
            return Beat::Nothing;
        };
        session.tick(now)
    }

    /// The connection that holds a session, if one does.
    pub(crate) fn holder(&self, session: SessionId) -> Option<u32>
        ensures value { result ≡ holder_in session self.now }
        ensures rises { map.Rises self.now }
    {
        let found = self.sessions.iter().find(|entry| holds(session, entry.1));
        match found {
            Some((conn, _)) => Some(*conn),
            None => None,
        }
    }
}

// Whether a connection holds a session.
fn holds(session: SessionId, held: &Session) -> bool
    ensures { result ≡ holds session held.now.session }
{
    match held.who() {
        Some(other) => session == other,
        None => false,
    }
}
