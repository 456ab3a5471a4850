//! Connections, and the replies that wait for them.

ghost use Rattle.std.specs.Prelude.{◌≡◌, ℕ, ◌+◌, ◌-◌, ◌<◌, ◌≤◌, ◌++◌, ◌∷◌, ◌^◌, [], List, length, map, min, max, drop, slice_get};
ghost use Rattle.std.specs.Prelude.{Some, IsNone, IsSome, IfSome, OnOk, OnErr, option_map};
ghost use Rattle.std.specs.List.{All};
ghost use Rattle.std.specs.Option.{option_and_then, option_map_or};
ghost use Rattle.std.specs.VecDeque.{deque_capacity, deque_len};
ghost use Rattle.t7_eti.specs.declared.response.Response.TheVariants as response;
ghost use Rattle.t7_eti.specs.Requests.{IsAskable};
ghost use Rattle.t7_book.specs.declared.command.Command.{Command};
ghost use Rattle.t7_session.specs.Heartbeats.{interval_of};
ghost use Rattle.t7_session.specs.Held.{opened};
ghost use Rattle.t7_session.specs.Refused.{number_refused};
ghost use Rattle.t7_session.specs.Steps.{asked_in, done_of, step_of};
ghost use Rattle.t7_frames.specs.Frames.{front_of, not_yet};
ghost use Rattle.t7_entry.specs.ByNumber as numbers;
ghost use Rattle.t7_entry.specs.Treatment.{close, deliver, holder, refuse, send, send_again};
ghost use Rattle.t7_entry.specs.Events.{settled_each, tick_each};
ghost use Rattle.t7_exchange.specs.Handed.{first_refused_for};
ghost use Rattle.t7_exchange.specs.Maps.{HoldOnly, Stays, changed, fed, inputs_of};
ghost use Rattle.t7_exchange.specs.Sayable.{CanBeSaid, IsSayable};
ghost use Rattle.t7_exchange.specs.Wires.{Acts, core_of, delivered, reply_of, reply_with, ticked};

use crate::connections::Connections;
use std::alloc::{AllocError, Global};
use std::collections::VecDeque;
use std::marker::Model;
use t7_base::{Moment, SessionId};
use t7_eti::{Kept, Reason, Response};
use t7_layout::Table;
use t7_orders::Numbered;
use t7_session::{Beat, Step};

/// A reply that waits.
#[derive(Clone, Copy, Debug, PartialEq, Eq)]
pub(crate) enum Waiting {
    Sends { conn: u32, response: Response },
    Closes { conn: u32 },
}

/// The open connections, and the replies that wait for connections, open or not.
#[derive(Drop)]
pub(crate) struct Wires {
    connections: Connections,
    waiting: VecDeque<Waiting>,
}

impl Model for Wires {
    ghost use Rattle.std.specs.Prelude.{◌-◌, map};
    ghost use Rattle.std.specs.VecDeque.{deque_capacity, deque_len};
    ghost use Rattle.t7_entry.specs.ByNumber.{Rises};
    ghost use Rattle.std.specs.List.{All};
    ghost use Rattle.t7_exchange.specs.Sayable.{CanBeSaid};
    ghost use Rattle.t7_exchange.specs.Wires.{Wires, reply_of};

    ghost Value = { Wires };

    ghost view = { λ a. record { held = a.connections; waiting = map reply_of a.waiting.items; spare = deque_capacity a.waiting - deque_len a.waiting } };

    ghost invariant = { λ a. All CanBeSaid (map reply_of a.waiting.items) };
}

impl Wires {
    /// No connection is open, and no reply waits.
    pub(crate) fn new(alloc: Global) -> Wires
        ensures held { result.held ≡ numbers.empty }
        ensures waiting { result.waiting ≡ [] }
    {
        Wires {
            connections: Connections::new(alloc),
            waiting: VecDeque::new(alloc),
        }
    }

    pub(crate) fn is_open(&self, conn: u32) -> bool
        ensures value { result ≡ numbers.contains_key self.now.held conn }
        ensures rises { numbers.Rises self.now.held }
    {
        self.connections.is_open(conn)
    }

    /// How many connections are open.
    pub(crate) fn len(&self) -> usize
        ensures { result ≡ numbers.len self.now.held }
    {
        self.connections.len()
    }

    /// A connection is opened. After an error everything is as before.
    pub(crate) fn open(&mut self, alloc: Global, conn: u32) -> Result<(), AllocError>
        ensures ok { OnOk result (self.new ≡ record self.old { held = numbers.insert self.old.held conn opened }) }
        ensures err { OnErr result (self.new ≡ self.old) }
    {
        self.connections.open(alloc, conn)
    }

    /// A peer has closed its connection, for which no reply is made.
    pub(crate) fn forget(&mut self, conn: u32)
        ensures { self.new ≡ record self.old { held = numbers.remove self.old.held conn } }
    {
        self.connections.close(conn);
    }

    /// An open connection takes the first bytes of a piece, as many as fit, and answers how many.
    pub(crate) fn feed(&mut self, conn: u32, piece: &[u8], now: Moment) -> usize
        ensures fed { self.new ≡ record self.old { held = changed self.old.held conn (fed piece.now result now) } }
        ensures rises { numbers.Rises self.old.held }
        ensures count { IfSome (numbers.get self.old.held conn) (λ h. result ≡ min (length piece.now) (8192 - length h.untreated)) }
    {
        self.connections.feed(conn, piece, now)
    }

    /// What the front of a connection's bytes is; nothing yet, where it isn't open.
    pub(crate) fn step(&mut self, conn: u32, table: &Table) -> Step
        ensures step { result ≡ option_map_or (step_of table.now) (numbers.get self.old.held conn) Step.NotYet }
        ensures asks { self.new ≡ record self.old { held = changed self.old.held conn (λ h. record h { asked = asked_in result }) } }
        ensures askable { IfSome (asked_in result) IsAskable }
        ensures refused { IfSome (number_refused result) (λ n. n < 4_294_967_295) }
        ensures waits { result ≡ Step.NotYet → IfSome (numbers.get self.old.held conn) (λ h. front_of h.untreated ≡ not_yet) }
        ensures rises { numbers.Rises self.old.held }
    {
        self.connections.step(conn, table)
    }

    /// The session of a connection.
    pub(crate) fn who(&self, conn: u32) -> Option<SessionId>
        ensures { result ≡ option_and_then (λ h. h.session) (numbers.get self.now.held conn) }
    {
        self.connections.who(conn)
    }

    /// A session is logged on where the connection has none.
    pub(crate) fn log_on(&mut self, conn: u32, session: SessionId, heart: u32, now: Moment)
        requires { IfSome (numbers.get self.old.held conn) (λ h. IsNone h.session) }
        ensures { self.new ≡ record self.old { held = changed self.old.held conn (λ h. record h { session = Some session; heart = interval_of heart }) } }
    {
        self.connections.log_on(conn, session, heart, now);
    }

    /// The front frame, which asked something, is taken off.
    pub(crate) fn done(&mut self, conn: u32)
        requires { IfSome (numbers.get self.old.held conn) (λ h. IsSome h.asked) }
        ensures { self.new ≡ record self.old { held = changed self.old.held conn done_of } }
    {
        self.connections.done(conn);
    }

    /// The first reply that waits is taken off, if there is one. It may be written.
    pub(crate) fn next_reply(&mut self) -> Option<Waiting>
        ensures first { option_map reply_of result ≡ slice_get self.old.waiting 0 }
        ensures sayable { IfSome result (λ reply. CanBeSaid (reply_of reply)) }
        ensures others { self.new.waiting ≡ drop 1 self.old.waiting }
        ensures held { self.new.held ≡ self.old.held }
    {
        self.waiting.pop_front()
    }

    /// Why a request is refused, where the first reply that waits is a Reject.
    pub(crate) fn next_refusal(&self) -> Option<Reason>
        ensures { result ≡ first_refused_for self.now.waiting }
    {
        match self.waiting.front() {
            Some(
                Waiting::Sends {
                    response: Response::Reject { reason, .. },
                    ..
                },
            ) => Some(*reason),
            _ => None,
        }
    }

    /// Room for so many more replies. After an error nothing else has changed.
    pub(crate) fn reserve(&mut self, n: usize) -> Result<(), AllocError>
        ensures held { self.new.held ≡ self.old.held }
        ensures waiting { self.new.waiting ≡ self.old.waiting }
        ensures room { OnOk result (n ≤ self.new.spare) }
    {
        self.waiting.reserve(n)
    }

    /// A response that may be written goes out on a connection, where that is open.
    pub(crate) fn send(&mut self, conn: u32, moment: Moment, response: Response)
        requires room { 1 ≤ self.old.spare }
        requires sayable { IsSayable response }
        ensures acts { (accepted : List Command) → Acts accepted self.old self.new (send moment conn response) }
        ensures held { self.new.held ≡ changed self.old.held conn (λ h. record h { sent = max h.sent moment }) }
        ensures inputs { inputs_of self.new.held ≡ inputs_of self.old.held }
        ensures only { (sessions : List ℕ) → HoldOnly sessions self.old.held → HoldOnly sessions self.new.held }
        ensures room { self.old.spare ≤ self.new.spare + 1 }
    {
        if !self.connections.is_open(conn) {
            return;
        }
        self.connections.sent(conn, moment);
        self.waiting
            .push_back_reserved(Waiting::Sends { conn, response });
    }

    /// A connection is closed.
    pub(crate) fn close(&mut self, conn: u32)
        requires { 1 ≤ self.old.spare }
        ensures acts { (accepted : List Command) → Acts accepted self.old self.new (close conn) }
        ensures held { self.new.held ≡ numbers.remove self.old.held conn }
        ensures inputs { inputs_of self.new.held ≡ numbers.remove (inputs_of self.old.held) conn }
        ensures only { (sessions : List ℕ) → HoldOnly sessions self.old.held → HoldOnly sessions self.new.held }
        ensures room { self.old.spare ≤ self.new.spare + 1 }
    {
        self.connections.close(conn);
        push_reply(&mut self.waiting, conn, None);
    }

    /// A Reject that closes the connection goes out.
    pub(crate) fn refuse(&mut self, conn: u32, moment: Moment, seq: Option<u32>, reason: Reason)
        requires room { 2 ≤ self.old.spare }
        requires sayable { IfSome seq (λ n. n < 4_294_967_295) }
        ensures acts { (accepted : List Command) → Acts accepted self.old self.new (refuse moment conn seq reason) }
        ensures inputs { inputs_of self.new.held ≡ numbers.remove (inputs_of self.old.held) conn }
        ensures only { (sessions : List ℕ) → HoldOnly sessions self.old.held → HoldOnly sessions self.new.held }
        ensures room { self.old.spare ≤ self.new.spare + 2 }
    {
        self.send(conn, moment, Response::Reject { seq, reason });
        self.close(conn);
    }

    /// Stored responses behind a number go out on a connection, one after another.
    pub(crate) fn send_again(&mut self, conn: u32, moment: Moment, after: u128, range: &[Kept])
        requires room { length range.now ≤ self.old.spare }
        requires fits { after + length range.now < 2 ^ 128 }
        requires sayable { All (λ what. IsSayable (response.Kept 0 what)) range.now }
        ensures acts { (accepted : List Command) → Acts accepted self.old self.new (send_again moment conn (after + 1) range.now) }
        ensures inputs { inputs_of self.new.held ≡ inputs_of self.old.held }
        ensures only { (sessions : List ℕ) → HoldOnly sessions self.old.held → HoldOnly sessions self.new.held }
    {
        for (i, what) in range.iter().enumerate() {
            let number = after + 1 + i as u128;
            self.send(
                conn,
                moment,
                Response::Kept {
                    number,
                    what: *what,
                },
            );
        }
    }

    /// The connection that holds a session, if one does.
    pub(crate) fn holder(&self, session: SessionId) -> Option<u32>
        ensures { (accepted : List Command) → result ≡ holder session (core_of accepted self.now.held) }
    {
        self.connections.holder(session)
    }

    // A stored response goes out where a connection holds its session.
    fn deliver_one(&mut self, moment: Moment, stored: &Numbered)
        requires room { 1 ≤ self.old.spare }
        requires sayable { IsSayable (response.Kept 0 stored.now.what) }
        ensures acts { (accepted : List Command) → Acts accepted self.old self.new (delivered moment stored.now) }
        ensures inputs { inputs_of self.new.held ≡ inputs_of self.old.held }
        ensures only { (sessions : List ℕ) → HoldOnly sessions self.old.held → HoldOnly sessions self.new.held }
        ensures room { self.old.spare ≤ self.new.spare + 1 }
    {
        if let Some(conn) = self.holder(stored.session) {
            let number = stored.number as u128;
            self.send(
                conn,
                moment,
                Response::Kept {
                    number,
                    what: stored.what,
                },
            );
        }
    }

    /// Stored responses go out, in order.
    pub(crate) fn deliver(&mut self, moment: Moment, stored: &[Numbered])
        requires room { length stored.now ≤ self.old.spare }
        requires sayable { All (λ n. IsSayable (response.Kept 0 n.what)) stored.now }
        ensures acts { (accepted : List Command) → Acts accepted self.old self.new (deliver moment stored.now) }
        ensures inputs { inputs_of self.new.held ≡ inputs_of self.old.held }
        ensures only { (sessions : List ℕ) → HoldOnly sessions self.old.held → HoldOnly sessions self.new.held }
    {
        for one in stored {
            self.deliver_one(moment, one);
        }
    }

    // A connection does what the heartbeat rule wants.
    fn tick_one(&mut self, conn: u32, moment: Moment)
        requires { 1 ≤ self.old.spare }
        ensures acts { (accepted : List Command) → Acts accepted self.old self.new (ticked moment conn (inputs_of self.old.held)) }
        ensures stays { Stays self.old.held self.new.held }
        ensures rises { numbers.Rises self.old.held → numbers.Rises self.new.held }
        ensures room { self.old.spare ≤ self.new.spare + 1 }
        ensures only { (sessions : List ℕ) → HoldOnly sessions self.old.held → HoldOnly sessions self.new.held }
    {
        match self.connections.tick(conn, moment) {
            Beat::Nothing => {}
            Beat::Send => self.send(conn, moment, Response::Beat),
            Beat::Close => self.close(conn),
        }
    }

    /// Each open connection does what the heartbeat rule wants, by rising number. After an error nothing has changed but the room.
    pub(crate) fn tick(&mut self, alloc: Global, moment: Moment) -> Result<(), AllocError>
        ensures acts { OnOk result ((accepted : List Command) →
            Acts accepted self.old self.new (tick_each moment (inputs_of self.old.held) (numbers.keys (inputs_of self.old.held)))) }
        ensures inputs { OnOk result ((accepted : List Command) →
            inputs_of self.new.held ≡ settled_each (numbers.keys (inputs_of self.old.held)) (inputs_of self.old.held) (core_of accepted self.new.held)) }
        ensures held { OnErr result (self.new.held ≡ self.old.held) }
        ensures waiting { OnErr result (self.new.waiting ≡ self.old.waiting) }
        ensures only { (sessions : List ℕ) → HoldOnly sessions self.old.held → HoldOnly sessions self.new.held }
    {
        let conns = self.connections.numbers(alloc)?;
        self.reserve(conns.len())?;
        for conn in &conns {
            self.tick_one(*conn, moment);
        }
        Ok(())
    }
}

// A reply waits: a response, or a close where there is none.
fn push_reply(waiting: &mut VecDeque<Waiting>, conn: u32, response: Option<Response>)
    requires { deque_len waiting.old < deque_capacity waiting.old }
    ensures items { map reply_of waiting.new.items ≡ map reply_of waiting.old.items ++ reply_with conn response ∷ [] }
    ensures len { deque_len waiting.new ≡ deque_len waiting.old + 1 }
    ensures capacity { deque_capacity waiting.new ≡ deque_capacity waiting.old }
{
    let reply = match response {
        Some(response) => Waiting::Sends { conn, response },
        None => Waiting::Closes { conn },
    };
    waiting.push_back_reserved(reply);
}
