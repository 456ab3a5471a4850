//! One connection: its bytes, its session and its heartbeats.

ghost use Rattle.std.specs.Prelude.{◌≡◌, ◌+◌, ◌-◌, ◌<◌, ◌≤◌, ◌++◌, Some, length, take, min, IfOk, IfSome, IsNone, IsSome, if◌then◌else◌, ◌↔◌, max};
ghost use Rattle.t7_frames.specs.Frames.{front_of, not_yet};
ghost use Rattle.t7_eti.specs.Requests.{IsAskable};
ghost use Rattle.t7_session.specs.Heartbeats.{beat_of, interval_of, is_empty};
ghost use Rattle.t7_session.specs.Held.{opened};
ghost use Rattle.t7_session.specs.Refused.{number_refused};
ghost use Rattle.t7_session.specs.Steps.{asked_in, done_of, step_of};

use crate::checks::{frame_step, number_of};
use std::alloc::{AllocError, Global};
use std::marker::Model;
use t7_base::{Moment, SessionId};
use t7_eti::{Reason, Request};
use t7_frames::{Frame, FrameBuf};
use t7_layout::Table;

/// What the front of a session's bytes is.
#[derive(Clone, Copy, Debug, PartialEq, Eq)]
pub enum Step {
    /// No whole frame has come yet.
    NotYet,
    /// A frame that passes every test that the connection makes asks this.
    Ask(Request),
    /// A frame fails a test, the first for this reason, one of the first six. A Reject carries the reason, and the
    /// request's MsgSeqNum: none where the frame's length or template is at fault, where the number itself has no value,
    /// and for a Heartbeat.
    Refuse { seq: Option<u32>, reason: Reason },
}

/// What the heartbeat rule wants.
#[derive(Clone, Copy, Debug, PartialEq, Eq)]
pub enum Beat {
    Nothing,
    /// A HeartbeatNotification is due.
    Send,
    /// The session has been silent for two intervals: its connection is to be closed.
    Close,
}

/// One ETI connection: the bytes that it gave and that are not treated yet, the session that logged on in it, the number
/// of its next request, and the moments by which its heartbeats go.
///
/// A frame is treated by `step`, which tells what it asks, and `done`, which takes it off.
#[derive(Drop)]
pub struct Session {
    frames: FrameBuf,
    session: Option<SessionId>,
    next: u32,
    heart: u32,
    received: u64,
    sent: u64,
    asked: Option<Request>,
}

impl Model for Session {
    ghost use Rattle.t7_session.specs.Held.{Held};
    ghost use Rattle.t7_session.specs.Inside.{IsSession};

    ghost Value = { Held };

    ghost view = { λ s. record { untreated = s.frames; session = s.session; next = s.next; heart = s.heart; received = s.received; sent = s.sent; asked = s.asked } };

    ghost invariant = { λ s. IsSession s.frames s.session s.next s.asked };
}

impl Session {
    /// A connection that holds nothing, with no session logged on. No other call takes memory.
    pub fn new(alloc: Global) -> Result<Session, AllocError>
        ensures { IfOk result (λ s. s ≡ opened) }
    {
        Ok(Session {
            frames: FrameBuf::new(alloc)?,
            session: None,
            next: 1,
            heart: 0,
            received: 0,
            sent: 0,
            asked: None,
        })
    }

    /// Takes the longest prefix of the piece that fits behind the untreated bytes, of which 8,192 are held at most, and
    /// answers its length. Where the piece has a byte, this is the moment of the last receipt; a moment before the noted one
    /// counts as equal to it.
    pub fn feed(&mut self, piece: &[u8], now: Moment) -> usize
        ensures count { result ≡ min (length piece.now) (8192 - length self.old.untreated) }
        ensures fed { self.new ≡ record self.old {
          untreated = self.old.untreated ++ take result piece.now;
          received = if is_empty piece.now then self.old.received else max self.old.received now;
        } }
        ensures limit { length self.new.untreated ≤ 8192 }
    {
        if !piece.is_empty() {
            self.received = self.received.max(now.get());
        }
        self.frames.feed(piece)
    }

    /// What the frame at the front asks, or the first failing of the tests on it: its length; whether its template is one
    /// of a request; whether it is long enough for that; whether a field that is required has no value; whether a logon
    /// comes on a session; whether another request comes without one; and whether the number is not 1 in a logon, or not
    /// the next one in another request but a Heartbeat. The frame stays in place.
    pub fn step(&mut self, table: &Table) -> Step
        ensures step { result ≡ step_of table.now self.old }
        ensures waits { (result ≡ Step.NotYet) ↔ (front_of self.old.untreated ≡ not_yet) }
        ensures asks { self.new ≡ record self.old { asked = asked_in result } }
        ensures askable { IfSome (asked_in result) IsAskable }
        ensures refused { IfSome (number_refused result) (λ n. n < 4_294_967_295) }
    {
        let step = match self.frames.front() {
            Frame::NotYet => Step::NotYet,
            Frame::BadLength(_) => Step::Refuse {
                seq: None,
                reason: Reason::BadLength,
            },
            Frame::Whole(frame) => frame_step(table, self.session, self.next, frame),
        };
        self.asked = asked_in(step);
        step
    }

    /// A session is logged on, with the heartbeat interval that its HeartBtInt asks for. The moment changes nothing: the
    /// request's receipt is noted by `feed`, and the sending of its response by `sent`.
    pub fn logged_on(&mut self, session: SessionId, heart: u32, now: Moment)
        requires { IsNone self.old.session }
        ensures { self.new ≡ record self.old { session = Some session; heart = interval_of heart } }
    {
        self.session = Some(session);
        self.heart = heartbeat_interval(heart);
    }

    /// Takes the front frame off, which is that of the last `step`, and asked something. Where a session is logged on and
    /// the frame is not a Heartbeat, the next number rises by one.
    pub fn done(&mut self)
        requires { IsSome self.old.asked }
        ensures { self.new ≡ done_of self.old }
    {
        self.frames.skip();
        if let Some(request) = self.asked
            && number_of(request).is_some()
            && self.session.is_some()
        {
            self.next += 1;
        }
        self.asked = None;
    }

    /// What the heartbeat rule wants at a moment, with h the session's interval: Close exactly where a session is logged
    /// on and the moment is at least 2 h after the last receipt; else Send exactly where one is logged on and the moment
    /// is at least h after the last sending; else nothing. A moment before a noted one counts as equal to it.
    pub fn tick(&mut self, now: Moment) -> Beat
        ensures beat { result ≡ beat_of self.old now }
        ensures kept { self.new ≡ self.old }
    {
        if self.session.is_none() {
            return Beat::Nothing;
        }
        let interval = 1_000_000 * self.heart as u64;
        if 2 * interval <= now.get().saturating_sub(self.received) {
            Beat::Close
        } else if interval <= now.get().saturating_sub(self.sent) {
            Beat::Send
        } else {
            Beat::Nothing
        }
    }

    /// Notes that bytes were sent at this moment. A moment before the noted one counts as equal to it.
    pub fn sent(&mut self, now: Moment)
        ensures { self.new ≡ record self.old { sent = max self.old.sent now } }
    {
        self.sent = self.sent.max(now.get());
    }

    /// The session that is logged on. None exactly where there is none.
    pub fn who(&self) -> Option<SessionId>
        ensures { result ≡ self.now.session }
    {
        self.session
    }
}

/// The heartbeat interval that a HeartBtInt asks for, in milliseconds, which the LogonResponse says: at least 100, and at
/// most 60,000.
pub fn heartbeat_interval(heart: u32) -> u32
    ensures { result ≡ interval_of heart }
{
    heart.clamp(100, 60_000)
}

// What a step asks.
fn asked_in(step: Step) -> Option<Request>
    ensures { result ≡ asked_in step }
{
    match step {
        Step::Ask(request) => Some(request),
        _ => None,
    }
}
