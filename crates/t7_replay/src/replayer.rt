//! The exchange, the member and the client of a replay, which the events of a script drive.

ghost use Rattle.std.specs.Prelude.{◌≡◌, ◌≤◌, [], ◌∷◌, codes, length, Contains, IfErr, IfOk, OnErr, OnOk, Err, option_copied};
ghost use Rattle.t7_base.specs.Outside.{Begins, Grew, HasCause, Rose};
ghost use Rattle.t7_entry.specs.Days.{day_after, last_of};
ghost use Rattle.t7_entry.specs.Events.{Event as Happening, Opened};
ghost use Rattle.t7_entry.specs.Stalls.{IsShut};
ghost use Rattle.t7_feed.specs.Arrivals.{Terms, channel_of};
ghost use Rattle.t7_feed.specs.Sending.{at_number};
ghost use Rattle.t7_outcome.specs.Outcome.{text_of};
ghost use Rattle.t7_outcome.specs.Steps.{GoesTo, Stopped, StoppedAt, WentOn};
ghost use Rattle.t7_script.specs.declared.event.Event.TheVariants as kind;
ghost use Rattle.t7_replay.specs.Calling.{cut_on};
ghost use Rattle.t7_replay.specs.Following.{Follows};
ghost use Rattle.t7_replay.specs.Handing.{AreSaidReplies};
ghost use Rattle.t7_replay.specs.Kits.{Does, Enters, Gives, IsOfForm, IsPlaying, IsReady, KeepsSnap, Kit, Refuses, Stands};
ghost use Rattle.t7_replay.specs.Kits.{after_beat, beat_of, fault_in, handed, on_channel, waiting_lines};
ghost use Rattle.t7_replay.specs.Lines.{bad_lines, datagram_lines, day_full_line, under};
ghost use Rattle.t7_replay.specs.Reports.{IsReported};
ghost use Rattle.t7_replay.specs.Steps.{OfPlay, done_by, done_read, entered, step_at, stop_of};
ghost use Rattle.t7_replay.specs.World.{World, new_world};

use crate::caller::{Caller, any_on, cut_on};
use crate::handing::{keep_datagram, keep_datagrams, put_replies};
use crate::print::{put_bad, put_day_full};
use crate::report::put_report;
use std::alloc::{AllocError, Global};
use std::marker::Model;
use t7_acts::{
    a_heartbeat_sends_one_more, a_snapshot_sends_one_more, days_stay_in_step, genuine_stays,
    more_commands_send_more, nothing_was_sent, what_was_sent_is_genuine,
};
use t7_base::{Feed, MOST_DATAGRAM, Moment, Octets, Product, SecurityId, Sink};
use t7_exchange::{ClearRefusal, Exchange};
use t7_layout::Table;
use t7_member::{Delivered, Member, kept_is_reported, what_is_shown_is_supported};
use t7_outcome::{ScriptWhy, Stop};
use t7_script::{Event, LineRefusal, a_cleared_security_is_listed, read_event};

/// The most lines of a script.
const MOST_LINES: u32 = 200_000;

/// The exchange and the member of a replay, the datagrams that were sent, the client from its first DIAL on, the moment of the last
/// TICK, whether bytes are printed, and how many lines were played. Contracts see it as `Kit`.
#[derive(Drop)]
pub(crate) struct Replayer<'a> {
    pub(crate) exchange: Exchange<'a>,
    member: Member<'a>,
    lives: Vec<Octets>,
    snaps: Vec<Octets>,
    pub(crate) caller: Option<Caller<'a>>,
    pub(crate) moment: Moment,
    raw: bool,
    pub(crate) row: u32,
    pub(crate) table: &'a Table,
    product: &'a Product,
    pub(crate) alloc: Global,
}

impl<'a> Model for Replayer<'a> {
    ghost use Rattle.t7_replay.specs.Kits.{Kit};

    ghost Value = { Kit };

    ghost view = { λ r. record {
      day = r.exchange;
      image = r.member;
      lives = r.lives.items;
      snaps = r.snaps.items;
      caller = r.caller;
      moment = r.moment;
      raw = r.raw;
      row = r.row;
      layouts = r.table.now;
      listing = r.product.now;
    } };
}

impl<'a> Replayer<'a> {
    /// Before the first line. An error comes only where memory is wanting.
    pub(crate) fn new(
        alloc: Global,
        table: &'a Table,
        product: &'a Product,
    ) -> Result<Replayer<'a>, AllocError>
        ensures { IfOk result (Stands (record { layouts = table.now; listing = product.now }) new_world) }
    {
        nothing_was_sent();
        let Some(moment) = Moment::new(0) else {
            unreachable!()
        };
        let replayer = Replayer {
            exchange: Exchange::new(alloc, table, product)?,
            member: Member::new(alloc, table, product)?,
            lives: Vec::new(alloc),
            snaps: Vec::new(alloc),
            caller: None,
            moment,
            raw: false,
            row: 0,
            table,
            product,
            alloc,
        };
        replayer.exchange.is_sound();
        Ok(replayer)
    }

    /// The number of the last live message, 0 where there was none.
    pub(crate) fn messages(&self) -> u64
        ensures { result ≡ last_of self.now.day }
    {
        self.exchange.last() as u64
    }

    /// Plays the next line: does what it asks for, and writes what it prints.
    pub(crate) fn act<S: Sink>(&mut self, line: &[u8], sink: &mut S) -> Result<(), Stop>
        requires { IsReady self.old }
        ensures went { OnOk result ((terms : Terms) (world : World) → Stands terms world self.old
            → GoesTo (step_at terms world line.now) (λ after. Stands terms after self.new)) }
        ensures wrote { OnOk result ((terms : Terms) (world : World) → Stands terms world self.old
            → Follows terms world → Grew (S.written sink.old) (S.written sink.new) (WentOn IsReported (step_at terms world line.now))) }
        ensures stopped { IfErr result (λ stop. (terms : Terms) (world : World) → Stands terms world self.old
            → Stopped (step_at terms world line.now) stop) }
        ensures stopped_at { IfErr result (λ stop. (terms : Terms) (world : World) → Stands terms world self.old
            → Follows terms world → Grew (S.written sink.old) (S.written sink.new) (StoppedAt IsReported (step_at terms world line.now) stop)) }
        ensures only { IfErr result OfPlay }
        ensures count { S.faults sink.old ≤ S.faults sink.new }
        ensures write_fault { result ≡ Err Stop.WriteFault → Rose (S.faults sink.old) (S.faults sink.new) }
    {
        let text = self.play_line(line)?;
        put_text(&text, sink)
    }

    // Does what the next line asks for, and answers the text that it prints.
    fn play_line(&mut self, line: &[u8]) -> Result<Vec<u8>, Stop>
        requires { IsReady self.old }
        ensures done { IfOk result (λ text. Does (λ terms world. step_at terms world line.now) self.old self.new text.items) }
        ensures stopped { IfErr result (Refuses (λ terms world. step_at terms world line.now) self.old) }
    {
        self.row += 1;
        if self.row > MOST_LINES {
            return Err(Stop::Script {
                row: self.row,
                why: ScriptWhy::Long,
            });
        }
        self.do_line(line)
    }

    // Does what a line asks for that has been counted.
    fn do_line(&mut self, line: &[u8]) -> Result<Vec<u8>, Stop>
        requires { IsPlaying self.old }
        ensures done { IfOk result (λ text. Does (λ terms world. done_read terms world line.now) self.old self.new text.items) }
        ensures stopped { IfErr result (Refuses (λ terms world. done_read terms world line.now) self.old) }
    {
        a_cleared_security_is_listed();
        match read_event(self.alloc, self.product, self.moment, line) {
            Ok(event) => self.perform(event),
            Err(why) => Err(self.refused(why)),
        }
    }

    // The stop of a line that is no event.
    fn refused(&self, why: LineRefusal) -> Stop
        ensures { result ≡ stop_of self.now.row why }
    {
        match why {
            LineRefusal::Event => Stop::Script {
                row: self.row,
                why: ScriptWhy::Event,
            },
            LineRefusal::Number => Stop::Script {
                row: self.row,
                why: ScriptWhy::Number,
            },
            LineRefusal::Memory => Stop::Memory,
        }
    }

    // Does an event, and answers the text that it prints.
    fn perform(&mut self, event: Event) -> Result<Vec<u8>, Stop>
        requires ready { IsPlaying self.old }
        requires form { IsOfForm self.old.listing.securities event }
        ensures done { IfOk result (λ text. Does (λ terms world. done_by terms world event) self.old self.new text.items) }
        ensures stopped { IfErr result (Refuses (λ terms world. done_by terms world event) self.old) }
    {
        match event {
            Event::Raw => self.print_bytes(),
            Event::Opens { conn } => self.open(conn),
            Event::Input { conn, bytes } => self.input(conn, bytes.bytes()),
            Event::Cut { conn } => self.cut(conn),
            Event::Tick { moment } => self.tick(moment),
            Event::Clear { security } => self.clear(security),
            Event::Beat => self.beat(),
            Event::Snap => self.snap(),
            Event::Deliver { feed, number } => self.deliver(feed, number),
            Event::Forge { feed, bytes } => self.forge(feed, bytes.bytes()),
            Event::Dial { conn, session } => self.dial(conn, session),
            Event::Order {
                security,
                side,
                price,
                qty,
                client,
            } => self.order(security, side, price, qty, client),
            Event::Up { count } => self.up(count),
            Event::Down { count } => self.down(count),
            Event::Show => self.show(),
            Event::List => self.list(),
        }
    }

    // RAW: from now on bytes are printed.
    fn print_bytes(&mut self) -> Result<Vec<u8>, Stop>
        ensures done { IfOk result (λ text. Does (λ terms world. done_by terms world kind.Raw) self.old self.new text.items) }
        ensures stopped { IfErr result (λ _. ⊥) }
    {
        self.raw = true;
        Ok(Vec::new(self.alloc))
    }

    // OPEN: a connection opens that isn't open, where fewer than 1,024 are.
    fn open(&mut self, conn: u32) -> Result<Vec<u8>, Stop>
        ensures done { IfOk result (λ text. Does (λ terms world. done_by terms world (kind.Opens conn)) self.old self.new text.items) }
        ensures stopped { IfErr result (Refuses (λ terms world. done_by terms world (kind.Opens conn)) self.old) }
    {
        if self.exchange.is_open(conn) {
            return Err(Stop::Script {
                row: self.row,
                why: ScriptWhy::Connection,
            });
        }
        if self.open_shut(conn).is_err() {
            return Err(Stop::Memory);
        }
        self.enter()
    }

    /// Opens a connection that isn't open, where fewer than 1,024 are. An error comes only where memory is wanting.
    pub(crate) fn open_shut(&mut self, conn: u32) -> Result<(), AllocError>
        requires { IsShut self.old.day conn }
        ensures { OnOk result (self.new ≡ record self.old { day = day_after self.old.day (Opened conn) }) }
    {
        if self.exchange.connections() >= 1024 {
            return Ok(());
        }
        self.exchange.opened(conn)
    }

    // IN: bytes come on an open connection that isn't the client's.
    fn input(&mut self, conn: u32, bytes: &[u8]) -> Result<Vec<u8>, Stop>
        ensures done { IfOk result (λ text. Does (λ terms world. done_by terms world (kind.Input conn bytes.now)) self.old self.new text.items) }
        ensures stopped { IfErr result (Refuses (λ terms world. done_by terms world (kind.Input conn bytes.now)) self.old) }
    {
        if any_on(&self.caller, conn) || !self.exchange.is_open(conn) {
            return Err(Stop::Script {
                row: self.row,
                why: ScriptWhy::Connection,
            });
        }
        if self.exchange.piece(conn, bytes, self.moment).is_err() {
            return Err(Stop::Memory);
        }
        self.enter()
    }

    // CUT: an open connection closes, and the client is cut where it is on it.
    fn cut(&mut self, conn: u32) -> Result<Vec<u8>, Stop>
        ensures done { IfOk result (λ text. Does (λ terms world. done_by terms world (kind.Cut conn)) self.old self.new text.items) }
        ensures stopped { IfErr result (Refuses (λ terms world. done_by terms world (kind.Cut conn)) self.old) }
    {
        if !self.exchange.is_open(conn) {
            return Err(Stop::Script {
                row: self.row,
                why: ScriptWhy::Connection,
            });
        }
        cut_on(&mut self.caller, conn);
        self.exchange.closed(conn);
        self.enter()
    }

    // TICK: the moment goes on, and the exchange ticks.
    fn tick(&mut self, moment: Moment) -> Result<Vec<u8>, Stop>
        ensures done { IfOk result (λ text. Does (λ terms world. done_by terms world (kind.Tick moment)) self.old self.new text.items) }
        ensures stopped { IfErr result (Refuses (λ terms world. done_by terms world (kind.Tick moment)) self.old) }
    {
        self.moment = moment;
        if self.exchange.tick(moment).is_err() {
            return Err(Stop::Memory);
        }
        self.enter()
    }

    // CLEAR: a security of the product is cleared, where fewer than 200,000 commands were accepted.
    fn clear(&mut self, security: SecurityId) -> Result<Vec<u8>, Stop>
        requires ready { IsPlaying self.old }
        requires listed { Contains self.old.listing.securities security }
        ensures done { IfOk result (λ text. Does (λ terms world. done_by terms world (kind.Clear security)) self.old self.new text.items) }
        ensures stopped { IfErr result (Refuses (λ terms world. done_by terms world (kind.Clear security)) self.old) }
    {
        match self.exchange.clear(security, self.moment) {
            Ok(()) => self.enter(),
            Err(ClearRefusal::DayFull) => day_full(self.alloc),
            Err(ClearRefusal::Memory) => Err(Stop::Memory),
        }
    }

    // BEAT: the exchange sends a heartbeat.
    fn beat(&mut self) -> Result<Vec<u8>, Stop>
        requires { IsPlaying self.old }
        ensures done { IfOk result (λ text. Does (λ terms world. done_by terms world kind.Beat) self.old self.new text.items) }
        ensures stopped { IfErr result (Refuses (λ terms world. done_by terms world kind.Beat) self.old) }
    {
        a_heartbeat_sends_one_more();
        genuine_stays();
        self.keep_beat()
    }

    // Keeps a heartbeat, and answers the text of it. An error comes only where memory is wanting.
    fn keep_beat(&mut self) -> Result<Vec<u8>, Stop>
        requires { IsPlaying self.old }
        ensures kit { OnOk result (self.new ≡ after_beat self.old) }
        ensures text { IfOk result (λ text. text.items
            ≡ text_of (under self.old.raw (datagram_lines (codes "LIVE") (length self.old.lives) (beat_of self.old.day ∷ [])))) }
        ensures only { IfErr result (λ stop. stop ≡ Stop.Memory) }
    {
        let mut out = [0u8; MOST_DATAGRAM];
        let mut text = Vec::new(self.alloc);
        let sent = self.exchange.beat(&mut out);
        let bytes = &out[..sent.len];
        if keep_datagram(
            self.alloc,
            self.raw,
            b"LIVE",
            bytes,
            &mut self.lives,
            &mut text,
        )
        .is_err()
        {
            return Err(Stop::Memory);
        }
        Ok(text)
    }

    // SNAP: the exchange sends the next snapshot datagram.
    fn snap(&mut self) -> Result<Vec<u8>, Stop>
        requires { IsPlaying self.old }
        ensures done { IfOk result (λ text. Does (λ terms world. done_by terms world kind.Snap) self.old self.new text.items) }
        ensures stopped { IfErr result (Refuses (λ terms world. done_by terms world kind.Snap) self.old) }
    {
        a_snapshot_sends_one_more();
        genuine_stays();
        self.keep_snap()
    }

    // Keeps the next snapshot datagram, and answers the text of it. An error comes only where memory is wanting.
    fn keep_snap(&mut self) -> Result<Vec<u8>, Stop>
        requires { IsPlaying self.old }
        ensures kept { IfOk result (λ text. KeepsSnap self.old self.new text.items) }
        ensures only { IfErr result (λ stop. stop ≡ Stop.Memory) }
    {
        let mut out = [0u8; MOST_DATAGRAM];
        let mut text = Vec::new(self.alloc);
        let sent = self.exchange.snap(&mut out);
        let bytes = &out[..sent.len];
        if keep_datagram(
            self.alloc,
            self.raw,
            b"SNAP",
            bytes,
            &mut self.snaps,
            &mut text,
        )
        .is_err()
        {
            return Err(Stop::Memory);
        }
        Ok(text)
    }

    // LA, LB, SA and SB: a datagram that was sent is delivered to the member.
    fn deliver(&mut self, feed: Feed, number: u64) -> Result<Vec<u8>, Stop>
        ensures done { IfOk result (λ text. Does (λ terms world. done_by terms world (kind.Deliver feed number)) self.old self.new text.items) }
        ensures stopped { IfErr result (Refuses (λ terms world. done_by terms world (kind.Deliver feed number)) self.old) }
    {
        what_was_sent_is_genuine();
        let sent = sent_on(feed, &self.lives, &self.snaps);
        let Some(datagram) = numbered(sent, number) else {
            return Err(Stop::Script {
                row: self.row,
                why: ScriptWhy::Datagram,
            });
        };
        give(self.alloc, &mut self.member, feed, datagram.bytes())
    }

    // FORGE: bytes are delivered to the member.
    fn forge(&mut self, feed: Feed, bytes: &[u8]) -> Result<Vec<u8>, Stop>
        ensures done { IfOk result (λ text. Does (λ terms world. done_by terms world (kind.Forge feed bytes.now)) self.old self.new text.items) }
        ensures stopped { IfErr result (Refuses (λ terms world. done_by terms world (kind.Forge feed bytes.now)) self.old) }
    {
        give(self.alloc, &mut self.member, feed, bytes)
    }

    // SHOW: the member's report.
    fn show(&self) -> Result<Vec<u8>, Stop>
        ensures done { IfOk result (λ text. Does (λ terms world. done_by terms world kind.Show) self.now self.now text.items) }
        ensures stopped { IfErr result (Refuses (λ terms world. done_by terms world kind.Show) self.now) }
    {
        kept_is_reported();
        what_is_shown_is_supported();
        self.exchange.is_sound();
        let mut text = Vec::new(self.alloc);
        if put_report(self.member.status(), self.member.orders(), &mut text).is_err() {
            return Err(Stop::Memory);
        }
        Ok(text)
    }

    /// Hands out what waits at the exchange after an event, which so is done. An error comes only where memory is wanting.
    pub(crate) fn enter(&mut self) -> Result<Vec<u8>, Stop>
        ensures done { IfOk result (λ text. (before : Kit) (event : Happening) → self.old ≡ record before { day = day_after before.day event }
            → Enters (λ terms world. entered terms world event) before self.new text.items) }
        ensures only { IfErr result (λ stop. stop ≡ Stop.Memory) }
    {
        days_stay_in_step();
        more_commands_send_more();
        genuine_stays();
        self.exchange.is_sound();
        self.hand_out()
    }

    // Hands out all that waits at the exchange, and answers the text of it. An error comes only where memory is wanting.
    fn hand_out(&mut self) -> Result<Vec<u8>, Stop>
        ensures kit { OnOk result (self.new ≡ handed self.old) }
        ensures said { OnOk result (AreSaidReplies self.old.day.setting.layouts self.old.day.waiting) }
        ensures text { IfOk result (λ text. text.items ≡ text_of (waiting_lines self.old)) }
        ensures only { IfErr result (λ stop. stop ≡ Stop.Memory) }
    {
        let mut text = Vec::new(self.alloc);
        if put_replies(
            self.alloc,
            &mut self.exchange,
            &mut self.caller,
            self.raw,
            &mut text,
        )
        .is_err()
        {
            return Err(Stop::Memory);
        }
        if keep_datagrams(
            self.alloc,
            &mut self.exchange,
            &mut self.lives,
            self.raw,
            &mut text,
        )
        .is_err()
        {
            return Err(Stop::Memory);
        }
        Ok(text)
    }
}

// The datagrams of the channel of a feed.
fn sent_on<'a>(feed: Feed, lives: &'a [Octets], snaps: &'a [Octets]) -> &'a [Octets]
    ensures { result.now ≡ on_channel (channel_of feed) lives.now snaps.now }
{
    match feed {
        Feed::LiveA | Feed::LiveB => lives,
        Feed::SnapA | Feed::SnapB => snaps,
    }
}

// The datagram of this number, counted from 1.
fn numbered(sent: &[Octets], number: u64) -> Option<&Octets>
    ensures { option_copied result ≡ at_number sent.now number }
{
    if number == 0 {
        return None;
    }
    sent.get((number - 1) as usize)
}

// Delivers bytes to the member on a feed, and answers the text of it. An error comes only where memory is wanting.
fn give(alloc: Global, member: &mut Member<'_>, feed: Feed, bytes: &[u8]) -> Result<Vec<u8>, Stop>
    ensures given { IfOk result (λ text. Gives feed bytes.now member.old member.new text.items) }
    ensures only { IfErr result (λ stop. stop ≡ Stop.Memory) }
{
    let answer = member.deliver(feed, bytes);
    refusal_text(alloc, answer)
}

// The text of a delivery that the member took or refused. An error comes only where memory is wanting.
fn refusal_text(alloc: Global, answer: Delivered) -> Result<Vec<u8>, Stop>
    ensures text { IfOk result (λ text. text.items ≡ text_of (bad_lines (fault_in answer))) }
    ensures only { IfErr result (λ stop. stop ≡ Stop.Memory) }
{
    let fault = match answer {
        Delivered::Taken => None,
        Delivered::Bad(fault) => Some(fault),
    };
    let mut text = Vec::new(alloc);
    if put_bad(fault, &mut text).is_err() {
        return Err(Stop::Memory);
    }
    Ok(text)
}

// The text of a day that has as many commands as it may. An error comes only where memory is wanting.
fn day_full(alloc: Global) -> Result<Vec<u8>, Stop>
    ensures text { IfOk result (λ text. text.items ≡ text_of (day_full_line ∷ [])) }
    ensures only { IfErr result (λ stop. stop ≡ Stop.Memory) }
{
    let mut text = Vec::new(alloc);
    if put_day_full(&mut text).is_err() {
        return Err(Stop::Memory);
    }
    Ok(text)
}

// Writes a text.
fn put_text<S: Sink>(text: &[u8], sink: &mut S) -> Result<(), Stop>
    ensures ok { OnOk result (Grew (S.written sink.old) (S.written sink.new) (λ added. added ≡ text.now)) }
    ensures err { OnErr result (Grew (S.written sink.old) (S.written sink.new) (λ added. Begins added text.now)) }
    ensures cause { HasCause (S.faults sink.old) (S.faults sink.new) result }
    ensures only { IfErr result (λ stop. stop ≡ Stop.WriteFault) }
{
    match sink.put(text) {
        Ok(()) => Ok(()),
        Err(_) => Err(Stop::WriteFault),
    }
}
