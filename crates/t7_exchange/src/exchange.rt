//! The exchange.

ghost use Rattle.std.specs.Prelude.{◌≡◌, ◌≢◌, ◌+◌, ◌-◌, ◌<◌, ◌≤◌, ◌++◌, ◌↔◌, [], length, take, drop, min, IsTrue, Contains, Err};
ghost use Rattle.std.specs.Prelude.{OnOk, OnErr, IfOk, IfErr, MatchBool, MatchOption};
ghost use Rattle.t7_frames.specs.Frames.{front_of, not_yet};
ghost use Rattle.t7_book.specs.Trace.{AreAccepted};
ghost use Rattle.t7_orders.specs.Answers.{responses};
ghost use Rattle.t7_orders.specs.Judged.{is_day_full};
ghost use Rattle.t7_packets.specs.Packing.{of_beat};
ghost use Rattle.t7_entry.specs.ByNumber.{Rises, len};
ghost use Rattle.t7_entry.specs.State.{book_of};
ghost use Rattle.t7_entry.specs.Events.{Bytes, Clear, Closed, Opened, Tick};
ghost use Rattle.t7_entry.specs.Days.{day_after, last_of, new_day};
ghost use Rattle.t7_entry.specs.Stalls.{IsOpen, IsShut, Stalls, front_treated, taken, untreated_of};
ghost use Rattle.t7_feed.specs.Arrivals.{AreTerms};
ghost use Rattle.t7_feed.specs.Sending.{AreRanged};
ghost use Rattle.t7_exchange.specs.Handed.{FirstIsSaid, first_handed, first_refused_for, first_written};
ghost use Rattle.t7_book.specs.Orders.{roster_of};
ghost use Rattle.t7_exchange.specs.Outbox.{IsPut, empty_outbox};
ghost use Rattle.t7_exchange.specs.Paired.{ArePaired};
ghost use Rattle.t7_exchange.specs.Sending.{IsSent, IsSnapped};
ghost use Rattle.t7_exchange.specs.Trading.{fresh_desk};

use crate::desk::Desk;
use crate::outbox::Outbox;
use crate::pieces::{Engine, Stalled, piece};
use crate::replies::Reply;
use crate::sent::{ClearRefusal, Sent};
use crate::serving::{answer, enter};
use crate::wires::{Waiting, Wires};
use std::alloc::{AllocError, Global};
use std::marker::Model;
use t7_base::{Moment, Product, SecurityId, SessionId};
use t7_book::{Book, Command};
use t7_entry::last_markets_are_books;
use t7_eti::{Kept, Reason, ordinary_responses_may_be_written, write_response};
use t7_layout::Table;
use t7_orders::MOST_COMMANDS;
use t7_session::Step;

/// The exchange of a product: order entry over any number of connections, the book, the stored responses, and the datagrams of both
/// channels, live and snapshot.
///
/// Contracts see it as `Day`: the layout table and the product, order entry with its accepted commands, the replies that wait in
/// the order of their causes, the messages that are still to be sent, the snapshot cycle under way, and the counts of datagrams.
#[derive(Drop)]
pub struct Exchange<'t> {
    alloc: Global,
    table: &'t Table,
    product: &'t Product,
    desk: Desk,
    wires: Wires,
    outbox: Outbox<'t>,
}

impl<'t> Model for Exchange<'t> {
    ghost use Rattle.t7_entry.specs.Days.{Day};
    ghost use Rattle.t7_exchange.specs.Inside.{IsExchange, day_in};

    ghost Value = { Day };

    ghost view = { day_in };

    ghost invariant = { IsExchange };
}

impl Engine for Exchange<'_> {
    ghost day = { λ e. e };

    fn has_open(&self, conn: u32) -> bool {
        self.wires.is_open(conn)
    }

    fn take(&mut self, conn: u32, bytes: &[u8], moment: Moment) -> usize {
        self.wires.feed(conn, bytes, moment)
    }

    fn treat_front(&mut self, conn: u32, moment: Moment) -> Result<bool, AllocError> {
        match self.wires.step(conn, self.table) {
            Step::NotYet => Ok(false),
            Step::Refuse { seq, reason } => {
                self.wires.reserve(2)?;
                self.wires.refuse(conn, moment, seq, reason);
                Ok(true)
            }
            Step::Ask(request) => {
                answer(
                    self.alloc,
                    self.product,
                    &mut self.desk,
                    &mut self.wires,
                    &mut self.outbox,
                    conn,
                    moment,
                    &request,
                )?;
                Ok(true)
            }
        }
    }
}

impl<'t> Exchange<'t> {
    /// The beginning of a day: no connection is open, and no command was accepted.
    ///
    /// An error comes only where memory is wanting.
    pub fn new(
        alloc: Global,
        table: &'t Table,
        product: &'t Product,
    ) -> Result<Exchange<'t>, AllocError>
        ensures { IfOk result (λ e. e ≡ new_day (record { layouts = table.now; listing = product.now })) }
    {
        let desk = Desk::new(alloc, product)?;
        let outbox = Outbox::new(alloc, table, product)?;
        Ok(Exchange::of(alloc, table, product, desk, outbox))
    }

    // An exchange of a desk that accepted nothing and an outbox that told nothing.
    fn of(
        alloc: Global,
        table: &'t Table,
        product: &'t Product,
        desk: Desk,
        outbox: Outbox<'t>,
    ) -> Exchange<'t>
        requires desk { desk ≡ fresh_desk (roster_of product.now) }
        requires outbox { outbox ≡ empty_outbox (record { layouts = table.now; listing = product.now }) outbox.spare outbox.cycle.spare }
        ensures { result ≡ new_day (record { layouts = table.now; listing = product.now }) }
    {
        let _templates = table.templates();
        let _sessions = product.sessions();
        Exchange {
            alloc,
            table,
            product,
            desk,
            wires: Wires::new(alloc),
            outbox,
        }
    }

    /// Whether a connection is open.
    pub fn is_open(&self, conn: u32) -> bool
        ensures { MatchBool result (IsOpen self.now conn) (IsShut self.now conn) }
    {
        self.wires.is_open(conn)
    }

    /// How many connections are open, at most 1,024.
    pub fn connections(&self) -> usize
        ensures { result ≡ len self.now.state.inputs }
    {
        self.wires.len()
    }

    /// A connection is opened, which isn't open, where fewer than 1,024 are. After an error everything is as before.
    pub fn opened(&mut self, conn: u32) -> Result<(), AllocError>
        requires shut { IsShut self.old conn }
        requires few { len self.old.state.inputs < 1024 }
        ensures ok { OnOk result (self.new ≡ day_after self.old (Opened conn)) }
        ensures err { OnErr result (self.new ≡ self.old) }
    {
        self.wires.open(self.alloc, conn)
    }

    /// A piece of an open connection's bytes comes. Each whole frame is treated: the first failing of the nineteen tests gives its
    /// Reject, else what is asked is answered. Bytes behind a close are ignored.
    ///
    /// `Stalled` comes only where memory is wanting for the answer to a frame.
    pub fn piece(&mut self, conn: u32, bytes: &[u8], moment: Moment) -> Result<(), Stalled>
        requires { IsOpen self.old conn }
        ensures ok { OnOk result (self.new ≡ day_after self.old (Bytes conn bytes.now moment)) }
        ensures stalled { IfErr result (λ s. Stalls self.old self.new conn bytes.now moment s.taken) }
    {
        piece(self, conn, bytes, moment)
    }

    /// A peer has closed its connection, whose session is free from now on. The replies that wait for it stay.
    pub fn closed(&mut self, conn: u32)
        ensures { self.new ≡ day_after self.old (Closed conn) }
    {
        self.wires.forget(conn);
    }

    /// Each open connection does what the heartbeat rule wants at a moment, by rising number. After an error everything is as
    /// before.
    pub fn tick(&mut self, moment: Moment) -> Result<(), AllocError>
        ensures ok { OnOk result (self.new ≡ day_after self.old (Tick moment)) }
        ensures err { OnErr result (self.new ≡ self.old) }
    {
        self.wires.tick(self.alloc, moment)
    }

    /// The exchange clears a security of the product: its orders are deleted, which their owners and the feed are told.
    ///
    /// `DayFull` comes exactly where 200,000 commands were accepted, and `Memory` only where memory is wanting. After either
    /// everything is as before.
    pub fn clear(&mut self, security: SecurityId, moment: Moment) -> Result<(), ClearRefusal>
        requires { Contains self.old.setting.listing.securities security }
        ensures ok { OnOk result (self.new ≡ day_after self.old (Clear security moment)) }
        ensures full { (result ≡ Err ClearRefusal.DayFull) ↔ IsTrue (is_day_full (length self.old.state.core.accepted)) }
        ensures err { OnErr result (self.new ≡ self.old) }
    {
        let _nanoseconds = moment.get();
        if self.desk.len() >= MOST_COMMANDS as usize {
            return Err(ClearRefusal::DayFull);
        }
        let command = Command::Clear { moment, security };
        if let Err(_) = enter(
            self.alloc,
            self.product,
            &mut self.desk,
            &mut self.wires,
            &mut self.outbox,
            &command,
        ) {
            return Err(ClearRefusal::Memory);
        }
        self.wires.deliver(moment, self.desk.fresh());
        Ok(())
    }

    /// Why a request is refused, where the first reply that waits is a Reject.
    pub fn next_refusal(&self) -> Option<Reason>
        ensures { result ≡ first_refused_for self.now.waiting }
    {
        self.wires.next_refusal()
    }

    /// The first reply that waits is taken off: a frame, which is written to the front of `out` and is read as the response that it says, or a
    /// close. None exactly where nothing waits.
    pub fn next_reply(&mut self, out: &mut [u8]) -> Option<Reply>
        requires { 1024 ≤ length out.old }
        ensures reply { result ≡ first_handed self.old.setting.layouts self.old.waiting }
        ensures bytes { out.new ≡ first_written self.old.setting.layouts self.old.waiting out.old }
        ensures said { FirstIsSaid self.old.setting.layouts self.old.waiting }
        ensures others { self.new ≡ record self.old { waiting = drop 1 self.old.waiting } }
    {
        ordinary_responses_may_be_written();
        match self.wires.next_reply() {
            None => None,
            Some(Waiting::Closes { conn }) => Some(Reply::Close { conn }),
            Some(Waiting::Sends { conn, response }) => {
                let len = write_response(self.table, &response, out);
                Some(Reply::Bytes { conn, len })
            }
        }
    }

    /// The next live datagram, which is written to the front of `out`: of one command's messages as many as fit. None exactly
    /// where no message waits.
    pub fn next_datagram(&mut self, out: &mut [u8]) -> Option<Sent>
        requires { 1472 ≤ length out.old }
        ensures { MatchOption result ((self.old.untold ≡ []) × (self.new ≡ self.old) × (out.new ≡ out.old)) (λ s. IsSent self.old self.new out.old out.new s) }
    {
        self.outbox.next_datagram(self.table, self.product, out)
    }

    /// A live datagram of one Heartbeat, which names the last message, is written to the front of `out`, where no message waits
    /// and fewer than 2,000,000,000 were written.
    pub fn beat(&mut self, out: &mut [u8]) -> Sent
        requires none { self.old.untold ≡ [] }
        requires few { self.old.beats < 2_000_000_000 }
        requires room { 1472 ≤ length out.old }
        ensures put { IsPut self.old.setting.layouts self.old.setting.listing.segment (of_beat (self.old.live + 1) (last_of self.old)) out.old out.new result }
        ensures counted { self.new ≡ record self.old { live = self.old.live + 1; beats = self.old.beats + 1 } }
    {
        self.outbox.beat(self.table, self.product, out)
    }

    /// The next snapshot datagram is written to the front of `out`, where no message waits and fewer than 4,000,000,000 were written: of the
    /// cycle under way, or the first of a new one, which freezes the book beside the last message. No memory is taken.
    pub fn snap(&mut self, out: &mut [u8]) -> Sent
        requires none { self.old.untold ≡ [] }
        requires few { self.old.snaps < 4_000_000_000 }
        requires room { 1472 ≤ length out.old }
        ensures { IsSnapped self.old self.new out.old out.new result }
    {
        last_markets_are_books();
        self.outbox.snap(out)
    }

    /// Whether a snapshot cycle is under way: datagrams of it are left.
    pub fn under_way(&self) -> bool
        ensures { IsTrue result ↔ (self.now.left ≢ []) }
    {
        self.outbox.under_way()
    }

    /// What always holds of the day: the layout table and the product are valid, the book refused none of the accepted commands,
    /// their fields are in their ranges, and a connection on which nothing may come has no line.
    pub fn is_sound(&self)
        ensures terms { AreTerms (record { layouts = self.now.setting.layouts; listing = self.now.setting.listing }) }
        ensures accepted { AreAccepted self.now.setting.listing self.now.state.core.accepted }
        ensures ranged { AreRanged self.now.state.core.accepted }
        ensures paired { ArePaired self.now.state }
    {
        let _desk = &self.desk;
    }

    /// The number of the last message of the accepted commands, sent or not; 0 where there was none.
    pub fn last(&self) -> u32
        ensures { result ≡ last_of self.now }
    {
        self.outbox.last()
    }

    /// The accepted commands.
    pub fn accepted(&self) -> &[Command]
        ensures commands { result.now ≡ self.now.state.core.accepted }
        ensures accepted { AreAccepted self.now.setting.listing self.now.state.core.accepted }
    {
        self.desk.commands()
    }

    /// The recoverable responses that are stored for a session of the product, numbered from 1.
    pub fn kept(&self, session: SessionId) -> &[Kept]
        requires { Contains self.now.setting.listing.sessions session }
        ensures { result.now ≡ responses self.now.setting.listing self.now.state.core.accepted session }
    {
        self.desk.kept(session)
    }

    /// The book.
    pub fn book(&self) -> &Book
        ensures { result.now ≡ book_of self.now.setting self.now.state.core.accepted }
    {
        self.desk.book()
    }
}
