//! The day of the drill.

ghost use Rattle.std.specs.Prelude.{◌≡◌, ◌≢◌, ◌↔◌, IsTrue, ◌+◌, ◌++◌, ◌<◌, ◌≤◌, ℕ, [], length, IfOk, OnOk, if◌then◌else◌};
ghost use Rattle.t7_base.specs.declared.ids.Feed.TheVariants.{SnapB};
ghost use Rattle.t7_eti.specs.Requests.{IsAskable};
ghost use Rattle.t7_eti.specs.Saying.{EachOrdinary, request_fields};
ghost use Rattle.t7_drill.specs.Asking as asking;
ghost use Rattle.t7_book.specs.Trace.{AreAccepted};
ghost use Rattle.t7_drill.specs.Entering.{accepted_in, day_asked, some_reject};
ghost use Rattle.t7_entry.specs.Days.{day_after, last_of};
ghost use Rattle.t7_entry.specs.Events.{Opened};
ghost use Rattle.t7_exchange.specs.Sending.{terms_of};
ghost use Rattle.t7_feed.specs.Arrivals.{AreTerms};
ghost use Rattle.t7_feed.specs.Sending.{AreRanged};
ghost use Rattle.t7_outcome.specs.Outcome.{text_of};
ghost use Rattle.t7_drill.specs.Kits.{IsFew, Stands, Within, told_by, world_of};
ghost use Rattle.t7_drill.specs.Telling.{book_lines, count_lines, lines_of, tally_lines};
ghost use Rattle.t7_drill.specs.Worlds as world;
ghost use Rattle.t7_drill.specs.Worlds.{World};

use crate::asking::{draw_request, logon, opening};
use crate::entering::{ask, open};
use crate::feeding::{catch_up, feed};
use crate::snapping::{beat, snap};
use crate::telling::{book_totals, market_totals, put_number, put_state, put_tally, put_totals};
use std::alloc::{AllocError, Global};
use std::marker::Model;
use t7_base::{Feed, Octets, Product};
use t7_eti::Request;
use t7_exchange::Exchange;
use t7_layout::Table;
use t7_member::Member;
use t7_script::Draw;

// The connections of the first session and of the second.
const FIRST: u32 = 1;

const SECOND: u32 = 2;

/// The steps of the second phase.
pub const STEPS: u32 = 20_000;

/// The exchange and the member of a drill between two requests, with the generator, the numbers of the next requests of the first session and of
/// the second, how many requests were rejected, and the B copies that are kept.
#[derive(Drop)]
pub struct Drill<'t> {
    alloc: Global,
    table: &'t Table,
    exchange: Exchange<'t>,
    member: Member<'t>,
    draw: Draw,
    first: u32,
    second: u32,
    rejects: u32,
    copies: Vec<Octets>,
}

impl<'t> Model for Drill<'t> {
    ghost use Rattle.t7_drill.specs.Kits.{Kit};
    ghost use Rattle.t7_drill.specs.Inside.{kit_of};

    ghost Value = { Kit };

    ghost view = { kit_of };
}

// Opens both connections.
fn open_both(exchange: &mut Exchange<'_>) -> Result<(), AllocError>
    ensures { OnOk result (exchange.new ≡ day_after (day_after exchange.old (Opened 1)) (Opened 2)) }
{
    open(exchange, FIRST)?;
    open(exchange, SECOND)
}

// An exchange at the beginning of its day, with both connections open.
fn begun<'t>(
    alloc: Global,
    table: &'t Table,
    product: &'t Product,
) -> Result<Exchange<'t>, AllocError>
    ensures { IfOk result (λ exchange. exchange ≡ world.opened_day (record { layouts = table.now; listing = product.now })) }
{
    let mut exchange = Exchange::new(alloc, table, product)?;
    match open_both(&mut exchange) {
        Ok(()) => Ok(exchange),
        Err(_) => Err(AllocError),
    }
}

impl<'t> Drill<'t> {
    /// Both connections are open, and nothing was asked. An error comes only where memory is wanting.
    pub fn new(
        alloc: Global,
        table: &'t Table,
        product: &'t Product,
        seed: u64,
    ) -> Result<Drill<'t>, AllocError>
        ensures stands { IfOk result (λ drill. Stands (world.new_world (record { layouts = table.now; listing = product.now }) seed) drill) }
        ensures within { IfOk result (Within 0) }
    {
        let exchange = begun(alloc, table, product)?;
        Ok(Drill {
            alloc,
            table,
            exchange,
            member: Member::new(alloc, table, product)?,
            draw: Draw::new(seed),
            first: 1,
            second: 1,
            rejects: 0,
            copies: Vec::new(alloc),
        })
    }

    // A request goes through the exchange, and what is due reaches the member. Whether it was rejected.
    fn ask(&mut self, conn: u32, request: &Request) -> Result<bool, AllocError>
        requires within { Within 100_000 self.old }
        requires ordinary { EachOrdinary (request_fields request.now) }
        requires askable { IsAskable request.now }
        ensures stands { OnOk result ((w : World) → Stands w self.old → Stands (world.requested conn request.now w) self.new) }
        ensures rejected { IfOk result (λ r. r ≡ some_reject (day_asked conn request.now self.old.day).waiting) }
        ensures snaps { OnOk result (self.new.day.snaps ≡ self.old.day.snaps) }
        ensures within { OnOk result ((n : ℕ) → Within n self.old → Within n self.new) }
    {
        self.exchange.is_sound();
        let rejected = ask(&mut self.exchange, self.table, conn, request)?;
        feed(
            self.alloc,
            &mut self.exchange,
            &mut self.member,
            &mut self.draw,
            &mut self.copies,
        )?;
        Ok(rejected)
    }

    // A request of the drill goes through the exchange: its number is used, and it is counted where it is rejected.
    fn enter(&mut self, conn: u32, request: &Request) -> Result<(), AllocError>
        requires within { Within 100_000 self.old }
        requires ordinary { EachOrdinary (request_fields request.now) }
        requires askable { IsAskable request.now }
        ensures stands { OnOk result ((w : World) → Stands w self.old → Stands (world.counted conn (world.entered conn request.now w)) self.new) }
        ensures within { OnOk result ((n : ℕ) → Within n self.old → Within (n + 1) self.new) }
        ensures snaps { OnOk result (self.new.day.snaps ≡ self.old.day.snaps) }
    {
        let rejected = self.ask(conn, request)?;
        self.note(rejected);
        self.count(conn);
        Ok(())
    }

    // A request that was rejected is counted.
    fn note(&mut self, rejected: bool)
        requires { self.old.rejects ≤ 200_000 }
        ensures { self.new ≡ record self.old { rejects = self.old.rejects + (if rejected then 1 else 0) } }
    {
        if !rejected {
            return;
        }
        self.rejects += 1;
    }

    // The number of a session's next request is used.
    fn count(&mut self, conn: u32)
        requires first { self.old.first ≤ 200_000 }
        requires second { self.old.second ≤ 200_000 }
        ensures stands { (w : World) → Stands w self.old → Stands (world.counted conn w) self.new }
        ensures day { self.new.day ≡ self.old.day }
        ensures table { self.new.layouts ≡ self.old.layouts }
        ensures rejects { self.new.rejects ≡ self.old.rejects }
        ensures first { self.new.first ≤ self.old.first + 1 }
        ensures second { self.new.second ≤ self.old.second + 1 }
    {
        if conn == FIRST {
            self.first += 1;
        } else {
            self.second += 1;
        }
    }

    // A snapshot datagram is sent, and delivered on line A unless the draw of eight is 0.
    fn rotate(&mut self)
        requires { Within 100_000 self.old }
        ensures stands { (w : World) → Stands w self.old → Stands (world.rotated w) self.new }
        ensures within { (n : ℕ) → Within n self.old → self.old.day.snaps + 1 ≤ n → Within n self.new }
        ensures snaps { self.new.day.snaps ≡ self.old.day.snaps + 1 }
    {
        self.exchange.is_sound();
        let number = self.draw.next(8);
        snap(&mut self.exchange, &mut self.member, Feed::SnapA, number);
    }

    // After each fourth request of a phase a snapshot datagram is sent.
    fn after(&mut self, i: u32)
        requires { Within 100_000 self.old }
        ensures stands { (w : World) → Stands w self.old → Stands (world.after i w) self.new }
        ensures within { (n : ℕ) → Within n self.old → self.old.day.snaps + 1 ≤ n → Within n self.new }
    {
        if i % 4 != 0 {
            return;
        }
        self.rotate();
    }

    // Order i of the first phase.
    fn open_order(&mut self, i: u32) -> Result<(), AllocError>
        requires { Within 99_999 self.old }
        ensures stands { OnOk result ((w : World) → Stands w self.old → Stands (world.opened i w) self.new) }
        ensures within { OnOk result ((n : ℕ) → Within n self.old → Within (n + 1) self.new) }
    {
        let request = opening(self.first, i);
        self.enter(FIRST, &request)?;
        self.after(i);
        Ok(())
    }

    // What the next step of the second phase asks for, and on which connection.
    fn draw_step(&mut self) -> (u32, Request)
        requires { Within 100_000 self.old }
        ensures conn { result.0 ≡ world.step_conn (world_of self.old [] []) }
        ensures request { result.1 ≡ (world.step_asked (world_of self.old [] [])).request }
        ensures state { self.new ≡ record self.old { draw = (world.step_asked (world_of self.old [] [])).draw } }
        ensures ordinary { EachOrdinary (request_fields result.1) }
        ensures askable { IsAskable result.1 }
    {
        self.exchange.is_sound();
        let kind = self.draw.next(10);
        let conn = 1 + self.draw.next(2) as u32;
        let number = self.number(conn);
        let last = self.exchange.book().last_id();
        let request = draw_request(&mut self.draw, kind, number, last.0);
        (conn, request)
    }

    // The number of a session's next request.
    fn number(&self, conn: u32) -> u32
        ensures { result ≡ world.number_on conn (world_of self.now [] []) }
    {
        if conn == FIRST {
            self.first
        } else {
            self.second
        }
    }

    // Step i of the second phase.
    fn step(&mut self, i: u32) -> Result<(), AllocError>
        requires { Within 99_999 self.old }
        ensures stands { OnOk result ((w : World) → Stands w self.old → Stands (world.step i w) self.new) }
        ensures within { OnOk result ((n : ℕ) → Within n self.old → Within (n + 1) self.new) }
    {
        let (conn, request) = self.draw_step();
        self.enter(conn, &request)?;
        self.after(i);
        Ok(())
    }

    // Both sessions log on.
    fn log_on(&mut self) -> Result<(), AllocError>
        requires { Within 10 self.old }
        ensures stands { OnOk result ((w : World) → Stands w self.old → Stands (world.logged_on w) self.new) }
        ensures within { OnOk result (Within 12 self.new) }
    {
        self.enter(FIRST, &logon(21))?;
        self.enter(SECOND, &logon(22))?;
        Ok(())
    }

    // The first phase.
    fn first_phase(&mut self, orders: u32) -> Result<(), AllocError>
        requires few { orders ≤ 20_000 }
        requires within { Within 12 self.old }
        ensures stands { OnOk result ((w : World) → Stands w self.old → Stands (world.first_phase orders w) self.new) }
        ensures within { OnOk result (Within 20_012 self.new) }
    {
        for i in 0..orders {
            self.open_order(i + 1)?;
        }
        Ok(())
    }

    // The second phase.
    fn second_phase(&mut self, steps: u32) -> Result<(), AllocError>
        requires few { steps ≤ 20_000 }
        requires within { Within 20_012 self.old }
        ensures stands { OnOk result ((w : World) → Stands w self.old → Stands (world.second_phase steps w) self.new) }
        ensures within { OnOk result (Within 40_012 self.new) }
    {
        for i in 0..steps {
            self.step(i + 1)?;
        }
        Ok(())
    }

    // The B copies that are kept are delivered.
    fn catch_up(&mut self)
        ensures stands { (w : World) → Stands w self.old → Stands (world.caught_up w) self.new }
        ensures day { self.new.day ≡ self.old.day }
    {
        self.exchange.is_sound();
        catch_up(&mut self.member, &mut self.copies);
    }

    // A snapshot datagram is sent, and delivered on line B.
    fn snap(&mut self)
        requires none { self.old.day.untold ≡ [] }
        requires few { self.old.day.snaps < 4_000_000_000 }
        ensures stands { (w : World) → Stands w self.old → Stands (world.snap_on SnapB w) self.new }
        ensures day { self.new.day ≡ world.snapped self.old.day }
        ensures some { length (world.to_send self.old.day) ≡ length self.new.day.left + 1 }
        ensures left { length self.old.day.left ≤ 21_001 → length self.new.day.left ≤ 21_001 }
    {
        self.exchange.is_sound();
        snap(&mut self.exchange, &mut self.member, Feed::SnapB, 1);
    }

    // Whether a snapshot cycle is under way.
    fn is_under_way(&self) -> bool
        ensures { IsTrue result ↔ (self.now.day.left ≢ []) }
    {
        self.exchange.under_way()
    }

    // The cycle under way is sent to its end.
    fn end_cycle(&mut self)
        requires none { self.old.day.untold ≡ [] }
        requires left { length self.old.day.left ≤ 21_001 }
        requires few { self.old.day.snaps ≤ 1_000_000_000 }
        ensures stands { (w : World) → Stands w self.old → Stands (world.cycle_ended w) self.new }
        ensures none { self.new.day.untold ≡ [] }
        ensures left { self.new.day.left ≡ [] }
        ensures few { self.new.day.snaps ≤ self.old.day.snaps + 21_001 }
        ensures beats { self.new.day.beats ≡ self.old.day.beats }
    {
        while self.is_under_way() {
            self.snap();
        }
    }

    // One whole cycle is begun and sent.
    fn send_cycle(&mut self)
        requires none { self.old.day.untold ≡ [] }
        requires left { self.old.day.left ≡ [] }
        requires few { self.old.day.snaps ≤ 900_000_000 }
        ensures stands { (w : World) → Stands w self.old → Stands (world.cycled w) self.new }
        ensures none { self.new.day.untold ≡ [] }
        ensures few { self.new.day.snaps ≤ 1_000_000_000 }
        ensures beats { self.new.day.beats ≡ self.old.day.beats }
    {
        self.snap();
        self.end_cycle();
    }

    // A Heartbeat is sent, and delivered on line A.
    fn beat(&mut self)
        requires none { self.old.day.untold ≡ [] }
        requires few { self.old.day.beats ≡ 0 }
        ensures stands { (w : World) → Stands w self.old → Stands (world.beaten w) self.new }
        ensures snaps { self.new.day.snaps ≡ self.old.day.snaps }
        ensures beats { self.new.day.beats ≡ 1 }
    {
        self.exchange.is_sound();
        beat(&mut self.exchange, &mut self.member);
    }

    // The end of the day.
    fn close(&mut self)
        requires { Within 100_000 self.old }
        ensures stands { (w : World) → Stands w self.old → Stands (world.closed w) self.new }
        ensures few { IsFew self.new.day }
    {
        self.catch_up();
        self.end_cycle();
        self.send_cycle();
        self.beat();
    }

    /// The whole day. An error comes only where memory is wanting.
    pub fn run(&mut self, orders: u32) -> Result<(), AllocError>
        requires few { orders ≤ 20_000 }
        requires within { Within 10 self.old }
        ensures stands { OnOk result ((w : World) → Stands w self.old → Stands (world.day_of orders STEPS w) self.new) }
        ensures few { OnOk result (IsFew self.new.day) }
    {
        self.log_on()?;
        self.first_phase(orders)?;
        self.second_phase(STEPS)?;
        self.close();
        Ok(())
    }

    /// The lines of the drill. An error comes only where memory is wanting.
    pub fn tell(&self) -> Result<Vec<u8>, AllocError>
        ensures { IfOk result (λ text. text.items ≡ text_of (lines_of (told_by self.now))) }
    {
        let mut text = Vec::new(self.alloc);
        self.put_counts(&mut text)?;
        self.put_tallies(&mut text)?;
        self.put_books(&mut text)?;
        Ok(text)
    }

    // Puts the counts of the exchange.
    fn put_counts(&self, text: &mut Vec<u8>) -> Result<(), AllocError>
        ensures { OnOk result (text.new.items ≡ text.old.items ++ text_of (count_lines (told_by self.now))) }
    {
        put_number(text, b"COMMANDS ", self.exchange.accepted().len() as u64)?;
        put_number(text, b"REJECTS ", self.rejects as u64)?;
        put_number(text, b"MESSAGES ", self.exchange.last() as u64)
    }

    // Puts the tallies of the member.
    fn put_tallies(&self, text: &mut Vec<u8>) -> Result<(), AllocError>
        ensures { OnOk result (text.new.items ≡ text.old.items ++ text_of (tally_lines (told_by self.now).tallies)) }
    {
        put_tally(text, Feed::LiveA, self.member.tally(Feed::LiveA))?;
        put_tally(text, Feed::LiveB, self.member.tally(Feed::LiveB))?;
        put_tally(text, Feed::SnapA, self.member.tally(Feed::SnapA))?;
        put_tally(text, Feed::SnapB, self.member.tally(Feed::SnapB))?;
        Ok(())
    }

    // Puts both books, and what the member shows.
    fn put_books(&self, text: &mut Vec<u8>) -> Result<(), AllocError>
        ensures { OnOk result (text.new.items ≡ text.old.items ++ text_of (book_lines (told_by self.now))) }
    {
        put_totals(text, b"BOOK ", book_totals(self.exchange.book().walk()))?;
        put_totals(text, b"MEMBER ", market_totals(self.member.orders()))?;
        put_state(text, self.member.status())
    }

    /// How many messages the exchange sent.
    pub fn messages(&self) -> u64
        ensures { result ≡ last_of self.now.day }
    {
        self.exchange.last() as u64
    }

    /// The layout table and the product are valid, and the commands that were accepted are ones of an exchange.
    pub fn is_sound(&self)
        ensures terms { AreTerms (terms_of self.now.day) }
        ensures accepted { AreAccepted self.now.day.setting.listing (accepted_in self.now.day) }
        ensures ranged { AreRanged (accepted_in self.now.day) }
    {
        self.exchange.is_sound();
    }
}
