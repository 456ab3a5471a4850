//! The member: two lines of live messages, rotating snapshots, and the book of the exchange.

ghost use Rattle.std.specs.Prelude.{◌≡◌, ℕ, ◌+◌, ◌<◌, ◌≤◌, max, List, Option, MatchOption};
ghost use Rattle.std.specs.Prelude.{MatchResult, IsTrue, ◌↔◌, OnOk, OnErr, IfSome, IfNone, None};
ghost use Rattle.std.specs.Prelude.{Some, [], ◌∷◌, ◌++◌, IfOk, false, ◌||◌, Bool, get_or, length};
ghost use Rattle.std.specs.List.{All};
ghost use Rattle.t7_base.specs.Listing.{IsListing, Listing};
ghost use Rattle.t7_base.specs.declared.public.Resting.{Resting};
ghost use Rattle.t7_base.specs.declared.public.Public.TheVariants as public;
ghost use Rattle.t7_eobi.specs.Bytes.{IsLiveItem};
ghost use Rattle.t7_eobi.specs.Datagrams.{lives_left, lives_of, packet_number, snaps_left, snaps_of};
ghost use Rattle.t7_eobi.specs.Faults.{fault_of};
ghost use Rattle.t7_mbook.specs.declared.misfit.Misfit.{Misfit};
ghost use Rattle.t7_mbook.specs.Misfits.{misfit_of};
ghost use Rattle.t7_mbook.specs.Walk.{walk_rest};
ghost use Rattle.t7_lines.specs.Gap.{kept_at, no_tallies, noted_on, raised, tally_of};
ghost use Rattle.t7_book.specs.Acts.{Act};
ghost use Rattle.t7_feed.specs.Arrivals.{Arrival, Delivery, Packet, Told, Terms, arrivals, channel_of, greatest_named, reading_of, told};
ghost use Rattle.t7_feed.specs.Cycles.{Section, orders_of};
ghost use Rattle.t7_feed.specs.Fitting.{staged, stepped};
ghost use Rattle.t7_feed.specs.Sending.{AreActs};
ghost use Rattle.t7_feed.specs.Whole.{IsBelow};
ghost use Rattle.t7_snapshot.specs.Store.{Store, free, reading, seen, Takes};
ghost use Rattle.t7_snapshot.specs.Taking.{IsCycle};
ghost use Rattle.t7_member.specs.Keeping.{Image, Keeps};
ghost use Rattle.t7_member.specs.declared.member.Delivered.TheVariants as delivered;
ghost use Rattle.t7_member.specs.Status.{shown_of, status_of};
ghost use Rattle.t7_member.specs.Steps.{Chains, Hears, IsFresh, IsKeptOrNext, IsNewPacket};
ghost use Rattle.t7_member.specs.Steps.{Receives, Settles, Delivers, TakesDatagram, Tells};
ghost use Rattle.t7_member.specs.Steps.{TellsOne, beaten, dropped, moved, noted};
ghost use Rattle.t7_member.specs.Taking.{IsUpTo, Stages};

use crate::standing::{Refusal, Standing};
use std::alloc::{AllocError, Global};
use std::marker::Model;
use t7_base::{Channel, Feed, Product, Public};
use t7_eobi::{Live, LiveWalk, Packet, PacketFault, Snap, SnapWalk};
use t7_feed::State;
use t7_layout::Table;
use t7_lines::{GapBuffer, Put, Tally};
use t7_mbook::{MarketBook, MarketWalk, Misfit};
use t7_snapshot::{Assembler, WholeSnapshot};

/// What became of a delivery.
#[derive(Clone, Copy, Debug, PartialEq, Eq)]
pub enum Delivered {
    /// It was accepted.
    Taken,
    /// It was refused, which changes nothing but the count of such deliveries.
    Bad(PacketFault),
}

// Whether there is no base, or one below the number.
fn is_below(base: Option<u32>, number: u32) -> bool
    ensures { IsTrue result ↔ IsBelow base number }
{
    match base {
        Some(n) => n < number,
        None => true,
    }
}

// Whether a snapshot at m may be adopted.
fn may_adopt(base: Option<u32>, refused: Option<Refusal>, m: u32) -> bool
    ensures { IsTrue result ↔ (IsBelow base m × IsUpTo refused m) }
{
    let reached = match refused {
        Some(q) => q.number <= m,
        None => true,
    };
    is_below(base, m) && reached
}

// The greatest number that a ProductSummary among items names.
fn greatest_named(snaps: SnapWalk<'_>) -> u32
    ensures { result ≡ greatest_named (snaps_left snaps.entry) }
{
    let mut most = 0;
    for snap in snaps {
        if let Snap::Product(number) = snap {
            most = number.max(most);
        }
    }
    most
}

// Stages the orders of a whole snapshot, up to one that misfits.
fn stage_all(book: &mut MarketBook, whole: &WholeSnapshot<'_>) -> Result<(), Misfit>
    ensures orders { book.new.orders ≡ book.old.orders }
    ensures securities { book.new.securities ≡ book.old.securities }
    ensures fits { OnOk result ((parts : List Section) → IsCycle whole.now parts
        → staged book.old.securities (orders_of parts) [] ≡ Some book.new.staged) }
    ensures misfits { OnErr result ((parts : List Section) → IsCycle whole.now parts → staged book.old.securities (orders_of parts) [] ≡ None) }
{
    book.stage();
    for order in whole.orders() {
        if let Err(why) = book.stage_order(order) {
            return Err(why);
        }
    }
    Ok(())
}

// Takes a snapshot datagram, and stages the whole cycle in which it stands, where that may be adopted.
fn stage_from(
    assembler: &mut Assembler<'_>,
    book: &mut MarketBook,
    base: Option<u32>,
    refused: Option<Refusal>,
    packet: &Packet<'_>,
) -> Option<u32>
    requires reading { packet.now.reading ≡ reading assembler.old.terms }
    requires sound { fault_of packet.now.reading packet.now.bytes ≡ None }
    requires securities { book.old.securities ≡ assembler.old.terms.listing.securities }
    ensures takes { Takes (packet_number packet.now.reading.layouts packet.now.bytes) packet.now.bytes assembler.old assembler.new }
    ensures orders { book.new.orders ≡ book.old.orders }
    ensures same { book.new.securities ≡ book.old.securities }
    ensures below { IfSome result (λ m. m < 4294967295) }
    ensures stages { Stages assembler.old.terms.listing.securities (seen assembler.new) (packet_number packet.now.reading.layouts packet.now.bytes)
        base refused book.new.staged result }
{
    let Some(whole) = assembler.take(packet) else {
        return None;
    };
    if !may_adopt(base, refused, whole.number()) {
        return None;
    }
    let Ok(()) = stage_all(book, &whole) else {
        return None;
    };
    Some(whole.number())
}

// The channel of a feed.
fn channel_of(feed: Feed) -> Channel
    ensures { result ≡ channel_of feed }
{
    match feed {
        Feed::LiveA | Feed::LiveB => Channel::Live,
        Feed::SnapA | Feed::SnapB => Channel::Snap,
    }
}

// Whether one of two things is so.
fn either(first: bool, second: bool) -> bool
    ensures { result ≡ (first || second) }
{
    first || second
}

/// The member of the EOBI feed of one product. It takes datagrams from two lines, live and snapshot, in any order and any number of times, repairs losses
/// from the other line and from snapshots, and keeps the book of the exchange. It keeps at most as many live messages and snapshot datagrams as
/// the product's windows have numbers, and two lists of 20,000 orders; only `new` takes memory.
///
/// Contracts see it as `Image`: what it is read by, its base or none, its list, the kept messages and snapshot datagrams by their
/// numbers, the highest numbers, the greatest known number, what was refused, and the counts.
#[derive(Drop)]
pub struct Member<'t> {
    table: &'t Table,
    product: &'t Product,
    gap: GapBuffer,
    assembler: Assembler<'t>,
    book: MarketBook,
    standing: Standing,
    known: u32,
    bad: u64,
}

impl<'t> Model for Member<'t> {
    ghost use Rattle.t7_member.specs.Keeping.{Image};
    ghost use Rattle.t7_member.specs.Inside.{image_of, IsMember};

    ghost Value = { Image };

    ghost view = { image_of };

    ghost invariant = { IsMember };
}

impl<'t> Member<'t> {
    /// A member that nothing came to; takes all its memory.
    ///
    /// An error comes only where memory is wanting.
    pub fn new(
        alloc: Global,
        table: &'t Table,
        product: &'t Product,
    ) -> Result<Member<'t>, AllocError>
        ensures terms { IfOk result (λ m. m.terms ≡ record { layouts = table.now; listing = product.now }) }
        ensures tallies { IfOk result (λ m. m.tallies ≡ no_tallies) }
        ensures bad { IfOk result (λ m. m.bad ≡ 0) }
        ensures keeps { IfOk result (λ m. (acts : List Act) → Keeps m.terms acts m []) }
    {
        let gap = GapBuffer::new(alloc, product.window())?;
        let assembler = Assembler::new(alloc, table, product)?;
        let book = MarketBook::new(alloc, product)?;
        Ok(Member {
            table,
            product,
            gap,
            assembler,
            book,
            standing: Standing::Waits,
            known: 0,
            bad: 0,
        })
    }

    // Applies message n + 1 beside the base n, or refuses it.
    fn advance(&mut self, n: u32, message: &Public)
        requires based { self.old.base ≡ Some n }
        requires room { n < 4294967294 }
        ensures fits { (list : List Resting) → stepped self.old.terms.listing.securities self.old.list message.now ≡ Some list
            → self.new ≡ moved self.old n list self.old.kept }
        ensures misfits { (why : Misfit) → misfit_of self.old.terms.listing.securities self.old.list message.now ≡ Some why
            → self.new ≡ dropped self.old n why self.old.kept }
        ensures terms { self.new.terms ≡ self.old.terms }
    {
        match self.book.apply(message) {
            Ok(()) => self.standing = Standing::At(n + 1),
            Err(why) => {
                self.standing = Standing::Stopped(Refusal { number: n + 1, why });
                self.book.stage();
                self.book.adopt();
            }
        }
    }

    // Applies the kept messages after the base, while they are there.
    fn chain(&mut self)
        ensures chains { Chains self.old.terms.listing self.old self.new }
    {
        while let Standing::At(n) = self.standing {
            let Some(message) = self.gap.take_next(n) else {
                break;
            };
            self.advance(n, &message);
        }
    }

    // Applies a message that came outside the buffer at once, where it is the next. Whether the message is new.
    fn settle(&mut self, put: Put, number: u32, message: &Public) -> bool
        requires room { number < 4294967295 }
        ensures settles { Settles self.old.terms.listing put number message.now self.old self.new }
        ensures terms { self.new.terms ≡ self.old.terms }
        ensures fresh { IsTrue result ↔ IsKeptOrNext put self.old.base number }
    {
        match put {
            Put::Old => false,
            Put::New => true,
            Put::Outside => {
                let Standing::At(n) = self.standing else {
                    return false;
                };
                if n + 1 != number {
                    return false;
                }
                self.advance(n, message);
                true
            }
        }
    }

    // Takes one live message. Whether it is new.
    fn hear(&mut self, number: u32, message: Public) -> bool
        requires some { 0 < number }
        requires room { number < 4294967295 }
        ensures terms { self.new.terms ≡ self.old.terms }
        ensures hears { Hears self.old.terms.listing number message self.old self.new }
        ensures fresh { IsTrue result ↔ IsFresh self.old.terms.listing self.old number }
    {
        self.known = number.max(self.known);
        let put = self.gap.put(self.standing.base(), number, message);
        let fresh = self.settle(put, number, &message);
        self.chain();
        fresh
    }

    // Takes one item of a live datagram. Whether it is new.
    fn tell(&mut self, live: &Live) -> bool
        requires { IsLiveItem live.now }
        ensures terms { self.new.terms ≡ self.old.terms }
        ensures tells { TellsOne self.old.terms.listing live.now result self.old self.new }
    {
        match *live {
            Live::Message(number, message) => self.hear(number, message),
            Live::Beat(last) => {
                self.known = last.max(self.known);
                false
            }
        }
    }

    // Takes the items of a live datagram, one by one. Whether one of them is new.
    fn hear_all(&mut self, lives: LiveWalk<'_>) -> bool
        requires { All IsLiveItem (lives_left lives) }
        ensures terms { self.new.terms ≡ self.old.terms }
        ensures tells { Tells self.old.terms.listing (lives_left lives.entry) result self.old self.new }
    {
        let mut fresh = false;
        for live in lives {
            let new = self.tell(&live);
            fresh = either(fresh, new);
        }
        fresh
    }

    // Takes a snapshot datagram. Whether it is new.
    fn receive(&mut self, packet: &Packet<'_>) -> bool
        requires reading { packet.now.reading ≡ reading self.old.terms }
        requires sound { fault_of packet.now.reading packet.now.bytes ≡ None }
        ensures terms { self.new.terms ≡ self.old.terms }
        ensures receives { Receives self.old.terms.listing (packet_number self.old.terms.layouts packet.now.bytes)
            (snaps_of self.old.terms.layouts packet.now.bytes) self.old self.new }
        ensures fresh { IsTrue result ↔ IsNewPacket self.old.terms.listing self.old (packet_number self.old.terms.layouts packet.now.bytes) }
    {
        let fresh = self.assembler.is_new(packet.number());
        self.known = greatest_named(packet.snap()).max(self.known);
        let staged = stage_from(
            &mut self.assembler,
            &mut self.book,
            self.standing.base(),
            self.standing.refusal(),
            packet,
        );
        let Some(m) = staged else {
            return fresh;
        };
        self.book.adopt();
        self.standing = Standing::At(m);
        self.chain();
        fresh
    }

    // Takes an accepted datagram of a channel. Whether it gave something new.
    fn take(&mut self, channel: Channel, packet: &Packet<'_>) -> bool
        requires reading { packet.now.reading ≡ record { layouts = self.old.terms.layouts; segment = self.old.terms.listing.segment; channel = channel } }
        requires sound { fault_of packet.now.reading packet.now.bytes ≡ None }
        ensures { TakesDatagram self.old.terms channel packet.now.bytes result self.old self.new }
    {
        match channel {
            Channel::Live => self.hear_all(packet.live()),
            Channel::Snap => self.receive(packet),
        }
    }

    /// Takes a delivery: bytes that came on a feed. They are refused, which raises `bad` and changes nothing else, exactly where they
    /// are no datagram of the feed's channel, with the first fault from the front.
    ///
    /// An accepted delivery is counted, and counted as fresh exactly where a message of it was kept or applied at once, or the snapshot datagram
    /// itself was kept. Whatever an exchange did: what the member kept of the deliveries before, it keeps of these and this one.
    pub fn deliver(&mut self, feed: Feed, bytes: &[u8]) -> Delivered
        ensures answer { MatchOption (fault_of (reading_of self.old.terms feed) bytes.now) (result ≡ delivered.Taken)
            (λ fault. result ≡ delivered.Bad fault) }
        ensures refused { IfSome (fault_of (reading_of self.old.terms feed) bytes.now) (λ _. self.new ≡ record self.old { bad = raised self.old.bad }) }
        ensures accepted { IfNone (fault_of (reading_of self.old.terms feed) bytes.now) (Delivers feed bytes.now self.old self.new) }
        ensures step { (terms : Terms) (acts : List Act) (dl : List Delivery) → AreActs terms.listing acts → Keeps terms acts self.old (arrivals terms dl)
            → Keeps terms acts self.new (arrivals terms (record { feed = feed; bytes = bytes.now } ∷ dl)) }
    {
        let channel = channel_of(feed);
        match Packet::read(self.table, self.product.segment(), channel, bytes) {
            Err(fault) => {
                self.bad = self.bad.saturating_add(1);
                Delivered::Bad(fault)
            }
            Ok(packet) => {
                let fresh = self.take(channel, &packet);
                self.gap.note(feed, fresh);
                Delivered::Taken
            }
        }
    }

    /// What the member shows.
    pub fn status(&self) -> State
        ensures { result ≡ status_of self.now.base self.now.refused self.now.known }
    {
        match self.standing {
            Standing::Waits => State::Wait,
            Standing::At(n) if n == self.known => State::Sync(n),
            Standing::At(n) => State::Miss(n + 1),
            Standing::Stopped(q) => State::Refused {
                number: q.number,
                why: q.why,
            },
        }
    }

    /// The orders of the book at the member's number, in the order of the book; none where it shows no number.
    pub fn orders(&self) -> MarketWalk<'_>
        ensures { walk_rest result ≡ shown_of self.now.base self.now.list }
    {
        self.book.walk()
    }

    /// How many deliveries were refused, up to the greatest number of 64 bits.
    pub fn bad(&self) -> u64
        ensures { result ≡ self.now.bad }
    {
        self.bad
    }

    /// How many deliveries of a feed were taken, and how many of them gave something new: a message that was kept or applied at once, or a
    /// snapshot datagram that was kept.
    pub fn tally(&self, feed: Feed) -> Tally
        ensures { result ≡ tally_of self.now.tallies feed }
    {
        self.gap.tally(feed)
    }

    /// At most as many messages and snapshot datagrams are kept as the product's two windows have numbers, each datagram of at most 1,472
    /// bytes, and at most 20,000 orders.
    pub fn is_within_limits(&self)
        ensures kept { length self.now.kept ≤ self.now.terms.listing.window }
        ensures packets { length self.now.ring ≤ self.now.terms.listing.packets }
        ensures small { (place : ℕ) → 0 < (get_or self.now.ring place free).0 → length (get_or self.now.ring place free).1 ≤ 1472 }
        ensures list { length self.now.list ≤ 20_000 }
    {
        self.gap.is_within_window();
        self.assembler.is_within_window();
        let _orders = self.book.len();
    }
}
