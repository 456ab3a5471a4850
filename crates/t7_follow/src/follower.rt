//! A member at hand, with the status line that was printed last and the number of datagrams that came.
ghost use Rattle.std.specs.Prelude.{◌≡◌, ◌≢◌, ℕ, ◌+◌, ◌<◌, ◌≤◌, ◌^◌, [], ◌∷◌, ◌++◌, Err, List, IfErr, IfOk, OnOk, length, reverse};
ghost use Rattle.std.specs.Str.{bytes_eq};
ghost use Rattle.t7_base.specs.Outside.{Grew, HasCause, Rose};
ghost use Rattle.t7_feed.specs.Arrivals.{AreTerms, Delivery, Terms};
ghost use Rattle.t7_follow.specs.Followers.{KeepsAll, OfWatch, Stands, Stepped, Took, TookDatagram, Watches, final_lines};
ghost use Rattle.t7_follow.specs.Lines.{changed_lines, state_line, tally_line};
ghost use Rattle.t7_follow.specs.Members.{IsShown, Made, state_of};
ghost use Rattle.t7_lines.specs.Gap.{tally_of};
ghost use Rattle.t7_member.specs.Keeping.{Image};
ghost use Rattle.t7_net.specs.Lines.{Fits, line_taken};
ghost use Rattle.t7_net.specs.declared.line.LineItem.{LineItem};
ghost use Rattle.t7_outcome.specs.Steps.{Prints};

use crate::print::{put_line, put_report, put_tally, state_line};
use std::alloc::{AllocError, Global};
use std::marker::Model;
use t7_base::{Feed, Product, Sink};
use t7_layout::Table;
use t7_member::{Member, State, kept_is_reported, what_is_shown_is_supported};
use t7_net::{Lines, Received};
use t7_outcome::{Finish, Line, Stop};

/// A member that follows the feed.
///
/// Contracts see it as `Following`.
#[derive(Drop)]
pub(crate) struct Follower<'t> {
    member: Member<'t>,
    printed: Line,
    datagrams: u64,
}

impl<'t> Model for Follower<'t> {
    ghost use Rattle.t7_follow.specs.Followers.{Following};

    ghost Value = { Following };

    ghost view = { λ f. record { member = f.member; printed = f.printed; datagrams = f.datagrams } };
}

impl<'t> Follower<'t> {
    /// Before the first receipt; takes all its memory. An error comes only where memory is wanting.
    pub(crate) fn new(
        alloc: Global,
        table: &'t Table,
        product: &'t Product,
    ) -> Result<Follower<'t>, AllocError>
        ensures stands { IfOk result (Stands (record { layouts = table.now; listing = product.now }) []) }
        ensures datagrams { IfOk result (λ f. f.datagrams ≡ 0) }
    {
        Ok(Follower {
            member: Member::new(alloc, table, product)?,
            printed: Line::new(),
            datagrams: 0,
        })
    }

    // Delivers a datagram on its feed, and counts it.
    fn deliver(&mut self, feed: Feed, bytes: &[u8])
        requires { self.old.datagrams < 2 ^ 63 }
        ensures delivered { TookDatagram feed bytes.now self.old.member self.new.member }
        ensures counted { self.new.datagrams ≡ self.old.datagrams + 1 }
        ensures printed { self.new.printed ≡ self.old.printed }
    {
        let _delivered = self.member.deliver(feed, bytes);
        self.datagrams += 1;
    }

    // Takes what was received: a datagram stands at the front of what it was received into.
    fn take(&mut self, received: Received, into: &[u8])
        requires fits { Fits received (length into.now) }
        requires some { received ≢ Received.Failed }
        requires room { self.old.datagrams < 2 ^ 63 }
        ensures took { Took (line_taken received into.now) self.old self.new }
        ensures printed { self.new.printed ≡ self.old.printed }
        ensures few { self.new.datagrams ≤ self.old.datagrams + 1 }
    {
        match received {
            Received::Datagram(feed, count) => self.deliver(feed, &into[..count]),
            Received::Quiet | Received::Failed => {}
        }
    }

    // Prints the status line, where it differs from the one that was printed last.
    fn show<S: Sink>(&mut self, sink: &mut S) -> Result<(), Stop>
        ensures printed { Grew (S.written sink.old) (S.written sink.new)
            (Prints (changed_lines self.old.printed (state_line (state_of self.old.member))) result) }
        ensures line { OnOk result (self.new.printed ≡ state_line (state_of self.old.member)) }
        ensures member { self.new.member ≡ self.old.member }
        ensures datagrams { self.new.datagrams ≡ self.old.datagrams }
        ensures cause { HasCause (S.faults sink.old) (S.faults sink.new) result }
        ensures only { IfErr result (λ stop. stop ≡ Stop.WriteFault) }
    {
        let state = self.member.status();
        if is_line(&self.printed, &state) {
            return Ok(());
        }
        put_line(state_line(&state), sink)?;
        replace_line(&mut self.printed, &state);
        Ok(())
    }

    // Takes a receipt, and prints the status line where it changed.
    fn step<D: Lines, S: Sink>(
        &mut self,
        into: &mut [u8],
        lines: &mut D,
        sink: &mut S,
    ) -> Result<(), Stop>
        requires room { 1473 ≤ length into.old }
        requires fewer { self.old.datagrams < 2 ^ 63 }
        ensures stepped { (terms : Terms) (before : List LineItem) → AreTerms terms → Stands terms before self.old
            → Grew (D.taken lines.old) (D.taken lines.new) (Stepped terms before self.new (S.written sink.old) (S.written sink.new) result) }
        ensures one { Grew (D.taken lines.old) (D.taken lines.new) (λ taken. length taken ≤ 1) }
        ensures few { self.new.datagrams ≤ self.old.datagrams + 1 }
        ensures asked { D.asked lines.new ≡ D.asked lines.old }
        ensures cast { D.cast lines.new ≡ D.cast lines.old }
        ensures only { IfErr result OfWatch }
        ensures lines_count { D.faults lines.old ≤ D.faults lines.new }
        ensures net_fault { result ≡ Err Stop.NetFault → Rose (D.faults lines.old) (D.faults lines.new) }
        ensures sink_count { S.faults sink.old ≤ S.faults sink.new }
        ensures write_fault { result ≡ Err Stop.WriteFault → Rose (S.faults sink.old) (S.faults sink.new) }
    {
        let received = lines.receive(into);
        if received == Received::Failed {
            return Err(Stop::NetFault);
        }
        self.take(received, into);
        what_is_kept_is_shown();
        self.show(sink)
    }

    /// Prints the report of the member, and the lines of the feeds.
    pub(crate) fn finish<S: Sink>(&self, sink: &mut S) -> Result<Finish, Stop>
        ensures printed { Grew (S.written sink.old) (S.written sink.new) (Prints (final_lines self.now.member) result) }
        ensures shown { (terms : Terms) (came : List Delivery) → AreTerms terms → Made terms came self.now.member → KeepsAll terms came self.now.member
            → IsShown terms came self.now.member }
        ensures end { IfOk result (λ finish. finish ≡ Finish.End self.now.datagrams) }
        ensures cause { HasCause (S.faults sink.old) (S.faults sink.new) result }
        ensures only { IfErr result (λ stop. stop ≡ Stop.WriteFault) }
    {
        what_is_kept_is_shown();
        put_report(&self.member.status(), self.member.orders(), sink)?;
        self.put_feeds(Feed::LiveA, Feed::LiveB, sink)?;
        self.put_feeds(Feed::SnapA, Feed::SnapB, sink)?;
        Ok(Finish::End(self.datagrams))
    }

    // Prints the lines of two feeds.
    fn put_feeds<S: Sink>(&self, first: Feed, second: Feed, sink: &mut S) -> Result<(), Stop>
        ensures printed { Grew (S.written sink.old) (S.written sink.new)
            (Prints (tally_line first (tally_of self.now.member.tallies first) ∷ tally_line second (tally_of self.now.member.tallies second) ∷ []) result) }
        ensures cause { HasCause (S.faults sink.old) (S.faults sink.new) result }
        ensures only { IfErr result (λ stop. stop ≡ Stop.WriteFault) }
    {
        put_tally(first, self.member.tally(first), sink)?;
        put_tally(second, self.member.tally(second), sink)
    }
}

/// Takes so many receipts.
pub(crate) fn watch<D: Lines, S: Sink>(
    follower: &mut Follower<'_>,
    count: u32,
    lines: &mut D,
    sink: &mut S,
) -> Result<(), Stop>
    requires { follower.old.datagrams ≡ 0 }
    ensures watched { (terms : Terms) → AreTerms terms → Stands terms [] follower.old
        → Grew (D.taken lines.old) (D.taken lines.new)
        (λ taken. Watches terms count follower.new (S.written sink.old) (S.written sink.new) result (reverse taken)) }
    ensures asked { D.asked lines.new ≡ D.asked lines.old }
    ensures cast { D.cast lines.new ≡ D.cast lines.old }
    ensures only { IfErr result OfWatch }
    ensures lines_count { D.faults lines.old ≤ D.faults lines.new }
    ensures net_fault { result ≡ Err Stop.NetFault → Rose (D.faults lines.old) (D.faults lines.new) }
    ensures sink_count { S.faults sink.old ≤ S.faults sink.new }
    ensures write_fault { result ≡ Err Stop.WriteFault → Rose (S.faults sink.old) (S.faults sink.new) }
{
    let mut into = [0u8; 1473];
    for _number in 0..count {
        follower.step(&mut into, lines, sink)?;
    }
    Ok(())
}

// Puts the status line of a state in the place of a line.
fn replace_line(line: &mut Line, state: &State)
    ensures { line.new ≡ state_line state.now }
{
    *line = state_line(state);
}

// Whether a line is the status line of that state.
fn is_line(line: &Line, state: &State) -> bool
    ensures { result ≡ bytes_eq line.now (state_line state.now) }
{
    line.bytes() == state_line(state).bytes()
}

// What a member shows that keeps what it is to keep.
fn what_is_kept_is_shown()
    ensures { (terms : Terms) (came : List Delivery) (member : Image) → AreTerms terms → Made terms came member → KeepsAll terms came member
        → IsShown terms came member }
{
    kept_is_reported();
    what_is_shown_is_supported();
}
