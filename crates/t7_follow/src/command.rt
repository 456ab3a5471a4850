//! The member's command: it binds the four feeds, takes receipts, and prints what it shows.
ghost use Rattle.std.specs.Prelude.{◌≡◌, ◌≤◌, [], ◌∷◌, ◌++◌, Err, IfErr, OnOk, OnErr, reverse, true};
ghost use Rattle.t7_base.specs.Outside.{Begins, Grew, HasCause, Rose};
ghost use Rattle.t7_feed.specs.Arrivals.{AreTerms, Terms};
ghost use Rattle.t7_net.specs.Lines.{Bind};
ghost use Rattle.t7_outcome.specs.Outcome.{Ends, Wrote};
ghost use Rattle.t7_follow.specs.Clauses.{AsksFor, OfFollow, TakesUpTo, WroteAll, binds_of};
ghost use Rattle.t7_follow.specs.Followers.{Followed, OfWatch, Stands};
ghost use Rattle.t7_follow.specs.Following.{followed, terms_of, watching};
ghost use Rattle.t7_follow.specs.Reports.{IsReported};

use crate::follower::{Follower, watch};
use std::alloc::Global;
use t7_base::{Feed, Product, Sink};
use t7_layout::Table;
use t7_net::Lines;
use t7_outcome::{Finish, Stop};

/// The addresses at which a member listens to the four feeds: any words; one that the lines can't use is a net fault.
#[derive(Clone, Copy, Debug)]
pub struct Addresses<'a> {
    /// Live messages, line A.
    pub live_a: &'a str,
    /// Live messages, line B.
    pub live_b: &'a str,
    /// Snapshots, line A.
    pub snap_a: &'a str,
    /// Snapshots, line B.
    pub snap_b: &'a str,
}

/// Binds the four feeds for listening, and takes so many receipts, of which one without a datagram is one too. After each it prints the
/// status line where that differs from the one before it; at the end it prints the report of the member and a line for each feed.
///
/// `NetFault` comes only where the count of `lines` rose, and all lines that were due before it stand; `WriteFault` only where that of `sink`
/// rose; `Memory` only where no receipt was taken.
pub fn follow<D: Lines, S: Sink>(
    alloc: Global,
    table: &Table,
    product: &Product,
    addresses: &Addresses<'_>,
    count: u32,
    lines: &mut D,
    sink: &mut S,
) -> Result<Finish, Stop>
    // It ends as the receipts say that were taken, but for a fault of the outside and want of memory.
    ensures end { Grew (D.taken lines.old) (D.taken lines.new) (λ receipts. Ends (followed (terms_of table.now product.now) count (reverse receipts)) result) }

    // The headline. What is written are the lines that are due after the receipts that were taken, of which a fault cuts off the end; and where
    // a line or a report is due stand the state, the orders and the counts for which `IsShown` holds of what was delivered by the receipts so far.
    ensures written { Grew (D.taken lines.old) (D.taken lines.new) (λ receipts. Grew (S.written sink.old) (S.written sink.new)
        (Wrote IsReported (followed (terms_of table.now product.now) count (reverse receipts)) result)) }

    // At a net fault all lines stand that were due before it.
    ensures due { result ≡ Err Stop.NetFault → Grew (D.taken lines.old) (D.taken lines.new) (λ receipts. Grew (S.written sink.old) (S.written sink.new)
        (WroteAll IsReported (watching (terms_of table.now product.now) (reverse receipts)))) }

    // The four binds are asked, so many receipts are taken and no more, nothing is sent, and all memory is taken before the first receipt.
    ensures asked { Grew (D.asked lines.old) (D.asked lines.new) (AsksFor (binds_of addresses.now) result) }
    ensures taken { Grew (D.taken lines.old) (D.taken lines.new) (TakesUpTo count result) }
    ensures cast { D.cast lines.new ≡ D.cast lines.old }
    ensures memory { result ≡ Err Stop.Memory → D.taken lines.new ≡ D.taken lines.old }

    // Each stop has its cause.
    ensures only { IfErr result OfFollow }
    ensures lines_count { D.faults lines.old ≤ D.faults lines.new }
    ensures net_fault { result ≡ Err Stop.NetFault → Rose (D.faults lines.old) (D.faults lines.new) }
    ensures sink_count { S.faults sink.old ≤ S.faults sink.new }
    ensures write_fault { result ≡ Err Stop.WriteFault → Rose (S.faults sink.old) (S.faults sink.new) }
{
    bind_all(addresses, lines)?;
    are_terms(table, product);
    let Ok(mut follower) = Follower::new(alloc, table, product) else {
        return Err(Stop::Memory);
    };
    show(&mut follower, count, lines, sink)
}

// Takes the receipts, and then prints the report.
fn show<D: Lines, S: Sink>(
    follower: &mut Follower<'_>,
    count: u32,
    lines: &mut D,
    sink: &mut S,
) -> Result<Finish, Stop>
    requires { follower.old.datagrams ≡ 0 }
    ensures shown { (terms : Terms) → AreTerms terms → Stands terms [] follower.old
        → Grew (D.taken lines.old) (D.taken lines.new) (Followed terms count result (S.written sink.old) (S.written sink.new)) }
    ensures asked { D.asked lines.new ≡ D.asked lines.old }
    ensures cast { D.cast lines.new ≡ D.cast lines.old }
    ensures only { IfErr result OfWatch }
    ensures lines_count { D.faults lines.old ≤ D.faults lines.new }
    ensures net_fault { result ≡ Err Stop.NetFault → Rose (D.faults lines.old) (D.faults lines.new) }
    ensures sink_count { S.faults sink.old ≤ S.faults sink.new }
    ensures write_fault { result ≡ Err Stop.WriteFault → Rose (S.faults sink.old) (S.faults sink.new) }
{
    watch(follower, count, lines, sink)?;
    follower.finish(sink)
}

// The table and the product are what both sides of a feed have.
fn are_terms(table: &Table, product: &Product)
    ensures { AreTerms (terms_of table.now product.now) }
{
    let _templates = table.templates();
    let _segment = product.segment();
}

// Binds the four feeds for listening.
fn bind_all<D: Lines>(addresses: &Addresses<'_>, lines: &mut D) -> Result<(), Stop>
    ensures asked { Grew (D.asked lines.old) (D.asked lines.new) (AsksFor (binds_of addresses.now) result) }
    ensures taken { D.taken lines.new ≡ D.taken lines.old }
    ensures cast { D.cast lines.new ≡ D.cast lines.old }
    ensures cause { HasCause (D.faults lines.old) (D.faults lines.new) result }
    ensures only { IfErr result (λ stop. stop ≡ Stop.NetFault) }
{
    bind_pair(
        (Feed::LiveA, addresses.live_a),
        (Feed::LiveB, addresses.live_b),
        lines,
    )?;
    bind_pair(
        (Feed::SnapA, addresses.snap_a),
        (Feed::SnapB, addresses.snap_b),
        lines,
    )
}

// Binds two feeds for listening.
fn bind_pair<D: Lines>(first: (Feed, &str), second: (Feed, &str), lines: &mut D) -> Result<(), Stop>
    ensures asked { Grew (D.asked lines.old) (D.asked lines.new) (AsksFor
        (record { feed = first.entry.0; address = first.entry.1.now; listen = true }
        ∷ record { feed = second.entry.0; address = second.entry.1.now; listen = true } ∷ []) result) }
    ensures taken { D.taken lines.new ≡ D.taken lines.old }
    ensures cast { D.cast lines.new ≡ D.cast lines.old }
    ensures cause { HasCause (D.faults lines.old) (D.faults lines.new) result }
    ensures only { IfErr result (λ stop. stop ≡ Stop.NetFault) }
{
    bind(first.0, first.1, lines)?;
    bind(second.0, second.1, lines)
}

// Binds a feed for listening.
fn bind<D: Lines>(feed: Feed, address: &str, lines: &mut D) -> Result<(), Stop>
    ensures asked { Grew (D.asked lines.old) (D.asked lines.new) (λ asked. asked ≡ record { feed = feed; address = address.now; listen = true } ∷ []) }
    ensures taken { D.taken lines.new ≡ D.taken lines.old }
    ensures cast { D.cast lines.new ≡ D.cast lines.old }
    ensures cause { HasCause (D.faults lines.old) (D.faults lines.new) result }
    ensures only { IfErr result (λ stop. stop ≡ Stop.NetFault) }
{
    match lines.bind(feed, address, true) {
        Ok(()) => Ok(()),
        Err(_) => Err(Stop::NetFault),
    }
}
