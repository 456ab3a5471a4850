//! The lines of what a member shows, written to the sink one by one; no memory is taken for them.
ghost use Rattle.std.specs.Prelude.{◌≡◌, ◌≤◌, ◌++◌, ◌∷◌, [], IfErr, codes, decimal, length, map};
ghost use Rattle.t7_base.specs.Outside.{Grew, HasCause};
ghost use Rattle.t7_follow.specs.Lines.{feed_word, report_lines, state_line, tally_line};
ghost use Rattle.t7_mbook.specs.Walk.{walk_rest};
ghost use Rattle.t7_outcome.specs.Steps.{Prints};
ghost use Rattle.t7_script.specs.Lines.{misfit_words, order_line};

use t7_base::{Feed, Resting, Sink};
use t7_mbook::{MarketWalk, Misfit};
use t7_member::{State, Tally};
use t7_outcome::{Line, Stop};
use t7_script::{misfit_words, order_line};

/// Prints the report of a member: its status line, and a line for each order.
pub(crate) fn put_report<S: Sink>(
    state: &State,
    orders: MarketWalk<'_>,
    sink: &mut S,
) -> Result<(), Stop>
    ensures printed { Grew (S.written sink.old) (S.written sink.new) (Prints (report_lines state.now (walk_rest orders.entry)) result) }
    ensures cause { HasCause (S.faults sink.old) (S.faults sink.new) result }
    ensures only { IfErr result (λ stop. stop ≡ Stop.WriteFault) }
{
    put_line(state_line(state), sink)?;
    put_orders(orders, sink)
}

/// Prints a line for each order.
fn put_orders<S: Sink>(orders: MarketWalk<'_>, sink: &mut S) -> Result<(), Stop>
    ensures printed { Grew (S.written sink.old) (S.written sink.new) (Prints (map order_line (walk_rest orders.entry)) result) }
    ensures cause { HasCause (S.faults sink.old) (S.faults sink.new) result }
    ensures only { IfErr result (λ stop. stop ≡ Stop.WriteFault) }
{
    for order in orders {
        put_order(&order, sink)?;
    }
    Ok(())
}

/// Prints the line of an order.
fn put_order<S: Sink>(order: &Resting, sink: &mut S) -> Result<(), Stop>
    ensures printed { Grew (S.written sink.old) (S.written sink.new) (Prints (order_line order.now ∷ []) result) }
    ensures cause { HasCause (S.faults sink.old) (S.faults sink.new) result }
    ensures only { IfErr result (λ stop. stop ≡ Stop.WriteFault) }
{
    let mut words = [0u8; 256];
    let len = order_line(order, &mut words);
    let mut line = Line::new();
    line.push(&words[..len]);
    put_line(line, sink)
}

/// Prints the line of a feed with its counts.
pub(crate) fn put_tally<S: Sink>(feed: Feed, tally: Tally, sink: &mut S) -> Result<(), Stop>
    ensures printed { Grew (S.written sink.old) (S.written sink.new) (Prints (tally_line feed tally ∷ []) result) }
    ensures cause { HasCause (S.faults sink.old) (S.faults sink.new) result }
    ensures only { IfErr result (λ stop. stop ≡ Stop.WriteFault) }
{
    put_line(tally_line(feed, tally), sink)
}

/// Prints a line.
pub(crate) fn put_line<S: Sink>(line: Line, sink: &mut S) -> Result<(), Stop>
    requires { length line ≤ 200 }
    ensures printed { Grew (S.written sink.old) (S.written sink.new) (Prints (line ∷ []) result) }
    ensures cause { HasCause (S.faults sink.old) (S.faults sink.new) result }
    ensures only { IfErr result (λ stop. stop ≡ Stop.WriteFault) }
{
    let mut fed = line;
    fed.push(b"\n");
    match sink.put(fed.bytes()) {
        Ok(()) => Ok(()),
        Err(_) => Err(Stop::WriteFault),
    }
}

/// The status line.
pub(crate) fn state_line(state: &State) -> Line
    ensures value { result ≡ state_line state.now }
    ensures short { length result ≤ 200 }
{
    let mut line = Line::new();
    match state {
        State::Wait => line.push(b"WAIT"),
        State::Sync(number) => {
            line.push(b"SYNC ");
            line.push_number(*number as u64);
        }
        State::Miss(number) => {
            line.push(b"MISS ");
            line.push_number(*number as u64);
        }
        State::Refused { number, why } => push_refused(&mut line, *number, why),
    }
    line
}

/// Puts the status of a message that was refused, and why, into an empty line.
fn push_refused(line: &mut Line, number: u32, why: &Misfit)
    requires { line.old ≡ [] }
    ensures value { line.new ≡ codes "REFUSED " ++ decimal number ++ codes " " ++ misfit_words why.now }
    ensures short { length line.new ≤ 200 }
{
    let mut words = [0u8; 256];
    let len = misfit_words(why, &mut words);
    line.push(b"REFUSED ");
    line.push_number(number as u64);
    line.push(b" ");
    line.push(&words[..len]);
}

/// The line of a feed with its counts.
fn tally_line(feed: Feed, tally: Tally) -> Line
    ensures value { result ≡ tally_line feed tally }
    ensures short { length result ≤ 200 }
{
    let mut line = Line::new();
    line.push(b"LINE ");
    line.push(feed_word(feed));
    line.push(b" ");
    line.push_number(tally.taken);
    line.push(b" ");
    line.push_number(tally.fresh);
    line
}

/// The word of a feed.
fn feed_word(feed: Feed) -> &'static [u8]
    ensures value { result.now ≡ feed_word feed }
    ensures short { length result.now ≤ 2 }
{
    match feed {
        Feed::LiveA => b"LA",
        Feed::LiveB => b"LB",
        Feed::SnapA => b"SA",
        Feed::SnapB => b"SB",
    }
}
