//! The recoverable responses of a command.

ghost use Rattle.std.specs.Prelude.{◌≡◌, ◌+◌, ◌*◌, ◌≤◌, ◌++◌, ◌∷◌, [], length, vec_len, vec_capacity};
ghost use Rattle.t7_orders.specs.Answers.{answers, clearings, executions, opposite};

use t7_base::{OrderId, SecurityId, SessionId, Side};
use t7_book::{Command, Done, Note};
use t7_eti::Kept;

/// A recoverable response with its number, which counts those of its session from 1, and the session that stores it.
#[derive(Clone, Copy, Debug, PartialEq, Eq)]
pub struct Numbered {
    pub session: SessionId,
    pub number: u64,
    pub what: Kept,
}

// The other side.
fn opposite(side: Side) -> Side
    ensures { result ≡ opposite side }
{
    match side {
        Side::Buy => Side::Sell,
        Side::Sell => Side::Buy,
    }
}

// Appends the executions of a trade in which a command of one session on one order took part.
fn push_execution(session: SessionId, order: OrderId, note: &Note, out: &mut Vec<(SessionId, Kept)>)
    requires { vec_len out.old + 2 ≤ vec_capacity out.old }
    ensures items { out.new.items ≡ out.old.items ++ executions session order (note.now ∷ []) }
    ensures len { vec_len out.new ≤ vec_len out.old + 2 }
    ensures room { vec_capacity out.new ≡ vec_capacity out.old }
{
    match *note {
        Note::Fill {
            maker,
            maker_owner,
            maker_side,
            maker_leaves,
            maker_cum,
            taker_leaves,
            taker_cum,
            qty,
            price,
        } => {
            let taken = Kept::Exec {
                order,
                side: opposite(maker_side),
                leaves: taker_leaves,
                cum: taker_cum,
                last_qty: qty,
                last_price: price,
            };
            let made = Kept::Exec {
                order: maker,
                side: maker_side,
                leaves: maker_leaves,
                cum: maker_cum,
                last_qty: qty,
                last_price: price,
            };
            out.push_reserved((session, taken));
            out.push_reserved((maker_owner, made));
        }
        Note::Cleared { .. } => {}
    }
}

// Appends the executions of a command of one session on one order.
fn push_executions(
    session: SessionId,
    order: OrderId,
    notes: &[Note],
    out: &mut Vec<(SessionId, Kept)>,
)
    requires { vec_len out.old + 2 * length notes.now ≤ vec_capacity out.old }
    ensures items { out.new.items ≡ out.old.items ++ executions session order notes.now }
    ensures room { vec_capacity out.new ≡ vec_capacity out.old }
{
    for note in notes {
        push_execution(session, order, note, out);
    }
}

// Appends what the owners of cleared orders are told.
fn push_clearings(security: SecurityId, notes: &[Note], out: &mut Vec<(SessionId, Kept)>)
    requires { vec_len out.old + length notes.now ≤ vec_capacity out.old }
    ensures items { out.new.items ≡ out.old.items ++ clearings security notes.now }
    ensures room { vec_capacity out.new ≡ vec_capacity out.old }
{
    for note in notes {
        match *note {
            Note::Cleared { session, count } => {
                out.push_reserved((session, Kept::Cleared { security, count }));
            }
            Note::Fill { .. } => {}
        }
    }
}

/// Appends the recoverable responses of a command that the book answered with `done` and these notes, each beside the session
/// that stores it: first that of the asking session; for each Fill an Exec of the incoming order to the asking session and
/// then an Exec of the resting order to its owner; for each Cleared a Cleared to that session. `out` has room for two entries
/// and two more for each note. No memory is taken, and nothing can fail.
pub fn answers(command: &Command, done: &Done, notes: &[Note], out: &mut Vec<(SessionId, Kept)>)
    requires { vec_len out.old + 2 + 2 * length notes.now ≤ vec_capacity out.old }
    ensures items { out.new.items ≡ out.old.items ++ answers command.now done.now notes.now }
    ensures room { vec_capacity out.new ≡ vec_capacity out.old }
{
    let Done {
        order,
        stamp,
        count,
    } = *done;
    let (session, kept) = match *command {
        Command::New {
            session,
            client,
            ..
        } => (
            session,
            Kept::New {
                order,
                client,
                stamp,
            },
        ),
        Command::Modify {
            session,
            client,
            ..
        } => (
            session,
            Kept::Changed {
                order,
                client,
                stamp,
            },
        ),
        Command::Delete {
            session,
            client,
            ..
        } => (session, Kept::Deleted { order, client }),
        Command::DeleteAll {
            session,
            security,
            ..
        } => (session, Kept::DeletedAll { security, count }),
        Command::Clear { security, .. } => {
            push_clearings(security, notes, out);
            return;
        }
    };
    out.push_reserved((session, kept));
    push_executions(session, order, notes, out);
}
