//! The orders of a session, or of a security, leave the book.

ghost use Rattle.std.specs.Prelude.{◌≡◌, ◌++◌, IfOk, OnOk, OnErr, []};
ghost use Rattle.t7_book.specs.Steps.{list_after, deletions, messages, cleared};

use crate::orders::Orders;
use std::alloc::{AllocError, Global};
use t7_base::{Public, SecurityId, SessionId};
use t7_book::{Note, Order};

/// Takes the orders out, one after another.
pub(crate) fn remove_all(orders: &mut Orders, gone: &[Order])
    ensures { orders.new ≡ list_after (deletions gone.now orders.old) orders.old }
{
    for y in gone {
        orders.remove(&y.rest);
    }
}

/// Appends a Delete for each of the orders, or nothing.
pub(crate) fn append_deletions(
    alloc: Global,
    gone: &[Order],
    out: &mut Vec<Public>,
) -> Result<(), AllocError>
    ensures ok { OnOk result (out.new.items ≡ out.old.items ++ messages (deletions gone.now [])) }
    ensures err { OnErr result (out.new.items ≡ out.old.items) }
{
    let mut messages = Vec::new(alloc);
    push_deletions(gone, &mut messages)?;
    out.extend_from_slice(&messages)
}

/// Appends a Delete for each of the orders.
fn push_deletions(gone: &[Order], out: &mut Vec<Public>) -> Result<(), AllocError>
    ensures { OnOk result (out.new.items ≡ out.old.items ++ messages (deletions gone.now [])) }
{
    for y in gone {
        out.push(Public::Delete { order: y.rest })?;
    }
    Ok(())
}

/// The notes of a Clear: each session that has orders in the security is told how many.
pub(crate) fn cleared(
    sessions: &[SessionId],
    security: SecurityId,
    orders: &Orders,
) -> Result<Vec<Note>, AllocError>
    ensures { IfOk result (λ told. told.items ≡ cleared sessions.now security orders.now) }
{
    let mut told = Vec::new(orders.alloc());
    for session in sessions {
        let count = orders.count_of(*session, security);
        if count != 0 {
            told.push(Note::Cleared {
                session: *session,
                count: count as u16,
            })?;
        }
    }
    Ok(told)
}
