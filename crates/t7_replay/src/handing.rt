//! What waits at the exchange is handed out: replies are told to the client and printed, and datagrams are kept and printed.

ghost use Rattle.std.specs.Prelude.{◌≡◌, ◌≤◌, ◌+◌, ◌++◌, ◌∷◌, [], codes, length, OnOk, IfOk, MatchBool};
ghost use Rattle.t7_entry.specs.Days.{due};
ghost use Rattle.t7_outcome.specs.Outcome.{text_of};
ghost use Rattle.t7_replay.specs.Calling.{told_all};
ghost use Rattle.t7_replay.specs.Handing.{AreSaidReplies, KeepsNext, PrintsNext, due_bytes};
ghost use Rattle.t7_replay.specs.Lines.{datagram_lines, replies_lines, under};

use crate::caller::{Caller, tell_close, tell_frame};
use crate::print::{datagram_front, put_bytes, put_close, put_frame};
use std::alloc::{AllocError, Global};
use t7_base::{MOST_DATAGRAM, Octets};
use t7_exchange::{Exchange, Reply};

/// Prints all replies that wait, in their order, each of which the client is told.
pub(crate) fn put_replies(
    alloc: Global,
    exchange: &mut Exchange<'_>,
    caller: &mut Option<Caller<'_>>,
    raw: bool,
    text: &mut Vec<u8>,
) -> Result<(), AllocError>
    ensures day { OnOk result (exchange.new ≡ record exchange.old { waiting = [] }) }
    ensures said { OnOk result (AreSaidReplies exchange.old.setting.layouts exchange.old.waiting) }
    ensures caller { OnOk result (caller.new ≡ told_all exchange.old.setting.layouts exchange.old.waiting caller.old) }
    ensures text { OnOk result (text.new.items ≡ text.old.items ++ text_of (replies_lines exchange.old.setting.layouts raw exchange.old.waiting)) }
{
    while put_next(alloc, exchange, caller, raw, text)? {}
    Ok(())
}

// Prints the first reply that waits, which the client is told; false where none waits.
fn put_next(
    alloc: Global,
    exchange: &mut Exchange<'_>,
    caller: &mut Option<Caller<'_>>,
    raw: bool,
    text: &mut Vec<u8>,
) -> Result<bool, AllocError>
    ensures { IfOk result (PrintsNext raw exchange.old exchange.new caller.old caller.new text.old.items text.new.items) }
{
    let mut out = [0u8; 1024];
    let reason = exchange.next_refusal();
    match exchange.next_reply(&mut out) {
        None => Ok(false),
        Some(Reply::Close { conn }) => {
            tell_close(caller, conn);
            put_close(conn, text)?;
            Ok(true)
        }
        Some(Reply::Bytes { conn, len }) => {
            tell_frame(caller, conn, &out[..len])?;
            put_frame(alloc, raw, conn, &out[..len], reason, text)?;
            Ok(true)
        }
    }
}

/// Keeps all live datagrams that wait, and prints them under RAW.
pub(crate) fn keep_datagrams(
    alloc: Global,
    exchange: &mut Exchange<'_>,
    lives: &mut Vec<Octets>,
    raw: bool,
    text: &mut Vec<u8>,
) -> Result<(), AllocError>
    ensures day { OnOk result (exchange.new ≡ record exchange.old { untold = []; live = exchange.old.live + length (due exchange.old) }) }
    ensures lives { OnOk result (lives.new.items ≡ lives.old.items ++ due_bytes exchange.old) }
    ensures text { OnOk result (text.new.items
        ≡ text.old.items ++ text_of (under raw (datagram_lines (codes "LIVE") (length lives.old.items) (due_bytes exchange.old)))) }
{
    while keep_next(alloc, exchange, lives, raw, text)? {}
    Ok(())
}

// Keeps the next live datagram, and prints it under RAW; false where no message waits.
fn keep_next(
    alloc: Global,
    exchange: &mut Exchange<'_>,
    lives: &mut Vec<Octets>,
    raw: bool,
    text: &mut Vec<u8>,
) -> Result<bool, AllocError>
    ensures { IfOk result (KeepsNext raw exchange.old exchange.new lives.old.items lives.new.items text.old.items text.new.items) }
{
    let mut out = [0u8; MOST_DATAGRAM];
    match exchange.next_datagram(&mut out) {
        None => Ok(false),
        Some(sent) => {
            keep_datagram(alloc, raw, b"LIVE", &out[..sent.len], lives, text)?;
            Ok(true)
        }
    }
}

/// Keeps a datagram behind those of its channel, and prints it under RAW.
pub(crate) fn keep_datagram(
    alloc: Global,
    raw: bool,
    word: &[u8],
    bytes: &[u8],
    kept: &mut Vec<Octets>,
    text: &mut Vec<u8>,
) -> Result<(), AllocError>
    requires { length word.now ≤ 20 }
    ensures kept { OnOk result (kept.new.items ≡ kept.old.items ++ bytes.now ∷ []) }
    ensures text { OnOk result (text.new.items
        ≡ text.old.items ++ text_of (under raw (datagram_lines word.now (length kept.old.items) (bytes.now ∷ [])))) }
{
    let front = datagram_front(word, kept.len() as u64 + 1);
    put_bytes(alloc, raw, &front, bytes, text)?;
    kept.push(Octets::new(bytes.to_vec(alloc)?))?;
    Ok(())
}
