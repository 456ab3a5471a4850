//! Lines, which are put behind a text. Nothing is said of a text after an error, which comes only where memory is wanting.

ghost use Rattle.std.specs.Prelude.{◌≡◌, ◌≤◌, ◌++◌, ◌∷◌, [], codes, length, OnOk};
ghost use Rattle.hex.specs.Hex.{encode_lower};
ghost use Rattle.t7_outcome.specs.Outcome.{text_of};
ghost use Rattle.t7_replay.specs.Lines.{bad_lines, close_line, datagram_front, day_full_line, out_front, out_line, reject_lines, under};

use std::alloc::{AllocError, Global};
use t7_eobi::PacketFault;
use t7_eti::Reason;
use t7_outcome::Line;

/// Puts a line, which is two pieces, one behind the other.
pub(crate) fn put_line(front: &[u8], rest: &[u8], text: &mut Vec<u8>) -> Result<(), AllocError>
    ensures { OnOk result (text.new.items ≡ text.old.items ++ text_of ((front.now ++ rest.now) ∷ [])) }
{
    text.extend_from_slice(front)?;
    text.extend_from_slice(rest)?;
    text.push(b'\n')?;
    Ok(())
}

/// Puts a line, which is a front and behind it bytes in lower-case hex, under RAW alone.
pub(crate) fn put_bytes(
    alloc: Global,
    raw: bool,
    front: &Line,
    bytes: &[u8],
    text: &mut Vec<u8>,
) -> Result<(), AllocError>
    ensures { OnOk result (text.new.items ≡ text.old.items ++ text_of (under raw ((front.now ++ encode_lower bytes.now) ∷ []))) }
{
    if !raw {
        return Ok(());
    }
    let digits = hex::encode(alloc, bytes)?;
    put_line(front.bytes(), digits.as_bytes(), text)
}

/// Puts the line of a refused request, where there is a reason.
pub(crate) fn put_reject(
    conn: u32,
    reason: Option<Reason>,
    text: &mut Vec<u8>,
) -> Result<(), AllocError>
    ensures { OnOk result (text.new.items ≡ text.old.items ++ text_of (reject_lines conn reason)) }
{
    let Some(reason) = reason else {
        return Ok(());
    };
    let mut line = Line::new();
    line.push(b"REJECT ");
    line.push_number(conn as u64);
    line.push(b" ");
    line.push_number(reason.number() as u64);
    put_line(line.bytes(), b"", text)
}

/// Puts the lines of a frame on a connection: under RAW its bytes, and where it is a Reject the reason.
pub(crate) fn put_frame(
    alloc: Global,
    raw: bool,
    conn: u32,
    frame: &[u8],
    reason: Option<Reason>,
    text: &mut Vec<u8>,
) -> Result<(), AllocError>
    ensures { OnOk result (text.new.items ≡ text.old.items ++ text_of (under raw (out_line conn frame.now ∷ []) ++ reject_lines conn reason)) }
{
    put_bytes(alloc, raw, &out_front(conn), frame, text)?;
    put_reject(conn, reason, text)
}

// What stands before the bytes of a frame.
fn out_front(conn: u32) -> Line
    ensures { result ≡ out_front conn }
{
    let mut line = Line::new();
    line.push(b"OUT ");
    line.push_number(conn as u64);
    line.push(b" ");
    line
}

/// Puts the line of a connection that the exchange closes.
pub(crate) fn put_close(conn: u32, text: &mut Vec<u8>) -> Result<(), AllocError>
    ensures { OnOk result (text.new.items ≡ text.old.items ++ text_of (close_line conn ∷ [])) }
{
    let mut line = Line::new();
    line.push(b"CLOSE ");
    line.push_number(conn as u64);
    put_line(line.bytes(), b"", text)
}

/// What stands before the bytes of a datagram of this number.
pub(crate) fn datagram_front(word: &[u8], number: u64) -> Line
    requires { length word.now ≤ 20 }
    ensures { result ≡ datagram_front word.now number }
{
    let mut line = Line::new();
    line.push(word);
    line.push(b" ");
    line.push_number(number);
    line.push(b" ");
    line
}

/// Puts the line of a day that has as many commands as it may.
pub(crate) fn put_day_full(text: &mut Vec<u8>) -> Result<(), AllocError>
    ensures { OnOk result (text.new.items ≡ text.old.items ++ text_of (day_full_line ∷ [])) }
{
    put_line(b"DAYFULL", b"", text)
}

/// Puts the line of a delivery that is refused, where it has a fault.
pub(crate) fn put_bad(fault: Option<PacketFault>, text: &mut Vec<u8>) -> Result<(), AllocError>
    ensures { OnOk result (text.new.items ≡ text.old.items ++ text_of (bad_lines fault)) }
{
    let Some(fault) = fault else {
        return Ok(());
    };
    let mut line = Line::new();
    line.push(b" ");
    line.push_number(fault.place as u64);
    text.extend_from_slice(b"BAD ")?;
    put_line(fault.why.text().as_bytes(), line.bytes(), text)
}
