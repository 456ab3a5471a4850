//! The lines of what a client has gathered, written to the sink one by one; no memory is taken for them.
ghost use Rattle.std.specs.Prelude.{◌≡◌, ◌≤◌, ◌∷◌, [], IfErr, OnErr, OnOk, length};
ghost use Rattle.t7_base.specs.Outside.{Begins, Grew, HasCause};
ghost use Rattle.t7_outcome.specs.Steps.{Prints};
ghost use Rattle.t7_report.specs.Gathered.{gathered_lines, number_line, numbered_lines};
ghost use Rattle.t7_script.specs.Lines as lines;

use t7_base::Sink;
use t7_eti::Kept;
use t7_outcome::{Line, Stop};
use t7_script::kept_line;

/// Prints the report of a client: `RECOVERED` or `PARTIAL` with the number of its responses, and a line for each, numbered from 1.
/// An error is `WriteFault`, and comes only where the sink failed.
pub fn put_gathered<S: Sink>(recovered: bool, responses: &[Kept], sink: &mut S) -> Result<(), Stop>
    ensures printed { Grew (S.written sink.old) (S.written sink.new) (Prints (gathered_lines recovered responses.now) result) }
    ensures cause { HasCause (S.faults sink.old) (S.faults sink.new) result }
    ensures only { IfErr result (λ stop. stop ≡ Stop.WriteFault) }
{
    put_number(recovered, responses.len() as u64, sink)?;
    put_responses(responses, sink)
}

// Prints whether the list is whole, and how many responses it has.
fn put_number<S: Sink>(recovered: bool, count: u64, sink: &mut S) -> Result<(), Stop>
    ensures printed { Grew (S.written sink.old) (S.written sink.new) (Prints (number_line recovered count ∷ []) result) }
    ensures cause { HasCause (S.faults sink.old) (S.faults sink.new) result }
    ensures only { IfErr result (λ stop. stop ≡ Stop.WriteFault) }
{
    let mut line = number_line(recovered, count);
    line.push(b"\n");
    put(line.bytes(), sink)
}

// Prints the lines of responses, numbered from 1.
fn put_responses<S: Sink>(responses: &[Kept], sink: &mut S) -> Result<(), Stop>
    ensures printed { Grew (S.written sink.old) (S.written sink.new) (Prints (numbered_lines 1 responses.now) result) }
    ensures cause { HasCause (S.faults sink.old) (S.faults sink.new) result }
    ensures only { IfErr result (λ stop. stop ≡ Stop.WriteFault) }
{
    let mut number = 1;
    for what in responses {
        put_response(number, what, sink)?;
        number += 1;
    }
    Ok(())
}

// Prints the line of a response.
fn put_response<S: Sink>(number: u64, what: &Kept, sink: &mut S) -> Result<(), Stop>
    ensures printed { Grew (S.written sink.old) (S.written sink.new) (Prints (lines.kept_line number what.now ∷ []) result) }
    ensures cause { HasCause (S.faults sink.old) (S.faults sink.new) result }
    ensures only { IfErr result (λ stop. stop ≡ Stop.WriteFault) }
{
    let mut words = [0u8; 257];
    let len = kept_line(number, what, &mut words[..256]);
    words[len] = b'\n';
    put(&words[..=len], sink)
}

// Writes a piece.
fn put<S: Sink>(piece: &[u8], sink: &mut S) -> Result<(), Stop>
    ensures wrote { OnOk result (Grew (S.written sink.old) (S.written sink.new) (λ added. added ≡ piece.now)) }
    ensures cut { OnErr result (Grew (S.written sink.old) (S.written sink.new) (λ added. Begins added piece.now)) }
    ensures cause { HasCause (S.faults sink.old) (S.faults sink.new) result }
    ensures only { IfErr result (λ stop. stop ≡ Stop.WriteFault) }
{
    match sink.put(piece) {
        Ok(()) => Ok(()),
        Err(_) => Err(Stop::WriteFault),
    }
}

/// Whether the list is whole, and how many responses it has.
pub(crate) fn number_line(recovered: bool, count: u64) -> Line
    ensures value { result ≡ number_line recovered count }
    ensures short { length result ≤ 200 }
{
    let mut line = Line::new();
    line.push(if recovered {
        b"RECOVERED "
    } else {
        b"PARTIAL "
    });
    line.push_number(count);
    line
}
