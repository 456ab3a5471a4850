//! The lines of what a client has gathered, put behind a text. Nothing is said of a text after an error, which comes only where memory
//! is wanting.
ghost use Rattle.std.specs.Prelude.{◌≡◌, ◌++◌, ◌∷◌, [], OnOk};
ghost use Rattle.t7_outcome.specs.Outcome.{text_of};
ghost use Rattle.t7_report.specs.Gathered.{gathered_lines, numbered_lines};
ghost use Rattle.t7_script.specs.Lines as lines;

use crate::gathered::number_line;
use std::alloc::AllocError;
use t7_eti::Kept;
use t7_script::kept_line;

/// Puts the report of a client behind a text: `RECOVERED` or `PARTIAL` with the number of its responses, and a line for each, numbered
/// from 1.
pub fn push_gathered(
    recovered: bool,
    responses: &[Kept],
    text: &mut Vec<u8>,
) -> Result<(), AllocError>
    ensures { OnOk result (text.new.items ≡ text.old.items ++ text_of (gathered_lines recovered responses.now)) }
{
    let line = number_line(recovered, responses.len() as u64);
    push_line(line.bytes(), text)?;
    push_responses(responses, text)
}

// Puts the lines of responses, numbered from 1, behind a text.
fn push_responses(responses: &[Kept], text: &mut Vec<u8>) -> Result<(), AllocError>
    ensures { OnOk result (text.new.items ≡ text.old.items ++ text_of (numbered_lines 1 responses.now)) }
{
    let mut number = 1;
    for what in responses {
        push_response(number, what, text)?;
        number += 1;
    }
    Ok(())
}

// Puts the line of a response behind a text.
fn push_response(number: u64, what: &Kept, text: &mut Vec<u8>) -> Result<(), AllocError>
    ensures { OnOk result (text.new.items ≡ text.old.items ++ text_of (lines.kept_line number what.now ∷ [])) }
{
    let mut words = [0u8; 256];
    let len = kept_line(number, what, &mut words);
    push_line(&words[..len], text)
}

// Puts a line behind a text.
fn push_line(line: &[u8], text: &mut Vec<u8>) -> Result<(), AllocError>
    ensures { OnOk result (text.new.items ≡ text.old.items ++ text_of (line.now ∷ [])) }
{
    text.extend_from_slice(line)?;
    text.push(b'\n')?;
    Ok(())
}
