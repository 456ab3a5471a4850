//! A script is played line by line.

ghost use Rattle.std.specs.Prelude.{◌≡◌, ◌≤◌, Err, IfErr};
ghost use Rattle.t7_base.specs.Outside.{Grew, Rose};
ghost use Rattle.t7_outcome.specs.Outcome.{Ends, Wrote};
ghost use Rattle.t7_replay.specs.Kits.{Stands, terms_of};
ghost use Rattle.t7_replay.specs.Reports.{IsReported};
ghost use Rattle.t7_replay.specs.Script.{lines_of};
ghost use Rattle.t7_replay.specs.Steps.{OfPlay, played};
ghost use Rattle.t7_replay.specs.World.{new_world};

use crate::first::first_line;
use crate::replayer::Replayer;
use std::alloc::Global;
use t7_base::{Product, Sink};
use t7_dialog::{clients_are_served, clients_ask_for_responses, what_comes_is_gathered};
use t7_layout::Table;
use t7_outcome::{Finish, Stop};

/// Plays the lines of a script over an exchange and a member of this table and product, at the beginning of their day, and over a client
/// of the session that its first DIAL names.
///
/// `Script` comes exactly where the line that it names stops the script, `WriteFault` only where the count of the sink rose, and
/// `Memory` only where memory is wanting. What is written is the text of the lines' parts, of which either of the last two
/// may cut off the end; and where a part is a report stand lines as `IsReported` says: at each SHOW those of a state and of orders, and at each
/// LIST those of a front of the responses that the exchange has stored for the client's session.
pub fn play<S: Sink>(
    alloc: Global,
    table: &Table,
    product: &Product,
    script: &[u8],
    sink: &mut S,
) -> Result<Finish, Stop>
    ensures end { Ends (played (record { layouts = table.now; listing = product.now }) new_world (lines_of script.now)) result }
    ensures written { Grew (S.written sink.old) (S.written sink.new)
        (Wrote IsReported (played (record { layouts = table.now; listing = product.now }) new_world (lines_of script.now)) result) }
    ensures only { IfErr result OfPlay }
    ensures count { S.faults sink.old ≤ S.faults sink.new }
    ensures write_fault { result ≡ Err Stop.WriteFault → Rose (S.faults sink.old) (S.faults sink.new) }
{
    let Ok(mut replayer) = Replayer::new(alloc, table, product) else {
        return Err(Stop::Memory);
    };
    play_lines(&mut replayer, script, sink)
}

// Plays lines from the beginning of the day on.
fn play_lines<S: Sink>(
    replayer: &mut Replayer<'_>,
    script: &[u8],
    sink: &mut S,
) -> Result<Finish, Stop>
    requires { Stands (terms_of replayer.old) new_world replayer.old }
    ensures end { Ends (played (terms_of replayer.old) new_world (lines_of script.now)) result }
    ensures written { Grew (S.written sink.old) (S.written sink.new)
        (Wrote IsReported (played (terms_of replayer.old) new_world (lines_of script.now)) result) }
    ensures only { IfErr result OfPlay }
    ensures count { S.faults sink.old ≤ S.faults sink.new }
    ensures write_fault { result ≡ Err Stop.WriteFault → Rose (S.faults sink.old) (S.faults sink.new) }
{
    clients_are_served();
    what_comes_is_gathered();
    clients_ask_for_responses();
    let mut rest = script;
    while !rest.is_empty() {
        let (line, after) = first_line(rest);
        replayer.act(line, sink)?;
        rest = after;
    }
    Ok(Finish::End(replayer.messages()))
}
