//! `check TABLE`.
ghost use Rattle.std.specs.Prelude.{◌≡◌, ◌≤◌, ◌∷◌, [], Err, IfErr, IfOk, OnOk, length};
ghost use Rattle.t7_base.specs.Outside.{Begins, Grew, Rose};
ghost use Rattle.t7_layout.specs.Texts.{table_text};
ghost use Rattle.t7_outcome.specs.Performing.{TookFiles, WroteSink};
ghost use Rattle.t7_outcome.specs.Steps.{OfPrint};
ghost use Rattle.t7_top.specs.Moments.{IsReported};
ghost use Rattle.t7_top.specs.Check.{OfCheck, check_run};

use crate::inputs::read_table;
use std::alloc::Global;
use t7_base::{Files, Sink};
use t7_layout::Table;
use t7_outcome::{Finish, Stop, fetch};

/// Reads the table, and prints a line for each of its templates.
pub fn run_check<F: Files, S: Sink>(
    alloc: Global,
    table: &str,
    files: &mut F,
    sink: &mut S,
) -> Result<Finish, Stop>
    ensures files { TookFiles (check_run table.now) (table.now ∷ []) result
        (F.held files.old) (F.asked files.old) (F.asked files.new) (F.faults files.old) (F.faults files.new) }
    ensures sink { WroteSink IsReported (check_run table.now) result
        (F.held files.old) (S.written sink.old) (S.written sink.new) (S.faults sink.old) (S.faults sink.new) }
    ensures only { IfErr result OfCheck }
    ensures unread { result ≡ Err Stop.ReadFault → S.written sink.new ≡ S.written sink.old }
{
    let mut bytes = Vec::new(alloc);
    fetch(files, table, &mut bytes)?;
    let table = read_table(alloc, &bytes)?;
    print_table(alloc, &table, sink)
}

/// Prints a line for each template of the table. Want of memory comes before anything is written.
fn print_table<S: Sink>(alloc: Global, table: &Table, sink: &mut S) -> Result<Finish, Stop>
    ensures finish { IfOk result (λ finish. finish ≡ Finish.End (length table.now)) }
    ensures whole { OnOk result (Grew (S.written sink.old) (S.written sink.new) (λ added. added ≡ table_text table.now)) }
    ensures cut { result ≡ Err Stop.WriteFault → Grew (S.written sink.old) (S.written sink.new) (λ added. Begins added (table_text table.now)) }
    ensures nothing { result ≡ Err Stop.Memory → S.written sink.new ≡ S.written sink.old }
    ensures only { IfErr result OfPrint }
    ensures count { S.faults sink.old ≤ S.faults sink.new }
    ensures write_fault { result ≡ Err Stop.WriteFault → Rose (S.faults sink.old) (S.faults sink.new) }
{
    let mut text = Vec::new(alloc);
    if table.text(&mut text).is_err() {
        return Err(Stop::Memory);
    }
    if sink.put(&text).is_err() {
        return Err(Stop::WriteFault);
    }
    Ok(Finish::End(table.templates().len() as u64))
}
