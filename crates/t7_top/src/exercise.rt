//! `drill SEED ORDERS`.
ghost use Rattle.std.specs.Prelude.{◌≡◌, ◌≤◌, Err, IfErr};
ghost use Rattle.t7_base.specs.Outside.{Grew, Rose};
ghost use Rattle.t7_drill.specs.Drilled.{OfDrill};
ghost use Rattle.t7_outcome.specs.Outcome.{Ends, Wrote};
ghost use Rattle.t7_top.specs.Exercise.{exercised};
ghost use Rattle.t7_top.specs.Moments.{IsReported};

use crate::inputs::{read_product, read_table};
use std::alloc::Global;
use t7_base::Sink;
use t7_drill::{PRODUCT, drill};
use t7_outcome::{Finish, Stop};
use t7_script::sample;

/// Runs the drill of a seed and so many orders over the sample table and the drill's product, which are valid, and writes its lines.
pub fn exercise<S: Sink>(
    alloc: Global,
    seed: u64,
    orders: u32,
    sink: &mut S,
) -> Result<Finish, Stop>
    requires { orders ≤ 20_000 }
    ensures end { Ends (exercised seed orders) result }
    ensures written { Grew (S.written sink.old) (S.written sink.new) (Wrote IsReported (exercised seed orders) result) }
    ensures only { IfErr result OfDrill }
    ensures count { S.faults sink.old ≤ S.faults sink.new }
    ensures write_fault { result ≡ Err Stop.WriteFault → Rose (S.faults sink.old) (S.faults sink.new) }
{
    let table = read_table(alloc, sample())?;
    let product = read_product(alloc, PRODUCT.as_bytes())?;
    drill(alloc, &table, &product, seed, orders, sink)
}
