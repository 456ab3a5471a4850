//! The command `drill`.

ghost use Rattle.std.specs.Prelude.{◌≡◌, ◌≤◌, ℕ, Err, IfErr, IfOk};
ghost use Rattle.t7_base.specs.Outside.{Grew, Rose};
ghost use Rattle.t7_entry.specs.Days.{last_of};
ghost use Rattle.t7_entry.specs.State.{Setting};
ghost use Rattle.t7_drill.specs.Drilled.{OfDrill, WroteDrill};
ghost use Rattle.t7_drill.specs.Worlds.{drilled, new_world};
ghost use Rattle.t7_drill.specs.Kits.{Stands, Within};

use crate::day::Drill;
use std::alloc::Global;
use t7_acts::days_stay_in_step;
use t7_base::{Product, Sink};
use t7_book::markets_are_books;
use t7_entry::last_markets_are_books;
use t7_feed::genuine_deliveries_are_sent;
use t7_layout::Table;
use t7_member::kept_is_reported;
use t7_outcome::{Finish, Stop};

/// The product file of the drill.
pub const PRODUCT: &str = "product,7
window,64
packets,1024
datagram,1472
security,1001,1
security,1002,1
session,21
session,22
";

/// Runs the drill of a seed, with so many orders in its first phase and 20,000 steps in its second, over a table and a product, and writes its
/// lines.
///
/// It stops with `WriteFault` only where the sink failed, and with `Memory` only where memory is wanting, before it has written anything.
pub fn drill<S: Sink>(
    alloc: Global,
    table: &Table,
    product: &Product,
    seed: u64,
    orders: u32,
    sink: &mut S,
) -> Result<Finish, Stop>
    requires { orders ≤ 20_000 }
    ensures written { Grew (S.written sink.old) (S.written sink.new)
        (WroteDrill (drilled (record { layouts = table.now; listing = product.now }) seed orders) result) }
    ensures end { IfOk result (λ finish. finish ≡ Finish.End (last_of (drilled (record { layouts = table.now; listing = product.now }) seed orders).day)) }
    ensures only { IfErr result OfDrill }
    ensures count { S.faults sink.old ≤ S.faults sink.new }
    ensures write_fault { result ≡ Err Stop.WriteFault → Rose (S.faults sink.old) (S.faults sink.new) }
{
    let Ok(mut drill) = Drill::new(alloc, table, product, seed) else {
        return Err(Stop::Memory);
    };
    play(&mut drill, orders, sink)
}

// The day is played, and its lines are written.
fn play<S: Sink>(drill: &mut Drill<'_>, orders: u32, sink: &mut S) -> Result<Finish, Stop>
    requires few { orders ≤ 20_000 }
    requires within { Within 10 drill.old }
    ensures written { (setting : Setting) (seed : ℕ) → Stands (new_world setting seed) drill.old
        → Grew (S.written sink.old) (S.written sink.new) (WroteDrill (drilled setting seed orders) result) }
    ensures end { (setting : Setting) (seed : ℕ) → Stands (new_world setting seed) drill.old
        → IfOk result (λ finish. finish ≡ Finish.End (last_of (drilled setting seed orders).day)) }
    ensures only { IfErr result OfDrill }
    ensures count { S.faults sink.old ≤ S.faults sink.new }
    ensures write_fault { result ≡ Err Stop.WriteFault → Rose (S.faults sink.old) (S.faults sink.new) }
{
    days_stay_in_step();
    markets_are_books();
    last_markets_are_books();
    genuine_deliveries_are_sent();
    kept_is_reported();
    let Ok(()) = drill.run(orders) else {
        return Err(Stop::Memory);
    };
    drill.is_sound();
    let Ok(text) = drill.tell() else {
        return Err(Stop::Memory);
    };
    match sink.put(&text) {
        Ok(()) => Ok(Finish::End(drill.messages())),
        Err(_) => Err(Stop::WriteFault),
    }
}
