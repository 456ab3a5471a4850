//! The jobs over a layout table and a product file: `replay`, `exchange`, `member` and `gather`.
ghost use Rattle.std.specs.Prelude.{◌≡◌, ◌≤◌, ◌⊎◌, ◌∷◌, [], Err, IfErr, Some, false, true};
ghost use Rattle.t7_base.specs.Outside.{Rose};
ghost use Rattle.t7_follow.specs.Clauses as following;
ghost use Rattle.t7_outcome.specs.Outcome.{Where, taking};
ghost use Rattle.t7_outcome.specs.Performing.{TookFiles, WroteSink};
ghost use Rattle.t7_serve.specs.Clauses as serving;
ghost use Rattle.t7_top.specs.Jobs.{OfJob, OfWork, script_played, started, terms_of, over_product, over_table};
ghost use Rattle.t7_top.specs.Meaning.{IsWithinJob, feeds_meant, job_meant};
ghost use Rattle.t7_top.specs.Moments.{IsReported};
ghost use Rattle.t7_top.specs.Network.{JobTook, seen, no_intake};
ghost use Rattle.t7_top.specs.Using.{SentBehind, SentBy, SentOrNot, UsedOrNot, binds_of};
ghost use Rattle.t7_top.specs.Words as words;

use crate::inputs::{read_product, read_table};
use crate::words::{Feeds, Job};
use std::alloc::Global;
use t7_base::{Files, Product, SessionId, Sink};
use t7_follow::follow;
use t7_gather::gather;
use t7_layout::Table;
use t7_net::{Clock, Lines, Link};
use t7_outcome::{Finish, Stop, fetch};
use t7_replay::play;
use t7_serve::serve;

/// Reads the table and the product file, each checked before the next is read, and does the job over them.
pub fn run_job<F: Files, S: Sink, L: Link, D: Lines, C: Clock>(
    alloc: Global,
    table: &str,
    product: &str,
    job: &Job<'_>,
    files: &mut F,
    sink: &mut S,
    link: &mut L,
    lines: &mut D,
    clock: &mut C,
) -> Result<Finish, Stop>
    requires { IsWithinJob job.now }
    ensures files { TookFiles (over_table table.now product.now (job_meant job.now) no_intake)
        (table.now ∷ product.now ∷ words.scripts_of (job_meant job.now)) result
        (F.held files.old) (F.asked files.old) (F.asked files.new) (F.faults files.old) (F.faults files.new) }
    ensures sink { JobTook (job_meant job.now)
        (seen (L.asked link.old) (L.events link.old) (L.sent link.old) (D.asked lines.old) (D.taken lines.old) (D.cast lines.old) (C.given clock.old))
        (seen (L.asked link.new) (L.events link.new) (L.sent link.new) (D.asked lines.new) (D.taken lines.new) (D.cast lines.new) (C.given clock.new))
        (λ taken. WroteSink IsReported (over_table table.now product.now (job_meant job.now) taken) result
        (F.held files.old) (S.written sink.old) (S.written sink.new) (S.faults sink.old) (S.faults sink.new)) }
    ensures network { UsedOrNot (job_meant job.now) result
        (seen (L.asked link.old) (L.events link.old) (L.sent link.old) (D.asked lines.old) (D.taken lines.old) (D.cast lines.old) (C.given clock.old))
        (seen (L.asked link.new) (L.events link.new) (L.sent link.new) (D.asked lines.new) (D.taken lines.new) (D.cast lines.new) (C.given clock.new)) }
    ensures sent { JobTook (job_meant job.now)
        (seen (L.asked link.old) (L.events link.old) (L.sent link.old) (D.asked lines.old) (D.taken lines.old) (D.cast lines.old) (C.given clock.old))
        (seen (L.asked link.new) (L.events link.new) (L.sent link.new) (D.asked lines.new) (D.taken lines.new) (D.cast lines.new) (C.given clock.new))
        (λ taken. Where (F.held files.old) (λ given. SentBy (Some (words.Over table.now product.now (job_meant job.now))) given.files taken result
        (seen (L.asked link.old) (L.events link.old) (L.sent link.old) (D.asked lines.old) (D.taken lines.old) (D.cast lines.old) (C.given clock.old))
        (seen (L.asked link.new) (L.events link.new) (L.sent link.new) (D.asked lines.new) (D.taken lines.new) (D.cast lines.new) (C.given clock.new)))) }
    ensures only { IfErr result (OfJob (job_meant job.now)) }
    ensures unread { result ≡ Err Stop.ReadFault → S.written sink.new ≡ S.written sink.old }
    ensures sink_count { S.faults sink.old ≤ S.faults sink.new }
    ensures write_fault { result ≡ Err Stop.WriteFault → Rose (S.faults sink.old) (S.faults sink.new) }
    ensures link_count { L.faults link.old ≤ L.faults link.new }
    ensures lines_count { D.faults lines.old ≤ D.faults lines.new }
    ensures net_fault { result ≡ Err Stop.NetFault → Rose (L.faults link.old) (L.faults link.new) ⊎ Rose (D.faults lines.old) (D.faults lines.new) }
{
    let mut bytes = Vec::new(alloc);
    fetch(files, table, &mut bytes)?;
    let table = read_table(alloc, &bytes)?;
    trade(alloc, &table, product, job, files, sink, link, lines, clock)
}

// Reads the product file, and does the job over the table and it.
fn trade<F: Files, S: Sink, L: Link, D: Lines, C: Clock>(
    alloc: Global,
    table: &Table,
    product: &str,
    job: &Job<'_>,
    files: &mut F,
    sink: &mut S,
    link: &mut L,
    lines: &mut D,
    clock: &mut C,
) -> Result<Finish, Stop>
    requires { IsWithinJob job.now }
    ensures files { TookFiles (over_product table.now product.now (job_meant job.now) no_intake) (product.now ∷ words.scripts_of (job_meant job.now)) result
        (F.held files.old) (F.asked files.old) (F.asked files.new) (F.faults files.old) (F.faults files.new) }
    ensures sink { JobTook (job_meant job.now)
        (seen (L.asked link.old) (L.events link.old) (L.sent link.old) (D.asked lines.old) (D.taken lines.old) (D.cast lines.old) (C.given clock.old))
        (seen (L.asked link.new) (L.events link.new) (L.sent link.new) (D.asked lines.new) (D.taken lines.new) (D.cast lines.new) (C.given clock.new))
        (λ taken. WroteSink IsReported (over_product table.now product.now (job_meant job.now) taken) result
        (F.held files.old) (S.written sink.old) (S.written sink.new) (S.faults sink.old) (S.faults sink.new)) }
    ensures network { UsedOrNot (job_meant job.now) result
        (seen (L.asked link.old) (L.events link.old) (L.sent link.old) (D.asked lines.old) (D.taken lines.old) (D.cast lines.old) (C.given clock.old))
        (seen (L.asked link.new) (L.events link.new) (L.sent link.new) (D.asked lines.new) (D.taken lines.new) (D.cast lines.new) (C.given clock.new)) }
    ensures sent { JobTook (job_meant job.now)
        (seen (L.asked link.old) (L.events link.old) (L.sent link.old) (D.asked lines.old) (D.taken lines.old) (D.cast lines.old) (C.given clock.old))
        (seen (L.asked link.new) (L.events link.new) (L.sent link.new) (D.asked lines.new) (D.taken lines.new) (D.cast lines.new) (C.given clock.new))
        (λ taken. Where (F.held files.old) (λ given. SentBehind table.now product.now given.files (job_meant job.now) taken result
        (seen (L.asked link.old) (L.events link.old) (L.sent link.old) (D.asked lines.old) (D.taken lines.old) (D.cast lines.old) (C.given clock.old))
        (seen (L.asked link.new) (L.events link.new) (L.sent link.new) (D.asked lines.new) (D.taken lines.new) (D.cast lines.new) (C.given clock.new)))) }
    ensures only { IfErr result (OfJob (job_meant job.now)) }
    ensures unread { result ≡ Err Stop.ReadFault → S.written sink.new ≡ S.written sink.old }
    ensures sink_count { S.faults sink.old ≤ S.faults sink.new }
    ensures write_fault { result ≡ Err Stop.WriteFault → Rose (S.faults sink.old) (S.faults sink.new) }
    ensures link_count { L.faults link.old ≤ L.faults link.new }
    ensures lines_count { D.faults lines.old ≤ D.faults lines.new }
    ensures net_fault { result ≡ Err Stop.NetFault → Rose (L.faults link.old) (L.faults link.new) ⊎ Rose (D.faults lines.old) (D.faults lines.new) }
{
    let mut bytes = Vec::new(alloc);
    fetch(files, product, &mut bytes)?;
    let product = read_product(alloc, &bytes)?;
    work(alloc, table, &product, job, files, sink, link, lines, clock)
}

// Does the job over the table and the product.
fn work<F: Files, S: Sink, L: Link, D: Lines, C: Clock>(
    alloc: Global,
    table: &Table,
    product: &Product,
    job: &Job<'_>,
    files: &mut F,
    sink: &mut S,
    link: &mut L,
    lines: &mut D,
    clock: &mut C,
) -> Result<Finish, Stop>
    requires { IsWithinJob job.now }
    ensures files { TookFiles (started (terms_of table.now product.now) (job_meant job.now) no_intake) (words.scripts_of (job_meant job.now)) result
        (F.held files.old) (F.asked files.old) (F.asked files.new) (F.faults files.old) (F.faults files.new) }
    ensures sink { JobTook (job_meant job.now)
        (seen (L.asked link.old) (L.events link.old) (L.sent link.old) (D.asked lines.old) (D.taken lines.old) (D.cast lines.old) (C.given clock.old))
        (seen (L.asked link.new) (L.events link.new) (L.sent link.new) (D.asked lines.new) (D.taken lines.new) (D.cast lines.new) (C.given clock.new))
        (λ taken. WroteSink IsReported (started (terms_of table.now product.now) (job_meant job.now) taken) result
        (F.held files.old) (S.written sink.old) (S.written sink.new) (S.faults sink.old) (S.faults sink.new)) }
    ensures network { UsedOrNot (job_meant job.now) result
        (seen (L.asked link.old) (L.events link.old) (L.sent link.old) (D.asked lines.old) (D.taken lines.old) (D.cast lines.old) (C.given clock.old))
        (seen (L.asked link.new) (L.events link.new) (L.sent link.new) (D.asked lines.new) (D.taken lines.new) (D.cast lines.new) (C.given clock.new)) }
    ensures sent { JobTook (job_meant job.now)
        (seen (L.asked link.old) (L.events link.old) (L.sent link.old) (D.asked lines.old) (D.taken lines.old) (D.cast lines.old) (C.given clock.old))
        (seen (L.asked link.new) (L.events link.new) (L.sent link.new) (D.asked lines.new) (D.taken lines.new) (D.cast lines.new) (C.given clock.new))
        (λ taken. SentOrNot (terms_of table.now product.now) (job_meant job.now) taken result
        (seen (L.asked link.old) (L.events link.old) (L.sent link.old) (D.asked lines.old) (D.taken lines.old) (D.cast lines.old) (C.given clock.old))
        (seen (L.asked link.new) (L.events link.new) (L.sent link.new) (D.asked lines.new) (D.taken lines.new) (D.cast lines.new) (C.given clock.new))) }
    ensures only { IfErr result (OfWork (job_meant job.now)) }
    ensures unread { result ≡ Err Stop.ReadFault → S.written sink.new ≡ S.written sink.old }
    ensures sink_count { S.faults sink.old ≤ S.faults sink.new }
    ensures write_fault { result ≡ Err Stop.WriteFault → Rose (S.faults sink.old) (S.faults sink.new) }
    ensures link_count { L.faults link.old ≤ L.faults link.new }
    ensures lines_count { D.faults lines.old ≤ D.faults lines.new }
    ensures net_fault { result ≡ Err Stop.NetFault → Rose (L.faults link.old) (L.faults link.new) ⊎ Rose (D.faults lines.old) (D.faults lines.new) }
{
    match job {
        Job::Replay { script } => play_script(alloc, table, product, script, files, sink),
        Job::Exchange {
            listen,
            feeds,
            count,
        } => {
            let addresses = addresses_of(listen, feeds);
            serve(
                alloc, table, product, &addresses, *count, link, lines, clock,
            )
        }
        Job::Member { feeds, count } => {
            let addresses = listening_at(feeds);
            follow(alloc, table, product, &addresses, *count, lines, sink)
        }
        Job::Gather {
            address,
            session,
            count,
        } => gather(
            alloc,
            table,
            address,
            SessionId(*session),
            *count,
            link,
            sink,
        ),
    }
}

// The addresses of an exchange: where it listens, and where the four feeds go out.
fn addresses_of<'a>(listen: &'a str, feeds: &Feeds<'a>) -> t7_serve::Addresses<'a>
    ensures listen { result.listen.now ≡ listen.now }
    ensures feeds { serving.binds_of result ≡ binds_of false (feeds_meant feeds.now) }
{
    t7_serve::Addresses {
        listen,
        live_a: feeds.live_a,
        live_b: feeds.live_b,
        snap_a: feeds.snap_a,
        snap_b: feeds.snap_b,
    }
}

// The addresses at which a member listens.
fn listening_at<'a>(feeds: &Feeds<'a>) -> t7_follow::Addresses<'a>
    ensures { following.binds_of result ≡ binds_of true (feeds_meant feeds.now) }
{
    t7_follow::Addresses {
        live_a: feeds.live_a,
        live_b: feeds.live_b,
        snap_a: feeds.snap_a,
        snap_b: feeds.snap_b,
    }
}

// Reads the script, and plays it over the table and the product.
fn play_script<F: Files, S: Sink>(
    alloc: Global,
    table: &Table,
    product: &Product,
    script: &str,
    files: &mut F,
    sink: &mut S,
) -> Result<Finish, Stop>
    ensures files { TookFiles (λ given. taking script.now given.files (script_played (terms_of table.now product.now))) (script.now ∷ []) result
        (F.held files.old) (F.asked files.old) (F.asked files.new) (F.faults files.old) (F.faults files.new) }
    ensures sink { WroteSink IsReported (λ given. taking script.now given.files (script_played (terms_of table.now product.now))) result
        (F.held files.old) (S.written sink.old) (S.written sink.new) (S.faults sink.old) (S.faults sink.new) }
    ensures only { IfErr result (OfWork (words.Replay script.now)) }
    ensures unread { result ≡ Err Stop.ReadFault → S.written sink.new ≡ S.written sink.old }
{
    let mut bytes = Vec::new(alloc);
    fetch(files, script, &mut bytes)?;
    play(alloc, table, product, &bytes, sink)
}
