//! The run of the program.
ghost use Rattle.std.specs.Prelude.{◌≡◌, ◌≢◌, ◌≤◌, ◌⊎◌, ◌++◌, ◌∷◌, [], Err, Some, None, codes, map, string_bytes};
ghost use Rattle.t7_base.specs.Outside.{Rose, Grew};
ghost use Rattle.t7_outcome.specs.Ending.{status_of};
ghost use Rattle.t7_outcome.specs.Outcome.{Where, Answers, Printed, Asked, AskedOf};
ghost use Rattle.t7_outcome.specs.Performing.{TookFiles, WroteSink};
ghost use Rattle.t7_top.specs.Answers.{MayAnswer};
ghost use Rattle.t7_top.specs.Moments.{IsReported};
ghost use Rattle.t7_top.specs.Network.{Took, seen, no_intake};
ghost use Rattle.t7_top.specs.Outcomes.{outcome_of};
ghost use Rattle.t7_top.specs.Text.{Tells, Told};
ghost use Rattle.t7_top.specs.Using.{RanOn, SentBy, UsedBy};
ghost use Rattle.t7_top.specs.Whole.{EndsWhole, IsComplete};
ghost use Rattle.t7_top.specs.Words.{command_of, files_of, Help, Version};

use crate::check::run_check;
use crate::exercise::exercise;
use crate::jobs::run_job;
use crate::text::{HELP, VERSION, tell};
use crate::words::{Invocation, read_words};
use std::alloc::Global;
use t7_base::{Files, Sink};
use t7_net::{Clock, Lines, Link};
use t7_outcome::{Finish, Status, Stop, close};

/// Does what the words ask for, with these files, this network and this clock, and writes its lines to the sink.
pub fn run<F: Files, S: Sink, L: Link, D: Lines, C: Clock>(
    alloc: Global,
    words: &[String],
    files: &mut F,
    sink: &mut S,
    link: &mut L,
    lines: &mut D,
    clock: &mut C,
) -> Status
    // The answer is that of the command's outcome, by what its files hold and by what it took from the network and the clock, but for a fault of the outside
    // and want of memory.
    ensures answer { Took (command_of (map string_bytes words.now))
        (seen (L.asked link.old) (L.events link.old) (L.sent link.old) (D.asked lines.old) (D.taken lines.old) (D.cast lines.old) (C.given clock.old))
        (seen (L.asked link.new) (L.events link.new) (L.sent link.new) (D.asked lines.new) (D.taken lines.new) (D.cast lines.new) (C.given clock.new))
        (λ taken. Where (F.held files.old) (λ given. Answers (outcome_of (command_of (map string_bytes words.now)) taken given) result)) }

    // The answers that the command may give at all, whatever comes from outside: of words that are no form of one, usage alone; and the words
    // are refused exactly there. Only the commands on the network answer a net fault.
    ensures gives { MayAnswer (command_of (map string_bytes words.now)) result }
    ensures usage { result ≡ Status.Usage → command_of (map string_bytes words.now) ≡ None }

    // The text of `--help` and of `--version` is written whole, whatever the files hold; only a write fault cuts it off.
    ensures help { command_of (map string_bytes words.now) ≡ Some Help → Told HELP.now result (S.written sink.old) (S.written sink.new) }
    ensures version { command_of (map string_bytes words.now) ≡ Some Version → Told VERSION.now result (S.written sink.old) (S.written sink.new) }

    // The headline. At each SHOW of a script the printed state and orders are a report (`Report`) of what the exchange did and of what was
    // delivered to the member by the lines so far, while none of it was forged; and where the command `member` prints what its member shows, of the
    // datagrams received so far, for every exchange that sent them: the number that is shown is supported by datagrams that were received; the orders are,
    // one by one, those of the exchange's book after the message of that number; and the number is never below what a whole snapshot that came, with the
    // messages behind it that came within the window, supports. At each LIST of a script the printed list is a front of the responses that the exchange has
    // stored by then for the client's session, so each stands once, in the order of their numbers; and RECOVERED stands only where it has as many as the exchange
    // had stored when it wrote the last answer that the client read since its dial. The printed text as a whole is that of the command's outcome, in which these
    // reports stand at their places, with its last line; a fault of the outside or want of memory cuts off its end.
    ensures headline { Took (command_of (map string_bytes words.now))
        (seen (L.asked link.old) (L.events link.old) (L.sent link.old) (D.asked lines.old) (D.taken lines.old) (D.cast lines.old) (C.given clock.old))
        (seen (L.asked link.new) (L.events link.new) (L.sent link.new) (D.asked lines.new) (D.taken lines.new) (D.cast lines.new) (C.given clock.new))
        (λ taken. Where (F.held files.old) (λ given. Grew (S.written sink.old) (S.written sink.new)
        (Printed IsReported (outcome_of (command_of (map string_bytes words.now)) taken given) result))) }

    // The files that its words name are taken, in order and once each, at Done all of them.
    ensures asked { Grew (F.asked files.old) (F.asked files.new) (AskedOf (files_of (command_of (map string_bytes words.now))) result) }
    ensures took { Where (F.held files.old) (λ given. Grew (F.asked files.old) (F.asked files.new)
        (Asked (outcome_of (command_of (map string_bytes words.now)) no_intake given) result)) }

    // The network is used as the command uses it: what it listens at, dials and binds is that of its words in their order, and no more is taken than its COUNT.
    // A command that isn't one of the network, or that its files stop, leaves the network and the clock alone.
    ensures network { RanOn (command_of (map string_bytes words.now)) result (F.held files.old)
        (seen (L.asked link.old) (L.events link.old) (L.sent link.old) (D.asked lines.old) (D.taken lines.old) (D.cast lines.old) (C.given clock.old))
        (seen (L.asked link.new) (L.events link.new) (L.sent link.new) (D.asked lines.new) (D.taken lines.new) (D.cast lines.new) (C.given clock.new)) }

    // A fault is answered only where the count of that object rose; a file that can't be read ends the run before a line is written.
    ensures read_fault { result ≡ Status.ReadFault → Rose (F.faults files.old) (F.faults files.new) }
    ensures write_fault { result ≡ Status.WriteFault → Rose (S.faults sink.old) (S.faults sink.new) }
    ensures net_fault { result ≡ Status.NetFault → Rose (L.faults link.old) (L.faults link.new) ⊎ Rose (D.faults lines.old) (D.faults lines.new) }
    ensures unread { result ≡ Status.ReadFault → Grew (S.written sink.old) (S.written sink.new) (λ added. added ≡ codes "read fault" ++ 10 ∷ []) }

    // A command whose files are whole comes to an end where no count rose, or memory ran out.
    ensures complete { Where (F.held files.old) (λ given. IsComplete (command_of (map string_bytes words.now)) given
        → ¬ Rose (F.faults files.old) (F.faults files.new) → ¬ Rose (S.faults sink.old) (S.faults sink.new)
        → ¬ Rose (L.faults link.old) (L.faults link.new) → ¬ Rose (D.faults lines.old) (D.faults lines.new)
        → Took (command_of (map string_bytes words.now))
        (seen (L.asked link.old) (L.events link.old) (L.sent link.old) (D.asked lines.old) (D.taken lines.old) (D.cast lines.old) (C.given clock.old))
        (seen (L.asked link.new) (L.events link.new) (L.sent link.new) (D.asked lines.new) (D.taken lines.new) (D.cast lines.new) (C.given clock.new))
        (λ taken. EndsWhole (command_of (map string_bytes words.now)) result)) }
{
    let ended = perform(alloc, words, files, sink, link, lines, clock);
    if ended == Err(Stop::WriteFault) {
        return Status::WriteFault;
    }
    close(ended, sink)
}

// Does what the words ask for, but for the last line.
fn perform<F: Files, S: Sink, L: Link, D: Lines, C: Clock>(
    alloc: Global,
    words: &[String],
    files: &mut F,
    sink: &mut S,
    link: &mut L,
    lines: &mut D,
    clock: &mut C,
) -> Result<Finish, Stop>
    ensures files { TookFiles (outcome_of (command_of (map string_bytes words.now)) no_intake) (files_of (command_of (map string_bytes words.now))) result
        (F.held files.old) (F.asked files.old) (F.asked files.new) (F.faults files.old) (F.faults files.new) }
    ensures sink { Took (command_of (map string_bytes words.now))
        (seen (L.asked link.old) (L.events link.old) (L.sent link.old) (D.asked lines.old) (D.taken lines.old) (D.cast lines.old) (C.given clock.old))
        (seen (L.asked link.new) (L.events link.new) (L.sent link.new) (D.asked lines.new) (D.taken lines.new) (D.cast lines.new) (C.given clock.new))
        (λ taken. WroteSink IsReported (outcome_of (command_of (map string_bytes words.now)) taken) result
        (F.held files.old) (S.written sink.old) (S.written sink.new) (S.faults sink.old) (S.faults sink.new)) }
    ensures network { UsedBy (command_of (map string_bytes words.now)) result
        (seen (L.asked link.old) (L.events link.old) (L.sent link.old) (D.asked lines.old) (D.taken lines.old) (D.cast lines.old) (C.given clock.old))
        (seen (L.asked link.new) (L.events link.new) (L.sent link.new) (D.asked lines.new) (D.taken lines.new) (D.cast lines.new) (C.given clock.new)) }
    ensures sent { Took (command_of (map string_bytes words.now))
        (seen (L.asked link.old) (L.events link.old) (L.sent link.old) (D.asked lines.old) (D.taken lines.old) (D.cast lines.old) (C.given clock.old))
        (seen (L.asked link.new) (L.events link.new) (L.sent link.new) (D.asked lines.new) (D.taken lines.new) (D.cast lines.new) (C.given clock.new))
        (λ taken. Where (F.held files.old) (λ given. SentBy (command_of (map string_bytes words.now)) given.files taken result
        (seen (L.asked link.old) (L.events link.old) (L.sent link.old) (D.asked lines.old) (D.taken lines.old) (D.cast lines.old) (C.given clock.old))
        (seen (L.asked link.new) (L.events link.new) (L.sent link.new) (D.asked lines.new) (D.taken lines.new) (D.cast lines.new) (C.given clock.new)))) }
    ensures gives { MayAnswer (command_of (map string_bytes words.now)) (status_of result) }
    ensures help { command_of (map string_bytes words.now) ≡ Some Help → Tells HELP.now result (S.written sink.old) (S.written sink.new) }
    ensures version { command_of (map string_bytes words.now) ≡ Some Version → Tells VERSION.now result (S.written sink.old) (S.written sink.new) }
    ensures unread { result ≡ Err Stop.ReadFault → S.written sink.new ≡ S.written sink.old }
    ensures sink_count { S.faults sink.old ≤ S.faults sink.new }
    ensures write_fault { result ≡ Err Stop.WriteFault → Rose (S.faults sink.old) (S.faults sink.new) }
    ensures link_count { L.faults link.old ≤ L.faults link.new }
    ensures lines_count { D.faults lines.old ≤ D.faults lines.new }
    ensures net_fault { result ≡ Err Stop.NetFault → Rose (L.faults link.old) (L.faults link.new) ⊎ Rose (D.faults lines.old) (D.faults lines.new) }
{
    match read_words(words) {
        Some(
            Invocation::Over {
                table,
                product,
                job,
            },
        ) => run_job(alloc, table, product, &job, files, sink, link, lines, clock),
        Some(Invocation::Check { table }) => run_check(alloc, table, files, sink),
        Some(Invocation::Drill { seed, orders }) => { exercise(alloc, seed, orders, sink) }
        Some(Invocation::Help) => tell(HELP, sink),
        Some(Invocation::Version) => tell(VERSION, sink),
        None => Err(Stop::Usage),
    }
}
