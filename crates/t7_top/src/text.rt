//! The texts of `--help` and `--version`.
ghost use Rattle.std.specs.Prelude.{◌≡◌, ◌≢◌, ◌≤◌, Ok, Err};
ghost use Rattle.t7_base.specs.Outside.{Rose, Grew};
ghost use Rattle.t7_outcome.specs.Outcome.{Ends, Wrote};
ghost use Rattle.t7_top.specs.Moments.{IsReported};
ghost use Rattle.t7_top.specs.Text.{Tells, told};

use t7_base::Sink;
use t7_outcome::{Finish, Stop};

/// What `--help` prints: each command with its words, and each exit status.
pub const HELP: &[u8] = b"t7: an exchange and a member after T7 ETI order entry and EOBI market data

replay TABLE PRODUCT SCRIPT
    plays the script's events over an exchange, a member and a client
exchange TABLE PRODUCT LISTEN LA LB SA SB COUNT
    listens for members at LISTEN, sends market data to LA, LB, SA and SB, and takes COUNT events
member TABLE PRODUCT LA LB SA SB COUNT
    listens at LA, LB, SA and SB, takes COUNT receipts, and prints what it rebuilds
gather TABLE PRODUCT ADDRESS SESSION COUNT
    dials ADDRESS and prints the session's responses once all are recovered, in at most COUNT events
check TABLE
    lists the layout table's templates: family, id, name and length
drill SEED ORDERS
    plays a generated day of 20,000 requests behind ORDERS orders, over lines that lose and repeat
--help, -h or help
    prints this text
--version
    prints the version

Exit statuses:
 0  the input was taken whole
 2  the words are no command (usage)
 3  the layout table is refused (layout: row r: why)
 4  the product file is refused (product: row r: why)
 5  a line of the script is no event or can't be done (script: row r: why)
 6  a file can't be read (read fault)
 7  a line can't be written
 8  a socket failed (net fault)
 9  a file has more than 16 MiB, or a connection gave more than 64 MiB (too long)
10  the other side of the gatherer's connection broke off (peer: byte p, peer: reject r or peer: closed)
11  COUNT events passed before all was gathered (unfinished: k)
12  memory ran out (memory)";

/// What `--version` prints.
pub const VERSION: &[u8] = b"t7 0.1.0";

/// Writes the text and a line feed. It ends otherwise only at a write fault, and then the front of the text stands.
pub fn tell<S: Sink>(text: &[u8], sink: &mut S) -> Result<Finish, Stop>
    ensures end { Ends (told text.now) result }
    ensures written { Grew (S.written sink.old) (S.written sink.new) (Wrote IsReported (told text.now) result) }
    ensures tells { Tells text.now result (S.written sink.old) (S.written sink.new) }
    ensures count { S.faults sink.old ≤ S.faults sink.new }
    ensures write_fault { result ≡ Err Stop.WriteFault → Rose (S.faults sink.old) (S.faults sink.new) }
{
    match sink.put(text) {
        Ok(()) => {}
        Err(_) => return Err(Stop::WriteFault),
    }
    match sink.put(b"\n") {
        Ok(()) => Ok(Finish::Text),
        Err(_) => Err(Stop::WriteFault),
    }
}
