//! A live message, written behind what stands already.

ghost use Rattle.std.specs.Prelude.{◌≡◌, ◌≤◌, ◌+◌, ◌++◌, length, take, drop};
ghost use Rattle.t7_eobi.specs.declared.walks.Live.TheVariants as items;
ghost use Rattle.t7_eobi.specs.Bytes.{IsSequence, public_bytes};
ghost use Rattle.t7_eobi.specs.Said.{SaysLive};
ghost use Rattle.t7_eobi.specs.Sizes.{message_size};
ghost use Rattle.t7_packets.specs.Packing.{IsWritable};

use t7_base::Public;
use t7_eobi::write_public;
use t7_layout::Table;

// Writes a live message behind the first `at` bytes, and answers its length.
pub(crate) fn write_behind(
    table: &Table,
    number: u32,
    message: &Public,
    at: usize,
    out: &mut [u8],
) -> usize
    requires room { at + message_size table.now message.now ≤ length out.old }
    requires writable { IsWritable message.now }
    requires number { IsSequence number }
    ensures size { result ≡ message_size table.now message.now }
    ensures length { result ≡ length (public_bytes table.now number message.now) }
    ensures bytes { out.new ≡ take at out.old ++ (public_bytes table.now number message.now ++ drop (at + result) out.old) }
    ensures says { SaysLive table.now (items.Message number message.now) (public_bytes table.now number message.now) }
{
    write_public(table, number, message, &mut out[at..])
}
