//! Frames that are sent on connections, and datagrams that are cast on both lines.
ghost use Rattle.std.specs.Prelude.{◌≡◌, ◌∷◌, [], IfErr, IfOk, List, OnErr, OnOk, true, ℕ};
ghost use Rattle.t7_base.specs.Outside.{Begins, Grew, HasCause};
ghost use Rattle.t7_net.specs.Links.{Gave};
ghost use Rattle.t7_serve.specs.Turns.{on_both};

use t7_base::Feed;
use t7_net::{Lines, Link};
use t7_outcome::Stop;

/// Sends a frame on a connection; the answer is true.
pub(crate) fn send<L: Link>(conn: u32, bytes: &[u8], link: &mut L) -> Result<bool, Stop>
    ensures sent { OnOk result (Grew (L.sent link.old) (L.sent link.new) (λ added. added ≡ Gave conn bytes.now ∷ [])) }
    ensures broke { OnErr result (Grew (L.sent link.old) (L.sent link.new)
        (λ added. (front : List ℕ) × Begins front bytes.now × (added ≡ Gave conn front ∷ []))) }
    ensures more { IfOk result (λ more. more ≡ true) }
    ensures asked { L.asked link.new ≡ L.asked link.old }
    ensures events { L.events link.new ≡ L.events link.old }
    ensures cause { HasCause (L.faults link.old) (L.faults link.new) result }
    ensures only { IfErr result (λ stop. stop ≡ Stop.NetFault) }
{
    match link.send(conn, bytes) {
        Ok(()) => Ok(true),
        Err(_) => Err(Stop::NetFault),
    }
}

/// Casts a datagram on line A of its channel, and then on line B.
pub(crate) fn cast_both<D: Lines>(a: Feed, b: Feed, bytes: &[u8], lines: &mut D) -> Result<(), Stop>
    ensures cast { OnOk result (Grew (D.cast lines.old) (D.cast lines.new) (λ added. added ≡ on_both a b (bytes.now ∷ []))) }
    ensures broke { OnErr result (Grew (D.cast lines.old) (D.cast lines.new) (λ added. Begins added (on_both a b (bytes.now ∷ [])))) }
    ensures asked { D.asked lines.new ≡ D.asked lines.old }
    ensures taken { D.taken lines.new ≡ D.taken lines.old }
    ensures cause { HasCause (D.faults lines.old) (D.faults lines.new) result }
    ensures only { IfErr result (λ stop. stop ≡ Stop.NetFault) }
{
    cast(a, bytes, lines)?;
    cast(b, bytes, lines)
}

// Casts a datagram on a feed.
fn cast<D: Lines>(feed: Feed, bytes: &[u8], lines: &mut D) -> Result<(), Stop>
    ensures cast { OnOk result (Grew (D.cast lines.old) (D.cast lines.new) (λ added. added ≡ record { feed = feed; bytes = bytes.now } ∷ [])) }
    ensures none { OnErr result (D.cast lines.new ≡ D.cast lines.old) }
    ensures asked { D.asked lines.new ≡ D.asked lines.old }
    ensures taken { D.taken lines.new ≡ D.taken lines.old }
    ensures cause { HasCause (D.faults lines.old) (D.faults lines.new) result }
    ensures only { IfErr result (λ stop. stop ≡ Stop.NetFault) }
{
    match lines.cast(feed, bytes) {
        Ok(()) => Ok(()),
        Err(_) => Err(Stop::NetFault),
    }
}
