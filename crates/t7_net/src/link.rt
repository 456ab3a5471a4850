//! A link: connections that others open, and that this side dials.
ghost use Rattle.std.specs.Prelude.{◌≡◌, ◌≢◌, ◌<◌, ◌≤◌, [], ◌∷◌, List, Option, ℕ, length, OnOk, OnErr, is_ok};
ghost use Rattle.std.specs.Result.{result_ok};
ghost use Rattle.t7_base.specs.Outside.{Rose, HasCause, Grew, Begins};
ghost use Rattle.t7_net.specs.Links.{Dialed, Listened, LinkAsk, LinkSent, Gave, Shut, IsPiece, link_taken};
ghost use Rattle.t7_net.specs.declared.link.LinkItem.{LinkItem};

use t7_base::{Failed, Octets};

/// What a call of `next` found. The bytes are at the front of what it was lent.
#[derive(Clone, Copy, Debug, PartialEq, Eq)]
pub enum LinkEvent {
    /// The other side opened a connection, which has this number from now on.
    Opened(u32),
    /// So many bytes, at least one, came on this connection.
    Bytes(u32, usize),
    /// The other side closed this connection, or has gone.
    Closed(u32),
    /// Nothing came for a while.
    Quiet,
    /// It failed: the count of faults rose.
    Failed,
}

/// An event that was taken, with its bytes.
#[derive(Drop)]
pub enum LinkItem {
    /// The other side opened this connection.
    Opened(u32),
    /// These bytes came on this connection.
    Bytes(u32, Octets),
    /// The other side closed this connection, or has gone.
    Closed(u32),
    /// Nothing came for a while.
    Quiet,
}

/// Connections, each with its number: those that others open here, and those that this side dials.
pub trait Link {
    /// The listens and dials, each with its address and its answer.
    ghost asked: { Self → Option (List LinkAsk) };

    /// The events that were taken.
    ghost events: { Self → Option (List LinkItem) };

    /// The bytes that were sent and the closes, each with its connection.
    ghost sent: { Self → Option (List LinkSent) };

    /// How often a call has failed.
    ghost faults: { Self → ℕ };

    /// From now on others may open connections at this address. It fails where the address can't be used.
    fn listen(&mut self, address: &str) -> Result<(), Failed>
        ensures asked { Grew (asked self.old) (asked self.new) (λ added. added ≡ Listened address.now (is_ok result) ∷ []) }
        ensures events { events self.new ≡ events self.old }
        ensures sent { sent self.new ≡ sent self.old }
        ensures cause { HasCause (faults self.old) (faults self.new) result };

    /// Opens a connection to this address, and gives its number. It fails where nobody answers there.
    fn dial(&mut self, address: &str) -> Result<u32, Failed>
        ensures asked { Grew (asked self.old) (asked self.new) (λ added. added ≡ Dialed address.now (result_ok result) ∷ []) }
        ensures events { events self.new ≡ events self.old }
        ensures sent { sent self.new ≡ sent self.old }
        ensures cause { HasCause (faults self.old) (faults self.new) result };

    /// Waits a while for the next event. A piece of bytes that is longer than `into` comes in several events. A call that fails
    /// takes none.
    fn next(&mut self, into: &mut [u8]) -> LinkEvent
        requires { into.old ≢ [] }
        ensures events { Grew (events self.old) (events self.new) (λ added. added ≡ link_taken result into.new) }
        ensures nothing { result ≡ LinkEvent.Failed → events self.new ≡ events self.old }
        ensures piece { IsPiece result (length into.old) }
        ensures asked { asked self.new ≡ asked self.old }
        ensures sent { sent self.new ≡ sent self.old }
        ensures count { faults self.old ≤ faults self.new }
        ensures failed { result ≡ LinkEvent.Failed → Rose (faults self.old) (faults self.new) };

    /// Sends all the bytes on this connection; where it fails, a prefix of them. To a peer that has gone it doesn't fail.
    fn send(&mut self, conn: u32, bytes: &[u8]) -> Result<(), Failed>
        ensures ok { OnOk result (Grew (sent self.old) (sent self.new) (λ added. added ≡ Gave conn bytes.now ∷ [])) }
        ensures err { OnErr result (Grew (sent self.old) (sent self.new) (λ added.
            (front : List ℕ) × Begins front bytes.now × (added ≡ Gave conn front ∷ []))) }
        ensures asked { asked self.new ≡ asked self.old }
        ensures events { events self.new ≡ events self.old }
        ensures cause { HasCause (faults self.old) (faults self.new) result };

    /// Closes this connection, where it is open.
    fn close(&mut self, conn: u32)
        ensures sent { Grew (sent self.old) (sent self.new) (λ added. added ≡ Shut conn ∷ []) }
        ensures asked { asked self.new ≡ asked self.old }
        ensures events { events self.new ≡ events self.old }
        ensures count { faults self.old ≤ faults self.new };
}
