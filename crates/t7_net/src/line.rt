//! The four lines of market data.
ghost use Rattle.std.specs.Prelude.{◌≡◌, ◌≤◌, [], ◌∷◌, List, Option, ℕ, length, OnOk, OnErr};
ghost use Rattle.t7_base.specs.Outside.{Rose, HasCause, Grew};
ghost use Rattle.t7_net.specs.Lines.{Bind, Casting, Fits, line_taken};
ghost use Rattle.t7_net.specs.declared.line.LineItem.{LineItem};

use t7_base::{Failed, Feed, Octets};

/// What a call of `receive` found. The datagram is at the front of what it was lent.
#[derive(Clone, Copy, Debug, PartialEq, Eq)]
pub enum Received {
    /// A datagram came on this feed: it has so many bytes, or is longer and these are the first of it.
    Datagram(Feed, usize),
    /// Nothing came for a while.
    Quiet,
    /// It failed: the count of faults rose.
    Failed,
}

/// A receipt that was taken, with its bytes.
#[derive(Drop)]
pub enum LineItem {
    /// These bytes came on this feed as one datagram.
    Datagram(Feed, Octets),
    /// Nothing came for a while.
    Quiet,
}

/// Datagrams on the four feeds.
pub trait Lines {
    /// The binds, each with its feed, its address, and whether it is for listening.
    ghost asked: { Self → Option (List Bind) };

    /// The receipts that were taken.
    ghost taken: { Self → Option (List LineItem) };

    /// The datagrams that were sent, each with its feed.
    ghost cast: { Self → Option (List Casting) };

    /// How often a call has failed.
    ghost faults: { Self → ℕ };

    /// From now on datagrams that come to this address are taken for the feed, where it is for listening; else those of the feed
    /// are sent to it. It fails where the address can't be used.
    fn bind(&mut self, feed: Feed, address: &str, listen: bool) -> Result<(), Failed>
        ensures asked { Grew (asked self.old) (asked self.new) (λ added. added ≡ record { feed = feed; address = address.now; listen = listen } ∷ []) }
        ensures taken { taken self.new ≡ taken self.old }
        ensures cast { cast self.new ≡ cast self.old }
        ensures cause { HasCause (faults self.old) (faults self.new) result };

    /// Waits a while for the next datagram of any feed. Of one that is longer than `into` it gives the front that fits. A call
    /// that fails takes none.
    fn receive(&mut self, into: &mut [u8]) -> Received
        requires { 1473 ≤ length into.old }
        ensures taken { Grew (taken self.old) (taken self.new) (λ added. added ≡ line_taken result into.new) }
        ensures nothing { result ≡ Received.Failed → taken self.new ≡ taken self.old }
        ensures fits { Fits result (length into.old) }
        ensures asked { asked self.new ≡ asked self.old }
        ensures cast { cast self.new ≡ cast self.old }
        ensures count { faults self.old ≤ faults self.new }
        ensures failed { result ≡ Received.Failed → Rose (faults self.old) (faults self.new) };

    /// Sends the datagram on this feed; where it fails, nothing.
    fn cast(&mut self, feed: Feed, bytes: &[u8]) -> Result<(), Failed>
        ensures ok { OnOk result (Grew (cast self.old) (cast self.new) (λ added. added ≡ record { feed = feed; bytes = bytes.now } ∷ [])) }
        ensures err { OnErr result (cast self.new ≡ cast self.old) }
        ensures asked { asked self.new ≡ asked self.old }
        ensures taken { taken self.new ≡ taken self.old }
        ensures cause { HasCause (faults self.old) (faults self.new) result };
}
