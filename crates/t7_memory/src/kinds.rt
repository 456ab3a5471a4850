//! The kinds of calls that are noted, beside their bytes: an address, or what is sent.

use t7_base::Feed;

/// What was asked of a link.
#[derive(Clone, Copy, Debug, PartialEq, Eq)]
pub enum Asking {
    /// A listen, and whether it succeeded.
    Listen(bool),
    /// A dial, and the number of its connection, where it succeeded.
    Dial(Option<u32>),
}

/// What was sent on a link.
#[derive(Clone, Copy, Debug, PartialEq, Eq)]
pub enum Sending {
    /// Bytes on this connection.
    Bytes(u32),
    /// The close of this connection.
    Close(u32),
}

/// A bind of the lines: its feed, and whether it is for listening.
#[derive(Clone, Copy, Debug, PartialEq, Eq)]
pub struct Binding {
    pub feed: Feed,
    pub listen: bool,
}
