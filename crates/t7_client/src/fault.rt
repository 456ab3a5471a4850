//! The end of a connection by what comes down.

/// Why bytes that came down ended the connection.
#[derive(Clone, Copy, Debug, PartialEq, Eq)]
pub enum ClientFault {
    /// What stands here is no response, whatever comes behind it; the place is counted in the bytes since the dial.
    Misfit { place: usize },
    /// Memory is wanting.
    Memory,
}
