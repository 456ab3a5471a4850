//! What becomes of a message that comes on one of the two lines.

/// What became of a message that was put.
#[derive(Clone, Copy, Debug, PartialEq, Eq)]
pub enum Put {
    /// Its number is at most the base, or is kept already: it came on the other line, or again.
    Old,
    /// Its number is at most the highest number put so far less the window.
    Outside,
    /// It is kept.
    New,
}
