//! Where two forms of a book part.

/// What the two gave otherwise.
#[derive(Clone, Copy, Debug, PartialEq, Eq)]
pub(crate) enum Part {
    /// The answers to a command.
    Answer,
    /// The messages of a command.
    Messages,
    /// The notes of a command.
    Notes,
    /// The answers of the member's books to a message.
    Misfit,
    /// The orders of the exchange's books.
    Walk,
    /// The orders of the member's books.
    MarketWalk,
    /// The orders of the exchange and of the member.
    Shown,
    /// A value of a command is out of its range.
    Draw,
}
