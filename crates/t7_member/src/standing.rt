//! Where a member stands.

ghost use Rattle.std.specs.Prelude.{◌≡◌};
ghost use Rattle.t7_member.specs.Standing.{base_of, refusal_of};

use t7_mbook::Misfit;

/// The number of a message that didn't fit the book, and why.
#[derive(Clone, Copy, Debug, PartialEq, Eq)]
pub struct Refusal {
    pub number: u32,
    pub why: Misfit,
}

// Where a member stands: it waits for a whole snapshot, or its book is that after message n, or message q didn't fit the book.
#[derive(Clone, Copy, Debug, PartialEq, Eq)]
pub enum Standing {
    Waits,
    At(u32),
    Stopped(Refusal),
}

impl Standing {
    // The number of the book, if there is one.
    pub fn base(self) -> Option<u32>
        ensures { result ≡ base_of self }
    {
        match self {
            Standing::At(n) => Some(n),
            Standing::Waits | Standing::Stopped(_) => None,
        }
    }

    // What was refused, if something is.
    pub fn refusal(self) -> Option<Refusal>
        ensures { result ≡ refusal_of self }
    {
        match self {
            Standing::Stopped(refusal) => Some(refusal),
            Standing::Waits | Standing::At(_) => None,
        }
    }
}
