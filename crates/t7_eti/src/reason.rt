//! Why a request is rejected.

ghost use Rattle.std.specs.Prelude.{◌≡◌, ◌≤◌};
ghost use Rattle.t7_eti.specs.Reasons.{reason_number, reason_of};

/// Why a request is rejected: the SessionRejectReason of a Reject. The first eight close the connection.
#[derive(Clone, Copy, Debug, PartialEq, Eq)]
pub enum Reason {
    /// 1: the table has no template of the message's id, or it is that of no request.
    UnknownTemplate,
    /// 2: BodyLen is below 8 or over 4,096, or the message is shorter than its template.
    BadLength,
    /// 3: a field that the request requires has no value.
    NullField,
    /// 4: MsgSeqNum is not the next number of the session.
    SeqNum,
    /// 5: there was no logon.
    NotLoggedOn,
    /// 6: there was a logon.
    AlreadyLoggedOn,
    /// 7: the product has no such session.
    UnknownSession,
    /// 8: another connection holds the session.
    SessionInUse,
    /// 9: the product has no such security.
    UnknownSecurity,
    /// 10: the side is neither 1 nor 2.
    BadSide,
    /// 11: the price is out of its range, or no multiple of the security's tick.
    BadPrice,
    /// 12: the quantity is out of its range.
    BadQty,
    /// 13: the session has no such order in the book.
    UnknownOrder,
    /// 14: the total is not above what was executed.
    BelowExecuted,
    /// 15: the book is full.
    BookFull,
    /// 16: no further command is accepted on this day.
    DayFull,
    /// 17: the range of responses that is asked for is none.
    BadRange,
}

impl Reason {
    // Every reason, by its number.
    const ALL: [Reason; 17] = [
        Reason::UnknownTemplate,
        Reason::BadLength,
        Reason::NullField,
        Reason::SeqNum,
        Reason::NotLoggedOn,
        Reason::AlreadyLoggedOn,
        Reason::UnknownSession,
        Reason::SessionInUse,
        Reason::UnknownSecurity,
        Reason::BadSide,
        Reason::BadPrice,
        Reason::BadQty,
        Reason::UnknownOrder,
        Reason::BelowExecuted,
        Reason::BookFull,
        Reason::DayFull,
        Reason::BadRange,
    ];

    /// Its number in a message, from 1 to 17.
    pub fn number(self) -> u32
        ensures value { result ≡ reason_number self }
        ensures low { 1 ≤ result }
        ensures high { result ≤ 17 }
    {
        self as u32 + 1
    }
}

/// The reason of a number. None exactly where there is none.
#[tactic(auto, unfolding(crate::specs::Reasons::reason_of, crate::specs::Reasons::all_reasons))]
pub(crate) fn reason_of(number: u64) -> Option<Reason>
    ensures { result ≡ reason_of number }
{
    Reason::ALL
        .iter()
        .copied()
        .find(|reason| reason.number() as u64 == number)
}
