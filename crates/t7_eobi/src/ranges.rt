//! Which numbers the fields of a message may have.

ghost use Rattle.std.specs.Prelude.{◌≡◌, ◌<◌, ◌&&◌, ℕ, ℤ, pos, negsuc, leb, true, List, Contains, is_none, is_some, length, drop};
ghost use Rattle.std.specs.Int.Signed.{le_z};
ghost use Rattle.t7_layout.specs.Roles.{kind_of, required};
ghost use Rattle.t7_fields.specs.Messages.{first_unset, said_number};
ghost use Rattle.t7_eobi.specs.Ranges.{IsSound, counted, first_out, fits, in_range, is_live, range_of};

use crate::roles::is_live;
use t7_fields::Fields;
use t7_layout::{FieldName, Kind, Role};

/// A range of the numbers of a field.
#[derive(Clone, Copy, Debug, PartialEq, Eq)]
pub(crate) enum Range {
    /// Every number.
    Any,
    /// Of a message or a datagram.
    Sequence,
    /// Of the last message, 0 before the first.
    Processed,
    /// 1 and 2.
    Side,
    Price,
    Quantity,
    Stamp,
}

// The range of a field.
fn range_of(name: FieldName) -> Range
    ensures { result ≡ range_of name }
{
    match name {
        FieldName::ApplSeqNum | FieldName::MsgSeqNum => Range::Sequence,
        FieldName::LastMsgSeqNumProcessed => Range::Processed,
        FieldName::Side | FieldName::AggressorSide => Range::Side,
        FieldName::Price | FieldName::PrevPrice | FieldName::LastPx => Range::Price,
        FieldName::DisplayQty | FieldName::PrevDisplayQty | FieldName::LastQty => Range::Quantity,
        FieldName::TrdRegTSTimePriority
        | FieldName::TrdRegTSPrevTimePriority
        | FieldName::AggressorTime => Range::Stamp,
        _ => Range::Any,
    }
}

// The least and the greatest number of a range that an unsigned field can have.
fn unsigned_bounds(range: Range) -> (u64, u64)
    ensures { (n : ℕ) → n < 18_446_744_073_709_551_616 → (leb result.0 n && leb n result.1) ≡ in_range range (pos n) }
{
    match range {
        Range::Any => (0, 18_446_744_073_709_551_615),
        Range::Sequence => (1, 4_294_967_294),
        Range::Processed => (0, 4_294_967_294),
        Range::Side => (1, 2),
        Range::Price => (0, 100_000_000_000_000_000),
        Range::Quantity => (1, 1_000_000_000_000_000),
        Range::Stamp => (1, 9_223_372_036_854_775_807),
    }
}

// The least and the greatest number of a range that a signed field can have.
fn signed_bounds(range: Range) -> (i64, i64)
    ensures { (z : ℤ) → le_z (negsuc 9_223_372_036_854_775_807) z ≡ true → le_z z (pos 9_223_372_036_854_775_807) ≡ true
        → (le_z result.0 z && le_z z result.1) ≡ in_range range z }
{
    match range {
        Range::Any => (-9_223_372_036_854_775_808, 9_223_372_036_854_775_807),
        Range::Sequence => (1, 4_294_967_294),
        Range::Processed => (0, 4_294_967_294),
        Range::Side => (1, 2),
        Range::Price => (-100_000_000_000_000_000, 100_000_000_000_000_000),
        Range::Quantity => (1, 1_000_000_000_000_000),
        Range::Stamp => (1, 9_223_372_036_854_775_807),
    }
}

// Whether an unsigned field's number is of a range.
fn is_unsigned_in(range: Range, number: u64) -> bool
    ensures { result ≡ in_range range (pos number) }
{
    let (least, most) = unsigned_bounds(range);
    number >= least && number <= most
}

// Whether a signed field's number is of a range.
fn is_signed_in(range: Range, number: i64) -> bool
    ensures { result ≡ in_range range number }
{
    let (least, most) = signed_bounds(range);
    number >= least && number <= most
}

// The names after the first few.
fn after(names: &[FieldName], count: usize) -> &[FieldName]
    ensures { result.now ≡ drop count names.now }
{
    if names.len() < count {
        return &[];
    }
    names.split_at(count).1
}

/// The fields of a role that count.
pub(crate) fn counted(role: Role) -> &'static [FieldName]
    ensures { result.now ≡ counted role }
{
    after(role.required(), if is_live(role) { 2 } else { 3 })
}

// Whether a message says a number of its range in a field.
fn says(m: &Fields<'_>, name: FieldName) -> bool
    requires there { Contains (required m.now.role) name }
    ensures { result ≡ (is_some (said_number m.now name) && fits name (said_number m.now name)) }
{
    match name.kind() {
        Kind::Unsigned => match m.unsigned(name) {
            Some(number) => is_unsigned_in(range_of(name), number),
            None => false,
        },
        Kind::Signed => match m.signed(name) {
            Some(number) => is_signed_in(range_of(name), number),
            None => false,
        },
        Kind::Raw => m.is_set(name),
    }
}

/// Whether a message says a number of its range in each of these fields.
#[tactic(auto, unfolding(crate::specs::Ranges::first_out, t7_fields::specs::Messages::first_unset))]
pub(crate) fn says_all(m: &Fields<'_>, names: &[FieldName]) -> bool
    requires there { (name : FieldName) → Contains names.now name → Contains (required m.now.role) name }
    ensures { result ≡ (is_none (first_unset m.now names.now) && is_none (first_out m.now names.now)) }
{
    for &name in names {
        if !says(m, name) {
            return false;
        }
    }
    true
}
