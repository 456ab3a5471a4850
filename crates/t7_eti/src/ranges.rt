//! Which numbers the fields of a response may have.

ghost use Rattle.std.specs.Prelude.{◌≡◌, None, Contains, IfNone};
ghost use Rattle.t7_layout.specs.Roles.{required};
ghost use Rattle.t7_fields.specs.Messages.{said_number};
ghost use Rattle.t7_eti.specs.Nulls.{sought};
ghost use Rattle.t7_eti.specs.Ranges.{first_out, fits, in_range};

use crate::nulls::sought;
use t7_fields::Fields;
use t7_layout::{FieldName, Kind};

// Whether a number is one of the type that a response has for a field.
fn in_range(name: FieldName, number: i128) -> bool
    ensures { result ≡ in_range name number }
{
    match name {
        FieldName::SessionRejectReason => number >= 1 && number <= 17,
        FieldName::TrdRegTSTimePriority => number >= 1 && number <= 9_223_372_036_854_775_807,
        FieldName::FillQty => number >= 1 && number <= 1_000_000_000_000_000,
        FieldName::FillPx => {
            number >= -100_000_000_000_000_000 && number <= 100_000_000_000_000_000
        }
        FieldName::Side => number >= 1 && number <= 2,
        _ => true,
    }
}

// Whether what a message says in a field, if anything, is in its range.
fn fits(m: &Fields<'_>, name: FieldName) -> bool
    requires { Contains (required m.now.role) name }
    ensures { result ≡ fits name (said_number m.now name) }
{
    match name.kind() {
        Kind::Unsigned => match m.unsigned(name) {
            Some(number) => in_range(name, number as i128),
            None => true,
        },
        Kind::Signed => match m.signed(name) {
            Some(number) => in_range(name, number as i128),
            None => true,
        },
        Kind::Raw => true,
    }
}

// The first of these fields whose number is out of its range.
#[tactic(auto, unfolding(crate::specs::Ranges::first_out))]
fn first_out_of(m: &Fields<'_>, names: &[FieldName]) -> Option<FieldName>
    requires { (name : FieldName) → Contains names.now name → Contains (required m.now.role) name }
    ensures { result ≡ first_out m.now names.now }
{
    for &name in names {
        if !fits(m, name) {
            return Some(name);
        }
    }
    None
}

/// The first field of a response whose number is out of its range.
pub(crate) fn first_out(m: &Fields<'_>) -> Option<FieldName>
    ensures { result ≡ first_out m.now (sought m.now.role) }
{
    first_out_of(m, sought(m.role()))
}
