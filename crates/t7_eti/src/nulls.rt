//! Which fields a message has to say, and which of them say nothing.

ghost use Rattle.std.specs.Prelude.{◌≡◌, None, Contains, IfNone, drop, true};
ghost use Rattle.t7_layout.specs.Roles.{required};
ghost use Rattle.t7_fields.specs.Messages.{first_unset};
ghost use Rattle.t7_eti.specs.Nulls.{HasFields, first_missing, is_missing, sought, unsought};

use t7_fields::Fields;
use t7_layout::{FieldName, Role};

/// Why a message is no record.
#[derive(Clone, Copy, Debug, PartialEq, Eq)]
pub enum FieldFault {
    /// Its template is not one of a request, where a request is read, or not one of a response, where a response is.
    NoRole,
    /// The first field that its role requires and that has no value.
    Null(FieldName),
    /// No field is without a value, and this is the first whose number is out of the range of its type in a response.
    Value(FieldName),
}

// How many of the fields that a role requires are not looked for.
fn unsought(role: Role) -> usize
    ensures { result ≡ unsought role }
{
    match role {
        Role::Reject => 3,
        _ => 2,
    }
}

/// The fields of a role that are looked for, in their order.
#[tactic(auto, unfolding(crate::specs::Nulls::sought))]
pub(crate) fn sought(role: Role) -> &'static [FieldName]
    ensures { result.now ≡ sought role }
{
    let names = role.required();
    let front = unsought(role);
    if names.len() < front {
        return &[];
    }
    names.split_at(front).1
}

// Whether a field of a request has no value, or a number that counts as none.
fn is_missing(m: &Fields<'_>, name: FieldName) -> bool
    requires { Contains (required m.now.role) name }
    ensures { result ≡ is_missing m.now name }
{
    match name {
        FieldName::MsgSeqNum => match m.unsigned(name) {
            Some(number) => number == 4_294_967_295,
            None => true,
        },
        FieldName::ClOrdID => match m.unsigned(name) {
            Some(number) => number == 18_446_744_073_709_551_615,
            None => true,
        },
        _ => !m.is_set(name),
    }
}

// The first of these fields of a request that has no value.
#[tactic(auto, unfolding(crate::specs::Nulls::first_missing))]
fn first_missing_of(m: &Fields<'_>, names: &[FieldName]) -> Option<FieldName>
    requires { (name : FieldName) → Contains names.now name → Contains (required m.now.role) name }
    ensures { result ≡ first_missing m.now names.now }
{
    for &name in names {
        if is_missing(m, name) {
            return Some(name);
        }
    }
    None
}

/// The first field of a request that has no value, or a number that counts as none.
pub(crate) fn first_missing(m: &Fields<'_>) -> Option<FieldName>
    ensures value { result ≡ first_missing m.now (sought m.now.role) }
    ensures whole { IfNone result (HasFields m.now) }
{
    first_missing_of(m, sought(m.role()))
}

/// The first field of a response that has no value.
pub(crate) fn first_null(m: &Fields<'_>) -> Option<FieldName>
    ensures value { result ≡ first_unset m.now (sought m.now.role) }
    ensures whole { IfNone result (HasFields m.now) }
{
    m.first_unset(sought(m.role()))
}
