//! The numbers of the fields of a message that says each field that it has to say.

ghost use Rattle.std.specs.Prelude.{◌≡◌, ◌<◌, ◌^◌, None, Contains, pos, nat_abs, option_map, true};
ghost use Rattle.t7_layout.specs.declared.words.Kind.TheVariants.{Raw, Signed, Unsigned};
ghost use Rattle.t7_layout.specs.Roles.{family_of, kind_of, required, width_in};
ghost use Rattle.t7_fields.specs.Messages.{is_among, said_number, value};
ghost use Rattle.t7_eti.specs.Nulls.{HasFields, sought};

use t7_fields::Fields;
use t7_layout::FieldName;

/// What an unsigned field of four bytes says, if anything.
pub(crate) fn said_word(m: &Fields<'_>, name: FieldName) -> Option<u32>
    requires there { Contains (required m.now.role) name }
    requires kind { kind_of name ≡ Unsigned }
    requires width { width_in (family_of m.now.role) name ≡ 4 }
    ensures { option_map pos result ≡ said_number m.now name }
{
    match m.unsigned(name) {
        Some(number) => Some(number as u32),
        None => None,
    }
}

/// The number of a signed field.
pub(crate) fn signed(m: &Fields<'_>, name: FieldName) -> i64
    requires there { is_among name (sought m.now.role) ≡ true }
    requires kind { kind_of name ≡ Signed }
    requires whole { HasFields m.now }
    ensures { result ≡ value m.now name }
{
    match m.signed(name) {
        Some(number) => number,
        None => unreachable!(),
    }
}

/// The number of an unsigned field.
pub(crate) fn unsigned(m: &Fields<'_>, name: FieldName) -> u64
    requires there { is_among name (sought m.now.role) ≡ true }
    requires kind { kind_of name ≡ Unsigned }
    requires whole { HasFields m.now }
    ensures value { pos result ≡ value m.now name }
    ensures small { result < 256 ^ width_in (family_of m.now.role) name }
{
    match m.unsigned(name) {
        Some(number) => number,
        None => unreachable!(),
    }
}

/// The number of a field of 16 bytes, the highest first.
pub(crate) fn long(m: &Fields<'_>, name: FieldName) -> u128
    requires there { is_among name (sought m.now.role) ≡ true }
    requires kind { kind_of name ≡ Raw }
    requires width { width_in (family_of m.now.role) name ≡ 16 }
    ensures { result ≡ nat_abs (value m.now name) }
{
    m.long(name)
}

/// The number of an unsigned field of eight bytes.
pub(crate) fn double(m: &Fields<'_>, name: FieldName) -> u64
    requires there { is_among name (sought m.now.role) ≡ true }
    requires kind { kind_of name ≡ Unsigned }
    requires whole { HasFields m.now }
    ensures { result ≡ nat_abs (value m.now name) }
{
    unsigned(m, name)
}

/// The number of an unsigned field of four bytes.
pub(crate) fn word(m: &Fields<'_>, name: FieldName) -> u32
    requires there { is_among name (sought m.now.role) ≡ true }
    requires kind { kind_of name ≡ Unsigned }
    requires width { width_in (family_of m.now.role) name ≡ 4 }
    requires whole { HasFields m.now }
    ensures { result ≡ nat_abs (value m.now name) }
{
    unsigned(m, name) as u32
}

/// The number of an unsigned field of two bytes.
pub(crate) fn half(m: &Fields<'_>, name: FieldName) -> u16
    requires there { is_among name (sought m.now.role) ≡ true }
    requires kind { kind_of name ≡ Unsigned }
    requires width { width_in (family_of m.now.role) name ≡ 2 }
    requires whole { HasFields m.now }
    ensures { result ≡ nat_abs (value m.now name) }
{
    unsigned(m, name) as u16
}

/// The number of an unsigned field of one byte.
pub(crate) fn byte(m: &Fields<'_>, name: FieldName) -> u8
    requires there { is_among name (sought m.now.role) ≡ true }
    requires kind { kind_of name ≡ Unsigned }
    requires width { width_in (family_of m.now.role) name ≡ 1 }
    requires whole { HasFields m.now }
    ensures { result ≡ nat_abs (value m.now name) }
{
    unsigned(m, name) as u8
}
