//! What the rows of a layout table say. The heading is at place 0.

ghost use Rattle.std.specs.Prelude.{◌≡◌, ◌≤◌, ◌<◌, ◌+◌, length};
ghost use Rattle.std.specs.List.{list_all};
ghost use Rattle.std.specs.Option.{option_copied};
ghost use Rattle.std.specs.Str.{bytes_eq};
ghost use Rattle.t7_records.specs.Records.{cell, record_at};
ghost use Rattle.t7_layout.specs.Roles.{all_roles};
ghost use Rattle.t7_layout.specs.Rows.{begins, end_before, ends, family_text, greatest, has_kind, in_family, is_field, is_heading, is_name, is_name_byte, is_of, kind_text, role_of, row_end, row_family, row_id, row_kind, row_null, row_offset, row_width, same_cell, same_family, same_kind, same_template, signed_null, unsigned_null};

use crate::roles::{FieldName, Role};
use crate::words::{Family, Kind};
use t7_records::{Records, decimal, number};

impl Family {
    /// The word of a table.
    pub fn text(self) -> &'static [u8]
        ensures { result.now ≡ family_text self }
    {
        match self {
            Family::Eti => b"ETI",
            Family::Eobi => b"EOBI",
        }
    }
}

impl Kind {
    /// The word of a table.
    pub fn text(self) -> &'static [u8]
        ensures { result.now ≡ kind_text self }
    {
        match self {
            Kind::Unsigned => b"U",
            Kind::Signed => b"I",
            Kind::Raw => b"X",
        }
    }
}

// Whether a cell is this word.
fn says(rows: &Records, at: usize, place: usize, word: &[u8]) -> bool
    requires { at < length rows.now }
    ensures { result ≡ bytes_eq (cell (record_at rows.now at) place) word.now }
{
    rows.cell(at, place) == word
}

pub(crate) fn is_heading(rows: &Records, at: usize) -> bool
    requires { at < length rows.now }
    ensures { result ≡ is_heading (record_at rows.now at) }
{
    rows.width(at) == 8
        && says(rows, at, 0, b"family")
        && says(rows, at, 1, b"id")
        && says(rows, at, 2, b"template")
        && says(rows, at, 3, b"field")
        && says(rows, at, 4, b"offset")
        && says(rows, at, 5, b"width")
        && says(rows, at, 6, b"kind")
        && says(rows, at, 7, b"null")
}

pub(crate) fn in_family(rows: &Records, at: usize, family: Family) -> bool
    requires { at < length rows.now }
    ensures { result ≡ in_family family (record_at rows.now at) }
{
    rows.cell(at, 0) == family.text()
}

pub(crate) fn has_kind(rows: &Records, at: usize, kind: Kind) -> bool
    requires { at < length rows.now }
    ensures { result ≡ has_kind kind (record_at rows.now at) }
{
    rows.cell(at, 6) == kind.text()
}

pub(crate) fn row_family(rows: &Records, at: usize) -> Family
    requires { at < length rows.now }
    ensures { result ≡ row_family (record_at rows.now at) }
{
    if in_family(rows, at, Family::Eti) {
        Family::Eti
    } else {
        Family::Eobi
    }
}

pub(crate) fn row_kind(rows: &Records, at: usize) -> Kind
    requires { at < length rows.now }
    ensures { result ≡ row_kind (record_at rows.now at) }
{
    if has_kind(rows, at, Kind::Unsigned) {
        Kind::Unsigned
    } else if has_kind(rows, at, Kind::Signed) {
        Kind::Signed
    } else {
        Kind::Raw
    }
}

/// Whether two families are one.
pub(crate) fn same_family(a: Family, b: Family) -> bool
    ensures { result ≡ same_family a b }
{
    a.text() == b.text()
}

/// Whether two kinds are one.
pub(crate) fn same_kind(a: Kind, b: Kind) -> bool
    ensures { result ≡ same_kind a b }
{
    a.text() == b.text()
}

pub(crate) fn row_id(rows: &Records, at: usize) -> u64
    requires { at < length rows.now }
    ensures value { result ≡ row_id (record_at rows.now at) }
    ensures limit { result ≤ 65535 }
{
    number(rows.cell(at, 1), 65535)
}

pub(crate) fn row_offset(rows: &Records, at: usize) -> u64
    requires { at < length rows.now }
    ensures value { result ≡ row_offset (record_at rows.now at) }
    ensures limit { result ≤ 1023 }
{
    number(rows.cell(at, 4), 1023)
}

pub(crate) fn row_width(rows: &Records, at: usize) -> u64
    requires { at < length rows.now }
    ensures value { result ≡ row_width (record_at rows.now at) }
    ensures limit { result ≤ 1024 }
{
    number(rows.cell(at, 5), 1024)
}

pub(crate) fn row_end(rows: &Records, at: usize) -> u64
    requires { at < length rows.now }
    ensures value { result ≡ row_end (record_at rows.now at) }
    ensures limit { result ≤ 2047 }
{
    row_offset(rows, at) + row_width(rows, at)
}

fn are_name_bytes(word: &[u8]) -> bool
    ensures { result ≡ list_all is_name_byte word.now }
{
    word.iter().all(|b| b.is_ascii_alphanumeric() || *b == b'_')
}

pub(crate) fn is_name(word: &[u8]) -> bool
    ensures { result ≡ is_name word.now }
{
    !word.is_empty() && word.len() <= 40 && are_name_bytes(word)
}

pub(crate) fn greatest(width: u64) -> u64
    ensures { result ≡ greatest width }
{
    match width {
        1 => 0xff,
        2 => 0xffff,
        4 => 0xffff_ffff,
        _ => 0xffff_ffff_ffff_ffff,
    }
}

fn unsigned_null(width: u64, word: &[u8]) -> Option<i128>
    ensures { result ≡ unsigned_null width word.now }
{
    let number = decimal(word, greatest(width))?;
    Some(number as i128)
}

#[tactic(auto, unfolding(crate::specs::Rows::signed_null))]
fn signed_null(width: u64, word: &[u8]) -> Option<i128>
    ensures { result ≡ signed_null width word.now }
{
    if let [b'-', digits @ ..] = word {
        match decimal(digits, greatest(width) / 2 + 1) {
            Some(number) if number > 0 => Some(-(number as i128)),
            _ => None,
        }
    } else {
        let number = decimal(word, greatest(width) / 2)?;
        Some(number as i128)
    }
}

pub(crate) fn row_null(rows: &Records, at: usize) -> Option<i128>
    requires { at < length rows.now }
    ensures { result ≡ row_null (record_at rows.now at) }
{
    if has_kind(rows, at, Kind::Unsigned) {
        unsigned_null(row_width(rows, at), rows.cell(at, 7))
    } else if has_kind(rows, at, Kind::Signed) {
        signed_null(row_width(rows, at), rows.cell(at, 7))
    } else {
        None
    }
}

pub(crate) fn same_cell(rows: &Records, a: usize, b: usize, at: usize) -> bool
    requires a { a < length rows.now }
    requires b { b < length rows.now }
    ensures { result ≡ same_cell at (record_at rows.now a) (record_at rows.now b) }
{
    rows.cell(a, at) == rows.cell(b, at)
}

pub(crate) fn same_template(rows: &Records, a: usize, b: usize) -> bool
    requires a { a < length rows.now }
    requires b { b < length rows.now }
    ensures { result ≡ same_template (record_at rows.now a) (record_at rows.now b) }
{
    rows.width(b) >= 3
        && same_cell(rows, a, b, 0)
        && same_cell(rows, a, b, 1)
        && same_cell(rows, a, b, 2)
}

pub(crate) fn begins(rows: &Records, at: usize) -> bool
    requires first { 0 < at }
    requires inside { at < length rows.now }
    ensures { result ≡ begins rows.now at }
{
    at == 1 || !same_template(rows, at - 1, at)
}

pub(crate) fn ends(rows: &Records, at: usize) -> bool
    requires { at < length rows.now }
    ensures { result ≡ ends rows.now at }
{
    rows.len() <= at + 1 || !same_template(rows, at, at + 1)
}

pub(crate) fn end_before(rows: &Records, at: usize) -> u64
    requires first { 0 < at }
    requires inside { at < length rows.now }
    ensures { result ≡ end_before rows.now at }
{
    if begins(rows, at) {
        0
    } else {
        row_end(rows, at - 1)
    }
}

pub(crate) fn is_of(rows: &Records, at: usize, role: Role) -> bool
    requires { at < length rows.now }
    ensures { result ≡ is_of (record_at rows.now at) role }
{
    same_family(row_family(rows, at), role.family()) && rows.cell(at, 2) == role.name()
}

#[tactic(auto, unfolding(crate::specs::Rows::role_of, crate::specs::Roles::all_roles))]
pub(crate) fn role_of(rows: &Records, at: usize) -> Option<Role>
    requires { at < length rows.now }
    ensures { result ≡ role_of (record_at rows.now at) }
{
    Role::ALL
        .iter()
        .copied()
        .find(|role| is_of(rows, at, *role))
}

pub(crate) fn is_field(rows: &Records, at: usize, family: Family, name: FieldName) -> bool
    requires { at < length rows.now }
    ensures { result ≡ is_field family name (record_at rows.now at) }
{
    rows.cell(at, 3) == name.text()
        && same_kind(row_kind(rows, at), name.kind())
        && row_width(rows, at) as usize == name.width(family)
}
