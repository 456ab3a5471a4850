//! The tests of a layout table's rows.

ghost use Rattle.std.specs.Prelude.{◌≡◌, ◌≤◌, ◌<◌, ◌+◌, ◌^◌, ◌&&◌, IfOk, length, take, drop, ℕ, false};
ghost use Rattle.std.specs.List.{list_all, list_any};
ghost use Rattle.t7_records.specs.Records.{record_at};
ghost use Rattle.std.specs.Str.{bytes_eq};
ghost use Rattle.t7_layout.specs.Roles.{family_of, field_text, required};
ghost use Rattle.t7_layout.specs.Pairs.{HoldsRows};
ghost use Rattle.t7_layout.specs.Rows.{begins, earlier_in, is_field, is_of, same_cell, so_far};
ghost use Rattle.t7_layout.specs.Faults.{begin_with, fault_at, fault_of, has_roles, least_fault, row_fault, fails_cell, fails_columns, fails_duplicate_id, fails_duplicate_name, fails_family, fails_header, fails_hole, fails_kind, fails_length, fails_null, fails_overlap, fails_role_field, fails_width, has_extreme_null, has_fields, is_length_or_id, is_required, is_width};

use crate::pairs::Passed;
use crate::roles::{FieldName, Role};
use crate::rows::*;
use crate::words::{Family, Kind, TableFault, TableWhy};
use std::alloc::{AllocError, Global};
use t7_records::{Records, is_decimal};

pub(crate) fn fails_columns(rows: &Records, at: usize) -> bool
    requires { at < length rows.now }
    ensures { result ≡ fails_columns (record_at rows.now at) }
{
    rows.width(at) != 8
}

pub(crate) fn fails_family(rows: &Records, at: usize) -> bool
    requires { at < length rows.now }
    ensures { result ≡ fails_family (record_at rows.now at) }
{
    !(in_family(rows, at, Family::Eti) || in_family(rows, at, Family::Eobi))
}

pub(crate) fn fails_cell(rows: &Records, at: usize) -> bool
    requires { at < length rows.now }
    ensures { result ≡ fails_cell (record_at rows.now at) }
{
    !(is_name(rows.cell(at, 2))
        && is_name(rows.cell(at, 3))
        && is_decimal(rows.cell(at, 1), 65535)
        && 0 < row_id(rows, at)
        && is_decimal(rows.cell(at, 4), 1023)
        && is_decimal(rows.cell(at, 5), 1024)
        && 0 < row_width(rows, at))
}

pub(crate) fn fails_kind(rows: &Records, at: usize) -> bool
    requires { at < length rows.now }
    ensures { result ≡ fails_kind (record_at rows.now at) }
{
    !(has_kind(rows, at, Kind::Unsigned)
        || has_kind(rows, at, Kind::Signed)
        || has_kind(rows, at, Kind::Raw))
}

fn is_width(width: u64) -> bool
    ensures { result ≡ is_width width }
{
    width == 1 || width == 2 || width == 4 || width == 8
}

pub(crate) fn fails_width(rows: &Records, at: usize) -> bool
    requires { at < length rows.now }
    ensures { result ≡ fails_width (record_at rows.now at) }
{
    (has_kind(rows, at, Kind::Unsigned) || has_kind(rows, at, Kind::Signed))
        && !is_width(row_width(rows, at))
}

fn has_extreme_null(rows: &Records, at: usize) -> bool
    requires { at < length rows.now }
    ensures { result ≡ has_extreme_null (record_at rows.now at) }
{
    let most = greatest(row_width(rows, at));
    if has_kind(rows, at, Kind::Unsigned) {
        row_null(rows, at) == Some(most as i128)
    } else {
        row_null(rows, at) == Some(-((most / 2 + 1) as i128))
    }
}

fn names_field(role: Role, word: &[u8]) -> bool
    ensures { result ≡ list_any (λ name. bytes_eq word.now (field_text name)) (required role) }
{
    role.required().iter().any(|name| word == name.text())
}

fn is_required(rows: &Records, at: usize) -> bool
    requires { at < length rows.now }
    ensures { result ≡ is_required (record_at rows.now at) }
{
    match role_of(rows, at) {
        None => false,
        Some(role) => names_field(role, rows.cell(at, 3)),
    }
}

fn is_length_or_id(rows: &Records, at: usize) -> bool
    requires { at < length rows.now }
    ensures { result ≡ is_length_or_id (record_at rows.now at) }
{
    rows.cell(at, 3) == FieldName::BodyLen.text()
        || rows.cell(at, 3) == FieldName::TemplateID.text()
}

pub(crate) fn fails_null(rows: &Records, at: usize) -> bool
    requires { at < length rows.now }
    ensures { result ≡ fails_null (record_at rows.now at) }
{
    !rows.cell(at, 7).is_empty()
        && (row_null(rows, at).is_none()
            || is_length_or_id(rows, at)
            || (is_required(rows, at) && !has_extreme_null(rows, at)))
}

// Whether the field's name stands earlier in its template.
fn repeats_field(rows: &Records, at: usize) -> bool
    requires first { 0 < at }
    requires inside { at < length rows.now }
    ensures { result ≡ list_any (λ earlier. same_cell 3 earlier (record_at rows.now at)) (earlier_in rows.now at) }
{
    let mut place = at;
    while !begins(rows, place) {
        place -= 1;
        if same_cell(rows, place, at, 3) {
            return true;
        }
    }
    false
}

// Whether the rows of the template, up to this one, have a field.
fn has_field(rows: &Records, at: usize, family: Family, name: FieldName) -> bool
    requires first { 0 < at }
    requires inside { at < length rows.now }
    ensures { result ≡ list_any (is_field family name) (so_far rows.now at) }
{
    let mut place = at;
    while !is_field(rows, place, family, name) {
        if begins(rows, place) {
            return false;
        }
        place -= 1;
    }
    true
}

pub(crate) fn fails_duplicate_id<'a>(rows: &'a Records, passed: &Passed<'a>, at: usize) -> bool
    requires first { 0 < at }
    requires inside { at < length rows.now }
    requires passed { HoldsRows (take at rows.now) passed.now }
    ensures { result ≡ fails_duplicate_id rows.now at }
{
    begins(rows, at) && passed.has_id(rows, at)
}

pub(crate) fn fails_duplicate_name<'a>(rows: &'a Records, passed: &Passed<'a>, at: usize) -> bool
    requires first { 0 < at }
    requires inside { at < length rows.now }
    requires passed { HoldsRows (take at rows.now) passed.now }
    ensures { result ≡ fails_duplicate_name rows.now at }
{
    (begins(rows, at) && passed.has_name(rows, at)) || repeats_field(rows, at)
}

pub(crate) fn fails_overlap(rows: &Records, at: usize) -> bool
    requires first { 0 < at }
    requires inside { at < length rows.now }
    ensures { result ≡ fails_overlap rows.now at }
{
    row_offset(rows, at) < end_before(rows, at)
}

pub(crate) fn fails_hole(rows: &Records, at: usize) -> bool
    requires first { 0 < at }
    requires inside { at < length rows.now }
    ensures { result ≡ fails_hole rows.now at }
{
    end_before(rows, at) < row_offset(rows, at)
}

pub(crate) fn fails_length(rows: &Records, at: usize) -> bool
    requires { at < length rows.now }
    ensures { result ≡ fails_length rows.now at }
{
    let end = row_end(rows, at);
    ends(rows, at)
        && (end % 8 != 0
            || end > 1024
            || (in_family(rows, at, Family::Eobi) && role_of(rows, at).is_some() && end > 128))
}

#[tactic(auto, unfolding(crate::specs::Faults::has_fields))]
fn has_fields(rows: &Records, at: usize, role: Role) -> bool
    requires first { 0 < at }
    requires inside { at < length rows.now }
    ensures { result ≡ has_fields role (so_far rows.now at) }
{
    let family = role.family();
    role.required()
        .iter()
        .all(|name| has_field(rows, at, family, *name))
}

pub(crate) fn fails_role_field(rows: &Records, at: usize) -> bool
    requires first { 0 < at }
    requires inside { at < length rows.now }
    ensures { result ≡ fails_role_field rows.now at }
{
    ends(rows, at)
        && match role_of(rows, at) {
            None => false,
            Some(role) => !has_fields(rows, at, role),
        }
}

// The first row of the template.
pub(crate) fn start_of(rows: &Records, at: usize) -> usize
    requires first { 0 < at }
    requires inside { at < length rows.now }
    ensures first { 0 < result }
    ensures before { result ≤ at }
    ensures rows { so_far rows.now at ≡ drop result (take (at + 1) rows.now) }
    ensures inner { (j : ℕ) → result < j → j ≤ at → begins rows.now j ≡ false }
{
    let mut place = at;
    while !begins(rows, place) {
        place -= 1;
    }
    place
}

// Whether the rows from one place to another begin with these fields.
fn begin_with(rows: &Records, start: usize, at: usize, family: Family, names: &[FieldName]) -> bool
    requires before { start ≤ at }
    requires inside { at < length rows.now }
    ensures { result ≡ begin_with family names.now (drop start (take (at + 1) rows.now)) }
{
    for (i, name) in names.iter().enumerate() {
        if at - start < i {
            return false;
        }
        if !is_field(rows, start + i, family, *name) {
            return false;
        }
    }
    true
}

const ETI_HEADER: [FieldName; 2] = [FieldName::BodyLen, FieldName::TemplateID];

const EOBI_HEADER: [FieldName; 3] = [
    FieldName::BodyLen,
    FieldName::TemplateID,
    FieldName::MsgSeqNum,
];

pub(crate) fn fails_header(rows: &Records, at: usize) -> bool
    requires first { 0 < at }
    requires inside { at < length rows.now }
    ensures { result ≡ fails_header rows.now at }
{
    if !ends(rows, at) {
        return false;
    }
    let start = start_of(rows, at);
    if in_family(rows, at, Family::Eti) {
        !begin_with(rows, start, at, Family::Eti, &ETI_HEADER)
    } else {
        !begin_with(rows, start, at, Family::Eobi, &EOBI_HEADER)
    }
}

// The first test that a row behind the heading fails.
fn row_fault<'a>(rows: &'a Records, passed: &Passed<'a>, at: usize) -> Option<TableWhy>
    requires first { 0 < at }
    requires inside { at < length rows.now }
    requires passed { HoldsRows (take at rows.now) passed.now }
    ensures { result ≡ row_fault rows.now at }
{
    if fails_columns(rows, at) {
        return Some(TableWhy::Columns);
    }
    if fails_family(rows, at) {
        return Some(TableWhy::Family);
    }
    if fails_cell(rows, at) {
        return Some(TableWhy::Cell);
    }
    if fails_kind(rows, at) {
        return Some(TableWhy::Kind);
    }
    if fails_width(rows, at) {
        return Some(TableWhy::Width);
    }
    if fails_null(rows, at) {
        return Some(TableWhy::Null);
    }
    if fails_duplicate_id(rows, passed, at) {
        return Some(TableWhy::DuplicateId);
    }
    if fails_duplicate_name(rows, passed, at) {
        return Some(TableWhy::DuplicateName);
    }
    if fails_overlap(rows, at) {
        return Some(TableWhy::Overlap);
    }
    if fails_hole(rows, at) {
        return Some(TableWhy::Hole);
    }
    if fails_length(rows, at) {
        return Some(TableWhy::Length);
    }
    if fails_header(rows, at) {
        return Some(TableWhy::Header);
    }
    if fails_role_field(rows, at) {
        return Some(TableWhy::RoleField);
    }
    None
}

// The first test that a row fails.
fn fault_at<'a>(rows: &'a Records, passed: &Passed<'a>, at: usize) -> Option<TableWhy>
    requires inside { at < length rows.now }
    requires passed { HoldsRows (take at rows.now) passed.now }
    ensures { result ≡ fault_at rows.now at }
{
    if at == 0 {
        if is_heading(rows, 0) {
            None
        } else {
            Some(TableWhy::Columns)
        }
    } else {
        row_fault(rows, passed, at)
    }
}

// Whether some row is of a role.
fn has_role(rows: &Records, role: Role) -> bool
    ensures { result ≡ list_any (λ row. is_of row role) rows.now }
{
    for at in 0..rows.len() {
        if is_of(rows, at, role) {
            return true;
        }
    }
    false
}

#[tactic(auto, unfolding(crate::specs::Faults::has_roles, crate::specs::Roles::all_roles))]
fn has_roles(rows: &Records) -> bool
    ensures { result ≡ has_roles rows.now }
{
    Role::ALL.iter().all(|role| has_role(rows, *role))
}

// The fault of the least row that has one.
fn least_fault(alloc: Global, rows: &Records) -> Result<Option<TableFault>, AllocError>
    requires { length rows.now + 1 < 2 ^ 32 }
    ensures { IfOk result (λ fault. fault ≡ least_fault (fault_at rows.now) 0 (length rows.now)) }
{
    let mut passed = Passed::new(alloc);
    for at in 0..rows.len() {
        match fault_at(rows, &passed, at) {
            Some(why) => {
                return Ok(Some(TableFault {
                    row: at as u32 + 1,
                    why,
                }));
            }
            None => {}
        }
        passed.pass(rows, at)?;
    }
    Ok(None)
}

/// What is wrong with the records of a table.
pub(crate) fn fault_of(alloc: Global, rows: &Records) -> Result<Option<TableFault>, AllocError>
    requires { length rows.now + 1 < 2 ^ 32 }
    ensures { IfOk result (λ fault. fault ≡ fault_of rows.now) }
{
    if rows.len() == 0 {
        return Ok(Some(TableFault {
            row: 1,
            why: TableWhy::Columns,
        }));
    }
    if let Some(fault) = least_fault(alloc, rows)? {
        return Ok(Some(fault));
    }
    if has_roles(rows) {
        return Ok(None);
    }
    Ok(Some(TableFault {
        row: rows.len() as u32 + 1,
        why: TableWhy::RoleMissing,
    }))
}
