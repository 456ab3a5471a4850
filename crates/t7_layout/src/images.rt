//! The bytes of a message in which nothing is put, made once for each template.

ghost use Rattle.std.specs.Prelude.{◌≡◌, ◌≤◌, ◌+◌, ◌++◌, ◌^◌, ◌<◌, IfOk, OnOk, length, drop, replicate};
ghost use Rattle.byteorder.specs.Endian.{little_bytes};
ghost use Rattle.t7_layout.specs.Images.{IsHeld, null_bytes, number_bytes, patch, unset_bytes, with_header};
ghost use Rattle.t7_layout.specs.Layouts.{LaidOut};

use crate::fields::FieldRef;
use crate::roles::FieldName;
use crate::words::{Family, Kind};
use byteorder::{ByteOrder, LittleEndian};
use std::alloc::{AllocError, Global};

// Writes a number of a kind in the first bytes, so many of them.
fn write_number(out: &mut [u8], kind: Kind, width: usize, n: i128)
    requires low { 1 ≤ width }
    requires high { width ≤ 8 }
    requires room { width ≤ length out.old }
    requires held { IsHeld kind width n }
    ensures { out.new ≡ number_bytes width n ++ drop width out.old }
{
    match kind {
        Kind::Unsigned => LittleEndian::write_uint(out, n as u64, width),
        Kind::Signed => LittleEndian::write_int(out, n as i64, width),
        Kind::Raw => unreachable!(),
    }
}

// Adds a number of a kind, in so many bytes.
fn push_number(bytes: &mut Vec<u8>, kind: Kind, width: usize, n: i128) -> Result<(), AllocError>
    requires low { 1 ≤ width }
    requires high { width ≤ 8 }
    requires held { IsHeld kind width n }
    ensures { OnOk result (bytes.new.items ≡ bytes.old.items ++ number_bytes width n) }
{
    let mut spelled = [0u8; 8];
    write_number(&mut spelled, kind, width, n);
    bytes.extend_from_slice(&spelled[..width])
}

// Adds so many zeros.
fn push_zeros(bytes: &mut Vec<u8>, width: usize) -> Result<(), AllocError>
    ensures { OnOk result (bytes.new.items ≡ bytes.old.items ++ replicate width 0) }
{
    for _ in 0..width {
        bytes.push(0)?;
    }
    Ok(())
}

// Adds what a field has where nothing is put in it: its null, or zeros where it has none.
fn push_unset(bytes: &mut Vec<u8>, field: FieldRef) -> Result<(), AllocError>
    ensures { OnOk result (bytes.new.items ≡ bytes.old.items ++ null_bytes field.width field.null) }
{
    let width = field.width();
    match field.null() {
        Some(null) => push_number(bytes, field.kind(), width, null),
        None => push_zeros(bytes, width),
    }
}

// What fields have where nothing is put in them, one behind another.
fn unset(alloc: Global, fields: &[FieldRef]) -> Result<Vec<u8>, AllocError>
    ensures { IfOk result (λ v. v.items ≡ unset_bytes fields.now) }
{
    let mut bytes = Vec::new(alloc);
    for &field in fields {
        push_unset(&mut bytes, field)?;
    }
    Ok(bytes)
}

// Writes an unsigned number of so many bytes at a place.
fn write_at(out: &mut [u8], at: usize, width: usize, n: u64)
    requires low { 1 ≤ width }
    requires high { width ≤ 8 }
    requires room { at + width ≤ length out.old }
    requires fits { n < 256 ^ width }
    ensures bytes { out.new ≡ patch at (little_bytes width n) out.old }
    ensures same_length { length out.new ≡ length out.old }
{
    LittleEndian::write_uint(&mut out[at..], n, width);
}

// Writes BodyLen and TemplateID of a template of this family, id and length.
fn write_header(out: &mut [u8], family: Family, id: u16, size: usize)
    requires room { 8 ≤ length out.old }
    requires short { size ≤ 1024 }
    ensures bytes { out.new ≡ with_header family id size out.old }
    ensures same_length { length out.new ≡ length out.old }
{
    let width = FieldName::BodyLen.width(family);
    write_at(out, 0, width, size as u64);
    write_at(out, width, 2, id as u64);
}

/// The bytes of a message in which nothing is put, of a template of this family, id, length and fields.
pub(crate) fn image_of(
    alloc: Global,
    family: Family,
    id: u16,
    size: usize,
    fields: &[FieldRef],
) -> Result<Vec<u8>, AllocError>
    requires long { 8 ≤ size }
    requires short { size ≤ 1024 }
    requires laid { LaidOut 0 fields.now size }
    ensures { IfOk result (λ v. v.items ≡ with_header family id size (unset_bytes fields.now)) }
{
    let mut bytes = unset(alloc, fields)?;
    write_header(&mut bytes, family, id, size);
    Ok(bytes)
}
