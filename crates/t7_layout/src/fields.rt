//! The fields of templates.

ghost use Rattle.std.specs.Prelude.{◌≡◌, ◌≤◌, ◌<◌, ◌+◌, List, ℕ, IfOk, IfSome, Some, length, map, drop, pos, take, false};
ghost use Rattle.std.specs.Option.{option_eq};
ghost use Rattle.std.specs.Ordering.{int_eq};
ghost use Rattle.t7_records.specs.Records.{record_at};
ghost use Rattle.t7_layout.specs.Faults.{IsValid, fails_cell, fails_width};
ghost use Rattle.t7_layout.specs.Rows.{row_end};
ghost use Rattle.t7_layout.specs.Tables.{place_of, row_name};
ghost use Rattle.t7_layout.specs.Layouts.{IsPlace, Place};
ghost use Rattle.t7_layout.specs.Inside.{filler};
ghost use Rattle.t7_layout.specs.Nulls.{IsWordNumber, null_word};
ghost use Rattle.t7_layout.specs.declared.words.Kind.TheVariants.{Signed, Unsigned};

use crate::rows::*;
use crate::words::Kind;
use std::alloc::{AllocError, Global};
use std::marker::Model;
use std::mem::size_of;
use t7_records::Records;

/// A field of a template: where its bytes lie in a message, and how they are read. It stands for a row of the
/// message layout tables. It lies within its template: offset and width together are at most the template's length.
#[derive(Clone, Copy)]
pub struct FieldRef {
    offset: u16,
    width: u16,
    span: u16,
    kind: Kind,
    has_null: bool,
    null: u64,
}

// A field takes 16 bytes, so that four of them lie in a line of the processor's cache.
const _: () = prove!(size_of::<FieldRef>() == 16);

impl Model for FieldRef {
    ghost use Rattle.std.specs.Prelude.{◌≡◌, is_some};
    ghost use Rattle.t7_layout.specs.Layouts.{IsPlace, Place};
    ghost use Rattle.t7_layout.specs.Nulls.{kept_null, null_word};

    ghost Value = { Place };

    ghost view = { λ a. record { offset = a.offset; width = a.width; kind = a.kind; null = kept_null a.kind a.has_null a.null; span = a.span } };

    ghost invariant = { λ a. IsPlace (record { offset = a.offset; width = a.width; kind = a.kind; null = kept_null a.kind a.has_null a.null; span = a.span })
        × (a.null ≡ null_word (kept_null a.kind a.has_null a.null)) };

    ghost inverse = { λ p. record { offset = p.offset; width = p.width; span = p.span; kind = p.kind; has_null = is_some p.null; null = null_word p.null } };

    ghost use Rattle.t7_layout.specs.KeptFields.{field_back};

    ghost inverse_ok = { λ a h. field_back a h.1 };
}

impl FieldRef {
    /// Where its bytes begin in the message, in bytes from 0.
    pub fn offset(self) -> usize
        ensures value { result ≡ self.offset }
        ensures place { IsPlace self }
    {
        self.offset as usize
    }

    /// How many bytes it has: 1, 2, 4 or 8 for a number, and 1 to 1,024 for bytes as they are.
    pub fn width(self) -> usize
        ensures value { result ≡ self.width }
        ensures place { IsPlace self }
    {
        self.width as usize
    }

    /// How its bytes are read.
    pub fn kind(self) -> Kind
        ensures { result ≡ self.kind }
    {
        self.kind
    }

    /// The number that stands for no value, where the field has one. It is one that the field's bytes can spell.
    pub fn null(self) -> Option<i128>
        ensures { result ≡ self.null }
    {
        if !self.has_null {
            return None;
        }
        match self.kind {
            Kind::Signed => Some(self.null.cast_signed() as i128),
            Kind::Unsigned | Kind::Raw => Some(self.null as i128),
        }
    }

    /// Whether an unsigned field says that it has no value where it says this number.
    pub fn is_null(self, number: u64) -> bool
        requires { self.kind ≡ Unsigned }
        ensures { result ≡ option_eq int_eq self.null (Some (pos number)) }
    {
        self.has_null && self.null == number
    }

    /// Whether a signed field says that it has no value where it says this number.
    pub fn is_signed_null(self, number: i64) -> bool
        requires { self.kind ≡ Signed }
        ensures { result ≡ option_eq int_eq self.null (Some number) }
    {
        self.has_null && self.null.cast_signed() == number
    }

    // A field of one raw byte, which stands where a role's template has no field of a name.
    pub(crate) fn filler() -> FieldRef
        ensures { result ≡ filler }
    {
        FieldRef {
            offset: 0,
            width: 1,
            span: 1,
            kind: Kind::Raw,
            has_null: false,
            null: 0,
        }
    }
}

// The word of the number that stands for no value, and 0 where there is none.
fn null_word(null: Option<i128>) -> u64
    requires { IfSome null IsWordNumber }
    ensures { result ≡ null_word null }
{
    match null {
        None => 0,
        Some(number) if number < 0 => (number as i64).cast_unsigned(),
        Some(number) => number as u64,
    }
}

// The field of a row, in a template of this length.
fn field(rows: &Records, at: usize, size: u64) -> FieldRef
    requires inside { at < length rows.now }
    requires within { row_end (record_at rows.now at) ≤ size }
    requires short { size ≤ 2047 }
    requires cells { fails_cell (record_at rows.now at) ≡ false }
    requires width { fails_width (record_at rows.now at) ≡ false }
    ensures { result ≡ place_of size (record_at rows.now at) }
{
    let null = row_null(rows, at);
    FieldRef {
        offset: row_offset(rows, at) as u16,
        width: row_width(rows, at) as u16,
        span: size as u16,
        kind: row_kind(rows, at),
        has_null: null.is_some(),
        null: null_word(null),
    }
}

/// The names of the fields of rows.
pub(crate) fn names_of(
    alloc: Global,
    rows: &Records,
    start: usize,
    end: usize,
) -> Result<Vec<Vec<u8>>, AllocError>
    requires order { start ≤ end }
    requires inside { end ≤ length rows.now }
    ensures { IfOk result (λ v. map (λ n. n.items) v.items ≡ map row_name (drop start (take end rows.now))) }
{
    let mut names = Vec::new(alloc);
    for place in start..end {
        let name = Vec::from_slice(alloc, rows.cell(place, 3))?;
        names.push(name)?;
    }
    Ok(names)
}

/// The fields of rows, in a template of this length.
pub(crate) fn fields_of(
    alloc: Global,
    rows: &Records,
    start: usize,
    end: usize,
    size: u64,
) -> Result<Vec<FieldRef>, AllocError>
    requires order { start ≤ end }
    requires inside { end ≤ length rows.now }
    requires first { 0 < start }
    requires valid { IsValid rows.now }
    requires short { size ≤ 2047 }
    requires within { (j : ℕ) → start ≤ j → j < end → row_end (record_at rows.now j) ≤ size }
    ensures { IfOk result (λ v. v.items ≡ map (place_of size) (drop start (take end rows.now))) }
{
    let mut fields = Vec::new(alloc);
    for place in start..end {
        fields.push(field(rows, place, size))?;
    }
    Ok(fields)
}
