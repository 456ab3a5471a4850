//! A template's fields, written in place.

ghost use Rattle.std.specs.Prelude.{[], ◌≡◌, ◌≢◌, ◌≤◌, ◌<◌, ◌^◌, Some, Contains, length, pos};
ghost use Rattle.t7_layout.specs.declared.words.Kind.TheVariants.{Raw, Signed, Unsigned};
ghost use Rattle.t7_fields.specs.Spelling.{Bytes, IsHeld, Number as NumberValue, header_width, number_bytes};
ghost use Rattle.t7_fields.specs.Puts.{AddsPut, FinishesPuts, patch, written};

use crate::bytes::{write_bytes, write_signed, write_unsigned};
use t7_layout::{FieldRef, Template};

/// A number that is written in a field, by the field's kind and width: the types of the manuals' numbers.
#[derive(Clone, Copy, Debug, PartialEq, Eq)]
pub enum Scalar {
    /// For an unsigned field of 1 byte.
    Byte(u8),
    /// For an unsigned field of 2 bytes.
    Half(u16),
    /// For an unsigned field of 4 bytes.
    Word(u32),
    /// For an unsigned field of 8 bytes.
    Long(u64),
    /// For a signed field of 4 bytes.
    SignedWord(i32),
    /// For a signed field of 8 bytes.
    Signed(i64),
    /// For a field of 16 bytes, which are a number with the highest byte first.
    Raw(u128),
}

/// A message that is written in place, in bytes of the caller's.
///
/// It stands for the layout of one message in the manuals of the order entry and market data interfaces. A new one has
/// the header's BodyLen and TemplateID; every other field says that it has no value, or is 0 where its template gives no
/// number for that. Fields are put in any order; of two values for one field the last stands. No memory is taken.
#[derive(Drop)]
pub struct Writer<'a> {
    out: &'a mut [u8],
    template: &'a Template,
    ghost room: { template.now.size ≤ length out.now },
}

/// Writes a message of a template in which nothing is put, and answers how many bytes it has. Bytes past these stay as
/// they are.
#[inline(always)]
pub(crate) fn clear(template: &Template, out: &mut [u8]) -> usize
    requires { template.now.size ≤ length out.old }
    ensures size { result ≡ template.now.size }
    ensures bytes { out.new ≡ written template.now [] out.old }
    ensures same_length { length out.new ≡ length out.old }
{
    let size = template.len();
    out[..size].copy_from_slice(template.image());
    size
}

impl<'a> Writer<'a> {
    /// A message of a template in which nothing is put, over bytes that are no fewer than the template's. Bytes past
    /// these stay as they are.
    pub fn new(template: &'a Template, out: &'a mut [u8]) -> Writer<'a>
        requires { template.now.size ≤ length out.old }
        ensures same_reference { result.out.ghost_name ≡ out.entry.ghost_name }
        ensures template { result.template.now ≡ template.now }
        ensures written { result.out.now ≡ written template.now [] out.old }
    {
        clear(template, out);
        Writer { out, template }
    }

    /// Puts a number in an unsigned field of the template that isn't BodyLen or TemplateID. It fits the field's width,
    /// and is not the number that stands for no value.
    pub fn put_unsigned(&mut self, f: FieldRef, n: u64)
        requires there { Contains self.old.template.now.fields f }
        requires kind { f.kind ≡ Unsigned }
        requires free { header_width self.old.template.now.family ≤ f.offset }
        requires fits { n < 256 ^ f.width }
        requires known { f.null ≢ Some (pos n) }
        ensures same_reference { self.new.out.ghost_name ≡ self.old.out.ghost_name }
        ensures template { self.new.template.now ≡ self.old.template.now }
        ensures bytes { self.new.out.now ≡ patch f.offset (number_bytes f.width (pos n)) self.old.out.now }
        ensures put { AddsPut self.old.template.now (record { place = f; value = NumberValue (Some (pos n)) }) self.old.out.now self.new.out.now }
    {
        let _size = self.template.len();
        write_unsigned(self.out, f.offset(), f.width(), n);
    }

    /// Puts a number in a signed field of the template, in two's complement. It fits the field's width, and is not the
    /// number that stands for no value.
    pub fn put_signed(&mut self, f: FieldRef, n: i64)
        requires there { Contains self.old.template.now.fields f }
        requires kind { f.kind ≡ Signed }
        requires free { header_width self.old.template.now.family ≤ f.offset }
        requires fits { IsHeld Signed f.width n }
        requires known { f.null ≢ Some n }
        ensures same_reference { self.new.out.ghost_name ≡ self.old.out.ghost_name }
        ensures template { self.new.template.now ≡ self.old.template.now }
        ensures bytes { self.new.out.now ≡ patch f.offset (number_bytes f.width n) self.old.out.now }
        ensures put { AddsPut self.old.template.now (record { place = f; value = NumberValue (Some n) }) self.old.out.now self.new.out.now }
    {
        let _size = self.template.len();
        write_signed(self.out, f.offset(), f.width(), n);
    }

    /// Puts bytes in a field of raw bytes of the template, as many as it has.
    pub fn put_raw(&mut self, f: FieldRef, bytes: &[u8])
        requires there { Contains self.old.template.now.fields f }
        requires kind { f.kind ≡ Raw }
        requires free { header_width self.old.template.now.family ≤ f.offset }
        requires width { length bytes.now ≡ f.width }
        ensures same_reference { self.new.out.ghost_name ≡ self.old.out.ghost_name }
        ensures template { self.new.template.now ≡ self.old.template.now }
        ensures bytes { self.new.out.now ≡ patch f.offset bytes.now self.old.out.now }
        ensures put { AddsPut self.old.template.now (record { place = f; value = Bytes bytes.now }) self.old.out.now self.new.out.now }
    {
        let _size = self.template.len();
        write_bytes(self.out, f.offset(), bytes);
    }

    /// How many bytes the message has, which is its template's length.
    pub fn finish(self) -> usize
        ensures length { result ≡ self.entry.template.now.size }
        ensures bytes { self.exit.0.now ≡ self.entry.out.now }
        ensures spelled { FinishesPuts self.entry.template.now self.entry.out.now self.exit.0.now }
    {
        self.template.len()
    }
}
