//! A template laid over the bytes of a message.

ghost use Rattle.std.specs.Prelude.{◌≡◌, ◌<◌, ◌^◌, IfSome, ◌≤◌, ◌+◌, IfOk, OnErr, Contains, List, Some, ℕ, length, take, drop, is_some, option_map, pos, slice_get, true};
ghost use Rattle.byteorder.specs.Endian.{little_number, twos_complement};
ghost use Rattle.t7_layout.specs.declared.words.Kind.TheVariants.{Unsigned, Signed, Raw};
ghost use Rattle.t7_layout.specs.Layouts.{IsLayout, IsNumberWidth, Layout, Place};
ghost use Rattle.t7_fields.specs.Spelling.{Bytes, Fits, Number, Seen, Spells, Value, body_length, known_signed, known_unsigned, length_width, raw_at, signed_at, template_id, unsigned_at};
ghost use Rattle.t7_fields.specs.Records.{record_in};

use byteorder::{ByteOrder, LittleEndian};
use std::marker::Model;
use t7_layout::{Family, FieldRef, Template};

/// Why bytes are no message of a template: they are fewer than it has, or the number in BodyLen is not their count.
#[derive(Clone, Copy, Debug, PartialEq, Eq)]
pub struct Short;

/// A template laid over the bytes of a message, whose fields are read in place.
///
/// It stands for one message as the manuals of the order entry and market data interfaces lay it out: numbers with the
/// lowest byte first, signed ones in two's complement, and one number of a field's range set apart for 'no value'. The
/// bytes may be more than the template's, and what is past these is free. Whether TemplateID is the template's id is not
/// asked; where it is, the answers are the values of the one record that the bytes spell.
#[derive(Drop)]
pub struct View<'a> {
    template: &'a Template,
    bytes: &'a [u8],
}

impl<'a> Model for View<'a> {
    ghost use Rattle.t7_fields.specs.Inside.{IsLaid};
    ghost use Rattle.t7_fields.specs.Spelling.{Seen};

    ghost Value = { Seen };

    ghost view = { λ a. record { layout = a.template.now; bytes = a.bytes.now } };

    ghost invariant = { λ a. IsLaid a.template.now a.bytes.now };
}

/// How many bytes BodyLen has.
pub(crate) fn length_width(family: Family) -> usize
    ensures value { result ≡ length_width family }
    ensures low { 1 ≤ result }
    ensures high { result ≤ 4 }
{
    match family {
        Family::Eti => 4,
        Family::Eobi => 2,
    }
}

// So many bytes from a place on.
fn part(bytes: &[u8], start: usize, count: usize) -> &[u8]
    requires { start + count ≤ length bytes.now }
    ensures bytes { result.now ≡ take count (drop start bytes.now) }
    ensures width { length result.now ≡ count }
{
    &bytes[start..start + count]
}

// The number in BodyLen.
fn body_length(family: Family, bytes: &[u8]) -> u64
    requires { 4 ≤ length bytes.now }
    ensures { result ≡ body_length family bytes.now }
{
    match family {
        Family::Eti => LittleEndian::read_u32(bytes) as u64,
        Family::Eobi => LittleEndian::read_u16(bytes) as u64,
    }
}

// The number of 1, 2, 4 or 8 bytes, the lowest first.
fn number_of(bytes: &[u8], width: usize) -> u64
    requires width { IsNumberWidth width }
    requires room { width ≤ length bytes.now }
    ensures value { result ≡ little_number width bytes.now }
    ensures small { result < 256 ^ width }
{
    match width {
        1 => LittleEndian::read_uint(bytes, 1),
        2 => LittleEndian::read_u16(bytes) as u64,
        4 => LittleEndian::read_u32(bytes) as u64,
        _ => LittleEndian::read_u64(bytes),
    }
}

// The signed number of 1, 2, 4 or 8 bytes, the lowest first, in two's complement.
fn signed_of(bytes: &[u8], width: usize) -> i64
    requires width { IsNumberWidth width }
    requires room { width ≤ length bytes.now }
    ensures { result ≡ twos_complement width (little_number width bytes.now) }
{
    match width {
        1 => LittleEndian::read_int(bytes, 1),
        2 => LittleEndian::read_int(bytes, 2),
        4 => LittleEndian::read_int(bytes, 4),
        _ => LittleEndian::read_int(bytes, 8),
    }
}

impl<'a> View<'a> {
    /// The template.
    pub fn template(&self) -> &'a Template
        ensures { result.now ≡ self.now.layout }
    {
        self.template
    }

    /// The bytes that it is laid over.
    pub fn bytes(&self) -> &'a [u8]
        ensures value { result.now ≡ self.now.bytes }
        ensures fits { Fits self.now.layout self.now.bytes }
    {
        self.bytes
    }

    /// Lays a template over bytes. Short exactly where these are fewer than the template has, or the number in BodyLen
    /// is not their count.
    pub fn of(template: &'a Template, bytes: &'a [u8]) -> Result<View<'a>, Short>
        ensures view { IfOk result (λ v. v ≡ record { layout = template.now; bytes = bytes.now }) }
        ensures fits { IfOk result (λ v. Fits template.now bytes.now) }
        ensures short { OnErr result (¬ Fits template.now bytes.now) }
        ensures spelled { IfOk result (λ v. template_id template.now.family bytes.now ≡ template.now.id → Spells template.now (record_in template.now bytes.now) bytes.now) }
    {
        if bytes.len() < template.len() {
            return Err(Short);
        }
        if body_length(template.family(), bytes) != bytes.len() as u64 {
            return Err(Short);
        }
        Ok(View { template, bytes })
    }

    /// Lays a template over bytes that are known to be no fewer than the template's, and as many as BodyLen says.
    pub fn known(template: &'a Template, bytes: &'a [u8]) -> View<'a>
        requires layout { IsLayout template.now }
        requires fits { Fits template.now bytes.now }
        ensures { result ≡ record { layout = template.now; bytes = bytes.now } }
    {
        View { template, bytes }
    }

    /// The bytes of a field of the template, in place.
    pub fn raw(&self, f: FieldRef) -> &'a [u8]
        requires { Contains self.now.layout.fields f }
        ensures bytes { result.now ≡ raw_at f self.now.bytes }
        ensures width { length result.now ≡ f.width }
        ensures spelled { (r : List Value) (k : ℕ) → f.kind ≡ Raw → Spells self.now.layout r self.now.bytes → slice_get self.now.layout.fields k ≡ Some f → slice_get r k ≡ Some (Bytes result.now) }
    {
        self.bytes_of(f)
    }

    // The bytes of a field.
    fn bytes_of(&self, f: FieldRef) -> &'a [u8]
        requires { Contains self.now.layout.fields f }
        ensures bytes { result.now ≡ raw_at f self.now.bytes }
        ensures width { length result.now ≡ f.width }
        ensures some { 1 ≤ f.width }
    {
        part(self.bytes, f.offset(), f.width())
    }

    // The number of an unsigned field, where it has one.
    fn read_unsigned(&self, f: FieldRef) -> Option<u64>
        requires there { Contains self.now.layout.fields f }
        requires kind { f.kind ≡ Unsigned }
        ensures reads { result ≡ known_unsigned f (unsigned_at f self.now.bytes) }
        ensures small { IfSome result (λ n. n < 256 ^ f.width) }
        ensures some { 1 ≤ f.width }
    {
        let bytes = self.bytes_of(f);
        let number = number_of(bytes, f.width());
        if f.is_null(number) {
            None
        } else {
            Some(number)
        }
    }

    // The number of a signed field, where it has one.
    fn read_signed(&self, f: FieldRef) -> Option<i64>
        requires there { Contains self.now.layout.fields f }
        requires kind { f.kind ≡ Signed }
        ensures reads { result ≡ known_signed f (signed_at f self.now.bytes) }
        ensures some { 1 ≤ f.width }
    {
        let bytes = self.bytes_of(f);
        let value = signed_of(bytes, f.width());
        if f.is_signed_null(value) {
            None
        } else {
            Some(value)
        }
    }

    /// The number of an unsigned field of the template. None exactly where it is the one that stands for no value.
    pub fn unsigned(&self, f: FieldRef) -> Option<u64>
        requires there { Contains self.now.layout.fields f }
        requires kind { f.kind ≡ Unsigned }
        ensures reads { result ≡ known_unsigned f (unsigned_at f self.now.bytes) }
        ensures small { IfSome result (λ n. n < 256 ^ f.width) }
        ensures spelled { (r : List Value) (k : ℕ) → Spells self.now.layout r self.now.bytes → slice_get self.now.layout.fields k ≡ Some f → slice_get r k ≡ Some (Number (option_map pos result)) }
    {
        self.read_unsigned(f)
    }

    /// The number of a signed field of the template. None exactly where it is the one that stands for no value.
    pub fn signed(&self, f: FieldRef) -> Option<i64>
        requires there { Contains self.now.layout.fields f }
        requires kind { f.kind ≡ Signed }
        ensures reads { result ≡ known_signed f (signed_at f self.now.bytes) }
        ensures spelled { (r : List Value) (k : ℕ) → Spells self.now.layout r self.now.bytes → slice_get self.now.layout.fields k ≡ Some f → slice_get r k ≡ Some (Number result) }
    {
        self.read_signed(f)
    }
    /// The number of an unsigned field of the template that is known to have one: its bytes are not those that stand for
    /// no value.
    pub fn known_unsigned(&self, f: FieldRef) -> u64
        requires there { Contains self.now.layout.fields f }
        requires kind { f.kind ≡ Unsigned }
        requires known { is_some (known_unsigned f (unsigned_at f self.now.bytes)) ≡ true }
        ensures reads { Some result ≡ known_unsigned f (unsigned_at f self.now.bytes) }
        ensures small { result < 256 ^ f.width }
    {
        number_of(self.bytes_of(f), f.width())
    }

    /// The number of a signed field of the template that is known to have one: its bytes are not those that stand for no
    /// value.
    pub fn known_signed(&self, f: FieldRef) -> i64
        requires there { Contains self.now.layout.fields f }
        requires kind { f.kind ≡ Signed }
        requires known { is_some (known_signed f (signed_at f self.now.bytes)) ≡ true }
        ensures { Some result ≡ known_signed f (signed_at f self.now.bytes) }
    {
        signed_of(self.bytes_of(f), f.width())
    }
}
