//! Numbers and bytes, written at a place.

ghost use Rattle.std.specs.Prelude.{◌≡◌, ◌≤◌, ◌<◌, ◌+◌, ◌^◌, length, pos};
ghost use Rattle.std.specs.Int.{w64};
ghost use Rattle.byteorder.specs.Endian.{little_bytes, low_bytes};
ghost use Rattle.t7_layout.specs.declared.words.Kind.TheVariants.{Signed};
ghost use Rattle.t7_fields.specs.Spelling.{IsHeld, number_bytes};
ghost use Rattle.t7_fields.specs.Puts.{patch};
ghost use Rattle.t7_fields.specs.Writing.{IsSized, number_width, scalar_bytes};

use crate::writer::Scalar;
use byteorder::{ByteOrder, LittleEndian};

/// Writes an unsigned number of so many bytes at a place.
pub(crate) fn write_unsigned(out: &mut [u8], at: usize, width: usize, n: u64)
    requires low { 1 ≤ width }
    requires high { width ≤ 8 }
    requires room { at + width ≤ length out.old }
    requires fits { n < 256 ^ width }
    ensures { out.new ≡ patch at (number_bytes width (pos n)) out.old }
{
    LittleEndian::write_uint(&mut out[at..], n, width);
}

// Writes the lowest bytes of a signed number at a place.
fn write_low(out: &mut [u8], at: usize, width: usize, n: i64)
    requires low { 1 ≤ width }
    requires high { width ≤ 8 }
    requires room { at + width ≤ length out.old }
    ensures { out.new ≡ patch at (little_bytes width (low_bytes w64 width n)) out.old }
{
    LittleEndian::write_int(&mut out[at..], n, width);
}

/// Writes a signed number of so many bytes at a place.
pub(crate) fn write_signed(out: &mut [u8], at: usize, width: usize, n: i64)
    requires low { 1 ≤ width }
    requires high { width ≤ 8 }
    requires room { at + width ≤ length out.old }
    requires held { IsHeld Signed width n }
    ensures { out.new ≡ patch at (number_bytes width n) out.old }
{
    write_low(out, at, width, n);
}

/// Writes bytes at a place.
#[inline(always)]
pub(crate) fn write_bytes(out: &mut [u8], at: usize, piece: &[u8])
    requires room { at + length piece.now ≤ length out.old }
    ensures bytes { out.new ≡ patch at piece.now out.old }
    ensures same_length { length out.new ≡ length out.old }
{
    out[at..at + piece.len()].copy_from_slice(piece);
}

/// Writes a number at a place, in the bytes of a field of its kind and width.
#[inline(always)]
pub(crate) fn write_scalar(out: &mut [u8], at: usize, n: Scalar)
    requires room { at + number_width n ≤ length out.old }
    ensures bytes { out.new ≡ patch at (scalar_bytes n) out.old }
    ensures same_length { length out.new ≡ length out.old }
    ensures sized { IsSized n }
{
    match n {
        Scalar::Byte(n) => write_bytes(out, at, &[n]),
        Scalar::Half(n) => write_bytes(out, at, &n.to_le_bytes()),
        Scalar::Word(n) => write_bytes(out, at, &n.to_le_bytes()),
        Scalar::Long(n) => write_bytes(out, at, &n.to_le_bytes()),
        Scalar::SignedWord(n) => write_bytes(out, at, &n.to_le_bytes()),
        Scalar::Signed(n) => write_bytes(out, at, &n.to_le_bytes()),
        Scalar::Raw(n) => write_bytes(out, at, &n.to_be_bytes()),
    }
}
