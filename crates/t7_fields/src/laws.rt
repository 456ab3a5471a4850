//! What always holds of the definitions of records and their bytes.

ghost use Rattle.std.specs.Prelude.{◌≡◌, ◌<◌, ◌≤◌, ◌^◌, List, ℕ, ℤ, true, length, slice_index};
ghost use Rattle.byteorder.specs.Endian.{little_bytes, little_number, twos_complement};
ghost use Rattle.t7_layout.specs.declared.words.Kind.TheVariants.{Signed};
ghost use Rattle.t7_layout.specs.Layouts.{IsLayout, Layout};
ghost use Rattle.t7_layout.specs.declared.roles.FieldName.{FieldName};
ghost use Rattle.t7_layout.specs.declared.roles.Role.{Role};
ghost use Rattle.t7_layout.specs.Lookups.{IsTable};
ghost use Rattle.t7_fields.specs.declared.writer.Scalar.{Scalar};
ghost use Rattle.t7_fields.specs.Spelling.{IsHeld, Spells, Value, complement};
ghost use Rattle.t7_fields.specs.Writing.{AreKnown, AreOrdinary, AreSaid, AreSized, IsWritten, can_say_each, message_saying};

/// Bytes that are read as a number, the lowest first, are the bytes of that number.
pub fn bytes_read_again()
    ensures { (bytes : List ℕ) → ((i : ℕ) → slice_index bytes i < 256) → little_bytes (length bytes) (little_number (length bytes) bytes) ≡ bytes }
{}

/// The bytes of a number, the lowest first, are read as that number.
pub fn numbers_read_again()
    ensures { (width n : ℕ) → n < 256 ^ width → little_number width (little_bytes width n) ≡ n }
{}

/// The bytes of a signed number are read as that number.
pub fn signed_read_again()
    ensures { (width : ℕ) (z : ℤ) → 1 ≤ width → IsHeld Signed width z → twos_complement width (little_number width (little_bytes width (complement width z))) ≡ z }
{}

/// Bytes spell at most one record of a template.
pub fn one_record()
    ensures { (t : Layout) (r s : List Value) (b : List ℕ) → IsLayout t → Spells t r b → Spells t s b → r ≡ s }
{}

/// The message of a role that says certain numbers, by a valid table: it is one that a view accepts, it says each of
/// them, and every other field is unset.
pub fn a_message_says_what_is_written()
    ensures { (layouts : List Layout) (role : Role) (ps : List (FieldName × Scalar)) → IsTable layouts → AreSaid layouts role ps → AreSized ps → IsWritten layouts role ps (message_saying layouts role ps) }
{}

/// In a valid table the null of a field that a role requires is the greatest number of its width, or the least of a
/// signed one. So every other number may be said.
pub fn ordinary_numbers_are_known()
    ensures { (layouts : List Layout) (role : Role) (ps : List (FieldName × Scalar)) → IsTable layouts → can_say_each role ps ≡ true → AreOrdinary ps → AreKnown layouts role ps }
{}
