//! Messages and notes are handed out together, or not at all.

ghost use Rattle.std.specs.Prelude.{◌≡◌, ◌++◌, OnOk, OnErr};

use std::alloc::AllocError;
use t7_base::Public;
use t7_book::Note;

/// Appends the messages and the notes.
pub(crate) fn commit(
    out: &mut Vec<Public>,
    notes: &mut Vec<Note>,
    messages: &[Public],
    told: &[Note],
) -> Result<(), AllocError>
    ensures out { OnOk result (out.new.items ≡ out.old.items ++ messages.now) }
    ensures notes { OnOk result (notes.new.items ≡ notes.old.items ++ told.now) }
    ensures same_out { OnErr result (out.new.items ≡ out.old.items) }
    ensures same_notes { OnErr result (notes.new.items ≡ notes.old.items) }
{
    out.reserve(messages.len())?;
    notes.extend_from_slice(told)?;
    out.extend_from_slice(messages)
}
