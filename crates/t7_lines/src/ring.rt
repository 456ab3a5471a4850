//! A place of a gap buffer's ring: free, or with a number and its message.

ghost use Rattle.std.specs.Prelude.{◌≡◌};
ghost use Rattle.t7_lines.specs.Ring.{said_at};

use t7_base::Public;

// The message of a place, where it has this number.
pub fn message_at(place: Option<(u32, Public)>, number: u32) -> Option<Public>
    ensures { result ≡ said_at place number }
{
    match place {
        Some((kept, message)) if kept == number => Some(message),
        _ => None,
    }
}
