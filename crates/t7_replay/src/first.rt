//! The lines of a script.

ghost use Rattle.std.specs.Prelude.{◌≡◌, ◌≢◌, ◌<◌, [], ◌∷◌, length};
ghost use Rattle.t7_replay.specs.Script.{lines_of};

/// The first line without its line feed, and what follows it.
#[tactic(auto, using(crate::proofs::Lines::cut_off, crate::proofs::Lines::uncut))]
pub(crate) fn first_line(bytes: &[u8]) -> (&[u8], &[u8])
    requires { bytes.now ≢ [] }
    ensures lines { lines_of bytes.now ≡ result.0.now ∷ lines_of result.1.now }
    ensures shorter { length result.1.now < length bytes.now }
{
    for at in 0..bytes.len() {
        if bytes[at] == b'\n' {
            return (&bytes[..at], &bytes[at + 1..]);
        }
    }
    (bytes, &[])
}
