//! What always holds of the frames of a stream.

ghost use Rattle.std.specs.Prelude.{◌≡◌, ℕ, List, ◌<◌, ◌++◌, [], length};
ghost use Rattle.std.specs.List.{concat};
ghost use Rattle.t7_frames.specs.Frames.{bad_length, front_of, not_yet, whole, Frames};
ghost use Rattle.t7_frames.specs.Split.{nothing, split_in_pieces, split_of, BeginsWith};

/// Every stream is frames and a rest that begins with none, in exactly one way.
pub fn streams_split_in_one_way()
    ensures exists { (stream : List ℕ) → Frames stream (split_of stream).frames (split_of stream).rest }
    ensures only { (stream : List ℕ) (frames others : List (List ℕ)) (rest end : List ℕ) → Frames stream frames rest → Frames stream others end → (frames ≡ others) × (rest ≡ end) }
{}

/// Where more bytes come, the frames of a stream stay, and those of its rest with these bytes follow.
pub fn a_split_goes_on()
    ensures frames { (stream piece : List ℕ) → (split_of (stream ++ piece)).frames ≡ (split_of stream).frames ++ (split_of ((split_of stream).rest ++ piece)).frames }
    ensures rest { (stream piece : List ℕ) → (split_of (stream ++ piece)).rest ≡ (split_of ((split_of stream).rest ++ piece)).rest }
{}

/// A stream that comes in pieces, where the frames that are whole are taken off after each, has the frames and the rest
/// of the whole stream.
pub fn pieces_make_no_difference()
    ensures { (pieces : List (List ℕ)) → split_in_pieces nothing pieces ≡ split_of (concat pieces) }
{}

/// What stands at the front of the bytes says how their split begins, whatever more comes: with a whole frame, which is
/// then taken off; with none, where fewer bytes than any frame's most are held; or with none for ever, behind a bad
/// length.
pub fn a_front_begins_the_split()
    ensures whole { (bytes more frame : List ℕ) → front_of bytes ≡ whole frame → BeginsWith bytes more frame }
    ensures waits { (bytes : List ℕ) → front_of bytes ≡ not_yet → (split_of bytes ≡ record { frames = []; rest = bytes }) × (length bytes < 4096) }
    ensures bad { (bytes more : List ℕ) (len : ℕ) → front_of bytes ≡ bad_length len → split_of (bytes ++ more) ≡ record { frames = []; rest = bytes ++ more } }
{}
