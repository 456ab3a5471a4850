//! A stream in pieces is split as its frames say, and the front is told as the manual's lengths say.

ghost use Rattle.std.specs.Prelude.{◌≡◌, ◌+◌, ◌<◌, ◌≤◌, ◌++◌, length, take, IfOk, OnOk};
ghost use Rattle.std.specs.List.{AllByRecursion, concat, flat_map};
ghost use Rattle.t7_frames.specs.Frames.{BeginsWithNoFrame, IsFrame};
ghost use Rattle.t7_frames.specs.Lists.{lists};
ghost use Rattle.t7_frames.specs.Split.{split_of};

use crate::{Frame, FrameBuf};
use std::alloc::{AllocError, Global};
use std::test::Fail;

// Moves the whole frames at the front of the buffer into the list.
fn drain(alloc: Global, buf: &mut FrameBuf, frames: &mut Vec<Vec<u8>>) -> Result<(), AllocError>
    ensures bytes { concat (lists frames.new) ++ buf.new ≡ concat (lists frames.old) ++ buf.old }
    ensures each { AllByRecursion IsFrame (lists frames.old) → AllByRecursion IsFrame (lists frames.new) }
    ensures ok { OnOk result (BeginsWithNoFrame buf.new) }
{
    while let Frame::Whole(frame) = buf.front() {
        frames.push(frame.to_vec(alloc)?)?;
        buf.skip();
    }
    Ok(())
}

// Takes a piece, and moves the frames that are whole now into the list. Fewer bytes are taken only where the buffer is
// full behind a bad length.
fn take_piece(
    alloc: Global,
    buf: &mut FrameBuf,
    piece: &[u8],
    frames: &mut Vec<Vec<u8>>,
) -> Result<usize, AllocError>
    requires { BeginsWithNoFrame buf.old }
    ensures bytes { IfOk result (λ n. (n ≤ length piece.now) × (concat (lists frames.new) ++ buf.new ≡ (concat (lists frames.old) ++ buf.old) ++ take n piece.now)) }
    ensures each { AllByRecursion IsFrame (lists frames.old) → AllByRecursion IsFrame (lists frames.new) }
    ensures ends { OnOk result (BeginsWithNoFrame buf.new) }
    ensures stuck { IfOk result (λ n. n < length piece.now → 8192 ≤ length buf.new) }
{
    let mut at = 0;
    while at < piece.len() {
        let count = buf.feed(&piece[at..]);
        if count == 0 {
            return Ok(at);
        }
        at += count;
        drain(alloc, buf, frames)?;
    }
    Ok(at)
}

// The frames of a stream that comes in these pieces, by the calls of a frame buffer: those of the whole stream, however
// it was cut.
fn frames_of(alloc: Global, pieces: &[Vec<u8>]) -> Result<Vec<Vec<u8>>, AllocError>
    ensures { IfOk result (λ frames. lists frames ≡ (split_of (flat_map (λ piece. piece.items) pieces.now)).frames) }
{
    let mut buf = FrameBuf::new(alloc)?;
    let mut frames = Vec::new(alloc);
    for piece in pieces {
        let count = take_piece(alloc, &mut buf, piece, &mut frames)?;
        if count < piece.len() {
            return Ok(frames);
        }
    }
    Ok(frames)
}

// The front of a buffer that was given some bytes, and then some more.
fn front_after(buf: &mut FrameBuf, bytes: &[u8], more: &[u8]) -> (usize, bool, Option<u32>) {
    buf.feed(bytes);
    buf.feed(more);
    match buf.front() {
        Frame::Whole(frame) => (frame.len(), true, None),
        Frame::NotYet => (0, false, None),
        Frame::BadLength(len) => (0, false, Some(len)),
    }
}

#[test]
fn the_front_is_told_by_its_length(rt: HostRuntime) -> Result<(), Fail> {
    let cases: [(&[u8], usize, (usize, bool, Option<u32>)); 10] = [
        (&[], 0, (0, false, None)),
        (&[0, 0, 0], 0, (0, false, None)),
        (&[7, 0, 0, 0], 0, (0, false, Some(7))),
        (&[8, 0, 0, 0], 1, (0, false, None)),
        (&[8, 0, 0, 0], 4, (8, true, None)),
        (&[8, 0, 0, 0], 90, (8, true, None)),
        (&[0, 16, 0, 0], 4091, (0, false, None)),
        (&[0, 16, 0, 0], 4092, (4096, true, None)),
        (&[1, 16, 0, 0], 4093, (0, false, Some(4097))),
        (&[255, 255, 255, 255], 0, (0, false, Some(4_294_967_295))),
    ];
    let zeros = [0; 4096];
    for case in &cases {
        let (bytes, more, want) = *case;
        let mut buf = FrameBuf::new(rt.alloc())?;
        assert!(rt; more <= 4096);
        assert_eq!(rt;
            front_after(&mut buf, bytes, &zeros[..more]),
            want,
            "{bytes:?} and {more}"
        );
    }
    Ok(())
}

#[test]
fn a_cut_stream_has_its_two_frames(rt: HostRuntime) -> Result<(), Fail> {
    let stream = [8, 0, 0, 0, 1, 2, 3, 4, 9, 0, 0, 0, 5, 6, 7, 8, 9, 8, 0];
    let alloc = rt.alloc();
    for cut in 0..stream.len() {
        let mut pieces = Vec::new(alloc);
        pieces.push(stream[..cut].to_vec(alloc)?)?;
        pieces.push(stream[cut..].to_vec(alloc)?)?;
        let frames = frames_of(alloc, &pieces)?;
        assert_eq!(rt; frames.len(), 2, "cut at {cut}");
        assert_eq!(rt; frames[0].as_slice(), [8, 0, 0, 0, 1, 2, 3, 4].as_slice());
        assert_eq!(rt;
            frames[1].as_slice(),
            [9, 0, 0, 0, 5, 6, 7, 8, 9].as_slice()
        );
    }
    Ok(())
}
