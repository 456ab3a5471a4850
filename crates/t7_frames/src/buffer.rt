//! The bytes of a connection that are not treated yet, and the frame at their front.

ghost use Rattle.std.specs.Prelude.{◌≡◌, ℕ, List, ◌+◌, ◌-◌, ◌≤◌, ◌++◌, [], length, take, drop, min, max, vec_len, vec_capacity, IfOk};
ghost use Rattle.std.specs.Borrow.{sem};
ghost use Rattle.std.specs.Io.BufRead.{Rests};
ghost use Rattle.t7_frames.specs.Frames.{body_len, front_of, IsWhole};
ghost use Rattle.t7_frames.specs.Inside.{IsFrameBuf};
ghost use Rattle.t7_frames.specs.Shown.{shown};
ghost use Rattle.t7_frames.specs.contracts.buffer.FrameBuf.{the_row};

use byteorder::{ByteOrder, LittleEndian};
use circular_buffer::HeapCircularBuffer;
use std::alloc::{AllocError, Global};
use std::marker::Model;

// How many bytes are held at most.
const ROOM: usize = 8192;

// How many bytes spell a frame's length.
const LENGTH_WIDTH: usize = 4;

// The lengths of a frame.
const SHORTEST: u32 = 8;

const LONGEST: u32 = 4096;

/// What stands at the front of the bytes that are held, by BodyLen, the number in the first four bytes of every ETI
/// message.
#[derive(Clone, Copy, Debug, PartialEq, Eq)]
pub enum Frame<'a> {
    /// A whole frame: 8 to 4,096 bytes, as many as its BodyLen says.
    Whole(&'a [u8]),
    /// Fewer than four bytes, or fewer than a BodyLen from 8 to 4,096 says.
    NotYet,
    /// This BodyLen, which is below 8 or above 4,096. Whatever comes behind it, no frame does.
    BadLength(u32),
}

/// The bytes of a connection that came and were not taken off yet: at most 8,192.
///
/// They are kept in a ring. The frame at the front is gathered out of it, as far as it has come, so that it can be
/// handed out in one piece.
#[derive(Drop)]
pub struct FrameBuf {
    gathered: Vec<u8>,
    ring: HeapCircularBuffer<u8>,
}

impl Model for FrameBuf {
    ghost use Rattle.std.specs.Prelude.{ℕ, List, ◌++◌};
    ghost use Rattle.t7_frames.specs.Inside.{IsFrameBuf};

    ghost Value = { List ℕ };

    ghost view = { λ b. b.gathered.items ++ b.ring.items };

    ghost invariant = { λ b. IsFrameBuf b.gathered b.ring };
}

impl FrameBuf {
    /// A buffer that holds nothing, with room for 8,192 bytes. No other call takes memory.
    pub fn new(alloc: Global) -> Result<FrameBuf, AllocError>
        ensures { IfOk result (λ b. b ≡ []) }
    {
        Ok(FrameBuf {
            gathered: Vec::with_capacity(alloc, LONGEST as usize)?,
            ring: HeapCircularBuffer::with_capacity(alloc, ROOM)?,
        })
    }

    /// Appends the longest prefix of the piece that fits, and answers its length.
    pub fn feed(&mut self, piece: &[u8]) -> usize
        ensures count { result ≡ min (length piece.now) (8192 - length self.old) }
        ensures bytes { self.new ≡ self.old ++ take result piece.now }
        ensures limit { length self.new ≤ 8192 }
    {
        let room = ROOM - self.gathered.len() - self.ring.len();
        let count = piece.len().min(room);
        self.ring.fill_from_slice(&piece[..count])
    }

    /// What stands at the front. Nothing of what is held changes.
    pub fn front(&mut self) -> Frame<'_>
        ensures* rests { sem 𝓛 (Rests the_row self.entry (λ held. held ≡ self.old)) }
        ensures frame { shown result ≡ front_of self.old }
    {
        gather_frame(&mut self.gathered, &mut self.ring);
        front_frame(&self.gathered)
    }

    /// Takes the whole frame at the front off.
    pub fn skip(&mut self)
        requires { IsWhole (front_of self.old) }
        ensures { self.new ≡ drop (body_len self.old) self.old }
    {
        gather_frame(&mut self.gathered, &mut self.ring);
        self.gathered.clear();
    }
}

// Moves bytes out of the ring until so many are gathered, or it is empty.
fn gather(gathered: &mut Vec<u8>, ring: &mut HeapCircularBuffer<u8>, count: usize)
    requires { count ≤ vec_capacity gathered.old }
    ensures bytes { gathered.new.items ++ ring.new.items ≡ gathered.old.items ++ ring.old.items }
    ensures count { vec_len gathered.new ≡ max (vec_len gathered.old) (min count (vec_len gathered.old + length ring.old.items)) }
    ensures room { (vec_capacity gathered.new ≡ vec_capacity gathered.old) × (ring.new.capacity ≡ ring.old.capacity) }
{
    while gathered.len() < count {
        let Some(byte) = ring.pop_front() else {
            return;
        };
        gathered.push_reserved(byte);
    }
}

// Gathers the frame at the front, as far as it has come.
fn gather_frame(gathered: &mut Vec<u8>, ring: &mut HeapCircularBuffer<u8>)
    requires { IsFrameBuf gathered.old ring.old }
    ensures bytes { gathered.new.items ++ ring.new.items ≡ gathered.old.items ++ ring.old.items }
    ensures inside { IsFrameBuf gathered.new ring.new }
    ensures front { front_of gathered.new.items ≡ front_of (gathered.old.items ++ ring.old.items) }
{
    gather(gathered, ring, LENGTH_WIDTH);
    if gathered.len() < LENGTH_WIDTH {
        return;
    }
    let len = spelled(gathered);
    if SHORTEST <= len && len <= LONGEST {
        gather(gathered, ring, len as usize);
    }
}

// What stands at the front of the bytes.
fn front_frame(bytes: &[u8]) -> Frame<'_>
    ensures { shown result ≡ front_of bytes.now }
{
    if bytes.len() < LENGTH_WIDTH {
        return Frame::NotYet;
    }
    let len = spelled(bytes);
    if len < SHORTEST {
        return Frame::BadLength(len);
    }
    if LONGEST < len {
        return Frame::BadLength(len);
    }
    let len = len as usize;
    if bytes.len() < len {
        return Frame::NotYet;
    }
    Frame::Whole(&bytes[..len])
}

// The length that the first four bytes spell.
fn spelled(bytes: &[u8]) -> u32
    requires { 4 ≤ length bytes.now }
    ensures { result ≡ body_len bytes.now }
{
    LittleEndian::read_u32(bytes)
}
