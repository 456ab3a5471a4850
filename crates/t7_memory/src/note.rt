//! Calls that are noted with their bytes, in room that was taken before.
ghost use Rattle.std.specs.Prelude.{◌≡◌, ◌-◌, ◌+◌, ◌≤◌, ◌<◌, ◌^◌, [], Some, None, length, IfOk, take, drop, get_or, sum};
ghost use Rattle.std.specs.Option.{option_map};
ghost use Rattle.t7_memory.specs.Notes.{more, told_at};

use std::alloc::{AllocError, Global};
use std::marker::Model;

/// Notes of calls of one kind, until they are forgotten.
#[derive(Drop)]
pub struct CallNotes<K: Drop> {
    kinds: Vec<K>,
    lengths: Vec<usize>,
    bytes: Vec<u8>,
    told: bool,
    calls_left: usize,
    bytes_left: usize,
}

impl<K: Drop> Model for CallNotes<K> {
    ghost use Rattle.std.specs.Prelude.{◌≡◌, ◌+◌, ◌≤◌, sum, length, vec_len, vec_capacity, Option, Some, None, if◌then◌else◌};
    ghost use Rattle.t7_memory.specs.Notes.{Noted, notes};

    ghost Value = { Noted K };

    ghost view = { λ n. record {
      told = if n.told then Some (notes n.kinds.items n.lengths.items n.bytes.items) else None;
      calls = n.calls_left;
      bytes = n.bytes_left;
    } };

    ghost invariant = { λ n.
        (sum n.lengths.items ≡ length n.bytes.items)
        × (length n.lengths.items ≡ length n.kinds.items)
        × (vec_len n.kinds + n.calls_left ≤ vec_capacity n.kinds)
        × (vec_len n.lengths + n.calls_left ≤ vec_capacity n.lengths)
        × (vec_len n.bytes + n.bytes_left ≤ vec_capacity n.bytes) };
}

impl<K: Copy + Drop> CallNotes<K> {
    /// Room for so many calls and bytes.
    pub fn new(alloc: Global, calls: usize, bytes: usize) -> Result<CallNotes<K>, AllocError>
        ensures { IfOk result (λ notes. notes ≡ record { told = Some []; calls = calls; bytes = bytes }) }
    {
        Ok(CallNotes {
            kinds: Vec::with_capacity(alloc, calls)?,
            lengths: Vec::with_capacity(alloc, calls)?,
            bytes: Vec::with_capacity(alloc, bytes)?,
            told: true,
            calls_left: calls,
            bytes_left: bytes,
        })
    }

    /// Notes one call more, for which there is room. After `forget` it uses that room all the same.
    pub fn note(&mut self, kind: K, piece: &[u8])
        requires calls { 1 ≤ self.old.calls }
        requires bytes { length piece.now ≤ self.old.bytes }
        ensures { self.new ≡ record {
          told = more self.old.told (record { kind = kind; bytes = piece.now });
          calls = self.old.calls - 1;
          bytes = self.old.bytes - length piece.now;
        } }
    {
        self.kinds.push(kind).unwrap();
        self.bytes.extend_from_slice(piece).unwrap();
        self.lengths.push(piece.len()).unwrap();
        self.calls_left -= 1;
        self.bytes_left -= piece.len();
    }

    /// From now on nothing is told.
    pub fn forget(&mut self)
        ensures { self.new ≡ record self.old { told = None } }
    {
        self.told = false;
    }

    /// The call that was noted as number `at` from 0, and its bytes: None behind the last, and after `forget`.
    pub fn get(&self, at: usize) -> Option<(K, &[u8])>
        ensures { option_map (λ n. record { kind = n.0; bytes = n.1.now }) result ≡ told_at self.now.told at }
    {
        if !self.told {
            return None;
        }
        match self.kinds.get(at) {
            Some(kind) => Some((*kind, piece_at(&self.lengths, &self.bytes, at))),
            None => None,
        }
    }
}

// The bytes of a note.
fn piece_at<'a>(lengths: &[usize], bytes: &'a [u8], at: usize) -> &'a [u8]
    requires inside { at < length lengths.now }
    requires covers { sum lengths.now ≤ length bytes.now }
    ensures { result.now ≡ take (get_or lengths.now at 0) (drop (sum (take at lengths.now)) bytes.now) }
{
    let start = start_of(lengths, at);
    let count = lengths[at];
    let rest = &bytes[start..];
    &rest[..count]
}

// Where a note's bytes begin.
fn start_of(lengths: &[usize], at: usize) -> usize
    requires inside { at ≤ length lengths.now }
    requires bound { sum lengths.now < 2 ^ 64 }
    ensures { result ≡ sum (take at lengths.now) }
{
    let mut start = 0;
    for before in 0..at {
        start += lengths[before];
    }
    start
}
