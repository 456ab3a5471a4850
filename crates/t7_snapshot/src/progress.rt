//! How far a cycle was read.

ghost use Rattle.std.specs.Prelude.{◌≡◌, IfOk, length};

use crate::awaited::Awaited;
use std::alloc::{AllocError, Global};
use t7_base::SecurityId;

/// What is remembered of a kept datagram beside its bytes: whether it opens a cycle, the number of the first datagram from it on
/// that isn't read in order yet, what is awaited there, and the number behind which all up to it were kept when it came, none of
/// which opens a cycle.
#[derive(Drop)]
pub(crate) struct Progress<'s> {
    pub(crate) opens: bool,
    pub(crate) next: u32,
    pub(crate) awaited: Awaited<'s>,
    pub(crate) back: u32,
}

/// So many places of which nothing is remembered.
pub(crate) fn nothing_read<'s>(
    alloc: Global,
    count: usize,
    securities: &'s [SecurityId],
) -> Result<Vec<Progress<'s>>, AllocError>
    ensures { IfOk result (λ places. length places.items ≡ count) }
{
    let mut places = Vec::with_capacity(alloc, count)?;
    for _made in 0..count {
        places.push(Progress {
            opens: false,
            next: 0,
            awaited: Awaited::new(securities),
            back: 0,
        })?;
    }
    Ok(places)
}
