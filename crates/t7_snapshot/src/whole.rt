//! A whole snapshot, read in place.

ghost use Rattle.std.specs.Prelude.{◌≡◌, ◌≢◌, ℕ, ◌+◌, ◌<◌, None};
ghost use Rattle.t7_snapshot.specs.Store.{seen};
ghost use Rattle.t7_snapshot.specs.Whole.{IsOne};

use crate::assembler::Assembler;
use t7_base::SecurityId;
use t7_eobi::SnapWalk;

/// A whole snapshot cycle in the bytes that the assembler keeps: the datagrams from the first to the last spell one cycle, which its type keeps.
#[derive(Drop)]
pub struct WholeSnapshot<'a> {
    pub(crate) number: u32,
    pub(crate) first: u32,
    pub(crate) last: u32,
    pub(crate) store: &'a Assembler<'a>,
    ghost one: { ∥ IsOne store.now number first last ∥₁ },
    ghost room: { last < 4294967295 },
    ghost below: { number < 4294967295 },
    ghost begun: { seen store.now first ≢ None },
}

/// The orders of a whole snapshot that are left, as the feed shows them and in the order in which they came. Each is read in place when it is asked for.
#[derive(Drop)]
pub struct WholeWalk<'a> {
    pub(crate) store: &'a Assembler<'a>,
    pub(crate) rest: SnapWalk<'a>,
    pub(crate) security: SecurityId,
    pub(crate) next: u32,
    pub(crate) left: u32,
    ghost room: { next + left < 4294967296 },
}
