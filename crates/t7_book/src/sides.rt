//! The sides of a product's securities, by number.

ghost use Rattle.std.specs.Prelude.{◌≡◌, true, ◌+◌, ◌*◌, ◌<◌, ◌≤◌, ◌^◌, ℤ, OnOk, IfOk, IfSome, Some, None, length, if◌then◌else◌};
ghost use Rattle.std.specs.Ordering.{int_eq};
ghost use Rattle.std.specs.HashMap.{get};
ghost use Rattle.t7_book.specs.Numbers.{is_listed, number_of, opposite, side_index, rank_in, noted};
ghost use Rattle.t7_book.specs.Orders.{rank_of};

use indexmap::IndexMap;
use std::alloc::{AllocError, Global};
use std::marker::Model;
use t7_base::{SecurityId, Side};

/// The product's securities, and where each stands in the product file: the number of a side is twice that place, and one more for
/// sells. Only `new` takes memory.
#[derive(Drop)]
pub struct Sides {
    securities: Vec<SecurityId>,
    ranks: IndexMap<i64, usize>,
}

impl Model for Sides {
    ghost use Rattle.std.specs.Prelude.{◌≡◌, ◌≤◌, ℤ, List, length};
    ghost use Rattle.std.specs.Ordering.{int_eq};
    ghost use Rattle.std.specs.HashMap.{get};
    ghost use Rattle.t7_book.specs.Numbers.{rank_in};

    ghost Value = { List ℤ };

    ghost view = { λ s. s.securities.items };

    ghost invariant = { λ s. ((security : ℤ) → get int_eq s.ranks security ≡ rank_in s.securities.items security) × (length s.securities.items ≤ 1_000) };
}

impl Sides {
    /// The sides of these securities, at most 1,000; the numbers are by their order. An error comes only where memory is wanting.
    pub fn new(alloc: Global, securities: Vec<SecurityId>) -> Result<Sides, AllocError>
        requires { length securities.items ≤ 1_000 }
        ensures { IfOk result (λ sides. sides ≡ securities.items) }
    {
        let ranks = ranks_of(alloc, &securities)?;
        Ok(Sides { securities, ranks })
    }

    /// The allocator.
    pub fn alloc(&self) -> Global {
        *self.securities.allocator()
    }

    /// Where a security stands in the product file, if it does.
    pub fn rank(&self, security: SecurityId) -> Option<usize>
        ensures { result ≡ (if is_listed self.now security then Some (rank_of self.now security) else None) }
    {
        self.ranks.get(&security.0).copied()
    }

    /// Where one of the product's securities stands in the product file.
    pub fn listed_rank(&self, security: SecurityId) -> usize
        requires { is_listed self.now security ≡ true }
        ensures { result ≡ rank_of self.now security }
    {
        match self.rank(security) {
            Some(rank) => rank,
            None => unreachable!(),
        }
    }

    /// The number of a side of one of the product's securities.
    pub fn listed_number(&self, security: SecurityId, side: Side) -> usize
        requires { is_listed self.now security ≡ true }
        ensures { result ≡ number_of self.now security side }
    {
        match self.number(security, side) {
            Some(number) => number,
            None => unreachable!(),
        }
    }

    /// The number of a side, if the security is the product's.
    pub fn number(&self, security: SecurityId, side: Side) -> Option<usize>
        ensures { result ≡ (if is_listed self.now security then Some (number_of self.now security side) else None) }
    {
        match self.ranks.get(&security.0) {
            None => None,
            Some(rank) => Some(number_at(*rank, side)),
        }
    }
}

/// Where each security stands among these, by its number.
fn ranks_of(alloc: Global, securities: &[SecurityId]) -> Result<IndexMap<i64, usize>, AllocError>
    ensures { IfOk result (λ ranks. (s : ℤ) → get int_eq ranks s ≡ rank_in securities.now s) }
{
    let mut ranks = IndexMap::with_capacity(alloc, securities.len())?;
    for (rank, security) in securities.iter().enumerate() {
        note(&mut ranks, *security, rank)?;
    }
    Ok(ranks)
}

/// Notes where a security stands, if it isn't noted already.
fn note(
    ranks: &mut IndexMap<i64, usize>,
    security: SecurityId,
    rank: usize,
) -> Result<(), AllocError>
    ensures { OnOk result ((s : ℤ) → get int_eq ranks.new s ≡ noted (get int_eq ranks.old s) (int_eq security s) rank) }
{
    if ranks.contains_key(&security.0) {
        return Ok(());
    }
    match ranks.insert(security.0, rank) {
        Ok(_) => Ok(()),
        Err(_) => Err(AllocError),
    }
}

/// The number of a side of the security at this place.
fn number_at(rank: usize, side: Side) -> usize
    requires { rank < 2 ^ 63 }
    ensures { result ≡ 2 * rank + side_index side }
{
    match side {
        Side::Buy => 2 * rank,
        Side::Sell => 2 * rank + 1,
    }
}

/// The other side.
pub(crate) fn opposite(side: Side) -> Side
    ensures { result ≡ opposite side }
{
    match side {
        Side::Buy => Side::Sell,
        Side::Sell => Side::Buy,
    }
}
