//! The responses that are stored for each session.

ghost use Rattle.std.specs.Prelude.{◌≡◌, ◌+◌, ◌≤◌, length, map, Contains, IfOk, OnOk, OnErr, Ok, Err, if◌then◌else◌, MatchResult, true, false};
ghost use Rattle.t7_recover.specs.Ranges.{is_bad_range, range_of};
ghost use Rattle.t7_recover.specs.Shelves.{KeepsAll, appended, empty_shelf, kept_of, place_in, sessions_of, spare_of};

use std::alloc::{AllocError, Global};
use std::marker::Model;
use t7_base::{Product, SessionId};
use t7_eti::Kept;

// How many responses a range has at most.
const MOST_RESENT: u128 = 500;

/// A range of responses that is none (SessionRejectReason 17): it ends before it begins, or begins behind the last response.
#[derive(Clone, Copy, Debug, PartialEq, Eq)]
pub struct BadRange;

// The list of a session.
#[derive(Debug, Drop)]
struct Row {
    session: SessionId,
    kept: Vec<Kept>,
}

/// The recoverable responses of each session of a product (those that carry an ApplMsgID), numbered from 1 in each.
///
/// Contracts see it as a `Shelf` for each session: the list of its responses, and for how many more there is room.
#[derive(Debug, Drop)]
pub struct Store {
    rows: Vec<Row>,
}

impl Model for Store {
    ghost use Rattle.std.specs.Prelude.{List, map};
    ghost use Rattle.t7_recover.specs.Shelves.{Shelf, shelf_of};

    ghost Value = { List Shelf };

    ghost view = { λ a. map shelf_of a.rows.items };
}

impl Store {
    /// An empty list for each session of the product, in the order of the product file, without room.
    ///
    /// An error comes only where memory is wanting.
    pub fn new(alloc: Global, product: &Product) -> Result<Store, AllocError>
        ensures { IfOk result (λ store. store ≡ map empty_shelf product.now.sessions) }
    {
        let mut rows = Vec::new(alloc);
        for session in product.sessions() {
            let kept = Vec::new(alloc);
            rows.push(Row {
                session: *session,
                kept,
            })?;
        }
        Ok(Store { rows })
    }

    /// Makes room for n more responses of a session of the product.
    ///
    /// An error comes only where memory is wanting; then every list is as before, and no room is less.
    pub fn reserve(&mut self, session: SessionId, n: usize) -> Result<(), AllocError>
        requires { Contains (sessions_of self.old) session }
        ensures room { OnOk result (n ≤ spare_of self.new session) }
        ensures kept { KeepsAll self.old self.new }
    {
        let place = place_of(&self.rows, session);
        let row = &mut self.rows[place];
        row.kept.reserve(n)
    }

    /// Stores a response for a session that has room for it, and answers its number, from 1 on. It takes one of the room, and
    /// no memory.
    pub fn append(&mut self, session: SessionId, what: Kept) -> u64
        requires { 1 ≤ spare_of self.old session }
        ensures number { result ≡ length (kept_of self.old session) + 1 }
        ensures appended { self.new ≡ appended self.old session what }
        ensures spare { spare_of self.new session + 1 ≡ spare_of self.old session }
    {
        let place = place_of(&self.rows, session);
        let row = &mut self.rows[place];
        row.kept.push_reserved(what);
        row.kept.len() as u64
    }

    /// All responses stored for a session; none for a session that the product lacks. No memory is taken.
    pub fn list(&self, session: SessionId) -> &[Kept]
        ensures { result.now ≡ kept_of self.now session }
    {
        let place = place_of(&self.rows, session);
        match self.rows.get(place) {
            Some(row) => &row.kept,
            None => &[],
        }
    }

    /// How many responses are stored for a session. No memory is taken.
    pub fn len(&self, session: SessionId) -> u64
        ensures { result ≡ length (kept_of self.now session) }
    {
        self.list(session).len() as u64
    }

    /// The responses of a session with numbers above `after` (ApplBegMsgID), up to the least of `upto` (ApplEndMsgID), the
    /// last number and `after + 500`, in place.
    ///
    /// BadRange exactly where `after` is above `upto` or above the last number. No memory is taken.
    pub fn range(&self, session: SessionId, after: u128, upto: u128) -> Result<&[Kept], BadRange>
        ensures bad { let bad = is_bad_range (kept_of self.now session) after upto in MatchResult result (λ _. bad ≡ false) (λ _. bad ≡ true) }
        ensures range { IfOk result (λ range. range.now ≡ range_of (kept_of self.now session) after upto) }
    {
        let list = self.list(session);
        if after > upto || after > list.len() as u128 {
            return Err(BadRange);
        }
        let rest = &list[after as usize..];
        let count = (upto - after).min(MOST_RESENT).min(rest.len() as u128) as usize;
        Ok(&rest[..count])
    }
}

// Where the row of a session stands, or the end where it has none.
fn place_of(rows: &[Row], session: SessionId) -> usize
    ensures value { result ≡ place_in session rows.now }
    ensures within { result ≤ length rows.now }
{
    for (i, row) in rows.iter().enumerate() {
        if row.session == session {
            return i;
        }
    }
    rows.len()
}
