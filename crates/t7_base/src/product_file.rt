//! The records of a product file, read one by one.

ghost use Rattle.std.specs.Prelude.{◌≡◌, ◌<◌, ◌≤◌, ◌+◌, ◌^◌, ◌==◌, ◌&&◌, [], ◌∷◌, ◌++◌, ◌≤ℤ◌, IfOk, IfErr, OnOk, OnErr, None, Some, length, pos, drop, nat_le, false};
ghost use Rattle.std.specs.List.{list_any};
ghost use Rattle.std.specs.Ordering.{int_eq};
ghost use Rattle.t7_records.specs.Records.{cell, record_at};
ghost use Rattle.t7_base.specs.Listing.{Listing, IsListing};
ghost use Rattle.t7_base.specs.ProductFile.{Range as Bounds, fails_columns, fails_duplicate, fails_key, fails_number, fault_at, fault_of, fixed_range, fixed_word, is_of, is_security, is_session, is_within, number_in, product_of, security_of, security_range, session_of, session_range, tick_of, tick_range};
ghost use Rattle.t7_base.specs.ProductRefusals.{IsRefusalOf};
ghost use Rattle.t7_base.specs.ProductLists.{AreProductRows, ProductRows, lists_before};

use crate::product::{MOST_DATAGRAM, ProductRefusal, ProductWhy};
use crate::{SecurityId, SessionId};
use std::alloc::{AllocError, Global};
use std::marker::Model;
use t7_records::{Records, is_decimal, number};

/// The most securities and sessions of a product.
const MOST_SECURITIES: usize = 1_000;

const MOST_SESSIONS: usize = 64;

/// The numbers that a cell may spell.
#[derive(Clone, Copy)]
struct Range {
    least: u64,
    most: u64,
}

const SECURITY: Range = Range {
    least: 1,
    most: 1_000_000_000_000_000_000,
};

const TICK: Range = Range {
    least: 1,
    most: 100_000_000_000_000_000,
};

const SESSION: Range = Range {
    least: 1,
    most: 4_000_000_000,
};

fn from_to(least: u64, most: u64) -> Range
    ensures { result ≡ record { least = least; most = most } }
{
    Range { least, most }
}

/// The range of the number in one of the first four records.
fn fixed_range(at: usize) -> Range
    ensures least { result.least ≡ (fixed_range at).least }
    ensures most { result.most ≡ (fixed_range at).most }
    ensures bounded { result.most < 2 ^ 32 }
{
    match at {
        0 => from_to(1, 2_147_483_647),
        1 => from_to(1, 65_536),
        2 => from_to(1, 4_096),
        _ => from_to(256, MOST_DATAGRAM as u64),
    }
}

/// The word of one of the first four records.
fn fixed_word(at: usize) -> &'static [u8]
    ensures { result.now ≡ fixed_word at }
{
    match at {
        0 => b"product",
        1 => b"window",
        2 => b"packets",
        _ => b"datagram",
    }
}

/// Whether a record begins with a word.
fn is_of(rows: &Records, at: usize, word: &[u8]) -> bool
    requires { at < length rows.now }
    ensures { result ≡ is_of word.now (record_at rows.now at) }
{
    rows.cell(at, 0) == word
}

fn is_security(rows: &Records, at: usize) -> bool
    requires { at < length rows.now }
    ensures { result ≡ is_security (record_at rows.now at) }
{
    is_of(rows, at, b"security")
}

fn is_session(rows: &Records, at: usize) -> bool
    requires { at < length rows.now }
    ensures { result ≡ is_session (record_at rows.now at) }
{
    is_of(rows, at, b"session")
}

/// Whether a cell is a plain decimal within a range.
fn is_within(range: Range, word: &[u8]) -> bool
    ensures { result ≡ is_within (record { least = range.least; most = range.most }) word.now }
{
    is_decimal(word, range.most) && range.least <= number(word, range.most)
}

/// The number of a cell within a range.
fn number_in(range: Range, word: &[u8]) -> u64
    ensures value { result ≡ number_in (record { least = range.least; most = range.most }) word.now }
    ensures most { result ≤ range.most }
{
    number(word, range.most)
}

/// The number of one of the first four records.
pub(crate) fn fixed_number(rows: &Records, at: usize) -> u32
    requires first { at < 4 }
    requires inside { at < length rows.now }
    requires valid { fault_of rows.now ≡ None }
    ensures value { result ≡ number_in (fixed_range at) (cell (record_at rows.now at) 1) }
    ensures least { (fixed_range at).least ≤ result }
    ensures most { result ≤ (fixed_range at).most }
{
    number_in(fixed_range(at), rows.cell(at, 1)) as u32
}

fn security_of(rows: &Records, at: usize) -> SecurityId
    requires { at < length rows.now }
    ensures value { result ≡ security_of (record_at rows.now at) }
    ensures most { result ≤ℤ pos 1_000_000_000_000_000_000 }
{
    SecurityId(number_in(SECURITY, rows.cell(at, 1)) as i64)
}

fn tick_of(rows: &Records, at: usize) -> i64
    requires { at < length rows.now }
    ensures value { result ≡ tick_of (record_at rows.now at) }
    ensures most { result ≤ℤ pos 100_000_000_000_000_000 }
{
    number_in(TICK, rows.cell(at, 2)) as i64
}

fn session_of(rows: &Records, at: usize) -> SessionId
    requires { at < length rows.now }
    ensures value { result ≡ session_of (record_at rows.now at) }
    ensures most { result ≤ 4_000_000_000 }
{
    SessionId(number_in(SESSION, rows.cell(at, 1)) as u32)
}

/// The securities, their price steps and the sessions of the records so far.
#[derive(Drop)]
pub struct ProductEntries {
    pub securities: Vec<SecurityId>,
    pub ticks: Vec<i64>,
    pub sessions: Vec<SessionId>,
}

impl Model for ProductEntries {
    ghost use Rattle.t7_base.specs.ProductLists.{ProductRows};

    ghost Value = { ProductRows };

    ghost view = { λ l. record { securities = l.securities.items; ticks = l.ticks.items; sessions = l.sessions.items } };

    ghost use Rattle.t7_base.specs.ProductLists.{AreProductRows};

    ghost invariant = { λ l. AreProductRows (record { securities = l.securities.items; ticks = l.ticks.items; sessions = l.sessions.items }) };
}

impl ProductEntries {
    fn new(alloc: Global) -> ProductEntries
        ensures { result ≡ record { securities = []; ticks = []; sessions = [] } }
    {
        ProductEntries {
            securities: Vec::new(alloc),
            ticks: Vec::new(alloc),
            sessions: Vec::new(alloc),
        }
    }

    fn fails_key(&self, rows: &Records, at: usize) -> bool
        requires inside { at < length rows.now }
        requires listed { self.now ≡ lists_before rows.now at }
        ensures { result ≡ fails_key rows.now at }
    {
        if at < 4 {
            return !is_of(rows, at, fixed_word(at));
        }
        if is_security(rows, at) {
            return !self.sessions.is_empty() || self.securities.len() >= MOST_SECURITIES;
        }
        if is_session(rows, at) {
            return self.securities.is_empty() || self.sessions.len() >= MOST_SESSIONS;
        }
        true
    }

    fn fails_duplicate(&self, rows: &Records, at: usize) -> bool
        requires inside { at < length rows.now }
        requires listed { self.now ≡ lists_before rows.now at }
        ensures { result ≡ fails_duplicate rows.now at }
    {
        if at < 4 {
            return false;
        }
        if is_security(rows, at) {
            return self.securities.contains(&security_of(rows, at));
        }
        self.sessions.contains(&session_of(rows, at))
    }

    /// The first test that a record fails.
    fn fault_at(&self, rows: &Records, at: usize) -> Option<ProductWhy>
        requires inside { at < length rows.now }
        requires listed { self.now ≡ lists_before rows.now at }
        ensures { result ≡ fault_at rows.now at }
    {
        if self.fails_key(rows, at) {
            return Some(ProductWhy::Key);
        }
        if fails_columns(rows, at) {
            return Some(ProductWhy::Columns);
        }
        if fails_number(rows, at) {
            return Some(ProductWhy::Number);
        }
        if self.fails_duplicate(rows, at) {
            return Some(ProductWhy::Duplicate);
        }
        None
    }

    fn push_security(&mut self, security: SecurityId, tick: i64) -> Result<(), AllocError>
        requires few { length self.old.securities < 1_000 }
        requires security { (pos 1 ≤ℤ security) × (security ≤ℤ pos 1_000_000_000_000_000_000) }
        requires tick { (pos 1 ≤ℤ tick) × (tick ≤ℤ pos 100_000_000_000_000_000) }
        requires absent { list_any (λ z. int_eq z security) self.old.securities ≡ false }
        ensures ok { OnOk result (self.new ≡ record self.old { securities = self.old.securities ++ security ∷ []; ticks = self.old.ticks ++ tick ∷ [] }) }
        ensures err { OnErr result (self.new ≡ self.old) }
    {
        self.securities.reserve(1)?;
        self.ticks.reserve(1)?;
        self.securities.push_reserved(security);
        self.ticks.push_reserved(tick);
        Ok(())
    }

    fn push_session(&mut self, session: SessionId) -> Result<(), AllocError>
        requires few { length self.old.sessions < 64 }
        requires session { (1 ≤ session) × (session ≤ 4_000_000_000) }
        requires absent { list_any (λ n. n == session) self.old.sessions ≡ false }
        requires begun { 0 < length self.old.securities }
        ensures ok { OnOk result (self.new ≡ record self.old { sessions = self.old.sessions ++ session ∷ [] }) }
        ensures err { OnErr result (self.new ≡ self.old) }
    {
        self.sessions.push(session)?;
        Ok(())
    }

    /// Adds the security or the session of a record that passes its tests.
    fn push(&mut self, rows: &Records, at: usize) -> Result<(), AllocError>
        requires inside { at < length rows.now }
        requires listed { self.old ≡ lists_before rows.now at }
        requires passes { fault_at rows.now at ≡ None }
        ensures ok { OnOk result (self.new ≡ lists_before rows.now (at + 1)) }
    {
        if at < 4 {
            return Ok(());
        }
        if is_security(rows, at) {
            return self.push_security(security_of(rows, at), tick_of(rows, at));
        }
        self.push_session(session_of(rows, at))
    }
}

fn fails_columns(rows: &Records, at: usize) -> bool
    requires { at < length rows.now }
    ensures { result ≡ fails_columns rows.now at }
{
    if at < 4 {
        return rows.width(at) != 2;
    }
    if is_security(rows, at) {
        return rows.width(at) != 3;
    }
    rows.width(at) != 2
}

fn fails_number(rows: &Records, at: usize) -> bool
    requires { at < length rows.now }
    ensures { result ≡ fails_number rows.now at }
{
    if at < 4 {
        return !is_within(fixed_range(at), rows.cell(at, 1));
    }
    if is_security(rows, at) {
        return !(is_within(SECURITY, rows.cell(at, 1)) && is_within(TICK, rows.cell(at, 2)));
    }
    !is_within(SESSION, rows.cell(at, 1))
}

/// The lists of a whole file, or its first fault.
pub(crate) fn read_listed(alloc: Global, rows: &Records) -> Result<ProductEntries, ProductRefusal>
    requires { length rows.now + 1 < 2 ^ 32 }
    ensures lists { IfOk result (λ l. l ≡ lists_before rows.now (length rows.now)) }
    ensures limits { IfOk result AreProductRows }
    ensures some { IfOk result (λ l. 0 < length l.sessions) }
    ensures long { OnOk result (4 < length rows.now) }
    ensures fault { IfErr result (IsRefusalOf (fault_of rows.now)) }
    ensures valid { OnOk result (fault_of rows.now ≡ None) }
{
    let mut listed = ProductEntries::new(alloc);
    for at in 0..rows.len() {
        if let Some(why) = listed.fault_at(rows, at) {
            return Err(ProductRefusal::Fault {
                row: at as u32 + 1,
                why,
            });
        }
        listed.push(rows, at)?;
    }
    if listed.sessions.is_empty() {
        return Err(ProductRefusal::Fault {
            row: rows.len() as u32 + 1,
            why: ProductWhy::Missing,
        });
    }
    Ok(listed)
}
