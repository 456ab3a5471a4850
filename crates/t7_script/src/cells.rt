//! The cells of a line, and what each form of cell says.

ghost use Rattle.std.specs.Prelude.{◌≡◌, ◌<◌, ◌≤◌, ◌∷◌, Some, None, IfOk, IfSome, length, option_map};
ghost use Rattle.t7_script.specs.Cells as spec;
ghost use Rattle.t7_script.specs.Cells.{is_nothing};
ghost use Rattle.t7_script.specs.Inside.{cells_in};

use hex::FromHexError;
use std::alloc::{AllocError, Global};
use std::marker::Model;
use t7_base::{Feed, Moment, Octets, Price, Qty, SecurityId, SessionId, Side};
use t7_records::decimal;

/// The most hex digits of an `IN`: those of 65,536 bytes.
const MOST_DIGITS: usize = 131_072;

/// The cells that are left of a line: what stands behind the last space that was passed, or nothing.
#[derive(Drop)]
pub(crate) struct Cells<'a> {
    rest: Option<&'a [u8]>,
}

impl<'a> Model for Cells<'a> {
    ghost use Rattle.std.specs.Prelude.{List, ℕ, []};
    ghost use Rattle.std.specs.Option.{option_map_or};
    ghost use Rattle.t7_script.specs.Cells.{cells_of};

    ghost Value = { List (List ℕ) };

    ghost view = { λ a. option_map_or (λ r. cells_of r.now) a.rest [] };
}

/// The first cell of a line, and those behind it.
pub(crate) fn first_cell(line: &[u8]) -> (&[u8], Cells<'_>)
    ensures { spec.cells_of line.now ≡ result.0.now ∷ result.1 }
{
    for at in 0..line.len() {
        if line[at] == b' ' {
            return (
                &line[..at],
                Cells {
                    rest: Some(&line[at + 1..]),
                },
            );
        }
    }
    (line, Cells { rest: None })
}

impl<'a> Cells<'a> {
    /// Whether none is left.
    pub(crate) fn is_none(self) -> bool
        ensures { result ≡ is_nothing self.entry }
    {
        match self.rest {
            Some(_) => false,
            None => true,
        }
    }

    /// The cell that is left, where one alone is.
    pub(crate) fn one(self) -> Option<&'a [u8]>
        ensures { option_map (λ c. c.now) result ≡ spec.one_of self.entry }
    {
        match first_cell(self.rest?) {
            (cell, Cells { rest: None }) => Some(cell),
            (_, Cells { rest: Some(_) }) => None,
        }
    }

    /// The two cells that are left, where so many are.
    pub(crate) fn two(self) -> Option<(&'a [u8], &'a [u8])>
        ensures { option_map (λ p. (p.0.now, p.1.now)) result ≡ spec.two_of self.entry }
    {
        let (first, others) = first_cell(self.rest?);
        match others.one() {
            Some(second) => Some((first, second)),
            None => None,
        }
    }

    /// The five cells of an order that are left, where so many are.
    pub(crate) fn order(self) -> Option<OrderCells<'a>>
        ensures { option_map cells_in result ≡ spec.order_of self.entry }
    {
        let (security, others) = first_cell(self.rest?);
        let (side, others) = first_cell(others.rest?);
        let (price, others) = first_cell(others.rest?);
        match others.two() {
            Some((quantity, client)) => Some(OrderCells {
                security,
                side,
                price,
                quantity,
                client,
            }),
            None => None,
        }
    }
}

/// The cells of an order.
#[derive(Drop)]
pub(crate) struct OrderCells<'a> {
    pub security: &'a [u8],
    pub side: &'a [u8],
    pub price: &'a [u8],
    pub quantity: &'a [u8],
    pub client: &'a [u8],
}

/// A number from a least to a greatest.
pub(crate) fn number_within(cell: &[u8], least: u64, most: u64) -> Option<u64>
    ensures value { result ≡ spec.number_within least most cell.now }
    ensures least { IfSome result (λ n. least ≤ n) }
    ensures most { IfSome result (λ n. n ≤ most) }
{
    match decimal(cell, most) {
        Some(number) if number >= least => Some(number),
        _ => None,
    }
}

/// A number of 64 bits.
pub(crate) fn number(cell: &[u8]) -> Option<u64>
    ensures { result ≡ spec.number cell.now }
{
    number_within(cell, 0, u64::MAX)
}

/// The number of a connection.
pub(crate) fn connection(cell: &[u8]) -> Option<u32>
    ensures { result ≡ spec.connection cell.now }
{
    match number_within(cell, 1, 1_000) {
        Some(number) => Some(number as u32),
        None => None,
    }
}

/// A moment that isn't before the last one.
pub(crate) fn moment(cell: &[u8], last: Moment) -> Option<Moment>
    ensures { result ≡ spec.moment last cell.now }
{
    match number_within(cell, last.get(), (1 << 62) - 1) {
        Some(number) => Moment::new(number),
        None => None,
    }
}

// A security is one of these.
fn is_listed(security: SecurityId, listed: &[SecurityId]) -> bool
    ensures { result ≡ spec.is_listed listed.now security }
{
    listed.contains(&security)
}

/// A security that is one of these.
pub(crate) fn security(cell: &[u8], listed: &[SecurityId]) -> Option<SecurityId>
    ensures { result ≡ spec.security listed.now cell.now }
{
    match number_within(cell, 1, 1_000_000_000_000_000_000) {
        Some(number) => {
            let security = SecurityId(number as i64);
            if is_listed(security, listed) {
                Some(security)
            } else {
                None
            }
        }
        None => None,
    }
}

/// A session that is one of these.
pub(crate) fn session(cell: &[u8], listed: &[SessionId]) -> Option<SessionId>
    ensures { result ≡ spec.session listed.now cell.now }
{
    match number_within(cell, 1, 4_000_000_000) {
        Some(number) => {
            let session = SessionId(number as u32);
            if listed.contains(&session) {
                Some(session)
            } else {
                None
            }
        }
        None => None,
    }
}

/// A side, by its number.
pub(crate) fn side(cell: &[u8]) -> Option<Side>
    ensures { result ≡ spec.side cell.now }
{
    if cell == b"1".as_slice() {
        Some(Side::Buy)
    } else if cell == b"2".as_slice() {
        Some(Side::Sell)
    } else {
        None
    }
}

/// A price.
pub(crate) fn price(cell: &[u8]) -> Option<Price>
    ensures { result ≡ spec.price cell.now }
{
    match cell.strip_prefix(b"-".as_slice()) {
        Some(digits) => match number_within(digits, 1, 100_000_000_000_000_000) {
            Some(number) => Price::new(-(number as i64)),
            None => None,
        },
        None => match number_within(cell, 0, 100_000_000_000_000_000) {
            Some(number) => Price::new(number as i64),
            None => None,
        },
    }
}

/// A quantity.
pub(crate) fn quantity(cell: &[u8]) -> Option<Qty>
    ensures { result ≡ spec.quantity cell.now }
{
    match number_within(cell, 1, 1_000_000_000_000_000) {
        Some(number) => Qty::new(number as i64),
        None => None,
    }
}

/// A ClOrdID.
pub(crate) fn client(cell: &[u8]) -> Option<u64>
    ensures { result ≡ spec.client cell.now }
{
    number_within(cell, 0, u64::MAX - 1)
}

/// How many bytes; all of them, where it is `*`.
pub(crate) fn byte_count(cell: &[u8]) -> Option<Option<u64>>
    ensures { result ≡ spec.byte_count cell.now }
{
    if cell == b"*".as_slice() {
        return Some(None);
    }
    match number(cell) {
        Some(number) => Some(Some(number)),
        None => None,
    }
}

/// A feed, by its word.
pub(crate) fn feed(cell: &[u8]) -> Option<Feed>
    ensures { result ≡ spec.feed cell.now }
{
    if cell == b"LA".as_slice() {
        Some(Feed::LiveA)
    } else if cell == b"LB".as_slice() {
        Some(Feed::LiveB)
    } else if cell == b"SA".as_slice() {
        Some(Feed::SnapA)
    } else if cell == b"SB".as_slice() {
        Some(Feed::SnapB)
    } else {
        None
    }
}

/// The bytes that hex digits spell, where there is one at least. An error comes only where memory is wanting.
fn hex_bytes(alloc: Global, digits: &[u8]) -> Result<Option<Octets>, AllocError>
    ensures { IfOk result (λ bytes. bytes ≡ spec.hex digits.now) }
{
    if digits.is_empty() {
        return Ok(None);
    }
    match hex::decode(alloc, digits) {
        Ok(bytes) => Ok(Some(Octets::new(bytes))),
        Err(FromHexError::OutOfMemory) => Err(AllocError),
        Err(_) => Ok(None),
    }
}

/// The bytes of an `IN`. An error comes only where memory is wanting.
pub(crate) fn piece(alloc: Global, digits: &[u8]) -> Result<Option<Octets>, AllocError>
    ensures { IfOk result (λ bytes. bytes ≡ spec.piece digits.now) }
{
    if digits.len() > MOST_DIGITS {
        Ok(None)
    } else {
        hex_bytes(alloc, digits)
    }
}

/// The bytes of a forged datagram. An error comes only where memory is wanting.
pub(crate) fn forged(alloc: Global, cell: &[u8]) -> Result<Option<Octets>, AllocError>
    ensures { IfOk result (λ bytes. bytes ≡ spec.forged cell.now) }
{
    if cell == b"-".as_slice() {
        return Ok(Some(Octets::new(Vec::new(alloc))));
    }
    hex_bytes(alloc, cell)
}
