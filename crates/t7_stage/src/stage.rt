//! What a network and a clock in memory are to give, as comma-separated records: one event, receipt, moment or failing call a row.
ghost use Rattle.std.specs.Prelude.{◌<◌, length};

use std::alloc::{AllocError, Global};
use t7_base::{Feed, Moment, Octets};
use t7_net::{LineItem, LinkItem};
use t7_records::{Records, decimal};

/// Why a stage can't be made.
#[derive(Clone, Copy, Debug, PartialEq, Eq)]
pub(crate) enum Flaw {
    /// Memory is wanting.
    Memory,
    /// This record, from 1, is none of those of a stage.
    Row(usize),
}

impl From<AllocError> for Flaw {
    fn from(_: AllocError) -> Flaw {
        Flaw::Memory
    }
}

/// What the network and the clock give, in order, and which of their calls fail, by their numbers from 1.
#[derive(Drop)]
pub(crate) struct Stage {
    pub events: Vec<LinkItem>,
    pub receipts: Vec<LineItem>,
    pub moments: Vec<Moment>,
    pub link_fails: Vec<u64>,
    pub lines_fail: Vec<u64>,
}

impl Stage {
    // Nothing comes, and no call fails.
    fn empty(alloc: Global) -> Stage {
        Stage {
            events: Vec::new(alloc),
            receipts: Vec::new(alloc),
            moments: Vec::new(alloc),
            link_fails: Vec::new(alloc),
            lines_fail: Vec::new(alloc),
        }
    }

    /// The stage of a text of records:
    ///
    /// - `opened,C`, `bytes,C,HEX`, `closed,C` and `quiet` are what the link gives, C a connection;
    /// - `datagram,FEED,HEX` and `silent` are what the lines give, FEED one of LA, LB, SA, SB;
    /// - `moment,N` is the clock's next; behind the last it stands still, and without one it stands at 0;
    /// - `link fails,N` and `lines fail,N` say that call N of the link or of the lines fails.
    pub(crate) fn read(alloc: Global, bytes: &[u8]) -> Result<Stage, Flaw> {
        let records = Records::read(alloc, bytes)?;
        let mut stage = Stage::empty(alloc);
        for row in 0..records.len() {
            if !stage.push(alloc, &records, row)? {
                return Err(Flaw::Row(row + 1));
            }
        }
        Ok(stage)
    }

    // Puts what a record says behind the rest; false where it says nothing of a stage.
    fn push(&mut self, alloc: Global, records: &Records, row: usize) -> Result<bool, AllocError>
        requires { row < length records.now }
    {
        let (kind, cell) = (records.cell(row, 0), records.cell(row, 1));
        if let Some(event) = event_of(alloc, kind, cell, records.cell(row, 2))? {
            self.events.push(event)?;
        } else if let Some(receipt) = receipt_of(alloc, kind, cell, records.cell(row, 2))? {
            self.receipts.push(receipt)?;
        } else if let Some(moment) = moment_of(kind, cell) {
            self.moments.push(moment)?;
        } else if let Some(call) = failing(b"link fails", kind, cell) {
            self.link_fails.push(call)?;
        } else if let Some(call) = failing(b"lines fail", kind, cell) {
            self.lines_fail.push(call)?;
        } else {
            return Ok(false);
        }
        Ok(true)
    }
}

// The event of the link that a record says.
fn event_of(
    alloc: Global,
    kind: &[u8],
    conn: &[u8],
    digits: &[u8],
) -> Result<Option<LinkItem>, AllocError> {
    if kind == b"quiet".as_slice() {
        return Ok(Some(LinkItem::Quiet));
    }
    let Some(conn) = decimal(conn, u32::MAX as u64) else {
        return Ok(None);
    };
    let conn = conn as u32;
    if kind == b"opened".as_slice() {
        Ok(Some(LinkItem::Opened(conn)))
    } else if kind == b"closed".as_slice() {
        Ok(Some(LinkItem::Closed(conn)))
    } else if kind == b"bytes".as_slice() {
        bytes_on(alloc, conn, digits)
    } else {
        Ok(None)
    }
}

// Bytes that come on a connection.
fn bytes_on(alloc: Global, conn: u32, digits: &[u8]) -> Result<Option<LinkItem>, AllocError> {
    match octets(alloc, digits)? {
        Some(bytes) => Ok(Some(LinkItem::Bytes(conn, bytes))),
        None => Ok(None),
    }
}

// The receipt of the lines that a record says.
fn receipt_of(
    alloc: Global,
    kind: &[u8],
    feed: &[u8],
    digits: &[u8],
) -> Result<Option<LineItem>, AllocError> {
    if kind == b"silent".as_slice() {
        return Ok(Some(LineItem::Quiet));
    }
    match (
        kind == b"datagram".as_slice(),
        feed_of(feed),
        octets(alloc, digits)?,
    ) {
        (true, Some(feed), Some(bytes)) => Ok(Some(LineItem::Datagram(feed, bytes))),
        _ => Ok(None),
    }
}

// The moment of the clock that a record says.
fn moment_of(kind: &[u8], cell: &[u8]) -> Option<Moment> {
    if kind == b"moment".as_slice() {
        Moment::new(decimal(cell, u64::MAX)?)
    } else {
        None
    }
}

// The number of a call that a record of this kind says to fail.
fn failing(wanted: &[u8], kind: &[u8], cell: &[u8]) -> Option<u64> {
    if kind == wanted {
        decimal(cell, u64::MAX)
    } else {
        None
    }
}

// A feed by its word.
fn feed_of(cell: &[u8]) -> Option<Feed> {
    if cell == b"LA".as_slice() {
        Some(Feed::LiveA)
    } else if cell == b"LB".as_slice() {
        Some(Feed::LiveB)
    } else if cell == b"SA".as_slice() {
        Some(Feed::SnapA)
    } else if cell == b"SB".as_slice() {
        Some(Feed::SnapB)
    } else {
        None
    }
}

// The bytes that hex digits spell.
fn octets(alloc: Global, digits: &[u8]) -> Result<Option<Octets>, AllocError> {
    match hex::decode(alloc, digits) {
        Ok(bytes) => Ok(Some(Octets::new(bytes))),
        Err(hex::FromHexError::OutOfMemory) => Err(AllocError),
        Err(_) => Ok(None),
    }
}
