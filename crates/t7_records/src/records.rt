//! The records of a text of comma-separated cells.

ghost use Rattle.std.specs.Prelude.{◌≡◌, ◌<◌, IfOk, length};
ghost use Rattle.t7_records.specs.Records.{cell, record_at, records_of};

use csv::{ByteRecord, ErrorKind, ReaderBuilder};
use std::alloc::{AllocError, Global};
use std::marker::Model;

/// The records of a text, in order.
#[derive(Drop)]
pub struct Records {
    rows: Vec<ByteRecord>,
}

impl Model for Records {
    ghost use Rattle.std.specs.Prelude.{List, map, ℕ};
    ghost use Rattle.csv.specs.Records.{fields_of};

    ghost Value = { List (List (List ℕ)) };

    ghost view = { λ a. map fields_of a.rows.items };
}

impl Records {
    /// Every record of a text. Records of any length are allowed, and none is a header.
    pub fn read(alloc: Global, bytes: &[u8]) -> Result<Records, AllocError>
        ensures { IfOk result (λ r. r ≡ records_of bytes.now) }
    {
        let rdr = ReaderBuilder::new()
            .has_headers(false)
            .flexible(true)
            .from_reader(alloc, bytes);
        let mut rows = Vec::new(alloc);
        for row in rdr.into_byte_records() {
            match row {
                Ok(row) => rows.push(row)?,
                Err(e) => {
                    match e.into_kind() {
                        ErrorKind::OutOfMemory | ErrorKind::Io(_) => return Err(AllocError),
                        _ => unreachable!(),
                    }
                }
            }
        }
        Ok(Records { rows })
    }

    /// How many there are.
    pub fn len(&self) -> usize
        ensures { result ≡ length self.now }
    {
        self.rows.len()
    }

    /// How many cells a record has.
    pub fn width(&self, row: usize) -> usize
        requires { row < length self.now }
        ensures { result ≡ length (record_at self.now row) }
    {
        self.rows[row].len()
    }

    /// A cell of a record, which is empty where the record ends before it.
    pub fn cell(&self, row: usize, at: usize) -> &[u8]
        requires { row < length self.now }
        ensures { result.now ≡ cell (record_at self.now row) at }
    {
        match self.rows[row].get(at) {
            Some(found) => found,
            None => &[],
        }
    }
}
