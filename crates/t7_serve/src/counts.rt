//! How many bytes came on each open connection.
ghost use Rattle.std.specs.Prelude.{◌≡◌, OnOk, unwrap_or};
ghost use Rattle.t7_entry.specs.ByNumber as map;

use std::alloc::{AllocError, Global};
use std::collections::BTreeMap;
use std::marker::Model;

/// How many bytes came on each open connection since it was opened. Contracts see it by the numbers of the connections.
#[derive(Drop)]
pub(crate) struct Counts {
    counts: BTreeMap<u32, usize>,
}

impl Model for Counts {
    ghost use Rattle.std.specs.Prelude.{ℕ};
    ghost use Rattle.t7_entry.specs.ByNumber.{ByNumber, Rises};

    ghost Value = { ByNumber ℕ };

    ghost view = { λ a. a.counts.entries };

    ghost invariant = { λ a. Rises a.counts.entries };
}

impl Counts {
    /// None is open.
    pub(crate) fn new(alloc: Global) -> Counts
        ensures { result ≡ map.empty }
    {
        Counts {
            counts: BTreeMap::new(alloc),
        }
    }

    /// The count of a connection, 0 where it has none.
    pub(crate) fn get(&self, conn: u32) -> usize
        ensures { result ≡ unwrap_or (map.get self.now conn) 0 }
    {
        match self.counts.get(&conn) {
            Some(count) => *count,
            None => 0,
        }
    }

    /// A connection has this count from now on. An error comes only where memory is wanting.
    pub(crate) fn set(&mut self, conn: u32, count: usize) -> Result<(), AllocError>
        ensures { OnOk result (self.new ≡ map.insert self.old conn count) }
    {
        self.counts.insert(conn, count)?;
        Ok(())
    }

    /// A connection has no count from now on.
    pub(crate) fn remove(&mut self, conn: u32)
        ensures { self.new ≡ map.remove self.old conn }
    {
        self.counts.remove(&conn);
    }
}
