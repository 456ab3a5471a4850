//! The families of rows with their ids and their names: what no later template may have again.

ghost use Rattle.std.specs.Prelude.{◌≡◌, ◌<◌, ◌+◌, ◌&&◌, [], OnOk, length, take};
ghost use Rattle.std.specs.List.{list_any};
ghost use Rattle.t7_records.specs.Records.{cell, record_at};
ghost use Rattle.t7_layout.specs.Pairs.{ArePairs, HoldsRows};
ghost use Rattle.t7_layout.specs.Rows.{same_cell};

use std::alloc::{AllocError, Global};
use std::collections::HashSet;
use t7_records::Records;

/// Pairs of a family and another cell.
type Pairs<'a> = HashSet<(&'a [u8], &'a [u8])>;

/// What is kept of the rows that were passed: their families with their ids, and their families with their names.
#[derive(Drop)]
pub(crate) struct Passed<'a> {
    ids: Pairs<'a>,
    names: Pairs<'a>,
}

// A row's family and another of its cells.
fn pair<'a>(rows: &'a Records, at: usize, place: usize) -> (&'a [u8], &'a [u8])
    requires { at < length rows.now }
    ensures family { result.0.now ≡ cell (record_at rows.now at) 0 }
    ensures other { result.1.now ≡ cell (record_at rows.now at) place }
{
    (rows.cell(at, 0), rows.cell(at, place))
}

// Adds the pair of a row.
fn add<'a>(
    pairs: &mut Pairs<'a>,
    rows: &'a Records,
    at: usize,
    place: usize,
) -> Result<(), AllocError>
    requires inside { at < length rows.now }
    requires passed { ArePairs place (take at rows.now) pairs.old }
    ensures { OnOk result (ArePairs place (take (at + 1) rows.now) pairs.new) }
{
    pairs.insert(pair(rows, at, place))?;
    Ok(())
}

// Whether an earlier row is of the same family and has another cell in common.
fn has<'a>(pairs: &Pairs<'a>, rows: &'a Records, at: usize, place: usize) -> bool
    requires inside { at < length rows.now }
    requires passed { ArePairs place (take at rows.now) pairs.now }
    ensures { result ≡ list_any (λ earlier. same_cell 0 earlier (record_at rows.now at) && same_cell place earlier (record_at rows.now at)) (take at rows.now) }
{
    pairs.contains(&pair(rows, at, place))
}

impl<'a> Passed<'a> {
    /// No row.
    pub(crate) fn new(alloc: Global) -> Passed<'a>
        ensures { HoldsRows [] result }
    {
        Passed {
            ids: HashSet::new(alloc),
            names: HashSet::new(alloc),
        }
    }

    /// One row more.
    pub(crate) fn pass(&mut self, rows: &'a Records, at: usize) -> Result<(), AllocError>
        requires inside { at < length rows.now }
        requires passed { HoldsRows (take at rows.now) self.old }
        ensures { OnOk result (HoldsRows (take (at + 1) rows.now) self.new) }
    {
        add(&mut self.ids, rows, at, 1)?;
        add(&mut self.names, rows, at, 2)
    }

    /// Whether an earlier row is of the same family and has the same id.
    pub(crate) fn has_id(&self, rows: &'a Records, at: usize) -> bool
        requires inside { at < length rows.now }
        requires passed { HoldsRows (take at rows.now) self.now }
        ensures { result ≡ list_any (λ earlier. same_cell 0 earlier (record_at rows.now at) && same_cell 1 earlier (record_at rows.now at)) (take at rows.now) }
    {
        has(&self.ids, rows, at, 1)
    }

    /// Whether an earlier row is of the same family and has the same name.
    pub(crate) fn has_name(&self, rows: &'a Records, at: usize) -> bool
        requires inside { at < length rows.now }
        requires passed { HoldsRows (take at rows.now) self.now }
        ensures { result ≡ list_any (λ earlier. same_cell 0 earlier (record_at rows.now at) && same_cell 2 earlier (record_at rows.now at)) (take at rows.now) }
    {
        has(&self.names, rows, at, 2)
    }
}
