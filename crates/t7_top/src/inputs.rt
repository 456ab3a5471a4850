//! The layout table and the product file that a command names.
ghost use Rattle.std.specs.Prelude.{◌≡◌, None, IfOk, IfErr, OnOk};
ghost use Rattle.t7_base.specs.ProductFile.{fault_of as product_fault_of, product_of};
ghost use Rattle.t7_layout.specs.Faults.{fault_of};
ghost use Rattle.t7_layout.specs.Tables.{table_of};
ghost use Rattle.t7_records.specs.Records.{records_of};
ghost use Rattle.t7_top.specs.Refusals.{RefusesProduct, RefusesTable};

use std::alloc::Global;
use t7_base::{Product, ProductRefusal};
use t7_layout::{Table, TableRefusal};
use t7_outcome::Stop;

/// The table of the file's bytes. It is refused exactly where a row has a fault, with the first, or where memory runs out.
pub fn read_table(alloc: Global, bytes: &[u8]) -> Result<Table, Stop>
    ensures table { IfOk result (λ t. t ≡ table_of (records_of bytes.now)) }
    ensures valid { OnOk result (fault_of (records_of bytes.now) ≡ None) }
    ensures refused { IfErr result (RefusesTable (fault_of (records_of bytes.now))) }
{
    match Table::read(alloc, bytes) {
        Ok(table) => Ok(table),
        Err(TableRefusal::Fault(fault)) => Err(Stop::Layout(fault)),
        Err(TableRefusal::Memory) => Err(Stop::Memory),
    }
}

/// The product of the file's bytes. It is refused exactly where a row has a fault, with the first, or where memory runs out.
pub fn read_product(alloc: Global, bytes: &[u8]) -> Result<Product, Stop>
    ensures product { IfOk result (λ p. p ≡ product_of (records_of bytes.now)) }
    ensures valid { OnOk result (product_fault_of (records_of bytes.now) ≡ None) }
    ensures refused { IfErr result (RefusesProduct (product_fault_of (records_of bytes.now))) }
{
    match Product::read(alloc, bytes) {
        Ok(product) => Ok(product),
        Err(ProductRefusal::Fault { row, why }) => Err(Stop::Product { row, why }),
        Err(ProductRefusal::Memory) => Err(Stop::Memory),
    }
}
