//! Laws of the definitions.

ghost use Rattle.std.specs.Prelude.{◌≡◌, ◌↔◌, List, Some};
ghost use Rattle.t7_records.specs.Records.{Record};
ghost use Rattle.t7_layout.specs.declared.words.TableFault.{TableFault};
ghost use Rattle.t7_layout.specs.Faults.{IsValid, fault_of};
ghost use Rattle.t7_layout.specs.FirstFault.{AreSound, IsFirstFault};

/// The fault of a table is that of its least row with a failing test, and there the first failing test; where no row
/// fails, it is that a role is missing. A table has none exactly where no row fails a test and each role is there.
pub fn the_first_fault_is_told()
    ensures fault { (rows : List Record) (fault : TableFault) → (fault_of rows ≡ Some fault) ↔ IsFirstFault rows fault }
    ensures valid { (rows : List Record) → IsValid rows ↔ AreSound rows }
{}
