//! Laws of the definitions.

ghost use Rattle.std.specs.Prelude.{◌≡◌, ◌≢◌, ◌↔◌, ◌++◌, List, ℕ, All, None, Some};
ghost use Rattle.std.specs.List.{concat};
ghost use Rattle.t7_base.specs.FirstFault.{AreSound, IsFirstFault};
ghost use Rattle.t7_base.specs.Memory.{FilesState, HasRoomFor, NoPutFails, NoTakeFails, SinkState, after_puts, after_takes, more};
ghost use Rattle.t7_base.specs.Outside.{file_of};
ghost use Rattle.t7_base.specs.ProductFile.{ProductFault, fault_of};
ghost use Rattle.t7_records.specs.Records.{Record};

/// The fault of a product file is that of its least record with a failing test, and there the first failing test; where no
/// record fails, it is that a session is missing. A file has none exactly where no record fails a test and a session is there.
pub fn the_first_fault_is_told()
    ensures fault { (rows : List Record) (fault : ProductFault) → (fault_of rows ≡ Some fault) ↔ IsFirstFault rows fault }
    ensures valid { (rows : List Record) → (fault_of rows ≡ None) ↔ AreSound rows }
{}

/// A sink in memory with room for these pieces, of whose puts none is one of the calls that fail, takes them all: no put
/// fails, it tells them behind what it told, and its count of faults stays.
pub fn puts_within_the_room_are_told()
    ensures never_fails { (sink : SinkState) (pieces : List (List ℕ))
        → HasRoomFor sink.calls sink.bytes sink.made sink.failing pieces → NoPutFails sink pieces }
    ensures told { (sink : SinkState) (pieces : List (List ℕ))
        → HasRoomFor sink.calls sink.bytes sink.made sink.failing pieces
        → (after_puts sink pieces).written ≡ more sink.written (concat pieces) }
    ensures count { (sink : SinkState) (pieces : List (List ℕ))
        → HasRoomFor sink.calls sink.bytes sink.made sink.failing pieces → (after_puts sink pieces).faults ≡ sink.faults }
{}

/// Files in memory with room for these names, each that of a file, of whose takes none is one of the calls that fail, take
/// them all: no take fails, they tell the names behind those that they told, and their count of faults stays.
pub fn takes_within_the_room_are_told()
    ensures never_fails { (files : FilesState) (names : List (List ℕ))
        → HasRoomFor files.asked.calls files.asked.bytes files.made files.failing names
        → All (λ name. file_of name files.held ≢ None) names → NoTakeFails files names }
    ensures told { (files : FilesState) (names : List (List ℕ))
        → HasRoomFor files.asked.calls files.asked.bytes files.made files.failing names
        → All (λ name. file_of name files.held ≢ None) names
        → (after_takes files names).asked.pieces ≡ more files.asked.pieces names }
    ensures count { (files : FilesState) (names : List (List ℕ))
        → HasRoomFor files.asked.calls files.asked.bytes files.made files.failing names
        → All (λ name. file_of name files.held ≢ None) names → (after_takes files names).faults ≡ files.faults }
{}
