//! A law of ranges, as the contract of a function that does nothing.

ghost use Rattle.t7_recover.specs.Ranges.{RangesAreSlices};

/// A range has the responses with the numbers above `after` up to the least of `upto`, the last number and `after + 500`,
/// in order.
pub fn ranges_are_slices()
    ensures { RangesAreSlices }
{}
