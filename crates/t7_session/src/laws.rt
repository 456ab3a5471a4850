//! A law of the tests on a frame, as the contract of a function that does nothing.

ghost use Rattle.t7_session.specs.Tests.{FirstFailingIsTold};

/// What stands at the front of a connection's bytes is refused for a reason exactly where that is the reason of the first of
/// its tests that fails, in the order of the table of tests; it asks a request exactly where all of them pass and its frame
/// reads as that request.
pub fn the_first_failing_test_is_told()
    ensures { FirstFailingIsTold }
{}
