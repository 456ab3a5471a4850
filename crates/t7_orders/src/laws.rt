//! Laws of the tests and of the responses, each as the contract of a function that does nothing.

ghost use Rattle.t7_orders.specs.Laws.{CommandsAreTaken, FirstFailingIsTold, NumberedFromOne, ResponsesGrow};

/// An order request is refused for a reason exactly where that is the reason of the first of its tests that fails, in the
/// order of the table of tests; it is a command exactly where all of them pass.
pub fn the_first_failing_test_is_told()
    ensures { FirstFailingIsTold }
{}

/// The book takes the command of an order request that one of the product's sessions makes: its security and its session
/// are the product's, and no test of the book fails.
pub fn commands_are_taken()
    ensures { CommandsAreTaken }
{}

/// When commands follow, the responses of a session only grow, at their end.
pub fn responses_grow()
    ensures { ResponsesGrow }
{}

/// Each session's responses are numbered from 1, one after another.
pub fn responses_are_numbered_from_one()
    ensures { NumberedFromOne }
{}
