//! Laws of the book, each as the contract of a function that does nothing.

ghost use Rattle.std.specs.Prelude.{List, ◌*◌, ◌≤◌, length};
ghost use Rattle.std.specs.List.{All};
ghost use Rattle.t7_base.specs.Listing.{Listing};
ghost use Rattle.t7_book.specs.declared.command.Command.{Command};
ghost use Rattle.t7_book.specs.About.{IsAbout, IsLeft};
ghost use Rattle.t7_book.specs.Orders.{empty_book, roster_of};
ghost use Rattle.t7_book.specs.Steps.{messages};
ghost use Rattle.t7_book.specs.Trace.{AreAccepted, book_left, trace};
ghost use Rattle.t7_book.specs.Laws.{TracesGrow, AllTradeInTurn, MarketsAreBooks, TradesLeaveBooks, CommandsAddTheirSteps, CommandsAreShort};

/// Commands that follow change neither a message that was given nor the book after it.
pub fn traces_grow()
    ensures { TracesGrow }
{}

/// The trades of an incoming order are the trade with the first crossing order of the book, for the smaller of the two
/// quantities left and at the resting order's price, followed by the trades of what that leaves.
pub fn orders_trade_in_turn()
    ensures { AllTradeInTurn }
{}

/// The book after each message of accepted commands stands in the order of the book, each order once and under an id of its
/// own, at most 20,000 in all and 10,000 of one security, and what is left of an order is its total less what was executed.
pub fn markets_are_books()
    ensures { MarketsAreBooks }
{}

/// A day's accepted commands give at most four messages each, all in all.
pub fn messages_are_few()
    ensures { (listing : Listing) (cs : List Command) → AreAccepted listing cs → length (trace listing cs) ≤ 4 * length cs }
{}

/// Each message of accepted commands is one that a book gives, about a security of the product.
pub fn messages_are_about_the_product()
    ensures { (listing : Listing) (cs : List Command) → AreAccepted listing cs → All (IsAbout listing.securities) (messages (trace listing cs)) }
{}

/// What is left of each order of the book that accepted commands leave is its total less what was executed, and the book has at
/// most 20,000 orders.
pub fn books_left_are_whole()
    ensures { (listing : Listing) (cs : List Command) → AreAccepted listing cs → IsLeft (book_left (empty_book (roster_of listing)) cs) }
{}

/// The trade of an incoming order with the first order that it crosses leaves such a book again, so the law of trades holds of
/// what is left.
pub fn trades_leave_books()
    ensures { TradesLeaveBooks }
{}

/// A command more gives the steps that the book left gives for it, behind those of the commands before it, and leaves what the
/// book left becomes by it. With it the commands are accepted exactly where those before it are, it is for the product, the
/// book left doesn't refuse it, and the day has room for it.
pub fn commands_add_their_steps()
    ensures { CommandsAddTheirSteps }
{}

/// An accepted command gives at most 10,002 messages and at most 9,999 notes.
pub fn commands_are_short()
    ensures { CommandsAreShort }
{}
