//! Order entry as a machine over events: what an exchange accepts, stores and sends, whatever the pieces in which its connections' bytes come.
#![tactic(auto)]

ghost use Rattle.std.specs.Prelude.{◌≡◌, ℕ, List, ◌∷◌, ◌++◌, ◌+◌, ◌≤◌, length, map, Contains};
ghost use Rattle.t7_base.specs.Listing.{IsListing, Listing};
ghost use Rattle.t7_book.specs.Trace.{AreAccepted, book_left, market, trace};
ghost use Rattle.std.specs.List.{All, concat};
ghost use Rattle.t7_entry.specs.State.{Core, Setting, State, start};
ghost use Rattle.t7_layout.specs.Layouts.{Layout};
ghost use Rattle.t7_book.specs.declared.command.Command.{Command};
ghost use Rattle.t7_book.specs.Commands.{IsForProduct};
ghost use Rattle.t7_book.specs.Steps.{notes_of};
ghost use Rattle.t7_orders.specs.Answers.{answers_of, stored};
ghost use Rattle.t7_entry.specs.Tellable.{CanBeTold, IsTellable};
ghost use Rattle.t7_entry.specs.Answered.{AreFor};
ghost use Rattle.t7_book.specs.Laws.{Each};
ghost use Rattle.t7_book.specs.Orders.{BookState, empty_book, roster_of};
ghost use Rattle.t7_book.specs.Acts.{Accepts};
ghost use Rattle.t7_packets.specs.Datagrams.{live_from};
ghost use Rattle.t7_entry.specs.Days.{due_from, told_by};
ghost use Rattle.t7_entry.specs.Treatment.{treat};
ghost use Rattle.t7_entry.specs.Events.{Bytes, Event, happens, pieces_at, run};
ghost use Rattle.t7_entry.specs.Entries.{AllNameEntries};

/// Pieces of a connection's bytes that come one after another at one moment act as their concatenation, however the bytes
/// were cut: from any state, and so within a day.
pub fn any_cutting()
    ensures pieces { (setting : Setting) (state : State) (conn moment : ℕ) (piece : List ℕ) (pieces : List (List ℕ)) →
        run setting (pieces_at conn moment (piece ∷ pieces)) state ≡ happens setting state (Bytes conn (piece ++ concat pieces) moment) }
    ensures within { (setting : Setting) (before end : List Event) (conn moment : ℕ) (piece : List ℕ) (pieces : List (List ℕ)) →
        run setting (before ++ (pieces_at conn moment (piece ∷ pieces) ++ end)) start
        ≡ run setting (before ++ Bytes conn (piece ++ concat pieces) moment ∷ end) start }
{}

/// The recoverable responses that the treatment of a frame sends, in answer to it or again, are entries of the lists of stored responses
/// after it, each under its number, on connections that hold their sessions.
pub fn responses_are_entries()
    ensures { (setting : Setting) (moment conn : ℕ) (frame : List ℕ) (core : Core) →
        let outcome = treat setting moment conn frame core in AllNameEntries setting.listing core outcome.core.accepted outcome.doings }
{}

/// The datagrams that are due of commands, from a book on, are the live datagrams of accepting them.
pub fn due_datagrams_are_live()
    ensures { (layouts : List Layout) (limit : ℕ) (book : BookState) (number first : ℕ) (cs : List Command) →
        live_from layouts limit book number first (map Accepts cs) ≡ due_from layouts limit number first (told_by book cs) }
{}

/// Each order of the book that a day's accepted commands leave is owned by a session of the product.
pub fn owners_are_sessions()
    ensures { (listing : Listing) (cs : List Command) → AreAccepted listing cs
        → Each (λ y. Contains listing.sessions y.owner) (book_left (empty_book (roster_of listing)) cs).orders }
{}

/// The responses of a command for the product are for sessions of the product, where the owners of the orders are; and its
/// notes are no more than the orders and the sessions.
pub fn responses_are_for_sessions()
    ensures sessions { (book : BookState) (c : Command) → IsForProduct book.roster c → Each (λ y. Contains book.roster.sessions y.owner) book.orders
        → AreFor book.roster.sessions (answers_of book c) }
    ensures notes { (book : BookState) (c : Command) → length (notes_of book c) ≤ length book.orders + length book.roster.sessions }
{}

/// The stored responses of accepted commands may be written by every table, where the moments, the prices and the ClOrdIDs of the
/// commands are in their ranges.
pub fn responses_may_be_written()
    ensures { (listing : Listing) (cs : List Command) → IsListing listing → AreAccepted listing cs → All IsTellable cs → All CanBeTold (stored listing cs) }
{}

/// The book behind the last message of commands is the book that they leave.
pub fn last_markets_are_books()
    ensures { (listing : Listing) (cs : List Command) → market listing cs (length (trace listing cs)) ≡ (book_left (empty_book (roster_of listing)) cs).orders }
{}
