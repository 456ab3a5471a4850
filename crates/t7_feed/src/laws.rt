//! What always holds of what came.

ghost use Rattle.std.specs.Prelude.{◌≡◌, ◌≤◌, ℕ, ℤ, List, [], ◌∷◌, Option, Some};
ghost use Rattle.t7_base.specs.Listing.{Listing};
ghost use Rattle.t7_book.specs.Acts.{Act, commands_of};
ghost use Rattle.t7_book.specs.Steps.{messages};
ghost use Rattle.t7_feed.specs.Arrivals.{AreTerms, Arrival, Delivery, Terms, arrivals};
ghost use Rattle.t7_feed.specs.Cycles.{AreOneCycle, Run, Section, orders_of};
ghost use Rattle.t7_eobi.specs.declared.walks.Snap.{Snap};
ghost use Rattle.t7_feed.specs.Examples.{StandsAt, again_as_the_next, ahead_of_the_book};
ghost use Rattle.t7_feed.specs.Examples.{filled_in_the_window, found_on_the_other};
ghost use Rattle.t7_feed.specs.Examples.{lost_on_one_line, missing_by_a_heartbeat};
ghost use Rattle.t7_feed.specs.Examples.{next_outside_the_window, nothing_missing};
ghost use Rattle.t7_feed.specs.Examples.{outside_before_the_snapshot};
ghost use Rattle.t7_feed.specs.Fitting.{staged};
ghost use Rattle.t7_feed.specs.Growing.{Grows};
ghost use Rattle.t7_feed.specs.Reached.{Reaches};
ghost use Rattle.t7_feed.specs.Report.{IsNeverBelow, ReportsAreOne};
ghost use Rattle.t7_feed.specs.Sending.{AreActs, AreSayable, AreSent, Genuine, book_at};
ghost use Rattle.t7_feed.specs.Whole.{Whole};
ghost use Rattle.t7_feed.specs.Words.{CameIsCarried, FirstIsFirst, KnownIsGreatest, PacketWindowIsNoneAbove, WindowIsNoneAbove};

/// One thing is reached, or nothing.
pub fn reached_is_one()
    ensures { (listing : Listing) (came : List Arrival) (r s : Option ℕ) → Reaches listing came r → Reaches listing came s → r ≡ s }
{}

/// What is reached is never below what a whole cycle and the messages that follow it support, where they came within the windows.
pub fn reached_is_never_below()
    ensures { (listing : Listing) (came : List Arrival) (r : Option ℕ) → Reaches listing came r → IsNeverBelow listing r came }
{}

/// Two whole cycles with a datagram in both are one, from the first datagram to the last.
pub fn cycles_are_one()
    ensures { (securities : List ℤ) (at : ℕ → Option (List Snap)) (i m p q n r s : ℕ) (parts others : List Section)
        → Run securities at m p q parts → Run securities at n r s others
        → p ≤ i → i ≤ q → r ≤ i → i ≤ s → AreOneCycle m n p r q s parts others }
{}

/// What genuine deliveries bring was sent: each message under its number, and each snapshot datagram under its number. Acts whose commands were
/// accepted, with fields in their ranges, send datagrams that are read again as what they were written for.
pub fn genuine_deliveries_are_sent()
    ensures said { (terms : Terms) (acts : List Act) → AreTerms terms → AreActs terms.listing acts → AreSayable terms acts }
    ensures sent { (terms : Terms) (acts : List Act) (dl : List Delivery) → AreTerms terms → AreActs terms.listing acts
        → Genuine terms acts dl → AreSent terms acts (arrivals terms dl) }
{}

/// The orders of a whole cycle of genuine datagrams fit, one after another, and give the exchange's book beside the cycle's number.
pub fn genuine_cycles_are_books()
    ensures { (terms : Terms) (acts : List Act) (dl : List Delivery) (m p q : ℕ) (parts : List Section) → AreTerms terms
        → AreActs terms.listing acts → Genuine terms acts dl
        → Whole terms.listing (arrivals terms dl) m p q parts
        → staged terms.listing.securities (orders_of parts) [] ≡ Some (book_at terms.listing (commands_of acts) m) }
{}

/// What came, its windows, what is known of it and the first of a number are what the words of deliveries say.
pub fn what_came_in_words()
    ensures came { CameIsCarried }
    ensures window { WindowIsNoneAbove }
    ensures packet_window { PacketWindowIsNoneAbove }
    ensures known { KnownIsGreatest }
    ensures first { FirstIsFirst }
{}

/// What came stays so as more is delivered: windows only close, and all else only grows.
pub fn what_came_only_grows()
    ensures { (terms : Terms) (delivery : Delivery) (dl : List Delivery) → Grows terms.listing (arrivals terms dl) (arrivals terms (delivery ∷ dl)) }
{}

/// A report determines the state and the list.
pub fn reports_are_one()
    ensures { ReportsAreOne }
{}

/// Short deliveries: a message lost on one line and found on the other, messages ahead of the book and outside the window, and a heartbeat.
pub fn short_deliveries()
    ensures lost { StandsAt lost_on_one_line 1 3 }
    ensures found { StandsAt found_on_the_other 3 3 }
    ensures ahead { StandsAt ahead_of_the_book 2 6 }
    ensures filled { StandsAt filled_in_the_window 6 6 }
    ensures next_outside { StandsAt next_outside_the_window 7 7 }
    ensures outside_before { StandsAt outside_before_the_snapshot 2 7 }
    ensures again { StandsAt again_as_the_next 7 7 }
    ensures complete { StandsAt nothing_missing 4 4 }
    ensures beaten { StandsAt missing_by_a_heartbeat 4 5 }
{}
