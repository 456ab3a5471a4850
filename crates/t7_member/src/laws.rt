//! What always holds of a member that keeps what came.

ghost use Rattle.std.specs.Prelude.{◌≡◌, ◌≢◌, ◌≤◌, ◌⊎◌, ◌↔◌, IsTrue, ◌∷◌, ℕ, List, Some, None};
ghost use Rattle.t7_book.specs.Acts.{Act};
ghost use Rattle.t7_feed.specs.Arrivals.{AreTerms, Arrival, Came, channel_of, Delivery, EachMoment, Terms, Window, arrivals, known, reading_of};
ghost use Rattle.t7_feed.specs.Report.{Report};
ghost use Rattle.t7_feed.specs.Sending.{AreActs, Genuine};
ghost use Rattle.t7_feed.specs.Whole.{Supported};
ghost use Rattle.t7_feed.specs.declared.State.TheVariants as state;
ghost use Rattle.t7_member.specs.Keeping.{Image, Keeps};
ghost use Rattle.t7_member.specs.Fresh.{CountsFresh};
ghost use Rattle.t7_eobi.specs.Faults.{fault_of};
ghost use Rattle.t7_member.specs.Refusing.{Begins, StaysOrEnds};
ghost use Rattle.t7_member.specs.Steps.{Delivers};
ghost use Rattle.t7_member.specs.declared.standing.Refusal.{Refusal};
ghost use Rattle.t7_base.specs.declared.ids.Feed.{Feed};
ghost use Rattle.t7_member.specs.Shown.{HasMisfits, IsShownOf};
ghost use Rattle.t7_member.specs.Status.{shown_of, status_of};

/// On what an exchange sent, what a member shows is a report: its number is supported and is what is reached, its list is the exchange's
/// book beside it, and it is never below what a whole cycle and the messages that follow it support.
pub fn kept_is_reported()
    ensures { (terms : Terms) (acts : List Act) (member : Image) (dl : List Delivery) → AreTerms terms → AreActs terms.listing acts
        → Keeps terms acts member (arrivals terms dl) → Genuine terms acts dl
        → Report terms acts dl (status_of member.base member.refused member.known) (shown_of member.base member.list) }
{}

/// Whatever came: a number that is shown is supported, it is in sync exactly where it is the greatest known, and a missing message didn't
/// come or isn't in its window. Where nothing is shown, each whole cycle that came in its window, and stood at the refused number or above,
/// has orders that misfit.
pub fn what_is_shown_is_supported()
    ensures { (terms : Terms) (acts : List Act) (member : Image) (came : List Arrival) → Keeps terms acts member came
        → IsShownOf terms.listing came (status_of member.base member.refused member.known) }
{}

/// A refusal begins only with an accepted delivery. From the base and the list before it, or from the cycle that it adopts, the
/// messages of the next numbers fit in turn, each kept before or carried by the delivery, and the refused one misfits the list that they give.
///
/// It stays with each delivery, until one adopts a whole cycle at its number or above.
pub fn refusals_have_their_cause()
    ensures begins { (feed : Feed) (bytes : List ℕ) (old new : Image) → Delivers feed bytes old new → (q : Refusal) → new.refused ≡ Some q
        → (old.refused ≡ Some q) ⊎ Begins old new (channel_of feed) bytes q }
    ensures stays { (feed : Feed) (bytes : List ℕ) (old new : Image) → Delivers feed bytes old new → (q : Refusal) → old.base ≡ None
        → old.refused ≡ Some q → StaysOrEnds old new (channel_of feed) bytes q }
{}

/// On what an exchange sent, an accepted delivery counts as fresh exactly where one of its live messages is new when it comes, or where it is the
/// first snapshot datagram of its number and in its window.
pub fn what_is_fresh_is_new()
    ensures { (terms : Terms) (acts : List Act) (dl : List Delivery) (feed : Feed) (bytes : List ℕ) (old new : Image) → AreTerms terms
        → AreActs terms.listing acts → Keeps terms acts old (arrivals terms dl)
        → Genuine terms acts (record { feed = feed; bytes = bytes } ∷ dl) → fault_of (reading_of terms feed) bytes ≡ None
        → (d : Delivers feed bytes old new) → IsTrue d.fresh ↔ CountsFresh terms (channel_of feed) bytes (arrivals terms dl) }
{}
