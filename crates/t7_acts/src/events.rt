//! What an event adds to a day.

ghost use Rattle.std.specs.Prelude.{◌≡◌, ℕ, ◌+◌, List, [], ◌∷◌, ◌++◌, length, map};
ghost use Rattle.t7_base.specs.declared.ids.Channel.TheVariants as channel;
ghost use Rattle.t7_book.specs.Acts.{Accepts, Act, Beats, Snaps};
ghost use Rattle.t7_greedy.specs.Cuts.{joined};
ghost use Rattle.t7_entry.specs.Days.{Day, Ships, day_after, due, due_from, first_of, last_of, new_day, told_by, told_in};
ghost use Rattle.t7_entry.specs.State.{Setting, State, book_of};
ghost use Rattle.t7_entry.specs.Events.{Event, happens};
ghost use Rattle.t7_packets.specs.Packing.{Datagram, datagram_bytes, of_beat};
ghost use Rattle.t7_feed.specs.Arrivals.{Terms};
ghost use Rattle.t7_feed.specs.Sending.{sent_on};
ghost use Rattle.t7_acts.specs.Added.{Adds, added_by};
ghost use Rattle.t7_acts.specs.InStep.{IsInStep, setting_of};
ghost use Rattle.t7_acts.specs.Next.{datagrams_of};

use crate::sending::{
    a_heartbeat_sends_one_more, a_snapshot_sends_one_more, more_commands_send_more,
};
use t7_base::Public;
use t7_greedy::greedy_cuts_are_one;

/// An event only adds commands to the accepted ones, and tells the messages of each command that it adds.
pub fn events_only_add()
    ensures { (setting : Setting) (state : State) (event : Event) → let result = happens setting state event in
        Adds setting state.core.accepted result.state.core.accepted result.doings (added_by setting state event) }
{}

/// An event adds as many messages to a day as it tells. Where all messages were sent before it, the first that isn't sent follows the last one
/// before it, and the messages of the commands that it adds are due.
pub fn an_event_tells_its_messages()
    ensures last { (day : Day) (event : Event) →
        last_of (day_after day event) ≡ last_of day + length (joined (told_in (happens day.setting day.state event).doings)) }
    ensures first { (day : Day) (event : Event) → day.untold ≡ [] → first_of (day_after day event) ≡ last_of day + 1 }
    ensures due { (day : Day) (event : Event) → day.untold ≡ [] →
        due (day_after day event)
        ≡ due_from day.setting.layouts day.setting.listing.datagram (day.live + 1) (last_of day + 1)
        (told_by (book_of day.setting day.state.core.accepted) (added_by day.setting day.state event)) }
{
    events_only_add();
}

/// Where all messages of a day that is in step with acts were sent, what is due after an event is what accepting its commands sends after these acts.
pub fn what_is_due_is_what_acts_send()
    ensures { (terms : Terms) (acts : List Act) (day : Day) (put : List (List ℕ)) (event : Event) → IsInStep terms acts day put → day.untold ≡ [] →
        due (day_after day event) ≡ datagrams_of terms acts (added_by day.setting day.state event) }
{
    an_event_tells_its_messages();
}

/// A day begins in step with no acts, and stays in step: an event accepts the commands that it adds, a datagram that is sent was due, and a heartbeat
/// may be sent where nothing is due. Where nothing is due, what was put is what the acts send.
pub fn days_stay_in_step()
    ensures begin { (terms : Terms) → IsInStep terms [] (new_day (setting_of terms)) [] }
    ensures event { (terms : Terms) (acts : List Act) (day : Day) (put : List (List ℕ)) (event : Event) → IsInStep terms acts day put →
        IsInStep terms (acts ++ map Accepts (added_by day.setting day.state event)) (day_after day event) put }
    ensures sent { (terms : Terms) (acts : List Act) (old new : Day) (put : List (List ℕ)) (datagram : Datagram) → IsInStep terms acts old put →
        Ships old new datagram → IsInStep terms acts new (put ++ datagram_bytes terms.layouts terms.listing.segment datagram ∷ []) }
    ensures beat { (terms : Terms) (acts : List Act) (day : Day) (put : List (List ℕ)) → IsInStep terms acts day put → day.untold ≡ [] →
        IsInStep terms (acts ++ Beats ∷ []) (record day { live = day.live + 1; beats = day.beats + 1 })
        (put ++ datagram_bytes terms.layouts terms.listing.segment (of_beat (day.live + 1) (last_of day)) ∷ []) }
    ensures snap { (terms : Terms) (acts : List Act) (day : Day) (put : List (List ℕ)) → IsInStep terms acts day put →
        IsInStep terms (acts ++ Snaps ∷ []) day put }
    ensures all { (terms : Terms) (acts : List Act) (day : Day) (put : List (List ℕ)) → IsInStep terms acts day put → day.untold ≡ [] →
        put ≡ sent_on terms acts channel.Live }
{
    greedy_cuts_are_one::<Public>();
    events_only_add();
    more_commands_send_more();
    a_heartbeat_sends_one_more();
    a_snapshot_sends_one_more();
}
