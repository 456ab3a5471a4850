//! What always holds of what is cast.
ghost use Rattle.std.specs.Prelude.{◌≡◌, List};
ghost use Rattle.t7_acts.specs.InStep.{setting_of};
ghost use Rattle.t7_base.specs.Outside.{Begins};
ghost use Rattle.t7_base.specs.declared.ids.Feed.{Feed};
ghost use Rattle.t7_book.specs.Acts.{commands_of};
ghost use Rattle.t7_feed.specs.Arrivals.{Terms, channel_of};
ghost use Rattle.t7_feed.specs.Sending.{Genuine, beats_in, sent_on, snaps_in};
ghost use Rattle.t7_net.specs.Lines.{Casting};
ghost use Rattle.t7_serve.specs.Casts.{cast_on, delivered};
ghost use Rattle.t7_serve.specs.Served.{Taking, done_by};

use t7_acts::{
    a_heartbeat_sends_one_more, a_snapshot_sends_one_more, days_stay_in_step,
    more_commands_send_more, nothing_was_sent,
};

/// What is cast on each feed by the events that were taken is, in its order, what the exchange's acts send on the feed's channel. So a member
/// that receives some of it is covered by what is proved of members.
pub fn casts_are_those_of_the_acts()
    ensures cast { (terms : Terms) (takings : List Taking) (feed : Feed) →
        cast_on feed (done_by terms takings).cast ≡ sent_on terms (done_by terms takings).acts (channel_of feed) }
    // Whatever of these datagrams is delivered is genuine: each is one that the acts send on its feed's channel.
    ensures genuine { (terms : Terms) (takings : List Taking) (cast : List Casting) → Begins cast (done_by terms takings).cast →
        Genuine terms (done_by terms takings).acts (delivered cast) }

    // The commands, the heartbeats and the snapshot datagrams of the acts are those of the exchange.
    ensures commands { (terms : Terms) (takings : List Taking) →
        commands_of (done_by terms takings).acts ≡ (done_by terms takings).venue.day.state.core.accepted }
    ensures beats { (terms : Terms) (takings : List Taking) → beats_in (done_by terms takings).acts ≡ (done_by terms takings).venue.day.beats }
    ensures snaps { (terms : Terms) (takings : List Taking) → snaps_in (done_by terms takings).acts ≡ (done_by terms takings).venue.day.snaps }
    ensures setting { (terms : Terms) (takings : List Taking) → (done_by terms takings).venue.day.setting ≡ setting_of terms }
{
    nothing_was_sent();
    days_stay_in_step();
    more_commands_send_more();
    a_heartbeat_sends_one_more();
    a_snapshot_sends_one_more();
}
