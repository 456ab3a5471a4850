//! How the datagrams of acts grow.

ghost use Rattle.std.specs.Prelude.{◌≡◌, ◌+◌, ℕ, List, [], ◌∷◌, ◌++◌, map, Some};
ghost use Rattle.t7_base.specs.declared.ids.Channel.{Channel};
ghost use Rattle.t7_base.specs.declared.ids.Channel.TheVariants as channel;
ghost use Rattle.t7_base.specs.declared.ids.Feed.{Feed};
ghost use Rattle.t7_eobi.specs.declared.walks.Snap.{Snap};
ghost use Rattle.t7_book.specs.Acts.{Accepts, Act, Beats, Snaps, commands_of};
ghost use Rattle.t7_book.specs.declared.command.Command.{Command};
ghost use Rattle.t7_packets.specs.Packing.{of_beat};
ghost use Rattle.t7_feed.specs.Arrivals.{Delivery, Terms, channel_of};
ghost use Rattle.t7_feed.specs.Sending.{Genuine, at_number, beats_in, last_of, sent_on, snap_datagram_bytes, snaps_in};
ghost use Rattle.t7_acts.specs.Left.{left_of, next_snaps};
ghost use Rattle.t7_acts.specs.Next.{datagrams_of, live_bytes, next_datagram};

use t7_entry::due_datagrams_are_live;

/// Before the first act nothing was sent, and no cycle is under way.
pub fn nothing_was_sent()
    ensures sent { (terms : Terms) (channel : Channel) → sent_on terms [] channel ≡ [] }
    ensures left { (terms : Terms) → left_of terms [] ≡ [] }
{}

/// Genuine deliveries stay genuine as the exchange goes on acting.
pub fn genuine_stays()
    ensures { (terms : Terms) (acts more : List Act) (dl : List Delivery) → Genuine terms acts dl → Genuine terms (acts ++ more) dl }
{}

/// A delivery of a datagram that was sent on its feed's channel is genuine, after genuine ones.
pub fn what_was_sent_is_genuine()
    ensures { (terms : Terms) (acts : List Act) (dl : List Delivery) (feed : Feed) (k : ℕ) (bytes : List ℕ)
        → at_number (sent_on terms acts (channel_of feed)) k ≡ Some bytes
        → Genuine terms acts dl → Genuine terms acts (record { feed = feed; bytes = bytes } ∷ dl) }
{}

/// Further accepted commands send their live datagrams, numbered behind those before them, and no snapshot datagram.
pub fn more_commands_send_more()
    ensures live { (terms : Terms) (acts : List Act) (cs : List Command) →
        sent_on terms (acts ++ map Accepts cs) channel.Live ≡ sent_on terms acts channel.Live ++ live_bytes terms (datagrams_of terms acts cs) }
    ensures snap { (terms : Terms) (acts : List Act) (cs : List Command) →
        sent_on terms (acts ++ map Accepts cs) channel.Snap ≡ sent_on terms acts channel.Snap }
    ensures commands { (acts : List Act) (cs : List Command) → commands_of (acts ++ map Accepts cs) ≡ commands_of acts ++ cs }
    ensures left { (terms : Terms) (acts : List Act) (cs : List Command) → left_of terms (acts ++ map Accepts cs) ≡ left_of terms acts }
    ensures beats { (acts : List Act) (cs : List Command) → beats_in (acts ++ map Accepts cs) ≡ beats_in acts }
    ensures snaps { (acts : List Act) (cs : List Command) → snaps_in (acts ++ map Accepts cs) ≡ snaps_in acts }
{
    due_datagrams_are_live();
}

/// A heartbeat sends one more live datagram, which names the last message.
pub fn a_heartbeat_sends_one_more()
    ensures live { (terms : Terms) (acts : List Act) →
        sent_on terms (acts ++ Beats ∷ []) channel.Live
        ≡ sent_on terms acts channel.Live
        ++ live_bytes terms (of_beat (next_datagram terms acts channel.Live) (last_of terms.listing (commands_of acts)) ∷ []) }
    ensures snap { (terms : Terms) (acts : List Act) → sent_on terms (acts ++ Beats ∷ []) channel.Snap ≡ sent_on terms acts channel.Snap }
    ensures commands { (acts : List Act) → commands_of (acts ++ Beats ∷ []) ≡ commands_of acts }
    ensures left { (terms : Terms) (acts : List Act) → left_of terms (acts ++ Beats ∷ []) ≡ left_of terms acts }
    ensures beats { (acts : List Act) → beats_in (acts ++ Beats ∷ []) ≡ beats_in acts + 1 }
    ensures snaps { (acts : List Act) → snaps_in (acts ++ Beats ∷ []) ≡ snaps_in acts }
{}

/// A snapshot datagram that is sent is the first of what is left of the cycle under way, or of a new one, and leaves the others. There is always one.
pub fn a_snapshot_sends_one_more()
    ensures live { (terms : Terms) (acts : List Act) → sent_on terms (acts ++ Snaps ∷ []) channel.Live ≡ sent_on terms acts channel.Live }
    ensures snap { (terms : Terms) (acts : List Act) (items : List Snap) (rest : List (List Snap)) → next_snaps terms acts ≡ items ∷ rest →
        sent_on terms (acts ++ Snaps ∷ []) channel.Snap
        ≡ sent_on terms acts channel.Snap ++ snap_datagram_bytes terms (next_datagram terms acts channel.Snap) items ∷ [] }
    ensures commands { (acts : List Act) → commands_of (acts ++ Snaps ∷ []) ≡ commands_of acts }
    ensures left { (terms : Terms) (acts : List Act) (items : List Snap) (rest : List (List Snap)) → next_snaps terms acts ≡ items ∷ rest →
        left_of terms (acts ++ Snaps ∷ []) ≡ rest }
    ensures beats { (acts : List Act) → beats_in (acts ++ Snaps ∷ []) ≡ beats_in acts }
    ensures snaps { (acts : List Act) → snaps_in (acts ++ Snaps ∷ []) ≡ snaps_in acts + 1 }
    ensures some { (terms : Terms) (acts : List Act) → (items : List Snap) × (rest : List (List Snap)) × (next_snaps terms acts ≡ items ∷ rest) }
{}
