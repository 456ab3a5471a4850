//! What always holds of datagrams and of what is written.

ghost use Rattle.std.specs.Prelude.{◌≡◌, ◌≤◌, ◌↔◌, ◌++◌, ◌∷◌, List, ℕ, None, Some, length};
ghost use Rattle.std.specs.List.{All, concat, filter_map};
ghost use Rattle.t7_base.specs.declared.ids.Channel.TheVariants as channels;
ghost use Rattle.t7_base.specs.declared.public.Public.{Public};
ghost use Rattle.t7_layout.specs.Layouts.{Layout};
ghost use Rattle.t7_layout.specs.Lookups.{IsTable};
ghost use Rattle.t7_eobi.specs.declared.walks.Live.{Live};
ghost use Rattle.t7_eobi.specs.declared.walks.Live.TheVariants as items;
ghost use Rattle.t7_eobi.specs.declared.walks.Snap.{Snap};
ghost use Rattle.t7_eobi.specs.Bytes.{IsLiveItem, IsPublic, IsSequence, IsSnap, IsSnapItem, beat_bytes, header_bytes, public_bytes, snap_bytes};
ghost use Rattle.t7_eobi.specs.Datagrams.{live_of, lives_of, messages_of, snap_of, snaps_of};
ghost use Rattle.t7_eobi.specs.Faults.{Reading, fault_of};
ghost use Rattle.t7_eobi.specs.FirstFault.{IsFirstFault};
ghost use Rattle.t7_eobi.specs.declared.faults.PacketFault.{PacketFault};
ghost use Rattle.t7_eobi.specs.Grammar.{IsDatagram};
ghost use Rattle.t7_eobi.specs.Said.{ReadsLive, ReadsSnap, SayLives, SaySnaps, SaysHeader, SaysLive, SaysSnap};

/// Bytes have no fault exactly where they are a datagram of some messages: whole ones one after another, of which the first is
/// a header of the product. There is one list of such messages, and those behind the header are what the walks give, in order: each
/// item that one of them says.
pub fn datagrams_are_messages_behind_a_header()
    ensures faultless { (x : Reading) (bytes : List ℕ) → (fault_of x bytes ≡ None) ↔ ((messages : List (List ℕ)) × IsDatagram x bytes messages) }
    ensures one { (x : Reading) (bytes : List ℕ) (messages : List (List ℕ)) → IsDatagram x bytes messages → messages ≡ messages_of bytes }
    ensures live { (x : Reading) (bytes header : List ℕ) (others : List (List ℕ)) → IsDatagram x bytes (header ∷ others)
        → lives_of x.layouts bytes ≡ filter_map (live_of x.layouts) others }
    ensures snap { (x : Reading) (bytes header : List ℕ) (others : List (List ℕ)) → IsDatagram x bytes (header ∷ others)
        → snaps_of x.layouts bytes ≡ filter_map (snap_of x.layouts) others }
{}

/// The fault of bytes is the first one in the words of the grammar: sound messages stand before its place, and what stands there fails
/// the test; or the bytes are too long. So there is one at most.
pub fn the_first_fault_is_told()
    ensures { (x : Reading) (bytes : List ℕ) (fault : PacketFault) → (fault_of x bytes ≡ Some fault) ↔ IsFirstFault x bytes fault }
{}

/// What is written by a valid table says what it was written for: a header its number, a message its item.
pub fn what_is_written_is_said()
    ensures header { (layouts : List Layout) (segment count : ℕ) → IsTable layouts → 1 ≤ segment → segment ≤ 2_147_483_647 → IsSequence count → SaysHeader layouts segment count (header_bytes layouts segment count) }
    ensures message { (layouts : List Layout) (number : ℕ) (message : Public) → IsTable layouts → IsSequence number → IsPublic message → SaysLive layouts (items.Message number message) (public_bytes layouts number message) }
    ensures beat { (layouts : List Layout) (last : ℕ) → IsTable layouts → last ≤ 4_294_967_294 → SaysLive layouts (items.Beat last) (beat_bytes layouts last) }
    ensures snap { (layouts : List Layout) (item : Snap) → IsTable layouts → IsSnap item → SaysSnap layouts item (snap_bytes layouts item) }
{}

/// A header followed by messages that say items is read as a datagram with the header's number and those items, where it has at
/// most 1,472 bytes.
pub fn datagrams_read_again()
    ensures live { (layouts : List Layout) (segment count : ℕ) (items : List Live) (header : List ℕ) (messages : List (List ℕ)) → SaysHeader layouts segment count header → SayLives layouts items messages
        → length (header ++ concat messages) ≤ 1472 → ReadsLive layouts segment count items (header ++ concat messages) }
    ensures snap { (layouts : List Layout) (segment count : ℕ) (items : List Snap) (header : List ℕ) (messages : List (List ℕ)) → SaysHeader layouts segment count header → SaySnaps layouts items messages
        → length (header ++ concat messages) ≤ 1472 → ReadsSnap layouts segment count items (header ++ concat messages) }
{}

/// The numbers of the items of a datagram are in their ranges: those of live messages, and those of last messages in heartbeats
/// and snapshots.
pub fn items_are_in_their_ranges()
    ensures live { (x : Reading) (bytes : List ℕ) → fault_of x bytes ≡ None → x.channel ≡ channels.Live → All IsLiveItem (lives_of x.layouts bytes) }
    ensures snap { (x : Reading) (bytes : List ℕ) → fault_of x bytes ≡ None → x.channel ≡ channels.Snap → All IsSnapItem (snaps_of x.layouts bytes) }
{}
