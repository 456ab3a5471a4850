//! The items of a datagram, read in place one by one.

ghost use Rattle.std.specs.Prelude.{◌≡◌, ◌≤◌, ◌<◌, [], ◌∷◌, Some, None, IfSome, IfNone, true, false, length, nat_abs};
ghost use Rattle.std.specs.List.{filter_map};
ghost use Rattle.t7_base.specs.declared.ids.Channel.TheVariants as channels;
ghost use Rattle.t7_layout.specs.declared.words.Family.TheVariants.{Eobi};
ghost use Rattle.t7_layout.specs.declared.roles.FieldName.TheVariants as name;
ghost use Rattle.t7_layout.specs.declared.roles.Role.TheVariants as role;
ghost use Rattle.t7_layout.specs.Roles.{family_of};
ghost use Rattle.t7_fields.specs.Messages.{value};
ghost use Rattle.t7_eobi.specs.Datagrams.{body_of, in_channel, live_as, live_of, lives_left, messages_of, other_of, snap_of, snaps_left};
ghost use Rattle.t7_eobi.specs.Faults.{fault_from, message_fault, role_fault};
ghost use Rattle.t7_eobi.specs.Ranges.{IsSound, is_live};

use crate::messages::{read, role_of, split_whole};
use crate::records::{last_number, public, sequence_number, snap};
use crate::roles::{in_channel, is_live};
use byteorder::{ByteOrder, LittleEndian};
use std::marker::Model;
use t7_base::{Channel, Price, Public, Qty, SecurityId, Side, Stamp};
use t7_fields::Fields;
use t7_layout::{FieldName, Role, Table};

/// An item of the live channel.
#[derive(Clone, Copy, Debug, PartialEq, Eq)]
pub enum Live {
    /// A message with its number, MsgSeqNum: 1 to 4,294,967,294. One of no live role is `Other`.
    Message(u32, Public),
    /// A heartbeat, with the number of the last message: 0 to 4,294,967,294.
    Beat(u32),
}

/// An item of the snapshot channel.
#[derive(Clone, Copy, Debug, PartialEq, Eq)]
pub enum Snap {
    /// A cycle begins: the number of the last live message that the snapshot knows, 0 to 4,294,967,294.
    Product(u32),
    /// A security begins, with the count of its orders.
    Instrument {
        security: SecurityId,
        count: u16,
    },
    /// An order of the security that began last.
    Order {
        side: Side,
        price: Price,
        stamp: Stamp,
        qty: Qty,
    },
}

// A message of no role of the live channel.
fn other_of(message: &[u8]) -> Option<Live>
    requires { 8 ≤ length message.now }
    ensures { result ≡ other_of message.now }
{
    let number = LittleEndian::read_u32(message.split_at(4).1);
    if number >= 1 && number <= 4_294_967_294 {
        Some(Live::Message(number, Public::Other))
    } else {
        None
    }
}

// A message of a role of a channel, where it fails no test.
fn sound<'a>(table: &'a Table, channel: Channel, role: Role, message: &'a [u8]) -> Fields<'a>
    requires said { body_of message.now ≡ length message.now }
    requires family { family_of role ≡ Eobi }
    requires inside { in_channel channel role ≡ true }
    requires fault { role_fault table.now channel role message.now ≡ None }
    ensures message { result ≡ record { layouts = table.now; role = role; bytes = message.now } }
    ensures sound { IsSound result }
{
    read(table, role, message)
}

// The number of a live message.
#[inline(always)]
fn live_number(m: &Fields<'_>) -> u32
    requires live { is_live m.now.role ≡ true }
    requires sound { IsSound m.now }
    ensures { result ≡ nat_abs (value m.now name.MsgSeqNum) }
{
    sequence_number(m, FieldName::MsgSeqNum)
}

// The number in a heartbeat.
fn beat_number(m: &Fields<'_>) -> u32
    requires role { m.now.role ≡ role.EobiHeartbeat }
    requires sound { IsSound m.now }
    ensures { result ≡ nat_abs (value m.now name.LastMsgSeqNumProcessed) }
{
    last_number(m, FieldName::LastMsgSeqNumProcessed)
}

// What a message of a role says on the live channel.
#[inline(always)]
fn live_as(table: &Table, role: Role, message: &[u8]) -> Option<Live>
    requires said { body_of message.now ≡ length message.now }
    requires long { 8 ≤ length message.now }
    requires family { family_of role ≡ Eobi }
    requires fault { role_fault table.now channels.Live role message.now ≡ None }
    ensures { result ≡ live_as table.now role message.now }
{
    if is_live(role) {
        let m = sound(table, Channel::Live, role, message);
        return Some(Live::Message(live_number(&m), public(&m)));
    }
    if in_channel(Channel::Live, role) {
        let m = sound(table, Channel::Live, role, message);
        return Some(Live::Beat(beat_number(&m)));
    }
    other_of(message)
}

// What a message says on the live channel.
#[inline(always)]
fn live_of(table: &Table, message: &[u8]) -> Option<Live>
    requires said { body_of message.now ≡ length message.now }
    requires long { 8 ≤ length message.now }
    requires fault { message_fault table.now channels.Live message.now ≡ None }
    ensures { result ≡ live_of table.now message.now }
{
    match role_of(table, message) {
        Some(role) => live_as(table, role, message),
        None => other_of(message),
    }
}

// What a message says on the snapshot channel.
fn snap_of(table: &Table, message: &[u8]) -> Option<Snap>
    requires said { body_of message.now ≡ length message.now }
    requires long { 8 ≤ length message.now }
    requires fault { message_fault table.now channels.Snap message.now ≡ None }
    ensures { result ≡ snap_of table.now message.now }
{
    let role = role_of(table, message)?;
    if in_channel(Channel::Snap, role) {
        Some(snap(&sound(table, Channel::Snap, role, message)))
    } else {
        None
    }
}

// The next item of live bytes, and the bytes behind its message.
#[inline(always)]
fn next_live<'a>(table: &Table, bytes: &'a [u8]) -> Option<(Live, &'a [u8])>
    requires { fault_from table.now channels.Live 0 0 bytes.now ≡ None }
    ensures none { IfNone result (filter_map (live_of table.now) (messages_of bytes.now) ≡ []) }
    ensures item { IfSome result (λ r. filter_map (live_of table.now) (messages_of bytes.now) ≡ r.0 ∷ filter_map (live_of table.now) (messages_of r.1.now)) }
    ensures sound { IfSome result (λ r. fault_from table.now channels.Live 0 0 r.1.now ≡ None) }
{
    let mut rest = bytes;
    while !rest.is_empty() {
        let (message, after) = split_whole(rest);
        let item = live_of(table, message);
        rest = after;
        if let Some(item) = item {
            return Some((item, rest));
        }
    }
    None
}

// The next item of snapshot bytes, and the bytes behind its message.
fn next_snap<'a>(table: &Table, bytes: &'a [u8]) -> Option<(Snap, &'a [u8])>
    requires { fault_from table.now channels.Snap 0 0 bytes.now ≡ None }
    ensures none { IfNone result (filter_map (snap_of table.now) (messages_of bytes.now) ≡ []) }
    ensures item { IfSome result (λ r. filter_map (snap_of table.now) (messages_of bytes.now) ≡ r.0 ∷ filter_map (snap_of table.now) (messages_of r.1.now)) }
    ensures sound { IfSome result (λ r. fault_from table.now channels.Snap 0 0 r.1.now ≡ None) }
{
    let mut rest = bytes;
    while !rest.is_empty() {
        let (message, after) = split_whole(rest);
        let item = snap_of(table, message);
        rest = after;
        if let Some(item) = item {
            return Some((item, rest));
        }
    }
    None
}

/// The items of a live datagram that are left, each read in place when it is asked for.
#[derive(Drop)]
pub struct LiveWalk<'a> {
    table: &'a Table,
    rest: &'a [u8],
}

impl<'a> Model for LiveWalk<'a> {
    ghost use Rattle.std.specs.Prelude.{◌≡◌, None};
    ghost use Rattle.t7_base.specs.declared.ids.Channel.TheVariants as channels;
    ghost use Rattle.t7_eobi.specs.Datagrams.{Walk};
    ghost use Rattle.t7_eobi.specs.Faults.{fault_from};

    ghost Value = { Walk };

    ghost view = { λ w. record { layouts = w.table.now; rest = w.rest.now } };

    ghost invariant = { λ w. fault_from w.table.now channels.Live 0 0 w.rest.now ≡ None };
}

impl<'a> LiveWalk<'a> {
    /// The items of bytes behind a header.
    pub(crate) fn new(table: &'a Table, rest: &'a [u8]) -> LiveWalk<'a>
        requires { fault_from table.now channels.Live 0 0 rest.now ≡ None }
        ensures { result ≡ record { layouts = table.now; rest = rest.now } }
    {
        LiveWalk { table, rest }
    }
}

impl<'a> Iterator for LiveWalk<'a> {
    type Item = Live;

    ghost use Rattle.std.specs.Iterator.{YieldsFirst, item_count};
    ghost use Rattle.t7_eobi.specs.Datagrams.{lives_left};

    ghost next_gives = { YieldsFirst lives_left };

    ghost remaining = { item_count lives_left };

    fn next(&mut self) -> Option<Live> {
        match next_live(self.table, self.rest) {
            Some((item, rest)) => {
                self.rest = rest;
                Some(item)
            }
            None => None,
        }
    }
}

/// The items of a snapshot datagram that are left, each read in place when it is asked for.
#[derive(Drop)]
pub struct SnapWalk<'a> {
    table: &'a Table,
    rest: &'a [u8],
}

impl<'a> Model for SnapWalk<'a> {
    ghost use Rattle.std.specs.Prelude.{◌≡◌, None};
    ghost use Rattle.t7_base.specs.declared.ids.Channel.TheVariants as channels;
    ghost use Rattle.t7_eobi.specs.Datagrams.{Walk};
    ghost use Rattle.t7_eobi.specs.Faults.{fault_from};

    ghost Value = { Walk };

    ghost view = { λ w. record { layouts = w.table.now; rest = w.rest.now } };

    ghost invariant = { λ w. fault_from w.table.now channels.Snap 0 0 w.rest.now ≡ None };
}

impl<'a> SnapWalk<'a> {
    /// The items of bytes behind a header.
    pub(crate) fn new(table: &'a Table, rest: &'a [u8]) -> SnapWalk<'a>
        requires { fault_from table.now channels.Snap 0 0 rest.now ≡ None }
        ensures { result ≡ record { layouts = table.now; rest = rest.now } }
    {
        SnapWalk { table, rest }
    }
}

impl<'a> Iterator for SnapWalk<'a> {
    type Item = Snap;

    ghost use Rattle.std.specs.Iterator.{YieldsFirst, item_count};
    ghost use Rattle.t7_eobi.specs.Datagrams.{snaps_left};

    ghost next_gives = { YieldsFirst snaps_left };

    ghost remaining = { item_count snaps_left };

    fn next(&mut self) -> Option<Snap> {
        match next_snap(self.table, self.rest) {
            Some((item, rest)) => {
                self.rest = rest;
                Some(item)
            }
            None => None,
        }
    }
}
