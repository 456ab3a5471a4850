//! What is wrong with bytes that are no datagram of a channel.

ghost use Rattle.std.specs.Prelude.{◌≡◌, ◌≤◌, ◌<◌, ◌+◌, ◌^◌, true, false, Some, None, length};
ghost use Rattle.std.specs.Option.{option_map_or};
ghost use Rattle.t7_layout.specs.declared.words.Family.TheVariants.{Eobi};
ghost use Rattle.t7_layout.specs.declared.roles.Role.TheVariants as role;
ghost use Rattle.t7_layout.specs.Roles.{family_of};
ghost use Rattle.t7_eobi.specs.Datagrams.{body_of};
ghost use Rattle.t7_eobi.specs.Faults.{fault_from, fault_of, fields_fault, has_room, header_fault, is_header, message_fault, names_product, role_fault, why_text};
ghost use Rattle.t7_eobi.specs.Ranges.{IsSound};

use crate::messages::{has_room, read, role_of, split};
use crate::ranges::{counted, says_all};
use crate::records::number;
use crate::roles::{in_channel, is_header};
use t7_base::{Channel, MOST_DATAGRAM};
use t7_fields::Fields;
use t7_layout::{FieldName, Role, Table};
use thiserror::Error;

/// Why a datagram is refused.
#[derive(Clone, Copy, Debug, PartialEq, Eq)]
pub enum PacketWhy {
    /// It has more than 1,472 bytes.
    TooLong,
    /// A message is cut: fewer than 8 bytes are left, or its BodyLen is below 8 or over what is left.
    Cut,
    /// The first message is not of PacketHeader's template.
    NoHeader,
    /// A message of a role is shorter than its template.
    Length,
    /// A required field of a message of the channel's roles is null.
    Null,
    /// A field of a message of the channel's roles is out of its range.
    Value,
    /// The header's MarketSegmentID is not the product's.
    Product,
}

impl PacketWhy {
    /// The word for it: what a report prints of a datagram that is refused.
    pub fn text(self) -> &'static str
        ensures { result.now ≡ why_text self }
    {
        match self {
            PacketWhy::TooLong => "too long",
            PacketWhy::Cut => "cut",
            PacketWhy::NoHeader => "no header",
            PacketWhy::Length => "length",
            PacketWhy::Null => "null",
            PacketWhy::Value => "value",
            PacketWhy::Product => "product",
        }
    }
}

/// The first fault of a datagram from the front. The place is that of the message in fault, in bytes from 0; that of
/// `TooLong` is 1,472.
#[derive(Clone, Copy, Debug, PartialEq, Eq, Error)]
#[error("{text} {place}", text = .why.text())]
pub struct PacketFault {
    pub why: PacketWhy,
    pub place: usize,
}

// The first test that the fields of a message fail. Most messages fail none, which one look at each field shows.
fn fields_fault(m: &Fields<'_>) -> Option<PacketWhy>
    ensures { result ≡ fields_fault m.now }
{
    if says_all(m, counted(m.role())) {
        return None;
    }
    if m.first_unset(counted(m.role())).is_some() {
        return Some(PacketWhy::Null);
    }
    Some(PacketWhy::Value)
}

// Whether a header names a product.
fn names_product(m: &Fields<'_>, segment: u32) -> bool
    requires role { m.now.role ≡ role.PacketHeader }
    requires sound { IsSound m.now }
    ensures { result ≡ names_product segment m.now }
{
    number(m, FieldName::MarketSegmentID) == segment as i64
}

// The first test that the message at place 0 fails.
fn header_fault(table: &Table, segment: u32, message: &[u8]) -> Option<PacketWhy>
    requires said { body_of message.now ≡ length message.now }
    requires long { 8 ≤ length message.now }
    ensures { result ≡ header_fault table.now segment message.now }
{
    if !is_header(role_of(table, message)) {
        return Some(PacketWhy::NoHeader);
    }
    if !has_room(table, Role::PacketHeader, message) {
        return Some(PacketWhy::Length);
    }
    let m = read(table, Role::PacketHeader, message);
    if let Some(why) = fields_fault(&m) {
        return Some(why);
    }
    if names_product(&m, segment) {
        None
    } else {
        Some(PacketWhy::Product)
    }
}

// The first test that a message of a role fails behind the header.
fn role_fault(table: &Table, channel: Channel, role: Role, message: &[u8]) -> Option<PacketWhy>
    requires said { body_of message.now ≡ length message.now }
    requires family { family_of role ≡ Eobi }
    ensures { result ≡ role_fault table.now channel role message.now }
{
    if !has_room(table, role, message) {
        return Some(PacketWhy::Length);
    }
    if in_channel(channel, role) {
        fields_fault(&read(table, role, message))
    } else {
        None
    }
}

// The first test that a message fails behind the header.
fn message_fault(table: &Table, channel: Channel, message: &[u8]) -> Option<PacketWhy>
    requires said { body_of message.now ≡ length message.now }
    requires long { 8 ≤ length message.now }
    ensures { result ≡ message_fault table.now channel message.now }
{
    match role_of(table, message) {
        Some(role) => role_fault(table, channel, role, message),
        None => None,
    }
}

// The first fault behind the header, from a place on.
fn fault_from(table: &Table, channel: Channel, start: usize, bytes: &[u8]) -> Option<PacketFault>
    requires { start + length bytes.now < 2 ^ 63 }
    ensures { result ≡ fault_from table.now channel start 0 bytes.now }
{
    let mut place = start;
    let mut rest = bytes;
    while !rest.is_empty() {
        let (message, after) = match split(rest) {
            Some(parts) => parts,
            None => {
                return Some(PacketFault {
                    why: PacketWhy::Cut,
                    place,
                });
            }
        };
        if let Some(why) = message_fault(table, channel, message) {
            return Some(PacketFault { why, place });
        }
        place += message.len();
        rest = after;
    }
    None
}

/// The first fault of bytes that are read as a datagram.
pub(crate) fn fault_of(
    table: &Table,
    segment: u32,
    channel: Channel,
    bytes: &[u8],
) -> Option<PacketFault>
    ensures { result ≡ fault_of (record { layouts = table.now; segment = segment; channel = channel }) bytes.now }
{
    if bytes.len() > MOST_DATAGRAM {
        return Some(PacketFault {
            why: PacketWhy::TooLong,
            place: MOST_DATAGRAM,
        });
    }
    let (header, rest) = match split(bytes) {
        Some(parts) => parts,
        None => {
            return Some(PacketFault {
                why: PacketWhy::Cut,
                place: 0,
            });
        }
    };
    if let Some(why) = header_fault(table, segment, header) {
        return Some(PacketFault { why, place: 0 });
    }
    fault_from(table, channel, header.len(), rest)
}
