//! What the messages of market data say.

ghost use Rattle.std.specs.Prelude.{◌≡◌, ◌<◌, ◌^◌, true, pos, nat_abs};
ghost use Rattle.t7_layout.specs.declared.words.Kind.TheVariants.{Unsigned, Signed};
ghost use Rattle.t7_layout.specs.Roles.{family_of, kind_of, width_in};
ghost use Rattle.t7_layout.specs.declared.roles.Role.TheVariants as role;
ghost use Rattle.t7_fields.specs.Messages.{is_among, value};
ghost use Rattle.t7_eobi.specs.Ranges.{IsSound, counted, range_of};
ghost use Rattle.t7_eobi.specs.declared.ranges.Range.TheVariants as range;
ghost use Rattle.t7_layout.specs.declared.roles.FieldName.TheVariants as name;
ghost use Rattle.t7_eobi.specs.Bytes.{IsSequence};
ghost use Rattle.t7_eobi.specs.Datagrams.{in_channel};
ghost use Rattle.t7_base.specs.declared.ids.Channel.TheVariants as channels;
ghost use Rattle.t7_eobi.specs.Records.{public_of, resting_of, side_of, snap_as};

use crate::walks::Snap;
use t7_base::{Price, Public, Qty, Resting, SecurityId, Side, Stamp};
use t7_fields::Fields;
use t7_layout::{FieldName, Role};

// The number of a signed field.
#[inline(always)]
pub(crate) fn number(m: &Fields<'_>, name: FieldName) -> i64
    requires there { is_among name (counted m.now.role) ≡ true }
    requires kind { kind_of name ≡ Signed }
    requires sound { IsSound m.now }
    ensures { result ≡ value m.now name }
{
    m.known_signed(name)
}

// The number of an unsigned field.
#[inline(always)]
fn natural(m: &Fields<'_>, name: FieldName) -> u64
    requires there { is_among name (counted m.now.role) ≡ true }
    requires kind { kind_of name ≡ Unsigned }
    requires sound { IsSound m.now }
    ensures value { pos result ≡ value m.now name }
    ensures small { result < 256 ^ width_in (family_of m.now.role) name }
{
    m.known_unsigned(name)
}

// The number of a message.
pub(crate) fn sequence_number(m: &Fields<'_>, name: FieldName) -> u32
    requires there { is_among name (counted m.now.role) ≡ true }
    requires kind { kind_of name ≡ Unsigned }
    requires range { range_of name ≡ range.Sequence }
    requires sound { IsSound m.now }
    ensures value { result ≡ nat_abs (value m.now name) }
    ensures in_range { IsSequence result }
{
    natural(m, name) as u32
}

// The number of the last message.
pub(crate) fn last_number(m: &Fields<'_>, name: FieldName) -> u32
    requires there { is_among name (counted m.now.role) ≡ true }
    requires kind { kind_of name ≡ Unsigned }
    requires range { range_of name ≡ range.Processed }
    requires sound { IsSound m.now }
    ensures { result ≡ nat_abs (value m.now name) }
{
    natural(m, name) as u32
}

// A count of two bytes.
fn half(m: &Fields<'_>, name: FieldName) -> u16
    requires there { is_among name (counted m.now.role) ≡ true }
    requires kind { kind_of name ≡ Unsigned }
    requires width { width_in (family_of m.now.role) name ≡ 2 }
    requires sound { IsSound m.now }
    ensures { result ≡ nat_abs (value m.now name) }
{
    natural(m, name) as u16
}

#[inline(always)]
fn price(m: &Fields<'_>, name: FieldName) -> Price
    requires there { is_among name (counted m.now.role) ≡ true }
    requires kind { kind_of name ≡ Signed }
    requires range { range_of name ≡ range.Price }
    requires sound { IsSound m.now }
    ensures { result ≡ value m.now name }
{
    Price::known(number(m, name))
}

#[inline(always)]
fn qty(m: &Fields<'_>, name: FieldName) -> Qty
    requires there { is_among name (counted m.now.role) ≡ true }
    requires kind { kind_of name ≡ Signed }
    requires range { range_of name ≡ range.Quantity }
    requires sound { IsSound m.now }
    ensures { result ≡ nat_abs (value m.now name) }
{
    Qty::known(number(m, name))
}

#[inline(always)]
fn stamp(m: &Fields<'_>, name: FieldName) -> Stamp
    requires there { is_among name (counted m.now.role) ≡ true }
    requires kind { kind_of name ≡ Unsigned }
    requires range { range_of name ≡ range.Stamp }
    requires sound { IsSound m.now }
    ensures { result ≡ nat_abs (value m.now name) }
{
    Stamp::known(natural(m, name))
}

#[inline(always)]
fn side(m: &Fields<'_>, name: FieldName) -> Side
    requires there { is_among name (counted m.now.role) ≡ true }
    requires kind { kind_of name ≡ Unsigned }
    requires sound { IsSound m.now }
    ensures { result ≡ side_of (value m.now name) }
{
    if natural(m, name) == 1 {
        Side::Buy
    } else {
        Side::Sell
    }
}

// The order that a message says.
#[inline(always)]
fn resting(m: &Fields<'_>) -> Resting
    requires security { is_among name.SecurityID (counted m.now.role) ≡ true }
    requires side { is_among name.Side (counted m.now.role) ≡ true }
    requires price { is_among name.Price (counted m.now.role) ≡ true }
    requires stamp { is_among name.TrdRegTSTimePriority (counted m.now.role) ≡ true }
    requires qty { is_among name.DisplayQty (counted m.now.role) ≡ true }
    requires sound { IsSound m.now }
    ensures { result ≡ resting_of m.now }
{
    Resting {
        security: SecurityId(number(m, FieldName::SecurityID)),
        side: side(m, FieldName::Side),
        price: price(m, FieldName::Price),
        stamp: stamp(m, FieldName::TrdRegTSTimePriority),
        qty: qty(m, FieldName::DisplayQty),
    }
}

/// The message of a live role.
#[inline(always)]
pub(crate) fn public(m: &Fields<'_>) -> Public
    requires sound { IsSound m.now }
    ensures { result ≡ public_of m.now }
{
    match m.role() {
        Role::OrderAdd => Public::Add { order: resting(m) },
        Role::OrderModify => Public::Modify {
            security: SecurityId(number(m, FieldName::SecurityID)),
            side: side(m, FieldName::Side),
            prev_stamp: stamp(m, FieldName::TrdRegTSPrevTimePriority),
            prev_price: price(m, FieldName::PrevPrice),
            prev_qty: qty(m, FieldName::PrevDisplayQty),
            stamp: stamp(m, FieldName::TrdRegTSTimePriority),
            price: price(m, FieldName::Price),
            qty: qty(m, FieldName::DisplayQty),
        },
        Role::OrderModifySamePriority => Public::SamePriority {
            security: SecurityId(number(m, FieldName::SecurityID)),
            side: side(m, FieldName::Side),
            stamp: stamp(m, FieldName::TrdRegTSTimePriority),
            price: price(m, FieldName::Price),
            prev_qty: qty(m, FieldName::PrevDisplayQty),
            qty: qty(m, FieldName::DisplayQty),
        },
        Role::OrderDelete => Public::Delete { order: resting(m) },
        Role::OrderMassDelete => Public::MassDelete {
            security: SecurityId(number(m, FieldName::SecurityID)),
        },
        Role::PartialOrderExecution => Public::Partial {
            security: SecurityId(number(m, FieldName::SecurityID)),
            side: side(m, FieldName::Side),
            stamp: stamp(m, FieldName::TrdRegTSTimePriority),
            price: price(m, FieldName::Price),
            last_qty: qty(m, FieldName::LastQty),
            last_price: price(m, FieldName::LastPx),
        },
        Role::FullOrderExecution => Public::Full {
            security: SecurityId(number(m, FieldName::SecurityID)),
            side: side(m, FieldName::Side),
            stamp: stamp(m, FieldName::TrdRegTSTimePriority),
            price: price(m, FieldName::Price),
            last_qty: qty(m, FieldName::LastQty),
            last_price: price(m, FieldName::LastPx),
        },
        Role::ExecutionSummary => Public::Summary {
            security: SecurityId(number(m, FieldName::SecurityID)),
            side: side(m, FieldName::AggressorSide),
            stamp: stamp(m, FieldName::AggressorTime),
            last_qty: qty(m, FieldName::LastQty),
            last_price: price(m, FieldName::LastPx),
        },
        _ => Public::Other,
    }
}

/// The item of a snapshot role.
pub(crate) fn snap(m: &Fields<'_>) -> Snap
    requires inside { in_channel channels.Snap m.now.role ≡ true }
    requires sound { IsSound m.now }
    ensures { result ≡ snap_as m.now.role m.now }
{
    match m.role() {
        Role::ProductSummary => Snap::Product(last_number(m, FieldName::LastMsgSeqNumProcessed)),
        Role::InstrumentSummary => Snap::Instrument {
            security: SecurityId(number(m, FieldName::SecurityID)),
            count: half(m, FieldName::TotNoOrders),
        },
        Role::SnapshotOrder => Snap::Order {
            side: side(m, FieldName::Side),
            price: price(m, FieldName::Price),
            stamp: stamp(m, FieldName::TrdRegTSTimePriority),
            qty: qty(m, FieldName::DisplayQty),
        },
        _ => unreachable!(),
    }
}

/// The number of a datagram, in its header.
pub(crate) fn packet_number(m: &Fields<'_>) -> u32
    requires role { m.now.role ≡ role.PacketHeader }
    requires sound { IsSound m.now }
    ensures value { result ≡ nat_abs (value m.now name.ApplSeqNum) }
    ensures in_range { IsSequence result }
{
    sequence_number(m, FieldName::ApplSeqNum)
}
