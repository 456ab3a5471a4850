//! The header of a datagram and its messages, written.

ghost use Rattle.std.specs.Prelude.{◌≡◌, ◌≢◌, ◌≤◌, ◌++◌, IfSome, length, drop};
ghost use Rattle.t7_base.specs.declared.public.Public.TheVariants as public;
ghost use Rattle.t7_layout.specs.declared.roles.Role.TheVariants as role;
ghost use Rattle.t7_layout.specs.Lookups.{IsTable, find_role};
ghost use Rattle.t7_fields.specs.Writing.{AreSaid, SaysSoFar, role_size};
ghost use Rattle.t7_eobi.specs.declared.walks.Live.TheVariants as items;
ghost use Rattle.t7_eobi.specs.declared.walks.Snap.TheVariants as snaps;
ghost use Rattle.t7_eobi.specs.Bytes.{IsKnown, IsPublic, IsResting, IsSecurity, IsSequence, IsSnap, beat_bytes, execution_fields, header_bytes, order_fields, public_bytes, public_fields, role_for, security_of, side_number, snap_bytes, snap_fields, snap_role};
ghost use Rattle.t7_eobi.specs.Said.{SaysHeader, SaysLive, SaysSnap};
ghost use Rattle.t7_eobi.specs.Sizes.{message_size, snap_size};

use crate::walks::Snap;
use t7_base::{Price, Public, Qty, Resting, SecurityId, Side, Stamp};
use t7_fields::{Scalar, begin, say};
use t7_layout::{FieldName, Role, Table};

// The number of a side.
fn side_number(side: Side) -> u8
    ensures { result ≡ side_number side }
{
    match side {
        Side::Buy => 1,
        Side::Sell => 2,
    }
}

// Writes an order.
fn write_order(table: &Table, role: Role, number: u32, order: Resting, out: &mut [u8]) -> usize
    requires room { role_size table.now role ≤ length out.old }
    requires security { IsSecurity order.security }
    requires said { IsResting order → AreSaid table.now role (order_fields number order) }
    ensures size { result ≡ role_size table.now role }
    ensures ranged { IsResting order }
    ensures said { SaysSoFar table.now role (order_fields number order) out.old out.new }
    ensures same_length { length out.new ≡ length out.old }
{
    let stamp = order.stamp.get();
    let qty = order.qty.get();
    let price = order.price.get();
    let size = begin(table, role, out);
    say(table, role, FieldName::MsgSeqNum, Scalar::Word(number), out);
    say(
        table,
        role,
        FieldName::SecurityID,
        Scalar::Signed(order.security.0),
        out,
    );
    say(
        table,
        role,
        FieldName::TrdRegTSTimePriority,
        Scalar::Long(stamp),
        out,
    );
    say(table, role, FieldName::DisplayQty, Scalar::Signed(qty), out);
    say(
        table,
        role,
        FieldName::Side,
        Scalar::Byte(side_number(order.side)),
        out,
    );
    say(table, role, FieldName::Price, Scalar::Signed(price), out);
    size
}

// Writes an order that loses its priority.
fn write_modify(
    table: &Table,
    role: Role,
    number: u32,
    security: SecurityId,
    side: Side,
    prev_stamp: Stamp,
    prev_price: Price,
    prev_qty: Qty,
    stamp: Stamp,
    price: Price,
    qty: Qty,
    out: &mut [u8],
) -> usize
    requires room { role_size table.now role ≤ length out.old }
    requires security { IsSecurity security }
    requires said { IsPublic (public.Modify security side prev_stamp prev_price prev_qty stamp price qty)
        → AreSaid table.now role (public_fields number (public.Modify security side prev_stamp prev_price prev_qty stamp price qty)) }
    ensures size { result ≡ role_size table.now role }
    ensures ranged { IsPublic (public.Modify security side prev_stamp prev_price prev_qty stamp price qty) }
    ensures said { SaysSoFar table.now role
        (public_fields number (public.Modify security side prev_stamp prev_price prev_qty stamp price qty)) out.old out.new }
    ensures same_length { length out.new ≡ length out.old }
{
    let old_stamp = prev_stamp.get();
    let old_price = prev_price.get();
    let old_qty = prev_qty.get();
    let new_stamp = stamp.get();
    let new_price = price.get();
    let new_qty = qty.get();
    let size = begin(table, role, out);
    say(table, role, FieldName::MsgSeqNum, Scalar::Word(number), out);
    say(
        table,
        role,
        FieldName::SecurityID,
        Scalar::Signed(security.0),
        out,
    );
    say(
        table,
        role,
        FieldName::TrdRegTSPrevTimePriority,
        Scalar::Long(old_stamp),
        out,
    );
    say(
        table,
        role,
        FieldName::PrevPrice,
        Scalar::Signed(old_price),
        out,
    );
    say(
        table,
        role,
        FieldName::PrevDisplayQty,
        Scalar::Signed(old_qty),
        out,
    );
    say(
        table,
        role,
        FieldName::TrdRegTSTimePriority,
        Scalar::Long(new_stamp),
        out,
    );
    say(
        table,
        role,
        FieldName::DisplayQty,
        Scalar::Signed(new_qty),
        out,
    );
    say(
        table,
        role,
        FieldName::Side,
        Scalar::Byte(side_number(side)),
        out,
    );
    say(
        table,
        role,
        FieldName::Price,
        Scalar::Signed(new_price),
        out,
    );
    size
}

// Writes an order that keeps its priority.
fn write_same_priority(
    table: &Table,
    role: Role,
    number: u32,
    security: SecurityId,
    side: Side,
    stamp: Stamp,
    price: Price,
    prev_qty: Qty,
    qty: Qty,
    out: &mut [u8],
) -> usize
    requires room { role_size table.now role ≤ length out.old }
    requires security { IsSecurity security }
    requires said { IsPublic (public.SamePriority security side stamp price prev_qty qty)
        → AreSaid table.now role (public_fields number (public.SamePriority security side stamp price prev_qty qty)) }
    ensures size { result ≡ role_size table.now role }
    ensures ranged { IsPublic (public.SamePriority security side stamp price prev_qty qty) }
    ensures said { SaysSoFar table.now role (public_fields number (public.SamePriority security side stamp price prev_qty qty)) out.old out.new }
    ensures same_length { length out.new ≡ length out.old }
{
    let time = stamp.get();
    let limit = price.get();
    let old_qty = prev_qty.get();
    let new_qty = qty.get();
    let size = begin(table, role, out);
    say(table, role, FieldName::MsgSeqNum, Scalar::Word(number), out);
    say(
        table,
        role,
        FieldName::SecurityID,
        Scalar::Signed(security.0),
        out,
    );
    say(
        table,
        role,
        FieldName::TrdRegTSTimePriority,
        Scalar::Long(time),
        out,
    );
    say(
        table,
        role,
        FieldName::PrevDisplayQty,
        Scalar::Signed(old_qty),
        out,
    );
    say(
        table,
        role,
        FieldName::DisplayQty,
        Scalar::Signed(new_qty),
        out,
    );
    say(
        table,
        role,
        FieldName::Side,
        Scalar::Byte(side_number(side)),
        out,
    );
    say(table, role, FieldName::Price, Scalar::Signed(limit), out);
    size
}

// Writes that all orders of a security leave the book.
fn write_mass_delete(
    table: &Table,
    role: Role,
    number: u32,
    security: SecurityId,
    out: &mut [u8],
) -> usize
    requires room { role_size table.now role ≤ length out.old }
    requires security { IsSecurity security }
    requires said { IsPublic (public.MassDelete security) → AreSaid table.now role (public_fields number (public.MassDelete security)) }
    ensures size { result ≡ role_size table.now role }
    ensures ranged { IsPublic (public.MassDelete security) }
    ensures said { SaysSoFar table.now role (public_fields number (public.MassDelete security)) out.old out.new }
    ensures same_length { length out.new ≡ length out.old }
{
    let size = begin(table, role, out);
    say(table, role, FieldName::MsgSeqNum, Scalar::Word(number), out);
    say(
        table,
        role,
        FieldName::SecurityID,
        Scalar::Signed(security.0),
        out,
    );
    size
}

// Writes an execution of a resting order.
fn write_execution(
    table: &Table,
    role: Role,
    number: u32,
    security: SecurityId,
    side: Side,
    stamp: Stamp,
    price: Price,
    last_qty: Qty,
    last_price: Price,
    out: &mut [u8],
) -> usize
    requires room { role_size table.now role ≤ length out.old }
    requires security { IsSecurity security }
    requires said { IsPublic (public.Partial security side stamp price last_qty last_price)
        → AreSaid table.now role (execution_fields number security side stamp price last_qty last_price) }
    ensures size { result ≡ role_size table.now role }
    ensures ranged { IsPublic (public.Partial security side stamp price last_qty last_price) }
    ensures said { SaysSoFar table.now role (execution_fields number security side stamp price last_qty last_price) out.old out.new }
    ensures same_length { length out.new ≡ length out.old }
{
    let time = stamp.get();
    let limit = price.get();
    let traded = last_qty.get();
    let paid = last_price.get();
    let size = begin(table, role, out);
    say(table, role, FieldName::MsgSeqNum, Scalar::Word(number), out);
    say(
        table,
        role,
        FieldName::SecurityID,
        Scalar::Signed(security.0),
        out,
    );
    say(
        table,
        role,
        FieldName::TrdRegTSTimePriority,
        Scalar::Long(time),
        out,
    );
    say(
        table,
        role,
        FieldName::Side,
        Scalar::Byte(side_number(side)),
        out,
    );
    say(table, role, FieldName::Price, Scalar::Signed(limit), out);
    say(table, role, FieldName::LastQty, Scalar::Signed(traded), out);
    say(table, role, FieldName::LastPx, Scalar::Signed(paid), out);
    size
}

// Writes what an incoming order trades in all.
fn write_summary(
    table: &Table,
    role: Role,
    number: u32,
    security: SecurityId,
    side: Side,
    stamp: Stamp,
    last_qty: Qty,
    last_price: Price,
    out: &mut [u8],
) -> usize
    requires room { role_size table.now role ≤ length out.old }
    requires security { IsSecurity security }
    requires said { IsPublic (public.Summary security side stamp last_qty last_price)
        → AreSaid table.now role (public_fields number (public.Summary security side stamp last_qty last_price)) }
    ensures size { result ≡ role_size table.now role }
    ensures ranged { IsPublic (public.Summary security side stamp last_qty last_price) }
    ensures said { SaysSoFar table.now role (public_fields number (public.Summary security side stamp last_qty last_price)) out.old out.new }
    ensures same_length { length out.new ≡ length out.old }
{
    let time = stamp.get();
    let traded = last_qty.get();
    let paid = last_price.get();
    let size = begin(table, role, out);
    say(table, role, FieldName::MsgSeqNum, Scalar::Word(number), out);
    say(
        table,
        role,
        FieldName::SecurityID,
        Scalar::Signed(security.0),
        out,
    );
    say(
        table,
        role,
        FieldName::AggressorTime,
        Scalar::Long(time),
        out,
    );
    say(
        table,
        role,
        FieldName::AggressorSide,
        Scalar::Byte(side_number(side)),
        out,
    );
    say(table, role, FieldName::LastQty, Scalar::Signed(traded), out);
    say(table, role, FieldName::LastPx, Scalar::Signed(paid), out);
    size
}

// Writes a live message, whatever it is.
fn put_public(table: &Table, number: u32, message: &Public, out: &mut [u8]) -> usize
    requires room { message_size table.now message.now ≤ length out.old }
    requires some { message.now ≢ public.Other }
    requires table { IsTable table.now }
    requires number { IsSequence number }
    requires security { IsSecurity (security_of message.now) }
    ensures size { result ≡ message_size table.now message.now }
    ensures ranged { IsPublic message.now }
    ensures said { SaysSoFar table.now (role_for message.now) (public_fields number message.now) out.old out.new }
    ensures same_length { length out.new ≡ length out.old }
{
    match *message {
        Public::Add { order } => write_order(table, Role::OrderAdd, number, order, out),
        Public::Delete { order } => write_order(table, Role::OrderDelete, number, order, out),
        Public::Modify {
            security,
            side,
            prev_stamp,
            prev_price,
            prev_qty,
            stamp,
            price,
            qty,
        } => write_modify(
            table,
            Role::OrderModify,
            number,
            security,
            side,
            prev_stamp,
            prev_price,
            prev_qty,
            stamp,
            price,
            qty,
            out,
        ),
        Public::SamePriority {
            security,
            side,
            stamp,
            price,
            prev_qty,
            qty,
        } => write_same_priority(
            table,
            Role::OrderModifySamePriority,
            number,
            security,
            side,
            stamp,
            price,
            prev_qty,
            qty,
            out,
        ),
        Public::MassDelete { security } => {
            write_mass_delete(table, Role::OrderMassDelete, number, security, out)
        }
        Public::Partial {
            security,
            side,
            stamp,
            price,
            last_qty,
            last_price,
        } => write_execution(
            table,
            Role::PartialOrderExecution,
            number,
            security,
            side,
            stamp,
            price,
            last_qty,
            last_price,
            out,
        ),
        Public::Full {
            security,
            side,
            stamp,
            price,
            last_qty,
            last_price,
        } => write_execution(
            table,
            Role::FullOrderExecution,
            number,
            security,
            side,
            stamp,
            price,
            last_qty,
            last_price,
            out,
        ),
        Public::Summary {
            security,
            side,
            stamp,
            last_qty,
            last_price,
        } => write_summary(
            table,
            Role::ExecutionSummary,
            number,
            security,
            side,
            stamp,
            last_qty,
            last_price,
            out,
        ),
        Public::Other => unreachable!(),
    }
}

/// Writes the header of a datagram with this number, for the product of this MarketSegmentID, and answers the length of
/// PacketHeader's template. MsgSeqNum is left unset.
pub fn write_header(table: &Table, segment: u32, number: u32, out: &mut [u8]) -> usize
    requires room { 128 ≤ length out.old }
    requires segment_some { 1 ≤ segment }
    requires segment_most { segment ≤ 2_147_483_647 }
    requires number { IsSequence number }
    ensures length { result ≡ length (header_bytes table.now segment number) }
    ensures size { result ≡ role_size table.now role.PacketHeader }
    ensures some { 8 ≤ result }
    ensures short { result ≤ 128 }
    ensures bytes { out.new ≡ header_bytes table.now segment number ++ drop result out.old }
    ensures template { IfSome (find_role table.now role.PacketHeader) (λ t. result ≡ t.size) }
    ensures same_length { length out.new ≡ length out.old }
    ensures says { SaysHeader table.now segment number (header_bytes table.now segment number) }
{
    let _templates = table.templates();
    let role = Role::PacketHeader;
    let size = begin(table, role, out);
    say(
        table,
        role,
        FieldName::ApplSeqNum,
        Scalar::Word(number),
        out,
    );
    say(
        table,
        role,
        FieldName::MarketSegmentID,
        Scalar::SignedWord(segment as i32),
        out,
    );
    size
}

/// Writes a message of the live channel with its number where there is room for it, maybe for no more, and answers the length of its template.
pub fn write_public(table: &Table, number: u32, message: &Public, out: &mut [u8]) -> usize
    requires room { message_size table.now message.now ≤ length out.old }
    requires some { message.now ≢ public.Other }
    requires number { IsSequence number }
    requires security { IsSecurity (security_of message.now) }
    ensures length { result ≡ length (public_bytes table.now number message.now) }
    ensures size { result ≡ message_size table.now message.now }
    ensures some { 8 ≤ result }
    ensures short { result ≤ 128 }
    ensures bytes { out.new ≡ public_bytes table.now number message.now ++ drop result out.old }
    ensures template { IfSome (find_role table.now (role_for message.now)) (λ t. result ≡ t.size) }
    ensures same_length { length out.new ≡ length out.old }
    ensures says { SaysLive table.now (items.Message number message.now) (public_bytes table.now number message.now) }
{
    let _templates = table.templates();
    put_public(table, number, message, out)
}

// Writes an order of a snapshot.
fn write_snap_order(
    table: &Table,
    role: Role,
    side: Side,
    price: Price,
    stamp: Stamp,
    qty: Qty,
    out: &mut [u8],
) -> usize
    requires room { role_size table.now role ≤ length out.old }
    requires said { IsSnap (snaps.Order side price stamp qty) → AreSaid table.now role (snap_fields (snaps.Order side price stamp qty)) }
    ensures size { result ≡ role_size table.now role }
    ensures ranged { IsSnap (snaps.Order side price stamp qty) }
    ensures said { SaysSoFar table.now role (snap_fields (snaps.Order side price stamp qty)) out.old out.new }
    ensures same_length { length out.new ≡ length out.old }
{
    let time = stamp.get();
    let units = qty.get();
    let limit = price.get();
    let size = begin(table, role, out);
    say(
        table,
        role,
        FieldName::TrdRegTSTimePriority,
        Scalar::Long(time),
        out,
    );
    say(
        table,
        role,
        FieldName::DisplayQty,
        Scalar::Signed(units),
        out,
    );
    say(
        table,
        role,
        FieldName::Side,
        Scalar::Byte(side_number(side)),
        out,
    );
    say(table, role, FieldName::Price, Scalar::Signed(limit), out);
    size
}

// Writes the head of an instrument of a snapshot.
fn write_instrument(
    table: &Table,
    role: Role,
    security: SecurityId,
    count: u16,
    out: &mut [u8],
) -> usize
    requires room { role_size table.now role ≤ length out.old }
    requires known { IsSnap (snaps.Instrument security count) }
    requires said { IsSnap (snaps.Instrument security count) → AreSaid table.now role (snap_fields (snaps.Instrument security count)) }
    ensures size { result ≡ role_size table.now role }
    ensures ranged { IsSnap (snaps.Instrument security count) }
    ensures said { SaysSoFar table.now role (snap_fields (snaps.Instrument security count)) out.old out.new }
    ensures same_length { length out.new ≡ length out.old }
{
    let size = begin(table, role, out);
    say(
        table,
        role,
        FieldName::SecurityID,
        Scalar::Signed(security.0),
        out,
    );
    say(
        table,
        role,
        FieldName::TotNoOrders,
        Scalar::Half(count),
        out,
    );
    size
}

// Writes the head of a snapshot.
fn write_product(table: &Table, role: Role, last: u32, out: &mut [u8]) -> usize
    requires room { role_size table.now role ≤ length out.old }
    requires known { IsSnap (snaps.Product last) }
    requires said { IsSnap (snaps.Product last) → AreSaid table.now role (snap_fields (snaps.Product last)) }
    ensures size { result ≡ role_size table.now role }
    ensures ranged { IsSnap (snaps.Product last) }
    ensures said { SaysSoFar table.now role (snap_fields (snaps.Product last)) out.old out.new }
    ensures same_length { length out.new ≡ length out.old }
{
    let size = begin(table, role, out);
    say(
        table,
        role,
        FieldName::LastMsgSeqNumProcessed,
        Scalar::Word(last),
        out,
    );
    size
}

// Writes an item of the snapshot channel, whatever it is.
fn put_snap(table: &Table, snap: &Snap, out: &mut [u8]) -> usize
    requires room { snap_size table.now snap.now ≤ length out.old }
    requires table { IsTable table.now }
    requires known { IsKnown snap.now }
    ensures size { result ≡ snap_size table.now snap.now }
    ensures ranged { IsSnap snap.now }
    ensures said { SaysSoFar table.now (snap_role snap.now) (snap_fields snap.now) out.old out.new }
    ensures same_length { length out.new ≡ length out.old }
{
    match *snap {
        Snap::Product(last) => write_product(table, Role::ProductSummary, last, out),
        Snap::Instrument { security, count } => {
            write_instrument(table, Role::InstrumentSummary, security, count, out)
        }
        Snap::Order {
            side,
            price,
            stamp,
            qty,
        } => write_snap_order(table, Role::SnapshotOrder, side, price, stamp, qty, out),
    }
}

/// Writes an item of the snapshot channel where there is room for it, maybe for no more, and answers the length of its template. MsgSeqNum is left unset.
pub fn write_snap(table: &Table, snap: &Snap, out: &mut [u8]) -> usize
    requires room { snap_size table.now snap.now ≤ length out.old }
    requires known { IsKnown snap.now }
    ensures length { result ≡ length (snap_bytes table.now snap.now) }
    ensures size { result ≡ snap_size table.now snap.now }
    ensures some { 8 ≤ result }
    ensures short { result ≤ 128 }
    ensures bytes { out.new ≡ snap_bytes table.now snap.now ++ drop result out.old }
    ensures template { IfSome (find_role table.now (snap_role snap.now)) (λ t. result ≡ t.size) }
    ensures same_length { length out.new ≡ length out.old }
    ensures says { SaysSnap table.now snap.now (snap_bytes table.now snap.now) }
{
    let _templates = table.templates();
    put_snap(table, snap, out)
}

/// Writes a heartbeat of the live channel with the number of the last message, and answers the length of its template.
pub fn write_beat(table: &Table, last: u32, out: &mut [u8]) -> usize
    requires room { 128 ≤ length out.old }
    requires last { last ≤ 4_294_967_294 }
    ensures length { result ≡ length (beat_bytes table.now last) }
    ensures some { 8 ≤ result }
    ensures short { result ≤ 128 }
    ensures bytes { out.new ≡ beat_bytes table.now last ++ drop result out.old }
    ensures template { IfSome (find_role table.now role.EobiHeartbeat) (λ t. result ≡ t.size) }
    ensures same_length { length out.new ≡ length out.old }
    ensures says { SaysLive table.now (items.Beat last) (beat_bytes table.now last) }
{
    let _templates = table.templates();
    let role = Role::EobiHeartbeat;
    let size = begin(table, role, out);
    say(
        table,
        role,
        FieldName::LastMsgSeqNumProcessed,
        Scalar::Word(last),
        out,
    );
    size
}
