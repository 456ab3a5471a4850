//! Responses, and the messages that are read as them.

ghost use Rattle.std.specs.Prelude.{◌≡◌, nat_abs, option_map, true};
ghost use Rattle.t7_layout.specs.declared.roles.Role.TheVariants as role;
ghost use Rattle.t7_layout.specs.declared.roles.FieldName.TheVariants as name;
ghost use Rattle.t7_fields.specs.Messages.{is_among, said_number, value};
ghost use Rattle.t7_eti.specs.Nulls.{IsOwn, sought};
ghost use Rattle.t7_eti.specs.Ranges.{IsSound};
ghost use Rattle.t7_eti.specs.Responses.{is_response, kept_as, reason_said, response_as, response_in, response_of, side_of};

use crate::nulls::{FieldFault, first_null};
use crate::numbers::{double, half, long, said_word, signed, unsigned, word};
use crate::ranges::first_out;
use crate::reason::{Reason, reason_of};
use t7_base::{OrderId, Price, Qty, SecurityId, Side, Stamp};
use t7_fields::{Fields, View};
use t7_layout::{FieldName, Role, Table};

/// A recoverable response without its number: what became of a session's orders, which the exchange keeps for the
/// session and sends again when it is asked to. `client` is the ClOrdID of the request.
#[derive(Clone, Copy, Debug, PartialEq, Eq)]
pub enum Kept {
    /// NewOrderResponse: a new order, with its TrdRegTSTimePriority.
    New {
        order: OrderId,
        client: u64,
        stamp: Stamp,
    },
    /// ModifyOrderResponse: a changed order, with its TrdRegTSTimePriority after the change.
    Changed {
        order: OrderId,
        client: u64,
        stamp: Stamp,
    },
    /// DeleteOrderResponse: a deleted order.
    Deleted {
        order: OrderId,
        client: u64,
    },
    /// DeleteAllOrderResponse: NoAffectedOrders of the session's orders in a security were deleted on its request.
    DeletedAll {
        security: SecurityId,
        count: u16,
    },
    /// DeleteAllOrderBroadcast: NoAffectedOrders of the session's orders in a security were deleted by the exchange.
    Cleared {
        security: SecurityId,
        count: u16,
    },
    /// OrderExecNotification: a trade of an order, for FillQty at FillPx. LeavesQty is left of it and CumQty was executed
    /// of it in all, both with 4 implied decimals.
    Exec {
        order: OrderId,
        side: Side,
        leaves: i64,
        cum: i64,
        last_qty: Qty,
        last_price: Price,
    },
}

/// A response of the exchange to a session, as its message says it. `seq` is MsgSeqNum, the number of the request.
#[derive(Clone, Copy, Debug, PartialEq, Eq)]
pub enum Response {
    /// LogonResponse: with the HeartBtInt that holds, in milliseconds.
    Logon {
        seq: u32,
        heart: u32,
    },
    /// LogoutResponse.
    Logout {
        seq: u32,
    },
    /// HeartbeatNotification.
    Beat,
    /// Reject: with the number of the request, where it had one.
    Reject {
        seq: Option<u32>,
        reason: Reason,
    },
    /// RetransmitMEMessageResponse: ApplTotalMessageCount responses follow, the last of them ApplEndMsgID, and
    /// RefApplLastMsgID are kept.
    Resent {
        seq: u32,
        count: u16,
        last: u128,
        known: u128,
    },
    /// A recoverable response, with its number ApplMsgID.
    Kept {
        number: u128,
        what: Kept,
    },
}

// Whether a role is one of a response.
fn is_response(role: Role) -> bool
    ensures { result ≡ is_response role }
{
    match role {
        Role::LogonResponse
        | Role::LogoutResponse
        | Role::HeartbeatNotification
        | Role::Reject
        | Role::RetransmitMEMessageResponse
        | Role::NewOrderResponse
        | Role::ModifyOrderResponse
        | Role::DeleteOrderResponse
        | Role::DeleteAllOrderResponse
        | Role::DeleteAllOrderBroadcast
        | Role::OrderExecNotification => true,
        _ => false,
    }
}

// The order that a response is about.
fn order(m: &Fields<'_>) -> OrderId
    requires there { is_among name.OrderID (sought m.now.role) ≡ true }
    requires sound { IsSound m.now }
    ensures { result ≡ nat_abs (value m.now name.OrderID) }
{
    OrderId(double(m, FieldName::OrderID))
}

// Its time stamp.
fn stamp(m: &Fields<'_>) -> Stamp
    requires there { is_among name.TrdRegTSTimePriority (sought m.now.role) ≡ true }
    requires sound { IsSound m.now }
    ensures { result ≡ nat_abs (value m.now name.TrdRegTSTimePriority) }
{
    match Stamp::new(unsigned(m, FieldName::TrdRegTSTimePriority)) {
        Some(stamp) => stamp,
        None => unreachable!(),
    }
}

// The quantity of a trade.
fn last_qty(m: &Fields<'_>) -> Qty
    requires there { is_among name.FillQty (sought m.now.role) ≡ true }
    requires sound { IsSound m.now }
    ensures { result ≡ nat_abs (value m.now name.FillQty) }
{
    match Qty::new(signed(m, FieldName::FillQty)) {
        Some(qty) => qty,
        None => unreachable!(),
    }
}

// The price of a trade.
fn last_price(m: &Fields<'_>) -> Price
    requires there { is_among name.FillPx (sought m.now.role) ≡ true }
    requires sound { IsSound m.now }
    ensures { result ≡ value m.now name.FillPx }
{
    match Price::new(signed(m, FieldName::FillPx)) {
        Some(price) => price,
        None => unreachable!(),
    }
}

// The side of an order.
fn side(m: &Fields<'_>) -> Side
    requires there { is_among name.Side (sought m.now.role) ≡ true }
    requires sound { IsSound m.now }
    ensures { result ≡ side_of (value m.now name.Side) }
{
    if unsigned(m, FieldName::Side) == 1 {
        Side::Buy
    } else {
        Side::Sell
    }
}

// The reason of a Reject.
fn reason(m: &Fields<'_>) -> Reason
    requires there { is_among name.SessionRejectReason (sought m.now.role) ≡ true }
    requires sound { IsSound m.now }
    ensures { result ≡ reason_said m.now }
{
    match reason_of(unsigned(m, FieldName::SessionRejectReason)) {
        Some(reason) => reason,
        None => unreachable!(),
    }
}

// The number of the request that a Reject is about, where it had one.
fn rejected(m: &Fields<'_>) -> Option<u32>
    requires { m.now.role ≡ role.Reject }
    ensures { result ≡ option_map nat_abs (said_number m.now name.MsgSeqNum) }
{
    said_word(m, FieldName::MsgSeqNum)
}

// The recoverable response of a message in which each field is sound.
fn recoverable(m: &Fields<'_>) -> Response
    requires { IsSound m.now }
    ensures { result ≡ kept_as m.now.role m.now }
{
    let what = match m.role() {
        Role::NewOrderResponse => Kept::New {
            order: order(m),
            client: double(m, FieldName::ClOrdID),
            stamp: stamp(m),
        },
        Role::ModifyOrderResponse => Kept::Changed {
            order: order(m),
            client: double(m, FieldName::ClOrdID),
            stamp: stamp(m),
        },
        Role::DeleteOrderResponse => Kept::Deleted {
            order: order(m),
            client: double(m, FieldName::ClOrdID),
        },
        Role::DeleteAllOrderResponse => Kept::DeletedAll {
            security: SecurityId(signed(m, FieldName::SecurityID)),
            count: half(m, FieldName::NoAffectedOrders),
        },
        Role::DeleteAllOrderBroadcast => Kept::Cleared {
            security: SecurityId(signed(m, FieldName::SecurityID)),
            count: half(m, FieldName::NoAffectedOrders),
        },
        Role::OrderExecNotification => Kept::Exec {
            order: order(m),
            side: side(m),
            leaves: signed(m, FieldName::LeavesQty),
            cum: signed(m, FieldName::CumQty),
            last_qty: last_qty(m),
            last_price: last_price(m),
        },
        _ => return Response::Beat,
    };
    Response::Kept {
        number: long(m, FieldName::ApplMsgID),
        what,
    }
}

// The response of a message in which each field is sound.
fn sound_response(m: &Fields<'_>) -> Response
    requires { IsSound m.now }
    ensures { result ≡ response_as m.now.role m.now }
{
    match m.role() {
        Role::LogonResponse => Response::Logon {
            seq: word(m, FieldName::MsgSeqNum),
            heart: word(m, FieldName::HeartBtInt),
        },
        Role::LogoutResponse => Response::Logout {
            seq: word(m, FieldName::MsgSeqNum),
        },
        Role::Reject => Response::Reject {
            seq: rejected(m),
            reason: reason(m),
        },
        Role::RetransmitMEMessageResponse => Response::Resent {
            seq: word(m, FieldName::MsgSeqNum),
            count: half(m, FieldName::ApplTotalMessageCount),
            last: long(m, FieldName::ApplEndMsgID),
            known: long(m, FieldName::RefApplLastMsgID),
        },
        _ => recoverable(m),
    }
}

// The response that a message says.
fn response_of(m: &Fields<'_>) -> Result<Response, FieldFault>
    ensures { result ≡ response_of m.now }
{
    if !is_response(m.role()) {
        return Err(FieldFault::NoRole);
    }
    if let Some(name) = first_null(m) {
        return Err(FieldFault::Null(name));
    }
    match first_out(m) {
        Some(name) => Err(FieldFault::Value(name)),
        None => Ok(sound_response(m)),
    }
}

/// The response that a message says, whose template is one of the table's.
///
/// It is NoRole exactly where the template is not one of a response; else Null exactly where a field that the response
/// requires has no value, a Reject's MsgSeqNum aside, with the first such in the order of the manual's layout, BodyLen and
/// TemplateID aside; and else Value exactly where a number is out of the range of its type, with the first such: a
/// SessionRejectReason that is none of 1 to 17, a TrdRegTSTimePriority outside 1..=2^63-1, a FillQty outside 1..=10^15, a
/// FillPx outside -10^17..=10^17, or a Side that is neither 1 nor 2. No memory is taken.
pub fn read_response(table: &Table, view: View<'_>) -> Result<Response, FieldFault>
    requires { IsOwn table.now view.layout }
    ensures { result ≡ response_in table.now view.entry }
{
    match view.template().role() {
        Some(role) => response_of(&Fields::over(table, role, view)),
        None => Err(FieldFault::NoRole),
    }
}
