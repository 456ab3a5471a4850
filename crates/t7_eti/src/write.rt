//! The messages of requests and responses, written.

ghost use Rattle.std.specs.Prelude.{◌≡◌, ◌≤◌, ◌++◌, IfSome, Ok, Some, length, drop, take, pos};
ghost use Rattle.t7_base.specs.Ranges.{IsPrice, IsQuantity};
ghost use Rattle.t7_layout.specs.Lookups.{find_role};
ghost use Rattle.t7_fields.specs.Writing.{AreKnown, IsWritten, message_saying};
ghost use Rattle.t7_eti.specs.declared.response.Kept.TheVariants as kept;
ghost use Rattle.t7_eti.specs.declared.response.Response.TheVariants as response;
ghost use Rattle.t7_eti.specs.Requests.{IsAskable, request_in};
ghost use Rattle.t7_eti.specs.Responses.{response_in};
ghost use Rattle.t7_eti.specs.Saying.{IsRanged, kept_fields, kept_role, read_again, request_bytes, request_fields, request_role, response_bytes, response_fields, response_role, side_number};

use crate::request::Request;
use crate::response::{Kept, Response};
use t7_base::{OrderId, Price, Qty, Side};
use t7_fields::{Scalar, write};
use t7_layout::{FieldName, Role, Table};

// The number of a side.
fn side_number(side: Side) -> u8
    ensures { result ≡ side_number side }
{
    match side {
        Side::Buy => 1,
        Side::Sell => 2,
    }
}

// Writes the message of a request.
fn say_request(table: &Table, request: &Request, out: &mut [u8]) -> usize
    requires room { 1024 ≤ length out.old }
    requires known { AreKnown table.now (request_role request.now) (request_fields request.now) }
    ensures length { IfSome (find_role table.now (request_role request.now)) (λ t. result ≡ t.size) }
    ensures bytes { out.new ≡ request_bytes table.now request.now ++ drop result out.old }
    ensures written { IsWritten table.now (request_role request.now) (request_fields request.now) (take result out.new) }
    ensures rest { drop result out.new ≡ drop result out.old }
{
    match *request {
        Request::Logon {
            seq,
            heart,
            session,
        } => write(
            table,
            Role::LogonRequest,
            &[
                (FieldName::MsgSeqNum, Scalar::Word(seq)),
                (FieldName::HeartBtInt, Scalar::Word(heart)),
                (FieldName::PartyIDSessionID, Scalar::Word(session)),
            ],
            out,
        ),
        Request::Logout { seq } => write(
            table,
            Role::LogoutRequest,
            &[(FieldName::MsgSeqNum, Scalar::Word(seq))],
            out,
        ),
        Request::Heartbeat => write(table, Role::EtiHeartbeat, &[], out),
        Request::New {
            seq,
            security,
            side,
            price,
            qty,
            client,
        } => write(
            table,
            Role::NewOrderSingleRequest,
            &[
                (FieldName::MsgSeqNum, Scalar::Word(seq)),
                (FieldName::Side, Scalar::Byte(side)),
                (FieldName::SecurityID, Scalar::Signed(security)),
                (FieldName::ClOrdID, Scalar::Long(client)),
                (FieldName::Price, Scalar::Signed(price)),
                (FieldName::OrderQty, Scalar::Signed(qty)),
            ],
            out,
        ),
        Request::Modify {
            seq,
            order,
            client,
            price,
            qty,
        } => write(
            table,
            Role::ModifyOrderSingleRequest,
            &[
                (FieldName::MsgSeqNum, Scalar::Word(seq)),
                (FieldName::OrderID, Scalar::Long(order)),
                (FieldName::ClOrdID, Scalar::Long(client)),
                (FieldName::Price, Scalar::Signed(price)),
                (FieldName::OrderQty, Scalar::Signed(qty)),
            ],
            out,
        ),
        Request::Delete { seq, order, client } => write(
            table,
            Role::DeleteOrderSingleRequest,
            &[
                (FieldName::MsgSeqNum, Scalar::Word(seq)),
                (FieldName::OrderID, Scalar::Long(order)),
                (FieldName::ClOrdID, Scalar::Long(client)),
            ],
            out,
        ),
        Request::DeleteAll { seq, security } => write(
            table,
            Role::DeleteAllOrderRequest,
            &[
                (FieldName::MsgSeqNum, Scalar::Word(seq)),
                (FieldName::SecurityID, Scalar::Signed(security)),
            ],
            out,
        ),
        Request::Resend { seq, after, upto } => write(
            table,
            Role::RetransmitMEMessageRequest,
            &[
                (FieldName::MsgSeqNum, Scalar::Word(seq)),
                (FieldName::ApplBegMsgID, Scalar::Raw(after)),
                (FieldName::ApplEndMsgID, Scalar::Raw(upto)),
            ],
            out,
        ),
    }
}

// What the message of a trade says.
fn executed(
    number: u128,
    order: OrderId,
    side: Side,
    leaves: i64,
    cum: i64,
    last_qty: Qty,
    last_price: Price,
) -> [(FieldName, Scalar); 7]
    ensures fields { result ≡ kept_fields number (kept.Exec order side leaves cum last_qty last_price) }
    ensures qty { IsQuantity (pos last_qty) }
    ensures price { IsPrice last_price }
{
    [
        (FieldName::ApplMsgID, Scalar::Raw(number)),
        (FieldName::OrderID, Scalar::Long(order.0)),
        (FieldName::LeavesQty, Scalar::Signed(leaves)),
        (FieldName::CumQty, Scalar::Signed(cum)),
        (FieldName::FillQty, Scalar::Signed(last_qty.get())),
        (FieldName::FillPx, Scalar::Signed(last_price.get())),
        (FieldName::Side, Scalar::Byte(side_number(side))),
    ]
}

// Writes the message of a recoverable response with its number.
fn say_kept(table: &Table, number: u128, what: &Kept, out: &mut [u8]) -> usize
    requires room { 1024 ≤ length out.old }
    requires known { AreKnown table.now (kept_role what.now) (kept_fields number what.now) }
    ensures length { IfSome (find_role table.now (kept_role what.now)) (λ t. result ≡ t.size) }
    ensures bytes { out.new ≡ message_saying table.now (kept_role what.now) (kept_fields number what.now) ++ drop result out.old }
    ensures written { IsWritten table.now (kept_role what.now) (kept_fields number what.now) (take result out.new) }
    ensures rest { drop result out.new ≡ drop result out.old }
    ensures ranged { IsRanged (response.Kept number what.now) }
{
    match *what {
        Kept::New {
            order,
            client,
            stamp,
        } => write(
            table,
            Role::NewOrderResponse,
            &[
                (FieldName::ApplMsgID, Scalar::Raw(number)),
                (FieldName::OrderID, Scalar::Long(order.0)),
                (FieldName::ClOrdID, Scalar::Long(client)),
                (FieldName::TrdRegTSTimePriority, Scalar::Long(stamp.get())),
            ],
            out,
        ),
        Kept::Changed {
            order,
            client,
            stamp,
        } => write(
            table,
            Role::ModifyOrderResponse,
            &[
                (FieldName::ApplMsgID, Scalar::Raw(number)),
                (FieldName::OrderID, Scalar::Long(order.0)),
                (FieldName::ClOrdID, Scalar::Long(client)),
                (FieldName::TrdRegTSTimePriority, Scalar::Long(stamp.get())),
            ],
            out,
        ),
        Kept::Deleted { order, client } => write(
            table,
            Role::DeleteOrderResponse,
            &[
                (FieldName::ApplMsgID, Scalar::Raw(number)),
                (FieldName::OrderID, Scalar::Long(order.0)),
                (FieldName::ClOrdID, Scalar::Long(client)),
            ],
            out,
        ),
        Kept::DeletedAll { security, count } => write(
            table,
            Role::DeleteAllOrderResponse,
            &[
                (FieldName::ApplMsgID, Scalar::Raw(number)),
                (FieldName::SecurityID, Scalar::Signed(security.0)),
                (FieldName::NoAffectedOrders, Scalar::Half(count)),
            ],
            out,
        ),
        Kept::Cleared { security, count } => write(
            table,
            Role::DeleteAllOrderBroadcast,
            &[
                (FieldName::ApplMsgID, Scalar::Raw(number)),
                (FieldName::SecurityID, Scalar::Signed(security.0)),
                (FieldName::NoAffectedOrders, Scalar::Half(count)),
            ],
            out,
        ),
        Kept::Exec {
            order,
            side,
            leaves,
            cum,
            last_qty,
            last_price,
        } => {
            let fields = executed(number, order, side, leaves, cum, last_qty, last_price);
            write(table, Role::OrderExecNotification, &fields, out)
        }
    }
}

// Writes the message of a response.
fn say_response(table: &Table, response: &Response, out: &mut [u8]) -> usize
    requires room { 1024 ≤ length out.old }
    requires known { AreKnown table.now (response_role response.now) (response_fields response.now) }
    ensures length { IfSome (find_role table.now (response_role response.now)) (λ t. result ≡ t.size) }
    ensures bytes { out.new ≡ response_bytes table.now response.now ++ drop result out.old }
    ensures written { IsWritten table.now (response_role response.now) (response_fields response.now) (take result out.new) }
    ensures rest { drop result out.new ≡ drop result out.old }
    ensures ranged { IsRanged response.now }
{
    match *response {
        Response::Logon { seq, heart } => write(
            table,
            Role::LogonResponse,
            &[
                (FieldName::MsgSeqNum, Scalar::Word(seq)),
                (FieldName::HeartBtInt, Scalar::Word(heart)),
            ],
            out,
        ),
        Response::Logout { seq } => write(
            table,
            Role::LogoutResponse,
            &[(FieldName::MsgSeqNum, Scalar::Word(seq))],
            out,
        ),
        Response::Beat => write(table, Role::HeartbeatNotification, &[], out),
        Response::Reject { seq: None, reason } => write(
            table,
            Role::Reject,
            &[(
                FieldName::SessionRejectReason,
                Scalar::Word(reason.number()),
            )],
            out,
        ),
        Response::Reject {
            seq: Some(seq),
            reason,
        } => write(
            table,
            Role::Reject,
            &[
                (FieldName::MsgSeqNum, Scalar::Word(seq)),
                (
                    FieldName::SessionRejectReason,
                    Scalar::Word(reason.number()),
                ),
            ],
            out,
        ),
        Response::Resent {
            seq,
            count,
            last,
            known,
        } => write(
            table,
            Role::RetransmitMEMessageResponse,
            &[
                (FieldName::MsgSeqNum, Scalar::Word(seq)),
                (FieldName::ApplTotalMessageCount, Scalar::Half(count)),
                (FieldName::ApplEndMsgID, Scalar::Raw(last)),
                (FieldName::RefApplLastMsgID, Scalar::Raw(known)),
            ],
            out,
        ),
        Response::Kept { number, what } => say_kept(table, number, &what, out),
    }
}

/// Writes the message of a request and answers its length, which is that of the request's template. Bytes past it stay as
/// they are.
///
/// Numbers stand with the lowest byte first, ApplBegMsgID and ApplEndMsgID with the highest; fields that the request does
/// not say have no value. `out` has room for the longest message, of 1,024 bytes. No number of the request is the one that
/// stands for no value in its field, its MsgSeqNum is not 4,294,967,295 and its ClOrdID not the greatest of 64 bits. What
/// is written is read as the request. No memory is taken.
pub fn write_request(table: &Table, request: &Request, out: &mut [u8]) -> usize
    requires room { 1024 ≤ length out.old }
    requires known { AreKnown table.now (request_role request.now) (request_fields request.now) }
    requires askable { IsAskable request.now }
    ensures length { IfSome (find_role table.now (request_role request.now)) (λ t. result ≡ t.size) }
    ensures bytes { out.new ≡ request_bytes table.now request.now ++ drop result out.old }
    ensures written { IsWritten table.now (request_role request.now) (request_fields request.now) (take result out.new) }
    ensures rest { drop result out.new ≡ drop result out.old }
    ensures again { IfSome (find_role table.now (request_role request.now)) (λ t. request_in table.now (record { layout = t; bytes = take result out.new }) ≡ Ok request.now) }
{
    say_request(table, request, out)
}

/// Writes the message of a response and answers its length, which is that of the response's template. Bytes past it stay
/// as they are.
///
/// Numbers stand with the lowest byte first, ApplMsgID, ApplEndMsgID and RefApplLastMsgID with the highest; fields that the
/// response does not say have no value. `out` has room for the longest message, of 1,024 bytes. No number of the response
/// is the one that stands for no value in its field. What is written is read as the response, but a Reject without a number
/// is read with the number 0 where the table gives its MsgSeqNum no such number. No memory is taken.
pub fn write_response(table: &Table, response: &Response, out: &mut [u8]) -> usize
    requires room { 1024 ≤ length out.old }
    requires known { AreKnown table.now (response_role response.now) (response_fields response.now) }
    ensures length { IfSome (find_role table.now (response_role response.now)) (λ t. result ≡ t.size) }
    ensures bytes { out.new ≡ response_bytes table.now response.now ++ drop result out.old }
    ensures written { IsWritten table.now (response_role response.now) (response_fields response.now) (take result out.new) }
    ensures rest { drop result out.new ≡ drop result out.old }
    ensures ranged { IsRanged response.now }
    ensures again { IfSome (find_role table.now (response_role response.now)) (λ t. response_in table.now (record { layout = t; bytes = take result out.new }) ≡ Ok (read_again table.now response.now)) }
{
    say_response(table, response, out)
}
