//! Requests, and the messages that are read as them.

ghost use Rattle.std.specs.Prelude.{◌≡◌, ◌<◌, None, IfOk, IfSome, pos, nat_abs, true};
ghost use Rattle.t7_layout.specs.declared.roles.FieldName.TheVariants as name;
ghost use Rattle.t7_fields.specs.Messages.{is_among, value};
ghost use Rattle.t7_eti.specs.Nulls.{HasFields, IsOwn, first_missing, sought};
ghost use Rattle.t7_eti.specs.Requests.{IsAskable, is_numbered, is_request, number_in, number_of, request_as, request_in, request_of};

use crate::nulls::{FieldFault, first_missing};
use crate::numbers::{byte, double, long, said_word, signed, unsigned, word};
use t7_fields::{Fields, View};
use t7_layout::{FieldName, Role, Table};

/// A request of a session to the exchange, as its message says it. `seq` is MsgSeqNum, which a request counts from 1 in
/// its connection, `security` is SecurityID, `order` is OrderID, `client` is ClOrdID, and `price` has 8 and `qty` 4
/// implied decimals. Numbers are as they came: which of them a request may have is for the exchange to say.
#[derive(Clone, Copy, Debug, PartialEq, Eq)]
pub enum Request {
    /// LogonRequest: with HeartBtInt, in milliseconds, and PartyIDSessionID.
    Logon {
        seq: u32,
        heart: u32,
        session: u32,
    },
    /// LogoutRequest.
    Logout {
        seq: u32,
    },
    /// Heartbeat, which has no number.
    Heartbeat,
    /// NewOrderSingleRequest: with Side, where 1 is buy and 2 is sell, Price and OrderQty.
    New {
        seq: u32,
        security: i64,
        side: u8,
        price: i64,
        qty: i64,
        client: u64,
    },
    /// ModifyOrderSingleRequest: with the new Price and the new OrderQty in all.
    Modify {
        seq: u32,
        order: u64,
        client: u64,
        price: i64,
        qty: i64,
    },
    /// DeleteOrderSingleRequest.
    Delete {
        seq: u32,
        order: u64,
        client: u64,
    },
    /// DeleteAllOrderRequest.
    DeleteAll {
        seq: u32,
        security: i64,
    },
    /// RetransmitMEMessageRequest: for the responses behind ApplBegMsgID up to ApplEndMsgID.
    Resend {
        seq: u32,
        after: u128,
        upto: u128,
    },
}

/// Whether a role is one of a request that a client makes, its heartbeat among them.
pub fn is_request(role: Role) -> bool
    ensures { result ≡ is_request role }
{
    match role {
        Role::LogonRequest
        | Role::LogoutRequest
        | Role::EtiHeartbeat
        | Role::NewOrderSingleRequest
        | Role::ModifyOrderSingleRequest
        | Role::DeleteOrderSingleRequest
        | Role::DeleteAllOrderRequest
        | Role::RetransmitMEMessageRequest => true,
        _ => false,
    }
}

// Whether a role is one of a request that has a number.
fn is_numbered(role: Role) -> bool
    ensures { result ≡ is_numbered role }
{
    match role {
        Role::EtiHeartbeat => false,
        other => is_request(other),
    }
}

// The number of a request, which is none that counts as null.
fn sequence_number(m: &Fields<'_>) -> u32
    requires there { is_among name.MsgSeqNum (sought m.now.role) ≡ true }
    requires none { first_missing m.now (sought m.now.role) ≡ None }
    requires whole { HasFields m.now }
    ensures value { result ≡ nat_abs (value m.now name.MsgSeqNum) }
    ensures small { result < 4_294_967_295 }
{
    unsigned(m, FieldName::MsgSeqNum) as u32
}

// What the client calls an order, by no number that counts as null.
fn client(m: &Fields<'_>) -> u64
    requires there { is_among name.ClOrdID (sought m.now.role) ≡ true }
    requires none { first_missing m.now (sought m.now.role) ≡ None }
    requires whole { HasFields m.now }
    ensures value { result ≡ nat_abs (value m.now name.ClOrdID) }
    ensures small { result < 18_446_744_073_709_551_615 }
{
    unsigned(m, FieldName::ClOrdID)
}

// The request of a message of a request's role in which no field is missing.
fn whole_request(m: &Fields<'_>) -> Request
    requires request { is_request m.now.role ≡ true }
    requires none { first_missing m.now (sought m.now.role) ≡ None }
    requires whole { HasFields m.now }
    ensures value { result ≡ request_as m.now.role m.now }
    ensures askable { IsAskable result }
{
    match m.role() {
        Role::LogonRequest => Request::Logon {
            seq: sequence_number(m),
            heart: word(m, FieldName::HeartBtInt),
            session: word(m, FieldName::PartyIDSessionID),
        },
        Role::LogoutRequest => Request::Logout {
            seq: sequence_number(m),
        },
        Role::EtiHeartbeat => Request::Heartbeat,
        Role::NewOrderSingleRequest => Request::New {
            seq: sequence_number(m),
            security: signed(m, FieldName::SecurityID),
            side: byte(m, FieldName::Side),
            price: signed(m, FieldName::Price),
            qty: signed(m, FieldName::OrderQty),
            client: client(m),
        },
        Role::ModifyOrderSingleRequest => Request::Modify {
            seq: sequence_number(m),
            order: double(m, FieldName::OrderID),
            client: client(m),
            price: signed(m, FieldName::Price),
            qty: signed(m, FieldName::OrderQty),
        },
        Role::DeleteOrderSingleRequest => Request::Delete {
            seq: sequence_number(m),
            order: double(m, FieldName::OrderID),
            client: client(m),
        },
        Role::DeleteAllOrderRequest => Request::DeleteAll {
            seq: sequence_number(m),
            security: signed(m, FieldName::SecurityID),
        },
        Role::RetransmitMEMessageRequest => Request::Resend {
            seq: sequence_number(m),
            after: long(m, FieldName::ApplBegMsgID),
            upto: long(m, FieldName::ApplEndMsgID),
        },
        _ => unreachable!(),
    }
}

// The request that a message says.
fn request_of(m: &Fields<'_>) -> Result<Request, FieldFault>
    ensures value { result ≡ request_of m.now }
    ensures askable { IfOk result IsAskable }
{
    if !is_request(m.role()) {
        return Err(FieldFault::NoRole);
    }
    match first_missing(m) {
        Some(name) => Err(FieldFault::Null(name)),
        None => Ok(whole_request(m)),
    }
}

// The MsgSeqNum that a message of a request says, if any.
fn number_of(m: &Fields<'_>) -> Option<u32>
    ensures value { result ≡ number_of m.now }
    ensures small { IfSome result (λ n. n < 4_294_967_295) }
{
    if !is_numbered(m.role()) {
        return None;
    }
    match said_word(m, FieldName::MsgSeqNum) {
        Some(number) => {
            if number == 4_294_967_295 {
                None
            } else {
                Some(number)
            }
        }
        None => None,
    }
}

/// The request that a message says, whose template is one of the table's.
///
/// It is NoRole exactly where the template is not one of a request, and else Null exactly where a field that the request
/// requires has no value, with the first such in the order of the manual's layout, BodyLen and TemplateID aside. A
/// MsgSeqNum of 4,294,967,295 and a ClOrdID that is the greatest number of 64 bits count as no value, whatever null the
/// table gives these fields. Value is never answered here. No memory is taken.
pub fn read_request(table: &Table, view: View<'_>) -> Result<Request, FieldFault>
    requires { IsOwn table.now view.layout }
    ensures value { result ≡ request_in table.now view.entry }
    ensures askable { IfOk result IsAskable }
{
    match view.template().role() {
        Some(role) => request_of(&Fields::over(table, role, view)),
        None => Err(FieldFault::NoRole),
    }
}

/// The MsgSeqNum that the message of a request says, whose template is one of the table's, for a Reject of a message that
/// is no request. None exactly where the template is not one of a request, or is a Heartbeat's, or the field has no value
/// or 4,294,967,295, which counts as none. Where `read_request` answers a request, this is its number. No memory is taken.
pub fn read_number(table: &Table, view: View<'_>) -> Option<u32>
    requires { IsOwn table.now view.layout }
    ensures value { result ≡ number_in table.now view.entry }
    ensures small { IfSome result (λ n. n < 4_294_967_295) }
{
    match view.template().role() {
        Some(role) => number_of(&Fields::over(table, role, view)),
        None => None,
    }
}
