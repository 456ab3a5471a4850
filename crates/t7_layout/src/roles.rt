//! The templates that the product itself reads and writes.

ghost use Rattle.std.specs.Prelude.{◌≡◌, ◌<◌};
ghost use Rattle.t7_layout.specs.Roles.{family_of, field_text, kind_of, name_number, required, role_number, role_text, width_in};

use crate::words::{Family, Kind};

/// A message with a part in the product: a template known by its family and its name. The first nineteen are messages
/// of order entry, requests before responses; the others are market data.
#[derive(Clone, Copy, Debug, PartialEq, Eq)]
pub enum Role {
    LogonRequest,
    LogoutRequest,
    EtiHeartbeat,
    NewOrderSingleRequest,
    ModifyOrderSingleRequest,
    DeleteOrderSingleRequest,
    DeleteAllOrderRequest,
    RetransmitMEMessageRequest,
    LogonResponse,
    LogoutResponse,
    HeartbeatNotification,
    Reject,
    RetransmitMEMessageResponse,
    NewOrderResponse,
    ModifyOrderResponse,
    DeleteOrderResponse,
    DeleteAllOrderResponse,
    DeleteAllOrderBroadcast,
    OrderExecNotification,
    PacketHeader,
    EobiHeartbeat,
    OrderAdd,
    OrderModify,
    OrderModifySamePriority,
    OrderDelete,
    OrderMassDelete,
    PartialOrderExecution,
    FullOrderExecution,
    ExecutionSummary,
    ProductSummary,
    InstrumentSummary,
    SnapshotOrder,
}

/// The name of a field that some role requires, as the manuals spell it.
#[derive(Clone, Copy, Debug, PartialEq, Eq)]
pub enum FieldName {
    BodyLen,
    TemplateID,
    MsgSeqNum,
    HeartBtInt,
    PartyIDSessionID,
    Side,
    SecurityID,
    ClOrdID,
    Price,
    OrderQty,
    OrderID,
    ApplBegMsgID,
    ApplEndMsgID,
    SessionRejectReason,
    ApplTotalMessageCount,
    RefApplLastMsgID,
    ApplMsgID,
    TrdRegTSTimePriority,
    NoAffectedOrders,
    LeavesQty,
    CumQty,
    FillQty,
    FillPx,
    ApplSeqNum,
    MarketSegmentID,
    LastMsgSeqNumProcessed,
    DisplayQty,
    TrdRegTSPrevTimePriority,
    PrevPrice,
    PrevDisplayQty,
    LastQty,
    LastPx,
    AggressorTime,
    AggressorSide,
    TotNoOrders,
}

impl Role {
    /// Every role.
    pub const ALL: [Role; 32] = [
        Role::LogonRequest,
        Role::LogoutRequest,
        Role::EtiHeartbeat,
        Role::NewOrderSingleRequest,
        Role::ModifyOrderSingleRequest,
        Role::DeleteOrderSingleRequest,
        Role::DeleteAllOrderRequest,
        Role::RetransmitMEMessageRequest,
        Role::LogonResponse,
        Role::LogoutResponse,
        Role::HeartbeatNotification,
        Role::Reject,
        Role::RetransmitMEMessageResponse,
        Role::NewOrderResponse,
        Role::ModifyOrderResponse,
        Role::DeleteOrderResponse,
        Role::DeleteAllOrderResponse,
        Role::DeleteAllOrderBroadcast,
        Role::OrderExecNotification,
        Role::PacketHeader,
        Role::EobiHeartbeat,
        Role::OrderAdd,
        Role::OrderModify,
        Role::OrderModifySamePriority,
        Role::OrderDelete,
        Role::OrderMassDelete,
        Role::PartialOrderExecution,
        Role::FullOrderExecution,
        Role::ExecutionSummary,
        Role::ProductSummary,
        Role::InstrumentSummary,
        Role::SnapshotOrder,
    ];

    /// Where it stands in `ALL`.
    pub(crate) fn number(self) -> usize
        ensures value { result ≡ role_number self }
        ensures limit { result < 32 }
    {
        self as usize
    }

    /// The message set that it is of.
    pub fn family(self) -> Family
        ensures { result ≡ family_of self }
    {
        match self {
            Role::PacketHeader
            | Role::EobiHeartbeat
            | Role::OrderAdd
            | Role::OrderModify
            | Role::OrderModifySamePriority
            | Role::OrderDelete
            | Role::OrderMassDelete
            | Role::PartialOrderExecution
            | Role::FullOrderExecution
            | Role::ExecutionSummary
            | Role::ProductSummary
            | Role::InstrumentSummary
            | Role::SnapshotOrder => Family::Eobi,
            _ => Family::Eti,
        }
    }

    /// Its template's name, as a table spells it.
    pub fn name(self) -> &'static [u8]
        ensures { result.now ≡ role_text self }
    {
        match self {
            Role::LogonRequest => b"LogonRequest",
            Role::LogoutRequest => b"LogoutRequest",
            Role::EtiHeartbeat => b"Heartbeat",
            Role::NewOrderSingleRequest => b"NewOrderSingleRequest",
            Role::ModifyOrderSingleRequest => b"ModifyOrderSingleRequest",
            Role::DeleteOrderSingleRequest => b"DeleteOrderSingleRequest",
            Role::DeleteAllOrderRequest => b"DeleteAllOrderRequest",
            Role::RetransmitMEMessageRequest => b"RetransmitMEMessageRequest",
            Role::LogonResponse => b"LogonResponse",
            Role::LogoutResponse => b"LogoutResponse",
            Role::HeartbeatNotification => b"HeartbeatNotification",
            Role::Reject => b"Reject",
            Role::RetransmitMEMessageResponse => b"RetransmitMEMessageResponse",
            Role::NewOrderResponse => b"NewOrderResponse",
            Role::ModifyOrderResponse => b"ModifyOrderResponse",
            Role::DeleteOrderResponse => b"DeleteOrderResponse",
            Role::DeleteAllOrderResponse => b"DeleteAllOrderResponse",
            Role::DeleteAllOrderBroadcast => b"DeleteAllOrderBroadcast",
            Role::OrderExecNotification => b"OrderExecNotification",
            Role::PacketHeader => b"PacketHeader",
            Role::EobiHeartbeat => b"Heartbeat",
            Role::OrderAdd => b"OrderAdd",
            Role::OrderModify => b"OrderModify",
            Role::OrderModifySamePriority => b"OrderModifySamePriority",
            Role::OrderDelete => b"OrderDelete",
            Role::OrderMassDelete => b"OrderMassDelete",
            Role::PartialOrderExecution => b"PartialOrderExecution",
            Role::FullOrderExecution => b"FullOrderExecution",
            Role::ExecutionSummary => b"ExecutionSummary",
            Role::ProductSummary => b"ProductSummary",
            Role::InstrumentSummary => b"InstrumentSummary",
            Role::SnapshotOrder => b"SnapshotOrder",
        }
    }

    /// The fields that its template must have, the header's first. Further fields may stand beside them.
    pub fn required(self) -> &'static [FieldName]
        ensures { result.now ≡ required self }
    {
        match self {
            Role::LogonRequest => &[
                FieldName::BodyLen,
                FieldName::TemplateID,
                FieldName::MsgSeqNum,
                FieldName::HeartBtInt,
                FieldName::PartyIDSessionID,
            ],
            Role::LogoutRequest => &[
                FieldName::BodyLen,
                FieldName::TemplateID,
                FieldName::MsgSeqNum,
            ],
            Role::EtiHeartbeat => &[FieldName::BodyLen, FieldName::TemplateID],
            Role::NewOrderSingleRequest => &[
                FieldName::BodyLen,
                FieldName::TemplateID,
                FieldName::MsgSeqNum,
                FieldName::Side,
                FieldName::SecurityID,
                FieldName::ClOrdID,
                FieldName::Price,
                FieldName::OrderQty,
            ],
            Role::ModifyOrderSingleRequest => &[
                FieldName::BodyLen,
                FieldName::TemplateID,
                FieldName::MsgSeqNum,
                FieldName::OrderID,
                FieldName::ClOrdID,
                FieldName::Price,
                FieldName::OrderQty,
            ],
            Role::DeleteOrderSingleRequest => &[
                FieldName::BodyLen,
                FieldName::TemplateID,
                FieldName::MsgSeqNum,
                FieldName::OrderID,
                FieldName::ClOrdID,
            ],
            Role::DeleteAllOrderRequest => &[
                FieldName::BodyLen,
                FieldName::TemplateID,
                FieldName::MsgSeqNum,
                FieldName::SecurityID,
            ],
            Role::RetransmitMEMessageRequest => &[
                FieldName::BodyLen,
                FieldName::TemplateID,
                FieldName::MsgSeqNum,
                FieldName::ApplBegMsgID,
                FieldName::ApplEndMsgID,
            ],
            Role::LogonResponse => &[
                FieldName::BodyLen,
                FieldName::TemplateID,
                FieldName::MsgSeqNum,
                FieldName::HeartBtInt,
            ],
            Role::LogoutResponse => &[
                FieldName::BodyLen,
                FieldName::TemplateID,
                FieldName::MsgSeqNum,
            ],
            Role::HeartbeatNotification => &[FieldName::BodyLen, FieldName::TemplateID],
            Role::Reject => &[
                FieldName::BodyLen,
                FieldName::TemplateID,
                FieldName::MsgSeqNum,
                FieldName::SessionRejectReason,
            ],
            Role::RetransmitMEMessageResponse => &[
                FieldName::BodyLen,
                FieldName::TemplateID,
                FieldName::MsgSeqNum,
                FieldName::ApplTotalMessageCount,
                FieldName::ApplEndMsgID,
                FieldName::RefApplLastMsgID,
            ],
            Role::NewOrderResponse => &[
                FieldName::BodyLen,
                FieldName::TemplateID,
                FieldName::ApplMsgID,
                FieldName::OrderID,
                FieldName::ClOrdID,
                FieldName::TrdRegTSTimePriority,
            ],
            Role::ModifyOrderResponse => &[
                FieldName::BodyLen,
                FieldName::TemplateID,
                FieldName::ApplMsgID,
                FieldName::OrderID,
                FieldName::ClOrdID,
                FieldName::TrdRegTSTimePriority,
            ],
            Role::DeleteOrderResponse => &[
                FieldName::BodyLen,
                FieldName::TemplateID,
                FieldName::ApplMsgID,
                FieldName::OrderID,
                FieldName::ClOrdID,
            ],
            Role::DeleteAllOrderResponse => &[
                FieldName::BodyLen,
                FieldName::TemplateID,
                FieldName::ApplMsgID,
                FieldName::SecurityID,
                FieldName::NoAffectedOrders,
            ],
            Role::DeleteAllOrderBroadcast => &[
                FieldName::BodyLen,
                FieldName::TemplateID,
                FieldName::ApplMsgID,
                FieldName::SecurityID,
                FieldName::NoAffectedOrders,
            ],
            Role::OrderExecNotification => &[
                FieldName::BodyLen,
                FieldName::TemplateID,
                FieldName::ApplMsgID,
                FieldName::OrderID,
                FieldName::LeavesQty,
                FieldName::CumQty,
                FieldName::FillQty,
                FieldName::FillPx,
                FieldName::Side,
            ],
            Role::PacketHeader => &[
                FieldName::BodyLen,
                FieldName::TemplateID,
                FieldName::MsgSeqNum,
                FieldName::ApplSeqNum,
                FieldName::MarketSegmentID,
            ],
            Role::EobiHeartbeat => &[
                FieldName::BodyLen,
                FieldName::TemplateID,
                FieldName::MsgSeqNum,
                FieldName::LastMsgSeqNumProcessed,
            ],
            Role::OrderAdd => &[
                FieldName::BodyLen,
                FieldName::TemplateID,
                FieldName::MsgSeqNum,
                FieldName::SecurityID,
                FieldName::TrdRegTSTimePriority,
                FieldName::DisplayQty,
                FieldName::Side,
                FieldName::Price,
            ],
            Role::OrderModify => &[
                FieldName::BodyLen,
                FieldName::TemplateID,
                FieldName::MsgSeqNum,
                FieldName::SecurityID,
                FieldName::TrdRegTSPrevTimePriority,
                FieldName::PrevPrice,
                FieldName::PrevDisplayQty,
                FieldName::TrdRegTSTimePriority,
                FieldName::DisplayQty,
                FieldName::Side,
                FieldName::Price,
            ],
            Role::OrderModifySamePriority => &[
                FieldName::BodyLen,
                FieldName::TemplateID,
                FieldName::MsgSeqNum,
                FieldName::SecurityID,
                FieldName::TrdRegTSTimePriority,
                FieldName::PrevDisplayQty,
                FieldName::DisplayQty,
                FieldName::Side,
                FieldName::Price,
            ],
            Role::OrderDelete => &[
                FieldName::BodyLen,
                FieldName::TemplateID,
                FieldName::MsgSeqNum,
                FieldName::SecurityID,
                FieldName::TrdRegTSTimePriority,
                FieldName::DisplayQty,
                FieldName::Side,
                FieldName::Price,
            ],
            Role::OrderMassDelete => &[
                FieldName::BodyLen,
                FieldName::TemplateID,
                FieldName::MsgSeqNum,
                FieldName::SecurityID,
            ],
            Role::PartialOrderExecution => &[
                FieldName::BodyLen,
                FieldName::TemplateID,
                FieldName::MsgSeqNum,
                FieldName::SecurityID,
                FieldName::TrdRegTSTimePriority,
                FieldName::Side,
                FieldName::Price,
                FieldName::LastQty,
                FieldName::LastPx,
            ],
            Role::FullOrderExecution => &[
                FieldName::BodyLen,
                FieldName::TemplateID,
                FieldName::MsgSeqNum,
                FieldName::SecurityID,
                FieldName::TrdRegTSTimePriority,
                FieldName::Side,
                FieldName::Price,
                FieldName::LastQty,
                FieldName::LastPx,
            ],
            Role::ExecutionSummary => &[
                FieldName::BodyLen,
                FieldName::TemplateID,
                FieldName::MsgSeqNum,
                FieldName::SecurityID,
                FieldName::AggressorTime,
                FieldName::AggressorSide,
                FieldName::LastQty,
                FieldName::LastPx,
            ],
            Role::ProductSummary => &[
                FieldName::BodyLen,
                FieldName::TemplateID,
                FieldName::MsgSeqNum,
                FieldName::LastMsgSeqNumProcessed,
            ],
            Role::InstrumentSummary => &[
                FieldName::BodyLen,
                FieldName::TemplateID,
                FieldName::MsgSeqNum,
                FieldName::SecurityID,
                FieldName::TotNoOrders,
            ],
            Role::SnapshotOrder => &[
                FieldName::BodyLen,
                FieldName::TemplateID,
                FieldName::MsgSeqNum,
                FieldName::TrdRegTSTimePriority,
                FieldName::DisplayQty,
                FieldName::Side,
                FieldName::Price,
            ],
        }
    }
}

impl FieldName {
    /// Every name.
    pub const ALL: [FieldName; 35] = [
        FieldName::BodyLen,
        FieldName::TemplateID,
        FieldName::MsgSeqNum,
        FieldName::HeartBtInt,
        FieldName::PartyIDSessionID,
        FieldName::Side,
        FieldName::SecurityID,
        FieldName::ClOrdID,
        FieldName::Price,
        FieldName::OrderQty,
        FieldName::OrderID,
        FieldName::ApplBegMsgID,
        FieldName::ApplEndMsgID,
        FieldName::SessionRejectReason,
        FieldName::ApplTotalMessageCount,
        FieldName::RefApplLastMsgID,
        FieldName::ApplMsgID,
        FieldName::TrdRegTSTimePriority,
        FieldName::NoAffectedOrders,
        FieldName::LeavesQty,
        FieldName::CumQty,
        FieldName::FillQty,
        FieldName::FillPx,
        FieldName::ApplSeqNum,
        FieldName::MarketSegmentID,
        FieldName::LastMsgSeqNumProcessed,
        FieldName::DisplayQty,
        FieldName::TrdRegTSPrevTimePriority,
        FieldName::PrevPrice,
        FieldName::PrevDisplayQty,
        FieldName::LastQty,
        FieldName::LastPx,
        FieldName::AggressorTime,
        FieldName::AggressorSide,
        FieldName::TotNoOrders,
    ];

    /// Where it stands in `ALL`.
    pub(crate) fn number(self) -> usize
        ensures value { result ≡ name_number self }
        ensures limit { result < 35 }
    {
        self as usize
    }

    /// The name as a table has it.
    pub fn text(self) -> &'static [u8]
        ensures { result.now ≡ field_text self }
    {
        match self {
            FieldName::BodyLen => b"BodyLen",
            FieldName::TemplateID => b"TemplateID",
            FieldName::MsgSeqNum => b"MsgSeqNum",
            FieldName::HeartBtInt => b"HeartBtInt",
            FieldName::PartyIDSessionID => b"PartyIDSessionID",
            FieldName::Side => b"Side",
            FieldName::SecurityID => b"SecurityID",
            FieldName::ClOrdID => b"ClOrdID",
            FieldName::Price => b"Price",
            FieldName::OrderQty => b"OrderQty",
            FieldName::OrderID => b"OrderID",
            FieldName::ApplBegMsgID => b"ApplBegMsgID",
            FieldName::ApplEndMsgID => b"ApplEndMsgID",
            FieldName::SessionRejectReason => b"SessionRejectReason",
            FieldName::ApplTotalMessageCount => b"ApplTotalMessageCount",
            FieldName::RefApplLastMsgID => b"RefApplLastMsgID",
            FieldName::ApplMsgID => b"ApplMsgID",
            FieldName::TrdRegTSTimePriority => b"TrdRegTSTimePriority",
            FieldName::NoAffectedOrders => b"NoAffectedOrders",
            FieldName::LeavesQty => b"LeavesQty",
            FieldName::CumQty => b"CumQty",
            FieldName::FillQty => b"FillQty",
            FieldName::FillPx => b"FillPx",
            FieldName::ApplSeqNum => b"ApplSeqNum",
            FieldName::MarketSegmentID => b"MarketSegmentID",
            FieldName::LastMsgSeqNumProcessed => b"LastMsgSeqNumProcessed",
            FieldName::DisplayQty => b"DisplayQty",
            FieldName::TrdRegTSPrevTimePriority => b"TrdRegTSPrevTimePriority",
            FieldName::PrevPrice => b"PrevPrice",
            FieldName::PrevDisplayQty => b"PrevDisplayQty",
            FieldName::LastQty => b"LastQty",
            FieldName::LastPx => b"LastPx",
            FieldName::AggressorTime => b"AggressorTime",
            FieldName::AggressorSide => b"AggressorSide",
            FieldName::TotNoOrders => b"TotNoOrders",
        }
    }

    /// How the field of this name is read, in every message that has it.
    pub fn kind(self) -> Kind
        ensures { result ≡ kind_of self }
    {
        match self {
            FieldName::SecurityID
            | FieldName::Price
            | FieldName::OrderQty
            | FieldName::LeavesQty
            | FieldName::CumQty
            | FieldName::FillQty
            | FieldName::FillPx
            | FieldName::MarketSegmentID
            | FieldName::DisplayQty
            | FieldName::PrevPrice
            | FieldName::PrevDisplayQty
            | FieldName::LastQty
            | FieldName::LastPx => Kind::Signed,
            FieldName::ApplBegMsgID
            | FieldName::ApplEndMsgID
            | FieldName::RefApplLastMsgID
            | FieldName::ApplMsgID => Kind::Raw,
            _ => Kind::Unsigned,
        }
    }

    /// How many bytes the field of this name has in a message of a family; only the length's depends on the family.
    pub fn width(self, family: Family) -> usize
        ensures { result ≡ width_in family self }
    {
        match (self, family) {
            (FieldName::BodyLen, Family::Eti) => 4,
            (FieldName::BodyLen, Family::Eobi) => 2,
            (FieldName::Side | FieldName::AggressorSide, _) => 1,
            (
                FieldName::TemplateID
                | FieldName::ApplTotalMessageCount
                | FieldName::NoAffectedOrders
                | FieldName::TotNoOrders,
                _,
            ) => 2,
            (
                FieldName::MsgSeqNum
                | FieldName::HeartBtInt
                | FieldName::PartyIDSessionID
                | FieldName::SessionRejectReason
                | FieldName::ApplSeqNum
                | FieldName::MarketSegmentID
                | FieldName::LastMsgSeqNumProcessed,
                _,
            ) => 4,
            (
                FieldName::SecurityID
                | FieldName::ClOrdID
                | FieldName::Price
                | FieldName::OrderQty
                | FieldName::OrderID
                | FieldName::TrdRegTSTimePriority
                | FieldName::LeavesQty
                | FieldName::CumQty
                | FieldName::FillQty
                | FieldName::FillPx
                | FieldName::DisplayQty
                | FieldName::TrdRegTSPrevTimePriority
                | FieldName::PrevPrice
                | FieldName::PrevDisplayQty
                | FieldName::LastQty
                | FieldName::LastPx
                | FieldName::AggressorTime,
                _,
            ) => 8,
            (
                FieldName::ApplBegMsgID
                | FieldName::ApplEndMsgID
                | FieldName::RefApplLastMsgID
                | FieldName::ApplMsgID,
                _,
            ) => 16,
        }
    }
}
