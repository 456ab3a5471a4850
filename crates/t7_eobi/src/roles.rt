//! The roles of market data: on which channel each stands, and which a message or an item has.

ghost use Rattle.std.specs.Prelude.{◌≡◌, ◌≢◌, true, false, Some};
ghost use Rattle.std.specs.Option.{option_map_or};
ghost use Rattle.t7_base.specs.declared.public.Public.TheVariants as public;
ghost use Rattle.t7_layout.specs.declared.words.Family.TheVariants.{Eobi};
ghost use Rattle.t7_layout.specs.Roles.{family_of};
ghost use Rattle.t7_eobi.specs.Bytes.{role_for, snap_role};
ghost use Rattle.t7_eobi.specs.Datagrams.{in_channel};
ghost use Rattle.t7_eobi.specs.Faults.{is_header};
ghost use Rattle.t7_eobi.specs.Ranges.{is_live};

use crate::walks::Snap;
use t7_base::{Channel, Public};
use t7_layout::Role;

/// Whether a message is of the header's template.
pub(crate) fn is_header(role: Option<Role>) -> bool
    ensures { result ≡ option_map_or is_header role false }
{
    match role {
        Some(Role::PacketHeader) => true,
        _ => false,
    }
}

/// Whether a role is that of a live message.
pub(crate) fn is_live(role: Role) -> bool
    ensures { result ≡ is_live role }
{
    match role {
        Role::OrderAdd
        | Role::OrderModify
        | Role::OrderModifySamePriority
        | Role::OrderDelete
        | Role::OrderMassDelete
        | Role::PartialOrderExecution
        | Role::FullOrderExecution
        | Role::ExecutionSummary => true,
        _ => false,
    }
}

/// Whether a role is one of a channel behind the header.
pub(crate) fn in_channel(channel: Channel, role: Role) -> bool
    ensures { result ≡ in_channel channel role }
{
    match channel {
        Channel::Live => match role {
            Role::EobiHeartbeat => true,
            other => is_live(other),
        },
        Channel::Snap => match role {
            Role::ProductSummary | Role::InstrumentSummary | Role::SnapshotOrder => true,
            _ => false,
        },
    }
}

/// The role of a live message.
pub(crate) fn role_for(message: &Public) -> Role
    requires { message.now ≢ public.Other }
    ensures role { result ≡ role_for message.now }
    ensures family { family_of result ≡ Eobi }
{
    match message {
        Public::Add { .. } => Role::OrderAdd,
        Public::Modify { .. } => Role::OrderModify,
        Public::SamePriority { .. } => Role::OrderModifySamePriority,
        Public::Delete { .. } => Role::OrderDelete,
        Public::MassDelete { .. } => Role::OrderMassDelete,
        Public::Partial { .. } => Role::PartialOrderExecution,
        Public::Full { .. } => Role::FullOrderExecution,
        Public::Summary { .. } => Role::ExecutionSummary,
        Public::Other => unreachable!(),
    }
}

/// The role of an item of the snapshot channel.
pub(crate) fn snap_role(snap: &Snap) -> Role
    ensures role { result ≡ snap_role snap.now }
    ensures family { family_of result ≡ Eobi }
{
    match snap {
        Snap::Product(_) => Role::ProductSummary,
        Snap::Instrument { .. } => Role::InstrumentSummary,
        Snap::Order { .. } => Role::SnapshotOrder,
    }
}
