//! How what an exchange sends grows as it acts: laws over definitions alone, whose functions compute nothing.
#![tactic(auto)]

mod events;
mod sending;

pub use events::{
    an_event_tells_its_messages, days_stay_in_step, events_only_add, what_is_due_is_what_acts_send,
};
pub use sending::{
    a_heartbeat_sends_one_more, a_snapshot_sends_one_more, genuine_stays, more_commands_send_more,
    nothing_was_sent, what_was_sent_is_genuine,
};
