//! Records of order entry: requests and responses, and the messages that say them.
#![tactic(auto)]

mod laws;
mod nulls;
mod numbers;
mod ranges;
mod reason;
mod request;
mod response;
#[cfg(test)]
mod tests;
mod write;

pub use laws::{
    a_read_request_has_its_number, a_said_request_is_read, a_said_response_is_read,
    ordinary_requests_may_be_written, ordinary_responses_may_be_written, responses_are_frames,
    templates_of_a_table_may_be_read, templates_of_roles_may_be_read,
};
pub use nulls::FieldFault;
pub use reason::Reason;
pub use request::{Request, is_request, read_number, read_request};
pub use response::{Kept, Response, read_response};
pub use write::{write_request, write_response};
