//! What always holds of the definitions of requests and responses.

ghost use Rattle.std.specs.Prelude.{◌≡◌, List, Ok, Some, Contains, ℕ};
ghost use Rattle.t7_layout.specs.declared.roles.Role.{Role};
ghost use Rattle.t7_layout.specs.Layouts.{Layout};
ghost use Rattle.t7_layout.specs.Lookups.{IsTable, find_role};
ghost use Rattle.t7_fields.specs.Spelling.{Seen};
ghost use Rattle.t7_fields.specs.Writing.{AreKnown, IsWritten};
ghost use Rattle.t7_eti.specs.declared.request.Request.{Request};
ghost use Rattle.t7_eti.specs.declared.response.Response.{Response};
ghost use Rattle.t7_eti.specs.Framed.{ResponsesAreFrames};
ghost use Rattle.t7_eti.specs.Nulls.{IsOwn};
ghost use Rattle.t7_eti.specs.Requests.{IsAskable, number_in, request_in, request_number};
ghost use Rattle.t7_eti.specs.Responses.{response_in};
ghost use Rattle.t7_eti.specs.Saying.{EachOrdinary, IsRanged, read_again, request_fields, request_role, response_fields, response_role};

use t7_fields::a_message_says_what_is_written;

/// Each template of a valid table is the one that the table has for its role, if it has a role. So messages under it may
/// be read.
pub fn templates_of_a_table_may_be_read()
    ensures { (layouts : List Layout) (t : Layout) → IsTable layouts → Contains layouts t → IsOwn layouts t }
{}

/// The template of a role is one under which messages may be read.
pub fn templates_of_roles_may_be_read()
    ensures { (layouts : List Layout) (role : Role) (t : Layout) → find_role layouts role ≡ Some t → IsOwn layouts t }
{}

/// A request that was read has the number that its message says.
pub fn a_read_request_has_its_number()
    ensures { (layouts : List Layout) (v : Seen) (r : Request) → request_in layouts v ≡ Ok r → request_number r ≡ number_in layouts v }
{}

/// A message that says a request and nothing else is read as it.
pub fn a_said_request_is_read()
    ensures { (layouts : List Layout) (r : Request) (t : Layout) (bytes : List ℕ) → find_role layouts (request_role r) ≡ Some t → IsAskable r → IsWritten layouts (request_role r) (request_fields r) bytes → request_in layouts (record { layout = t; bytes = bytes }) ≡ Ok r }
{}

/// A message that says a response and nothing else is read as it, but a Reject without a number has the number 0 where
/// the table gives its MsgSeqNum no number that stands for no value.
pub fn a_said_response_is_read()
    ensures { (layouts : List Layout) (r : Response) (t : Layout) (bytes : List ℕ) → find_role layouts (response_role r) ≡ Some t → IsRanged r → IsWritten layouts (response_role r) (response_fields r) bytes → response_in layouts (record { layout = t; bytes = bytes }) ≡ Ok (read_again layouts r) }
{}

/// In a valid table no number of a request that is not the greatest of its type, or the least of a signed one, is the one
/// that stands for no value in its field.
pub fn ordinary_requests_may_be_written()
    ensures { (layouts : List Layout) (r : Request) → IsTable layouts → EachOrdinary (request_fields r) → AreKnown layouts (request_role r) (request_fields r) }
{}

/// The same of the numbers of a response.
pub fn ordinary_responses_may_be_written()
    ensures { (layouts : List Layout) (r : Response) → IsTable layouts → EachOrdinary (response_fields r) → AreKnown layouts (response_role r) (response_fields r) }
{}

/// The bytes of a response are as many as its template has, 8 to 1,024, BodyLen says their count, and they are read as the
/// response. So they are a frame of a connection, whatever stands before or behind them.
pub fn responses_are_frames()
    ensures { ResponsesAreFrames }
{
    a_message_says_what_is_written();
}
