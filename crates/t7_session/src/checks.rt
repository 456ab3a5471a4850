//! The tests on a frame that need nothing but the layout table and the state of its connection.

ghost use Rattle.std.specs.Prelude.{◌≡◌, ℕ, ◌<◌, ◌≤◌, IfOk, IfErr, IfSome, IsNone, Some, None, length, true};
ghost use Rattle.std.specs.Option.{option_and_then};
ghost use Rattle.t7_layout.specs.declared.words.Family.TheVariants.{Eti};
ghost use Rattle.t7_layout.specs.Lookups.{find_role, role_of_layout};
ghost use Rattle.t7_fields.specs.Spelling.{Fits, template_id};
ghost use Rattle.t7_frames.specs.Frames.{IsFrame};
ghost use Rattle.t7_eti.specs.Nulls.{IsOwn};
ghost use Rattle.t7_eti.specs.Requests.{IsAskable, is_request, number_in, request_number};
ghost use Rattle.t7_session.specs.Asked.{asked_of, asked_as, unnumbered};
ghost use Rattle.t7_session.specs.Refused.{number_refused};
ghost use Rattle.t7_session.specs.Steps.{asked_in, frame_step, has_number, is_logon, session_step};

use crate::session::Step;
use byteorder::{ByteOrder, LittleEndian};
use t7_base::SessionId;
use t7_eti::{Reason, Request, is_request, read_number, read_request};
use t7_fields::View;
use t7_layout::{Family, Role, Table, Template};

/// Why a frame is refused, and the MsgSeqNum that its Reject carries.
#[derive(Clone, Copy, Debug, PartialEq, Eq)]
pub(crate) struct Refusal {
    pub(crate) seq: Option<u32>,
    pub(crate) reason: Reason,
}

// A refusal whose Reject carries no number.
fn unnumbered(reason: Reason) -> Refusal
    ensures { result ≡ unnumbered reason }
{
    Refusal { seq: None, reason }
}

// The TemplateID of a frame.
fn template_id(frame: &[u8]) -> u16
    requires { 6 ≤ length frame.now }
    ensures { result ≡ template_id Eti frame.now }
{
    LittleEndian::read_u16(&frame[4..])
}

// The number that the Reject of a frame carries in which a field is missing.
fn number_said(table: &Table, template: &Template, frame: &[u8]) -> Option<u32>
    requires fits { Fits template.now frame.now }
    requires own { IsOwn table.now template.now }
    ensures value { result ≡ number_in table.now (record { layout = template.now; bytes = frame.now }) }
    ensures small { IfSome result (λ n. n < 4_294_967_295) }
{
    match View::of(template, frame) {
        Ok(view) => read_number(table, view),
        Err(_) => unreachable!(),
    }
}

// What a frame of a request's template asks.
fn asked_as(
    table: &Table,
    template: &Template,
    role: Role,
    frame: &[u8],
) -> Result<Request, Refusal>
    requires frame { IsFrame frame.now }
    requires request { is_request role ≡ true }
    requires family { template.now.family ≡ Eti }
    requires role { role_of_layout template.now ≡ Some role }
    requires own { find_role table.now role ≡ Some template.now }
    ensures value { result ≡ asked_as table.now frame.now template.now role }
    ensures askable { IfOk result IsAskable }
    ensures refused { IfErr result (λ r. IfSome r.seq (λ n. n < 4_294_967_295)) }
{
    let Ok(view) = View::of(template, frame) else {
        return Err(unnumbered(Reason::BadLength));
    };
    match read_request(table, view) {
        Ok(request) => Ok(request),
        Err(_) => Err(Refusal {
            seq: number_said(table, template, frame),
            reason: Reason::NullField,
        }),
    }
}

/// What a frame asks, or the first failing test of its form: whether its template is one of a request, whether it is
/// long enough, and whether each field that the request requires has a value.
pub(crate) fn asked_of(table: &Table, frame: &[u8]) -> Result<Request, Refusal>
    requires { IsFrame frame.now }
    ensures value { result ≡ asked_of table.now frame.now }
    ensures askable { IfOk result IsAskable }
    ensures refused { IfErr result (λ r. IfSome r.seq (λ n. n < 4_294_967_295)) }
{
    let Some(template) = table.template(Family::Eti, template_id(frame)) else {
        return Err(unnumbered(Reason::UnknownTemplate));
    };
    match template.role() {
        Some(role) if is_request(role) => asked_as(table, template, role, frame),
        _ => Err(unnumbered(Reason::UnknownTemplate)),
    }
}

// The MsgSeqNum of a request.
pub(crate) fn number_of(request: Request) -> Option<u32>
    ensures { result ≡ request_number request }
{
    match request {
        Request::Logon { seq, .. }
        | Request::Logout { seq }
        | Request::New { seq, .. }
        | Request::Modify { seq, .. }
        | Request::Delete { seq, .. }
        | Request::DeleteAll { seq, .. }
        | Request::Resend { seq, .. } => Some(seq),
        Request::Heartbeat => None,
    }
}

// Whether a request logs on.
fn is_logon(request: Request) -> bool
    ensures { result ≡ is_logon request }
{
    match request {
        Request::Logon { .. } => true,
        _ => false,
    }
}

// Whether a number, if there is one, is the one that is wanted.
fn has_number(wanted: u32, seq: Option<u32>) -> bool
    ensures { result ≡ has_number wanted seq }
{
    match seq {
        Some(seq) => seq == wanted,
        None => true,
    }
}

/// Whether a request may be made in a connection, or the first failing test: that of a logon on the session, that of
/// another request on it, and that of the number.
pub(crate) fn session_step(session: Option<SessionId>, next: u32, request: Request) -> Step
    ensures value { result ≡ session_step session next request }
    ensures next { IsAskable request → (IsNone session → next ≡ 1) → IfSome (option_and_then request_number (asked_in result)) (λ n. next < 4_294_967_295) }
    ensures askable { IsAskable request → IfSome (asked_in result) IsAskable }
    ensures refused { IsAskable request → IfSome (number_refused result) (λ n. n < 4_294_967_295) }
{
    let seq = number_of(request);
    let logon = is_logon(request);
    if logon && session.is_some() {
        return Step::Refuse {
            seq,
            reason: Reason::AlreadyLoggedOn,
        };
    }
    if !logon && session.is_none() {
        return Step::Refuse {
            seq,
            reason: Reason::NotLoggedOn,
        };
    }
    let wanted = if logon { 1 } else { next };
    if !has_number(wanted, seq) {
        return Step::Refuse {
            seq,
            reason: Reason::SeqNum,
        };
    }
    Step::Ask(request)
}

/// The step of a frame.
pub(crate) fn frame_step(table: &Table, session: Option<SessionId>, next: u32, frame: &[u8]) -> Step
    requires { IsFrame frame.now }
    ensures value { result ≡ frame_step table.now session next frame.now }
    ensures next { (IsNone session → next ≡ 1) → IfSome (option_and_then request_number (asked_in result)) (λ n. next < 4_294_967_295) }
    ensures askable { IfSome (asked_in result) IsAskable }
    ensures refused { IfSome (number_refused result) (λ n. n < 4_294_967_295) }
{
    match asked_of(table, frame) {
        Ok(request) => session_step(session, next, request),
        Err(refusal) => Step::Refuse {
            seq: refusal.seq,
            reason: refusal.reason,
        },
    }
}
