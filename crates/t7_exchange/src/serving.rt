//! What the frame at the front of a connection asks, carried out.

ghost use Rattle.std.specs.Prelude.{◌≡◌, ℕ, ◌<◌, List, Contains, Some, None, length, IsNone, IsSome, IfSome, OnOk, OnErr};
ghost use Rattle.std.specs.List.{All};
ghost use Rattle.t7_eti.specs.declared.request.Request.{Request};
ghost use Rattle.t7_eti.specs.declared.request.Request.TheVariants as request;
ghost use Rattle.t7_eti.specs.declared.response.Response.TheVariants as response;
ghost use Rattle.t7_book.specs.declared.command.Command.{Command};
ghost use Rattle.t7_layout.specs.Layouts.{Layout};
ghost use Rattle.t7_eti.specs.Requests.{IsAskable, request_number};
ghost use Rattle.t7_book.specs.Orders.{roster_of};
ghost use Rattle.t7_book.specs.Commands.{IsForProduct, refusal};
ghost use Rattle.t7_base.specs.Listing.{IsListing};
ghost use Rattle.t7_book.specs.Trace.{AreAccepted};
ghost use Rattle.t7_orders.specs.Judged.{IsOrder};
ghost use Rattle.t7_entry.specs.Tellable.{IsTellable};
ghost use Rattle.t7_feed.specs.Sending.{AreRanged};
ghost use Rattle.t7_session.specs.Held.{Held};
ghost use Rattle.t7_entry.specs.ByNumber as numbers;
ghost use Rattle.t7_entry.specs.State.{Setting};
ghost use Rattle.t7_exchange.specs.Maps.{HoldOnly};
ghost use Rattle.t7_exchange.specs.Sayable.{IsSayable};
ghost use Rattle.t7_exchange.specs.Serving.{Enters, HasSession, HasTold, IsSame, Keeps, MayAsk, Orders, Sends, Serves, WasAsked};
ghost use Rattle.t7_exchange.specs.Trading.{book_at, stored_at};

use crate::desk::Desk;
use crate::outbox::Outbox;
use crate::wires::Wires;
use std::alloc::{AllocError, Global};
use t7_base::{Moment, Product, SessionId};
use t7_book::{Command, traces_grow};
use t7_entry::{last_markets_are_books, responses_may_be_written};
use t7_eti::{Reason, Request, Response};
use t7_mbook::messages_fit;
use t7_orders::command;
use t7_session::heartbeat_interval;

/// A LogonRequest: the session is logged on with its heartbeat interval, unless the product lacks it or a connection holds it.
pub(crate) fn log_on(
    product: &Product,
    wires: &mut Wires,
    conn: u32,
    moment: Moment,
    seq: u32,
    heart: u32,
    session: SessionId,
) -> Result<(), AllocError>
    requires asked { WasAsked (request.Logon seq heart session) (numbers.get wires.old.held conn) }
    requires free { IfSome (numbers.get wires.old.held conn) (λ h. IsNone h.session) }
    requires number { seq < 4_294_967_295 }
    ensures serves { OnOk result ((setting : Setting) (accepted : List Command) (h : Held) → setting.listing ≡ product.now
        → numbers.get wires.old.held conn ≡ Some h
        → Serves setting accepted moment conn h (request.Logon seq heart session) wires.old wires.new) }
    ensures only { HoldOnly product.now.sessions wires.old.held → HoldOnly product.now.sessions wires.new.held }
    ensures err { OnErr result (IsSame wires.old wires.new) }
{
    wires.reserve(2)?;
    if !product.sessions().contains(&session) {
        wires.refuse(conn, moment, Some(seq), Reason::UnknownSession);
        return Ok(());
    }
    if wires.holder(session).is_some() {
        wires.refuse(conn, moment, Some(seq), Reason::SessionInUse);
        return Ok(());
    }
    wires.log_on(conn, session, heart, moment);
    wires.done(conn);
    let heart = heartbeat_interval(heart);
    wires.send(conn, moment, Response::Logon { seq, heart });
    Ok(())
}

/// A LogoutRequest: it is answered, and the connection is closed.
pub(crate) fn log_out(
    wires: &mut Wires,
    conn: u32,
    moment: Moment,
    seq: u32,
) -> Result<(), AllocError>
    requires number { seq < 4_294_967_295 }
    ensures serves { OnOk result ((setting : Setting) (accepted : List Command) (h : Held) → numbers.get wires.old.held conn ≡ Some h
        → Serves setting accepted moment conn h (request.Logout seq) wires.old wires.new) }
    ensures only { (sessions : List ℕ) → HoldOnly sessions wires.old.held → HoldOnly sessions wires.new.held }
    ensures err { OnErr result (IsSame wires.old wires.new) }
{
    wires.reserve(2)?;
    wires.send(conn, moment, Response::Logout { seq });
    wires.close(conn);
    Ok(())
}

// A Reject that leaves the connection open: the frame is taken off, and its number is used.
fn reject(
    wires: &mut Wires,
    conn: u32,
    moment: Moment,
    seq: u32,
    reason: Reason,
) -> Result<(), AllocError>
    requires asked { IfSome (numbers.get wires.old.held conn) (λ h. IsSome h.asked) }
    requires number { seq < 4_294_967_295 }
    ensures sends { OnOk result ((accepted : List Command) (asked : Request) (h : Held) → numbers.get wires.old.held conn ≡ Some h → h.asked ≡ Some asked
        → Sends accepted moment conn h asked (response.Reject (Some seq) reason) wires.old wires.new) }
    ensures only { (sessions : List ℕ) → HoldOnly sessions wires.old.held → HoldOnly sessions wires.new.held }
    ensures err { OnErr result (IsSame wires.old wires.new) }
{
    wires.reserve(1)?;
    wires.done(conn);
    let seq = Some(seq);
    wires.send(conn, moment, Response::Reject { seq, reason });
    Ok(())
}

/// A RetransmitMEMessageRequest of a session: its stored responses of a range go out again, behind an answer that says how many
/// they are, their last number, and how many there are in all; a Reject where there is no such range.
pub(crate) fn send_range(
    desk: &Desk,
    wires: &mut Wires,
    conn: u32,
    moment: Moment,
    session: SessionId,
    seq: u32,
    after: u128,
    upto: u128,
) -> Result<(), AllocError>
    requires asked { WasAsked (request.Resend seq after upto) (numbers.get wires.old.held conn) }
    requires session { HasSession session (numbers.get wires.old.held conn) }
    requires known { Contains desk.now.roster.sessions session }
    requires number { seq < 4_294_967_295 }
    requires sayable { All (λ what. IsSayable (response.Kept 0 what)) (stored_at desk.now session) }
    ensures serves { OnOk result ((setting : Setting) (h : Held) → roster_of setting.listing ≡ desk.now.roster → numbers.get wires.old.held conn ≡ Some h
        → Serves setting desk.now.accepted moment conn h (request.Resend seq after upto) wires.old wires.new) }
    ensures only { (sessions : List ℕ) → HoldOnly sessions wires.old.held → HoldOnly sessions wires.new.held }
    ensures err { OnErr result (IsSame wires.old wires.new) }
{
    let Ok(range) = desk.range(session, after, upto) else {
        return reject(wires, conn, moment, seq, Reason::BadRange);
    };
    wires.reserve(1 + range.len())?;
    wires.done(conn);
    let known = desk.count(session) as u128;
    let count = range.len() as u16;
    let last = after + count as u128;
    wires.send(
        conn,
        moment,
        Response::Resent {
            seq,
            count,
            last,
            known,
        },
    );
    wires.send_again(conn, moment, after, range);
    Ok(())
}

/// A command that the book takes is entered: it is accepted, its messages are told, and its responses are stored. There is room
/// for its replies. After an error nothing has changed but the room and what is known of the last command.
pub(crate) fn enter(
    alloc: Global,
    product: &Product,
    desk: &mut Desk,
    wires: &mut Wires,
    outbox: &mut Outbox<'_>,
    command: &Command,
) -> Result<(), AllocError>
    requires product { desk.old.roster ≡ roster_of product.now }
    requires for_it { IsForProduct desk.old.roster command.now }
    requires allowed { refusal (book_at desk.old) command.now ≡ None }
    requires few { length desk.old.accepted < 200_000 }
    requires told { HasTold product.now desk.old.accepted outbox.old }
    requires tellable { All IsTellable desk.old.accepted }
    requires tells { IsTellable command.now }
    ensures ok { OnOk result (Enters command.now desk.old desk.new wires.old wires.new outbox.old outbox.new) }
    ensures told { OnOk result (HasTold product.now desk.new.accepted outbox.new) }
    ensures err { OnErr result (Keeps desk.old desk.new wires.old wires.new outbox.old outbox.new) }
{
    responses_may_be_written();
    messages_fit();
    traces_grow();
    last_markets_are_books();
    let orders = desk.book().len();
    wires.reserve(2 + 2 * (orders + product.sessions().len()))?;
    outbox.reserve(orders + 3)?;
    let mut told = Vec::new(alloc);
    desk.enter(product, command, &mut told)?;
    outbox.tell(told);
    Ok(())
}

/// An order request of a session: its command is accepted, or a Reject names the first failing test.
pub(crate) fn order(
    alloc: Global,
    product: &Product,
    desk: &mut Desk,
    wires: &mut Wires,
    outbox: &mut Outbox<'_>,
    conn: u32,
    moment: Moment,
    session: SessionId,
    seq: u32,
    request: &Request,
) -> Result<(), AllocError>
    requires product { desk.old.roster ≡ roster_of product.now }
    requires told { HasTold product.now desk.old.accepted outbox.old }
    requires tellable { All IsTellable desk.old.accepted }
    requires ranged { AreRanged desk.old.accepted }
    requires order { IsOrder request.now }
    requires asked { WasAsked request.now (numbers.get wires.old.held conn) }
    requires session { HasSession session (numbers.get wires.old.held conn) }
    requires known { Contains product.now.sessions session }
    requires seq { request_number request.now ≡ Some seq }
    requires askable { IsAskable request.now }
    ensures ok { OnOk result ((layouts : List Layout) →
        Orders layouts product.now moment conn request.now desk.old desk.new wires.old wires.new outbox.old outbox.new) }
    ensures err { OnErr result (Keeps desk.old desk.new wires.old wires.new outbox.old outbox.new) }
{
    let _nanoseconds = moment.get();
    let accepted = desk.commands().len() as u32;
    let command = match command(product, desk.book(), session, accepted, moment, request) {
        Ok(command) => command,
        Err(reason) => return reject(wires, conn, moment, seq, reason),
    };
    enter(alloc, product, desk, wires, outbox, &command)?;
    wires.done(conn);
    wires.deliver(moment, desk.fresh());
    Ok(())
}

/// What the frame at the front of an open connection asks is answered. After an error nothing has changed but the room and what
/// is known of the last command.
pub(crate) fn answer(
    alloc: Global,
    product: &Product,
    desk: &mut Desk,
    wires: &mut Wires,
    outbox: &mut Outbox<'_>,
    conn: u32,
    moment: Moment,
    request: &Request,
) -> Result<(), AllocError>
    requires listing { IsListing product.now }
    requires product { desk.old.roster ≡ roster_of product.now }
    requires accepted { AreAccepted product.now desk.old.accepted }
    requires tellable { All IsTellable desk.old.accepted }
    requires ranged { AreRanged desk.old.accepted }
    requires told { HasTold product.now desk.old.accepted outbox.old }
    requires sessions { HoldOnly product.now.sessions wires.old.held }
    requires rises { numbers.Rises wires.old.held }
    requires may { MayAsk request.now (numbers.get wires.old.held conn) }
    requires askable { IsAskable request.now }
    ensures ok { OnOk result ((layouts : List Layout) →
        Orders layouts product.now moment conn request.now desk.old desk.new wires.old wires.new outbox.old outbox.new) }
    ensures err { OnErr result (Keeps desk.old desk.new wires.old wires.new outbox.old outbox.new) }
{
    responses_may_be_written();
    match *request {
        Request::Logon {
            seq,
            heart,
            session,
        } => {
            let session = SessionId(session);
            log_on(product, wires, conn, moment, seq, heart, session)
        }
        Request::Logout { seq } => log_out(wires, conn, moment, seq),
        Request::Heartbeat => {
            wires.done(conn);
            Ok(())
        }
        Request::Resend { seq, after, upto } => {
            let session = wires.who(conn).unwrap();
            send_range(desk, wires, conn, moment, session, seq, after, upto)
        }
        Request::New { seq, .. }
        | Request::Modify { seq, .. }
        | Request::Delete { seq, .. }
        | Request::DeleteAll { seq, .. } => {
            let session = wires.who(conn).unwrap();
            order(
                alloc, product, desk, wires, outbox, conn, moment, session, seq, request,
            )
        }
    }
}
