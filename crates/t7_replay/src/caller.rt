//! The client of a replay, with the connection that it dialed last.

ghost use Rattle.std.specs.Prelude.{◌≡◌, ◌+◌, ◌^◌, ◌<◌, ◌≤◌, ◌++◌, ◌≤ℤ◌, [], false, true, pos, length, unwrap_or};
ghost use Rattle.std.specs.Prelude.{IfOk, IfSome, IfNone, OnOk, option_map};
ghost use Rattle.t7_client.specs.Recovering.{is_recovered, making};
ghost use Rattle.t7_eti.specs.declared.request.Request.TheVariants as request;
ghost use Rattle.t7_eti.specs.Saying.{side_number};
ghost use Rattle.t7_outcome.specs.Outcome.{text_of};
ghost use Rattle.t7_report.specs.Gathered.{gathered_lines};
ghost use Rattle.t7_replay.specs.Calling as calling;
ghost use Rattle.t7_replay.specs.Calling.{HandsUp, IsSoundCalling, came_down, dials, hangs_up, is_on, is_on_line, is_too_much, new_calling, with_close, with_frame};

use std::alloc::{AllocError, Global};
use std::marker::Model;
use t7_base::{Price, Qty, SecurityId, SessionId, Side};
use t7_client::{Client, ClientFault};
use t7_layout::Table;
use t7_report::push_gathered;

/// The most bytes that may come to a client since its dial.
const MOST_BYTES: usize = 34_359_738_368;

/// A client, the connection that it dialed last, and the bytes that were sent on it and have not come to the client. Contracts see it
/// as a `Calling`.
#[derive(Drop)]
pub(crate) struct Caller<'a> {
    client: Client<'a>,
    session: SessionId,
    conn: u32,
    dialed: bool,
    lasts: bool,
    coming: Vec<u8>,
    came: usize,
}

impl<'a> Model for Caller<'a> {
    ghost use Rattle.t7_replay.specs.Calling.{Calling, IsNoted};

    ghost Value = { Calling };

    ghost view = { λ c. record { client = c.client; session = c.session; conn = c.conn; lasts = c.lasts; coming = c.coming.items } };

    ghost invariant = { λ c. IsNoted c.client c.dialed c.came };
}

impl<'a> Caller<'a> {
    /// A client of a session, 1..=4,000,000,000, that has not dialed. An error comes only where memory is wanting.
    pub(crate) fn new(
        alloc: Global,
        table: &'a Table,
        session: SessionId,
    ) -> Result<Caller<'a>, AllocError>
        requires { (1 ≤ session) × (session ≤ 4_000_000_000) }
        ensures { IfOk result (λ calling. calling ≡ new_calling table.now session) }
    {
        Ok(Caller {
            client: Client::new(alloc, table, session)?,
            session,
            conn: 0,
            dialed: false,
            lasts: false,
            coming: Vec::new(alloc),
            came: 0,
        })
    }

    /// Its session.
    pub(crate) fn session(&self) -> SessionId
        ensures { result ≡ self.now.session }
    {
        self.session
    }

    /// The connection that it dialed last.
    pub(crate) fn conn(&self) -> u32
        ensures { result ≡ self.now.conn }
    {
        self.conn
    }

    /// Whether it is logged on.
    pub(crate) fn logged_on(&self) -> bool
        ensures { result ≡ self.now.client.logged_on }
    {
        self.client.logged_on()
    }

    /// Whether it is on a connection: it dialed, and since then neither was it cut nor has the exchange closed the connection.
    pub(crate) fn is_on_line(&self) -> bool
        ensures { result ≡ is_on_line self.now }
    {
        self.dialed && self.lasts
    }

    /// Whether it is on this one.
    pub(crate) fn is_on(&self, conn: u32) -> bool
        ensures { result ≡ is_on conn self.now }
    {
        self.is_on_line() && self.conn == conn
    }

    /// Dials on a connection. An error comes only where memory is wanting.
    pub(crate) fn dial(&mut self, conn: u32) -> Result<(), AllocError>
        ensures { OnOk result (self.new ≡ dials conn self.old) }
    {
        self.client.dial()?;
        self.conn = conn;
        self.dialed = true;
        self.lasts = true;
        self.coming.clear();
        self.came = 0;
        Ok(())
    }

    /// The client is cut, and what was sent and has not come is lost.
    pub(crate) fn hang_up(&mut self)
        ensures { self.new ≡ hangs_up self.old }
    {
        self.client.cut();
        self.dialed = false;
        self.coming.clear();
        self.came = 0;
    }

    /// A frame went out on a connection: on the client's it is on its way to the client. An error comes only where memory is wanting.
    pub(crate) fn hear_of_frame(&mut self, conn: u32, frame: &[u8]) -> Result<(), AllocError>
        ensures { OnOk result (self.new ≡ with_frame conn frame.now self.old) }
    {
        if self.is_on(conn) {
            self.coming.extend_from_slice(frame)?;
        }
        Ok(())
    }

    /// The exchange closed a connection: the client's ends with what was sent on it.
    pub(crate) fn hear_of_close(&mut self, conn: u32)
        ensures { self.new ≡ with_close conn self.old }
    {
        if self.is_on(conn) {
            self.lasts = false;
        }
    }

    /// Queues a request for a new order of a security of 1..=10^18, where the client is logged on and has queued fewer than
    /// 1,000,000,000 since its dial. An error comes only where memory is wanting.
    pub(crate) fn order(
        &mut self,
        security: SecurityId,
        side: Side,
        price: Price,
        qty: Qty,
        number: u64,
    ) -> Result<(), AllocError>
        requires logged_on { self.old.client.logged_on ≡ true }
        requires security { (pos 1 ≤ℤ security) × (security ≤ℤ pos 1_000_000_000_000_000_000) }
        requires number { number < 18_446_744_073_709_551_615 }
        requires few { self.old.client.made < 1_000_000_000 }
        ensures { OnOk result (self.new ≡ record self.old {
          client = making self.old.client (request.New self.old.client.next security (side_number side) price (pos qty) number);
        }) }
    {
        self.client.order(security, side, price, qty, number)
    }

    /// The next so many of the client's queued bytes, or all of them, which so are sent; none where there are fewer. An error comes only
    /// where memory is wanting.
    pub(crate) fn up(
        &mut self,
        alloc: Global,
        count: Option<u64>,
    ) -> Result<Option<Vec<u8>>, AllocError>
        ensures { IfOk result (λ bytes. HandsUp (unwrap_or count (length self.old.client.queue)) self.old self.new (option_map (λ b. b.items) bytes)) }
    {
        let pending = self.client.pending();
        let count = named(count, pending);
        if count > pending {
            return Ok(None);
        }
        let mut bytes = vec![in alloc; 0; count]?;
        self.client.up(&mut bytes);
        Ok(Some(bytes))
    }

    /// How many bytes are to come to the client, so many or all that are on their way: none where there are fewer, or where more than
    /// 2^35 would come since its dial.
    pub(crate) fn next_down(&self, count: Option<u64>) -> Option<usize>
        ensures some { IfSome result (λ n. (n ≡ unwrap_or count (length self.now.coming)) × (is_too_much n self.now ≡ false)) }
        ensures none { IfNone result (is_too_much (unwrap_or count (length self.now.coming)) self.now ≡ true) }
    {
        let there = self.coming.len();
        let count = named(count, there);
        if count > there || count > MOST_BYTES - self.came {
            return None;
        }
        Some(count)
    }

    /// So many of the bytes that are on their way come to the client. An error comes only where memory is wanting.
    pub(crate) fn down(&mut self, count: usize) -> Result<(), AllocError>
        requires { is_too_much count self.old ≡ false }
        ensures came { OnOk result (self.new ≡ came_down count self.old) }
        ensures made { OnOk result (self.new.client.made ≤ self.old.client.made) }
        ensures sound { OnOk result (IsSoundCalling self.new) }
    {
        let done = self.take_down(count);
        self.client.is_sound();
        done
    }

    // The same, of which nothing is said but what it comes to.
    fn take_down(&mut self, count: usize) -> Result<(), AllocError>
        requires { is_too_much count self.old ≡ false }
        ensures came { OnOk result (self.new ≡ came_down count self.old) }
        ensures made { OnOk result (self.new.client.made ≤ self.old.client.made) }
    {
        if !self.dialed {
            return Ok(());
        }
        match self.client.down(&self.coming[..count]) {
            Ok(()) => {
                self.coming.drain(..count);
                self.came += count;
                Ok(())
            }
            Err(fault) => {
                self.dialed = false;
                self.coming.clear();
                self.came = 0;
                match fault {
                    ClientFault::Misfit { .. } => Ok(()),
                    ClientFault::Memory => Err(AllocError),
                }
            }
        }
    }

    /// Puts its report behind a text. An error comes only where memory is wanting.
    pub(crate) fn put_list(&self, text: &mut Vec<u8>) -> Result<(), AllocError>
        ensures { OnOk result (text.new.items ≡ text.old.items ++ text_of (gathered_lines (is_recovered self.now.client) self.now.client.gathered)) }
    {
        push_gathered(self.client.is_recovered(), self.client.responses(), text)
    }
}

// So many as are named, or all.
fn named(count: Option<u64>, all: usize) -> usize
    ensures { result ≡ unwrap_or count all }
{
    match count {
        Some(count) => count as usize,
        None => all,
    }
}

/// Whether there is a client, and it is on a connection.
pub(crate) fn any_on_line(caller: &Option<Caller<'_>>) -> bool
    ensures { result ≡ calling.any_on_line caller.now }
{
    match caller {
        Some(caller) => caller.is_on_line(),
        None => false,
    }
}

/// Whether there is a client, and it is on this one.
pub(crate) fn any_on(caller: &Option<Caller<'_>>, conn: u32) -> bool
    ensures { result ≡ calling.any_on caller.now conn }
{
    match caller {
        Some(caller) => caller.is_on(conn),
        None => false,
    }
}

/// Whether there is no client of another session.
pub(crate) fn is_for(caller: &Option<Caller<'_>>, session: SessionId) -> bool
    ensures { result ≡ calling.is_for session caller.now }
{
    match caller {
        Some(caller) => caller.session() == session,
        None => true,
    }
}

/// A frame went out on a connection. An error comes only where memory is wanting.
pub(crate) fn tell_frame(
    caller: &mut Option<Caller<'_>>,
    conn: u32,
    frame: &[u8],
) -> Result<(), AllocError>
    ensures { OnOk result (caller.new ≡ option_map (with_frame conn frame.now) caller.old) }
{
    match caller {
        Some(caller) => caller.hear_of_frame(conn, frame),
        None => Ok(()),
    }
}

/// The exchange closed a connection.
pub(crate) fn tell_close(caller: &mut Option<Caller<'_>>, conn: u32)
    ensures { caller.new ≡ option_map (with_close conn) caller.old }
{
    if let Some(caller) = caller {
        caller.hear_of_close(conn);
    }
}

/// The client is cut that is on this connection, if one is.
pub(crate) fn cut_on(caller: &mut Option<Caller<'_>>, conn: u32)
    ensures { caller.new ≡ calling.cut_on caller.old conn }
{
    if let Some(caller) = caller {
        if caller.is_on(conn) {
            caller.hang_up();
        }
    }
}
