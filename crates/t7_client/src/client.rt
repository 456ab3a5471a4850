//! The calls of a client.

ghost use Rattle.std.specs.Prelude.{◌≡◌, ◌+◌, ◌^◌, ◌<◌, ◌≤◌, ◌++◌, ◌≤ℤ◌, pos, length, min, take, drop};
ghost use Rattle.std.specs.Prelude.{true, None, IfOk, IfErr, OnOk, OnErr};
ghost use Rattle.t7_eti.specs.declared.request.Request.TheVariants as request;
ghost use Rattle.t7_eti.specs.Saying.{side_number};
ghost use Rattle.t7_client.specs.Hearing.{Stays, StopsBy, heard};
ghost use Rattle.t7_client.specs.Sound.{IsSound};
ghost use Rattle.t7_client.specs.Recovering.{cut, dialed, is_recovered, making, new_recovery};

use crate::fault::ClientFault;
use crate::machine::Machine;
use crate::sending::side_number;
use std::alloc::{AllocError, Global};
use std::marker::Model;
use t7_base::{Price, Qty, SecurityId, SessionId, Side};
use t7_eti::{Kept, Reason, Request};
use t7_layout::Table;

/// A client of a session, which gathers the session's recoverable responses over connections that are cut.
///
/// On a LogonResponse it asks for all responses above the length of its list. After an answer that says that more
/// responses are kept than it sends, it asks again once, as soon as it has those that the answer sends. A response that is
/// not the next is dropped, and comes with a later request.
///
/// Contracts see it as a `Recovery`: its session and the responses that it gathered, and of its connection the bytes that
/// wait to be sent, those that were treated and those that were not, the last answer, and the last Reject.
#[derive(Drop)]
pub struct Client<'t> {
    machine: Machine<'t>,
}

impl<'t> Model for Client<'t> {
    ghost use Rattle.t7_client.specs.Recovering.{Recovery};
    ghost use Rattle.t7_client.specs.Sound.{IsSound};

    ghost Value = { Recovery };

    ghost view = { λ c. c.machine };

    ghost invariant = { λ c. IsSound c.machine };
}

impl<'t> Client<'t> {
    /// A client of a session, 1..=4,000,000,000, that gathered nothing and has not dialed.
    ///
    /// An error comes only where memory is wanting.
    pub fn new(
        alloc: Global,
        table: &'t Table,
        session: SessionId,
    ) -> Result<Client<'t>, AllocError>
        requires { (1 ≤ session) × (session ≤ 4_000_000_000) }
        ensures { IfOk result (λ client. client ≡ new_recovery table.now session) }
    {
        Ok(Client {
            machine: Machine::new(alloc, table, session)?,
        })
    }

    /// Begins a connection: the bytes of the last one are forgotten, and a LogonRequest waits to be sent, with number 1
    /// and a HeartBtInt of 30,000.
    ///
    /// An error comes only where memory is wanting; then all is as before.
    pub fn dial(&mut self) -> Result<(), AllocError>
        ensures ok { OnOk result (self.new ≡ dialed self.old) }
        ensures err { OnErr result (self.new ≡ self.old) }
    {
        self.machine.dial()
    }

    /// Forgets the connection, with the bytes that wait to be sent and those that were not treated. No memory is taken.
    pub fn cut(&mut self)
        ensures { self.new ≡ cut self.old }
    {
        self.machine.cut()
    }

    /// Queues a NewOrderSingleRequest that has the next number, for a security of 1..=10^18, with ClOrdID `number`. The
    /// session is logged on, and fewer than 1,000,000,000 orders and logouts were queued since the dial.
    ///
    /// An error comes only where memory is wanting; then all is as before.
    pub fn order(
        &mut self,
        security: SecurityId,
        side: Side,
        price: Price,
        qty: Qty,
        number: u64,
    ) -> Result<(), AllocError>
        requires logged_on { self.old.logged_on ≡ true }
        requires security { (pos 1 ≤ℤ security) × (security ≤ℤ pos 1_000_000_000_000_000_000) }
        requires number { number < 18_446_744_073_709_551_615 }
        requires few { self.old.made < 1_000_000_000 }
        ensures ok { OnOk result (self.new ≡ making self.old (request.New self.old.next security (side_number side) price (pos qty) number)) }
        ensures err { OnErr result (self.new ≡ self.old) }
    {
        let request = Request::New {
            seq: self.machine.next_number(),
            security: security.0,
            side: side_number(side),
            price: price.get(),
            qty: qty.get(),
            client: number,
        };
        self.machine.make(&request)
    }

    /// Queues a LogoutRequest that has the next number. The session is logged on, and fewer than 1,000,000,000 orders and
    /// logouts were queued since the dial.
    ///
    /// An error comes only where memory is wanting; then all is as before.
    pub fn logout(&mut self) -> Result<(), AllocError>
        requires logged_on { self.old.logged_on ≡ true }
        requires few { self.old.made < 1_000_000_000 }
        ensures ok { OnOk result (self.new ≡ making self.old (request.Logout self.old.next)) }
        ensures err { OnErr result (self.new ≡ self.old) }
    {
        let request = Request::Logout {
            seq: self.machine.next_number(),
        };
        self.machine.make(&request)
    }

    /// How many bytes wait to be sent. No memory is taken.
    pub fn pending(&self) -> usize
        ensures { result ≡ length self.now.queue }
    {
        self.machine.pending()
    }

    /// Hands out the next bytes that wait to be sent, as many as fit, and answers how many. The rest of `out` stays. No
    /// memory is taken.
    pub fn up(&mut self, out: &mut [u8]) -> usize
        ensures count { result ≡ min (length self.old.queue) (length out.old) }
        ensures bytes { out.new ≡ take result self.old.queue ++ drop result out.old }
        ensures left { self.new ≡ record self.old { queue = drop result self.old.queue } }
    {
        self.machine.up(out)
    }

    /// Takes the bytes that came down, in whatever pieces they come, and treats each frame that is whole. The client has
    /// dialed and was not cut since, and at most 2^35 bytes came since the dial, with these.
    ///
    /// Misfit comes exactly where all frames before its place are responses of the table, and there stands a length outside
    /// 8..=4,096, or a whole frame that is no response: of another template, shorter than its template, or with a field of
    /// which `read_response` says that it has no value or one out of its range. Memory comes only where memory is wanting.
    /// After either the connection is cut, and the client keeps what it gathered.
    pub fn down(&mut self, bytes: &[u8]) -> Result<(), ClientFault>
        requires dialed { self.old.dialed ≡ true }
        requires few { self.old.treated + length self.old.rest + length bytes.now ≤ 2 ^ 35 }
        ensures ok { OnOk result (heard self.old bytes.now ≡ record { client = self.new; misfit = None }) }
        ensures stays { OnOk result (Stays self.old self.new) }
        ensures count { OnOk result (self.new.treated + length self.new.rest ≡ self.old.treated + length self.old.rest + length bytes.now) }
        ensures stops { IfErr result (λ fault. StopsBy self.old bytes.now fault self.new) }
    {
        self.machine.down(bytes)
    }

    /// The responses of the session that it gathered, from number 1 on, over all its connections. No memory is taken.
    pub fn responses(&self) -> &[Kept]
        ensures { result.now ≡ self.now.gathered }
    {
        self.machine.responses()
    }

    /// What always holds of a client: its session is one of a product, the numbers of its requests and the bytes that came since its dial are within
    /// their limits, and its responses are no more than fit in memory. No memory is taken.
    pub fn is_sound(&self)
        ensures sound { IsSound self.now }
        ensures few { length self.now.gathered < 2 ^ 64 }
    {
        let _count = self.machine.responses().len();
    }

    /// Whether it has as many responses as were kept by the last answer that came since the dial. False where no answer
    /// came, or the connection was cut since. No memory is taken.
    pub fn is_recovered(&self) -> bool
        ensures { result ≡ is_recovered self.now }
    {
        self.machine.is_recovered()
    }

    /// Whether a LogonResponse came since the dial, and neither a cut nor a LogoutResponse after it. No memory is taken.
    pub fn logged_on(&self) -> bool
        ensures { result ≡ self.now.logged_on }
    {
        self.machine.logged_on()
    }

    /// The reason of the last Reject that came since the dial. None exactly where none came. No memory is taken.
    pub fn rejected(&self) -> Option<Reason>
        ensures { result ≡ self.now.rejected }
    {
        self.machine.rejected()
    }
}
