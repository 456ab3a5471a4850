//! The client's events.

ghost use Rattle.std.specs.Prelude.{◌≡◌, ◌<◌, ◌≤◌, ◌≤ℤ◌, IfErr, IfOk, OnOk, OnErr, Some, false, length, pos, unwrap_or};
ghost use Rattle.t7_outcome.specs.declared.ending.Stop.TheVariants.{Script};
ghost use Rattle.t7_script.specs.declared.event.Event.TheVariants as kind;
ghost use Rattle.t7_replay.specs.Calling.{client_for, dials};
ghost use Rattle.t7_replay.specs.Kits.{Does, IsPlaying, Refuses};
ghost use Rattle.t7_replay.specs.Steps.{done_by};

use crate::caller::{Caller, any_on_line, is_for};
use crate::replayer::Replayer;
use std::alloc::AllocError;
use t7_base::{Price, Qty, SecurityId, SessionId, Side};
use t7_outcome::{ScriptWhy, Stop};

impl<'a> Replayer<'a> {
    // The stop of a line that can't be done.
    fn fault(&self, why: ScriptWhy) -> Stop
        ensures { result ≡ Script self.now.row why }
    {
        Stop::Script { row: self.row, why }
    }

    /// DIAL: a connection opens that isn't open, and the client dials on it, which is on no other.
    pub(crate) fn dial(&mut self, conn: u32, session: SessionId) -> Result<Vec<u8>, Stop>
        requires { (1 ≤ session) × (session ≤ 4_000_000_000) }
        ensures done { IfOk result (λ text. Does (λ terms world. done_by terms world (kind.Dial conn session)) self.old self.new text.items) }
        ensures stopped { IfErr result (Refuses (λ terms world. done_by terms world (kind.Dial conn session)) self.old) }
    {
        if self.exchange.is_open(conn) || any_on_line(&self.caller) {
            return Err(self.fault(ScriptWhy::Connection));
        }
        if !is_for(&self.caller, session) {
            return Err(self.fault(ScriptWhy::Client));
        }
        if self.call(conn, session).is_err() || self.open_shut(conn).is_err() {
            return Err(Stop::Memory);
        }
        self.enter()
    }

    // The client of a session dials on a connection. An error comes only where memory is wanting.
    fn call(&mut self, conn: u32, session: SessionId) -> Result<(), AllocError>
        requires { (1 ≤ session) × (session ≤ 4_000_000_000) }
        ensures { OnOk result (self.new ≡ record self.old { caller = Some (dials conn (client_for self.old.layouts session self.old.caller)) }) }
    {
        match &mut self.caller {
            Some(caller) => caller.dial(conn),
            None => {
                let mut caller = Caller::new(self.alloc, self.table, session)?;
                caller.dial(conn)?;
                self.caller = Some(caller);
                Ok(())
            }
        }
    }

    /// ORDER: the client, which is logged on, queues an order.
    pub(crate) fn order(
        &mut self,
        security: SecurityId,
        side: Side,
        price: Price,
        qty: Qty,
        number: u64,
    ) -> Result<Vec<u8>, Stop>
        requires ready { IsPlaying self.old }
        requires security { (pos 1 ≤ℤ security) × (security ≤ℤ pos 1_000_000_000_000_000_000) }
        requires number { number < 18_446_744_073_709_551_615 }
        ensures done { IfOk result
            (λ text. Does (λ terms world. done_by terms world (kind.Order security side price qty number)) self.old self.new text.items) }
        ensures stopped { IfErr result (Refuses (λ terms world. done_by terms world (kind.Order security side price qty number)) self.old) }
    {
        let Some(caller) = &mut self.caller else {
            return Err(self.fault(ScriptWhy::Client));
        };
        if !caller.logged_on() {
            return Err(self.fault(ScriptWhy::Client));
        }
        if caller.order(security, side, price, qty, number).is_err() {
            return Err(Stop::Memory);
        }
        Ok(Vec::new(self.alloc))
    }

    /// UP: of the client's queued bytes the next so many, or all, come to the exchange.
    pub(crate) fn up(&mut self, count: Option<u64>) -> Result<Vec<u8>, Stop>
        ensures done { IfOk result (λ text. Does (λ terms world. done_by terms world (kind.Up count)) self.old self.new text.items) }
        ensures stopped { IfErr result (Refuses (λ terms world. done_by terms world (kind.Up count)) self.old) }
    {
        let Some(caller) = &mut self.caller else {
            return Err(self.fault(ScriptWhy::Connection));
        };
        let conn = caller.conn();
        if !caller.is_on_line() || !self.exchange.is_open(conn) {
            return Err(self.fault(ScriptWhy::Connection));
        }
        let Ok(bytes) = caller.up(self.alloc, count) else {
            return Err(Stop::Memory);
        };
        let Some(bytes) = bytes else {
            return Err(self.fault(ScriptWhy::Bytes));
        };
        if self.exchange.piece(conn, &bytes, self.moment).is_err() {
            return Err(Stop::Memory);
        }
        self.enter()
    }

    /// DOWN: of the bytes that were sent on the client's connection the next so many, or all, come to the client.
    pub(crate) fn down(&mut self, count: Option<u64>) -> Result<Vec<u8>, Stop>
        ensures done { IfOk result (λ text. Does (λ terms world. done_by terms world (kind.Down count)) self.old self.new text.items) }
        ensures stopped { IfErr result (Refuses (λ terms world. done_by terms world (kind.Down count)) self.old) }
    {
        let Some(caller) = &mut self.caller else {
            return Err(self.fault(ScriptWhy::Client));
        };
        let Some(count) = caller.next_down(count) else {
            return Err(self.fault(ScriptWhy::Bytes));
        };
        if caller.down(count).is_err() {
            return Err(Stop::Memory);
        }
        Ok(Vec::new(self.alloc))
    }

    /// LIST: the client's report.
    pub(crate) fn list(&self) -> Result<Vec<u8>, Stop>
        ensures done { IfOk result (λ text. Does (λ terms world. done_by terms world kind.List) self.now self.now text.items) }
        ensures stopped { IfErr result (Refuses (λ terms world. done_by terms world kind.List) self.now) }
    {
        let Some(caller) = &self.caller else {
            return Err(self.fault(ScriptWhy::Client));
        };
        let mut text = Vec::new(self.alloc);
        if caller.put_list(&mut text).is_err() {
            return Err(Stop::Memory);
        }
        Ok(text)
    }
}
