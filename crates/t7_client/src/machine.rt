//! A client as a machine over the frames that come down.

ghost use Rattle.std.specs.Prelude.{◌≡◌, ◌⊎◌, ℕ, List, ◌+◌, ◌-◌, ◌^◌, ◌<◌, ◌≤◌, ◌++◌, length, min, take, drop};
ghost use Rattle.std.specs.Prelude.{true, None, IfOk, IfErr, OnOk, OnErr, Ok, Err};
ghost use Rattle.t7_frames.specs.Frames.{IsWhole, front_of, not_yet};
ghost use Rattle.t7_eti.specs.Requests.{IsAskable};
ghost use Rattle.t7_eti.specs.Saying.{EachOrdinary, request_fields};
ghost use Rattle.t7_client.specs.Hearing.{Continues, Stays, StopsBy, heard};
ghost use Rattle.t7_client.specs.Going.{Goes, taken};
ghost use Rattle.t7_client.specs.Told.{IsLong, told_at};
ghost use Rattle.t7_client.specs.Inside.{recovery_of};
ghost use Rattle.t7_client.specs.Recovering.{after, answering, asking, asking_again, cut, dialed, gathering};
ghost use Rattle.t7_client.specs.Recovering.{is_due, is_recovered, making, new_recovery};
ghost use Rattle.t7_client.specs.Sound.{IsSound};

use crate::fault::ClientFault;
use crate::hearing::{Told, first_told};
use crate::sending::{logon, push_request};
use std::alloc::{AllocError, Global};
use std::marker::Model;
use t7_base::SessionId;
use t7_eti::{Kept, Reason, Request, Response};
use t7_frames::{FrameBuf, a_front_begins_the_split};
use t7_layout::Table;
use t7_recover::{Gathered, Offered};

/// The last answer to a request for responses: the number of the last response that it sends, how many the exchange keeps,
/// and whether the client has asked again for the others.
#[derive(Clone, Copy, Debug, PartialEq, Eq)]
pub(crate) struct Answer {
    pub(crate) last: u128,
    pub(crate) known: u128,
    pub(crate) asked: bool,
}

/// A client's table, its session, the session's responses that it gathered, and its connection.
#[derive(Drop)]
pub(crate) struct Machine<'t> {
    alloc: Global,
    table: &'t Table,
    session: SessionId,
    gathered: Gathered,
    dialed: bool,
    frames: FrameBuf,
    treated: usize,
    queue: Vec<u8>,
    next: u32,
    made: u32,
    logged_on: bool,
    answer: Option<Answer>,
    rejected: Option<Reason>,
}

impl<'t> Model for Machine<'t> {
    ghost use Rattle.t7_client.specs.Recovering.{Recovery};
    ghost use Rattle.t7_client.specs.Inside.{recovery_of};

    ghost Value = { Recovery };

    ghost view = { recovery_of };
}

impl<'t> Machine<'t> {
    /// A client that has not dialed.
    pub(crate) fn new(
        alloc: Global,
        table: &'t Table,
        session: SessionId,
    ) -> Result<Machine<'t>, AllocError>
        ensures { IfOk result (λ client. client ≡ new_recovery table.now session) }
    {
        Ok(Machine {
            alloc,
            table,
            session,
            gathered: Gathered::new(alloc)?,
            dialed: false,
            frames: FrameBuf::new(alloc)?,
            treated: 0,
            queue: Vec::new(alloc),
            next: 1,
            made: 0,
            logged_on: false,
            answer: None,
            rejected: None,
        })
    }

    /// Forgets the last connection, and queues a LogonRequest. Where memory is wanting, all is as before.
    pub(crate) fn dial(&mut self) -> Result<(), AllocError>
        requires { self.old.session ≤ 4_000_000_000 }
        ensures ok { OnOk result (self.new ≡ dialed self.old) }
        ensures err { OnErr result (self.new ≡ self.old) }
    {
        let queue = logon(self.alloc, self.table, self.session)?;
        let frames = FrameBuf::new(self.alloc)?;
        self.cut();
        self.rejected = None;
        self.dialed = true;
        self.frames = frames;
        self.queue = queue;
        self.next = 2;
        Ok(())
    }

    /// Forgets the connection.
    pub(crate) fn cut(&mut self)
        ensures { self.new ≡ cut self.old }
    {
        self.dialed = false;
        self.treated = 0;
        self.queue.clear();
        self.next = 1;
        self.made = 0;
        self.logged_on = false;
        self.answer = None;
    }

    /// Queues an order or a logout, which has the next number. Where memory is wanting, all is as before.
    pub(crate) fn make(&mut self, request: &Request) -> Result<(), AllocError>
        requires ordinary { EachOrdinary (request_fields request.now) }
        requires askable { IsAskable request.now }
        requires room { self.old.next < 4_294_967_295 }
        requires few { self.old.made < 1_000_000_000 }
        ensures ok { OnOk result (self.new ≡ making self.old request.now) }
        ensures err { OnErr result (self.new ≡ self.old) }
    {
        push_request(self.table, request, &mut self.queue)?;
        self.next += 1;
        self.made += 1;
        Ok(())
    }

    // Queues a request for all responses above the length of the list.
    fn ask(&mut self) -> Result<(), AllocError>
        requires { self.old.next < 4_294_967_295 }
        ensures ok { OnOk result (self.new ≡ asking self.old) }
        ensures err { OnErr result (self.new ≡ self.old) }
    {
        let request = Request::Resend {
            seq: self.next,
            after: self.gathered.list().len() as u128,
            upto: u128::MAX,
        };
        push_request(self.table, &request, &mut self.queue)?;
        self.next += 1;
        Ok(())
    }

    // Asks again, where the last answer makes that due.
    fn ask_again(&mut self) -> Result<(), AllocError>
        requires { self.old.next < 4_294_967_295 }
        ensures ok { OnOk result (self.new ≡ asking_again self.old self.old.answer) }
        ensures err { OnErr result (self.new ≡ self.old) }
    {
        let Some(answer) = self.answer else {
            return Ok(());
        };
        if is_due(self.gathered.list().len() as u128, answer) {
            self.ask()?;
            self.answer = Some(Answer {
                asked: true,
                ..answer
            });
        }
        Ok(())
    }

    // Gathers a recoverable response that is the next.
    fn gather(&mut self, number: u128, what: Kept) -> Result<(), AllocError>
        requires { self.old.next < 4_294_967_295 }
        ensures ok { OnOk result (self.new ≡ gathering self.old number what) }
        ensures err { OnErr result ((cut self.new ≡ cut self.old) ⊎ (cut self.new ≡ cut (gathering self.old number what))) }
        ensures kept { OnErr result (self.new.dialed ≡ self.old.dialed) }
    {
        match self.gathered.offer(number, what)? {
            Offered::Next => self.ask_again(),
            Offered::Old | Offered::Ahead => Ok(()),
        }
    }

    // Notes that the session is logged on, and asks for what is missing.
    fn log_on(&mut self) -> Result<(), AllocError>
        requires { self.old.next < 4_294_967_295 }
        ensures ok { OnOk result (self.new ≡ asking (record self.old { logged_on = true })) }
        ensures err { OnErr result (cut self.new ≡ cut self.old) }
    {
        self.logged_on = true;
        self.ask()
    }

    // Notes an answer to a request for responses.
    fn note(&mut self, answer: Answer) -> Result<(), AllocError>
        requires { self.old.next < 4_294_967_295 }
        ensures ok { OnOk result (self.new ≡ answering self.old answer) }
        ensures err { OnErr result (cut self.new ≡ cut self.old) }
    {
        self.answer = Some(answer);
        self.ask_again()
    }

    // Treats a response.
    fn treat(&mut self, said: Response) -> Result<(), AllocError>
        requires { self.old.next < 4_294_967_295 }
        ensures ok { OnOk result (self.new ≡ after self.old said) }
        ensures err { OnErr result ((cut self.new ≡ cut self.old) ⊎ (cut self.new ≡ cut (after self.old said))) }
    {
        match said {
            Response::Logon { .. } => self.log_on(),
            Response::Logout { .. } => {
                self.logged_on = false;
                Ok(())
            }
            Response::Beat => Ok(()),
            Response::Reject { reason, .. } => {
                self.rejected = Some(reason);
                Ok(())
            }
            Response::Resent { last, known, .. } => self.note(Answer {
                last,
                known,
                asked: false,
            }),
            Response::Kept { number, what } => self.gather(number, what),
        }
    }

    // What the untreated bytes say at their front.
    fn look(&mut self) -> Told
        requires { self.old.dialed ≡ true }
        ensures value { result ≡ told_at self.old.layouts (front_of self.old.rest) }
        ensures kept { self.new ≡ self.old }
        ensures long { IsLong result }
    {
        first_told(self.table, &mut self.frames)
    }

    // Takes a treated frame of so many bytes off.
    fn take_off(&mut self, count: usize)
        requires dialed { self.old.dialed ≡ true }
        requires whole { IsWhole (front_of self.old.rest) }
        requires few { self.old.treated + count ≤ 2 ^ 35 }
        ensures { self.new ≡ taken self.old count }
    {
        self.frames.skip();
        self.treated += count;
    }

    // Treats the frame at the front. Whether there is one.
    fn step(&mut self) -> Result<bool, ClientFault>
        requires dialed { self.old.dialed ≡ true }
        requires sound { IsSound self.old }
        ensures goes { IfOk result (λ went. Goes self.old went self.new) }
        ensures stops { IfErr result (λ fault. (more : List ℕ) → StopsBy self.old more fault (cut self.new)) }
        ensures session { self.new.session ≡ self.old.session }
    {
        a_front_begins_the_split();
        match self.look() {
            Told::Nothing => Ok(false),
            Told::Misfit => Err(ClientFault::Misfit {
                place: self.treated,
            }),
            Told::Said { said, count } => {
                if self.treat(said).is_err() {
                    return Err(ClientFault::Memory);
                }
                self.take_off(count);
                Ok(true)
            }
        }
    }

    // Treats the frames that are whole.
    fn treat_all(&mut self) -> Result<(), ClientFault>
        requires dialed { self.old.dialed ≡ true }
        requires sound { IsSound self.old }
        ensures waits { OnOk result (front_of self.new.rest ≡ not_yet) }
        ensures sound { OnOk result (IsSound self.new) }
        ensures goes { OnOk result ((more : List ℕ) → Continues self.old more self.new more) }
        ensures stops { IfErr result (λ fault. (more : List ℕ) → StopsBy self.old more fault (cut self.new)) }
        ensures session { self.new.session ≡ self.old.session }
    {
        while self.step()? {}
        Ok(())
    }

    // Takes the longest prefix of the piece that there is room for, and answers its length.
    fn feed(&mut self, piece: &[u8]) -> usize
        requires { self.old.dialed ≡ true }
        ensures count { result ≡ min (length piece.now) (8192 - length self.old.rest) }
        ensures fed { self.new ≡ record self.old { rest = self.old.rest ++ take result piece.now } }
    {
        self.frames.feed(piece)
    }

    // Takes the bytes that came down, and treats each frame that is whole.
    fn hear(&mut self, bytes: &[u8]) -> Result<(), ClientFault>
        requires dialed { self.old.dialed ≡ true }
        requires sound { IsSound self.old }
        requires few { self.old.treated + length self.old.rest + length bytes.now ≤ 2 ^ 35 }
        ensures ok { OnOk result (heard self.old bytes.now ≡ record { client = self.new; misfit = None }) }
        ensures stays { OnOk result (Stays self.old self.new) }
        ensures count { OnOk result (self.new.treated + length self.new.rest ≡ self.old.treated + length self.old.rest + length bytes.now) }
        ensures sound { OnOk result (IsSound self.new) }
        ensures stops { IfErr result (λ fault. StopsBy self.old bytes.now fault (cut self.new)) }
        ensures session { self.new.session ≡ self.old.session }
    {
        a_front_begins_the_split();
        let mut left = bytes;
        'pieces: loop {
            self.treat_all()?;
            if left.is_empty() {
                return Ok(());
            }
            let count = self.feed(left);
            left = &left[count..];
        }
    }

    /// Takes the bytes that came down. After a fault the connection is cut.
    pub(crate) fn down(&mut self, bytes: &[u8]) -> Result<(), ClientFault>
        requires dialed { self.old.dialed ≡ true }
        requires sound { IsSound self.old }
        requires few { self.old.treated + length self.old.rest + length bytes.now ≤ 2 ^ 35 }
        ensures ok { OnOk result (heard self.old bytes.now ≡ record { client = self.new; misfit = None }) }
        ensures stays { OnOk result (Stays self.old self.new) }
        ensures count { OnOk result (self.new.treated + length self.new.rest ≡ self.old.treated + length self.old.rest + length bytes.now) }
        ensures stops { IfErr result (λ fault. StopsBy self.old bytes.now fault self.new) }
        ensures sound { IsSound self.new }
    {
        let heard = self.hear(bytes);
        if heard.is_err() {
            self.cut();
        }
        heard
    }

    /// Hands out the next bytes that wait to be sent, as many as fit, and answers how many.
    pub(crate) fn up(&mut self, out: &mut [u8]) -> usize
        ensures count { result ≡ min (length self.old.queue) (length out.old) }
        ensures bytes { out.new ≡ take result self.old.queue ++ drop result out.old }
        ensures left { self.new ≡ record self.old { queue = drop result self.old.queue } }
    {
        let count = self.queue.len().min(out.len());
        out[..count].copy_from_slice(&self.queue[..count]);
        self.queue.drain(..count);
        count
    }

    /// The number of the next request.
    pub(crate) fn next_number(&self) -> u32
        ensures { result ≡ self.now.next }
    {
        self.next
    }

    /// How many bytes wait to be sent.
    pub(crate) fn pending(&self) -> usize
        ensures { result ≡ length self.now.queue }
    {
        self.queue.len()
    }

    /// The responses that were gathered.
    pub(crate) fn responses(&self) -> &[Kept]
        ensures { result.now ≡ self.now.gathered }
    {
        self.gathered.list()
    }

    /// Whether as many responses are gathered as the last answer says are kept.
    pub(crate) fn is_recovered(&self) -> bool
        ensures { result ≡ is_recovered self.now }
    {
        match self.answer {
            Some(answer) => answer.known <= self.gathered.list().len() as u128,
            None => false,
        }
    }

    /// Whether the session is logged on.
    pub(crate) fn logged_on(&self) -> bool
        ensures { result ≡ self.now.logged_on }
    {
        self.logged_on
    }

    /// The reason of the last Reject.
    pub(crate) fn rejected(&self) -> Option<Reason>
        ensures { result ≡ self.now.rejected }
    {
        self.rejected
    }
}

// Whether an answer says that more responses are kept than it sends, so many are gathered, and the client has not asked
// again since.
fn is_due(count: u128, answer: Answer) -> bool
    ensures { result ≡ is_due count answer }
{
    !answer.asked && answer.last < answer.known && answer.last <= count
}
