//! The responses of a command, stored.

ghost use Rattle.std.specs.Prelude.{◌≡◌, ℕ, ◌+◌, ◌-◌, ◌≤◌, ◌<◌, ◌++◌, ◌∷◌, [], List, None, true, false, length, Contains};
ghost use Rattle.std.specs.Prelude.{OnErr, OnOk, IfOk, MatchResult, vec_capacity, vec_len};
ghost use Rattle.t7_orders.specs.Answers.{Stored, numbered};
ghost use Rattle.t7_recover.specs.Shelves.{KeepsAll, sessions_of, spare_of};
ghost use Rattle.t7_recover.specs.Ranges.{is_bad_range, range_of};
ghost use Rattle.t7_entry.specs.Answered.{AreFor};
ghost use Rattle.t7_exchange.specs.Desks.{ListsOf};
ghost use Rattle.t7_book.specs.Orders.{empty_book, roster_of};
ghost use Rattle.std.specs.List.{All};
ghost use Rattle.t7_book.specs.Trace.{AreAccepted, AreAcceptedFrom, trace};
ghost use Rattle.t7_packets.specs.Packing.{IsWritable};
ghost use Rattle.t7_book.specs.Commands.{IsForProduct, refusal};
ghost use Rattle.t7_book.specs.Steps.{messages, steps};
ghost use Rattle.t7_exchange.specs.Trading.{HasRoom, book_at, entered, fresh_desk, stored_at};

use std::alloc::{AllocError, Global};
use std::marker::Model;
use t7_base::{Product, Public, SessionId};
use t7_book::{Book, Command, Note, messages_are_about_the_product, messages_are_few};
use t7_eti::Kept;
use t7_orders::{Numbered, answers};
use t7_recover::{BadRange, Store};

/// Stores responses for sessions of the product, for which there is room, and puts each with its number behind `fresh`. No
/// memory is taken.
pub(crate) fn store_all(store: &mut Store, answers: &[(SessionId, Kept)], fresh: &mut Vec<Numbered>)
    requires sessions { AreFor (sessions_of store.old) answers.now }
    requires spare { (session : ℕ) → Contains (sessions_of store.old) session → length answers.now ≤ spare_of store.old session }
    requires room { vec_len fresh.old + length answers.now ≤ vec_capacity fresh.old }
    ensures sessions { sessions_of store.new ≡ sessions_of store.old }
    ensures lists { (before : List Stored) → ListsOf store.old before → ListsOf store.new (before ++ answers.now) }
    ensures fresh { (before : List Stored) → ListsOf store.old before → fresh.new.items ≡ fresh.old.items ++ numbered before answers.now }
    ensures capacity { vec_capacity fresh.new ≡ vec_capacity fresh.old }
{
    for (session, what) in answers {
        let number = store.append(*session, *what);
        fresh.push_reserved(Numbered {
            session: *session,
            number,
            what: *what,
        });
    }
}

/// Makes room for so many more responses of each session. After an error there may be more room, and nothing else has changed.
fn reserve_all(store: &mut Store, sessions: &[SessionId], n: usize) -> Result<(), AllocError>
    requires { sessions_of store.old ≡ sessions.now }
    ensures kept { KeepsAll store.old store.new }
    ensures room { OnOk result ((session : ℕ) → Contains sessions.now session → n ≤ spare_of store.new session) }
{
    for session in sessions {
        store.reserve(*session, n)?;
    }
    Ok(())
}

// Makes room for a command more and for so many responses of each session.
fn make_room(
    store: &mut Store,
    accepted: &mut Vec<Command>,
    answers: &mut Vec<(SessionId, Kept)>,
    fresh: &mut Vec<Numbered>,
    sessions: &[SessionId],
    n: usize,
) -> Result<(), AllocError>
    requires { sessions_of store.old ≡ sessions.now }
    ensures kept { KeepsAll store.old store.new }
    ensures accepted { accepted.new.items ≡ accepted.old.items }
    ensures answers { answers.new.items ≡ [] }
    ensures fresh { fresh.new.items ≡ [] }
    ensures room { OnOk result (HasRoom store.new sessions.now (vec_capacity accepted.new - vec_len accepted.new) (vec_capacity answers.new)
        (vec_capacity fresh.new) n) }
{
    answers.clear();
    fresh.clear();
    accepted.reserve(1)?;
    answers.reserve(n)?;
    fresh.reserve(n)?;
    reserve_all(store, sessions, n)
}

/// The book of a product with the commands that it accepted, and the responses that are stored.
#[derive(Drop)]
pub(crate) struct Desk {
    book: Book,
    store: Store,
    accepted: Vec<Command>,
    // What the last command came to.
    notes: Vec<Note>,
    answers: Vec<(SessionId, Kept)>,
    fresh: Vec<Numbered>,
}

impl Model for Desk {
    ghost use Rattle.t7_exchange.specs.Trading.{IsDesk, Trading};

    ghost Value = { Trading };

    ghost view = { λ a. record { roster = a.book.roster; accepted = a.accepted.items; fresh = a.fresh.items } };

    ghost invariant = { λ a. IsDesk a.book a.store a.accepted.items };
}

impl Desk {
    /// The desk of a product, with no command accepted yet.
    pub(crate) fn new(alloc: Global, product: &Product) -> Result<Desk, AllocError>
        ensures { IfOk result (λ desk. desk ≡ fresh_desk (roster_of product.now)) }
    {
        Ok(Desk {
            book: Book::new(alloc, product)?,
            store: Store::new(alloc, product)?,
            accepted: Vec::new(alloc),
            notes: Vec::new(alloc),
            answers: Vec::new(alloc),
            fresh: Vec::new(alloc),
        })
    }

    /// The book that the accepted commands leave.
    pub(crate) fn book(&self) -> &Book
        ensures { result.now ≡ book_at self.now }
    {
        &self.book
    }

    /// How many commands are accepted.
    pub(crate) fn len(&self) -> usize
        ensures value { result ≡ length self.now.accepted }
        ensures few { result ≤ 200_000 }
    {
        self.accepted.len()
    }

    /// The commands that are accepted.
    pub(crate) fn commands(&self) -> &[Command]
        ensures value { result.now ≡ self.now.accepted }
        ensures each { AreAcceptedFrom (empty_book self.now.roster) self.now.accepted }
        ensures few { length self.now.accepted ≤ 200_000 }
    {
        &self.accepted
    }

    /// The responses that a session of the product stores.
    pub(crate) fn kept(&self, session: SessionId) -> &[Kept]
        requires { Contains self.now.roster.sessions session }
        ensures { result.now ≡ stored_at self.now session }
    {
        self.store.list(session)
    }

    /// How many they are.
    pub(crate) fn count(&self, session: SessionId) -> u64
        requires { Contains self.now.roster.sessions session }
        ensures { result ≡ length (stored_at self.now session) }
    {
        self.store.len(session)
    }

    /// The responses of the last command, with their numbers.
    pub(crate) fn fresh(&self) -> &[Numbered]
        ensures { result.now ≡ self.now.fresh }
    {
        &self.fresh
    }

    /// The stored responses of a session of the product that lie in a range, at most 500.
    pub(crate) fn range(
        &self,
        session: SessionId,
        after: u128,
        upto: u128,
    ) -> Result<&[Kept], BadRange>
        requires { Contains self.now.roster.sessions session }
        ensures bad { MatchResult result (λ _. is_bad_range (stored_at self.now session) after upto ≡ false)
            (λ _. is_bad_range (stored_at self.now session) after upto ≡ true) }
        ensures range { IfOk result (λ range. range.now ≡ range_of (stored_at self.now session) after upto) }
    {
        self.store.range(session, after, upto)
    }

    /// The book carries out a command that it doesn't refuse: the command is accepted, its messages go behind `told`, and
    /// its responses are stored. After an error nothing has changed but what is known of the last command.
    pub(crate) fn enter(
        &mut self,
        product: &Product,
        command: &Command,
        told: &mut Vec<Public>,
    ) -> Result<(), AllocError>
        requires product { self.old.roster ≡ roster_of product.now }
        requires for_it { IsForProduct self.old.roster command.now }
        requires allowed { refusal (book_at self.old) command.now ≡ None }
        requires few { length self.old.accepted < 200_000 }
        ensures ok { OnOk result (self.new ≡ entered self.old command.now) }
        ensures messages { OnOk result (told.new.items ≡ told.old.items ++ messages (steps (book_at self.old) command.now)) }
        ensures accepted { OnOk result (AreAccepted product.now (self.old.accepted ++ command.now ∷ [])) }
        ensures writable { OnOk result (All IsWritable (messages (steps (book_at self.old) command.now))) }
        ensures few { OnOk result (length (trace product.now self.old.accepted) + length (messages (steps (book_at self.old) command.now)) ≤ 800_000) }
        ensures err { OnErr result ((self.new.roster ≡ self.old.roster) × (self.new.accepted ≡ self.old.accepted)) }
    {
        messages_are_few();
        messages_are_about_the_product();
        let most = 2 + 2 * (self.book.len() + product.sessions().len());
        self.notes.clear();
        make_room(
            &mut self.store,
            &mut self.accepted,
            &mut self.answers,
            &mut self.fresh,
            product.sessions(),
            most,
        )?;
        let done = match self.book.apply(command, told, &mut self.notes) {
            Ok(done) => done,
            Err(_) => return Err(AllocError),
        };
        self.accepted.push_reserved(*command);
        answers(command, &done, &self.notes, &mut self.answers);
        store_all(&mut self.store, &self.answers, &mut self.fresh);
        Ok(())
    }
}
