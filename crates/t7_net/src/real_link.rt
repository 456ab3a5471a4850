//! The real link, over TCP. It tells nothing of what it was asked, took and sent.
ghost use Rattle.std.specs.Prelude.{◌≡◌, ◌≢◌, ◌+◌, ◌<◌, ◌≤◌, ◌∷◌};
ghost use Rattle.std.specs.Prelude.{[], List, ℕ, length, vec_len, None, IfOk, IfSome, OnOk, OnErr};
ghost use Rattle.t7_base.specs.Outside.{Begins, Grew, HasCause, Rose};
ghost use Rattle.t7_net.specs.Links.{Gave, IsPiece, LinkSent, Numbers};

use crate::{Link, LinkEvent};
use std::alloc::Global;
use std::io::{ErrorKind, Read, Write};
use std::net::{Net, Shutdown, TcpListener, TcpStream};
use std::rt::Clock;
use std::time::Duration;
use std::{io, thread};
use t7_base::Failed;

// How often `next` looks for an event, and how many milliseconds it waits between two looks.
const LOOKS: u32 = 100;

const PAUSE: u64 = 1;

// How many milliseconds in all a send waits for a peer that takes nothing.
const PATIENCE: u32 = 1000;

// An open connection.
#[derive(Drop)]
struct Peer {
    conn: u32,
    stream: TcpStream,
}

/// TCP connections, each with the number that it got when it was opened or dialed: they are numbered from 1, and no number is given
/// again. It counts its faults and tells nothing else. A peer that takes nothing for a second in all of one send counts as gone.
#[derive(Drop)]
pub struct RealLink<'a, R> {
    rt: &'a R,
    listener: Option<TcpListener>,
    /// The open connections.
    peers: Vec<Peer>,
    /// The number of the last connection.
    last: u32,
    /// The place that is looked at next: that of an open connection, or behind them that of the listener.
    turn: usize,
    faults: u64,
}

impl<'a, R: Net<Listener = TcpListener, Stream = TcpStream> + Clock> RealLink<'a, R> {
    /// No call was made yet.
    pub fn new(alloc: Global, rt: &'a R) -> RealLink<'a, R>
        ensures { (result.faults ≡ 0) × (result.last ≡ 0) }
    {
        RealLink {
            rt,
            listener: None,
            peers: Vec::new(alloc),
            last: 0,
            turn: 0,
            faults: 0,
        }
    }

    // Gives a connection the next number, where there is one and there is memory for it.
    fn hold(&mut self, stream: TcpStream) -> Option<u32>
        ensures held { IfSome result (λ conn. (conn ≡ self.old.last + 1) × (self.new.last ≡ conn)) }
        ensures none { result ≡ None → self.new.last ≡ self.old.last }
        ensures faults { self.new.faults ≡ self.old.faults }
    {
        let conn = self.last.checked_add(1)?;
        if self.peers.push(Peer { conn, stream }).is_err() {
            return None;
        }
        self.last = conn;
        Some(conn)
    }

    // A peer that opens a connection, if one does.
    fn accept(&mut self) -> LinkEvent
        ensures piece { (room : _) → IsPiece result room }
        ensures numbers { Numbers result self.old.last self.new.last }
        ensures faults { self.new.faults ≡ self.old.faults }
    {
        let Some(listener) = &self.listener else {
            return LinkEvent::Quiet;
        };
        match accept_stream(listener) {
            Ok(Some(stream)) => match self.hold(stream) {
                Some(conn) => LinkEvent::Opened(conn),
                None => LinkEvent::Failed,
            },
            Ok(None) => LinkEvent::Quiet,
            Err(_) => LinkEvent::Failed,
        }
    }

    // What a connection gives. Where it is closed, it isn't open any longer.
    fn read(&mut self, at: usize, into: &mut [u8]) -> LinkEvent
        requires { at < vec_len self.old.peers }
        ensures piece { IsPiece result (length into.old) }
        ensures numbers { Numbers result self.old.last self.new.last }
        ensures faults { self.new.faults ≡ self.old.faults }
    {
        let peer = &self.peers[at];
        let event = read_piece(&peer.stream, peer.conn, into);
        if let LinkEvent::Closed(_) = event {
            self.peers.remove(at);
        }
        event
    }

    // Looks at one place, which is behind the one that was looked at last.
    fn look(&mut self, into: &mut [u8]) -> LinkEvent
        ensures piece { IsPiece result (length into.old) }
        ensures numbers { Numbers result self.old.last self.new.last }
        ensures faults { self.new.faults ≡ self.old.faults }
    {
        let at = self.turn;
        if at < self.peers.len() {
            self.turn = at + 1;
            self.read(at, into)
        } else {
            self.turn = 0;
            self.accept()
        }
    }

    // Looks at each place once, up to the first that gives an event.
    fn look_round(&mut self, into: &mut [u8]) -> LinkEvent
        ensures piece { IsPiece result (length into.old) }
        ensures numbers { Numbers result self.old.last self.new.last }
        ensures faults { self.new.faults ≡ self.old.faults }
    {
        let places = self.peers.len();
        for _place in 0..places {
            let event = self.look(into);
            if event != LinkEvent::Quiet {
                return event;
            }
        }
        self.look(into)
    }

    // Looks a while for an event.
    fn await_event(&mut self, into: &mut [u8]) -> LinkEvent
        ensures piece { IsPiece result (length into.old) }
        ensures numbers { Numbers result self.old.last self.new.last }
        ensures faults { self.new.faults ≡ self.old.faults }
    {
        for _look in 0..LOOKS {
            let event = self.look_round(into);
            if event != LinkEvent::Quiet {
                return event;
            }
            thread::sleep(self.rt, Duration::from_millis(PAUSE));
        }
        LinkEvent::Quiet
    }
}

impl<R: Net<Listener = TcpListener, Stream = TcpStream> + Clock> Link for RealLink<'_, R> {
    ghost asked = { λ _. None };

    ghost events = { λ _. None };

    ghost sent = { λ _. None };

    ghost faults = { λ s. s.faults };

    fn listen(&mut self, address: &str) -> Result<(), Failed>
        ensures cause { HasCause self.old.faults self.new.faults result }
        ensures no_fault { OnOk result (self.new.faults ≡ self.old.faults) }
    {
        match open_listener(self.rt, address) {
            Ok(listener) => {
                self.listener = Some(listener);
                Ok(())
            }
            Err(_) => {
                self.faults = self.faults.saturating_add(1);
                Err(Failed)
            }
        }
    }

    fn dial(&mut self, address: &str) -> Result<u32, Failed>
        ensures cause { HasCause self.old.faults self.new.faults result }
        ensures no_fault { OnOk result (self.new.faults ≡ self.old.faults) }
        ensures number { IfOk result (λ conn. (conn ≡ self.old.last + 1) × (self.new.last ≡ conn)) }
        ensures none { OnErr result (self.new.last ≡ self.old.last) }
    {
        if let Ok(stream) = TcpStream::connect(self.rt, address).and_then(set_modes) {
            if let Some(conn) = self.hold(stream) {
                return Ok(conn);
            }
        }
        self.faults = self.faults.saturating_add(1);
        Err(Failed)
    }

    fn next(&mut self, into: &mut [u8]) -> LinkEvent
        requires { into.old ≢ [] }
        ensures piece { IsPiece result (length into.old) }
        ensures count { self.old.faults ≤ self.new.faults }
        ensures failed { result ≡ LinkEvent.Failed → Rose self.old.faults self.new.faults }
        ensures no_fault { result ≢ LinkEvent.Failed → self.new.faults ≡ self.old.faults }
        ensures numbers { Numbers result self.old.last self.new.last }
    {
        let event = self.await_event(into);
        if event == LinkEvent::Failed {
            self.faults = self.faults.saturating_add(1);
        }
        event
    }

    fn send(&mut self, conn: u32, bytes: &[u8]) -> Result<(), Failed>
        ensures ok { OnOk result (Grew {A = LinkSent} None None (λ added. added ≡ Gave conn bytes.now ∷ [])) }
        ensures err { OnErr result (Grew {A = LinkSent} None None (λ added.
            (front : List ℕ) × Begins front bytes.now × (added ≡ Gave conn front ∷ []))) }
        ensures cause { HasCause self.old.faults self.new.faults result }
        ensures no_fault { OnOk result (self.new.faults ≡ self.old.faults) }
    {
        let Some(at) = place_of(&self.peers, conn) else {
            return Ok(());
        };
        match write_whole(self.rt, &self.peers[at].stream, bytes) {
            Ok(()) => Ok(()),
            Err(error) if has_gone(&error) => Ok(()),
            Err(_) => {
                self.faults = self.faults.saturating_add(1);
                Err(Failed)
            }
        }
    }

    fn close(&mut self, conn: u32)
        ensures count { self.old.faults ≤ self.new.faults }
        ensures no_fault { self.new.faults ≡ self.old.faults }
    {
        if let Some(at) = place_of(&self.peers, conn) {
            let peer = self.peers.remove(at);
            let_go(&peer.stream);
        }
    }
}

// The place of a connection among the open ones.
fn place_of(peers: &[Peer], conn: u32) -> Option<usize>
    ensures { IfSome result (λ at. at < length peers.now) }
{
    for at in 0..peers.len() {
        if peers[at].conn == conn {
            return Some(at);
        }
    }
    None
}

// A listener whose `accept` doesn't wait.
fn open_listener<R: Net<Listener = TcpListener, Stream = TcpStream>>(
    rt: &R,
    address: &str,
) -> io::Result<TcpListener> {
    let listener = TcpListener::bind(rt, address)?;
    listener.set_nonblocking(true)?;
    Ok(listener)
}

// The same stream, whose calls don't wait.
fn set_modes(stream: TcpStream) -> io::Result<TcpStream> {
    stream.set_nonblocking(true)?;
    stream.set_nodelay(true)?;
    Ok(stream)
}

// A connection that a peer opened, if one did. Where the system has no socket left, the peer waits.
fn accept_stream(listener: &TcpListener) -> io::Result<Option<TcpStream>> {
    match listener.accept() {
        Ok((stream, _)) => Ok(Some(set_modes(stream)?)),
        Err(error) if is_nothing(&error) || has_gone(&error) || is_crowded(&error) => Ok(None),
        Err(error) => Err(error),
    }
}

// The bytes that came on a connection, or its end.
fn read_piece(mut stream: &TcpStream, conn: u32, into: &mut [u8]) -> LinkEvent
    ensures piece { IsPiece result (length into.old) }
    ensures numbers { (last : _) → Numbers result last last }
{
    match stream.read(into) {
        Ok(0) => LinkEvent::Closed(conn),
        Ok(count) => LinkEvent::Bytes(conn, count),
        Err(error) if is_nothing(&error) => LinkEvent::Quiet,
        Err(error) if has_gone(&error) => LinkEvent::Closed(conn),
        Err(_) => LinkEvent::Failed,
    }
}

// Writes all the bytes. A peer that takes nothing for a while counts as gone: the connection is shut, so that `next` finds its end.
fn write_whole<R: Clock>(rt: &R, mut stream: &TcpStream, bytes: &[u8]) -> io::Result<()> {
    let mut rest = bytes;
    let mut waited = 0;
    while !rest.is_empty() {
        match stream.write(rest) {
            Ok(0) => return Err(io::Error::from(ErrorKind::BrokenPipe)),
            Ok(count) => rest = &rest[count..],
            Err(error) if !is_nothing(&error) => return Err(error),
            Err(_) if waited < PATIENCE => {
                waited += 1;
                thread::sleep(rt, Duration::from_millis(PAUSE));
            }
            Err(_) => return stream.shutdown(Shutdown::Both),
        }
    }
    Ok(())
}

// Ends a connection, and takes what the peer has sent already: a socket that is dropped with bytes unread would cut off what was sent
// to the peer last.
fn let_go(mut stream: &TcpStream) {
    let mut unread = [0u8; 4096];
    if stream.shutdown(Shutdown::Write).is_err() {
        return;
    }
    for _turn in 0..64 {
        match stream.read(&mut unread) {
            Ok(0) => return,
            Ok(_) => {}
            Err(_) => return,
        }
    }
}

// Nothing came, or nothing is taken, for now.
fn is_nothing(error: &io::Error) -> bool {
    matches!(error.kind(), ErrorKind::WouldBlock | ErrorKind::Interrupted)
}

// The peer is there no longer.
fn has_gone(error: &io::Error) -> bool {
    matches!(
        error.kind(),
        ErrorKind::BrokenPipe
            | ErrorKind::ConnectionReset
            | ErrorKind::ConnectionAborted
            | ErrorKind::NotConnected
            | ErrorKind::TimedOut
    )
}

// The process, or the system, has as many files and sockets open as it may: ENFILE or EMFILE.
fn is_crowded(error: &io::Error) -> bool {
    match error.raw_os_error() {
        Some(number) => number == 23 || number == 24,
        None => false,
    }
}
