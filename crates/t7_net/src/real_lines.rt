//! The real lines, over UDP. They tell nothing of what they were asked, took and sent.
ghost use Rattle.std.specs.Prelude.{◌≡◌, ◌≢◌, ◌≤◌, ◌<◌, [], ◌∷◌, List, Option, length, None, IfOk, IfSome, OnOk, OnErr};
ghost use Rattle.t7_base.specs.Outside.{Grew, HasCause, Rose};
ghost use Rattle.t7_net.specs.Lines.{Casting, Fits};

use crate::{Lines, Received};
use std::io::ErrorKind;
use std::net::{Ipv4Addr, Ipv6Addr, Net, SocketAddr, ToSocketAddrs, UdpSocket};
use std::rt::Clock;
use std::time::Duration;
use std::{io, thread};
use t7_base::{Failed, Feed};

// How often `receive` looks for a datagram, and how many milliseconds it waits between two looks.
const LOOKS: u32 = 100;

const PAUSE: u64 = 1;

// A feed's socket, and where its datagrams go.
#[derive(Drop)]
enum Port {
    Hears(UdpSocket),
    Casts(UdpSocket, SocketAddr),
}

/// A UDP socket for each feed that was bound. It counts its faults and tells nothing else. A feed that is bound again has the later
/// address alone; a cast on a feed that isn't bound for sending fails.
#[derive(Drop)]
pub struct RealLines<'a, R> {
    rt: &'a R,
    ports: [Option<Port>; 4],
    /// The place of the feed that gave the last datagram.
    turn: usize,
    faults: u64,
}

impl<'a, R: Net + Clock> RealLines<'a, R> {
    /// No call was made yet.
    pub fn new(rt: &'a R) -> RealLines<'a, R>
        ensures { result.faults ≡ 0 }
    {
        RealLines {
            rt,
            ports: [None, None, None, None],
            turn: 3,
            faults: 0,
        }
    }

    // Opens the socket of a feed.
    fn open(&mut self, feed: Feed, address: &str, listen: bool) -> io::Result<()>
        ensures { self.new.faults ≡ self.old.faults }
    {
        let address = first_address(self.rt, address)?;
        let port = if listen {
            Port::Hears(open_socket(self.rt, address)?)
        } else {
            Port::Casts(UdpSocket::bind(self.rt, any_of(address))?, address)
        };
        self.ports[place(feed)] = Some(port);
        Ok(())
    }
}

impl<R: Net + Clock> Lines for RealLines<'_, R> {
    ghost asked = { λ _. None };

    ghost taken = { λ _. None };

    ghost cast = { λ _. None };

    ghost faults = { λ s. s.faults };

    fn bind(&mut self, feed: Feed, address: &str, listen: bool) -> Result<(), Failed>
        ensures cause { HasCause self.old.faults self.new.faults result }
        ensures no_fault { OnOk result (self.new.faults ≡ self.old.faults) }
    {
        match self.open(feed, address, listen) {
            Ok(()) => Ok(()),
            Err(_) => {
                self.faults = self.faults.saturating_add(1);
                Err(Failed)
            }
        }
    }

    fn receive(&mut self, into: &mut [u8]) -> Received
        requires { 1473 ≤ length into.old }
        ensures fits { Fits result (length into.old) }
        ensures count { self.old.faults ≤ self.new.faults }
        ensures failed { result ≡ Received.Failed → Rose self.old.faults self.new.faults }
        ensures no_fault { result ≢ Received.Failed → self.new.faults ≡ self.old.faults }
    {
        match wait(self.rt, &self.ports, self.turn, into) {
            Ok(Some((at, count))) => {
                self.turn = at;
                Received::Datagram(feed_at(at), count)
            }
            Ok(None) => Received::Quiet,
            Err(_) => {
                self.faults = self.faults.saturating_add(1);
                Received::Failed
            }
        }
    }

    fn cast(&mut self, feed: Feed, bytes: &[u8]) -> Result<(), Failed>
        ensures ok { OnOk result (Grew {A = Casting} None None (λ added. added ≡ record { feed = feed; bytes = bytes.now } ∷ [])) }
        ensures err { OnErr result (let untold : Option (List Casting) = None in untold ≡ untold) }
        ensures cause { HasCause self.old.faults self.new.faults result }
        ensures no_fault { OnOk result (self.new.faults ≡ self.old.faults) }
    {
        let sent = match &self.ports[place(feed)] {
            Some(Port::Casts(socket, address)) => socket.send_to(bytes, *address),
            _ => Err(io::Error::from(ErrorKind::NotConnected)),
        };
        match sent {
            Ok(count) if count == bytes.len() => Ok(()),
            _ => {
                self.faults = self.faults.saturating_add(1);
                Err(Failed)
            }
        }
    }
}

// Looks a while for a datagram: the place of its feed, and its length.
fn wait<R: Clock>(
    rt: &R,
    ports: &[Option<Port>; 4],
    last: usize,
    into: &mut [u8],
) -> io::Result<Option<(usize, usize)>>
    ensures { IfOk result (λ found. IfSome found (λ f. f.1 ≤ length into.old)) }
{
    for _look in 0..LOOKS {
        let found = look(ports, last, into)?;
        if found.is_some() {
            return Ok(found);
        }
        thread::sleep(rt, Duration::from_millis(PAUSE));
    }
    look(ports, last, into)
}

// The first datagram that stands in a socket; the feed of the last one is looked at last.
fn look(
    ports: &[Option<Port>; 4],
    last: usize,
    into: &mut [u8],
) -> io::Result<Option<(usize, usize)>>
    ensures { IfOk result (λ found. IfSome found (λ f. f.1 ≤ length into.old)) }
{
    for step in 1..5 {
        let at = (last % 4 + step) % 4;
        if let Some(Port::Hears(socket)) = &ports[at] {
            match socket.recv_from(into) {
                Ok((count, _)) => return Ok(Some((at, count))),
                Err(error) if is_nothing(&error) => {}
                Err(error) => return Err(error),
            }
        }
    }
    Ok(None)
}

// The place of a feed among the four.
fn place(feed: Feed) -> usize
    ensures { result < 4 }
{
    match feed {
        Feed::LiveA => 0,
        Feed::LiveB => 1,
        Feed::SnapA => 2,
        Feed::SnapB => 3,
    }
}

// The feed of a place.
fn feed_at(place: usize) -> Feed {
    match place {
        0 => Feed::LiveA,
        1 => Feed::LiveB,
        2 => Feed::SnapA,
        _ => Feed::SnapB,
    }
}

// The first address that a word names.
fn first_address<R: Net>(rt: &R, address: &str) -> io::Result<SocketAddr> {
    match address.to_socket_addrs(rt)?.next() {
        Some(address) => Ok(address),
        None => Err(io::Error::from(ErrorKind::InvalidInput)),
    }
}

// An address from which datagrams can go to that one.
fn any_of(address: SocketAddr) -> SocketAddr {
    match address {
        SocketAddr::V4(_) => SocketAddr::from((Ipv4Addr::UNSPECIFIED, 0)),
        SocketAddr::V6(_) => SocketAddr::from((Ipv6Addr::UNSPECIFIED, 0)),
    }
}

// A socket that hears at that address, whose calls don't wait.
fn open_socket<R: Net>(rt: &R, address: SocketAddr) -> io::Result<UdpSocket> {
    let socket = UdpSocket::bind(rt, address)?;
    socket.set_nonblocking(true)?;
    Ok(socket)
}

// Nothing has come.
fn is_nothing(error: &io::Error) -> bool {
    matches!(error.kind(), ErrorKind::WouldBlock | ErrorKind::Interrupted)
}
