//! The sockets of the operating system.

use crate::address::Address;
use crate::network::Network;
use mio::net::UdpSocket;
use mio::{Events, Interest, Poll, Token};
use std::alloc::Global;
use std::io;
use std::io::ErrorKind;
use std::net::{Ipv4Addr, Net, SocketAddr};
use std::time::Duration;

// How many sockets one wait can name. It ends for any of the others too.
const NAMED: usize = 16;

/// What waits for all sockets at once.
#[derive(Drop)]
struct Watch {
    poll: Poll,
    events: Events,
}

/// UDP sockets of the operating system, none of whose calls but `wait` waits. It tells nothing of what passes.
#[derive(Drop)]
pub struct UdpNetwork<R: Net> {
    alloc: Global,
    net: R,
    watch: Option<Watch>,
    sockets: Vec<UdpSocket>,
}

impl<R: Net> UdpNetwork<R> {
    /// No socket so far.
    pub fn new(alloc: Global, net: R) -> UdpNetwork<R> {
        UdpNetwork {
            alloc,
            net,
            watch: None,
            sockets: Vec::new(alloc),
        }
    }

    /// Makes what waits, unless it is there.
    fn make_watch(&mut self) -> io::Result<&mut Watch> {
        if self.watch.is_none() {
            let poll = Poll::new(&self.net)?;
            let events = Events::with_capacity(self.alloc, NAMED)?;
            self.watch = Some(Watch { poll, events });
        }
        match &mut self.watch {
            Some(watch) => Ok(watch),
            None => Err(ErrorKind::NotFound.into()),
        }
    }
}

/// An address as std has it.
fn socket_address(address: Address) -> SocketAddr {
    SocketAddr::from((Ipv4Addr::from(address.host), address.port))
}

/// A socket by its number.
fn socket_at(sockets: &[UdpSocket], number: usize) -> io::Result<&UdpSocket> {
    match sockets.get(number) {
        Some(socket) => Ok(socket),
        None => Err(ErrorKind::NotFound.into()),
    }
}

impl<R: Net> Network for UdpNetwork<R> {
    ghost use Rattle.gr_sock.specs.Network.{no_traffic};

    ghost tells = { ⊥ };

    ghost traffic = { λ _. no_traffic };

    fn open(&mut self, address: Address) -> io::Result<usize> {
        self.sockets.reserve(1)?;
        let number = self.sockets.len();
        let mut socket = UdpSocket::bind(&self.net, socket_address(address))?;
        let watch = self.make_watch()?;
        watch
            .poll
            .registry()
            .register(&mut socket, Token(number), Interest::READABLE)?;
        self.sockets.push(socket)?;
        Ok(number)
    }

    fn take(&mut self, socket: usize, into: &mut [u8]) -> io::Result<usize> {
        let (len, _) = socket_at(&self.sockets, socket)?.recv_from(into)?;
        Ok(len)
    }

    fn send(&mut self, socket: usize, to: Address, bytes: &[u8]) -> io::Result<()> {
        let sent = socket_at(&self.sockets, socket)?.send_to(bytes, socket_address(to))?;
        if sent < bytes.len() {
            return Err(ErrorKind::WriteZero.into());
        }
        Ok(())
    }

    fn wait(&mut self, milliseconds: u64) -> io::Result<()> {
        let watch = self.make_watch()?;
        watch.poll.poll(&mut watch.events, Some(Duration::from_millis(milliseconds)))
    }
}
