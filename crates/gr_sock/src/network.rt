//! Sockets for datagrams, as a system has them.

ghost use Rattle.std.specs.Prelude.{◌≡◌, ◌≤◌, length, take, IfOk, OnOk, OnErr};
ghost use Rattle.gr_sock.specs.Network.{Traffic, with_opened, with_taken, with_sent, with_wait};

use crate::address::Address;
use std::io;

/// Sockets for datagrams, as a system has them, each by the number that it was given when it was opened.
///
/// A network that tells what passed tells where sockets were opened, which datagrams were taken and which were sent,
/// and the waits.
pub trait Network {
    /// That the network tells what passed.
    ghost tells: { Type 0 };

    /// What passed so far.
    ghost traffic: { Self → Traffic };

    /// Opens a socket at an address of this machine, and answers its number.
    fn open(&mut self, address: Address) -> io::Result<usize>
        ensures number { tells → IfOk result (λ n. n ≡ length (traffic self.old).opened) }
        ensures ok { tells → OnOk result (traffic self.new ≡ with_opened address (traffic self.old)) }
        ensures err { tells → OnErr result (traffic self.new ≡ traffic self.old) };

    /// Takes the next datagram that came at a socket, and writes it to the front of `into`, as much of it as there is
    /// room for. Where none is there, the error is `WouldBlock`.
    fn take(&mut self, socket: usize, into: &mut [u8]) -> io::Result<usize>
        ensures count { IfOk result (λ n. n ≤ length into.new) }
        ensures len { length into.new ≡ length into.old }
        ensures ok { tells → IfOk result (λ n.
            traffic self.new ≡ with_taken socket (take n into.new) (traffic self.old)) }
        ensures err { tells → OnErr result (traffic self.new ≡ traffic self.old) };

    /// Sends a datagram from a socket, whole.
    fn send(&mut self, socket: usize, to: Address, bytes: &[u8]) -> io::Result<()>
        ensures ok { tells → OnOk result (traffic self.new ≡ with_sent socket to bytes.now (traffic self.old)) }
        ensures err { tells → OnErr result (traffic self.new ≡ traffic self.old) };

    /// Waits until something may have come at a socket, or so many milliseconds.
    fn wait(&mut self, milliseconds: u64) -> io::Result<()>
        ensures ok { tells → OnOk result (traffic self.new ≡ with_wait milliseconds (traffic self.old)) }
        ensures err { tells → OnErr result (traffic self.new ≡ traffic self.old) };
}
