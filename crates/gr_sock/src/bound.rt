//! What is kept of a broker that was bound.

use crate::address::Address;

/// A broker that was bound: where it is, and its socket, where it is hosted here.
#[derive(Clone, Copy, Debug, PartialEq, Eq)]
pub struct Bound {
    /// The broker's number.
    pub broker: u16,
    /// Where its datagrams go.
    pub address: Address,
    /// The number of its socket.
    pub socket: Option<usize>,
}
