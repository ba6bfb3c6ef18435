//! Where a broker stands in the publishers' trees.

ghost use Rattle.std.specs.Prelude.{◌≡◌, ◌<◌, length, slice_index_or};
ghost use Rattle.gr_broker_relay.specs.Held.{IsSeat, IsSite};

use crate::place::Position;
use gr_edge::Edge;
use gr_topo::Topology;
use std::alloc::Global;

/// A broker of a topology: what all its calls look at and never change.
#[derive(Clone, Copy)]
pub struct Seat<'a> {
    /// Where memory is taken.
    pub alloc: Global,
    /// The topology.
    pub topo: &'a Topology,
    /// The number of the broker.
    pub number: u16,
    /// The subscribers at the broker.
    pub here: &'a [u16],
    /// The edges of the broker, which all publishers share.
    pub edges: &'a [Edge],
    /// For each publisher where the broker stands in its tree.
    pub positions: &'a [Position],
}

/// One publisher's tree, seen from a broker: what a call looks at and never changes.
#[derive(Clone, Copy)]
pub struct Site<'a> {
    /// Where memory is taken.
    pub alloc: Global,
    /// The topology.
    pub topo: &'a Topology,
    /// The edges of the broker, which all publishers share.
    pub edges: &'a [Edge],
    /// The subscribers at the broker.
    pub here: &'a [u16],
    /// Where the broker stands in the tree.
    pub position: &'a Position,
    /// The number of the broker.
    pub broker: u16,
    /// The number of the publisher.
    pub publisher: u16,
}

/// The tree of one publisher, seen from the broker at a seat. Takes no memory.
pub fn site_at<'a>(seat: &Seat<'a>, publisher: u16) -> Site<'a>
    requires seat { IsSeat seat.now }
    requires publisher { publisher < length seat.now.topo.now.publishers }
    ensures site { IsSite result }
    ensures topo { result.topo.now ≡ seat.now.topo.now }
    ensures broker { result.broker ≡ seat.now.number }
    ensures publisher { result.publisher ≡ publisher }
    ensures position { result.position.now ≡ slice_index_or seat.now.positions.now publisher result.position.now }
{
    Site {
        alloc: seat.alloc,
        topo: seat.topo,
        edges: seat.edges,
        here: seat.here,
        position: &seat.positions[publisher as usize],
        broker: seat.number,
        publisher,
    }
}
