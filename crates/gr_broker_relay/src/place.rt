//! Where a broker stands in a publisher's tree.

ghost use Rattle.std.specs.Prelude.{◌≡◌, ℕ, ◌<◌, ◌≤◌, [], length, map, get_or, OnOk, IfOk};
ghost use Rattle.std.specs.List.{AllByRecursion};
ghost use Rattle.gr_topo.specs.Topology.{children_of};
ghost use Rattle.gr_model.specs.Net.{numbers};
ghost use Rattle.gr_broker_relay.specs.Branch.{branch_of, late_number, wanting_of, wantings_below};
ghost use Rattle.gr_broker_relay.specs.Held.{seen_branch, HasEdges};
ghost use Rattle.gr_broker_relay.specs.Positions.{AreEdges, Keeps};

use gr_edge::Edge;
use gr_event::{Memory, Numbers};
use gr_topo::Topology;
use std::alloc::Global;

/// A child: its number, and the place of the edge to it among the edges of the broker.
#[derive(Clone, Copy, Debug, PartialEq, Eq)]
pub struct Child {
    /// The number of the broker.
    pub number: u16,
    /// The place of the edge.
    pub edge: usize,
}

/// Where a broker stands in a publisher's tree, worked out once.
#[derive(Drop)]
pub struct Position {
    /// Whether the publisher is here.
    pub host: bool,
    /// The next broker towards the host; the host has none.
    pub up: Option<u16>,
    /// Whether a horizon is kept.
    pub keeps: bool,
    /// The next brokers away from the host, in order.
    pub children: Vec<Child>,
}

/// The edges of a broker, and beside each the subscribers behind it: one edge for each such list.
#[derive(Drop)]
pub(crate) struct EdgeTable {
    pub edges: Vec<Edge>,
    pub behind: Vec<Numbers>,
}

/// The number of a subscriber, where it is late.
fn late_number(topo: &Topology, s: u16) -> Option<u16>
    ensures { result ≡ late_number topo.now s }
{
    if topo.late(s) {
        return Some(s);
    }
    None
}

/// The edge that has these subscribers behind it.
fn edge_of(alloc: Global, topo: &Topology, behind: &[u16]) -> Result<Edge, Memory>
    requires known { (i : ℕ) → i < length behind.now → get_or behind.now i 0 < length topo.now.subscribers }
    requires few { length behind.now ≤ length topo.now.subscribers }
    ensures { IfOk result (λ edge. edge ≡ map (wanting_of topo.now) behind.now) }
{
    let _ = topo.subscribers();
    let mut edge = Edge::new(alloc);
    'subscribers: for s in behind {
        edge.add(topo.filter(*s), late_number(topo, *s))?;
    }
    Ok(edge)
}

impl EdgeTable {
    /// No edges. Takes no memory.
    fn new(alloc: Global) -> EdgeTable
        ensures edges { result.edges.items ≡ [] }
        ensures behind { result.behind.items ≡ [] }
    {
        EdgeTable {
            edges: Vec::new(alloc),
            behind: Vec::new(alloc),
        }
    }

    /// The place of the edge that has these subscribers behind it: one that is there, or a new one.
    fn edge_for(&mut self, alloc: Global, topo: &Topology, behind: Numbers) -> Result<usize, Memory>
        requires known { (i : ℕ) → i < length behind → get_or behind i 0 < length topo.now.subscribers }
        requires few { length behind ≤ length topo.now.subscribers }
        requires edges { AreEdges topo.now self.old }
        ensures edges { OnOk result (AreEdges topo.now self.new) }
        ensures keeps { OnOk result (Keeps self.old.edges.items self.new.edges.items) }
        ensures place { IfOk result (λ i. i < length self.new.edges.items) }
        ensures edge { IfOk result (λ i. get_or self.new.edges.items i [] ≡ map (wanting_of topo.now) behind) }
    {
        'entries: for i in 0..self.behind.len() {
            if self.behind[i].as_slice() == behind.as_slice() {
                return Ok(i);
            }
        }
        let place = self.edges.len();
        let edge = edge_of(alloc, topo, behind.as_slice())?;
        self.edges.push(edge)?;
        self.behind.push(behind)?;
        Ok(place)
    }
}

/// The children of a broker with their edges.
fn children_at(
    alloc: Global,
    topo: &Topology,
    p: u16,
    b: u16,
    table: &mut EdgeTable,
) -> Result<Vec<Child>, Memory>
    requires publisher { p < length topo.now.publishers }
    requires broker { b < length topo.now.brokers }
    requires edges { AreEdges topo.now table.old }
    ensures edges { OnOk result (AreEdges topo.now table.new) }
    ensures keeps { OnOk result (Keeps table.old.edges.items table.new.edges.items) }
    ensures numbers { IfOk result (λ cs. map (λ c. c.number) cs.items ≡ children_of topo.now p b) }
    ensures behind { IfOk result (λ cs. map (λ c. get_or table.new.edges.items c.edge []) cs.items
        ≡ map (wantings_below topo.now p) (children_of topo.now p b)) }
    ensures each { IfOk result (λ cs. AllByRecursion (λ c. c.edge < length table.new.edges.items) cs.items) }
{
    let mut children = Vec::new(alloc);
    let numbers = topo.children(alloc, p, b)?;
    'children: for number in numbers.as_slice() {
        let behind = topo.below(alloc, p, *number)?;
        let edge = table.edge_for(alloc, topo, behind)?;
        children.push(Child {
            number: *number,
            edge,
        })?;
    }
    Ok(children)
}

/// Where a broker stands in the tree of a publisher.
fn position_at(
    alloc: Global,
    topo: &Topology,
    p: u16,
    b: u16,
    table: &mut EdgeTable,
) -> Result<Position, Memory>
    requires publisher { p < length topo.now.publishers }
    requires broker { b < length topo.now.brokers }
    requires edges { AreEdges topo.now table.old }
    ensures edges { OnOk result (AreEdges topo.now table.new) }
    ensures keeps { OnOk result (Keeps table.old.edges.items table.new.edges.items) }
    ensures branch { IfOk result (λ place. seen_branch table.new.edges.items place ≡ branch_of topo.now b p) }
    ensures each { IfOk result (λ place. HasEdges table.new.edges.items place) }
{
    let children = children_at(alloc, topo, p, b, table)?;
    Ok(Position {
        host: topo.host(p) == b,
        up: topo.up(p, b),
        keeps: topo.keeps_horizon(p, b),
        children,
    })
}

/// Where a broker stands in the trees of all publishers, and the edges to its children.
#[derive(Drop)]
pub struct Placed {
    /// The edges, which all publishers share.
    pub edges: Vec<Edge>,
    /// For each publisher where the broker stands in its tree.
    pub positions: Vec<Position>,
}

/// Works out where a broker stands in the trees of all publishers. It fails only at want of memory.
pub fn positions_at(alloc: Global, topo: &Topology, b: u16) -> Result<Placed, Memory>
    requires { b < length topo.now.brokers }
    ensures branches { IfOk result (λ placed. map (seen_branch placed.edges.items) placed.positions.items
        ≡ map (branch_of topo.now b) (numbers (length topo.now.publishers))) }
    ensures each { IfOk result (λ placed. AllByRecursion (HasEdges placed.edges.items) placed.positions.items) }
{
    let mut table = EdgeTable::new(alloc);
    let mut positions = Vec::new(alloc);
    'publishers: for p in 0..topo.publishers() {
        let position = position_at(alloc, topo, p, b, &mut table)?;
        positions.push(position)?;
    }
    let EdgeTable { edges, behind } = table;
    drop(behind);
    Ok(Placed { edges, positions })
}
