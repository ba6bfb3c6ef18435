//! What a world reads off its topology: who hosts a subscriber, and brokers by their depth.

ghost use Rattle.std.specs.Prelude.{◌≡◌, ◌<◌, ◌++◌, length, IfOk, OnOk};
ghost use Rattle.gr_topo.specs.Topology.{subscribers_of, not_empty};
ghost use Rattle.gr_model.specs.NetOf.{net_of};
ghost use Rattle.gr_model.specs.World.{at_depth, inwards, outwards};

use crate::fault::Memory;
use gr_event::Numbers;
use gr_topo::Topology;
use std::alloc::Global;

/// Whether a broker hosts a subscriber. Takes no memory.
pub(crate) fn hosts_subscriber(topology: &Topology, b: u16) -> bool
    requires { b < length topology.now.brokers }
    ensures { result ≡ not_empty (subscribers_of topology.now b) }
{
    for s in 0..topology.subscribers() {
        if topology.at(s) == b {
            return true;
        }
    }
    false
}

/// Puts the brokers at one depth below a publisher's host behind those that were found, in order.
fn put_depth(topology: &Topology, p: u16, depth: u16, found: &mut Numbers) -> Result<(), Memory>
    requires { p < length topology.now.publishers }
    ensures { OnOk result (found.new ≡ found.old ++ at_depth (net_of topology.now) p depth) }
{
    'brokers: for b in 0..topology.brokers() {
        if topology.depth(p, b) == depth {
            found.push(b)?;
        }
    }
    Ok(())
}

/// All brokers by falling depth below a publisher's host, those of one depth in order.
pub(crate) fn deepest_first(alloc: Global, topology: &Topology, p: u16) -> Result<Numbers, Memory>
    requires { p < length topology.now.publishers }
    ensures { IfOk result (λ n. n ≡ inwards (net_of topology.now) p) }
{
    let mut found = Numbers::new(alloc);
    'depths: for depth in (0..topology.brokers()).rev() {
        put_depth(topology, p, depth, &mut found)?;
    }
    Ok(found)
}

/// All brokers by rising depth, those of one depth in order.
pub(crate) fn host_first(alloc: Global, topology: &Topology, p: u16) -> Result<Numbers, Memory>
    requires { p < length topology.now.publishers }
    ensures { IfOk result (λ n. n ≡ outwards (net_of topology.now) p) }
{
    let mut found = Numbers::new(alloc);
    'depths: for depth in 0..topology.brokers() {
        put_depth(topology, p, depth, &mut found)?;
    }
    Ok(found)
}
