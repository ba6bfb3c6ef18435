//! The topologies that are read are those that the theorems speak of.

ghost use Rattle.std.specs.Prelude.{◌≡◌};
ghost use Rattle.gr_topo.specs.Topology.{blank};
ghost use Rattle.gr_model.specs.Tree.{IsNet};
ghost use Rattle.gr_model.specs.Blank.{net0};
ghost use Rattle.gr_model.specs.NetOf.{net_of, IsOrderly};

use gr_topo::Topology;

/// Every topology is a tree to the machine, seen from the host of each publisher; its lists rise and name what there
/// is, and its settings are at least 1. The function does nothing: its contract is the theorem.
pub fn every_topology_is_a_tree(topology: &Topology)
    ensures tree { IsNet (net_of topology.now) }
    ensures orderly { IsOrderly (net_of topology.now) }
{
    let _ = topology.brokers();
}

/// The topology of the small examples is the blank one.
pub fn the_blank_topology()
    ensures { net0 ≡ net_of blank }
{}
