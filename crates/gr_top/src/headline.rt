//! That the report of every schedule meets the headline.

ghost use Rattle.gr_model.specs.NetOf.{net_of};
ghost use Rattle.gr_model.specs.World.{report_of};
ghost use Rattle.gr_scenario.specs.Steps.{AreStepsOf};
ghost use Rattle.gr_top.specs.Top.{MeetsHeadline};

use gr_model::topologies::every_topology_is_a_tree;
use gr_model_theorems::theorems::{
    headline_always, late_gets_past_its_join, one_order_always, ordered_always, replies_stand,
    runs_by_rules, sweep_hands_over, sweep_settles,
};
use gr_sched::Steps;
use gr_topo::Topology;

/// Over every topology that was read, the report of every schedule meets the headline. The function does nothing: its
/// contract is the theorem.
pub fn every_report_meets_the_headline(topology: &Topology, steps: &Steps)
    requires { AreStepsOf topology.now steps.now }
    ensures { MeetsHeadline topology.now steps.now (report_of (net_of topology.now) steps.now) }
{
    every_topology_is_a_tree(topology);
    headline_always();
    late_gets_past_its_join();
    runs_by_rules();
    replies_stand();
    ordered_always();
    one_order_always();
    sweep_settles();
    sweep_hands_over();
    let _ = steps;
}
