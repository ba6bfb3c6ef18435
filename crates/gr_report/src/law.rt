//! What every run rests on. Each function here does nothing: its contract is the law.

ghost use Rattle.std.specs.Prelude.{List};
ghost use Rattle.gr_sched.specs.declared.step.Line.{Line};
ghost use Rattle.gr_topo.specs.Topology.{TopologyView};
ghost use Rattle.gr_model.specs.NetOf.{net_of};
ghost use Rattle.gr_model_calls.specs.Fits.{StepsIn};
ghost use Rattle.gr_model_theorems.specs.Spelled.{NumbersIn};
ghost use Rattle.gr_scenario.specs.Steps.{AreStepsOf};

/// The steps of a topology are those that the theorems speak of: they name publishers and brokers of its net, and their
/// moments and events are within the limits of frames.
pub fn steps_fit_the_theorems()
    ensures { (t : TopologyView) (ls : List Line) → AreStepsOf t ls → StepsIn (net_of t) ls × NumbersIn ls }
{}
