//! What the steps of a scenario rest on. The function does nothing: its contract is the law.

ghost use Rattle.std.specs.Prelude.{List};
ghost use Rattle.std.specs.List.{All};
ghost use Rattle.gr_sched.specs.declared.step.Line.{Line};
ghost use Rattle.gr_sched.specs.Ranges.{IsStep};
ghost use Rattle.gr_topo.specs.Topology.{TopologyView, naming_of};
ghost use Rattle.gr_scenario.specs.Steps.{AreStepsOf};

/// The steps that are read with the names of a topology are steps of it.
pub fn steps_that_are_read()
    ensures { (t : TopologyView) (lines : List Line)
        → All (λ l. IsStep (naming_of t) l.step) lines → AreStepsOf t lines }
{}
