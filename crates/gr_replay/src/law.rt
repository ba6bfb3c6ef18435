//! What a replay rests on. Each function here does nothing: its contract is the law.

ghost use Rattle.std.specs.List.{AllByRecursion};
ghost use Rattle.gr_sched.specs.declared.step.Line.{Line};
ghost use Rattle.gr_topo.specs.Topology.{TopologyView};
ghost use Rattle.gr_model.specs.NetOf.{net_of, IsOrderly};
ghost use Rattle.gr_model.specs.Tree.{IsNet};
ghost use Rattle.gr_model.specs.World.{World, next};
ghost use Rattle.gr_model_calls.specs.Edges.{GoesOverEdge};
ghost use Rattle.gr_scenario.specs.Steps.{IsStepOf};
ghost use Rattle.gr_report.specs.Named.{AllNamed};

/// Each line that a step tells names what the topology has, where all frames so far went over edges of its tree.
pub fn every_line_is_named()
    ensures { (t : TopologyView) (w : World) (l : Line) → IsNet (net_of t) → IsOrderly (net_of t)
        → AllByRecursion (GoesOverEdge (net_of t)) w.frames → IsStepOf t l.step
        → AllNamed t (next (net_of t) w l).lines }
{}
