//! What a yes to journals is worth. The function here does nothing: its contract is the law.

ghost use Rattle.std.specs.Prelude.{◌≡◌, ℕ, ◌≤◌, ◌^◌, List, Ok, length};
ghost use Rattle.gr_sched.specs.declared.step.Line.{Line};
ghost use Rattle.gr_topo.specs.Topology.{TopologyView};
ghost use Rattle.gr_model.specs.NetOf.{net_of};
ghost use Rattle.gr_model_theorems.specs.Statements.{IsAskedRun};
ghost use Rattle.gr_model_theorems.specs.Spelled.{LateIn, NumbersIn};
ghost use Rattle.gr_audit.specs.declared.verdict.Verdict.TheVariants.{Yes};
ghost use Rattle.gr_audit.specs.Audited.{audited};
ghost use Rattle.gr_audit_theorems.specs.Behaves.{behaves};
ghost use Rattle.gr_audit_theorems.specs.OneRun.{IsOneRun};

use gr_audit::{stuck_is_exact, wrong_is_exact};
use gr_model_theorems::theorems::headline_joint;

/// Journals that are audited with yes are one honest run, over each topology and schedule within the limits of frames.
pub fn a_yes_is_one_honest_run()
    ensures { (t : TopologyView) (steps : List Line) (bytes : List ℕ)
        → IsAskedRun (net_of t) steps → length t.brokers ≤ 2 ^ 16 → length t.publishers ≤ 2 ^ 16 → LateIn (net_of t)
        → NumbersIn steps → audited (behaves t steps) t bytes ≡ Ok Yes → IsOneRun t steps bytes }
{
    headline_joint();
    stuck_is_exact();
    wrong_is_exact();
}
