//! What stands of every world that a run led to. Each function here does nothing: its contract is the law.

ghost use Rattle.std.specs.Prelude.{ℕ, ◌<◌, List, length};
ghost use Rattle.gr_out.specs.Lane.{Lane};
ghost use Rattle.gr_publog.specs.Views.{lanes_at, MayLeavePair};
ghost use Rattle.gr_sched.specs.declared.step.Line.{Line};
ghost use Rattle.gr_model.specs.declared.report.Report.{Report};
ghost use Rattle.gr_model_calls.specs.Fits.{history_of};
ghost use Rattle.gr_model_theorems.specs.Forgets.{DifferInCut};
ghost use Rattle.gr_model_theorems.specs.Standing.{Fits as Stands};
ghost use Rattle.gr_model_theorems.specs.Statements.{world_after, joined_net};
ghost use Rattle.gr_broker.specs.Lanes.{log_lane};
ghost use Rattle.gr_world.specs.Seen.{WorldView, net_in, world_of};
ghost use Rattle.gr_world.specs.Fits.{Fits};
ghost use Rattle.gr_world.specs.Lasting.{HoldsSent};

use gr_publog::law::stands_read;

/// Of a world that a run led to all stands that the theorems say of the machine's: what is known and sent is true, each
/// log is the record, each subscriber got what it is owed up to its broker's horizon, and the rest of `Stands`. Whom an
/// event concerns goes by the joins so far. The machine of the theorems keeps all events, and its world is this one but
/// for those that were cut.
pub fn every_run_stands()
    ensures stands { (w : WorldView) (lanes : ℕ → Lane) (steps : List Line) (told : List (List Report))
        → Fits w lanes steps told
        → Stands (joined_net (net_in w) steps) (history_of (net_in w) steps) (world_after (net_in w) steps) }
    ensures same { (w : WorldView) (lanes : ℕ → Lane) (steps : List Line) (told : List (List Report))
        → Fits w lanes steps told → DifferInCut (world_after (net_in w) steps) (world_of w) }
{}

/// Whatever pair of images a crash leaves of the lanes of a publisher after a run, it holds a log in which all is that
/// was ever sent of it: no tick past what is settled there was spoken of, each event that was sent is there at its
/// tick, or at most the cut, and each join is there.
pub fn what_was_sent_lasts()
    ensures { (w : WorldView) (lanes : ℕ → Lane) (steps : List Line) (told : List (List Report)) (p : ℕ)
        (a b : List ℕ) → Fits w lanes steps told → p < length w.topo.publishers
        → MayLeavePair (lanes_at lanes (log_lane p)) a b → HoldsSent w p a b }
{
    stands_read();
}
