//! What follows of every run. The function here does nothing: its contract is the law.

ghost use Rattle.std.specs.Prelude.{◌≡◌, ℕ, List, Some};
ghost use Rattle.gr_topo.specs.Topology.{TopologyView};
ghost use Rattle.gr_client.specs.Came.{Arrival};
ghost use Rattle.gr_client.specs.Client.{ClientView};
ghost use Rattle.gr_client.specs.Run.{told_in};
ghost use Rattle.gr_client.specs.Laws.{NoteCame, PrintsWhatCame};

/// A client prints that a number comes next only where a note of its publisher came that says so: by each arrival, and
/// by all that came in a run.
pub fn next_is_told_where_it_came()
    ensures told { (c : ClientView) (a : Arrival) (n : ℕ) → told_in c a ≡ Some n → NoteCame c.publisher n a }
    ensures printed { (t : TopologyView) (p : ℕ) (c : ClientView) (came : List Arrival)
        → PrintsWhatCame t p c came }
{}
