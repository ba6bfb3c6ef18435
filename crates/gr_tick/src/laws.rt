//! Laws of runs: each is the contract of a function that does nothing.
ghost use Rattle.std.specs.Prelude.{◌≡◌, ◌+◌, ◌*◌, ◌^◌, ◌≤◌, List, length};
ghost use Rattle.gr_tick.specs.declared.run.Run.{Run};
ghost use Rattle.gr_tick.specs.Stored.{AreTickRuns, needed};

use crate::MAX_TICK;
use crate::lattice::Lattice;

/// The last tick as a number: 2^62.
pub fn last_tick()
    ensures number { MAX_TICK ≡ 4611686018427387904 }
    ensures power { MAX_TICK ≡ 2 ^ 62 }
{}

/// A join of one list of runs into another needs room for at most as many runs as the other has, and twice what the
/// one has.
pub fn room_for_a_join<V: Lattice>()
    ensures { (kept came : List (Run V)) → AreTickRuns V.least kept → AreTickRuns V.least came
        → needed kept came ≤ length kept + 2 * length came }
{}
