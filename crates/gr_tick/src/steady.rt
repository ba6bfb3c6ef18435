//! A value at a tick, and how far it stays: what a walk over the ticks looks up at each step.
ghost use Rattle.std.specs.Prelude.{◌≡◌, ◌-◌, ◌<◌, ◌≤◌};

use crate::lattice::Lattice;
use crate::run::Run;

/// A value at a tick, and the greatest tick, at most `MAX_TICK`, up to which it stays. A walk over the ticks goes on
/// with the tick after it.
#[derive(Drop)]
pub struct Steady<V> {
    /// The value.
    pub value: V,
    /// The last tick up to which it stays, at least the one that was looked up.
    pub last: u64,
}

/// What a run says of a tick that it does not end before. Up to where it begins no value is known.
pub(crate) fn steady_by<V: Lattice>(run: &Run<V>, tick: u64) -> Steady<V>
    ensures ahead { tick < run.now.first → (result.value ≡ V.least) × (result.last ≡ run.now.first - 1) }
    ensures begun { run.now.first ≤ tick → (result.value ≡ run.now.value) × (result.last ≡ run.now.last) }
{
    if tick < run.first {
        return Steady {
            value: V::bottom(),
            last: run.first - 1,
        };
    }
    Steady {
        value: run.value.share(),
        last: run.last,
    }
}
