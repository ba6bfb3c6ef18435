//! Values put wherever a piece asks.
ghost use Rattle.std.specs.Prelude.{if◌then◌else◌, ◌≡◌, ℕ, ◌+◌, ◌*◌, ◌≤◌, ◌&&◌, length, OnOk, OnErr};
ghost use Rattle.gr_tick.specs.Runs.{value_at, is_in};
ghost use Rattle.gr_tick.specs.Stored.{IsRun, RunsGive};
ghost use Rattle.gr_curio.specs.Values.{wanted_at, is_C};
ghost use Rattle.gr_curio.specs.declared.values.Q3.TheVariants.{N};

use crate::values::Q3;
use gr_tick::{Lattice, Piece, Run, Stream};
use std::alloc::AllocError;

/// Puts a value at each tick that a piece asks. `AllocError` leaves the stream as it was.
pub(crate) fn mark_asked<V: Lattice>(
    stream: &mut Stream<V>,
    piece: &Piece<Q3>,
    value: &V,
) -> Result<(), AllocError>
    ensures marked { OnOk result (RunsGive V.least stream.new.runs (λ t. if is_C (wanted_at piece.now t) then value.now
        else value_at V.least stream.old.runs t)) }
    ensures err { OnErr result (stream.new ≡ stream.old) }
{
    let Some(room) = piece.len().checked_mul(2) else {
        return Err(AllocError);
    };
    stream.reserve(room)?;
    mark_ready(stream, piece, value);
    Ok(())
}

/// Puts a value at each tick that a piece asks, where there is room for two runs for each run of the piece. It takes no
/// memory.
pub(crate) fn mark_ready<V: Lattice>(stream: &mut Stream<V>, piece: &Piece<Q3>, value: &V)
    requires { length piece.now * 2 ≤ stream.old.spare }
    ensures marked { RunsGive V.least stream.new.runs (λ t. if is_C (wanted_at piece.now t) then value.now
        else value_at V.least stream.old.runs t) }
    ensures spare { stream.old.spare ≤ stream.new.spare + length piece.now * 2 }
{
    for i in 0..piece.len() {
        mark_run(stream, piece.run(i), value);
    }
    // Proof only: the runs are canonical.
    let _ = stream.len();
}

/// Puts a value at each tick of a run that asks.
fn mark_run<V: Lattice>(stream: &mut Stream<V>, run: &Run<Q3>, value: &V)
    requires alone { IsRun N run.now }
    requires room { 2 ≤ stream.old.spare }
    ensures values { (t : ℕ) → value_at V.least stream.new.runs t
        ≡ (if is_in t run.now && is_C run.now.value then value.now else value_at V.least stream.old.runs t) }
    ensures spare { stream.old.spare ≤ stream.new.spare + 2 }
{
    if matches!(run.value, Q3::C) {
        stream.set_range(run.first, run.last, value.share());
    }
}
