//! The runs of a piece: they stand in a row that is made from its first run to its last.
ghost use Rattle.std.specs.Prelude.{if◌then◌else◌, ◌≡◌, ◌+◌, ◌<◌, ◌≤◌, ℕ, cond, List, ◌∷◌, length, take, drop};
ghost use Rattle.std.specs.Prelude.{IfOk, OnOk, OnErr};
ghost use Rattle.gr_tick.specs.declared.TheConstants.{MAX_TICK};
ghost use Rattle.gr_tick.specs.Runs.{value_at, is_in};
ghost use Rattle.gr_tick.specs.Stored.{IsRun, AreTickRuns, EndBefore, StaysUntil};

use crate::MAX_TICK;
use crate::lattice::Lattice;
use crate::row::Row;
use crate::run::Run;
use crate::steady::{Steady, steady_by};
use std::alloc::{AllocError, Global};

/// Equal runs, or `AllocError`.
pub(crate) fn copy_row<V: Lattice>(
    alloc: Global,
    runs: &Row<Run<V>>,
) -> Result<Row<Run<V>>, AllocError>
    ensures { IfOk result (λ copy. copy.items ≡ runs.now.items) }
{
    let mut copy = Row::new();
    for i in 0..runs.len() {
        let run = runs.get(i);
        copy.push(
            alloc,
            Run {
                first: run.first,
                last: run.last,
                value: run.value.share(),
            },
        )?;
    }
    Ok(copy)
}

/// Puts a run behind all, as a part of the last one where the two form one run. It fails only where memory is refused;
/// then the runs are as they were.
pub(crate) fn put_last<V: Lattice>(
    runs: &mut Row<Run<V>>,
    alloc: Global,
    run: Run<V>,
) -> Result<(), AllocError>
    requires runs { AreTickRuns V.least runs.old.items }
    requires past { EndBefore runs.old.items run.first }
    requires alone { IsRun V.least run }
    ensures runs { OnOk result (AreTickRuns V.least runs.new.items) }
    ensures values { OnOk result ((t : ℕ) → value_at V.least runs.new.items t
        ≡ cond (is_in t run) run.value (value_at V.least runs.old.items t)) }
    ensures err { OnErr result (runs.new ≡ runs.old) }
{
    let end = runs.len();
    if end == 0 {
        return runs.push(alloc, run);
    }
    let before = runs.get(end - 1);
    if before.last + 1 != run.first {
        return runs.push(alloc, run);
    }
    if !before.value.same(&run.value) {
        return runs.push(alloc, run);
    }
    let first = before.first;
    runs.set(
        end - 1,
        Run {
            first,
            last: run.last,
            value: run.value,
        },
    );
    Ok(())
}

/// Where the runs that end at a tick or later begin, found by halves.
pub(crate) fn seek_row<V: Lattice>(runs: &Row<Run<V>>, tick: u64) -> usize
    requires { AreTickRuns V.least runs.now.items }
    ensures within { result ≤ length runs.now.items }
    ensures front { EndBefore (take result runs.now.items) tick }
    ensures here { (r : Run V) (rs : List (Run V)) → drop result runs.now.items ≡ r ∷ rs → tick ≤ r.last }
{
    let mut low = 0;
    let mut high = runs.len();
    while low < high {
        let middle = low + (high - low) / 2;
        let run = runs.get(middle);
        if run.last < tick {
            low = middle + 1;
        } else {
            high = middle;
        }
    }
    low
}

/// The value at a tick, and the greatest tick up to which it stays, by one search.
pub(crate) fn steady_row<V: Lattice>(runs: &Row<Run<V>>, tick: u64) -> Steady<V>
    requires runs { AreTickRuns V.least runs.now.items }
    requires upto { tick ≤ MAX_TICK }
    ensures { StaysUntil V.least runs.now.items tick result }
{
    let i = seek_row(runs, tick);
    if i == runs.len() {
        return Steady {
            value: V::bottom(),
            last: MAX_TICK,
        };
    }
    steady_by(runs.get(i), tick)
}
