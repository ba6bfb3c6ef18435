//! What one frame tells, or what one call answers: a function of ticks that is made from its first run to its last.
ghost use Rattle.std.specs.Prelude.{if◌then◌else◌, ◌≡◌, ◌≢◌, ◌↔◌, IsTrue, ℕ, ◌+◌, ◌<◌, ◌≤◌, List, [], ◌∷◌, ◌++◌};
ghost use Rattle.std.specs.Prelude.{length, take, drop, slice_get, Some, OnOk, OnErr, IfOk, min, max};
ghost use Rattle.gr_tick.specs.declared.TheConstants.{MAX_TICK};
ghost use Rattle.gr_tick.specs.Runs.{value_at, is_in, AreRuns};
ghost use Rattle.gr_tick.specs.Stored.{within, IsRun, AreTickRuns, EndBefore, RunsGive, StaysUntil};

use crate::MAX_TICK;
use crate::lattice::Lattice;
use crate::row::Row;
use crate::rows::{copy_row, put_last, seek_row, steady_row};
use crate::run::Run;
use crate::steady::Steady;
use std::alloc::{AllocError, Global};
use std::marker::Model;

/// A function from ticks to values that is the least value but on a list of runs: what one frame tells, or what one
/// call answers. It is made from its first run to its last, and seen as the list of its runs.
///
/// The runs rise, are disjoint and maximal, and none has the least value. So each function has one list.
#[derive(Drop)]
pub struct Piece<V: Lattice> {
    alloc: Global,
    runs: Row<Run<V>>,
}

impl<V: Lattice> Model for Piece<V> {
    ghost use Rattle.std.specs.Prelude.{List};
    ghost use Rattle.gr_tick.specs.Stored.{AreTickRuns};
    ghost use Rattle.gr_tick.specs.declared.run.Run.{Run};

    ghost Value = { List (Run V) };

    ghost view = { λ p. p.runs.items };

    ghost invariant = { λ p. AreTickRuns V.least p.runs.items };
}

impl<V: Lattice> Piece<V> {
    /// The piece with no run: each tick has the least value. It takes no memory.
    pub fn new(alloc: Global) -> Piece<V>
        ensures { result ≡ [] }
    {
        Piece {
            alloc,
            runs: Row::new(),
        }
    }

    /// An equal piece. It fails only where memory is refused.
    pub fn copy(&self) -> Result<Piece<V>, AllocError>
        ensures { IfOk result (λ piece. piece ≡ self.now) }
    {
        let runs = copy_row(self.alloc, &self.runs)?;
        Ok(Piece {
            alloc: self.alloc,
            runs,
        })
    }

    /// Adds a run past the last one, and joins it to that where the two touch and have the same value. It fails only
    /// where memory is refused; then the piece is as it was.
    pub fn push(&mut self, run: Run<V>) -> Result<(), AllocError>
        requires alone { IsRun V.least run }
        requires past { EndBefore self.old run.first }
        ensures ok { OnOk result (RunsGive V.least self.new (λ t. if is_in t run then run.value
            else value_at V.least self.old t)) }
        ensures past { OnOk result ((t : ℕ) → run.last < t → EndBefore self.new t) }
        ensures err { OnErr result (self.new ≡ self.old) }
    {
        put_last(&mut self.runs, self.alloc, run)
    }

    /// Adds what a run past the last one has in the range from `first` to `last`, if it has a tick there. It fails only
    /// where memory is refused; then the piece is as it was.
    pub fn push_cut(&mut self, run: &Run<V>, first: u64, last: u64) -> Result<(), AllocError>
        requires from_one { 1 ≤ first }
        requires alone { IsRun V.least run.now }
        requires past { EndBefore self.old run.now.first }
        ensures ok { OnOk result (RunsGive V.least self.new (λ t.
            if within (max first run.now.first) (min last run.now.last) t then run.now.value
            else value_at V.least self.old t)) }
        ensures past { OnOk result ((t : ℕ) → run.now.last < t → EndBefore self.new t) }
        ensures err { OnErr result (self.new ≡ self.old) }
    {
        // What is known of all pieces holds of this one.
        let _ = &self.runs;
        let from = first.max(run.first);
        let upto = last.min(run.last);
        if from > upto {
            return Ok(());
        }
        self.push(Run {
            first: from,
            last: upto,
            value: run.value.share(),
        })
    }

    /// The runs of the range, cut at its ends. It fails only where memory is refused.
    pub fn cut(&self, first: u64, last: u64) -> Result<Piece<V>, AllocError>
        requires from_one { 1 ≤ first }
        requires ordered { first ≤ last }
        requires upto { last ≤ MAX_TICK }
        ensures { IfOk result (λ piece. RunsGive V.least piece
            (λ t. if within first last t then value_at V.least self.now t else V.least)) }
    {
        cut_row(self.alloc, &self.runs, first, last)
    }

    /// Its runs.
    pub(crate) fn runs(&self) -> &Row<Run<V>>
        ensures items { result.now.items ≡ self.now }
        ensures runs { AreTickRuns V.least result.now.items }
    {
        &self.runs
    }

    /// How many runs it has. They are canonical, and none ends past `MAX_TICK`.
    pub fn len(&self) -> usize
        ensures len { result ≡ length self.now }
        ensures canonical { AreRuns V.least self.now }
        ensures in_range { EndBefore self.now (MAX_TICK + 1) }
    {
        self.runs.len()
    }

    /// Whether each tick has the least value.
    pub fn is_empty(&self) -> bool
        ensures { IsTrue result ↔ (self.now ≡ []) }
    {
        self.runs.len() == 0
    }

    /// The run at place `i`, from 0.
    pub fn run(&self, i: usize) -> &Run<V>
        requires { i < length self.now }
        ensures run { slice_get self.now i ≡ Some result.now }
        ensures alone { IsRun V.least result.now }
    {
        self.runs.get(i)
    }

    /// The place of the first run that ends at a tick or later: the number of runs where none does. From there runs are
    /// walked by their places, without a look-up for each. It takes no memory.
    pub fn seek(&self, tick: u64) -> usize
        ensures within { result ≤ length self.now }
        ensures front { EndBefore (take result self.now) tick }
        ensures here { (r : Run V) (rs : List (Run V)) → drop result self.now ≡ r ∷ rs → tick ≤ r.last }
    {
        seek_row(&self.runs, tick)
    }

    /// The value at a tick: that of its run, or the least value. It takes no memory.
    pub fn at(&self, tick: u64) -> V
        ensures { result ≡ value_at V.least self.now tick }
    {
        // No run ends past the last tick.
        let _ = self.len();
        if MAX_TICK < tick {
            return V::bottom();
        }
        steady_row(&self.runs, tick).value
    }

    /// The greatest tick, at most `MAX_TICK`, up to which the value stays that of `tick`. It takes no memory.
    pub fn steady_until(&self, tick: u64) -> u64
        requires { tick ≤ MAX_TICK }
        ensures forward { tick ≤ result }
        ensures inside { result ≤ MAX_TICK }
        ensures steady { (t : ℕ) → tick ≤ t → t ≤ result → value_at V.least self.now t
            ≡ value_at V.least self.now tick }
        ensures greatest { result < MAX_TICK → value_at V.least self.now (result + 1) ≢ value_at V.least self.now tick }
    {
        steady_row(&self.runs, tick).last
    }

    /// The value at a tick and how far it stays, as `at` and `steady_until` say it, by one search. It takes no memory.
    pub fn steady_at(&self, tick: u64) -> Steady<V>
        requires { tick ≤ MAX_TICK }
        ensures { StaysUntil V.least self.now tick result }
    {
        steady_row(&self.runs, tick)
    }
}

/// The runs of a range, cut at its ends. It fails only where memory is refused.
fn cut_row<V: Lattice>(
    alloc: Global,
    runs: &Row<Run<V>>,
    first: u64,
    last: u64,
) -> Result<Piece<V>, AllocError>
    requires runs { AreTickRuns V.least runs.now.items }
    requires from_one { 1 ≤ first }
    requires ordered { first ≤ last }
    requires upto { last ≤ MAX_TICK }
    ensures { IfOk result (λ piece. RunsGive V.least piece
        (λ t. if within first last t then value_at V.least runs.now.items t else V.least)) }
{
    let mut piece = Piece::new(alloc);
    for i in seek_row(runs, first)..runs.len() {
        let run = runs.get(i);
        // The runs of any piece are canonical, so these are.
        let _ = piece.len();
        if last < run.first {
            return Ok(piece);
        }
        piece.push_cut(run, first, last)?;
    }
    let _ = piece.len();
    Ok(piece)
}
