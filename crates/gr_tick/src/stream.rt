//! What is known or asked of each tick: a function of ticks that is edited in place, with room that is taken
//! beforehand.
ghost use Rattle.std.specs.Prelude.{if◌then◌else◌, MatchOption, ◌≡◌, ◌≢◌, ℕ, ◌+◌, ◌^◌, ◌<◌, ◌≤◌, List, [], ◌∷◌, ◌++◌};
ghost use Rattle.std.specs.Prelude.{length, take, drop, slice_get, Some, OnOk, OnErr, IfOk, IsOk};
ghost use Rattle.std.specs.List.{HoldsAt};
ghost use Rattle.gr_tick.specs.declared.TheConstants.{MAX_TICK};
ghost use Rattle.gr_tick.specs.Runs.{value_at, AreRuns, first_bottom_from, top_of};
ghost use Rattle.gr_tick.specs.Stored.{runs_in, within, IsRun, AreTickRuns, EndBefore, RunsGive, is_told, needed, part};
ghost use Rattle.gr_tick.specs.Stored.{StaysUntil};

use crate::edits::{
    begun_by, copy_runs, count_in, is_past, join_each, join_over, lower_each, lower_front,
    lower_over, next_bottom, room_for, seek, set_over, steady_in, steady_until, value_in,
};
use crate::lattice::{Lattice, is_bottom};
use crate::piece::Piece;
use crate::run::Run;
use crate::steady::Steady;
use gr_gap::Gap;
use std::alloc::{AllocError, Global};
use std::marker::Model;

/// How many runs more a copy has room for, besides as many as it has.
const COPY_SPARE: usize = 4;

/// A function from ticks to values that is the least value but on a list of runs, which is edited in place: what is
/// known, or asked, of each tick. It is seen as the list of its runs and its spare, how many runs more fit before
/// memory is asked for.
///
/// The runs rise, are disjoint and maximal, and none has the least value. So each function has one list. A look-up
/// costs the logarithm of the runs, and an edit the runs that it changes and the way from the edit before.
#[derive(Drop)]
pub struct Stream<V: Lattice> {
    runs: Gap<Run<V>>,
}

impl<V: Lattice> Model for Stream<V> {
    ghost use Rattle.gr_tick.specs.Stored.{AreTickRuns};
    ghost use Rattle.gr_tick.specs.Kept.{Kept};

    ghost Value = { Kept V };

    ghost view = { λ s. record { runs = s.runs.items; spare = s.runs.spare } };

    ghost invariant = { λ s. AreTickRuns V.least s.runs.items };
}

impl<V: Lattice> Stream<V> {
    /// The stream with no run: each tick has the least value. It takes no memory.
    pub fn new(alloc: Global) -> Stream<V>
        ensures runs { result.runs ≡ [] }
        ensures spare { result.spare ≡ 0 }
    {
        Stream {
            runs: Gap::new(alloc),
        }
    }

    /// A stream with equal runs, which has room for the edits that follow: for as many runs more as it has, and 4. It
    /// fails only where memory is refused.
    pub fn copy(&self) -> Result<Stream<V>, AllocError>
        ensures runs { IfOk result (λ stream. stream.runs ≡ self.now.runs) }
        ensures spare { IfOk result (λ stream. length self.now.runs + 4 ≤ stream.spare) }
    {
        let Some(more) = self.runs.len().checked_add(COPY_SPARE) else {
            return Err(AllocError);
        };
        let runs = copy_runs(&self.runs, more)?;
        Ok(Stream { runs })
    }

    /// How many runs it has. They are canonical, and none ends past `MAX_TICK`.
    pub fn len(&self) -> usize
        ensures len { result ≡ length self.now.runs }
        ensures canonical { AreRuns V.least self.now.runs }
        ensures in_range { EndBefore self.now.runs (MAX_TICK + 1) }
    {
        self.runs.len()
    }

    /// The run at place `i`, from 0.
    pub fn run(&self, i: usize) -> &Run<V>
        requires { i < length self.now.runs }
        ensures run { slice_get self.now.runs i ≡ Some result.now }
        ensures alone { IsRun V.least result.now }
    {
        self.runs.get(i)
    }

    /// The greatest tick of a run, or 0 where there is none. It takes no memory.
    pub fn top(&self) -> u64
        ensures top { result ≡ top_of self.now.runs }
        ensures inside { result ≤ MAX_TICK }
        ensures canonical { AreRuns V.least self.now.runs }
        ensures past { EndBefore self.now.runs (result + 1) }
    {
        last_of(&self.runs)
    }

    /// The value at a tick: that of its run, or the least value. It takes no memory.
    pub fn at(&self, tick: u64) -> V
        ensures { result ≡ value_at V.least self.now.runs tick }
    {
        value_in(&self.runs, tick)
    }

    /// The greatest tick, at most `MAX_TICK`, up to which the value stays that of `tick`. It takes no memory.
    pub fn steady_until(&self, tick: u64) -> u64
        requires { tick ≤ MAX_TICK }
        ensures forward { tick ≤ result }
        ensures inside { result ≤ MAX_TICK }
        ensures steady { (t : ℕ) → tick ≤ t → t ≤ result → value_at V.least self.now.runs t
            ≡ value_at V.least self.now.runs tick }
        ensures greatest { result < MAX_TICK →
            value_at V.least self.now.runs (result + 1) ≢ value_at V.least self.now.runs tick }
    {
        steady_until(&self.runs, tick)
    }

    /// The value at a tick and how far it stays, as `at` and `steady_until` say it, by one search. It takes no memory.
    pub fn steady_at(&self, tick: u64) -> Steady<V>
        requires { tick ≤ MAX_TICK }
        ensures { StaysUntil V.least self.now.runs tick result }
    {
        steady_in(&self.runs, tick)
    }

    /// The place of the first run that ends at a tick or later: the number of runs where none does. From there runs are
    /// walked by their places, without a look-up for each. It takes no memory.
    pub fn seek(&self, tick: u64) -> usize
        ensures within { result ≤ length self.now.runs }
        ensures front { EndBefore (take result self.now.runs) tick }
        ensures here { (r : Run V) (rs : List (Run V)) → drop result self.now.runs ≡ r ∷ rs → tick ≤ r.last }
    {
        seek(&self.runs, tick)
    }

    /// How many runs have a tick of the range: with one more, the spare that a join on it needs. It takes no memory.
    pub fn runs_in(&self, first: u64, last: u64) -> usize
        ensures { result ≡ runs_in first last self.now.runs }
    {
        count_in(&self.runs, first, last)
    }

    /// Makes room for at least `n` runs more. It fails only where memory is refused; then the stream is as it was.
    pub fn reserve(&mut self, n: usize) -> Result<(), AllocError>
        ensures runs { self.new.runs ≡ self.old.runs }
        ensures spare { OnOk result (n ≤ self.new.spare) }
        ensures never_less { self.old.spare ≤ self.new.spare }
        ensures succeeds { n ≤ self.old.spare → IsOk result }
        ensures err { OnErr result (self.new ≡ self.old) }
    {
        self.runs.reserve(n)?;
        Ok(())
    }

    /// Joins the value to that of each tick of the range. It takes no memory: the spare has to be enough for the runs
    /// in the range and one more, and is lowered by at most that. The runs of later ranges do not grow in number.
    pub fn join_range(&mut self, first: u64, last: u64, value: V)
        requires from_one { 1 ≤ first }
        requires ordered { first ≤ last }
        requires upto { last ≤ MAX_TICK }
        requires room { runs_in first last self.old.runs + 1 ≤ self.old.spare }
        ensures joined { RunsGive V.least self.new.runs (λ t. if within first last t
            then V.join_of (value_at V.least self.old.runs t) value else value_at V.least self.old.runs t) }
        ensures spare { self.old.spare ≤ self.new.spare + (runs_in first last self.old.runs + 1) }
        ensures later { (f l : ℕ) → last < f → f ≤ l → runs_in f l self.new.runs ≤ runs_in f l self.old.runs }
    {
        // What is known of all streams holds of this one.
        let _ = &self.runs;
        if is_bottom(&value) {
            return;
        }
        join_over(&mut self.runs, first, last, &value);
    }

    /// Joins a piece, tick by tick. It takes the memory for all its runs before the first join, and fails only where
    /// that is refused; then the stream is as it was.
    pub fn join_piece(&mut self, piece: &Piece<V>) -> Result<(), AllocError>
        ensures joined { OnOk result (RunsGive V.least self.new.runs (λ t.
            V.join_of (value_at V.least self.old.runs t) (value_at V.least piece.now t))) }
        ensures spare { self.old.spare ≤ self.new.spare + needed self.old.runs piece.now }
        ensures succeeds { needed self.old.runs piece.now < 2 ^ 64 → needed self.old.runs piece.now ≤ self.old.spare →
            IsOk result }
        ensures err { OnErr result (self.new ≡ self.old) }
    {
        let others = piece.runs();
        let Some(room) = room_for(&self.runs, others) else {
            return Err(AllocError);
        };
        self.runs.reserve(room)?;
        join_each(&mut self.runs, others);
        Ok(())
    }

    /// The spare that is enough to join a piece, or `None` where it is no 64-bit number. It takes no memory.
    pub fn room_for(&self, piece: &Piece<V>) -> Option<usize>
        ensures { MatchOption result (2 ^ 64 ≤ needed self.now.runs piece.now) (λ n. n
            ≡ needed self.now.runs piece.now) }
    {
        room_for(&self.runs, piece.runs())
    }

    /// Joins a piece, tick by tick, where the room for it is there, as `room_for` says. It takes no memory.
    pub fn join_ready(&mut self, piece: &Piece<V>)
        requires { needed self.old.runs piece.now ≤ self.old.spare }
        ensures joined { RunsGive V.least self.new.runs
            (λ t. V.join_of (value_at V.least self.old.runs t) (value_at V.least piece.now t)) }
        ensures spare { self.old.spare ≤ self.new.spare + needed self.old.runs piece.now }
    {
        join_each(&mut self.runs, piece.runs());
    }

    /// Takes a piece out: puts the least value at each tick of its runs, whatever was there. It takes no memory: a
    /// spare of as many runs as the piece has must be there.
    pub fn lower_piece(&mut self, piece: &Piece<V>)
        requires { length piece.now ≤ self.old.spare }
        ensures lowered { RunsGive V.least self.new.runs
            (λ t. if is_told piece.now t then V.least else value_at V.least self.old.runs t) }
        ensures spare { self.old.spare ≤ self.new.spare + length piece.now }
    {
        lower_each(&mut self.runs, piece.runs());
    }

    /// Puts the value at each tick of the range, whatever was there. It takes no memory: a spare of 2 has to be there.
    pub fn set_range(&mut self, first: u64, last: u64, value: V)
        requires from_one { 1 ≤ first }
        requires ordered { first ≤ last }
        requires upto { last ≤ MAX_TICK }
        requires room { 2 ≤ self.old.spare }
        ensures put { RunsGive V.least self.new.runs (λ t. if within first last t then value
            else value_at V.least self.old.runs t) }
        ensures spare { self.old.spare ≤ self.new.spare + 2 }
    {
        set_over(&mut self.runs, first, last, &value);
    }

    /// Puts the least value at each tick of the range. It fails only where memory is refused; then the stream is as it
    /// was.
    pub fn lower_range(&mut self, first: u64, last: u64) -> Result<(), AllocError>
        requires from_one { 1 ≤ first }
        requires ordered { first ≤ last }
        requires upto { last ≤ MAX_TICK }
        ensures lowered { OnOk result (RunsGive V.least self.new.runs (λ t. if within first last t then V.least
            else value_at V.least self.old.runs t)) }
        ensures spare { self.old.spare ≤ self.new.spare + 1 }
        ensures succeeds { 1 ≤ self.old.spare → IsOk result }
        ensures err { OnErr result (self.new ≡ self.old) }
    {
        self.runs.reserve(1)?;
        lower_over(&mut self.runs, first, last);
        Ok(())
    }

    /// Puts the least value at each tick of the range. It takes no memory: a spare of 1 has to be there.
    pub fn lower_ready(&mut self, first: u64, last: u64)
        requires from_one { 1 ≤ first }
        requires ordered { first ≤ last }
        requires upto { last ≤ MAX_TICK }
        requires room { 1 ≤ self.old.spare }
        ensures lowered { RunsGive V.least self.new.runs
            (λ t. if within first last t then V.least else value_at V.least self.old.runs t) }
        ensures spare { self.old.spare ≤ self.new.spare + 1 }
    {
        lower_over(&mut self.runs, first, last);
    }

    /// Puts the least value at the first ticks of the run at place `i`, up to `last`, which is one of its ticks. It
    /// takes no memory.
    pub fn lower_front(&mut self, i: usize, last: u64)
        requires within { i < length self.old.runs }
        requires holds { HoldsAt (λ r. (r.first ≤ last) × (last ≤ r.last)) self.old.runs i }
        ensures { HoldsAt (λ r. self.new.runs ≡ take i self.old.runs
            ++ (part (last + 1) r.last r.value ++ drop (i + 1) self.old.runs)) self.old.runs i }
    {
        lower_front(&mut self.runs, i, last);
    }

    /// The least tick from `tick` on with the least value, or `MAX_TICK + 1`. It takes no memory.
    pub fn first_bottom_from(&self, tick: u64) -> u64
        requires from_one { 1 ≤ tick }
        requires upto { tick ≤ MAX_TICK + 1 }
        ensures first { result ≡ first_bottom_from self.now.runs tick }
        ensures forward { tick ≤ result }
        ensures inside { result ≤ MAX_TICK + 1 }
        ensures bottom { value_at V.least self.now.runs result ≡ V.least }
        ensures known { (t : ℕ) → tick ≤ t → t < result → value_at V.least self.now.runs t ≢ V.least }
    {
        next_bottom(&self.runs, tick)
    }

    /// The runs of the range, cut at its ends. It fails only where memory is refused.
    pub fn piece(&self, first: u64, last: u64) -> Result<Piece<V>, AllocError>
        requires from_one { 1 ≤ first }
        requires ordered { first ≤ last }
        requires upto { last ≤ MAX_TICK }
        ensures { IfOk result (λ piece. RunsGive V.least piece (λ t. if within first last t
            then value_at V.least self.now.runs t else V.least)) }
    {
        piece_of(&self.runs, first, last)
    }
}

/// The runs of a range, cut at its ends.
pub(crate) fn piece_of<V: Lattice>(
    runs: &Gap<Run<V>>,
    first: u64,
    last: u64,
) -> Result<Piece<V>, AllocError>
    requires runs { AreTickRuns V.least runs.now.items }
    requires from_one { 1 ≤ first }
    requires ordered { first ≤ last }
    requires upto { last ≤ MAX_TICK }
    ensures { IfOk result (λ piece. RunsGive V.least piece (λ t. if within first last t
        then value_at V.least runs.now.items t else V.least)) }
{
    let mut piece = Piece::new(runs.allocator());
    if is_past(runs, first) {
        return Ok(piece);
    }
    for i in seek(runs, first)..begun_by(runs, last) {
        let run = runs.get(i);
        piece.push_cut(run, first, last)?;
    }
    // The runs of any piece are canonical, so these are.
    let _ = piece.len();
    Ok(piece)
}

/// The greatest tick of a run, or 0.
fn last_of<V: Lattice>(runs: &Gap<Run<V>>) -> u64
    requires { AreTickRuns V.least runs.now.items }
    ensures top { result ≡ top_of runs.now.items }
    ensures inside { result ≤ MAX_TICK }
    ensures past { EndBefore runs.now.items (result + 1) }
{
    let count = runs.len();
    if count == 0 {
        return 0;
    }
    let run = runs.get(count - 1);
    run.last
}
