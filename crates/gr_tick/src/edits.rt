//! Edits of a list of runs. None takes memory: where one may leave more runs, it asks for the spare room.
ghost use Rattle.std.specs.Prelude.{if◌then◌else◌, MatchOption, IfOk, ◌≡◌, ◌≢◌, ℕ, ◌+◌, ◌-◌, ◌<◌, ◌≤◌, ◌&&◌, nat_le};
ghost use Rattle.std.specs.Prelude.{cond, List, [], ◌∷◌, ◌++◌, length, take, drop, insert, ◌^◌, ◌⊎◌, true, false};
ghost use Rattle.std.specs.Prelude.{IfSome};
ghost use Rattle.std.specs.List.{HoldsAt};
ghost use Rattle.gr_tick.specs.declared.TheConstants.{MAX_TICK};
ghost use Rattle.gr_tick.specs.Runs.{value_at, is_in};
ghost use Rattle.gr_tick.specs.Stored.{IsRun, AreTickRuns, EndBefore, BeginBy, BeginAfter, part, room, growth, within};
ghost use Rattle.gr_tick.specs.Stored.{between, runs_in, is_told, needed, StaysUntil};

use crate::MAX_TICK;
use crate::lattice::{Lattice, is_bottom};
use crate::row::Row;
use crate::run::Run;
use crate::steady::{Steady, steady_by};
use gr_gap::Gap;
use std::alloc::AllocError;

/// Equal runs with room for so many more, or `AllocError`.
pub fn copy_runs<V: Lattice>(runs: &Gap<Run<V>>, more: usize) -> Result<Gap<Run<V>>, AllocError>
    ensures items { IfOk result (λ copy. copy.items ≡ runs.now.items) }
    ensures spare { IfOk result (λ copy. more ≤ copy.spare) }
{
    let mut copy = Gap::new(runs.allocator());
    let count = runs.len();
    let Some(room) = count.checked_add(more) else {
        return Err(AllocError);
    };
    copy.reserve(room)?;
    for i in 0..count {
        let run = runs.get(i);
        copy.insert(
            i,
            Run {
                first: run.first,
                last: run.last,
                value: run.value.share(),
            },
        );
    }
    Ok(copy)
}

/// Inserts the run of a range at a place, if the range is not empty, and answers the place after it.
fn insert_part<V: Lattice>(
    runs: &mut Gap<Run<V>>,
    i: usize,
    first: u64,
    last: u64,
    value: &V,
) -> usize
    requires within { i ≤ length runs.old.items }
    requires room { first ≤ last → 0 < runs.old.spare }
    ensures items { runs.new.items ≡ take i runs.old.items ++ (part first last value.now ++ drop i runs.old.items) }
    ensures place { result ≡ i + length (part first last value.now) }
    ensures within { result ≤ length runs.new.items }
    ensures spare { runs.new.spare + length (part first last value.now) ≡ runs.old.spare }
{
    if first > last {
        return i;
    }
    runs.insert(
        i,
        Run {
            first,
            last,
            value: value.share(),
        },
    );
    i + 1
}

/// Where the runs that end at a tick or later begin, found by halves between two places: those before the one end
/// before the tick, and the one at the other does not.
fn bisect<V: Lattice>(runs: &Gap<Run<V>>, tick: u64, from: usize, upto: usize) -> usize
    requires runs { AreTickRuns V.least runs.now.items }
    requires ordered { from ≤ upto }
    requires within { upto ≤ length runs.now.items }
    requires front { EndBefore (take from runs.now.items) tick }
    requires here { (r : Run V) (rs : List (Run V)) → drop upto runs.now.items ≡ r ∷ rs → tick ≤ r.last }
    ensures within { result ≤ length runs.now.items }
    ensures front { EndBefore (take result runs.now.items) tick }
    ensures here { (r : Run V) (rs : List (Run V)) → drop result runs.now.items ≡ r ∷ rs → tick ≤ r.last }
{
    // Each turn halves what is left between the two.
    let mut low = from;
    let mut high = upto;
    while low < high {
        let middle = low + (high - low) / 2;
        let run = runs.get(middle);
        if run.last < tick {
            low = middle + 1;
        } else {
            high = middle;
        }
    }
    low
}

/// How far from the last look or edit a tick is sought by itself, and not among all.
const NEAR: usize = 8;

/// Where the runs that end at a tick or later begin: the number of runs where none does. The run of the last look or
/// edit and its neighbours are looked at first.
pub fn seek<V: Lattice>(runs: &Gap<Run<V>>, tick: u64) -> usize
    requires { AreTickRuns V.least runs.now.items }
    ensures within { result ≤ length runs.now.items }
    ensures front { EndBefore (take result runs.now.items) tick }
    ensures here { (r : Run V) (rs : List (Run V)) → drop result runs.now.items ≡ r ∷ rs → tick ≤ r.last }
{
    let count = runs.len();
    if count == 0 {
        return 0;
    }
    let place = runs.near().min(count - 1);
    let near = runs.get(place);
    if near.last < tick {
        if place + 1 == count {
            return count;
        }
        return seek_behind(runs, tick, place + 1);
    }
    if place == 0 {
        return 0;
    }
    let before = runs.get(place - 1);
    if before.last < tick {
        return place;
    }
    seek_before(runs, tick, place - 1)
}

/// The same from a place on, before which all runs end before the tick. Inlined never, so that what is near is found
/// without it.
#[inline(never)]
fn seek_behind<V: Lattice>(runs: &Gap<Run<V>>, tick: u64, from: usize) -> usize
    requires runs { AreTickRuns V.least runs.now.items }
    requires within { from ≤ length runs.now.items }
    requires front { EndBefore (take from runs.now.items) tick }
    ensures within { result ≤ length runs.now.items }
    ensures front { EndBefore (take result runs.now.items) tick }
    ensures here { (r : Run V) (rs : List (Run V)) → drop result runs.now.items ≡ r ∷ rs → tick ≤ r.last }
{
    let count = runs.len();
    if from == count {
        return count;
    }
    let next = runs.get(from);
    if tick <= next.last {
        runs.note(from);
        return from;
    }
    let newest = runs.get(count - 1);
    if newest.last < tick {
        return count;
    }
    let upto = from.saturating_add(NEAR).min(count - 1);
    let farther = runs.get(upto);
    if farther.last < tick {
        return seek_far(runs, tick);
    }
    let found = bisect(runs, tick, from + 1, upto);
    runs.note(found);
    found
}

/// The same where the run at a place does not end before the tick. The first two runs are looked at, and not noted: a
/// horizon stands there, and is asked for between looks at other ticks.
#[inline(never)]
fn seek_before<V: Lattice>(runs: &Gap<Run<V>>, tick: u64, place: usize) -> usize
    requires runs { AreTickRuns V.least runs.now.items }
    requires within { place < length runs.now.items }
    requires here { (r : Run V) (rs : List (Run V)) → drop place runs.now.items ≡ r ∷ rs → tick ≤ r.last }
    ensures within { result ≤ length runs.now.items }
    ensures front { EndBefore (take result runs.now.items) tick }
    ensures here { (r : Run V) (rs : List (Run V)) → drop result runs.now.items ≡ r ∷ rs → tick ≤ r.last }
{
    if place == 0 {
        return 0;
    }
    let oldest = runs.get(0);
    if tick <= oldest.last {
        return 0;
    }
    let second = runs.get(1);
    if tick <= second.last {
        return 1;
    }
    let from = place.saturating_sub(NEAR);
    let farther = runs.get(from);
    if tick <= farther.last {
        return seek_far(runs, tick);
    }
    let found = bisect(runs, tick, from + 1, place);
    runs.note(found);
    found
}

/// The same among all runs, since the last of a run rises from run to run. What is found is noted.
fn seek_far<V: Lattice>(runs: &Gap<Run<V>>, tick: u64) -> usize
    requires { AreTickRuns V.least runs.now.items }
    ensures within { result ≤ length runs.now.items }
    ensures front { EndBefore (take result runs.now.items) tick }
    ensures here { (r : Run V) (rs : List (Run V)) → drop result runs.now.items ≡ r ∷ rs → tick ≤ r.last }
{
    let found = runs.count_below(tick);
    runs.note(found);
    found
}

/// Whether all runs end before a tick.
#[inline(always)]
pub fn is_past<V: Lattice>(runs: &Gap<Run<V>>, tick: u64) -> bool
    requires { AreTickRuns V.least runs.now.items }
    ensures { result ≡ true → EndBefore runs.now.items tick }
{
    let count = runs.len();
    if count == 0 {
        return true;
    }
    let newest = runs.get(count - 1);
    newest.last < tick
}

/// How many runs begin by a tick.
pub fn begun_by<V: Lattice>(runs: &Gap<Run<V>>, tick: u64) -> usize
    requires { AreTickRuns V.least runs.now.items }
    ensures within { result ≤ length runs.now.items }
    ensures front { BeginBy (take result runs.now.items) tick }
    ensures ahead { BeginAfter (drop result runs.now.items) tick }
{
    let i = seek(runs, tick);
    begun_at(runs, i, tick)
}

/// The same, where the runs that end at the tick or later begin at a place.
#[inline(always)]
fn begun_at<V: Lattice>(runs: &Gap<Run<V>>, i: usize, tick: u64) -> usize
    requires runs { AreTickRuns V.least runs.now.items }
    requires within { i ≤ length runs.now.items }
    requires front { EndBefore (take i runs.now.items) tick }
    requires here { (r : Run V) (rs : List (Run V)) → drop i runs.now.items ≡ r ∷ rs → tick ≤ r.last }
    ensures within { result ≤ length runs.now.items }
    ensures front { BeginBy (take result runs.now.items) tick }
    ensures ahead { BeginAfter (drop result runs.now.items) tick }
{
    if i == runs.len() {
        return i;
    }
    let run = runs.get(i);
    if tick < run.first {
        return i;
    }
    i + 1
}

/// The same, where those that end before an earlier tick are counted. Most ranges end within the run behind them.
#[inline(always)]
fn begun_from<V: Lattice>(runs: &Gap<Run<V>>, begin: usize, first: u64, tick: u64) -> usize
    requires runs { AreTickRuns V.least runs.now.items }
    requires within { begin ≤ length runs.now.items }
    requires front { EndBefore (take begin runs.now.items) first }
    ensures within { result ≤ length runs.now.items }
    ensures front { BeginBy (take result runs.now.items) tick }
    ensures ahead { BeginAfter (drop result runs.now.items) tick }
{
    if begin == runs.len() || tick < first {
        return begun_by(runs, tick);
    }
    let run = runs.get(begin);
    if tick > run.last {
        return begun_by(runs, tick);
    }
    begun_at(runs, begin, tick)
}

/// Joins a run that begins past the runs before a place to the last of them, where they form one run: answers where the
/// runs end that it does not join, and the longer run.
fn with_before<V: Lattice>(runs: &Gap<Run<V>>, i: usize, run: Run<V>) -> (usize, Run<V>)
    requires within { i ≤ length runs.now.items }
    requires runs { AreTickRuns V.least (take i runs.now.items) }
    requires past { EndBefore (take i runs.now.items) run.first }
    requires alone { IsRun V.least run }
    ensures within { result.0 ≤ i }
    ensures runs { AreTickRuns V.least (take result.0 runs.now.items ++ result.1 ∷ []) }
    ensures values { (d : V) (t : ℕ) → value_at d (take result.0 runs.now.items ++ result.1 ∷ []) t
        ≡ value_at d (take i runs.now.items ++ run ∷ []) t }
    ensures last { result.1.last ≡ run.last }
    ensures value { result.1.value ≡ run.value }
    ensures first { result.1.first ≤ run.first }
{
    if i == 0 {
        return (i, run);
    }
    let before = runs.get(i - 1);
    if before.last + 1 != run.first {
        return (i, run);
    }
    if !before.value.same(&run.value) {
        return (i, run);
    }
    (
        i - 1,
        Run {
            first: before.first,
            last: run.last,
            value: run.value,
        },
    )
}

/// Joins a run that ends ahead of the runs from a place on to the first of them, where they form one run: answers where
/// the runs begin that it does not join, and the longer run.
fn with_after<V: Lattice>(runs: &Gap<Run<V>>, i: usize, run: Run<V>) -> (usize, Run<V>)
    requires within { i ≤ length runs.now.items }
    requires runs { AreTickRuns V.least (drop i runs.now.items) }
    requires ahead { BeginAfter (drop i runs.now.items) run.last }
    requires alone { IsRun V.least run }
    ensures forward { i ≤ result.0 }
    ensures within { result.0 ≤ length runs.now.items }
    ensures runs { AreTickRuns V.least (result.1 ∷ drop result.0 runs.now.items) }
    ensures values { (d : V) (t : ℕ) → value_at d (result.1 ∷ drop result.0 runs.now.items) t
        ≡ value_at d (run ∷ drop i runs.now.items) t }
    ensures first { result.1.first ≡ run.first }
    ensures value { result.1.value ≡ run.value }
    ensures room { (last : ℕ) → room (run.last + 1) last (result.1 ∷ drop result.0 runs.now.items) + i
        ≤ room (run.last + 1) last (drop i runs.now.items) + result.0 }
    ensures later { (f l : ℕ) → run.last < f → f ≤ l →
        runs_in f l (result.1 ∷ drop result.0 runs.now.items) ≤ runs_in f l (drop i runs.now.items) }
{
    if i == runs.len() {
        return (i, run);
    }
    let after = runs.get(i);
    if run.last + 1 != after.first {
        return (i, run);
    }
    if !after.value.same(&run.value) {
        return (i, run);
    }
    (
        i + 1,
        Run {
            first: run.first,
            last: after.last,
            value: run.value,
        },
    )
}

/// Puts a run in the place of those from one place up to another. Where there are some, the first is replaced, and runs
/// move for the others alone.
fn put_between<V: Lattice>(runs: &mut Gap<Run<V>>, from: usize, upto: usize, run: Run<V>)
    requires ordered { from ≤ upto }
    requires within { upto ≤ length runs.old.items }
    requires room { from < upto + runs.old.spare }
    ensures items { runs.new.items ≡ take from runs.old.items ++ run ∷ drop upto runs.old.items }
    ensures spare { runs.new.spare + (from + 1) ≡ runs.old.spare + upto }
{
    if from == upto {
        runs.insert(from, run);
        return;
    }
    let mut next = from + 1;
    while next < upto {
        runs.remove(from);
        next += 1;
    }
    runs.replace(from, run);
}

/// Puts a run in the place of those from one place up to another, as one with the run before and the one behind where
/// they form one run with it.
fn put_over<V: Lattice>(runs: &mut Gap<Run<V>>, from: usize, upto: usize, run: Run<V>)
    requires ordered { from ≤ upto }
    requires within { upto ≤ length runs.old.items }
    requires room { from < upto + runs.old.spare }
    requires before { AreTickRuns V.least (take from runs.old.items) }
    requires after { AreTickRuns V.least (drop upto runs.old.items) }
    requires past { EndBefore (take from runs.old.items) run.first }
    requires ahead { BeginAfter (drop upto runs.old.items) run.last }
    requires alone { IsRun V.least run }
    ensures runs { AreTickRuns V.least runs.new.items }
    ensures values { (t : ℕ) → value_at V.least runs.new.items t ≡ cond (is_in t run) run.value
        (value_at V.least (take from runs.old.items ++ drop upto runs.old.items) t) }
    ensures room { (last : ℕ) →
        room (run.last + 1) last runs.new.items + runs.old.spare + upto ≤ room (run.last + 1) last
        (drop upto runs.old.items) + runs.new.spare + (from + 1) }
    ensures later { (f l : ℕ) → run.last < f → f ≤ l →
        runs_in f l runs.new.items ≤ runs_in f l (drop upto runs.old.items) }
    ensures spare { runs.old.spare + upto ≤ runs.new.spare + (from + 1) }
{
    let (place, longer) = with_before(runs, from, run);
    let (next, longest) = with_after(runs, upto, longer);
    put_between(runs, place, next, longest);
}

/// Puts a run behind all, as a part of the last one where the two form one run.
fn put_end<V: Lattice>(runs: &mut Gap<Run<V>>, run: Run<V>)
    requires room { 0 < runs.old.spare }
    requires runs { AreTickRuns V.least runs.old.items }
    requires past { EndBefore runs.old.items run.first }
    requires alone { IsRun V.least run }
    ensures runs { AreTickRuns V.least runs.new.items }
    ensures values { (t : ℕ) → value_at V.least runs.new.items t
        ≡ cond (is_in t run) run.value (value_at V.least runs.old.items t) }
    ensures spare { runs.old.spare ≤ runs.new.spare + 1 }
    ensures past { (t : ℕ) → run.last < t → EndBefore runs.new.items t }
{
    let end = runs.len();
    if end == 0 {
        runs.insert(end, run);
        return;
    }
    let before = runs.get(end - 1);
    if before.last + 1 != run.first {
        runs.insert(end, run);
        return;
    }
    if !before.value.same(&run.value) {
        runs.insert(end, run);
        return;
    }
    let first = before.first;
    runs.replace(
        end - 1,
        Run {
            first,
            last: run.last,
            value: run.value,
        },
    );
}

/// Puts a run into the gap before a place.
pub fn put_run<V: Lattice>(runs: &mut Gap<Run<V>>, i: usize, run: Run<V>)
    requires within { i ≤ length runs.old.items }
    requires room { 0 < runs.old.spare }
    requires before { AreTickRuns V.least (take i runs.old.items) }
    requires after { AreTickRuns V.least (drop i runs.old.items) }
    requires past { EndBefore (take i runs.old.items) run.first }
    requires ahead { BeginAfter (drop i runs.old.items) run.last }
    requires alone { IsRun V.least run }
    ensures runs { AreTickRuns V.least runs.new.items }
    ensures values { (t : ℕ) → value_at V.least runs.new.items t
        ≡ cond (is_in t run) run.value (value_at V.least runs.old.items t) }
    ensures room { (last : ℕ) →
        room (run.last + 1) last runs.new.items + runs.old.spare ≤ room (run.last + 1) last
        (drop i runs.old.items) + runs.new.spare + 1 }
    ensures later { (f l : ℕ) → run.last < f → f ≤ l →
        runs_in f l runs.new.items ≤ runs_in f l (drop i runs.old.items) }
    ensures spare { runs.old.spare ≤ runs.new.spare + 1 }
{
    if i == runs.len() {
        put_end(runs, run);
        return;
    }
    put_over(runs, i, i, run);
}

/// Inserts at a place what a run has outside a range of it, and answers where the range lies then.
fn keep_rest<V: Lattice>(
    runs: &mut Gap<Run<V>>,
    i: usize,
    run: &Run<V>,
    first: u64,
    last: u64,
) -> usize
    requires within { i ≤ length runs.old.items }
    requires room { 1 < runs.old.spare }
    requires alone { IsRun V.least run.now }
    requires begins { run.now.first ≤ first }
    requires ordered { first ≤ last }
    requires ends { last ≤ run.now.last }
    ensures within { result ≤ length runs.new.items }
    ensures before { take result runs.new.items ≡ take i runs.old.items
        ++ part run.now.first (first - 1) run.now.value }
    ensures after { drop result runs.new.items ≡ part (last + 1) run.now.last run.now.value ++ drop i runs.old.items }
    ensures spare { runs.new.spare + length (part run.now.first (first - 1) run.now.value) + length
        (part (last + 1) run.now.last run.now.value) ≡ runs.old.spare }
{
    let place = insert_part(runs, i, run.first, first - 1, &run.value);
    insert_part(runs, place, last + 1, run.last, &run.value);
    place
}

/// Joins a value on a part of the gap before a place.
fn join_gap<V: Lattice>(runs: &mut Gap<Run<V>>, i: usize, first: u64, last: u64, value: &V)
    requires within { i ≤ length runs.old.items }
    requires room { 0 < runs.old.spare }
    requires runs { AreTickRuns V.least runs.old.items }
    requires past { EndBefore (take i runs.old.items) first }
    requires ahead { BeginAfter (drop i runs.old.items) last }
    requires from_one { 1 ≤ first }
    requires ordered { first ≤ last }
    requires upto { last ≤ MAX_TICK }
    requires known { value.now ≢ V.least }
    ensures runs { AreTickRuns V.least runs.new.items }
    ensures values { (t : ℕ) → value_at V.least runs.new.items t
        ≡ (if within first last t then V.join_of (value_at V.least runs.old.items t) value.now
        else value_at V.least runs.old.items t) }
    ensures room { (end : ℕ) →
        room (last + 1) end runs.new.items + runs.old.spare ≤ room (last + 1) end
        (drop i runs.old.items) + runs.new.spare + 1 }
    ensures later { (f l : ℕ) → last < f → f ≤ l → runs_in f l runs.new.items ≤ runs_in f l runs.old.items }
    ensures spare { runs.old.spare ≤ runs.new.spare + 1 }
{
    put_run(
        runs,
        i,
        Run {
            first,
            last,
            value: value.share(),
        },
    );
}

/// Joins a value on a part of the run at a place.
fn join_run<V: Lattice>(runs: &mut Gap<Run<V>>, i: usize, first: u64, last: u64, value: &V)
    requires within { i < length runs.old.items }
    requires room { HoldsAt (λ r. length (part r.first (first - 1) r.value) < runs.old.spare) runs.old.items i }
    requires runs { AreTickRuns V.least runs.old.items }
    requires holds { HoldsAt (λ r. (r.first ≤ first) × (last ≤ r.last)) runs.old.items i }
    requires ordered { first ≤ last }
    ensures runs { AreTickRuns V.least runs.new.items }
    ensures values { (t : ℕ) → value_at V.least runs.new.items t
        ≡ (if within first last t then V.join_of (value_at V.least runs.old.items t) value.now
        else value_at V.least runs.old.items t) }
    ensures growth { HoldsAt (λ r. (end : ℕ) → first ≤ end → (last ≡ end) ⊎ (last ≡ r.last) →
        growth (last + 1) end runs.new.items + runs.old.spare
        ≤ growth first end runs.old.items + runs.new.spare) runs.old.items i }
    ensures later { (f l : ℕ) → last < f → f ≤ l → runs_in f l runs.new.items ≤ runs_in f l runs.old.items }
{
    // The place behind the run is no more than their number: it fits.
    let _ = runs.len();
    let whole = runs.get(i);
    if whole.first == first && whole.last == last {
        let joined = whole.value.share().join(value.share());
        put_over(
            runs,
            i,
            i + 1,
            Run {
                first,
                last,
                value: joined,
            },
        );
        return;
    }
    let run = runs.remove(i);
    let place = keep_rest(runs, i, &run, first, last);
    let joined = run.value.join(value.share());
    put_run(
        runs,
        place,
        Run {
            first,
            last,
            value: joined,
        },
    );
}

/// Joins a value from one tick on, as far as one run or one gap goes, and answers the last tick that it came to.
fn join_step<V: Lattice>(runs: &mut Gap<Run<V>>, first: u64, last: u64, value: &V) -> u64
    requires room { growth first last runs.old.items ≤ runs.old.spare }
    requires runs { AreTickRuns V.least runs.old.items }
    requires from_one { 1 ≤ first }
    requires ordered { first ≤ last }
    requires upto { last ≤ MAX_TICK }
    requires known { value.now ≢ V.least }
    ensures forward { first ≤ result }
    ensures inside { result ≤ last }
    ensures runs { AreTickRuns V.least runs.new.items }
    ensures values { (t : ℕ) → value_at V.least runs.new.items t
        ≡ (if within first result t then V.join_of (value_at V.least runs.old.items t) value.now
        else value_at V.least runs.old.items t) }
    ensures growth { growth (result + 1) last runs.new.items + runs.old.spare
        ≤ growth first last runs.old.items + runs.new.spare }
    ensures later { (f l : ℕ) → result < f → f ≤ l → runs_in f l runs.new.items ≤ runs_in f l runs.old.items }
{
    let i = seek(runs, first);
    if i == runs.len() {
        join_gap(runs, i, first, last, value);
        return last;
    }
    let run = runs.get(i);
    let start = run.first;
    let stop = run.last;
    if last < start {
        join_gap(runs, i, first, last, value);
        return last;
    }
    if first < start {
        join_gap(runs, i, first, start - 1, value);
        return start - 1;
    }
    // What is there already is joined: nothing moves.
    if value.at_most(&run.value) {
        return last.min(stop);
    }
    if last < stop {
        join_run(runs, i, first, last, value);
        return last;
    }
    join_run(runs, i, first, stop, value);
    stop
}

/// Joins a value on a range.
pub fn join_over<V: Lattice>(runs: &mut Gap<Run<V>>, first: u64, last: u64, value: &V)
    requires room { growth first last runs.old.items ≤ runs.old.spare }
    requires runs { AreTickRuns V.least runs.old.items }
    requires from_one { 1 ≤ first }
    requires ordered { first ≤ last }
    requires upto { last ≤ MAX_TICK }
    requires known { value.now ≢ V.least }
    ensures runs { AreTickRuns V.least runs.new.items }
    ensures values { (t : ℕ) → value_at V.least runs.new.items t
        ≡ (if within first last t then V.join_of (value_at V.least runs.old.items t) value.now
        else value_at V.least runs.old.items t) }
    ensures spare { runs.old.spare ≤ growth first last runs.old.items + runs.new.spare }
    ensures later { (f l : ℕ) → last < f → f ≤ l → runs_in f l runs.new.items ≤ runs_in f l runs.old.items }
{
    // Each step comes to the end of a run or of a gap, and goes on after it.
    let mut next = first;
    while next <= last {
        next = join_step(runs, next, last, value) + 1;
    }
}

/// The value at a tick.
pub fn value_in<V: Lattice>(runs: &Gap<Run<V>>, tick: u64) -> V
    requires { AreTickRuns V.least runs.now.items }
    ensures { result ≡ value_at V.least runs.now.items tick }
{
    let i = seek(runs, tick);
    if i == runs.len() {
        return V::bottom();
    }
    let run = runs.get(i);
    if tick < run.first {
        return V::bottom();
    }
    run.value.share()
}

/// How many runs have a tick of a range.
pub fn count_in<V: Lattice>(runs: &Gap<Run<V>>, first: u64, last: u64) -> usize
    requires { AreTickRuns V.least runs.now.items }
    ensures { result ≡ runs_in first last runs.now.items }
{
    if is_past(runs, first) {
        return 0;
    }
    let begin = seek(runs, first);
    let end = begun_from(runs, begin, first, last);
    end.saturating_sub(begin)
}

/// The tick after a run that has the tick, and else the tick.
fn after_run<V: Lattice>(run: &Run<V>, tick: u64) -> u64
    requires { run.now.last ≤ MAX_TICK }
    ensures { result ≡ (if is_in tick run.now then run.now.last + 1 else tick) }
{
    if run.first <= tick && tick <= run.last {
        run.last + 1
    } else {
        tick
    }
}

/// The least tick from `tick` on with the least value.
pub fn next_bottom<V: Lattice>(runs: &Gap<Run<V>>, tick: u64) -> u64
    requires runs { AreTickRuns V.least runs.now.items }
    requires upto { tick ≤ MAX_TICK + 1 }
    ensures forward { tick ≤ result }
    ensures inside { result ≤ MAX_TICK + 1 }
    ensures bottom { value_at V.least runs.now.items result ≡ V.least }
    ensures least { (t : ℕ) → tick ≤ t → t < result → value_at V.least runs.now.items t ≢ V.least }
{
    let mut next = tick;
    for i in seek(runs, tick)..runs.len() {
        let run = runs.get(i);
        if next < run.first {
            return next;
        }
        next = after_run(run, next);
    }
    next
}

/// Takes the first ticks of the run at a place out, up to one of them.
pub fn lower_front<V: Lattice>(runs: &mut Gap<Run<V>>, i: usize, last: u64)
    requires within { i < length runs.old.items }
    requires runs { AreTickRuns V.least runs.old.items }
    requires holds { HoldsAt (λ r. (r.first ≤ last) × (last ≤ r.last)) runs.old.items i }
    ensures items { HoldsAt (λ r. runs.new.items ≡ take i runs.old.items
        ++ (part (last + 1) r.last r.value ++ drop (i + 1) runs.old.items)) runs.old.items i }
    ensures runs { AreTickRuns V.least runs.new.items }
{
    let run = runs.get(i);
    if run.last == last {
        runs.remove(i);
        return;
    }
    let rest = Run {
        first: last + 1,
        last: run.last,
        value: run.value.share(),
    };
    runs.replace(i, rest);
}

/// Takes a part of the run at a place out.
fn lower_run<V: Lattice>(runs: &mut Gap<Run<V>>, i: usize, first: u64, last: u64)
    requires within { i < length runs.old.items }
    requires room { 0 < runs.old.spare }
    requires runs { AreTickRuns V.least runs.old.items }
    requires holds { HoldsAt (λ r. (r.first ≤ first) × (last ≤ r.last)) runs.old.items i }
    requires ordered { first ≤ last }
    ensures runs { AreTickRuns V.least runs.new.items }
    ensures values { (t : ℕ) → value_at V.least runs.new.items t
        ≡ (if within first last t then V.least else value_at V.least runs.old.items t) }
    ensures kept { HoldsAt (λ r. last ≡ r.last → runs.old.spare ≤ runs.new.spare) runs.old.items i }
    ensures spare { runs.old.spare ≤ runs.new.spare + 1 }
{
    let run = runs.remove(i);
    keep_rest(runs, i, &run, first, last);
}

/// Puts the least value from one tick on, as far as one run or one gap goes, and answers the last tick that it came to.
fn lower_step<V: Lattice>(runs: &mut Gap<Run<V>>, first: u64, last: u64) -> u64
    requires room { 0 < runs.old.spare }
    requires runs { AreTickRuns V.least runs.old.items }
    requires ordered { first ≤ last }
    ensures forward { first ≤ result }
    ensures inside { result ≤ last }
    ensures runs { AreTickRuns V.least runs.new.items }
    ensures values { (t : ℕ) → value_at V.least runs.new.items t
        ≡ (if within first result t then V.least else value_at V.least runs.old.items t) }
    ensures kept { result < last → runs.old.spare ≤ runs.new.spare }
    ensures spare { runs.old.spare ≤ runs.new.spare + 1 }
{
    let i = seek(runs, first);
    if i == runs.len() {
        return last;
    }
    let run = runs.get(i);
    let start = run.first;
    let stop = run.last;
    if last < start {
        return last;
    }
    if first < start {
        return start - 1;
    }
    if last < stop {
        lower_run(runs, i, first, last);
        return last;
    }
    lower_run(runs, i, first, stop);
    stop
}

/// Puts the least value on a range.
pub fn lower_over<V: Lattice>(runs: &mut Gap<Run<V>>, first: u64, last: u64)
    requires room { 0 < runs.old.spare }
    requires runs { AreTickRuns V.least runs.old.items }
    requires ordered { first ≤ last }
    requires upto { last ≤ MAX_TICK }
    ensures runs { AreTickRuns V.least runs.new.items }
    ensures values { (t : ℕ) → value_at V.least runs.new.items t
        ≡ (if within first last t then V.least else value_at V.least runs.old.items t) }
    ensures spare { runs.old.spare ≤ runs.new.spare + 1 }
{
    // Each step comes to the end of a run or of a gap, and goes on after it.
    let mut next = first;
    while next <= last {
        next = lower_step(runs, next, last) + 1;
    }
}

/// The place behind the runs that have ticks of a range, the first of which stands at `from`. None where one of these
/// has other ticks too, and so does not lie whole in the range.
fn whole_upto<V: Lattice>(runs: &Gap<Run<V>>, from: usize, first: u64, last: u64) -> Option<usize>
    requires within { from ≤ length runs.now.items }
    requires runs { AreTickRuns V.least runs.now.items }
    ensures within { IfSome result (λ upto. (from ≤ upto) × (upto ≤ length runs.now.items)) }
    ensures ahead { IfSome result (λ upto. BeginAfter (drop upto runs.now.items) last) }
    ensures values { IfSome result (λ upto. (t : ℕ) → within first last t ≡ false →
        value_at V.least (take from runs.now.items ++ drop upto runs.now.items) t
        ≡ value_at V.least runs.now.items t) }
{
    let count = runs.len();
    let mut upto = from;
    while upto < count {
        let run = runs.get(upto);
        if last < run.first {
            return Some(upto);
        }
        if run.first < first || last < run.last {
            return None;
        }
        upto += 1;
    }
    Some(upto)
}

/// Puts a value on a range. Where each run of the range lies whole in it, one run comes in the place of all of them.
pub fn set_over<V: Lattice>(runs: &mut Gap<Run<V>>, first: u64, last: u64, value: &V)
    requires room { 2 ≤ runs.old.spare }
    requires runs { AreTickRuns V.least runs.old.items }
    requires from_one { 1 ≤ first }
    requires ordered { first ≤ last }
    requires upto { last ≤ MAX_TICK }
    ensures runs { AreTickRuns V.least runs.new.items }
    ensures values { (t : ℕ) → value_at V.least runs.new.items t
        ≡ (if within first last t then value.now else value_at V.least runs.old.items t) }
    ensures spare { runs.old.spare ≤ runs.new.spare + 2 }
{
    if !is_bottom(value) {
        let from = seek(runs, first);
        if let Some(upto) = whole_upto(runs, from, first, last) {
            put_over(
                runs,
                from,
                upto,
                Run {
                    first,
                    last,
                    value: value.share(),
                },
            );
            return;
        }
    }
    lower_over(runs, first, last);
    if is_bottom(value) {
        return;
    }
    let i = seek(runs, first);
    join_gap(runs, i, first, last, value);
}

/// The greatest tick up to which the value stays that of `tick`.
pub fn steady_until<V: Lattice>(runs: &Gap<Run<V>>, tick: u64) -> u64
    requires runs { AreTickRuns V.least runs.now.items }
    requires upto { tick ≤ MAX_TICK }
    ensures forward { tick ≤ result }
    ensures inside { result ≤ MAX_TICK }
    ensures steady { (t : ℕ) → tick ≤ t → t ≤ result → value_at V.least runs.now.items t
        ≡ value_at V.least runs.now.items tick }
    ensures greatest { result < MAX_TICK →
        value_at V.least runs.now.items (result + 1) ≢ value_at V.least runs.now.items tick }
{
    let i = seek(runs, tick);
    if i == runs.len() {
        return MAX_TICK;
    }
    let run = runs.get(i);
    if tick < run.first {
        return run.first - 1;
    }
    run.last
}

/// The value at a tick, and the greatest tick up to which it stays, by one search.
pub fn steady_in<V: Lattice>(runs: &Gap<Run<V>>, tick: u64) -> Steady<V>
    requires runs { AreTickRuns V.least runs.now.items }
    requires upto { tick ≤ MAX_TICK }
    ensures { StaysUntil V.least runs.now.items tick result }
{
    let i = seek(runs, tick);
    if i == runs.len() {
        return Steady {
            value: V::bottom(),
            last: MAX_TICK,
        };
    }
    steady_by(runs.get(i), tick)
}

/// The room that is enough to join each run of a list, or None exactly where it is no number of the machine's.
#[inline(always)]
pub fn room_for<V: Lattice>(runs: &Gap<Run<V>>, others: &Row<Run<V>>) -> Option<usize>
    requires runs { AreTickRuns V.least runs.now.items }
    requires others { AreTickRuns V.least others.now.items }
    ensures { MatchOption result (2 ^ 64 ≤ needed runs.now.items others.now.items) (λ n. n
        ≡ needed runs.now.items others.now.items) }
{
    let count = others.len();
    if count == 0 {
        return Some(0);
    }
    let oldest = others.get(0);
    if is_past(runs, oldest.first) {
        return Some(count);
    }
    let mut room = 0usize;
    for i in 0..count {
        let other = others.get(i);
        let Some(more) = count_in(runs, other.first, other.last).checked_add(1) else {
            return None;
        };
        let Some(sum) = room.checked_add(more) else {
            return None;
        };
        room = sum;
    }
    Some(room)
}

/// Joins each run of a list that comes behind all that are kept.
fn join_past<V: Lattice>(runs: &mut Gap<Run<V>>, others: &Row<Run<V>>)
    requires room { length others.now.items ≤ runs.old.spare }
    requires runs { AreTickRuns V.least runs.old.items }
    requires others { AreTickRuns V.least others.now.items }
    requires past { (o : Run V) (os : List (Run V)) → others.now.items ≡ o ∷ os → EndBefore runs.old.items o.first }
    ensures runs { AreTickRuns V.least runs.new.items }
    ensures values { (t : ℕ) → value_at V.least runs.new.items t
        ≡ V.join_of (value_at V.least runs.old.items t) (value_at V.least others.now.items t) }
    ensures spare { runs.old.spare ≤ runs.new.spare + length others.now.items }
{
    for i in 0..others.len() {
        let other = others.get(i);
        put_end(
            runs,
            Run {
                first: other.first,
                last: other.last,
                value: other.value.share(),
            },
        );
    }
}

/// Joins each run of a list.
#[inline(always)]
pub fn join_each<V: Lattice>(runs: &mut Gap<Run<V>>, others: &Row<Run<V>>)
    requires room { needed runs.old.items others.now.items ≤ runs.old.spare }
    requires runs { AreTickRuns V.least runs.old.items }
    requires others { AreTickRuns V.least others.now.items }
    ensures runs { AreTickRuns V.least runs.new.items }
    ensures values { (t : ℕ) → value_at V.least runs.new.items t
        ≡ V.join_of (value_at V.least runs.old.items t) (value_at V.least others.now.items t) }
    ensures spare { runs.old.spare ≤ runs.new.spare + needed runs.old.items others.now.items }
{
    if others.len() > 0 {
        let oldest = others.get(0);
        if is_past(runs, oldest.first) {
            join_past(runs, others);
            return;
        }
    }
    for i in 0..others.len() {
        let other = others.get(i);
        join_over(runs, other.first, other.last, &other.value);
    }
}

/// Puts the least value at each tick of a list's runs.
pub fn lower_each<V: Lattice>(runs: &mut Gap<Run<V>>, others: &Row<Run<V>>)
    requires room { length others.now.items ≤ runs.old.spare }
    requires runs { AreTickRuns V.least runs.old.items }
    requires others { AreTickRuns V.least others.now.items }
    ensures runs { AreTickRuns V.least runs.new.items }
    ensures values { (t : ℕ) → value_at V.least runs.new.items t
        ≡ (if is_told others.now.items t then V.least else value_at V.least runs.old.items t) }
    ensures spare { runs.old.spare ≤ runs.new.spare + length others.now.items }
{
    for i in 0..others.len() {
        let other = others.get(i);
        lower_over(runs, other.first, other.last);
    }
}
