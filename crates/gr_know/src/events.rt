//! How many ticks have an event.
//! Each edit below answers how many have one after it, and looks at no run that it does not touch.
ghost use Rattle.std.specs.Prelude.{if◌then◌else◌, ◌≡◌, ℕ, suc, ◌-◌, ◌+◌, ◌<◌, ◌≤◌, true, length, IsTrue};
ghost use Rattle.gr_tick.specs.declared.TheConstants.{MAX_TICK};
ghost use Rattle.gr_tick.specs.Runs.{is_in};
ghost use Rattle.gr_tick.specs.Stored.{within, IsRun, RunsGive, needed, is_told};
ghost use Rattle.gr_know.specs.Values.{known_at, is_D, join_K};
ghost use Rattle.gr_know.specs.Forget.{data_count};
ghost use Rattle.gr_know.specs.Events.{events_from, events_at, events_shared, IsPast};
ghost use Rattle.gr_know.specs.declared.values.K.TheVariants.{Q, F};

use crate::values::K;
use gr_tick::{Lattice, Piece, Run, Stream};

/// Whether a run has an event.
pub(crate) fn is_data(run: &Run<K>) -> bool
    ensures { result ≡ is_D run.now.value }
{
    match &run.value {
        K::D(_) => true,
        K::Q | K::S | K::F => false,
    }
}

/// How many ticks of a range a run has with an event.
fn events_shared(run: &Run<K>, first: u64, last: u64) -> u64
    requires alone { IsRun Q run.now }
    requires upto { last ≤ MAX_TICK }
    ensures { result ≡ events_shared run.now first last }
{
    let from = first.max(run.first);
    let upto = last.min(run.last);
    if from > upto || !is_data(run) {
        return 0;
    }
    upto - from + 1
}

/// How many ticks of a range have an event.
pub(crate) fn events_in(stream: &Stream<K>, first: u64, last: u64) -> u64
    requires from_one { 1 ≤ first }
    requires ordered { first ≤ last }
    requires upto { last ≤ MAX_TICK }
    ensures { result ≡ events_from (known_at stream.now.runs) first (suc last - first) }
{
    // Proof only: the runs are canonical.
    let _ = stream.len();
    let mut count = 0u64;
    for i in stream.seek(first)..stream.len() {
        let run = stream.run(i);
        if last < run.first {
            return count;
        }
        count += events_shared(run, first, last);
    }
    count
}

/// How many ticks of a piece have an event in what is known.
pub(crate) fn events_at(stream: &Stream<K>, piece: &Piece<K>) -> u64
    ensures { result ≡ events_at (known_at stream.now.runs) piece.now }
{
    let mut count = 0u64;
    for i in 0..piece.len() {
        let run = piece.run(i);
        count += events_in(stream, run.first, run.last);
    }
    count
}

/// How many ticks of a piece have an event in the piece itself.
fn events_of(piece: &Piece<K>) -> u64
    ensures { result ≡ data_count piece.now }
{
    let mut count = 0u64;
    for i in 0..piece.len() {
        let run = piece.run(i);
        count += events_shared(run, run.first, run.last);
    }
    count
}

/// Whether a piece begins past all that is known.
fn is_past(stream: &Stream<K>, piece: &Piece<K>) -> bool
    ensures { IsTrue result → IsPast stream.now.runs piece.now }
{
    // Proof only: the runs are canonical.
    let _ = piece.len();
    if piece.is_empty() {
        return false;
    }
    stream.top() < piece.run(0).first
}

/// Joins a piece that begins past all that is known, where the room for it is there.
fn join_past(stream: &mut Stream<K>, piece: &Piece<K>, events: u64) -> u64
    requires past { IsPast stream.old.runs piece.now }
    requires room { needed stream.old.runs piece.now ≤ stream.old.spare }
    requires counted { events ≡ data_count stream.old.runs }
    ensures joined { RunsGive Q stream.new.runs (λ t. join_K (known_at stream.old.runs t) (known_at piece.now t)) }
    ensures spare { stream.old.spare ≤ stream.new.spare + needed stream.old.runs piece.now }
    ensures counted { result ≡ data_count stream.new.runs }
{
    // Proof only: the runs are canonical.
    let _ = stream.len();
    let _ = piece.len();
    stream.join_ready(piece);
    events + events_of(piece)
}

/// Whether each tick of a run is known already, so that a join with the run would change nothing.
fn is_held(stream: &Stream<K>, run: &Run<K>) -> bool
    ensures { IsTrue result → (t : ℕ) → is_in t run.now ≡ true
        → join_K (known_at stream.now.runs t) run.now.value ≡ known_at stream.now.runs t }
{
    // Proof only: the runs are canonical.
    let _ = stream.len();
    let i = stream.seek(run.first);
    if i == stream.len() {
        return false;
    }
    let known = stream.run(i);
    if run.first < known.first || known.last < run.last {
        return false;
    }
    run.value.at_most(&known.value)
}

/// Whether a join with a piece would change nothing, as where it came before.
fn is_known(stream: &Stream<K>, piece: &Piece<K>) -> bool
    ensures { IsTrue result → (t : ℕ) → join_K (known_at stream.now.runs t) (known_at piece.now t)
        ≡ known_at stream.now.runs t }
{
    for i in 0..piece.len() {
        if !is_held(stream, piece.run(i)) {
            return false;
        }
    }
    true
}

/// Joins a piece, where the room for it is there.
pub(crate) fn join_counted(stream: &mut Stream<K>, piece: &Piece<K>, events: u64) -> u64
    requires room { needed stream.old.runs piece.now ≤ stream.old.spare }
    requires counted { events ≡ data_count stream.old.runs }
    ensures joined { RunsGive Q stream.new.runs (λ t. join_K (known_at stream.old.runs t) (known_at piece.now t)) }
    ensures spare { stream.old.spare ≤ stream.new.spare + needed stream.old.runs piece.now }
    ensures counted { result ≡ data_count stream.new.runs }
{
    if is_past(stream, piece) {
        return join_past(stream, piece, events);
    }
    // Proof only: the runs are canonical.
    let _ = stream.len();
    let _ = piece.len();
    if is_known(stream, piece) {
        return events;
    }
    let before = events_at(stream, piece);
    stream.join_ready(piece);
    let after = events_at(stream, piece);
    events - before + after
}

/// Makes the ticks of a piece unknown, where there is room for as many runs as it has.
pub(crate) fn lower_counted(stream: &mut Stream<K>, piece: &Piece<K>, events: u64) -> u64
    requires room { length piece.now ≤ stream.old.spare }
    requires counted { events ≡ data_count stream.old.runs }
    ensures lowered { RunsGive Q stream.new.runs (λ t. if is_told piece.now t then Q else known_at stream.old.runs t) }
    ensures spare { stream.old.spare ≤ stream.new.spare + length piece.now }
    ensures counted { result ≡ data_count stream.new.runs }
{
    // Proof only: the runs are canonical.
    let _ = stream.len();
    let _ = piece.len();
    let before = events_at(stream, piece);
    stream.lower_piece(piece);
    events - before
}

/// Makes the ticks of a range final, where there is room for two runs.
pub(crate) fn finish_counted(stream: &mut Stream<K>, first: u64, last: u64, events: u64) -> u64
    requires from_one { 1 ≤ first }
    requires ordered { first ≤ last }
    requires upto { last ≤ MAX_TICK }
    requires room { 2 ≤ stream.old.spare }
    requires counted { events ≡ data_count stream.old.runs }
    ensures finished { RunsGive Q stream.new.runs (λ t. if within first last t then F else known_at stream.old.runs t) }
    ensures spare { stream.old.spare ≤ stream.new.spare + 2 }
    ensures counted { result ≡ data_count stream.new.runs }
{
    // Proof only: the runs are canonical.
    let _ = stream.len();
    let before = events_in(stream, first, last);
    stream.set_range(first, last, K::F);
    events - before
}
