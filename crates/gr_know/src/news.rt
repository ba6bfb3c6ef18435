//! What is new of a piece, and where it clashes with what is known: walks over the runs of both, by their places.
ghost use Rattle.std.specs.Prelude.{if◌then◌else◌, ◌≡◌, ◌≢◌, ℕ, ◌+◌, ◌<◌, ◌≤◌, MatchOption, IfOk, OnOk, true, false};
ghost use Rattle.gr_tick.specs.declared.TheConstants.{MAX_TICK};
ghost use Rattle.gr_tick.specs.Runs.{is_in};
ghost use Rattle.gr_tick.specs.Stored.{within, IsRun, EndBefore, RunsGive};
ghost use Rattle.gr_know.specs.Values.{known_at, join_K, new_K, clash_K};
ghost use Rattle.gr_know.specs.Clash.{IsLeastClash, IsLeastClashIn};
ghost use Rattle.gr_know.specs.declared.values.K.TheVariants.{Q};

use crate::knowledge::Clash;
use crate::values::K;
use gr_tick::{Lattice, MAX_TICK, Piece, Run, Stream};
use std::alloc::{AllocError, Global};

/// What came where nothing was known.
pub(crate) fn fresh_piece(
    alloc: Global,
    stream: &Stream<K>,
    piece: &Piece<K>,
) -> Result<Piece<K>, AllocError>
    ensures { IfOk result (λ fresh. RunsGive Q fresh (λ t. new_K (known_at stream.now.runs t) (known_at piece.now t))) }
{
    let mut fresh = Piece::new(alloc);
    for i in 0..piece.len() {
        put_news(&mut fresh, stream, piece.run(i))?;
    }
    // Proof only: the runs are canonical.
    let _ = fresh.len();
    Ok(fresh)
}

/// How far a horizon moves once a piece is joined: nothing is unknown then on the ticks past it and up to there.
pub(crate) fn horizon_with(stream: &Stream<K>, piece: &Piece<K>, horizon: u64) -> u64
    requires { horizon ≤ MAX_TICK }
    ensures forward { horizon ≤ result }
    ensures inside { result ≤ MAX_TICK }
    ensures known { (t : ℕ) → horizon < t → t ≤ result
        → join_K (known_at stream.now.runs t) (known_at piece.now t) ≢ Q }
    ensures greatest { join_K (known_at stream.now.runs (result + 1)) (known_at piece.now (result + 1)) ≡ Q }
{
    // Proof only: the runs end by the last tick.
    let _ = piece.len();
    let mut reached = stream.first_bottom_from(horizon + 1) - 1;
    while reached < MAX_TICK {
        let came = came_until(piece, reached);
        if came == reached {
            return reached;
        }
        reached = stream.first_bottom_from(came + 1) - 1;
    }
    reached
}

/// The last tick of the run that goes on past a tick, or that tick where nothing came of the next one.
fn came_until(piece: &Piece<K>, tick: u64) -> u64
    requires { tick < MAX_TICK }
    ensures forward { tick ≤ result }
    ensures inside { result ≤ MAX_TICK }
    ensures came { (t : ℕ) → tick + 1 ≤ t → t ≤ result → known_at piece.now t ≢ Q }
    ensures none { result ≡ tick → known_at piece.now (tick + 1) ≡ Q }
{
    let i = piece.seek(tick + 1);
    if i == piece.len() {
        return tick;
    }
    let run = piece.run(i);
    if tick + 1 < run.first {
        return tick;
    }
    run.last
}

/// Puts a run's value at the end, on the ticks of the run where nothing is known.
fn put_news(fresh: &mut Piece<K>, stream: &Stream<K>, run: &Run<K>) -> Result<(), AllocError>
    requires alone { IsRun Q run.now }
    requires past { EndBefore fresh.old run.now.first }
    ensures values { OnOk result ((t : ℕ) → known_at fresh.new t
        ≡ (if is_in t run.now then new_K (known_at stream.now.runs t) run.now.value else known_at fresh.old t)) }
    ensures past { OnOk result ((t : ℕ) → run.now.last < t → EndBefore fresh.new t) }
{
    // Proof only: the runs are canonical.
    let _ = stream.len();
    let mut next = run.first;
    for i in stream.seek(run.first)..stream.len() {
        let known = stream.run(i);
        if run.last < known.first {
            put_part(fresh, &run.value, next, run.last)?;
            return Ok(());
        }
        put_part(fresh, &run.value, next, known.first - 1)?;
        next = known.last + 1;
    }
    put_part(fresh, &run.value, next, run.last)?;
    Ok(())
}

/// Puts a value at the end, on a range that may be empty.
fn put_part(fresh: &mut Piece<K>, value: &K, first: u64, last: u64) -> Result<(), AllocError>
    requires from_one { 1 ≤ first }
    requires upto { last ≤ MAX_TICK }
    requires known { value.now ≢ Q }
    requires past { EndBefore fresh.old first }
    ensures values { OnOk result ((t : ℕ) → known_at fresh.new t
        ≡ (if within first last t then value.now else known_at fresh.old t)) }
    ensures past { OnOk result ((t : ℕ) → EndBefore fresh.old t → last < t → EndBefore fresh.new t) }
{
    if first > last {
        return Ok(());
    }
    fresh.push(Run {
        first,
        last,
        value: value.share(),
    })
}

/// The least clashing tick.
pub(crate) fn find_clash(stream: &Stream<K>, piece: &Piece<K>) -> Option<Clash>
    ensures { MatchOption result ((t : ℕ) → clash_K (known_at stream.now.runs t) (known_at piece.now t) ≡ false)
        (λ c. IsLeastClash (known_at stream.now.runs) (known_at piece.now) c.tick c.kept c.came) }
{
    for i in 0..piece.len() {
        match clash_of(stream, piece.run(i)) {
            None => {}
            Some(clash) => return Some(clash),
        }
    }
    None
}

/// The least tick of a run that clashes.
fn clash_of(stream: &Stream<K>, run: &Run<K>) -> Option<Clash>
    requires { IsRun Q run.now }
    ensures { MatchOption result
        ((t : ℕ) → is_in t run.now ≡ true → clash_K (known_at stream.now.runs t) run.now.value ≡ false)
        (λ c. IsLeastClashIn (known_at stream.now.runs) run.now c.tick c.kept c.came) }
{
    // Proof only: the runs are canonical.
    let _ = stream.len();
    for i in stream.seek(run.first)..stream.len() {
        let known = stream.run(i);
        if run.last < known.first {
            return None;
        }
        if clashing(&known.value, &run.value) {
            return Some(Clash {
                tick: known.first.max(run.first),
                kept: known.value.share(),
                came: run.value.share(),
            });
        }
    }
    None
}

/// Whether two values say different things of a tick.
fn clashing(kept: &K, came: &K) -> bool
    ensures { result ≡ clash_K kept.now came.now }
{
    match kept {
        K::Q | K::F => false,
        K::S => matches!(came, K::D(_)),
        K::D(event) => match came {
            K::S => true,
            K::D(second) => !event.same(second),
            K::Q | K::F => false,
        },
    }
}
