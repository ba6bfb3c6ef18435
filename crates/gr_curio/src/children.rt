//! The children's curiosity, as a slice of streams.
ghost use Rattle.std.specs.Prelude.{if◌then◌else◌, ◌≡◌, ◌≢◌, ◌⊎◌, ◌↔◌, IsTrue, ℕ, ◌+◌, ◌<◌, ◌≤◌, ◌&&◌};
ghost use Rattle.std.specs.Prelude.{nat_le, IfOk, OnOk, [], length, replicate, true, false};
ghost use Rattle.std.specs.Option.{ForSome, ForNone};
ghost use Rattle.std.specs.List.{list_all, list_any};
ghost use Rattle.gr_tick.specs.declared.TheConstants.{MAX_TICK};
ghost use Rattle.gr_tick.specs.Runs.{is_in};
ghost use Rattle.gr_tick.specs.Stored.{within, IsRun, EndBefore, RunsGive};
ghost use Rattle.gr_curio.specs.Values.{wanted_at, is_A, is_C};
ghost use Rattle.gr_curio.specs.Wants.{runs_of, all_A, all_A_but, any_C, is_reached, is_consolidated, HasChange};
ghost use Rattle.gr_curio.specs.declared.values.Q3.TheVariants.{N, C, A};

use crate::values::{Q3, is_acknowledged, is_asked};
use gr_tick::{Piece, Run, Steady, Stream};
use std::alloc::{AllocError, Global};

/// A number of children that ask and acknowledge nothing.
pub(crate) fn quiet_children(alloc: Global, count: usize) -> Result<Vec<Stream<Q3>>, AllocError>
    ensures { IfOk result (λ children. runs_of children.items ≡ replicate count []) }
{
    let mut children = Vec::new(alloc);
    let mut made = 0;
    while made < count {
        children.push(Stream::new(alloc))?;
        made += 1;
    }
    Ok(children)
}

/// Children with equal runs.
pub(crate) fn copy_children(
    alloc: Global,
    children: &[Stream<Q3>],
) -> Result<Vec<Stream<Q3>>, AllocError>
    ensures { IfOk result (λ copy. runs_of copy.items ≡ runs_of children.now) }
{
    let mut copy = Vec::new(alloc);
    for child in children {
        let same = child.copy()?;
        copy.push(same)?;
    }
    Ok(copy)
}

/// Whether a child has acknowledged each tick from 1 to `upto`.
pub(crate) fn covers_upto(child: &Stream<Q3>, upto: u64) -> bool
    ensures { IsTrue result ↔ ((t : ℕ) → 1 ≤ t → t ≤ upto → is_A (wanted_at child.now.runs t) ≡ true) }
{
    if upto == 0 {
        return true;
    }
    let _ = child.len();
    let front = child.steady_at(1);
    if !is_acknowledged(front.value) {
        return false;
    }
    upto <= front.last
}

/// Whether every child has acknowledged a tick, and the last one up to `limit` up to which that is so too. Where one
/// has not, this is how far that child goes on as it is.
fn acknowledged_from(children: &[Stream<Q3>], tick: u64, limit: u64) -> Steady<bool>
    requires ordered { tick ≤ limit }
    requires upto { limit ≤ MAX_TICK }
    ensures forward { tick ≤ result.last }
    ensures inside { result.last ≤ limit }
    ensures greatest { result.last < limit → HasChange tick (result.last + 1) children.now }
    ensures steady { (t : ℕ) → tick ≤ t → t ≤ result.last →
        list_all (λ child. is_A (wanted_at child.runs t)) children.now ≡ result.value }
{
    let mut end = limit;
    for child in children {
        let wanted = child.steady_at(tick);
        end = end.min(wanted.last);
        if !is_acknowledged(wanted.value) {
            return Steady {
                value: false,
                last: limit.min(wanted.last),
            };
        }
    }
    Steady {
        value: true,
        last: end,
    }
}

/// Whether some child asks for a tick, and the last one up to `limit` up to which that is so too. Where one asks, this
/// is how far that child goes on as it is.
fn asked_from(children: &[Stream<Q3>], tick: u64, limit: u64) -> Steady<bool>
    requires ordered { tick ≤ limit }
    requires upto { limit ≤ MAX_TICK }
    ensures forward { tick ≤ result.last }
    ensures inside { result.last ≤ limit }
    ensures greatest { result.last < limit → HasChange tick (result.last + 1) children.now }
    ensures steady { (t : ℕ) → tick ≤ t → t ≤ result.last →
        list_any (λ child. is_C (wanted_at child.runs t)) children.now ≡ result.value }
{
    let mut end = limit;
    for child in children {
        let wanted = child.steady_at(tick);
        end = end.min(wanted.last);
        if is_asked(wanted.value) {
            return Steady {
                value: true,
                last: limit.min(wanted.last),
            };
        }
    }
    Steady {
        value: false,
        last: end,
    }
}

/// The last tick that may be consolidated: the horizon, if one is kept, and no tick past what the first child has.
fn last_consolidated(children: &[Stream<Q3>], horizon: Option<u64>) -> u64
    requires some { ForNone horizon (0 < length children.now) }
    requires upto { ForSome horizon (λ h. h ≤ MAX_TICK) }
    ensures inside { result ≤ MAX_TICK }
    ensures reached { (t : ℕ) → t ≤ result → is_reached horizon t ≡ true }
    ensures past { (t : ℕ) → result < t → is_consolidated horizon (runs_of children.now) t ≡ false }
{
    match horizon {
        Some(reached) => {
            if children.is_empty() {
                return reached;
            }
            reached.min(children[0].top())
        }
        None => children[0].top(),
    }
}

/// Acknowledged at the ticks that every child has acknowledged, and that the horizon, if one is kept, has come to.
pub fn consolidated_piece(
    alloc: Global,
    children: &[Stream<Q3>],
    horizon: Option<u64>,
) -> Result<Piece<Q3>, AllocError>
    requires some { ForNone horizon (0 < length children.now) }
    requires upto { ForSome horizon (λ h. h ≤ MAX_TICK) }
    ensures { IfOk result (λ piece. RunsGive N piece
        (λ t. if is_consolidated horizon (runs_of children.now) t then A else N)) }
{
    let limit = last_consolidated(children, horizon);
    let mut piece = Piece::new(alloc);
    let mut next = 1;
    while next <= limit {
        let all = acknowledged_from(children, next, limit);
        if all.value {
            piece.push(Run {
                first: next,
                last: all.last,
                value: Q3::A,
            })?;
        }
        next = all.last + 1;
    }
    let _ = piece.len();
    Ok(piece)
}

/// The greatest tick up to `limit` up to which each tick is consolidated.
pub fn consolidated_upto(children: &[Stream<Q3>], horizon: Option<u64>, limit: u64) -> u64
    requires { limit ≤ MAX_TICK }
    ensures within { result ≤ limit }
    ensures each { (t : ℕ) → 1 ≤ t → t ≤ result → is_consolidated horizon (runs_of children.now) t ≡ true }
    ensures stops { result < limit → is_consolidated horizon (runs_of children.now) (result + 1) ≡ false }
{
    let last = horizon.unwrap_or(limit).min(limit);
    if last == 0 {
        return 0;
    }
    let front = acknowledged_from(children, 1, last);
    if front.value {
        return front.last;
    }
    0
}

/// Whether each child before the one that is left out and after it has acknowledged a tick, and the last one up to
/// `limit` up to which that is so too.
fn completed_from(
    before: &[Stream<Q3>],
    after: &[Stream<Q3>],
    tick: u64,
    limit: u64,
) -> Steady<bool>
    requires ordered { tick ≤ limit }
    requires upto { limit ≤ MAX_TICK }
    ensures forward { tick ≤ result.last }
    ensures inside { result.last ≤ limit }
    ensures greatest { result.last < limit →
        HasChange tick (result.last + 1) before.now ⊎ HasChange tick (result.last + 1) after.now }
    ensures steady { (t : ℕ) → tick ≤ t → t ≤ result.last →
        (list_all (λ child. is_A (wanted_at child.runs t)) before.now
        && list_all (λ child. is_A (wanted_at child.runs t)) after.now) ≡ result.value }
{
    let first = acknowledged_from(before, tick, limit);
    if !first.value {
        return first;
    }
    acknowledged_from(after, tick, first.last)
}

/// Puts at the end the ticks of a run up to `upto`, if it acknowledges them, that each child before the one that is
/// left out and after it has acknowledged.
fn put_completed(
    done: &mut Piece<Q3>,
    before: &[Stream<Q3>],
    after: &[Stream<Q3>],
    run: &Run<Q3>,
    upto: u64,
) -> Result<(), AllocError>
    requires alone { IsRun N run.now }
    requires past { EndBefore done.old run.now.first }
    ensures values { OnOk result ((t : ℕ) → wanted_at done.new t ≡ (if is_in t run.now
        then (if is_A run.now.value && nat_le t upto && (all_A (runs_of before.now) t && all_A (runs_of after.now) t)
        then A else N) else wanted_at done.old t)) }
    ensures past { OnOk result ((t : ℕ) → run.now.last < t → EndBefore done.new t) }
{
    if !is_acknowledged(run.value) {
        return Ok(());
    }
    let last = upto.min(run.last);
    let mut next = run.first;
    while next <= last {
        let all = completed_from(before, after, next, last);
        if all.value {
            done.push(Run {
                first: next,
                last: all.last,
                value: Q3::A,
            })?;
        }
        next = all.last + 1;
    }
    Ok(())
}

/// Acknowledged at the ticks up to `upto` that a piece acknowledges, and that each child before the one that is left
/// out and after it has acknowledged.
fn completed_by(
    alloc: Global,
    before: &[Stream<Q3>],
    after: &[Stream<Q3>],
    piece: &Piece<Q3>,
    upto: u64,
) -> Result<Piece<Q3>, AllocError>
    ensures { IfOk result (λ done. RunsGive N done (λ t. if is_A (wanted_at piece.now t) && nat_le t upto
        && (all_A (runs_of before.now) t && all_A (runs_of after.now) t) then A else N)) }
{
    let mut done = Piece::new(alloc);
    for i in 0..piece.len() {
        put_completed(&mut done, before, after, piece.run(i), upto)?;
    }
    // Proof only: the runs are canonical.
    let _ = done.len();
    Ok(done)
}

/// Acknowledged at the ticks up to `upto` that a piece acknowledges, and that every child has acknowledged, but one
/// that is left out.
pub(crate) fn completed_piece(
    alloc: Global,
    children: &[Stream<Q3>],
    but: Option<usize>,
    piece: &Piece<Q3>,
    upto: u64,
) -> Result<Piece<Q3>, AllocError>
    ensures { IfOk result (λ done. RunsGive N done (λ t. if is_A (wanted_at piece.now t) && nat_le t upto
        && all_A_but but (runs_of children.now) t then A else N)) }
{
    let count = children.len();
    let out = but.unwrap_or(count).min(count);
    let next = (out + 1).min(count);
    completed_by(alloc, &children[..out], &children[next..], piece, upto)
}

/// The last tick that a child has.
fn last_of_all(children: &[Stream<Q3>]) -> u64
    ensures inside { result ≤ MAX_TICK }
    ensures outside { (t : ℕ) → within 1 result t ≡ false →
        list_any (λ child. is_C (wanted_at child.runs t)) children.now ≡ false }
{
    let mut last = 0u64;
    for child in children {
        last = last.max(child.top());
    }
    last
}

/// Asked at the ticks that some child asks.
pub(crate) fn curious_piece(alloc: Global, children: &[Stream<Q3>]) -> Result<Piece<Q3>, AllocError>
    ensures { IfOk result (λ piece. RunsGive N piece (λ t. if any_C (runs_of children.now) t then C else N)) }
{
    let limit = last_of_all(children);
    let mut piece = Piece::new(alloc);
    let mut next = 1;
    while next <= limit {
        let some = asked_from(children, next, limit);
        if some.value {
            piece.push(Run {
                first: next,
                last: some.last,
                value: Q3::C,
            })?;
        }
        next = some.last + 1;
    }
    let _ = piece.len();
    Ok(piece)
}
