//! What a log would be made to say next: nothing changes, and no disk is called.

ghost use Rattle.std.specs.Prelude.{◌≡◌, ◌≤◌, true, nat_eq, IsErr, IsSome, IfOk};
ghost use Rattle.std.specs.List.{list_any};
ghost use Rattle.gr_pubend.specs.Log.{said};
ghost use Rattle.gr_pubend.specs.Answers.{published, quieted, joined_at, publish_logs, quiet_logs, join_logs};
ghost use Rattle.gr_pubend.specs.Answers.{IsPlanned, IsPlannedMark, IsPlannedJoin};

use crate::answers::{Joined, Published, Quieted};
use crate::learning::{fresh_event, fresh_silence};
use gr_event::Event;
use gr_publog::{Log, Memory};
use gr_tick::MAX_TICK;
use std::alloc::Global;

/// What a publish of an event under a number would be answered by a log, with the ticks that would become known. It
/// wants memory only where the event would be logged.
///
/// An event gets the next tick, or `now` where that is later. A number that was logged is `Already` there, and one past
/// the next is out of turn (`Gap`); with no tick left the publisher is `Exhausted`.
pub fn plan(
    alloc: Global,
    log: &Log,
    number: u64,
    event: &Event,
    now: u64,
) -> Result<Published, Memory>
    requires now { now ≤ MAX_TICK }
    ensures answer { IfOk result (λ answer. answer ≡ published (said log.now) number event.now now) }
    ensures planned { IfOk result (λ answer. IsPlanned log.now.state number event.now answer) }
    ensures wants { IsErr result → IsSome (publish_logs (said log.now) number event.now now) }
{
    // Proof only: what the log holds is in order.
    let _ = log.is_broken();
    let last = log.last();
    if number <= last {
        return Ok(Published::Already);
    }
    if number > last + 1 {
        return Ok(Published::Gap { next: last + 1 });
    }
    let first = log.settled() + 1;
    let tick = now.max(first);
    if tick > MAX_TICK {
        return Ok(Published::Exhausted);
    }
    match fresh_event(alloc, first, tick, event) {
        Ok(fresh) => Ok(Published::Logged { tick, fresh }),
        Err(refused) => Err(refused),
    }
}

/// What a time of `quiet` ticks without an event would be answered by a log: the silence up to `now`, or that it was
/// not long enough. It wants memory only where a mark would be logged.
pub fn plan_quiet(alloc: Global, log: &Log, now: u64, quiet: u64) -> Result<Quieted, Memory>
    requires now { now ≤ MAX_TICK }
    requires some { 1 ≤ quiet }
    ensures answer { IfOk result (λ answer. answer ≡ quieted (said log.now) now quiet) }
    ensures planned { IfOk result (λ answer. IsPlannedMark log.now.state answer) }
    ensures wants { IsErr result → IsSome (quiet_logs (said log.now) now quiet) }
{
    // Proof only: what the log holds is in order.
    let _ = log.is_broken();
    let settled = log.settled();
    if now.saturating_sub(settled) < quiet {
        return Ok(Quieted::NotYet);
    }
    match fresh_silence(alloc, settled + 1, now) {
        Ok(fresh) => Ok(Quieted::Marked { tick: now, fresh }),
        Err(refused) => Err(refused),
    }
}

/// What a join of a late subscriber would be answered by a log, with the silence that would become known. It wants
/// memory only where the join would be logged.
///
/// A join gets the next tick, or `now` where that is later. A subscriber that has joined is `Already` there; with no
/// tick left the publisher is `Exhausted`.
pub fn plan_join(alloc: Global, log: &Log, s: u16, now: u64) -> Result<Joined, Memory>
    requires now { now ≤ MAX_TICK }
    requires late { list_any (λ x. nat_eq x s) log.now.state.late ≡ true }
    ensures answer { IfOk result (λ answer. answer ≡ joined_at (said log.now) s now) }
    ensures planned { IfOk result (λ answer. IsPlannedJoin log.now.state s answer) }
    ensures wants { IsErr result → IsSome (join_logs (said log.now) s now) }
{
    // Proof only: what the log holds is in order.
    let _ = log.is_broken();
    let joined = log.joins().has(s);
    if joined {
        return Ok(Joined::Already);
    }
    let first = log.settled() + 1;
    let tick = now.max(first);
    if tick > MAX_TICK {
        return Ok(Joined::Exhausted);
    }
    match fresh_silence(alloc, first, tick) {
        Ok(fresh) => Ok(Joined::Logged { tick, fresh }),
        Err(refused) => Err(refused),
    }
}
