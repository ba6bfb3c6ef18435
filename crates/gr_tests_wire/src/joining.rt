//! Joins of late subscribers at the endpoint of a publisher on the lanes 0 and 1 of a disk in memory, as scripts.

ghost use Rattle.std.specs.Prelude.{◌≡◌, ◌≤◌, true, length, nat_eq};
ghost use Rattle.gr_event.specs.declared.limits.TheConstants.{MAX_JOINS};
ghost use Rattle.std.specs.List.{list_any};
ghost use Rattle.gr_out.specs.Lane.{lane_at};
ghost use Rattle.gr_publog.specs.Views.{lanes_at, IsReady};
ghost use Rattle.gr_tick.specs.declared.TheConstants.{MAX_TICK};

use crate::disks::disk_of;
use crate::logs::{cut_late, fill, late_of, put_counts, put_fault};
use crate::piece_text::put_known;
use crate::script::{NEXT, cut_short, first_word, put_op};
use gr_event::MAX_JOINS;
use gr_out::MemDisk;
use gr_pubend::{Joined, Pubend};
use gr_publog::LogFault;
use gr_tests_rows::{Page, Stop, number};
use gr_tick::MAX_TICK;
use std::alloc::Global;

/// Answers a script of joins, before each of which the endpoint is opened anew:
/// `late 1,2 failing CALLS lane BYTES ; join SUBSCRIBER NOW ; plan SUBSCRIBER NOW ; log SUBSCRIBER NOW`.
pub fn calls(alloc: Global, row: &str, page: &mut Page) -> Result<(), Stop> {
    let (list, script) = cut_late(row);
    let late = late_of(alloc, list)?;
    let Some((made, ops)) = script.split_once(NEXT) else {
        return Err(Stop::NoRow);
    };
    calls_of(alloc, made, &late, ops, page)
}

/// Makes the disk, and makes the calls of a script.
fn calls_of(
    alloc: Global,
    made: &str,
    late: &[u16],
    ops: &str,
    page: &mut Page,
) -> Result<(), Stop> {
    let Some((fails, lane)) = made.split_once(" lane") else {
        return Err(Stop::NoRow);
    };
    let mut disk = disk_of(alloc, fails)?;
    calls_on(alloc, &mut disk, late, lane, ops, page)
}

/// Puts bytes on the lane, and makes the calls of a script.
fn calls_on(
    alloc: Global,
    disk: &mut MemDisk,
    late: &[u16],
    lane: &str,
    ops: &str,
    page: &mut Page,
) -> Result<(), Stop> {
    fill(alloc, disk, 0, lane)?;
    for op in ops.split(NEXT) {
        join_op(alloc, disk, late, op, page)?;
        page.push('\n');
    }
    Ok(())
}

/// Makes a call: `join SUBSCRIBER NOW`, `plan SUBSCRIBER NOW` or `log SUBSCRIBER NOW`.
fn join_op(
    alloc: Global,
    disk: &mut MemDisk,
    late: &[u16],
    op: &str,
    page: &mut Page,
) -> Result<(), Stop> {
    let (call, rest) = first_word(op);
    let Some((subscriber, word)) = cut_short(rest) else {
        return Err(Stop::NoRow);
    };
    let now = number(word)?;
    if late.len() > MAX_JOINS || now > MAX_TICK || !is_among(late, subscriber) {
        return Err(Stop::NoRow);
    }
    put_op(page, op);
    open(alloc, disk, late, call, subscriber, now, page)
}

/// Whether a number is one of some.
fn is_among(some: &[u16], subscriber: u16) -> bool
    ensures { result ≡ list_any (λ x. nat_eq x subscriber) some.now }
{
    let mut at = 0;
    'some: while at < some.len() {
        if some[at] == subscriber {
            return true;
        }
        at += 1;
    }
    false
}

/// Opens the endpoint, and makes a call.
fn open(
    alloc: Global,
    disk: &mut MemDisk,
    late: &[u16],
    call: &str,
    subscriber: u16,
    now: u64,
    page: &mut Page,
) -> Result<(), Stop>
    requires few { length late.now ≤ MAX_JOINS }
    requires now { now ≤ MAX_TICK }
    requires late { list_any (λ x. nat_eq x subscriber) late.now ≡ true }
{
    match Pubend::open(alloc, disk, 0, late) {
        Ok(mut end) => join_end(alloc, &mut end, disk, call, subscriber, now, page),
        Err(fault) => {
            put_fault(page, fault);
            Ok(())
        }
    }
}

/// Makes a call of an endpoint.
fn join_end(
    alloc: Global,
    end: &mut Pubend,
    disk: &mut MemDisk,
    call: &str,
    subscriber: u16,
    now: u64,
    page: &mut Page,
) -> Result<(), Stop>
    requires now { now ≤ MAX_TICK }
    requires late { list_any (λ x. nat_eq x subscriber) end.old.log.state.late ≡ true }
    requires stands { IsReady end.old.log (lanes_at (lane_at disk.old.lanes) end.old.log.lane) }
{
    match call {
        "join" => join(alloc, end, disk, subscriber, now, page)?,
        "plan" => put_plan(alloc, end, subscriber, now, page)?,
        "log" => log_planned(end, disk, subscriber, now, page)?,
        _ => return Err(Stop::NoRow),
    }
    page.push_str(", ");
    put_counts(page, end.log());
    Ok(())
}

/// Joins a subscriber.
fn join(
    alloc: Global,
    end: &mut Pubend,
    disk: &mut MemDisk,
    subscriber: u16,
    now: u64,
    page: &mut Page,
) -> Result<(), Stop>
    requires now { now ≤ MAX_TICK }
    requires late { list_any (λ x. nat_eq x subscriber) end.old.log.state.late ≡ true }
    requires stands { IsReady end.old.log (lanes_at (lane_at disk.old.lanes) end.old.log.lane) }
{
    match end.join(disk, subscriber, now) {
        Ok(answer) => put_joined(alloc, page, &answer),
        Err(LogFault::Disk) => page.push_str("the disk failed"),
        Err(LogFault::Reopen) => page.push_str("reopen first"),
        Err(LogFault::Memory | LogFault::Damaged { .. }) => return Err(Stop::Memory),
    }
    Ok(())
}

/// Prints what a join is answered.
fn put_joined(alloc: Global, page: &mut Page, answer: &Joined) {
    match answer {
        Joined::Logged { tick, fresh } => {
            write!(page, "joined at {tick}, new");
            put_known(alloc, page, fresh);
        }
        Joined::Already => page.push_str("already"),
        Joined::Exhausted => page.push_str("exhausted"),
    }
}

/// Prints what a join would be answered.
fn put_plan(
    alloc: Global,
    end: &Pubend,
    subscriber: u16,
    now: u64,
    page: &mut Page,
) -> Result<(), Stop>
    requires now { now ≤ MAX_TICK }
    requires late { list_any (λ x. nat_eq x subscriber) end.now.log.state.late ≡ true }
{
    let answer = end.plan_join(subscriber, now)?;
    put_joined(alloc, page, &answer);
    Ok(())
}

/// Plans a join, and logs it.
fn log_planned(
    end: &mut Pubend,
    disk: &mut MemDisk,
    subscriber: u16,
    now: u64,
    page: &mut Page,
) -> Result<(), Stop>
    requires now { now ≤ MAX_TICK }
    requires late { list_any (λ x. nat_eq x subscriber) end.old.log.state.late ≡ true }
    requires stands { IsReady end.old.log (lanes_at (lane_at disk.old.lanes) end.old.log.lane) }
{
    let Joined::Logged { tick, fresh } = end.plan_join(subscriber, now)? else {
        page.push_str("not to be logged");
        return Ok(());
    };
    match end.log_join(disk, subscriber, tick, &fresh) {
        Ok(()) => page.push_str("logged"),
        Err(LogFault::Disk) => page.push_str("the disk failed"),
        Err(LogFault::Reopen) => page.push_str("reopen first"),
        Err(LogFault::Memory | LogFault::Damaged { .. }) => return Err(Stop::Memory),
    }
    Ok(())
}
