//! Endpoints of publishers on the lanes 0 and 1 of a disk in memory, as scripts.

ghost use Rattle.std.specs.Prelude.{OnOk};
ghost use Rattle.gr_out.specs.Lane.{lane_at};
ghost use Rattle.gr_publog.specs.Views.{lanes_at, IsReady};

use crate::disks::disk_of;
use crate::logs::{fill, put_counts, put_fault, put_runs, put_text};
use crate::piece_text::{cut_numbers, event_of, put_known};
use crate::script::{NEXT, cut_number, first_word, put_bytes, put_op, two_numbers};
use gr_event::Event;
use gr_out::MemDisk;
use gr_pubend::{Cutting, Pubend, Published, Quieted, plan, plan_quiet};
use gr_publog::LogFault;
use gr_tests_rows::{Page, Stop};
use gr_tick::MAX_TICK;
use std::alloc::Global;

/// Answers a script: `failing CALLS lane BYTES ; publish NUMBER NOW EVENT ; quiet NOW QUIET ; known ; ..`.
/// `cut TICK RECLAIM` cuts with this setting.
pub fn calls(alloc: Global, row: &str, page: &mut Page) -> Result<(), Stop> {
    let Some((made, ops)) = row.split_once(NEXT) else {
        return Err(Stop::NoRow);
    };
    let Some((fails, lane)) = made.split_once(" lane") else {
        return Err(Stop::NoRow);
    };
    let mut disk = disk_of(alloc, fails)?;
    calls_on(alloc, &mut disk, lane, ops, page)
}

/// Puts bytes on the lane, opens the endpoint, and carries out ops.
fn calls_on(
    alloc: Global,
    disk: &mut MemDisk,
    lane: &str,
    ops: &str,
    page: &mut Page,
) -> Result<(), Stop> {
    fill(alloc, disk, 0, lane)?;
    open(alloc, disk, ops, page)
}

/// Opens the endpoint, and carries out ops.
fn open(alloc: Global, disk: &mut MemDisk, ops: &str, page: &mut Page) -> Result<(), Stop> {
    match Pubend::open(alloc, disk, 0, &[]) {
        Ok(mut end) => end_ops(alloc, &mut end, disk, ops, page),
        Err(fault) => {
            put_op(page, "open");
            put_fault(page, fault);
            page.push('\n');
            Ok(())
        }
    }
}

/// Carries out ops.
fn end_ops(
    alloc: Global,
    end: &mut Pubend,
    disk: &mut MemDisk,
    ops: &str,
    page: &mut Page,
) -> Result<(), Stop>
    requires stands { IsReady end.old.log (lanes_at (lane_at disk.old.lanes) end.old.log.lane) }
{
    for op in ops.split(NEXT) {
        put_op(page, op);
        end_op(alloc, end, disk, op, page)?;
        page.push('\n');
    }
    Ok(())
}

/// Carries out an op.
fn end_op(
    alloc: Global,
    end: &mut Pubend,
    disk: &mut MemDisk,
    op: &str,
    page: &mut Page,
) -> Result<(), Stop>
    requires stands { IsReady end.old.log (lanes_at (lane_at disk.old.lanes) end.old.log.lane) }
    ensures stands { OnOk result (IsReady end.new.log (lanes_at (lane_at disk.new.lanes) end.new.log.lane)) }
{
    let (call, rest) = first_word(op);
    match call {
        "publish" => publish(alloc, end, disk, rest, page),
        "log-event" => log_event(alloc, end, disk, rest, page),
        "quiet" => quiet(alloc, end, disk, rest, page),
        "log-mark" => log_mark(end, disk, rest, page),
        "cut" => cut(end, disk, rest, page),
        _ => put_asked(alloc, end, disk, call, rest, page),
    }
}

/// Prints what an op asks that changes nothing.
fn put_asked(
    alloc: Global,
    end: &Pubend,
    disk: &MemDisk,
    call: &str,
    rest: &str,
    page: &mut Page,
) -> Result<(), Stop> {
    match call {
        "plan" => return put_plan(alloc, end, rest, page),
        "plan-quiet" => return put_plan_quiet(alloc, end, rest, page),
        "known" => put_runs(alloc, page, end.know()),
        "log" => put_counts(page, end.log()),
        "text" => put_text(page, end.log()),
        "lane" => put_bytes(page, disk.lane(0)),
        "second" => put_bytes(page, disk.lane(1)),
        _ => return Err(Stop::NoRow),
    }
    Ok(())
}

/// Publishes an event: `NUMBER NOW EVENT`.
fn publish(
    alloc: Global,
    end: &mut Pubend,
    disk: &mut MemDisk,
    rest: &str,
    page: &mut Page,
) -> Result<(), Stop>
    requires stands { IsReady end.old.log (lanes_at (lane_at disk.old.lanes) end.old.log.lane) }
    ensures stands { OnOk result (IsReady end.new.log (lanes_at (lane_at disk.new.lanes) end.new.log.lane)) }
{
    let Some((number, now, text)) = cut_numbers(rest) else {
        return Err(Stop::NoRow);
    };
    let event = event_of(alloc, text)?;
    publish_event(alloc, end, disk, number, now, &event, page)
}

/// Publishes an event under a number.
fn publish_event(
    alloc: Global,
    end: &mut Pubend,
    disk: &mut MemDisk,
    number: u64,
    now: u64,
    event: &Event,
    page: &mut Page,
) -> Result<(), Stop>
    requires stands { IsReady end.old.log (lanes_at (lane_at disk.old.lanes) end.old.log.lane) }
    ensures stands { OnOk result (IsReady end.new.log (lanes_at (lane_at disk.new.lanes) end.new.log.lane)) }
{
    if now > MAX_TICK {
        return Err(Stop::NoRow);
    }
    match end.publish(disk, number, event, now) {
        Ok(answer) => put_published(alloc, page, &answer),
        Err(LogFault::Disk) => page.push_str("the disk failed"),
        Err(LogFault::Reopen) => page.push_str("reopen first"),
        Err(LogFault::Memory | LogFault::Damaged { .. }) => return Err(Stop::Memory),
    }
    Ok(())
}

/// Prints what a publish is answered.
fn put_published(alloc: Global, page: &mut Page, answer: &Published) {
    match answer {
        Published::Logged { tick, fresh } => {
            write!(page, "logged at {tick}, new");
            put_known(alloc, page, fresh);
        }
        Published::Already => page.push_str("already"),
        Published::Gap { next } => write!(page, "gap, next is {next}"),
        Published::Exhausted => page.push_str("exhausted"),
    }
}

/// Prints what a publish would be answered: `NUMBER NOW EVENT`.
fn put_plan(alloc: Global, end: &Pubend, rest: &str, page: &mut Page) -> Result<(), Stop> {
    let Some((number, now, text)) = cut_numbers(rest) else {
        return Err(Stop::NoRow);
    };
    let event = event_of(alloc, text)?;
    put_planned(alloc, end, number, now, &event, page)
}

/// Prints what a publish of an event would be answered.
fn put_planned(
    alloc: Global,
    end: &Pubend,
    number: u64,
    now: u64,
    event: &Event,
    page: &mut Page,
) -> Result<(), Stop> {
    if now > MAX_TICK {
        return Err(Stop::NoRow);
    }
    match plan(alloc, end.log(), number, event, now) {
        Ok(answer) => put_published(alloc, page, &answer),
        Err(_) => page.tear(),
    }
    Ok(())
}

/// Plans a publish, and logs its event: `NUMBER NOW EVENT`.
fn log_event(
    alloc: Global,
    end: &mut Pubend,
    disk: &mut MemDisk,
    rest: &str,
    page: &mut Page,
) -> Result<(), Stop>
    requires stands { IsReady end.old.log (lanes_at (lane_at disk.old.lanes) end.old.log.lane) }
    ensures stands { OnOk result (IsReady end.new.log (lanes_at (lane_at disk.new.lanes) end.new.log.lane)) }
{
    let Some((number, now, text)) = cut_numbers(rest) else {
        return Err(Stop::NoRow);
    };
    let event = event_of(alloc, text)?;
    log_planned(end, disk, number, now, &event, page)
}

/// Plans a publish, and logs its event.
fn log_planned(
    end: &mut Pubend,
    disk: &mut MemDisk,
    number: u64,
    now: u64,
    event: &Event,
    page: &mut Page,
) -> Result<(), Stop>
    requires stands { IsReady end.old.log (lanes_at (lane_at disk.old.lanes) end.old.log.lane) }
    ensures stands { OnOk result (IsReady end.new.log (lanes_at (lane_at disk.new.lanes) end.new.log.lane)) }
{
    if now > MAX_TICK {
        return Err(Stop::NoRow);
    }
    let Published::Logged { tick, fresh } = end.plan(number, event, now)? else {
        page.push_str("not to be logged");
        return Ok(());
    };
    match end.log_event(disk, number, event, tick, &fresh) {
        Ok(()) => page.push_str("logged"),
        Err(LogFault::Disk) => page.push_str("the disk failed"),
        Err(LogFault::Reopen) => page.push_str("reopen first"),
        Err(LogFault::Memory | LogFault::Damaged { .. }) => return Err(Stop::Memory),
    }
    Ok(())
}

/// Marks a silence: `NOW QUIET`.
fn quiet(
    alloc: Global,
    end: &mut Pubend,
    disk: &mut MemDisk,
    rest: &str,
    page: &mut Page,
) -> Result<(), Stop>
    requires stands { IsReady end.old.log (lanes_at (lane_at disk.old.lanes) end.old.log.lane) }
    ensures stands { OnOk result (IsReady end.new.log (lanes_at (lane_at disk.new.lanes) end.new.log.lane)) }
{
    let Some((now, quiet)) = two_numbers(rest) else {
        return Err(Stop::NoRow);
    };
    if now > MAX_TICK || quiet < 1 {
        return Err(Stop::NoRow);
    }
    match end.quiet(disk, now, quiet) {
        Ok(answer) => put_quieted(alloc, page, &answer),
        Err(LogFault::Disk) => page.push_str("the disk failed"),
        Err(LogFault::Reopen) => page.push_str("reopen first"),
        Err(LogFault::Memory | LogFault::Damaged { .. }) => return Err(Stop::Memory),
    }
    Ok(())
}

/// Prints what a time of silence is answered.
fn put_quieted(alloc: Global, page: &mut Page, answer: &Quieted) {
    match answer {
        Quieted::Marked { tick, fresh } => {
            write!(page, "marked at {tick}, new");
            put_known(alloc, page, fresh);
        }
        Quieted::NotYet => page.push_str("not yet"),
    }
}

/// Prints what a time of silence would be answered: `NOW QUIET`.
fn put_plan_quiet(alloc: Global, end: &Pubend, rest: &str, page: &mut Page) -> Result<(), Stop> {
    let Some((now, quiet)) = two_numbers(rest) else {
        return Err(Stop::NoRow);
    };
    if now > MAX_TICK || quiet < 1 {
        return Err(Stop::NoRow);
    }
    match plan_quiet(alloc, end.log(), now, quiet) {
        Ok(answer) => put_quieted(alloc, page, &answer),
        Err(_) => page.tear(),
    }
    Ok(())
}

/// Plans a mark, and logs it: `NOW QUIET`.
fn log_mark(end: &mut Pubend, disk: &mut MemDisk, rest: &str, page: &mut Page) -> Result<(), Stop>
    requires stands { IsReady end.old.log (lanes_at (lane_at disk.old.lanes) end.old.log.lane) }
    ensures stands { OnOk result (IsReady end.new.log (lanes_at (lane_at disk.new.lanes) end.new.log.lane)) }
{
    let Some((now, quiet)) = two_numbers(rest) else {
        return Err(Stop::NoRow);
    };
    if now > MAX_TICK || quiet < 1 {
        return Err(Stop::NoRow);
    }
    let Quieted::Marked { tick, fresh } = end.plan_quiet(now, quiet)? else {
        page.push_str("not yet");
        return Ok(());
    };
    match end.log_mark(disk, tick, &fresh) {
        Ok(()) => page.push_str("marked"),
        Err(LogFault::Disk) => page.push_str("the disk failed"),
        Err(LogFault::Reopen) => page.push_str("reopen first"),
        Err(LogFault::Memory | LogFault::Damaged { .. }) => return Err(Stop::Memory),
    }
    Ok(())
}

/// Cuts up to a tick, where it may be cut: `TICK RECLAIM`.
fn cut(end: &mut Pubend, disk: &mut MemDisk, rest: &str, page: &mut Page) -> Result<(), Stop>
    requires stands { IsReady end.old.log (lanes_at (lane_at disk.old.lanes) end.old.log.lane) }
    ensures stands { OnOk result (IsReady end.new.log (lanes_at (lane_at disk.new.lanes) end.new.log.lane)) }
{
    let Some((tick, word)) = cut_number(rest) else {
        return Err(Stop::NoRow);
    };
    let Ok(reclaim) = word.parse::<u32>() else {
        return Err(Stop::NoRow);
    };
    if tick <= end.log().cut() || end.log().settled() < tick {
        page.push_str("may not be cut");
        return Ok(());
    }
    match end.cut_to(disk, tick, reclaim) {
        Ok(Cutting::Recorded) => page.push_str("cut"),
        Ok(Cutting::Reclaimed { generation }) => write!(page, "reclaimed as {generation}"),
        Err(LogFault::Disk) => page.push_str("the disk failed"),
        Err(LogFault::Reopen) => page.push_str("reopen first"),
        Err(LogFault::Memory | LogFault::Damaged { .. }) => return Err(Stop::Memory),
    }
    Ok(())
}

/// Calls the laws of endpoints, whose contracts they are.
pub fn laws(page: &mut Page) {
    gr_pubend::law::said_is_settled();
    gr_pubend::law::said_goes_on();
    page.push_str("  hold\n");
}
