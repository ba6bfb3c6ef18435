//! Logs on the lanes 0 and 1 of a disk in memory, as scripts.
//!
//! A script has lives: what stands before the first `open` is done to the disk alone, and each `open` begins a life of
//! the log, which ends at a `crash` or at the next `open`. An op on the first lane is `lane`, `stop` or `stopped`, and
//! one on the second lane `second`, `stop-second` or `stopped-second`.

ghost use Rattle.std.specs.Prelude.{◌≡◌, OnOk};
ghost use Rattle.gr_out.specs.Lane.{lane_at};
ghost use Rattle.gr_publog.specs.Views.{lanes_at, IsReady};

use crate::disks::{disk_of, put_stopped, stop};
use crate::frames::put_joins;
use crate::piece_text::{cut_numbers, event_of, put_event, put_known_run};
use crate::script::{NEXT, byte, cut_number, first_word, put_bytes, put_op, short, two_bytes};
use gr_event::MAX_JOINS;
use gr_know::Know;
use gr_out::{Disk, MemDisk, SimDisk};
use gr_pubend::known_by;
use gr_publog::{Entry, Log, LogFault, Record};
use gr_tests_rows::{Page, Stop, bytes, number};
use gr_tick::MAX_TICK;
use std::alloc::Global;

/// What stands before a life.
const OPEN: &str = " ; open";

/// What ends a life.
const CRASH: &str = " ; crash";

/// Answers a script: `failing CALLS ; lane BYTES ; stop CALLS PICK ; open ; event NUMBER TICK EVENT ; crash ; open`.
/// The subscribers that may join stand before it, as in `late 1,2 failing CALLS ; ..`, if any may.
pub fn lives(alloc: Global, row: &str, page: &mut Page) -> Result<(), Stop> {
    let (list, script) = cut_late(row);
    let late = late_of(alloc, list)?;
    let Some((made, lives)) = script.split_once(OPEN) else {
        return Err(Stop::NoRow);
    };
    lives_of(alloc, made, &late, lives, page)
}

/// The list of late subscribers that stands before a script, and the script: `late 1,2 SCRIPT`.
pub fn cut_late(row: &str) -> (&str, &str) {
    match row.strip_prefix("late ") {
        Some(rest) => first_word(rest),
        None => ("", row),
    }
}

/// The numbers of subscribers that a word lists, as `1,2`, or none.
pub fn late_of(alloc: Global, list: &str) -> Result<Vec<u16>, Stop> {
    let mut late = Vec::new(alloc);
    if !list.is_empty() {
        push_late(&mut late, list)?;
    }
    Ok(late)
}

/// Puts the numbers of subscribers that a word lists behind others.
fn push_late(late: &mut Vec<u16>, list: &str) -> Result<(), Stop> {
    for word in list.split(',') {
        let Some(subscriber) = short(word) else {
            return Err(Stop::NoRow);
        };
        late.push(subscriber)?;
    }
    Ok(())
}

/// Carries out what stands before the first life on a new disk, and then each life.
fn lives_of(
    alloc: Global,
    made: &str,
    late: &[u16],
    lives: &str,
    page: &mut Page,
) -> Result<(), Stop> {
    let (fails, ops) = made.split_once(NEXT).unwrap_or((made, ""));
    let mut disk = disk_of(alloc, fails)?;
    lives_on(alloc, &mut disk, late, ops, lives, page)
}

/// Carries out ops on the lane, and then each life.
fn lives_on(
    alloc: Global,
    disk: &mut MemDisk,
    late: &[u16],
    ops: &str,
    lives: &str,
    page: &mut Page,
) -> Result<(), Stop> {
    lane_ops(alloc, disk, ops, page)?;
    for life in lives.split(OPEN) {
        live(alloc, disk, late, life, page)?;
    }
    Ok(())
}

/// Opens the log, carries out the ops of its life, and then those behind its crash.
fn live(
    alloc: Global,
    disk: &mut MemDisk,
    late: &[u16],
    life: &str,
    page: &mut Page,
) -> Result<(), Stop> {
    match life.split_once(CRASH) {
        Some((ops, after)) => {
            open(alloc, disk, late, ops, page)?;
            disk.crash(0);
            disk.crash(1);
            put_lane(page, "crash", disk, 0);
            put_lane(page, "second", disk, 1);
            lane_ops(alloc, disk, after, page)
        }
        None => open(alloc, disk, late, life, page),
    }
}

/// Opens the log, and carries out the ops of its life. Where it does not open the ops are those of the lane.
fn open(
    alloc: Global,
    disk: &mut MemDisk,
    late: &[u16],
    ops: &str,
    page: &mut Page,
) -> Result<(), Stop> {
    if late.len() > MAX_JOINS {
        return Err(Stop::NoRow);
    }
    put_op(page, "open");
    match Log::open(alloc, disk, 0, late) {
        Ok(mut log) => {
            put_state(alloc, page, &log);
            page.push('\n');
            log_ops(alloc, &mut log, disk, ops, page)
        }
        Err(fault) => {
            put_fault(page, fault);
            page.push('\n');
            lane_ops(alloc, disk, ops, page)
        }
    }
}

/// Prints a fault by its word, with the place.
pub fn put_fault(page: &mut Page, fault: LogFault) {
    match fault {
        LogFault::Memory => page.tear(),
        LogFault::Disk => page.push_str("the disk failed"),
        LogFault::Damaged { at } => write!(page, "damaged at {at}"),
        LogFault::Reopen => page.push_str("reopen first"),
    }
}

/// Prints what a log says of itself, and its events.
fn put_state(alloc: Global, page: &mut Page, log: &Log) {
    put_counts(page, log);
    if log.is_empty() {
        page.push_str(", empty");
    }
    if log.is_broken() {
        page.push_str(", broken");
    }
    let events = log.events();
    for i in 0..events.len() {
        put_entry(alloc, page, events.get(i));
    }
}

/// Prints the last number of a log, up to which ticks it is settled and cut, and its joins, if it has any.
pub fn put_counts(page: &mut Page, log: &Log) {
    write!(page, "last {}", log.last());
    write!(page, " settled {}", log.settled());
    write!(page, " cut {}", log.cut());
    put_joins(page, log.joins().as_slice());
}

/// Prints a logged event.
fn put_entry(alloc: Global, page: &mut Page, entry: &Entry) {
    write!(page, ", {} at {} ", entry.number, entry.tick);
    put_event(alloc, page, &entry.event);
}

/// Prints what a lane reads.
fn put_lane(page: &mut Page, op: &str, disk: &MemDisk, lane: u16) {
    put_op(page, op);
    put_bytes(page, disk.lane(lane));
    page.push('\n');
}

/// What an op on a lane does, by its word, and to which of the two.
fn lane_named(word: &str) -> (&str, u16) {
    match word {
        "second" => ("lane", 1),
        "stop-second" => ("stop", 1),
        "stopped-second" => ("stopped", 1),
        _ => (word, 0),
    }
}

/// Carries out ops on the lanes alone.
fn lane_ops(alloc: Global, disk: &mut MemDisk, ops: &str, page: &mut Page) -> Result<(), Stop> {
    for op in ops.split(NEXT) {
        lane_op(alloc, disk, op, page)?;
    }
    Ok(())
}

/// Carries out an op on a lane alone, if there is one.
fn lane_op(alloc: Global, disk: &mut MemDisk, op: &str, page: &mut Page) -> Result<(), Stop> {
    if op.is_empty() {
        return Ok(());
    }
    let (word, rest) = first_word(op);
    let (call, lane) = lane_named(word);
    if call == "lane" && !rest.is_empty() {
        return fill(alloc, disk, lane, rest);
    }
    put_op(page, op);
    match call {
        "lane" => put_bytes(page, disk.lane(lane)),
        "stopped" => put_stopped(disk, lane, page),
        "stop" => stop(disk, lane, rest, page)?,
        _ => return Err(Stop::NoRow),
    }
    page.push('\n');
    Ok(())
}

/// Puts bytes on a lane.
pub fn fill(alloc: Global, disk: &mut MemDisk, lane: u16, text: &str) -> Result<(), Stop> {
    let bytes = bytes(alloc, text)?;
    Ok(disk.put(lane, &bytes)?)
}

/// Carries out the ops of a life.
fn log_ops(
    alloc: Global,
    log: &mut Log,
    disk: &mut MemDisk,
    ops: &str,
    page: &mut Page,
) -> Result<(), Stop>
    requires lane { log.old.lane ≡ 0 }
    requires stands { IsReady log.old (lanes_at (lane_at disk.old.lanes) 0) }
{
    for op in ops.split(NEXT) {
        if !op.is_empty() {
            put_op(page, op);
            log_op(alloc, log, disk, op, page)?;
            page.push('\n');
        }
    }
    Ok(())
}

/// Carries out an op on the log.
fn log_op(
    alloc: Global,
    log: &mut Log,
    disk: &mut MemDisk,
    op: &str,
    page: &mut Page,
) -> Result<(), Stop>
    requires lane { log.old.lane ≡ 0 }
    requires stands { IsReady log.old (lanes_at (lane_at disk.old.lanes) 0) }
    ensures lane { OnOk result (log.new.lane ≡ 0) }
    ensures stands { OnOk result (IsReady log.new (lanes_at (lane_at disk.new.lanes) 0)) }
{
    let (call, rest) = first_word(op);
    match call {
        "stop" => order(log, disk, false, rest, page),
        "stop-second" => order(log, disk, true, rest, page),
        "event" | "mark" | "cut" | "join" => log_record(alloc, log, disk, call, rest, page),
        "reclaim" => reclaim(log, disk, rest, page),
        _ => put_asked(alloc, log, disk, call, rest, page),
    }
}

/// Prints what an op asks that changes nothing.
fn put_asked(
    alloc: Global,
    log: &Log,
    disk: &MemDisk,
    call: &str,
    rest: &str,
    page: &mut Page,
) -> Result<(), Stop> {
    match call {
        "says" => put_state(alloc, page, log),
        "text" => put_text(page, log),
        "known" => put_known(alloc, page, log),
        "lane" => put_bytes(page, disk.lane(0)),
        "second" => put_bytes(page, disk.lane(1)),
        "stopped" => put_stopped(disk, 0, page),
        "stopped-second" => put_stopped(disk, 1, page),
        "follows" => return put_follows(alloc, log, rest, page),
        _ => return Err(Stop::NoRow),
    }
    Ok(())
}

/// Orders a stop of the first lane or of the second one: `CALLS PICK`.
fn order(
    log: &Log,
    disk: &mut MemDisk,
    second: bool,
    rest: &str,
    page: &mut Page,
) -> Result<(), Stop>
    requires lane { log.now.lane ≡ 0 }
    requires stands { IsReady log.now (lanes_at (lane_at disk.old.lanes) 0) }
    ensures stands { OnOk result (IsReady log.now (lanes_at (lane_at disk.new.lanes) 0)) }
{
    let _ = log.is_broken();
    let Some((calls, pick)) = two_bytes(rest) else {
        return Err(Stop::NoRow);
    };
    page.push_str("ordered");
    stop_lane(log, disk, second, calls, pick)
}

/// Orders a stop of the first lane or of the second one.
pub fn stop_lane(
    log: &Log,
    disk: &mut MemDisk,
    second: bool,
    calls: u8,
    pick: u8,
) -> Result<(), Stop>
    requires stands { IsReady log.now (lanes_at (lane_at disk.old.lanes) 0) }
    ensures stands { OnOk result (IsReady log.now (lanes_at (lane_at disk.new.lanes) 0)) }
{
    let _ = log.is_broken();
    if second {
        disk.reserve(1, 0)?;
        disk.stop_after(1, calls, pick);
        return Ok(());
    }
    disk.reserve(0, 0)?;
    disk.stop_after(0, calls, pick);
    Ok(())
}

/// The record of a word: `event NUMBER TICK EVENT`, `mark TICK`, `cut TICK` or `join TICK SUBSCRIBER`.
fn record_of(alloc: Global, kind: &str, rest: &str) -> Result<Record, Stop> {
    match kind {
        "event" => event_record(alloc, rest),
        "join" => join_record(rest),
        _ => tick_record(kind, rest),
    }
}

/// The record of a tick alone.
fn tick_record(kind: &str, rest: &str) -> Result<Record, Stop> {
    let Ok(tick) = number(rest) else {
        return Err(Stop::NoRow);
    };
    match kind {
        "mark" => Ok(Record::Mark { tick }),
        "cut" => Ok(Record::Cut { tick }),
        _ => Err(Stop::NoRow),
    }
}

/// The record of an event: `NUMBER TICK EVENT`.
fn event_record(alloc: Global, rest: &str) -> Result<Record, Stop> {
    let Some((number, tick, text)) = cut_numbers(rest) else {
        return Err(Stop::NoRow);
    };
    let event = event_of(alloc, text)?;
    Ok(Record::Event {
        tick,
        number,
        event,
    })
}

/// The record of a join: `TICK SUBSCRIBER`.
fn join_record(rest: &str) -> Result<Record, Stop> {
    let Some((tick, word)) = cut_number(rest) else {
        return Err(Stop::NoRow);
    };
    let Some(subscriber) = short(word) else {
        return Err(Stop::NoRow);
    };
    Ok(Record::Join { tick, subscriber })
}

/// Prints whether a record may follow.
fn put_follows(alloc: Global, log: &Log, rest: &str, page: &mut Page) -> Result<(), Stop> {
    let Some((kind, rest)) = rest.split_once(' ') else {
        return Err(Stop::NoRow);
    };
    let entry = record_of(alloc, kind, rest)?;
    write!(page, "{}", log.may_follow(&entry));
    Ok(())
}

/// Appends the record of a word, where it may follow.
fn log_record(
    alloc: Global,
    log: &mut Log,
    disk: &mut MemDisk,
    kind: &str,
    rest: &str,
    page: &mut Page,
) -> Result<(), Stop>
    requires lane { log.old.lane ≡ 0 }
    requires stands { IsReady log.old (lanes_at (lane_at disk.old.lanes) 0) }
    ensures lane { OnOk result (log.new.lane ≡ 0) }
    ensures stands { OnOk result (IsReady log.new (lanes_at (lane_at disk.new.lanes) 0)) }
{
    let entry = record_of(alloc, kind, rest)?;
    append(log, disk, &entry, page)
}

/// Appends a record, where it may follow.
fn append(log: &mut Log, disk: &mut MemDisk, entry: &Record, page: &mut Page) -> Result<(), Stop>
    requires lane { log.old.lane ≡ 0 }
    requires stands { IsReady log.old (lanes_at (lane_at disk.old.lanes) 0) }
    ensures lane { OnOk result (log.new.lane ≡ 0) }
    ensures stands { OnOk result (IsReady log.new (lanes_at (lane_at disk.new.lanes) 0)) }
{
    if !log.may_follow(entry) {
        page.push_str("may not follow");
        return Ok(());
    }
    match log.append(disk, entry) {
        Ok(()) => page.push_str("logged"),
        Err(LogFault::Disk) => page.push_str("the disk failed"),
        Err(LogFault::Reopen) => page.push_str("reopen first"),
        Err(LogFault::Memory | LogFault::Damaged { .. }) => return Err(Stop::Memory),
    }
    Ok(())
}

/// Cuts the log at a tick by writing it anew, where it may.
fn reclaim(log: &mut Log, disk: &mut MemDisk, rest: &str, page: &mut Page) -> Result<(), Stop>
    requires lane { log.old.lane ≡ 0 }
    requires stands { IsReady log.old (lanes_at (lane_at disk.old.lanes) 0) }
    ensures lane { OnOk result (log.new.lane ≡ 0) }
    ensures stands { OnOk result (IsReady log.new (lanes_at (lane_at disk.new.lanes) 0)) }
{
    let tick = number(rest)?;
    if tick <= log.cut() || log.settled() < tick || log.generation() >= MAX_TICK {
        page.push_str("may not reclaim");
        return Ok(());
    }
    match log.reclaim(disk, tick) {
        Ok(generation) => write!(page, "reclaimed as {generation}"),
        Err(LogFault::Disk) => page.push_str("the disk failed"),
        Err(LogFault::Reopen) => page.push_str("reopen first"),
        Err(LogFault::Memory | LogFault::Damaged { .. }) => return Err(Stop::Memory),
    }
    Ok(())
}

/// Prints how long the text of the present lane is, and its generation.
pub fn put_text(page: &mut Page, log: &Log) {
    write!(page, "{} bytes", log.text_size());
    write!(page, " of generation {}", log.generation());
}

/// Prints what is known by a log.
fn put_known(alloc: Global, page: &mut Page, log: &Log) {
    match known_by(alloc, log) {
        Ok(know) => put_runs(alloc, page, &know),
        Err(_) => page.tear(),
    }
}

/// Prints how many runs there are, and each.
pub fn put_runs(alloc: Global, page: &mut Page, know: &Know) {
    write!(page, "{} runs", know.len());
    for i in 0..know.len() {
        put_known_run(alloc, page, know.run(i));
    }
}

/// Answers which picks keep a record whose append an ordered stop breaks: `CALL NUMBER TICK EVENT`.
pub fn picks(alloc: Global, row: &str, page: &mut Page) -> Result<(), Stop> {
    let Some((call, rest)) = row.split_once(' ') else {
        return Err(Stop::NoRow);
    };
    let Some(call) = byte(call) else {
        return Err(Stop::NoRow);
    };
    let entry = event_record(alloc, rest)?;
    put_picks(alloc, call, &entry, page)
}

/// Prints which picks keep a record whose append an ordered stop breaks.
fn put_picks(alloc: Global, call: u8, entry: &Record, page: &mut Page) -> Result<(), Stop> {
    page.push_str("  kept by");
    for pick in 0..=255u8 {
        if is_kept(alloc, call, pick, entry)? {
            write!(page, " {pick}");
        }
    }
    page.push('\n');
    Ok(())
}

/// Whether a record is in the log after a crash with a pick, where a stop breaks the call of its append.
fn is_kept(alloc: Global, call: u8, pick: u8, entry: &Record) -> Result<bool, Stop> {
    let mut disk = MemDisk::new(alloc, &[])?;
    append_stopped(alloc, &mut disk, call, pick, entry)?;
    is_logged(alloc, &mut disk)
}

/// Whether a record is in the log after a crash, where a stop has broken a call.
fn is_logged(alloc: Global, disk: &mut MemDisk) -> Result<bool, Stop> {
    if !disk.stopped(0) {
        return Err(Stop::NoRow);
    }
    disk.crash(0);
    disk.crash(1);
    match Log::open(alloc, disk, 0, &[]) {
        Ok(log) => Ok(log.last() == 1),
        Err(_) => Err(Stop::NoRow),
    }
}

/// Appends a record to an empty log, where a stop is to break a call.
fn append_stopped(
    alloc: Global,
    disk: &mut MemDisk,
    call: u8,
    pick: u8,
    entry: &Record,
) -> Result<(), Stop> {
    let Ok(mut log) = Log::open(alloc, disk, 0, &[]) else {
        return Err(Stop::NoRow);
    };
    stop_lane(&log, disk, false, call, pick)?;
    if !log.may_follow(entry) {
        return Err(Stop::NoRow);
    }
    match log.append(disk, entry) {
        Err(LogFault::Disk) => Ok(()),
        _ => Err(Stop::NoRow),
    }
}

/// Calls the laws of logs, whose contracts they are.
pub fn laws(page: &mut Page) {
    gr_out::law::may_leave_what_it_reads();
    gr_publog::law::reads_what_is_spelled();
    gr_publog::law::spells_what_is_read();
    gr_publog::law::holds_what_is_found();
    gr_publog::law::stays_a_state();
    gr_publog::law::stands_for();
    gr_publog::law::stands_read();
    gr_publog::law::stands_found();
    gr_publog::law::last_tick_of_logs();
    gr_publog::law::last_gate_of_logs();
    page.push_str("  hold\n");
}
