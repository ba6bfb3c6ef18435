//! Openings and reclaimings of logs on the lanes 0 and 1 of a disk in memory, stopped at each of their calls: what is
//! found behind the crash.

ghost use Rattle.std.specs.Prelude.{◌≤◌, length};
ghost use Rattle.gr_event.specs.declared.limits.TheConstants.{MAX_JOINS};

use crate::logs::{cut_late, late_of, stop_lane};
use crate::script::{cut_number, first_word};
use gr_event::MAX_JOINS;
use gr_out::{Disk, MemDisk, SimDisk};
use gr_publog::{Log, LogFault};
use gr_tests_rows::{Page, Stop, bytes};
use gr_tick::MAX_TICK;
use std::alloc::Global;

/// Up to which call of a lane a stop is ordered.
const CALLS: u8 = 9;

/// The images that are picked.
const PICKS: [u8; 3] = [0, 1, 205];

/// Two lanes, the subscribers that may join, and the tick up to which the log is to be reclaimed; 0 where it is only
/// opened.
#[derive(Drop)]
struct Given {
    late: Vec<u16>,
    first: Vec<u8>,
    second: Vec<u8>,
    tick: u64,
}

/// A stop of one of the two lanes.
#[derive(Clone, Copy)]
struct Order {
    second: bool,
    calls: u8,
    pick: u8,
}

/// What a log that was opened says of itself.
#[derive(Clone, Copy)]
struct Found {
    last: u64,
    settled: u64,
    cut: u64,
    events: usize,
    joins: usize,
}

impl Found {
    /// Whether another log says the same.
    fn same(&self, other: &Found) -> bool {
        self.last == other.last
            && self.settled == other.settled
            && self.cut == other.cut
            && self.events == other.events
            && self.joins == other.joins
    }
}

/// How many attempts left what was held before, what was to be held, and anything else.
#[derive(Clone, Copy)]
struct Counts {
    before: u32,
    after: u32,
    other: u32,
}

impl Counts {
    /// Counts one more.
    fn count(&mut self, letter: char) {
        match letter {
            'b' => self.before = self.before.wrapping_add(1),
            'a' => self.after = self.after.wrapping_add(1),
            _ => self.other = self.other.wrapping_add(1),
        }
    }
}

/// Answers `late 1,2 TICK FIRST SECOND`, where the bytes of a lane may be `-`: a letter for each call of a lane that is
/// stopped, `b` where the log is found as before, `a` where it is cut, `-` where the stop broke no call, and `x` else.
/// Where it is as before, a second attempt is stopped at each call of each lane, too.
pub fn answer(alloc: Global, row: &str, page: &mut Page) -> Result<(), Stop> {
    let (list, rest) = cut_late(row);
    let late = late_of(alloc, list)?;
    let Some((tick, rest)) = cut_number(rest) else {
        return Err(Stop::NoRow);
    };
    let (first, second) = first_word(rest);
    let given = Given {
        late,
        first: lane_of(alloc, first)?,
        second: lane_of(alloc, second)?,
        tick,
    };
    if given.late.len() > MAX_JOINS {
        return Err(Stop::NoRow);
    }
    stops_of(alloc, &given, page)
}

/// The bytes of a lane, or none.
fn lane_of(alloc: Global, word: &str) -> Result<Vec<u8>, Stop> {
    match word {
        "-" => Ok(Vec::new(alloc)),
        _ => bytes(alloc, word),
    }
}

/// Prints what is left behind each stop, and then counts the second attempts.
fn stops_of(alloc: Global, given: &Given, page: &mut Page) -> Result<(), Stop>
    requires few { length given.now.late.items ≤ MAX_JOINS }
{
    let before = open_without(alloc, given, 0)?;
    let after = open_without(alloc, given, given.tick)?;
    let mut counts = Counts {
        before: 0,
        after: 0,
        other: 0,
    };
    put_stops(alloc, given, false, &before, &after, &mut counts, page)?;
    put_stops(alloc, given, true, &before, &after, &mut counts, page)?;
    page.push_str("  second attempts: ");
    put_counts(page, &counts);
    page.push('\n');
    Ok(())
}

/// Prints how many attempts left what.
fn put_counts(page: &mut Page, counts: &Counts) {
    write!(page, "{} before", counts.before);
    write!(page, ", {} after", counts.after);
    write!(page, ", {} else", counts.other);
}

/// Prints a line for each pick, with what is left behind each stop of a lane.
fn put_stops(
    alloc: Global,
    given: &Given,
    second: bool,
    before: &Found,
    after: &Found,
    counts: &mut Counts,
    page: &mut Page,
) -> Result<(), Stop>
    requires few { length given.now.late.items ≤ MAX_JOINS }
{
    for pick in PICKS {
        page.push_str(if second { "  second" } else { "  first" });
        write!(page, " {pick}: ");
        for calls in 1..=CALLS {
            let order = Order {
                second,
                calls,
                pick,
            };
            put_stop(alloc, given, order, before, after, counts, page)?;
        }
        page.push('\n');
    }
    Ok(())
}

/// Prints what is left behind a stop. Where it is what was held before, the second attempts are counted.
fn put_stop(
    alloc: Global,
    given: &Given,
    order: Order,
    before: &Found,
    after: &Found,
    counts: &mut Counts,
    page: &mut Page,
) -> Result<(), Stop>
    requires few { length given.now.late.items ≤ MAX_JOINS }
{
    let mut disk = disk_of(alloc, given)?;
    let broke = attempt(alloc, &mut disk, given, order)?;
    if !broke {
        page.push('-');
        return Ok(());
    }
    let letter = letter(&open_again(alloc, &mut disk, given)?, before, after);
    page.push(letter);
    if letter == 'b' {
        count_again(alloc, given, order, false, before, after, counts)?;
        count_again(alloc, given, order, true, before, after, counts)?;
    }
    Ok(())
}

/// Counts what is left behind second attempts, stopped at each call of a lane.
fn count_again(
    alloc: Global,
    given: &Given,
    order: Order,
    second: bool,
    before: &Found,
    after: &Found,
    counts: &mut Counts,
) -> Result<(), Stop>
    requires few { length given.now.late.items ≤ MAX_JOINS }
{
    for pick in PICKS {
        for calls in 1..=CALLS {
            let next = Order {
                second,
                calls,
                pick,
            };
            let mut disk = disk_of(alloc, given)?;
            attempt(alloc, &mut disk, given, order)?;
            attempt(alloc, &mut disk, given, next)?;
            counts.count(letter(&open_again(alloc, &mut disk, given)?, before, after));
        }
    }
    Ok(())
}

/// A disk with the two lanes.
fn disk_of(alloc: Global, given: &Given) -> Result<MemDisk, Stop> {
    let mut disk = MemDisk::new(alloc, &[])?;
    disk.put(0, &given.first)?;
    disk.put(1, &given.second)?;
    Ok(disk)
}

/// Opens the log, and reclaims it where that is to be done, with a stop of a lane. Then both lanes crash. Answers
/// whether the stop broke a call.
fn attempt(alloc: Global, disk: &mut MemDisk, given: &Given, order: Order) -> Result<bool, Stop>
    requires few { length given.now.late.items ≤ MAX_JOINS }
{
    if given.tick == 0 {
        open_stopped(alloc, disk, given, order)?;
    } else {
        reclaim_stopped(alloc, disk, given, given.tick, order)?;
    }
    let broke = disk.stopped(if order.second { 1 } else { 0 });
    disk.crash(0);
    disk.crash(1);
    Ok(broke)
}

/// Opens the log, with a stop of a lane.
fn open_stopped(alloc: Global, disk: &mut MemDisk, given: &Given, order: Order) -> Result<(), Stop>
    requires few { length given.now.late.items ≤ MAX_JOINS }
{
    let lane = if order.second { 1 } else { 0 };
    disk.reserve(lane, 0)?;
    disk.stop_after(lane, order.calls, order.pick);
    match Log::open(alloc, disk, 0, &given.late) {
        Ok(_) => Ok(()),
        Err(LogFault::Disk) => Ok(()),
        Err(_) => Err(Stop::NoRow),
    }
}

/// Opens the log, and reclaims it up to a tick, with a stop of a lane.
fn reclaim_stopped(
    alloc: Global,
    disk: &mut MemDisk,
    given: &Given,
    tick: u64,
    order: Order,
) -> Result<(), Stop>
    requires few { length given.now.late.items ≤ MAX_JOINS }
{
    let Ok(mut log) = Log::open(alloc, disk, 0, &given.late) else {
        return Err(Stop::NoRow);
    };
    if tick <= log.cut() || log.settled() < tick || log.generation() >= MAX_TICK {
        return Err(Stop::NoRow);
    }
    stop_lane(&log, disk, order.second, order.calls, order.pick)?;
    match log.reclaim(disk, tick) {
        Ok(_) => Ok(()),
        Err(LogFault::Disk) => Ok(()),
        Err(_) => Err(Stop::NoRow),
    }
}

/// What the log says that is opened then.
fn open_again(alloc: Global, disk: &mut MemDisk, given: &Given) -> Result<Found, Stop>
    requires few { length given.now.late.items ≤ MAX_JOINS }
{
    let Ok(log) = Log::open(alloc, disk, 0, &given.late) else {
        return Err(Stop::NoRow);
    };
    Ok(Found {
        last: log.last(),
        settled: log.settled(),
        cut: log.cut(),
        events: log.events().len(),
        joins: log.joins().len(),
    })
}

/// What the log says without a stop: as it is opened, and, up to a tick, reclaimed.
fn open_without(alloc: Global, given: &Given, tick: u64) -> Result<Found, Stop>
    requires few { length given.now.late.items ≤ MAX_JOINS }
{
    let mut disk = disk_of(alloc, given)?;
    if tick != 0 {
        let order = Order {
            second: false,
            calls: 0,
            pick: 0,
        };
        reclaim_stopped(alloc, &mut disk, given, tick, order)?;
    }
    open_again(alloc, &mut disk, given)
}

/// What is found, as a letter.
fn letter(found: &Found, before: &Found, after: &Found) -> char {
    if found.same(before) {
        return 'b';
    }
    if found.same(after) {
        return 'a';
    }
    'x'
}
