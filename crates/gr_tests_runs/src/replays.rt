//! Whole replays.

ghost use Rattle.gr_scenario.specs.Steps.{AreStepsOf};

use crate::words::{put_counted, size};
use gr_out::{MemDisk, MemSink, RunFault};
use gr_replay::replay;
use gr_scenario::{Asked, read};
use gr_sched::Steps;
use gr_tests_rows::{Page, Stop, number, parted, spelled};
use gr_topo::Topology;
use std::alloc::{AllocError, Global};

/// Answers the row `ROOM CALL SCENARIO`: what a replay of a scenario writes into a sink with so much room, where this
/// call of the disk fails; 0 for none.
pub fn answer(alloc: Global, row: &str, page: &mut Page) -> Result<(), Stop> {
    let (room, rest) = parted(row, " ")?;
    let (call, text) = parted(rest, " ")?;
    let (room, call) = (size(room)?, number(call)?);
    put_read(alloc, &spelled(alloc, text)?, room, call, page)
}

/// Prints what a replay of a text writes.
fn put_read(
    alloc: Global,
    text: &[u8],
    room: usize,
    call: u64,
    page: &mut Page,
) -> Result<(), Stop> {
    match read(alloc, text) {
        Ok(Asked::Scenario { topology, steps }) => {
            Ok(put_replay(alloc, topology, &steps, room, call, page)?)
        }
        Ok(Asked::TooManyBytes | Asked::TooManySteps | Asked::Refused(_)) => Err(Stop::NoRow),
        Err(_) => Err(Stop::Memory),
    }
}

/// Prints what a replay writes, and why it ended early.
fn put_replay(
    alloc: Global,
    topology: Topology,
    steps: &Steps,
    room: usize,
    call: u64,
    page: &mut Page,
) -> Result<(), AllocError>
    requires { AreStepsOf topology steps.now }
{
    let mut sink = MemSink::new(alloc, room, &[])?;
    let ended = replayed(alloc, topology, steps, call, &mut sink)?;
    page.push_lines(sink.bytes());
    put_end(ended, page);
    Ok(())
}

/// How a replay ended that writes into a sink.
fn replayed(
    alloc: Global,
    topology: Topology,
    steps: &Steps,
    call: u64,
    sink: &mut MemSink,
) -> Result<Result<(), RunFault>, AllocError>
    requires { AreStepsOf topology steps.now }
{
    let mut disk = MemDisk::new(alloc, &[call])?;
    Ok(replay(alloc, topology, steps, &mut disk, sink))
}

/// Prints how a run ended.
fn put_end(ended: Result<(), RunFault>, page: &mut Page) {
    match ended {
        Ok(()) => page.push_str("  done\n"),
        Err(RunFault::Memory) => page.tear(),
        Err(RunFault::Write) => page.push_str("  the sink failed\n"),
        Err(RunFault::Disk) => page.push_str("  the disk failed\n"),
        Err(RunFault::Damaged { publisher, at }) => put_damage(publisher, at, page),
        Err(RunFault::Post) => page.push_str("  the post failed\n"),
    }
}

/// Prints whose log is damaged, and where.
fn put_damage(publisher: u16, at: u64, page: &mut Page) {
    put_counted("  damaged ", u64::from(publisher), page);
    put_counted(" ", at, page);
    page.push('\n');
}
