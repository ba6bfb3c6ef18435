//! The lines of a report over the blank topology: brokers A (0) and B (1), publisher P (0) and subscriber S (0).

ghost use Rattle.std.specs.Prelude.{◌≡◌};
ghost use Rattle.gr_topo.specs.Topology.{blank};

use crate::report_lines::report;
use crate::words::{put_counted, size};
use gr_model::{Report, Reports};
use gr_out::MemSink;
use gr_report_text::{PutFault, put};
use gr_tests_rows::{Page, Stop, parted};
use gr_topo::Topology;
use std::alloc::{AllocError, Global};

/// Answers a row about lines of a report, each a word and the numbers of its fields.
pub fn answer(alloc: Global, row: &str, page: &mut Page) -> Result<(), Stop> {
    let (call, rest) = parted(row, " ")?;
    match call {
        "print" => print(alloc, 200, rest, page),
        "room" => print_within(alloc, rest, page),
        "list" => list(alloc, rest, page),
        _ => Err(Stop::NoRow),
    }
}

/// Prints what a sink takes of lines behind a number, which is its room.
fn print_within(alloc: Global, row: &str, page: &mut Page) -> Result<(), Stop> {
    let (room, lines) = parted(row, " ")?;
    print(alloc, size(room)?, lines, page)
}

/// Prints what a sink with so much room takes of lines with ` ; ` between them, and how many came before it failed.
fn print(alloc: Global, room: usize, lines: &str, page: &mut Page) -> Result<(), Stop> {
    let mut sink = MemSink::new(alloc, room, &[])?;
    let failed = put_lines(alloc, lines, &mut sink)?;
    page.push_lines(sink.bytes());
    if let Some(before) = failed {
        put_counted("  the sink failed after ", before as u64, page);
        page.push('\n');
    }
    Ok(())
}

/// Puts lines into a sink; how many came before it failed, if it did.
fn put_lines(alloc: Global, lines: &str, sink: &mut MemSink) -> Result<Option<usize>, Stop> {
    let topology = Topology::blank(alloc)?;
    let mut failed = None;
    for (i, line) in lines.split(" ; ").enumerate() {
        if !put_line(alloc, line, &topology, sink)? && failed.is_none() {
            failed = Some(i);
        }
    }
    Ok(failed)
}

/// Puts a line into a sink; whether the sink took it.
fn put_line(
    alloc: Global,
    line: &str,
    topology: &Topology,
    sink: &mut MemSink,
) -> Result<bool, Stop>
    requires { topology.now ≡ blank }
{
    let report = report(alloc, line)?;
    match put(alloc, &report, topology, sink) {
        Ok(()) => Ok(true),
        Err(PutFault::Write) => Ok(false),
        Err(PutFault::Memory) => Err(Stop::Memory),
    }
}

/// Puts lines into a list, moves them behind the lines of another, and drops them.
fn list(alloc: Global, lines: &str, page: &mut Page) -> Result<(), Stop> {
    let mut others = listed(alloc, lines)?;
    Ok(put_moved(alloc, &mut others, page)?)
}

/// The list of lines with ` ; ` between them.
fn listed(alloc: Global, lines: &str) -> Result<Reports, Stop> {
    let mut reports = Reports::new(alloc);
    for line in lines.split(" ; ") {
        reports.push(report(alloc, line)?)?;
    }
    Ok(reports)
}

/// Moves lines behind the line of another list, and drops them.
fn put_moved(alloc: Global, others: &mut Reports, page: &mut Page) -> Result<(), AllocError> {
    let mut reports = Reports::new(alloc);
    fill(&mut reports, others)?;
    put_counted("  lines ", reports.len() as u64, page);
    put_counted(" left ", others.len() as u64, page);
    reports.clear();
    put_counted("\n  cleared ", reports.as_slice().len() as u64, page);
    page.push('\n');
    Ok(())
}

/// Puts a line at the end of a list, and others behind it.
fn fill(reports: &mut Reports, others: &mut Reports) -> Result<(), AllocError> {
    reports.push(Report::Frames { count: 0 })?;
    reports.append(others)?;
    Ok(())
}
