//! How many calls of a sink the lines of a report take.

ghost use Rattle.std.specs.Prelude.{None};

use crate::words::put_counted;
use gr_model::Report;
use gr_out::{Failed, Page, Sink};
use gr_report::{put_all, put_line};
use gr_tests_rows::{Page as Printed, Stop, number, parted};
use gr_topo::Topology;
use std::alloc::Global;

/// A sink that takes all, and counts its calls.
#[derive(Drop)]
struct Counting {
    calls: u64,
}

impl Sink for Counting {
    ghost taken = { λ _. None };

    ghost faults = { λ _. 0 };

    fn write(&mut self, bytes: &[u8]) -> Result<usize, Failed> {
        self.calls = self.calls.saturating_add(1);
        Ok(bytes.len())
    }
}

/// Answers the row `all N COUNT` or `line N COUNT`: how many calls of a sink it takes to put the line `frames COUNT` so
/// many times, then to write what is left, and then to write nothing.
pub fn answer(alloc: Global, row: &str, out: &mut Printed) -> Result<(), Stop> {
    let (call, rest) = parted(row, " ")?;
    let (times, count) = parted(rest, " ")?;
    let (times, count) = (number(times)?, number(count)?);
    let mut page = Page::new(alloc)?;
    let mut sink = Counting { calls: 0 };
    fill(alloc, call, times, count, &mut page, &mut sink)?;
    put_calls("  lines: calls ", &sink, out);
    flush(&mut page, &mut sink)?;
    put_calls("  what is left: calls ", &sink, out);
    flush(&mut page, &mut sink)?;
    put_calls("  nothing: calls ", &sink, out);
    Ok(())
}

/// Prints how many calls there were.
fn put_calls(word: &str, sink: &Counting, out: &mut Printed) {
    put_counted(word, sink.calls, out);
    out.push('\n');
}

/// Puts a line so many times, by the call that a row names.
fn fill(
    alloc: Global,
    call: &str,
    times: u64,
    count: u64,
    page: &mut Page,
    sink: &mut Counting,
) -> Result<(), Stop> {
    let topology = Topology::blank(alloc)?;
    for _ in 0..times {
        put_frames(call, &topology, count, page, sink)?;
    }
    Ok(())
}

/// Puts the line `frames COUNT`, by the call that a row names.
fn put_frames(
    call: &str,
    topology: &Topology,
    count: u64,
    page: &mut Page,
    sink: &mut Counting,
) -> Result<(), Stop> {
    let line = Report::Frames { count };
    let put = match call {
        "line" => put_line(topology, &line, page, sink),
        _ => put_all(topology, &[line], page, sink),
    };
    put.map_err(|_| Stop::Memory)
}

/// Writes what a page holds.
fn flush(page: &mut Page, sink: &mut Counting) -> Result<(), Stop> {
    page.flush(sink).map_err(|_| Stop::Memory)
}
