//! Sources and sinks in memory, as scripts.

use crate::script::{NEXT, Script, first_word, numbers, perform, put_quoted};
use gr_out::{Failed, MemSink, MemSource, ReadFault, RunFault, Sink, Source, read_all, write_all};
use gr_tests_rows::{Page, Stop, number, unescaped};
use std::alloc::Global;

/// Answers a script of reads: `TEXT failing CALLS ; read N ; all N`.
pub fn reads(alloc: Global, row: &str, page: &mut Page) -> Result<(), Stop> {
    let Some((made, ops)) = row.split_once(NEXT) else {
        return Err(Stop::NoRow);
    };
    let mut source = source_of(alloc, made)?;
    perform(alloc, &mut source, ops, page)
}

/// The source of a text, with the numbers of the calls that are to fail.
fn source_of(alloc: Global, made: &str) -> Result<MemSource, Stop> {
    let Some((text, list)) = made.split_once(" failing ") else {
        return Err(Stop::NoRow);
    };
    let fails = numbers(alloc, list)?;
    source_with(alloc, text, &fails)
}

/// The source of a text, with the numbers of the calls that are to fail.
fn source_with(alloc: Global, text: &str, fails: &[u64]) -> Result<MemSource, Stop> {
    Ok(MemSource::new(alloc, text.as_bytes(), fails)?)
}

impl Script for MemSource {
    /// Reads once, or to the end.
    fn op(&mut self, alloc: Global, op: &str, page: &mut Page) -> Result<(), Stop> {
        let Some((call, most)) = op.split_once(' ') else {
            return Err(Stop::NoRow);
        };
        let Ok(most) = number(most) else {
            return Err(Stop::NoRow);
        };
        match call {
            "read" => read(self, most, page),
            "all" => read_whole(alloc, self, most, page),
            _ => return Err(Stop::NoRow),
        }
        Ok(())
    }
}

/// Reads into a piece of so many bytes, at most 64.
fn read(source: &mut MemSource, most: u64, page: &mut Page) {
    let mut piece = [0u8; 64];
    let room = most.min(64) as usize;
    match source.read(&mut piece[..room]) {
        Ok(n) => put_quoted(page, &piece[..n]),
        Err(Failed) => page.push_str("failed"),
    }
}

/// Reads to the end, or so many bytes.
fn read_whole(alloc: Global, source: &mut MemSource, most: u64, page: &mut Page) {
    match read_all(alloc, source, most as usize) {
        Ok(bytes) => put_quoted(page, &bytes),
        Err(ReadFault::Failed) => page.push_str("failed"),
        Err(ReadFault::Memory) => page.tear(),
    }
}

/// Answers a script of writes: `room N failing CALLS ; write TEXT ; all TEXT ; taken`.
pub fn writes(alloc: Global, row: &str, page: &mut Page) -> Result<(), Stop> {
    let Some((made, ops)) = row.split_once(NEXT) else {
        return Err(Stop::NoRow);
    };
    let mut sink = sink_of(alloc, made)?;
    perform(alloc, &mut sink, ops, page)
}

/// The empty sink of a room, with the numbers of the calls that are to fail.
fn sink_of(alloc: Global, made: &str) -> Result<MemSink, Stop> {
    let Some((room, list)) = made.split_once(" failing ") else {
        return Err(Stop::NoRow);
    };
    let Some(room) = room.strip_prefix("room ") else {
        return Err(Stop::NoRow);
    };
    let Ok(room) = number(room) else {
        return Err(Stop::NoRow);
    };
    let fails = numbers(alloc, list)?;
    sink_with(alloc, room, &fails)
}

/// An empty sink, with the numbers of the calls that are to fail.
pub fn sink_with(alloc: Global, room: u64, fails: &[u64]) -> Result<MemSink, Stop> {
    Ok(MemSink::new(alloc, room as usize, fails)?)
}

impl Script for MemSink {
    /// Writes, or prints what was written.
    fn op(&mut self, alloc: Global, op: &str, page: &mut Page) -> Result<(), Stop> {
        let (call, text) = first_word(op);
        match call {
            "write" => write_some(alloc, self, text, page),
            "all" => write_whole(alloc, self, text, page),
            "taken" => {
                put_quoted(page, self.bytes());
                Ok(())
            }
            _ => Err(Stop::NoRow),
        }
    }
}

/// Writes some of the bytes of a text.
fn write_some(alloc: Global, sink: &mut MemSink, text: &str, page: &mut Page) -> Result<(), Stop> {
    let bytes = unescaped(alloc, text)?;
    match sink.write(&bytes) {
        Ok(n) => write!(page, "{n}"),
        Err(Failed) => page.push_str("failed"),
    }
    Ok(())
}

/// Writes all of the bytes of a text.
fn write_whole(alloc: Global, sink: &mut MemSink, text: &str, page: &mut Page) -> Result<(), Stop> {
    let bytes = unescaped(alloc, text)?;
    match write_all(sink, &bytes) {
        Ok(()) => page.push_str("written"),
        Err(Failed) => page.push_str("failed"),
    }
    Ok(())
}

/// Prints the word of a fault of a run, with its publisher and place.
pub fn put_run_fault(page: &mut Page, fault: RunFault) {
    match fault {
        RunFault::Memory => page.tear(),
        RunFault::Write => page.push_str("the sink failed"),
        RunFault::Disk => page.push_str("the disk failed"),
        RunFault::Damaged { publisher, at } => {
            write!(page, "publisher {publisher} damaged at {at}");
        }
        RunFault::Post => page.push_str("the post failed"),
    }
}
