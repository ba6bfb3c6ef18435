//! Match texts: filters with their names, and events.

use crate::scenarios::put_refused;
use crate::words::{put_counted, size};
use gr_match_text::{Asked, EventList, FilterList, print_matches, read};
use gr_out::{MemSink, RunFault};
use gr_tests_rows::{Page, Stop, first_word, parted, spelled};
use std::alloc::{AllocError, Global};

/// Answers a row about match texts.
pub fn answer(alloc: Global, row: &str, page: &mut Page) -> Result<(), Stop> {
    let (call, rest) = first_word(row);
    match call {
        "read" => put_spelled(alloc, 10_000, rest, page),
        "room" => put_with_room(alloc, rest, page),
        _ => Err(Stop::NoRow),
    }
}

/// Reads a text behind a number, and prints what comes of it where a sink has so much room.
fn put_with_room(alloc: Global, row: &str, page: &mut Page) -> Result<(), Stop> {
    let (room, text) = parted(row, " ")?;
    put_spelled(alloc, size(room)?, text, page)
}

/// Reads a text, and prints what comes of it where a sink has so much room.
fn put_spelled(alloc: Global, room: usize, text: &str, page: &mut Page) -> Result<(), Stop> {
    put_read(alloc, room, &spelled(alloc, text)?, page);
    Ok(())
}

/// Reads bytes, and prints what comes of them where a sink has so much room.
fn put_read(alloc: Global, room: usize, text: &[u8], page: &mut Page) {
    put_asked(alloc, room, &read(alloc, text), page);
}

/// Prints what the bytes of a source ask.
fn put_asked(alloc: Global, room: usize, answer: &Result<Asked, AllocError>, page: &mut Page) {
    match answer {
        Ok(Asked::Matching { filters, events }) => put_matches(alloc, room, filters, events, page),
        Ok(Asked::Refused(line)) => put_refused(line.as_slice(), page),
        Ok(Asked::TooManyBytes) => page.push_str("  too many bytes\n"),
        Ok(Asked::TooManyLines) => page.push_str("  too many lines\n"),
        Err(_) => page.tear(),
    }
}

/// Prints what a sink takes of the names that match each event, and the word `failed` where it then fails.
fn put_matches(
    alloc: Global,
    room: usize,
    filters: &FilterList,
    events: &EventList,
    page: &mut Page,
) {
    match MemSink::new(alloc, room, &[]) {
        Ok(mut sink) => put_sunk(alloc, filters, events, &mut sink, page),
        Err(_) => page.tear(),
    }
}

/// Prints what a sink takes.
fn put_sunk(
    alloc: Global,
    filters: &FilterList,
    events: &EventList,
    sink: &mut MemSink,
    page: &mut Page,
) {
    let ended = print_matches(alloc, filters, events.as_slice(), sink);
    put_counted("  events ", events.as_slice().len() as u64, page);
    page.push('\n');
    page.push_lines(sink.bytes());
    put_end(&ended, page);
}

/// Prints the word `failed` where a sink failed.
pub fn put_end(ended: &Result<(), RunFault>, page: &mut Page) {
    match ended {
        Ok(()) => {}
        Err(RunFault::Write) => page.push_str("  the sink failed\n"),
        Err(_) => page.tear(),
    }
}
