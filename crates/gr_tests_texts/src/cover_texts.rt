//! Match texts of filters alone, which are compared.

use crate::match_texts::put_end;
use crate::scenarios::put_refused;
use crate::words::size;
use gr_cover_text::{Asked, print_covers, read};
use gr_match_text::FilterList;
use gr_out::MemSink;
use gr_tests_rows::{Page, Stop, first_word, parted, spelled};
use std::alloc::{AllocError, Global};

/// Answers a row about filters that are compared.
pub fn answer(alloc: Global, row: &str, page: &mut Page) -> Result<(), Stop> {
    let (call, rest) = first_word(row);
    match call {
        "read" => put_spelled(alloc, 1_000_000, rest, page),
        "room" => put_with_room(alloc, rest, page),
        _ => Err(Stop::NoRow),
    }
}

/// Reads a text behind a number, and prints what comes of it where a sink has so much room.
fn put_with_room(alloc: Global, row: &str, page: &mut Page) -> Result<(), Stop> {
    let (room, text) = parted(row, " ")?;
    put_spelled(alloc, size(room)?, text, page)
}

/// Reads a text, and prints what comes of it where a sink has so much room.
fn put_spelled(alloc: Global, room: usize, text: &str, page: &mut Page) -> Result<(), Stop> {
    put_read(alloc, room, &spelled(alloc, text)?, page);
    Ok(())
}

/// Reads bytes, and prints what comes of them where a sink has so much room.
fn put_read(alloc: Global, room: usize, text: &[u8], page: &mut Page) {
    put_asked(alloc, room, &read(alloc, text), page);
}

/// Prints what the bytes of a source ask.
fn put_asked(alloc: Global, room: usize, answer: &Result<Asked, AllocError>, page: &mut Page) {
    match answer {
        Ok(Asked::Covering { filters }) => put_covers(alloc, room, filters, page),
        Ok(Asked::Refused(line)) => put_refused(line.as_slice(), page),
        Ok(Asked::TooManyBytes) => page.push_str("  too many bytes\n"),
        Ok(Asked::TooManyLines) => page.push_str("  too many lines\n"),
        Err(_) => page.tear(),
    }
}

/// Prints what a sink takes of the lines of the filters, and the word `failed` where it then fails.
fn put_covers(alloc: Global, room: usize, filters: &FilterList, page: &mut Page) {
    match MemSink::new(alloc, room, &[]) {
        Ok(mut sink) => put_sunk(alloc, filters, &mut sink, page),
        Err(_) => page.tear(),
    }
}

/// Prints what a sink takes.
fn put_sunk(alloc: Global, filters: &FilterList, sink: &mut MemSink, page: &mut Page) {
    let ended = print_covers(alloc, filters, sink);
    page.push_lines(sink.bytes());
    put_end(&ended, page);
}
