//! Events: as text, in bytes, and by name.

use crate::words::{event, put_counted, put_json, put_line, repeated, spelled};
use gr_event::{Event, EventFault, MAX_PAIRS, Part, Text};
use gr_tests_rows::{Page, Stop, bytes, first_word, parted};
use serde_json::Value as Json;
use std::alloc::{AllocError, Global};

/// Answers a row about events.
pub fn answer(alloc: Global, row: &str, page: &mut Page) -> Result<(), Stop> {
    let (call, rest) = first_word(row);
    match call {
        "text" | "bytes" | "value" => put_read(alloc, call, rest, page),
        "fault" => put_number(alloc, rest, page),
        "get" => get(alloc, rest, page),
        "share" => share(alloc, rest, page),
        "same" => same(alloc, rest, page),
        "append" => append(alloc, rest, page),
        _ => put_form(call, &either(alloc, rest)?, page),
    }
}

/// Prints the event that is read, or why there is none.
fn put_read(alloc: Global, call: &str, rest: &str, page: &mut Page) -> Result<(), Stop> {
    put_event(&read(alloc, call, rest)?, page)
}

/// The event of a JSON text, of bytes in hexadecimal, or of a JSON value that was read before; or why there is none.
fn read(alloc: Global, call: &str, rest: &str) -> Result<Result<Event, EventFault>, Stop> {
    match call {
        "text" => of_text(alloc, rest),
        "bytes" => of_bytes(alloc, rest),
        "value" => of_value(alloc, rest),
        _ => Err(Stop::NoRow),
    }
}

/// The event of a JSON text.
fn of_text(alloc: Global, text: &str) -> Result<Result<Event, EventFault>, Stop> {
    Ok(Event::from_text(alloc, spelled(alloc, text)?.as_slice()))
}

/// The event of bytes in hexadecimal.
fn of_bytes(alloc: Global, text: &str) -> Result<Result<Event, EventFault>, Stop> {
    let digits = repeated(alloc, text)?;
    Ok(Event::decode(alloc, bytes(alloc, digits.as_str())?.as_slice()))
}

/// The event of a JSON value.
fn of_value(alloc: Global, text: &str) -> Result<Result<Event, EventFault>, Stop> {
    match Json::from_slice(alloc, spelled(alloc, text)?.as_slice()) {
        Ok(value) => Ok(Event::from_json(alloc, value)),
        Err(_) => Err(Stop::NoRow),
    }
}

/// Prints an event: its size, its bytes, and each of its pairs; or why it is none.
fn put_event(answer: &Result<Event, EventFault>, page: &mut Page) -> Result<(), Stop> {
    match answer {
        Ok(event) => put_whole(event, page),
        Err(EventFault::Memory) => return Err(Stop::Memory),
        Err(fault) => put_fault(fault, page),
    }
    Ok(())
}

/// Prints the size, the bytes and the pairs of an event.
fn put_whole(event: &Event, page: &mut Page) {
    put_counted("  ", event.size() as u64, page);
    page.push_str(" bytes ");
    page.push_hex(event.bytes());
    page.push('\n');
    put_pairs(event, page);
}

/// Prints the pairs of an event, each by its place.
fn put_pairs(event: &Event, page: &mut Page) {
    if event.is_empty() {
        page.push_str("  empty\n");
    }
    for i in 0..event.len() {
        let (name, part) = event.pair(i);
        put_pair(name, &part, page);
    }
}

/// Prints a name and its value.
fn put_pair(name: &[u8], part: &Part, page: &mut Page) {
    page.push_str("  ");
    page.push_escaped(name);
    page.push_str(" =");
    put_part(part, page);
}

/// Prints a space, a value and the end of the line.
pub fn put_part(part: &Part, page: &mut Page) {
    match part {
        Part::Int(number) => write!(page, " {number}\n"),
        Part::Bool(truth) => write!(page, " {truth}\n"),
        Part::Text(text) => put_quoted(text, page),
    }
}

/// Prints a space, a text between quotes and the end of the line.
fn put_quoted(text: &[u8], page: &mut Page) {
    page.push_str(" '");
    page.push_escaped(text);
    page.push_str("'\n");
}

/// Prints a fault's word, and its place where it has one.
fn put_fault(fault: &EventFault, page: &mut Page) {
    write!(page, "  {fault}");
    match fault {
        EventFault::Short { at }
        | EventFault::BadKind { at }
        | EventFault::NotSorted { at }
        | EventFault::Trailing { at }
        | EventFault::BadText { at }
        | EventFault::BadLength { at } => put_counted(" at ", *at as u64, page),
        _ => {}
    }
    page.push('\n');
}

/// Prints the number and the word of a fault.
fn put_number(alloc: Global, row: &str, page: &mut Page) -> Result<(), Stop> {
    let (call, rest) = first_word(row);
    match read(alloc, call, rest)? {
        Ok(_) => Err(Stop::NoRow),
        Err(fault) => {
            put_number_of(&fault, page);
            Ok(())
        }
    }
}

/// Prints the number and the word of a fault.
fn put_number_of(fault: &EventFault, page: &mut Page) {
    put_counted("  ", u64::from(fault.number()), page);
    page.push(' ');
    page.push_str(fault.word());
    page.push('\n');
}

/// Prints what a share of an event has under a name.
fn get(alloc: Global, row: &str, page: &mut Page) -> Result<(), Stop> {
    let (name, rest) = first_word(row);
    put_value(&shared(alloc, rest)?, name, page);
    Ok(())
}

/// Prints the value of a name.
fn put_value(event: &Event, name: &str, page: &mut Page) {
    match event.get(name.as_bytes()) {
        Some(part) => {
            page.push(' ');
            put_part(&part, page);
        }
        None => page.push_str("  none\n"),
    }
}

/// Prints the pairs of a share.
fn share(alloc: Global, text: &str, page: &mut Page) -> Result<(), Stop> {
    put_pairs(&shared(alloc, text)?, page);
    Ok(())
}

/// A share of an event, which itself is gone.
fn shared(alloc: Global, text: &str) -> Result<Event, Stop> {
    Ok(either(alloc, text)?.share())
}

/// The event of JSON, or of bytes in hexadecimal.
fn either(alloc: Global, text: &str) -> Result<Event, Stop> {
    if text.starts_with('{') {
        return event(alloc, text);
    }
    of_bytes(alloc, text)?.map_err(|_| Stop::NoRow)
}

/// Prints whether two events are the same.
fn same(alloc: Global, row: &str, page: &mut Page) -> Result<(), Stop> {
    let (one, other) = parted(row, " | ")?;
    put_same(alloc, &either(alloc, one)?, other, page)
}

/// Prints whether an event is the same as another.
fn put_same(alloc: Global, one: &Event, text: &str, page: &mut Page) -> Result<(), Stop> {
    page.truth_line(either(alloc, text)?.same(one));
    Ok(())
}

/// Prints the JSON of an event behind a text.
fn append(alloc: Global, row: &str, page: &mut Page) -> Result<(), Stop> {
    let (before, rest) = first_word(row);
    let mut text = Text::from_vec(spelled(alloc, before)?);
    event(alloc, rest)?.json_into(&mut text)?;
    put_line(text.as_slice(), page);
    Ok(())
}

/// Prints a form of an event: its size, its bytes, its JSON, or its pairs by a walk.
fn put_form(call: &str, event: &Event, page: &mut Page) -> Result<(), Stop> {
    match call {
        "size" => put_size(event, page),
        "encode" => put_encoded(event, page),
        "json" => put_json_line(event, page),
        "walk" => put_walk(event, page),
        _ => return Err(Stop::NoRow),
    }
    Ok(())
}

/// Prints the size of an event.
fn put_size(event: &Event, page: &mut Page) {
    put_counted("  ", event.size() as u64, page);
    page.push_str(" bytes\n");
}

/// Prints the form in bytes that is written into a slice.
fn put_encoded(event: &Event, page: &mut Page) {
    page.push_str("  ");
    match encoded(page.allocator(), event) {
        Ok(bytes) => page.push_hex(&bytes),
        Err(_) => page.tear(),
    }
    page.push('\n');
}

/// The form in bytes that is written into a slice.
fn encoded(alloc: Global, event: &Event) -> Result<Vec<u8>, AllocError> {
    let mut bytes = vec![in alloc; 0u8; event.size()]?;
    event.encode_into(&mut bytes);
    Ok(bytes)
}

/// Prints the JSON of an event on a line of its own.
fn put_json_line(event: &Event, page: &mut Page) {
    page.push_str("  ");
    put_json(event, page);
    page.push('\n');
}

/// Prints the pairs of an event, as a walk gives them.
fn put_walk(event: &Event, page: &mut Page) {
    let mut pairs = event.pairs();
    for _ in 0..=MAX_PAIRS {
        match pairs.next() {
            Some((name, part)) => put_pair(name, &part, page),
            None => return page.push_str("  end\n"),
        }
    }
}
