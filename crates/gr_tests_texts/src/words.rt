//! The parts of a row: words and steps, texts with repeated parts, events and filters; and what many answers have.

use gr_event::{Event, EventFault};
use gr_filter::{Filter, FilterFault, parse};
use gr_tests_rows::{Page, Stop, first_word, number, unescaped};
use std::alloc::{AllocError, Global};

/// The text in which each part `~COUNT TEXT~` stands that many times.
pub fn repeated(alloc: Global, text: &str) -> Result<String, Stop> {
    let mut whole = String::new(alloc);
    let mut times = false;
    for part in text.split('~') {
        put_part(&mut whole, part, times)?;
        times = !times;
    }
    Ok(whole)
}

/// Puts a text, or where a number stands before it, as often as that says.
fn put_part(whole: &mut String, part: &str, times: bool) -> Result<(), Stop> {
    if !times {
        return Ok(whole.push_str(part)?);
    }
    let (count, text) = first_word(part);
    Ok(put_copies(whole, number(count)?, text)?)
}

/// Puts so many copies of a text.
fn put_copies(whole: &mut String, count: u64, text: &str) -> Result<(), AllocError> {
    for _ in 0..count {
        whole.push_str(text)?;
    }
    Ok(())
}

/// The bytes that a text spells, with its repeated parts and its escapes.
pub fn spelled(alloc: Global, text: &str) -> Result<Vec<u8>, Stop> {
    unescaped(alloc, repeated(alloc, text)?.as_str())
}

/// The number of 16 bits that a word spells.
pub fn short_number(word: &str) -> Result<u16, Stop> {
    let number = number(word)?;
    if number > 65_535 {
        return Err(Stop::NoRow);
    }
    Ok(number as u16)
}

/// The size that a word spells.
pub fn size(word: &str) -> Result<usize, Stop> {
    Ok(number(word)? as usize)
}

/// The event of a JSON text.
pub fn event(alloc: Global, text: &str) -> Result<Event, Stop> {
    event_of(alloc, spelled(alloc, text)?.as_slice())
}

/// The event of bytes that are JSON.
fn event_of(alloc: Global, json: &[u8]) -> Result<Event, Stop> {
    match Event::from_text(alloc, json) {
        Ok(event) => Ok(event),
        Err(EventFault::Memory) => Err(Stop::Memory),
        Err(_) => Err(Stop::NoRow),
    }
}

/// A filter of a row. It is a type of its own for its drop, which is one call to whoever holds it.
pub struct Held {
    pub filter: Filter,
}

impl Drop for Held {
    fn drop(self) {
        let Held { filter: _filter } = self;
    }
}

/// The filter of a text.
pub fn filter(alloc: Global, text: &str) -> Result<Held, Stop> {
    filter_of(alloc, spelled(alloc, text)?.as_slice())
}

/// The filter that bytes spell.
fn filter_of(alloc: Global, text: &[u8]) -> Result<Held, Stop> {
    match parse(alloc, text) {
        Ok(filter) => Ok(Held { filter }),
        Err(FilterFault::Memory) => Err(Stop::Memory),
        Err(_) => Err(Stop::NoRow),
    }
}

/// Prints a word and a number behind it.
pub fn put_counted(word: &str, number: u64, page: &mut Page) {
    page.push_str(word);
    page.push_number(number);
}

/// Prints a text on a line of its own.
pub fn put_line(text: &[u8], page: &mut Page) {
    page.push_str("  ");
    page.push_escaped(text);
    page.push('\n');
}

/// Prints an event as JSON.
pub fn put_json(event: &Event, page: &mut Page) {
    match event.json(page.allocator()) {
        Ok(json) => page.push_escaped(json.as_slice()),
        Err(_) => page.tear(),
    }
}
