//! Filters: how they are read and printed, and what they say of an event.

use crate::words::{Held, event, filter, put_counted, put_line, spelled};
use gr_filter::{Filter, FilterFault, Kleene, Node, parse, text, truth};
use gr_tests_rows::{Page, Stop, first_word, parted};
use std::alloc::{AllocError, Global};

/// The events that a filter is asked of, where the row names none.
static EVENTS: [&str; 12] = [
    "{}",
    "{\"price\":82}",
    "{\"price\":80}",
    "{\"price\":7,\"sym\":\"IBM\"}",
    "{\"price\":82,\"sym\":\"IBM\"}",
    "{\"sym\":\"HP\"}",
    "{\"price\":\"82\"}",
    "{\"hot\":true}",
    "{\"hot\":false,\"price\":-5}",
    "{\"price\":100,\"sym\":\"I%M\"}",
    "{\"hot\":true,\"sym\":\"Ünit\"}",
    "{\"a\":1,\"b\":1,\"sym\":\"\"}",
];

/// Answers a row about filters.
pub fn answer(alloc: Global, row: &str, page: &mut Page) -> Result<(), Stop> {
    let (call, rest) = first_word(row);
    match call {
        "truth" => put_truth(alloc, rest, page),
        "truths" => put_truths(alloc, &filter(alloc, rest)?.filter, page),
        _ => put_read(alloc, call, spelled(alloc, rest)?.as_slice(), page),
    }
}

/// Prints what is asked of a filter, or why there is none.
fn put_read(alloc: Global, call: &str, text: &[u8], page: &mut Page) -> Result<(), Stop> {
    match parse(alloc, text) {
        Ok(filter) => put_form(alloc, call, &Held { filter }, page),
        Err(FilterFault::Memory) => Err(Stop::Memory),
        Err(fault) => {
            put_fault(call, &fault, page);
            Ok(())
        }
    }
}

/// Prints a filter, its copy, or what its root is.
fn put_form(alloc: Global, call: &str, held: &Held, page: &mut Page) -> Result<(), Stop> {
    match call {
        "print" => put_filter(alloc, &held.filter, page),
        "copy" => put_copy(alloc, &held.filter, page),
        "root" => put_line(kind(held.filter.root()).as_bytes(), page),
        _ => return Err(Stop::NoRow),
    }
    Ok(())
}

/// Prints a fault: its word and its place, or its number and its word.
fn put_fault(call: &str, fault: &FilterFault, page: &mut Page) {
    if call == "fault" {
        put_counted("  ", u64::from(fault.number()), page);
        page.push(' ');
        page.push_str(fault.word());
    } else {
        write!(page, "  {fault}");
        put_counted(" at ", fault.place() as u64, page);
    }
    page.push('\n');
}

/// Prints the text of a filter.
fn put_filter(alloc: Global, filter: &Filter, page: &mut Page) {
    match text(alloc, filter) {
        Ok(text) => put_line(text.as_slice(), page),
        Err(_) => page.tear(),
    }
}

/// Prints the text of a filter's copy.
fn put_copy(alloc: Global, filter: &Filter, page: &mut Page) {
    match copied(alloc, filter) {
        Ok(copy) => put_filter(alloc, &copy.filter, page),
        Err(_) => page.tear(),
    }
}

/// A filter's copy.
fn copied(alloc: Global, filter: &Filter) -> Result<Held, AllocError> {
    Ok(Held {
        filter: filter.copy(alloc)?,
    })
}

/// What a node is.
fn kind(node: &Node) -> &'static str {
    match node {
        Node::Alone(_) => "alone",
        Node::Compare { .. } => "compare",
        Node::Between { .. } => "between",
        Node::OneOf { .. } => "one-of",
        Node::Like { .. } => "like",
        Node::IsNull { .. } => "is-null",
        Node::Not(_) => "not",
        Node::And(_, _) => "and",
        Node::Or(_, _) => "or",
    }
}

/// Prints the truth of a filter on an event.
fn put_truth(alloc: Global, row: &str, page: &mut Page) -> Result<(), Stop> {
    let (written, json) = parted(row, " | ")?;
    let held = filter(alloc, written)?;
    let found = judged(alloc, &held.filter, json)?;
    put_line(word(found).as_bytes(), page);
    Ok(())
}

/// The truth of a filter on an event.
pub fn judged(alloc: Global, filter: &Filter, json: &str) -> Result<Kleene, Stop> {
    Ok(truth(filter, &event(alloc, json)?))
}

/// Prints for each truth value the events of the table for which a filter has it.
fn put_truths(alloc: Global, filter: &Filter, page: &mut Page) -> Result<(), Stop> {
    put_events(alloc, filter, Kleene::True, page)?;
    put_events(alloc, filter, Kleene::False, page)?;
    put_events(alloc, filter, Kleene::Unknown, page)
}

/// Prints the events of the table for which a filter has a truth value.
fn put_events(alloc: Global, filter: &Filter, wanted: Kleene, page: &mut Page) -> Result<(), Stop> {
    page.push_str("  ");
    page.push_str(word(wanted));
    page.push(':');
    for json in EVENTS.iter() {
        if judged(alloc, filter, json)? == wanted {
            page.push(' ');
            page.push_str(json);
        }
    }
    page.push('\n');
    Ok(())
}

/// The word of a truth value.
fn word(value: Kleene) -> &'static str {
    match value {
        Kleene::False => "false",
        Kleene::Unknown => "unknown",
        Kleene::True => "true",
    }
}
