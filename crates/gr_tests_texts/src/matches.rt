//! Many filters at once: which of them match an event.

use crate::lists::put_numbers;
use crate::words::{event, filter, put_counted};
use gr_event::Event;
use gr_filter::Filter;
use gr_match::MatchTree;
use gr_tests_rows::{Page, Stop, first_word, number};
use std::alloc::{AllocError, Global};

/// Filters. It is a type of its own for its drop, which is one call to whoever holds it.
struct Filters {
    tree: MatchTree,
}

impl Drop for Filters {
    fn drop(self) {
        let Filters { tree: _tree } = self;
    }
}

/// Answers a row about many filters.
pub fn answer(alloc: Global, script: &str, page: &mut Page) -> Result<(), Stop> {
    let mut filters = Filters {
        tree: MatchTree::new(alloc),
    };
    take_all(alloc, &mut filters.tree, script, page)
}

/// Takes each step of a script.
fn take_all(
    alloc: Global,
    tree: &mut MatchTree,
    script: &str,
    page: &mut Page,
) -> Result<(), Stop> {
    for step in script.split(" ; ") {
        take_step(alloc, tree, step, page)?;
    }
    Ok(())
}

/// Adds filters, or prints which of them match an event.
fn take_step(alloc: Global, tree: &mut MatchTree, step: &str, page: &mut Page) -> Result<(), Stop> {
    let (call, rest) = first_word(step);
    match call {
        "add" => add(alloc, tree, rest),
        "fill" => fill(alloc, tree, rest),
        "ask" => ask(alloc, tree, rest, page),
        _ => Err(Stop::NoRow),
    }
}

/// Adds a filter.
fn add(alloc: Global, tree: &mut MatchTree, written: &str) -> Result<(), Stop> {
    add_filter(tree, &filter(alloc, written)?.filter)
}

/// Puts a filter at the end.
fn add_filter(tree: &mut MatchTree, filter: &Filter) -> Result<(), Stop> {
    if tree.len() >= 65_535 {
        return Err(Stop::NoRow);
    }
    Ok(tree.add(filter)?)
}

/// Adds a filter as often as the number before it says, with the count so far behind it.
fn fill(alloc: Global, tree: &mut MatchTree, row: &str) -> Result<(), Stop> {
    let (count, start) = first_word(row);
    for i in 0..number(count)? {
        add(alloc, tree, numbered(alloc, start, i)?.as_str())?;
    }
    Ok(())
}

/// A text and a number behind it.
fn numbered(alloc: Global, start: &str, number: u64) -> Result<String, AllocError> {
    let mut page = Page::new(alloc);
    page.push_str(start);
    put_counted(" ", number, &mut page);
    page.finish()
}

/// Prints the places of the filters that match an event.
fn ask(alloc: Global, tree: &MatchTree, json: &str, page: &mut Page) -> Result<(), Stop> {
    put_matches(tree, json, &event(alloc, json)?, page);
    Ok(())
}

/// Prints the places of the filters that match an event, and whether there is one.
fn put_matches(tree: &MatchTree, json: &str, event: &Event, page: &mut Page) {
    page.push_str("  ");
    page.push_str(json);
    page.push_str(if tree.any(event) { ": any" } else { ": none" });
    match tree.matches(event) {
        Ok(places) => put_numbers(&places, page),
        Err(_) => page.tear(),
    }
}
