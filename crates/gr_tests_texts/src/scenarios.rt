//! Scenarios: a topology and its steps.

use crate::schedules::put_steps;
use crate::words::put_counted;
use gr_scenario::{Asked, read};
use gr_sched::Steps;
use gr_tests_rows::{Page, Stop, first_word, spelled};
use gr_topo::Topology;
use std::alloc::{AllocError, Global};

/// Answers a row about scenarios.
pub fn answer(alloc: Global, row: &str, page: &mut Page) -> Result<(), Stop> {
    let (call, rest) = first_word(row);
    match call {
        "read" => put_read(alloc, &spelled(alloc, rest)?, page),
        _ => return Err(Stop::NoRow),
    }
    Ok(())
}

/// Reads a text, and prints what it asks.
fn put_read(alloc: Global, text: &[u8], page: &mut Page) {
    put_asked(&read(alloc, text), page);
}

/// Prints what the bytes of a source ask.
fn put_asked(answer: &Result<Asked, AllocError>, page: &mut Page) {
    match answer {
        Ok(Asked::Scenario { topology, steps }) => put_scenario(topology, steps, page),
        Ok(Asked::Refused(line)) => put_refused(line.as_slice(), page),
        Ok(Asked::TooManyBytes) => page.push_str("  too many bytes\n"),
        Ok(Asked::TooManySteps) => page.push_str("  too many steps\n"),
        Err(_) => page.tear(),
    }
}

/// Prints how many brokers a topology has, and steps.
fn put_scenario(topology: &Topology, steps: &Steps, page: &mut Page) {
    put_counted("  brokers ", u64::from(topology.brokers()), page);
    page.push('\n');
    put_steps(steps.as_slice(), page);
}

/// Prints the line that says why bytes are refused.
pub fn put_refused(line: &[u8], page: &mut Page) {
    page.push_str("  refused: ");
    page.push_escaped(line);
    page.push('\n');
}
