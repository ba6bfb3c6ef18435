//! The endpoint of the subscribers at a broker: a script for it, over what the broker knows.

ghost use Rattle.std.specs.Prelude.{◌≤◌};
ghost use Rattle.gr_tick.specs.declared.TheConstants.{MAX_TICK};

use crate::knowledge::put_event;
use crate::knows::bring;
use crate::spelled::{piece, put_number, tick};
use gr_know::{K, Know};
use gr_subend::{Deliveries, Subend};
use gr_tests_rows::{Page, Stop};
use gr_tick::Piece;
use std::alloc::{AllocError, Global};

/// Answers a script for an endpoint: a line for each step.
pub fn answer(alloc: Global, script: &str, out: &mut Page) -> Result<(), Stop> {
    let mut end = Subend::new();
    let mut know = Know::new(alloc);
    for step in script.split(" ; ") {
        take(alloc, &mut end, &mut know, step, out)?;
    }
    Ok(())
}

/// Takes a step: prints what is new to the broker, what is handed over, or else the horizon.
fn take(
    alloc: Global,
    end: &mut Subend,
    know: &mut Know,
    step: &str,
    out: &mut Page,
) -> Result<(), Stop> {
    let (call, words) = step.split_once(' ').unwrap_or((step, ""));
    match call {
        "learn" => bring(alloc, know, call, words, out)?,
        "advance" => advance(alloc, end, know, out)?,
        "coming" => coming(alloc, end, know, &piece(alloc, words)?, out)?,
        "coming_upto" => coming_upto(alloc, end, know, words, out)?,
        _ => {
            move_on(end, know, call, words)?;
            put_number(out, end.horizon());
        }
    }
    Ok(())
}

/// Moves the horizon, and prints what is handed over.
fn advance(alloc: Global, end: &mut Subend, know: &Know, out: &mut Page) -> Result<(), AllocError> {
    let deliveries = end.advance(alloc, know)?;
    put_deliveries(out, &deliveries);
    Ok(())
}

/// Prints what `advance` will hand over, once a piece is joined.
fn coming(
    alloc: Global,
    end: &Subend,
    know: &Know,
    came: &Piece<K>,
    out: &mut Page,
) -> Result<(), Stop> {
    let deliveries = end.coming(alloc, know, came)?;
    put_deliveries(out, &deliveries);
    Ok(())
}

/// Prints what a move of the horizon to a tick will hand over, once a piece is joined.
fn coming_upto(
    alloc: Global,
    end: &Subend,
    know: &Know,
    words: &str,
    out: &mut Page,
) -> Result<(), Stop> {
    let (horizon, words) = words.split_once(' ').ok_or(Stop::NoRow)?;
    let came = piece(alloc, words)?;
    put_upto(alloc, end, know, &came, tick(horizon)?, out)
}

/// Prints what a move of the horizon to a tick that is not below it will hand over, once a piece is joined.
fn put_upto(
    alloc: Global,
    end: &Subend,
    know: &Know,
    came: &Piece<K>,
    horizon: u64,
    out: &mut Page,
) -> Result<(), Stop>
    requires { horizon ≤ MAX_TICK }
{
    if horizon < end.horizon() {
        return Err(Stop::NoRow);
    }
    let deliveries = end.coming_upto(alloc, know, came, horizon)?;
    put_deliveries(out, &deliveries);
    Ok(())
}

/// Moves the horizon, or leaves it.
fn move_on(end: &mut Subend, know: &Know, call: &str, words: &str) -> Result<(), Stop> {
    match call {
        "horizon" => {}
        "copy" => *end = end.copy(),
        "move_on" => end.move_on(know),
        "move_to" => move_to(end, words)?,
        _ => return Err(Stop::NoRow),
    }
    Ok(())
}

/// Moves the horizon to a tick that is not below it.
fn move_to(end: &mut Subend, word: &str) -> Result<(), Stop> {
    let tick = tick(word)?;
    if tick < end.horizon() {
        return Err(Stop::NoRow);
    }
    end.move_to(tick);
    Ok(())
}

/// Prints deliveries, each as its tick and its event, or the word `none`.
fn put_deliveries(out: &mut Page, deliveries: &Deliveries) {
    out.push(' ');
    if deliveries.len() == 0 {
        out.push_str(" none");
    }
    for delivery in deliveries.as_slice() {
        write!(out, " {}:", delivery.tick);
        put_event(out, &delivery.event);
    }
    out.push('\n');
}
