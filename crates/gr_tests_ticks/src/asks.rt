//! When ticks were last asked: a script for the asks of a broker.

use crate::spelled::{piece, put_count, put_piece, put_ticks};
use gr_curio::{Asks, Moment, Q3};
use gr_tests_rows::{Page, Stop, number, range};
use gr_tick::Piece;
use std::alloc::Global;

/// Answers a script for asks: a line for each step.
pub fn answer(alloc: Global, script: &str, out: &mut Page) -> Result<(), Stop> {
    let mut asks = Asks::new(alloc);
    for step in script.split(" ; ") {
        take(alloc, &mut asks, step, out)?;
    }
    Ok(())
}

/// Takes a step: prints what a look answers, or all runs after an edit.
fn take(alloc: Global, asks: &mut Asks, step: &str, out: &mut Page) -> Result<(), Stop> {
    let (call, words) = step.split_once(' ').unwrap_or((step, ""));
    match call {
        "len" => put_count(out, asks.len()),
        "copy" => put_asks(out, &asks.copy()?),
        "due" => due(alloc, asks, words, out)?,
        _ => {
            edit(alloc, asks, call, words)?;
            put_asks(out, asks);
        }
    }
    Ok(())
}

/// Prints the moments of the last asks, each behind its ticks.
fn put_asks(out: &mut Page, asks: &Asks) {
    out.push(' ');
    if asks.len() == 0 {
        out.push_str(" none");
    }
    for i in 0..asks.len() {
        let run = asks.run(i);
        out.push(' ');
        put_ticks(out, run.first, run.last);
        put_moment(out, run.value);
    }
    out.push('\n');
}

fn put_moment(out: &mut Page, moment: Moment) {
    match moment {
        Moment::Never => out.push_str("@never"),
        Moment::At(moment) => write!(out, "@{moment}"),
    }
}

/// Prints what of a piece is due at a moment.
fn due(alloc: Global, asks: &Asks, words: &str, out: &mut Page) -> Result<(), Stop> {
    let (words, times) = words.split_once(" at ").ok_or(Stop::NoRow)?;
    let (now, retry) = times.split_once(" retry ").ok_or(Stop::NoRow)?;
    let now = number(now)?;
    let retry = number(retry)?;
    let wanted = piece(alloc, words)?;
    put_due(asks, &wanted, now, retry, out)
}

fn put_due(
    asks: &Asks,
    wanted: &Piece<Q3>,
    now: u64,
    retry: u64,
    out: &mut Page,
) -> Result<(), Stop> {
    let due = asks.due(wanted, now, retry)?;
    put_piece(out, &due);
    Ok(())
}

/// Makes an edit.
fn edit(alloc: Global, asks: &mut Asks, call: &str, words: &str) -> Result<(), Stop> {
    match call {
        "asked" => asked(alloc, asks, words),
        "asked_ready" => asked_ready(alloc, asks, words),
        "forget" => forget(asks, words),
        "reserve" => Ok(asks.reserve(number(words)? as usize)?),
        _ => Err(Stop::NoRow),
    }
}

/// Notes that a piece was asked at a moment, which makes its own room.
fn asked(alloc: Global, asks: &mut Asks, words: &str) -> Result<(), Stop> {
    let (words, now) = words.split_once(" at ").ok_or(Stop::NoRow)?;
    let now = number(now)?;
    let piece = piece(alloc, words)?;
    Ok(asks.asked(&piece, now)?)
}

/// Notes that a piece was asked at a moment, in room for two runs for each of the piece.
fn asked_ready(alloc: Global, asks: &mut Asks, words: &str) -> Result<(), Stop> {
    let (words, now) = words.split_once(" at ").ok_or(Stop::NoRow)?;
    let now = number(now)?;
    let piece = piece(alloc, words)?;
    let room = piece.len().checked_mul(2).ok_or(Stop::NoRow)?;
    asks.reserve(room)?;
    asks.asked_ready(&piece, now);
    Ok(())
}

/// Drops the moments of ticks.
fn forget(asks: &mut Asks, word: &str) -> Result<(), Stop> {
    let ticks = range(word)?;
    Ok(asks.forget(ticks.first, ticks.last)?)
}
