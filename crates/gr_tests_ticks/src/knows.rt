//! What a broker knows of a publisher: a script for it.

use crate::spelled::{piece, put_count, put_number, put_on, put_piece, put_ticks, put_value, tick};
use gr_know::{Clash, K, Know};
use gr_tests_rows::{Page, Stop, TickRange, number, range};
use gr_tick::Piece;
use std::alloc::{AllocError, Global};

/// Answers a script for what is known: a line for each step.
pub fn answer(alloc: Global, script: &str, out: &mut Page) -> Result<(), Stop> {
    let mut know = Know::new(alloc);
    for step in script.split(" ; ") {
        take(alloc, &mut know, step, out)?;
    }
    Ok(())
}

/// Takes a step: prints what is told of ticks or of all runs, what a piece brings, or else all runs after an edit.
fn take(alloc: Global, know: &mut Know, step: &str, out: &mut Page) -> Result<(), Stop> {
    let (call, words) = step.split_once(' ').unwrap_or((step, ""));
    match call {
        "len" | "top" | "copy" | "horizon_from" => look(know, call, words, out),
        "at" | "steady_until" | "steady_at" | "piece" => look_at(know, call, words, out),
        "clash" | "room_for" | "news" | "learn" | "horizon_with" | "piece_with" => {
            bring(alloc, know, call, words, out)
        }
        _ => {
            edit(alloc, know, call, words)?;
            put_known(out, know);
            Ok(())
        }
    }
}

/// Prints what is told of all runs.
fn look(know: &Know, call: &str, words: &str, out: &mut Page) -> Result<(), Stop> {
    match call {
        "len" => put_count(out, know.len()),
        "top" => put_number(out, know.top()),
        "copy" => put_known(out, &know.copy()?),
        _ => put_number(out, know.horizon_from(tick(words)?)),
    }
    Ok(())
}

/// Prints all runs.
fn put_known(out: &mut Page, know: &Know) {
    out.push(' ');
    if know.len() == 0 {
        out.push_str(" none");
    }
    for i in 0..know.len() {
        let run = know.run(i);
        out.push(' ');
        put_on(out, run.first, run.last, &run.value);
    }
    out.push('\n');
}

/// Prints what is told of ticks.
fn look_at(know: &Know, call: &str, words: &str, out: &mut Page) -> Result<(), Stop> {
    let ticks = range(words)?;
    match call {
        "at" => put_values(out, know, ticks),
        "steady_until" => put_ends(out, know, ticks),
        "steady_at" => put_steady(out, know, ticks),
        _ => put_piece(out, &know.piece(ticks.first, ticks.last)?),
    }
    Ok(())
}

/// Prints what is known of each of these ticks.
fn put_values(out: &mut Page, know: &Know, ticks: TickRange) {
    out.push(' ');
    for tick in ticks.first..=ticks.last {
        out.push(' ');
        put_value(out, &know.at(tick));
    }
    out.push('\n');
}

/// Prints for each of these ticks the ticks from there on of which the same is known.
fn put_ends(out: &mut Page, know: &Know, ticks: TickRange) {
    out.push(' ');
    for tick in ticks.first..=ticks.last {
        out.push(' ');
        put_ticks(out, tick, know.steady_until(tick));
    }
    out.push('\n');
}

/// Prints what is known of each of these ticks, with the ticks from there on of which the same is known.
fn put_steady(out: &mut Page, know: &Know, ticks: TickRange) {
    out.push(' ');
    for tick in ticks.first..=ticks.last {
        let steady = know.steady_at(tick);
        out.push(' ');
        put_on(out, tick, steady.last, &steady.value);
    }
    out.push('\n');
}

/// Reads a piece, prints what it brings, and learns it where the call does.
pub fn bring(
    alloc: Global,
    know: &mut Know,
    call: &str,
    words: &str,
    out: &mut Page,
) -> Result<(), Stop> {
    let (words, rest) = words.split_once(" for ").unwrap_or((words, ""));
    let came = piece(alloc, words)?;
    take_piece(know, &came, call, rest, out)
}

/// Prints what a piece brings, and learns it where the call does.
fn take_piece(
    know: &mut Know,
    came: &Piece<K>,
    call: &str,
    rest: &str,
    out: &mut Page,
) -> Result<(), Stop> {
    match call {
        "clash" => clash(know, came, out),
        "room_for" => put_count(out, know.room_for(came).ok_or(Stop::NoRow)?),
        "news" => news(know, came, out)?,
        "learn" => learn(know, came, out)?,
        "horizon_with" => put_number(out, know.horizon_with(came, tick(rest)?)),
        _ => piece_with(know, came, rest, out)?,
    }
    Ok(())
}

/// Prints what is new of a piece.
fn news(know: &Know, came: &Piece<K>, out: &mut Page) -> Result<(), AllocError> {
    let fresh = know.news(came)?;
    put_piece(out, &fresh);
    Ok(())
}

/// Learns a piece, and prints what is new of it.
fn learn(know: &mut Know, came: &Piece<K>, out: &mut Page) -> Result<(), AllocError> {
    let fresh = know.learn(came)?;
    put_piece(out, &fresh);
    Ok(())
}

/// Prints where a piece clashes.
fn clash(know: &Know, came: &Piece<K>, out: &mut Page) {
    let clash = know.clash(came);
    put_clash(out, &clash);
}

/// Prints the tick of a clash, what is kept there and what came, or the word `none`.
fn put_clash(out: &mut Page, clash: &Option<Clash>) {
    match clash {
        None => out.push_str("  none\n"),
        Some(clash) => {
            write!(out, "  at {} ", clash.tick);
            put_value(out, &clash.kept);
            out.push(' ');
            put_value(out, &clash.came);
            out.push('\n');
        }
    }
}

/// Prints what would be known of ticks.
fn piece_with(know: &Know, came: &Piece<K>, word: &str, out: &mut Page) -> Result<(), Stop> {
    let ticks = range(word)?;
    put_piece(out, &know.piece_with(came, ticks.first, ticks.last)?);
    Ok(())
}

/// Makes an edit.
fn edit(alloc: Global, know: &mut Know, call: &str, words: &str) -> Result<(), Stop> {
    match call {
        "reserve" => Ok(know.reserve(number(words)? as usize)?),
        "join" => join(know, &piece(alloc, words)?),
        "finish" => finish(know, words),
        "finish_ready" => finish_ready(know, words),
        "forget" => forget(know, words),
        _ => Err(Stop::NoRow),
    }
}

/// Joins a piece in room that is counted ahead.
fn join(know: &mut Know, came: &Piece<K>) -> Result<(), Stop> {
    let room = know.room_for(came).ok_or(Stop::NoRow)?;
    know.reserve(room)?;
    know.join(came);
    Ok(())
}

/// Makes ticks final, where the call makes its own room.
fn finish(know: &mut Know, word: &str) -> Result<(), Stop> {
    let ticks = range(word)?;
    Ok(know.finish(ticks.first, ticks.last)?)
}

/// Makes ticks final in room that is made ahead.
fn finish_ready(know: &mut Know, word: &str) -> Result<(), Stop> {
    let ticks = range(word)?;
    know.reserve(2)?;
    know.finish_ready(ticks.first, ticks.last);
    Ok(())
}

/// Forgets the least events up to a tick, but for so many.
fn forget(know: &mut Know, words: &str) -> Result<(), Stop> {
    let (limit, upto) = words.split_once(" upto ").ok_or(Stop::NoRow)?;
    let limit = limit.parse::<u32>().map_err(|_| Stop::NoRow)?;
    Ok(know.forget(limit, number(upto)?)?)
}
