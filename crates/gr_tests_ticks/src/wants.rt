//! What the children of a broker ask and have acknowledged: a script for so many children.

ghost use Rattle.std.specs.Prelude.{◌<◌, ◌≤◌, IfOk, length};
ghost use Rattle.std.specs.Option.{ForSome};

use crate::spelled::{
    piece, put_count, put_number, put_on, put_piece, put_ticks, put_truth, put_value, tick,
};
use gr_curio::{Q3, Wants};
use gr_tests_rows::{Page, Stop, TickRange, number, range};
use gr_tick::{MAX_TICK, Piece};
use std::alloc::Global;

/// Answers a script for the children of a broker, whose number comes first: a line for each step.
pub fn answer(alloc: Global, row: &str, out: &mut Page) -> Result<(), Stop> {
    let (children, script) = row.split_once(' ').ok_or(Stop::NoRow)?;
    let mut wants = Wants::new(alloc, number(children)? as usize)?;
    for step in script.split(" ; ") {
        take(alloc, &mut wants, step, out)?;
    }
    Ok(())
}

/// Takes a step.
fn take(alloc: Global, wants: &mut Wants, step: &str, out: &mut Page) -> Result<(), Stop> {
    let (call, words) = step.split_once(' ').unwrap_or((step, ""));
    match call {
        "children" => put_count(out, wants.children()),
        "curious" => put_piece(out, &wants.curious()?),
        "consolidate" => consolidate(wants, words, out)?,
        "consolidated_upto" => consolidated_upto(wants, words, out)?,
        "completed" => completed(alloc, wants, words, out)?,
        _ => {
            let (child, words) = words.split_once(' ').unwrap_or((words, ""));
            take_child(alloc, wants, call, number(child)? as usize, words, out)?;
        }
    }
    Ok(())
}

/// The horizon that words spell, as `horizon 3`, if they do.
fn horizon(words: &str) -> Result<Option<u64>, Stop>
    ensures { IfOk result (λ h. ForSome h (λ tick. tick ≤ MAX_TICK)) }
{
    if words.is_empty() {
        return Ok(None);
    }
    let word = words.strip_prefix("horizon ").ok_or(Stop::NoRow)?;
    Ok(Some(tick(word)?))
}

/// Prints what every child has acknowledged, up to the horizon if one is kept.
fn consolidate(wants: &Wants, words: &str, out: &mut Page) -> Result<(), Stop> {
    match horizon(words)? {
        None => {
            if wants.children() == 0 {
                return Err(Stop::NoRow);
            }
            put_piece(out, &wants.consolidate(None)?);
        }
        Some(tick) => put_piece(out, &wants.consolidate(Some(tick))?),
    }
    Ok(())
}

/// Prints up to which tick every child has acknowledged all, at most up to a limit.
fn consolidated_upto(wants: &Wants, words: &str, out: &mut Page) -> Result<(), Stop> {
    let (limit, words) = words.split_once(' ').unwrap_or((words, ""));
    let limit = tick(limit)?;
    match horizon(words)? {
        None => {
            if wants.children() == 0 {
                return Err(Stop::NoRow);
            }
            put_number(out, wants.consolidated_upto(None, limit));
        }
        Some(tick) => put_number(out, wants.consolidated_upto(Some(tick), limit)),
    }
    Ok(())
}

/// Prints what of a piece every child has acknowledged, but one that may be left out.
fn completed(alloc: Global, wants: &Wants, words: &str, out: &mut Page) -> Result<(), Stop> {
    let (words, rest) = words.split_once(" upto ").ok_or(Stop::NoRow)?;
    let (upto, but) = rest.split_once(" but ").unwrap_or((rest, ""));
    let upto = number(upto)?;
    let but = left_out(but)?;
    let news = piece(alloc, words)?;
    put_completed(wants, but, &news, upto, out)
}

/// The child that a word leaves out, if there is a word.
fn left_out(word: &str) -> Result<Option<usize>, Stop> {
    if word.is_empty() {
        return Ok(None);
    }
    Ok(Some(number(word)? as usize))
}

fn put_completed(
    wants: &Wants,
    but: Option<usize>,
    news: &Piece<Q3>,
    upto: u64,
    out: &mut Page,
) -> Result<(), Stop> {
    let done = wants.completed(but, news, upto)?;
    put_piece(out, &done);
    Ok(())
}

/// Takes a step at one child: prints what a look answers, or the child's runs after an edit.
fn take_child(
    alloc: Global,
    wants: &mut Wants,
    call: &str,
    child: usize,
    words: &str,
    out: &mut Page,
) -> Result<(), Stop> {
    match call {
        "len" | "covers" | "room_for" | "copy" => look(alloc, wants, call, child, words, out),
        "at" | "steady_until" | "steady_at" | "piece" => {
            look_at(wants, call, child, range(words)?, out)
        }
        _ => {
            edit(alloc, wants, call, child, words)?;
            put_child(out, wants, child)
        }
    }
}

/// A number that is one of a child.
fn known(wants: &Wants, child: usize) -> Result<usize, Stop>
    ensures { IfOk result (λ child. child < length wants.now) }
{
    if child < wants.children() {
        return Ok(child);
    }
    Err(Stop::NoRow)
}

/// Prints a child's runs.
fn put_child(out: &mut Page, wants: &Wants, child: usize) -> Result<(), Stop> {
    let child = known(wants, child)?;
    out.push(' ');
    if wants.len(child) == 0 {
        out.push_str(" none");
    }
    for i in 0..wants.len(child) {
        let run = wants.run(child, i);
        out.push(' ');
        put_on(out, run.first, run.last, &run.value);
    }
    out.push('\n');
    Ok(())
}

/// Prints what is told of a child's runs.
fn look(
    alloc: Global,
    wants: &Wants,
    call: &str,
    child: usize,
    words: &str,
    out: &mut Page,
) -> Result<(), Stop> {
    let child = known(wants, child)?;
    match call {
        "len" => put_count(out, wants.len(child)),
        "covers" => put_truth(out, wants.covers(child, number(words)?)),
        "room_for" => put_count(out, room_for(alloc, wants, child, words)?),
        _ => put_child(out, &wants.copy()?, child)?,
    }
    Ok(())
}

/// How many runs more of a child a piece may need.
fn room_for(alloc: Global, wants: &Wants, child: usize, words: &str) -> Result<usize, Stop>
    requires { child < length wants.now }
{
    let piece = piece(alloc, words)?;
    wants.room_for(child, &piece).ok_or(Stop::NoRow)
}

/// Prints what is told of a child's ticks.
fn look_at(
    wants: &Wants,
    call: &str,
    child: usize,
    ticks: TickRange,
    out: &mut Page,
) -> Result<(), Stop> {
    let child = known(wants, child)?;
    match call {
        "at" => put_values(out, wants, child, ticks),
        "steady_until" => put_ends(out, wants, child, ticks),
        "steady_at" => put_steady(out, wants, child, ticks),
        _ => put_piece(out, &wants.piece(child, ticks.first, ticks.last)?),
    }
    Ok(())
}

/// Prints a child's value at each of these ticks.
fn put_values(out: &mut Page, wants: &Wants, child: usize, ticks: TickRange)
    requires { child < length wants.now }
{
    out.push(' ');
    for tick in ticks.first..=ticks.last {
        out.push(' ');
        put_value(out, &wants.at(child, tick));
    }
    out.push('\n');
}

/// Prints for each of these ticks the ticks from there on up to which a child's value stays.
fn put_ends(out: &mut Page, wants: &Wants, child: usize, ticks: TickRange)
    requires { child < length wants.now }
{
    out.push(' ');
    for tick in ticks.first..=ticks.last {
        out.push(' ');
        put_ticks(out, tick, wants.steady_until(child, tick));
    }
    out.push('\n');
}

/// Prints for each of these ticks a child's value with the ticks from there on up to which it stays.
fn put_steady(out: &mut Page, wants: &Wants, child: usize, ticks: TickRange)
    requires { child < length wants.now }
{
    out.push(' ');
    for tick in ticks.first..=ticks.last {
        let steady = wants.steady_at(child, tick);
        out.push(' ');
        put_on(out, tick, steady.last, &steady.value);
    }
    out.push('\n');
}

/// Makes an edit of a child's runs.
fn edit(
    alloc: Global,
    wants: &mut Wants,
    call: &str,
    child: usize,
    words: &str,
) -> Result<(), Stop> {
    match call {
        "raise" => raise(alloc, wants, child, words),
        "raise_ready" => raise_ready(alloc, wants, child, words),
        "take_out" => take_out(alloc, wants, child, words),
        "answered" => answered(wants, child, words),
        _ => Err(Stop::NoRow),
    }
}

/// Joins a piece, which makes its own room.
fn raise(alloc: Global, wants: &mut Wants, child: usize, words: &str) -> Result<(), Stop> {
    let piece = piece(alloc, words)?;
    let child = known(wants, child)?;
    Ok(wants.raise(child, &piece)?)
}

/// Joins a piece in room that is counted ahead.
fn raise_ready(alloc: Global, wants: &mut Wants, child: usize, words: &str) -> Result<(), Stop> {
    let piece = piece(alloc, words)?;
    let child = known(wants, child)?;
    let room = wants.room_for(child, &piece).ok_or(Stop::NoRow)?;
    wants.reserve(child, room)?;
    wants.raise_ready(child, &piece);
    Ok(())
}

/// Takes a piece out, in room for as many runs as it has.
fn take_out(alloc: Global, wants: &mut Wants, child: usize, words: &str) -> Result<(), Stop> {
    let piece = piece(alloc, words)?;
    let child = known(wants, child)?;
    wants.reserve(child, piece.len())?;
    wants.take_out(child, &piece);
    Ok(())
}

/// Ends what a child asks of ticks.
fn answered(wants: &mut Wants, child: usize, words: &str) -> Result<(), Stop> {
    let ticks = range(words)?;
    let child = known(wants, child)?;
    Ok(wants.answered(child, ticks.first, ticks.last)?)
}
