//! Functions from ticks to values that are made from the first run to the last: a script for a piece, at the values of
//! either lattice.

ghost use Rattle.std.specs.Prelude.{◌≡◌, IfOk};
ghost use Rattle.gr_tick.specs.Stored.{IsRun};

use crate::spelled::{
    RunWord, Spelled, piece, put_count, put_on, put_piece, put_ticks, put_truth, put_value,
    run_word, value_of,
};
use gr_curio::Q3;
use gr_know::K;
use gr_tests_rows::{Page, Stop, TickRange, range};
use gr_tick::{Piece, Run, is_bottom};
use std::alloc::Global;

/// Answers a script for a piece: a line for each step.
pub fn answer(alloc: Global, row: &str, out: &mut Page) -> Result<(), Stop> {
    let (values, script) = row.split_once(' ').ok_or(Stop::NoRow)?;
    match values {
        "Q3" => play::<Q3>(alloc, script, out),
        "K" => play::<K>(alloc, script, out),
        _ => Err(Stop::NoRow),
    }
}

/// Takes the steps of a script one after the other.
fn play<V: Spelled>(alloc: Global, script: &str, out: &mut Page) -> Result<(), Stop> {
    let mut piece: Piece<V> = Piece::new(alloc);
    for step in script.split(" ; ") {
        take(alloc, &mut piece, step, out)?;
    }
    Ok(())
}

/// Takes a step: prints what a look answers, or the new piece in the place of the one before.
fn take<V: Spelled>(
    alloc: Global,
    piece: &mut Piece<V>,
    step: &str,
    out: &mut Page,
) -> Result<(), Stop> {
    let (call, words) = step.split_once(' ').unwrap_or((step, ""));
    match call {
        "len" => put_count(out, piece.len()),
        "is_empty" => put_truth(out, piece.is_empty()),
        "push" | "push_cut" | "copy" => {
            *piece = made(alloc, piece, call, words)?;
            put_piece(out, piece);
        }
        _ => look_at(piece, call, words, out)?,
    }
    Ok(())
}

/// Prints what is told of ticks.
fn look_at<V: Spelled>(
    piece: &Piece<V>,
    call: &str,
    words: &str,
    out: &mut Page,
) -> Result<(), Stop> {
    let ticks = range(words)?;
    match call {
        "at" => put_values(out, piece, ticks),
        "steady_until" => put_ends(out, piece, ticks),
        "steady_at" => put_steady(out, piece, ticks),
        "seek" => put_count(out, piece.seek(ticks.first)),
        "cut" => put_piece(out, &piece.cut(ticks.first, ticks.last)?),
        _ => return Err(Stop::NoRow),
    }
    Ok(())
}

/// Prints the value at each of these ticks.
fn put_values<V: Spelled>(out: &mut Page, piece: &Piece<V>, ticks: TickRange) {
    out.push(' ');
    for tick in ticks.first..=ticks.last {
        out.push(' ');
        put_value(out, &piece.at(tick));
    }
    out.push('\n');
}

/// Prints for each of these ticks the ticks from there on up to which the value stays.
fn put_ends<V: Spelled>(out: &mut Page, piece: &Piece<V>, ticks: TickRange) {
    out.push(' ');
    for tick in ticks.first..=ticks.last {
        out.push(' ');
        put_ticks(out, tick, piece.steady_until(tick));
    }
    out.push('\n');
}

/// Prints for each of these ticks the value with the ticks from there on up to which it stays.
fn put_steady<V: Spelled>(out: &mut Page, piece: &Piece<V>, ticks: TickRange) {
    out.push(' ');
    for tick in ticks.first..=ticks.last {
        let steady = piece.steady_at(tick);
        out.push(' ');
        put_on(out, tick, steady.last, &steady.value);
    }
    out.push('\n');
}

/// A new piece.
fn made<V: Spelled>(
    alloc: Global,
    piece: &Piece<V>,
    call: &str,
    words: &str,
) -> Result<Piece<V>, Stop> {
    match call {
        "push" => pushed(alloc, words),
        "push_cut" => pushed_cut(alloc, words),
        _ => Ok(piece.copy()?),
    }
}

/// The run that a word spells.
fn run<V: Spelled>(alloc: Global, word: &RunWord) -> Result<Run<V>, Stop>
    ensures alone { IfOk result (λ run. IsRun V.least run) }
    ensures first { IfOk result (λ run. run.first ≡ word.now.ticks.first) }
    ensures last { IfOk result (λ run. run.last ≡ word.now.ticks.last) }
{
    let value: V = value_of(alloc, word)?;
    if is_bottom(&value) {
        return Err(Stop::NoRow);
    }
    Ok(Run {
        first: word.ticks.first,
        last: word.ticks.last,
        value,
    })
}

/// The piece of one run and a later one, or of one alone.
fn pushed<V: Spelled>(alloc: Global, words: &str) -> Result<Piece<V>, Stop> {
    let mut piece = Piece::new(alloc);
    let Some((first, second)) = words.split_once(' ') else {
        piece.push(run(alloc, &run_word(words)?)?)?;
        return Ok(piece);
    };
    let first = run_word(first)?;
    let second = run_word(second)?;
    if second.ticks.first <= first.ticks.last {
        return Err(Stop::NoRow);
    }
    piece.push(run(alloc, &first)?)?;
    piece.push(run(alloc, &second)?)?;
    Ok(piece)
}

/// The piece of what a run has in a range.
fn pushed_cut<V: Spelled>(alloc: Global, words: &str) -> Result<Piece<V>, Stop> {
    let (word, ticks) = words.split_once(" in ").ok_or(Stop::NoRow)?;
    let ticks = range(ticks)?;
    let run = run(alloc, &run_word(word)?)?;
    let mut piece = Piece::new(alloc);
    piece.push_cut(&run, ticks.first, ticks.last)?;
    Ok(piece)
}
