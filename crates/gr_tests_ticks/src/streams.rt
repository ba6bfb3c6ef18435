//! Functions from ticks to values that are edited in place: a script for a stream, at the values of either lattice.

use crate::spelled::{
    Spelled, join_run, piece, put_count, put_number, put_on, put_piece, put_ticks, put_value,
    run_word, value_of,
};
use gr_curio::Q3;
use gr_know::K;
use gr_tests_rows::{Page, Stop, TickRange, number, range};
use gr_tick::Stream;
use std::alloc::Global;

/// Answers a script for a stream: a line for each step.
pub fn answer(alloc: Global, row: &str, out: &mut Page) -> Result<(), Stop> {
    let (values, script) = row.split_once(' ').ok_or(Stop::NoRow)?;
    match values {
        "Q3" => play::<Q3>(alloc, script, out),
        "K" => play::<K>(alloc, script, out),
        _ => Err(Stop::NoRow),
    }
}

/// Takes the steps of a script one after the other.
fn play<V: Spelled>(alloc: Global, script: &str, out: &mut Page) -> Result<(), Stop> {
    let mut stream: Stream<V> = Stream::new(alloc);
    for step in script.split(" ; ") {
        take(alloc, &mut stream, step, out)?;
    }
    Ok(())
}

/// Takes a step: prints what a look answers, or all runs after an edit.
fn take<V: Spelled>(
    alloc: Global,
    stream: &mut Stream<V>,
    step: &str,
    out: &mut Page,
) -> Result<(), Stop> {
    let (call, words) = step.split_once(' ').unwrap_or((step, ""));
    match call {
        "len" | "top" | "copy" | "room_for" => look(alloc, stream, call, words, out),
        "at" | "steady_until" | "steady_at" | "seek" | "runs_in" | "first_bottom_from" | "piece" =>
            look_at(stream, call, words, out),
        _ => {
            edit(alloc, stream, call, words)?;
            put_stream(out, stream);
            Ok(())
        }
    }
}

/// Prints what is told of all runs.
fn look<V: Spelled>(
    alloc: Global,
    stream: &Stream<V>,
    call: &str,
    words: &str,
    out: &mut Page,
) -> Result<(), Stop> {
    match call {
        "len" => put_count(out, stream.len()),
        "top" => put_number(out, stream.top()),
        "copy" => put_stream(out, &stream.copy()?),
        _ => put_count(out, room_for(alloc, stream, words)?),
    }
    Ok(())
}

/// How many runs more a piece that words spell may need.
fn room_for<V: Spelled>(alloc: Global, stream: &Stream<V>, words: &str) -> Result<usize, Stop> {
    let piece = piece::<V>(alloc, words)?;
    stream.room_for(&piece).ok_or(Stop::NoRow)
}

/// Prints what is told of ticks.
fn look_at<V: Spelled>(
    stream: &Stream<V>,
    call: &str,
    words: &str,
    out: &mut Page,
) -> Result<(), Stop> {
    let ticks = range(words)?;
    match call {
        "at" => put_values(out, stream, ticks),
        "steady_until" => put_ends(out, stream, ticks),
        "steady_at" => put_steady(out, stream, ticks),
        "seek" => put_count(out, stream.seek(ticks.first)),
        "runs_in" => put_count(out, stream.runs_in(ticks.first, ticks.last)),
        "first_bottom_from" => put_number(out, stream.first_bottom_from(ticks.first)),
        _ => put_piece(out, &stream.piece(ticks.first, ticks.last)?),
    }
    Ok(())
}

/// Prints the value at each of these ticks.
fn put_values<V: Spelled>(out: &mut Page, stream: &Stream<V>, ticks: TickRange) {
    out.push(' ');
    for tick in ticks.first..=ticks.last {
        out.push(' ');
        put_value(out, &stream.at(tick));
    }
    out.push('\n');
}

/// Prints for each of these ticks the ticks from there on up to which the value stays.
fn put_ends<V: Spelled>(out: &mut Page, stream: &Stream<V>, ticks: TickRange) {
    out.push(' ');
    for tick in ticks.first..=ticks.last {
        out.push(' ');
        put_ticks(out, tick, stream.steady_until(tick));
    }
    out.push('\n');
}

/// Prints for each of these ticks the value with the ticks from there on up to which it stays.
fn put_steady<V: Spelled>(out: &mut Page, stream: &Stream<V>, ticks: TickRange) {
    out.push(' ');
    for tick in ticks.first..=ticks.last {
        let steady = stream.steady_at(tick);
        out.push(' ');
        put_on(out, tick, steady.last, &steady.value);
    }
    out.push('\n');
}

/// Prints all runs.
fn put_stream<V: Spelled>(out: &mut Page, stream: &Stream<V>) {
    out.push(' ');
    if stream.len() == 0 {
        out.push_str(" none");
    }
    for i in 0..stream.len() {
        let run = stream.run(i);
        out.push(' ');
        put_on(out, run.first, run.last, &run.value);
    }
    out.push('\n');
}

/// Makes an edit.
fn edit<V: Spelled>(
    alloc: Global,
    stream: &mut Stream<V>,
    call: &str,
    words: &str,
) -> Result<(), Stop> {
    match call {
        "reserve" => Ok(stream.reserve(number(words)? as usize)?),
        "join_range" => join_run(alloc, stream, words),
        "set_range" => set_range(alloc, stream, words),
        "join_piece" => join_piece(alloc, stream, words),
        "join_ready" => join_ready(alloc, stream, words),
        "lower_piece" => lower_piece(alloc, stream, words),
        "lower_front" => lower_front(stream, words),
        _ => lower(stream, call, words),
    }
}

/// Puts a value at the ticks of a run, in room that is made ahead.
fn set_range<V: Spelled>(alloc: Global, stream: &mut Stream<V>, word: &str) -> Result<(), Stop> {
    let run = run_word(word)?;
    stream.reserve(2)?;
    let value = value_of(alloc, &run)?;
    stream.set_range(run.ticks.first, run.ticks.last, value);
    Ok(())
}

/// Joins a piece, which makes its own room.
fn join_piece<V: Spelled>(alloc: Global, stream: &mut Stream<V>, words: &str) -> Result<(), Stop> {
    let piece = piece::<V>(alloc, words)?;
    Ok(stream.join_piece(&piece)?)
}

/// Joins a piece in room that is counted ahead.
fn join_ready<V: Spelled>(alloc: Global, stream: &mut Stream<V>, words: &str) -> Result<(), Stop> {
    let piece = piece::<V>(alloc, words)?;
    let room = stream.room_for(&piece).ok_or(Stop::NoRow)?;
    stream.reserve(room)?;
    stream.join_ready(&piece);
    Ok(())
}

/// Takes a piece out, in room for as many runs as it has.
fn lower_piece<V: Spelled>(alloc: Global, stream: &mut Stream<V>, words: &str) -> Result<(), Stop> {
    let piece = piece::<V>(alloc, words)?;
    stream.reserve(piece.len())?;
    stream.lower_piece(&piece);
    Ok(())
}

/// Puts the least value at ticks, where the call makes its own room or finds it ready.
fn lower<V: Spelled>(stream: &mut Stream<V>, call: &str, word: &str) -> Result<(), Stop> {
    let ticks = range(word)?;
    match call {
        "lower_range" => Ok(stream.lower_range(ticks.first, ticks.last)?),
        "lower_ready" => {
            stream.reserve(1)?;
            stream.lower_ready(ticks.first, ticks.last);
            Ok(())
        }
        _ => Err(Stop::NoRow),
    }
}

/// Puts the least value at the first ticks of the run at a place.
fn lower_front<V: Spelled>(stream: &mut Stream<V>, words: &str) -> Result<(), Stop> {
    let (place, last) = words.split_once(' ').ok_or(Stop::NoRow)?;
    let place = number(place)? as usize;
    let last = number(last)?;
    if place >= stream.len() {
        return Err(Stop::NoRow);
    }
    let run = stream.run(place);
    if last < run.first || run.last < last {
        return Err(Stop::NoRow);
    }
    stream.lower_front(place, last);
    Ok(())
}
