//! What frames say of ticks, as a row has it: `S1-999`, `F7-`, `C4` and `A1-5` for values, `D8={"n":1}` for an event.

use crate::words::short_number;
use gr_curio::Q3;
use gr_event::{Event, Join, Joins};
use gr_know::K;
use gr_tests_rows::{Stop, TickRange, first_word, number, parted, range};
use gr_tick::{Lattice, MAX_TICK, Piece, Stream};
use std::alloc::Global;

/// The piece of knowledge that words spell.
pub fn knowledge(alloc: Global, words: &str) -> Result<Piece<K>, Stop> {
    let mut stream = Stream::new(alloc);
    for word in words.split(' ') {
        join_known(alloc, &mut stream, word)?;
    }
    Ok(stream.piece(1, MAX_TICK)?)
}

/// The joins that stand before the runs of a frame, as `joins 1:2000,2:2001`, if any do.
pub fn joins(alloc: Global, words: &str) -> Result<Joins, Stop> {
    let mut joins = Joins::new(alloc);
    let (word, rest) = first_word(words);
    if word == "joins" {
        let (list, _) = first_word(rest);
        for part in list.split(',') {
            let join = join_of(part)?;
            if !joins.allows(join) {
                return Err(Stop::NoRow);
            }
            joins = joins.with(join)?;
        }
    }
    Ok(joins)
}

/// The join that a word spells, by its subscriber and its tick.
pub fn join_of(word: &str) -> Result<Join, Stop> {
    let Some((subscriber, tick)) = word.split_once(':') else {
        return Err(Stop::NoRow);
    };
    Ok(Join {
        subscriber: short_number(subscriber)?,
        tick: number(tick)?,
    })
}

/// Joins what a word says.
fn join_known(alloc: Global, stream: &mut Stream<K>, word: &str) -> Result<(), Stop> {
    let ticks = range(ticks_of(word)?)?;
    let value = known(alloc, word)?;
    join(stream, ticks, &value)
}

/// The ticks behind the letter of a value.
fn ticks_of(word: &str) -> Result<&str, Stop> {
    let Some(rest) = word.strip_prefix(['S', 'D', 'F']) else {
        return Err(Stop::NoRow);
    };
    match rest.split_once('=') {
        Some((ticks, _)) => Ok(ticks),
        None => Ok(rest),
    }
}

/// The value of knowledge that a word begins with; an event stands behind `=`.
pub fn known(alloc: Global, word: &str) -> Result<K, Stop> {
    match word.as_bytes() {
        [b'Q', ..] => Ok(K::Q),
        [b'S', ..] => Ok(K::S),
        [b'F', ..] => Ok(K::F),
        [b'D', ..] => Ok(K::D(event_behind(alloc, word)?)),
        _ => Err(Stop::NoRow),
    }
}

/// The event that stands behind `=`.
fn event_behind(alloc: Global, word: &str) -> Result<Event, Stop> {
    let (_, text) = parted(word, "=")?;
    event(alloc, text)
}

/// The event of a JSON text.
pub fn event(alloc: Global, text: &str) -> Result<Event, Stop> {
    Event::from_text(alloc, text.as_bytes()).map_err(|_| Stop::NoRow)
}

/// The piece of curiosity that words spell.
pub fn curiosity(alloc: Global, words: &str) -> Result<Piece<Q3>, Stop> {
    let mut stream = Stream::new(alloc);
    for word in words.split(' ') {
        join_wanted(&mut stream, word)?;
    }
    Ok(stream.piece(1, MAX_TICK)?)
}

/// Joins what a word says.
fn join_wanted(stream: &mut Stream<Q3>, word: &str) -> Result<(), Stop> {
    if let Some(ticks) = word.strip_prefix('C') {
        return join(stream, range(ticks)?, &Q3::C);
    }
    match word.strip_prefix('A') {
        Some(ticks) => join(stream, range(ticks)?, &Q3::A),
        None => Err(Stop::NoRow),
    }
}

/// Joins a value on a range.
fn join<V: Lattice>(stream: &mut Stream<V>, ticks: TickRange, value: &V) -> Result<(), Stop> {
    let inside = stream.runs_in(ticks.first, ticks.last);
    let Some(room) = inside.checked_add(1) else {
        return Err(Stop::Memory);
    };
    stream.reserve(room)?;
    stream.join_range(ticks.first, ticks.last, value.share());
    Ok(())
}
