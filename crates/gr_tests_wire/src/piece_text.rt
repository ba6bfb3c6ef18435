//! Pieces of knowledge and of curiosity as text: `S1-999 D1000-1000={"price":82} F1001-2000` and `C1-5 A6-9`.

use crate::script::cut_number;
use gr_curio::Q3;
use gr_event::Event;
use gr_know::K;
use gr_tests_rows::{Page, Stop, TickRange, number, range, unescaped};
use gr_tick::{Lattice, MAX_TICK, Piece, Run, Stream};
use std::alloc::Global;

/// From how many bytes on an event is printed as their number alone.
const LONG_EVENT: usize = 100;

/// The greatest number of ticks that a word may set one by one.
const MOST_ODD: u64 = 4096;

/// The piece that words spell, each of them joined to those before.
pub fn known(alloc: Global, words: &str) -> Result<Piece<K>, Stop> {
    let mut stream = Stream::new(alloc);
    join_all_known(alloc, &mut stream, words)?;
    Ok(stream.piece(1, MAX_TICK)?)
}

/// Joins what words say.
fn join_all_known(alloc: Global, stream: &mut Stream<K>, words: &str) -> Result<(), Stop> {
    for word in words.split(' ') {
        join_known(alloc, stream, word)?;
    }
    Ok(())
}

/// Joins what a word says: `S1-999`, `F5`, `D7=EVENT`, or `odd:2000:S` for each of the first 2,000 odd ticks.
fn join_known(alloc: Global, stream: &mut Stream<K>, word: &str) -> Result<(), Stop> {
    match word.strip_prefix("odd:") {
        Some(rest) => join_odd_known(alloc, stream, rest),
        None => join_range_known(alloc, stream, word),
    }
}

/// Joins what `COUNT:VALUE` says of the first odd ticks.
fn join_odd_known(alloc: Global, stream: &mut Stream<K>, rest: &str) -> Result<(), Stop> {
    let Some((count, value)) = rest.split_once(':') else {
        return Err(Stop::NoRow);
    };
    let Ok(count) = number(count) else {
        return Err(Stop::NoRow);
    };
    let value = known_value(alloc, value)?;
    join_odd(stream, count, &value)
}

/// Joins what a word says of a range.
fn join_range_known(alloc: Global, stream: &mut Stream<K>, word: &str) -> Result<(), Stop> {
    let Some(ticks) = word.strip_prefix(['S', 'D', 'F']) else {
        return Err(Stop::NoRow);
    };
    let (ticks, _) = ticks.split_once('=').unwrap_or((ticks, ""));
    let Ok(ticks) = range(ticks) else {
        return Err(Stop::NoRow);
    };
    let value = known_value(alloc, word)?;
    join(stream, ticks, &value)
}

/// The value that a word begins or ends with.
fn known_value(alloc: Global, word: &str) -> Result<K, Stop> {
    if word.starts_with('S') {
        return Ok(K::S);
    }
    if word.starts_with('F') {
        return Ok(K::F);
    }
    match word.split_once('=') {
        Some((_, event)) => known_event(alloc, event),
        None => Err(Stop::NoRow),
    }
}

/// The value of an event.
fn known_event(alloc: Global, text: &str) -> Result<K, Stop> {
    let event = event_of(alloc, text)?;
    Ok(K::D(event))
}

/// The event of a JSON text, or of `texts:3,2`: for each number a text of so many letters `x`, named from `a` on.
pub fn event_of(alloc: Global, text: &str) -> Result<Event, Stop> {
    match text.strip_prefix("texts:") {
        Some(lengths) => event_of_texts(alloc, lengths),
        None => event_of_json(alloc, text),
    }
}

/// The event of a JSON text.
fn event_of_json(alloc: Global, text: &str) -> Result<Event, Stop> {
    let text = unescaped(alloc, text)?;
    event_in(alloc, &text)
}

/// The event of texts of these lengths.
fn event_of_texts(alloc: Global, lengths: &str) -> Result<Event, Stop> {
    let mut page = Page::new(alloc);
    put_long_texts(&mut page, lengths)?;
    let text = page.finish()?;
    event_in(alloc, text.as_bytes())
}

/// The event of a JSON text in bytes.
fn event_in(alloc: Global, text: &[u8]) -> Result<Event, Stop> {
    match Event::from_text(alloc, text) {
        Ok(event) => Ok(event),
        Err(_) => Err(Stop::NoRow),
    }
}

/// Prints the JSON text of an event with texts of these lengths.
fn put_long_texts(page: &mut Page, lengths: &str) -> Result<(), Stop> {
    let mut name = b'a';
    for length in lengths.split(',') {
        let length = number(length)?;
        put_long_text(page, name, length);
        name = name.saturating_add(1);
    }
    page.push('}');
    Ok(())
}

/// Prints what stands before a name, the name, and a text of so many letters `x`.
fn put_long_text(page: &mut Page, name: u8, length: u64) {
    page.push(if name == b'a' { '{' } else { ',' });
    page.push('"');
    page.push(char::from(name));
    page.push_str("\":\"");
    for _ in 0..length {
        page.push('x');
    }
    page.push('"');
}

/// The piece that words spell, each of them joined to those before.
pub fn wanted(alloc: Global, words: &str) -> Result<Piece<Q3>, Stop> {
    let mut stream = Stream::new(alloc);
    join_all_wanted(&mut stream, words)?;
    Ok(stream.piece(1, MAX_TICK)?)
}

/// Joins what words say.
fn join_all_wanted(stream: &mut Stream<Q3>, words: &str) -> Result<(), Stop> {
    for word in words.split(' ') {
        join_wanted(stream, word)?;
    }
    Ok(())
}

/// Joins what a word says: `C1-999`, `A5`, or `odd:2000:A` for each of the first 2,000 odd ticks.
fn join_wanted(stream: &mut Stream<Q3>, word: &str) -> Result<(), Stop> {
    match word.strip_prefix("odd:") {
        Some(rest) => join_odd_wanted(stream, rest),
        None => join_range_wanted(stream, word),
    }
}

/// Joins what `COUNT:VALUE` says of the first odd ticks.
fn join_odd_wanted(stream: &mut Stream<Q3>, rest: &str) -> Result<(), Stop> {
    let Some((count, value)) = rest.split_once(':') else {
        return Err(Stop::NoRow);
    };
    let Ok(count) = number(count) else {
        return Err(Stop::NoRow);
    };
    let Some(value) = wanted_value(value) else {
        return Err(Stop::NoRow);
    };
    join_odd(stream, count, &value)
}

/// Joins what a word says of a range.
fn join_range_wanted(stream: &mut Stream<Q3>, word: &str) -> Result<(), Stop> {
    let Some(ticks) = word.strip_prefix(['C', 'A']) else {
        return Err(Stop::NoRow);
    };
    let Ok(ticks) = range(ticks) else {
        return Err(Stop::NoRow);
    };
    let Some(value) = wanted_value(word) else {
        return Err(Stop::NoRow);
    };
    join(stream, ticks, &value)
}

/// The value that a word begins with.
fn wanted_value(word: &str) -> Option<Q3> {
    if word.starts_with('C') {
        return Some(Q3::C);
    }
    if word.starts_with('A') {
        return Some(Q3::A);
    }
    None
}

/// Joins a value on a range.
fn join<V: Lattice>(stream: &mut Stream<V>, ticks: TickRange, value: &V) -> Result<(), Stop> {
    let inside = stream.runs_in(ticks.first, ticks.last);
    let Some(room) = inside.checked_add(1) else {
        return Err(Stop::Memory);
    };
    stream.reserve(room)?;
    stream.join_range(ticks.first, ticks.last, value.share());
    Ok(())
}

/// Joins a value on each of the first odd ticks.
fn join_odd<V: Lattice>(stream: &mut Stream<V>, count: u64, value: &V) -> Result<(), Stop> {
    if count > MOST_ODD {
        return Err(Stop::NoRow);
    }
    for k in 0..count {
        let tick = 2 * k + 1;
        let ticks = TickRange {
            first: tick,
            last: tick,
        };
        join(stream, ticks, value)?;
    }
    Ok(())
}

/// Prints what is known, with a space before each run.
pub fn put_known(alloc: Global, page: &mut Page, piece: &Piece<K>) {
    for i in 0..piece.len() {
        put_known_run(alloc, page, piece.run(i));
    }
}

/// Prints a run of knowledge behind a space.
pub fn put_known_run(alloc: Global, page: &mut Page, run: &Run<K>) {
    let letter = match &run.value {
        K::Q => 'Q',
        K::S => 'S',
        K::F => 'F',
        K::D(_) => 'D',
    };
    put_ticks(page, letter, run.first, run.last);
    if let K::D(event) = &run.value {
        page.push('=');
        put_event(alloc, page, event);
    }
}

/// Prints a letter and a range of ticks behind a space.
fn put_ticks(page: &mut Page, letter: char, first: u64, last: u64) {
    page.push(' ');
    page.push(letter);
    write!(page, "{first}-{last}");
}

/// Prints an event as JSON, a long one by its number of bytes.
pub fn put_event(alloc: Global, page: &mut Page, event: &Event) {
    let size = event.size();
    if size >= LONG_EVENT {
        write!(page, "{size}-bytes");
        return;
    }
    match event.json(alloc) {
        Ok(text) => page.push_escaped(text.as_slice()),
        Err(_) => page.tear(),
    }
}

/// Prints what is asked for, with a space before each run.
pub fn put_wanted(page: &mut Page, piece: &Piece<Q3>) {
    for i in 0..piece.len() {
        put_wanted_run(page, piece.run(i));
    }
}

/// Prints a run of curiosity behind a space.
fn put_wanted_run(page: &mut Page, run: &Run<Q3>) {
    let letter = match run.value {
        Q3::N => 'N',
        Q3::C => 'C',
        Q3::A => 'A',
    };
    put_ticks(page, letter, run.first, run.last);
}

/// A number and a tick, and what stands behind them: `NUMBER TICK EVENT`.
pub fn cut_numbers(text: &str) -> Option<(u64, u64, &str)> {
    let Some((number, rest)) = cut_number(text) else {
        return None;
    };
    match cut_number(rest) {
        Some((tick, event)) => Some((number, tick, event)),
        None => None,
    }
}
