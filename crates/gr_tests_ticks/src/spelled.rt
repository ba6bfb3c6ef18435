//! Values of ticks, runs and pieces: how a row spells them, and how an answer does.
//!
//! A run is spelled by the letter of its value and its ticks, as `C1-9` or `S7-`. Behind that stands a colon and the
//! event, if the value has one, as in `D4:{"n":1}`.

ghost use Rattle.std.specs.Prelude.{◌≤◌, IfOk};

use gr_tests_rows::{Page, Stop, TickRange, number, range};
use gr_tick::{Lattice, MAX_TICK, Piece, Stream};
use std::alloc::Global;

/// A value that rows spell: by its name, of which the first letter is enough, and by a text that may follow it behind a
/// colon.
pub trait Spelled: Lattice {
    /// The value that these spell.
    fn read(alloc: Global, letter: char, text: &str) -> Result<Self, Stop>;

    /// Its name.
    fn name(&self) -> &'static str;

    /// Prints the text that follows, with its colon, if there is one.
    fn put_rest(&self, out: &mut Page);
}

/// A word that spells a run.
#[derive(Clone, Copy)]
pub struct RunWord<'a> {
    pub ticks: TickRange,
    letter: char,
    text: &'a str,
}

/// The parts of a word that spells a run.
pub fn run_word(word: &str) -> Result<RunWord<'_>, Stop> {
    let (front, text) = word.split_once(':').unwrap_or((word, ""));
    let mut letters = front.chars();
    let letter = letters.next().ok_or(Stop::NoRow)?;
    let ticks = range(letters.as_str())?;
    Ok(RunWord {
        ticks,
        letter,
        text,
    })
}

/// The value of a run that a word spells.
pub fn value_of<V: Spelled>(alloc: Global, run: &RunWord) -> Result<V, Stop> {
    V::read(alloc, run.letter, run.text)
}

/// The value that a word spells alone, as `C` or `D:{"n":1}`.
pub fn value<V: Spelled>(alloc: Global, word: &str) -> Result<V, Stop> {
    let (front, text) = word.split_once(':').unwrap_or((word, ""));
    let letter = front.chars().next().ok_or(Stop::NoRow)?;
    V::read(alloc, letter, text)
}

/// A tick that a word spells, or 0, which is before the first one.
pub fn tick(word: &str) -> Result<u64, Stop>
    ensures { IfOk result (λ tick. tick ≤ MAX_TICK) }
{
    let tick = number(word)?;
    if tick > MAX_TICK {
        return Err(Stop::NoRow);
    }
    Ok(tick)
}

/// Joins the run that a word spells, in room that is counted ahead.
pub fn join_run<V: Spelled>(alloc: Global, stream: &mut Stream<V>, word: &str) -> Result<(), Stop> {
    let run = run_word(word)?;
    let room = stream
        .runs_in(run.ticks.first, run.ticks.last)
        .checked_add(1)
        .ok_or(Stop::NoRow)?;
    stream.reserve(room)?;
    let value = value_of(alloc, &run)?;
    stream.join_range(run.ticks.first, run.ticks.last, value);
    Ok(())
}

/// The piece that words spell: the join of their runs. The word `none` spells the one that has no run.
pub fn piece<V: Spelled>(alloc: Global, words: &str) -> Result<Piece<V>, Stop> {
    let mut stream = Stream::new(alloc);
    if words != "none" {
        for word in words.split(' ') {
            join_run(alloc, &mut stream, word)?;
        }
    }
    Ok(stream.piece(1, MAX_TICK)?)
}

/// Prints ticks as a row spells them.
pub fn put_ticks(out: &mut Page, first: u64, last: u64) {
    if first == last {
        write!(out, "{first}");
    } else if last == MAX_TICK {
        write!(out, "{first}-");
    } else {
        write!(out, "{first}-{last}");
    }
}

/// Prints a value.
pub fn put_value<V: Spelled>(out: &mut Page, value: &V) {
    out.push_str(value.name());
    value.put_rest(out);
}

/// Prints a value on a range of ticks.
pub fn put_on<V: Spelled>(out: &mut Page, first: u64, last: u64, value: &V) {
    out.push_str(value.name());
    put_ticks(out, first, last);
    value.put_rest(out);
}

/// Prints a line of runs, the one after the other, or the word `none`.
pub fn put_piece<V: Spelled>(out: &mut Page, piece: &Piece<V>) {
    out.push(' ');
    if piece.is_empty() {
        out.push_str(" none");
    }
    for i in 0..piece.len() {
        let run = piece.run(i);
        out.push(' ');
        put_on(out, run.first, run.last, &run.value);
    }
    out.push('\n');
}

/// Prints a line with a number.
pub fn put_number(out: &mut Page, number: u64) {
    write!(out, "  {number}\n");
}

/// Prints a line with a place or a count.
pub fn put_count(out: &mut Page, count: usize) {
    write!(out, "  {count}\n");
}

/// Prints a line with a truth value.
pub fn put_truth(out: &mut Page, truth: bool) {
    write!(out, "  {truth}\n");
}
