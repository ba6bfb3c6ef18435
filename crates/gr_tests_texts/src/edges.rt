//! Edges between brokers: what passes them.

ghost use Rattle.std.specs.Prelude.{◌≡◌, length};

use crate::words::{event, filter, put_counted, put_json, short_number};
use gr_edge::Edge;
use gr_event::{Join, Joins};
use gr_filter::Filter;
use gr_know::K;
use gr_tests_rows::{Page, Stop, TickRange, first_word, number, parted, range};
use gr_tick::{MAX_TICK, Piece, Run, Stream};
use std::alloc::Global;

/// An edge, how many subscribers are behind it, and the joins that are held.
struct Counted {
    edge: Edge,
    count: u16,
    joins: Joins,
    ghost counted: { length edge ≡ count },
}

impl Drop for Counted {
    fn drop(self) {
        let Counted {
            edge: _edge,
            count: _,
            joins: _joins,
        } = self;
    }
}

impl Counted {
    /// Puts a subscriber at the end.
    fn add(&mut self, filter: Option<&Filter>, late: Option<u16>) -> Result<(), Stop> {
        if self.count == u16::MAX {
            return Err(Stop::NoRow);
        }
        self.edge.add(filter, late)?;
        self.count += 1;
        Ok(())
    }

    /// Puts a join behind those that are held.
    fn join(&mut self, join: Join) -> Result<(), Stop> {
        if !self.joins.allows(join) {
            return Err(Stop::NoRow);
        }
        self.joins = self.joins.with(join)?;
        Ok(())
    }
}

/// Answers a row about an edge.
pub fn answer(alloc: Global, script: &str, page: &mut Page) -> Result<(), Stop> {
    let mut counted = Counted {
        edge: Edge::new(alloc),
        count: 0,
        joins: Joins::new(alloc),
    };
    take_all(alloc, &mut counted, script, page)
}

/// Takes each step of a script.
fn take_all(
    alloc: Global,
    counted: &mut Counted,
    script: &str,
    page: &mut Page,
) -> Result<(), Stop> {
    for step in script.split(" ; ") {
        take_step(alloc, counted, step, page)?;
    }
    Ok(())
}

/// Adds a subscriber or a join, or prints what the edge passes.
fn take_step(
    alloc: Global,
    counted: &mut Counted,
    step: &str,
    page: &mut Page,
) -> Result<(), Stop> {
    let (call, rest) = first_word(step);
    match call {
        "add" => add(alloc, counted, rest, None),
        "add_unfiltered" => counted.add(None, None),
        "add_late" => add_late(alloc, counted, rest),
        "add_late_unfiltered" => counted.add(None, Some(short_number(rest)?)),
        "join" => counted.join(join_of(rest)?),
        "pass" => pass(alloc, counted, rest, page),
        _ => Err(Stop::NoRow),
    }
}

/// Adds a subscriber with a filter.
fn add(alloc: Global, counted: &mut Counted, written: &str, late: Option<u16>) -> Result<(), Stop> {
    counted.add(Some(&filter(alloc, written)?.filter), late)
}

/// Adds a late subscriber, of which the number comes before the filter.
fn add_late(alloc: Global, counted: &mut Counted, words: &str) -> Result<(), Stop> {
    let (subscriber, written) = first_word(words);
    let late = Some(short_number(subscriber)?);
    add(alloc, counted, written, late)
}

/// The join that a word spells: a subscriber, a colon and a tick.
fn join_of(word: &str) -> Result<Join, Stop> {
    let (subscriber, tick) = parted(word, ":")?;
    Ok(Join {
        subscriber: short_number(subscriber)?,
        tick: number(tick)?,
    })
}

/// Prints what an edge passes of a piece.
fn pass(alloc: Global, counted: &Counted, words: &str, page: &mut Page) -> Result<(), Stop> {
    put_passed(counted, &piece(alloc, words)?, page);
    Ok(())
}

/// Prints what an edge passes of a piece.
fn put_passed(counted: &Counted, piece: &Piece<K>, page: &mut Page) {
    match counted.edge.pass(piece, &counted.joins) {
        Ok(passed) => put_piece(&passed, page),
        Err(_) => page.tear(),
    }
}

/// The piece that words spell, each a run: a letter, its ticks, and for D behind `=` the event.
fn piece(alloc: Global, words: &str) -> Result<Piece<K>, Stop> {
    let mut stream = Stream::new(alloc);
    for word in words.split_whitespace() {
        join(alloc, &mut stream, word)?;
    }
    Ok(stream.piece(1, MAX_TICK)?)
}

/// Joins the run of a word.
fn join(alloc: Global, stream: &mut Stream<K>, word: &str) -> Result<(), Stop> {
    let (run, json) = word.split_once('=').unwrap_or((word, ""));
    let (letter, ticks) = run.split_at_checked(1).ok_or(Stop::NoRow)?;
    join_value(stream, range(ticks)?, value(alloc, letter, json)?)
}

/// Joins a value on a range of ticks.
fn join_value(stream: &mut Stream<K>, ticks: TickRange, value: K) -> Result<(), Stop> {
    let room = stream
        .runs_in(ticks.first, ticks.last)
        .checked_add(1)
        .ok_or(Stop::NoRow)?;
    stream.reserve(room)?;
    stream.join_range(ticks.first, ticks.last, value);
    Ok(())
}

/// The value that a letter stands for.
fn value(alloc: Global, letter: &str, json: &str) -> Result<K, Stop> {
    match letter {
        "S" => Ok(K::S),
        "D" => Ok(K::D(event(alloc, json)?)),
        "F" => Ok(K::F),
        _ => Err(Stop::NoRow),
    }
}

/// Prints the runs of a piece.
fn put_piece(piece: &Piece<K>, page: &mut Page) {
    if piece.is_empty() {
        return page.push_str("  nothing\n");
    }
    page.push(' ');
    for i in 0..piece.len() {
        put_run(piece.run(i), page);
    }
    page.push('\n');
}

/// Prints a run.
fn put_run(run: &Run<K>, page: &mut Page) {
    put_counted(letter(&run.value), run.first, page);
    put_counted("-", run.last, page);
    if let K::D(event) = &run.value {
        page.push('=');
        put_json(event, page);
    }
}

/// The letter of a value, behind a blank.
fn letter(value: &K) -> &'static str {
    match value {
        K::Q => " Q",
        K::S => " S",
        K::D(_) => " D",
        K::F => " F",
    }
}
