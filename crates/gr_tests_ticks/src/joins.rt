//! Lists of joins: a script for a list.
//!
//! A join is spelled by its subscriber and its tick, as `3:1000`.

use crate::spelled::put_count;
use gr_event::{Join, Joins};
use gr_tests_rows::{Page, Stop, number};
use std::alloc::{AllocError, Global};

/// Answers a script for a list: a line for each step.
pub fn answer(alloc: Global, row: &str, out: &mut Page) -> Result<(), Stop> {
    let mut joins = Joins::new(alloc);
    for step in row.split(" ; ") {
        take(alloc, &mut joins, step, out)?;
    }
    Ok(())
}

/// Takes a step: prints what a look answers, or the list that an edit leaves.
fn take(alloc: Global, joins: &mut Joins, step: &str, out: &mut Page) -> Result<(), Stop> {
    let (call, words) = step.split_once(' ').unwrap_or((step, ""));
    match call {
        "len" => put_count(out, joins.len()),
        "allows" => put_allowed(joins, words, out)?,
        "tick" => put_tick(joins, words, out)?,
        "has" => put_has(joins, words, out)?,
        "split" => split(alloc, joins, words, out)?,
        _ => {
            edit(alloc, joins, call, words)?;
            put_joins(out, joins.as_slice());
        }
    }
    Ok(())
}

/// Puts joins behind those of the list, each where it may stand there and else not, or makes the list anew of its joins.
fn edit(alloc: Global, joins: &mut Joins, call: &str, words: &str) -> Result<(), Stop> {
    match call {
        "with" => add_all(joins, words),
        "fill" => fill(joins, words),
        "copy" => copy(alloc, joins),
        _ => Err(Stop::NoRow),
    }
}

/// The join that a word spells.
fn join_of(word: &str) -> Result<Join, Stop> {
    let (subscriber, tick) = word.split_once(':').ok_or(Stop::NoRow)?;
    let subscriber = subscriber.parse::<u16>().map_err(|_| Stop::NoRow)?;
    let tick = number(tick)?;
    Ok(Join { subscriber, tick })
}

/// Puts a join behind those of the list, if it may stand there.
fn add(joins: &mut Joins, join: Join) -> Result<(), AllocError> {
    if joins.allows(join) {
        *joins = joins.with(join)?;
    }
    Ok(())
}

/// Puts in the joins that words spell, each if it may stand there.
fn add_all(joins: &mut Joins, words: &str) -> Result<(), Stop> {
    for word in words.split(' ') {
        add(joins, join_of(word)?)?;
    }
    Ok(())
}

/// Puts in the joins of so many subscribers, from 1 on, each at the tick of its own number.
fn fill(joins: &mut Joins, word: &str) -> Result<(), Stop> {
    for subscriber in 1..=word.parse::<u16>().map_err(|_| Stop::NoRow)? {
        let tick = u64::from(subscriber);
        add(joins, Join { subscriber, tick })?;
    }
    Ok(())
}

/// Makes the list anew of its joins.
fn copy(alloc: Global, joins: &mut Joins) -> Result<(), Stop> {
    *joins = Joins::of(alloc, joins.as_slice())?;
    Ok(())
}

/// Prints the joins in order.
fn put_joins(out: &mut Page, joins: &[Join]) {
    out.push(' ');
    if joins.is_empty() {
        out.push_str(" none");
    }
    for join in joins {
        put_join(out, *join);
    }
    out.push('\n');
}

/// Prints a join behind a blank.
fn put_join(out: &mut Page, join: Join) {
    write!(out, " {}:{}", join.subscriber, join.tick);
}

/// Prints for each join whether it may stand behind those of the list.
fn put_allowed(joins: &Joins, words: &str, out: &mut Page) -> Result<(), Stop> {
    out.push(' ');
    for word in words.split(' ') {
        let answer = if joins.allows(join_of(word)?) {
            " yes"
        } else {
            " no"
        };
        out.push_str(answer);
    }
    out.push('\n');
    Ok(())
}

/// Prints the tick at which a subscriber joined, and `none` where it has not.
fn put_tick(joins: &Joins, word: &str, out: &mut Page) -> Result<(), Stop> {
    let subscriber = word.parse::<u16>().map_err(|_| Stop::NoRow)?;
    match joins.tick_of(subscriber) {
        Some(tick) => write!(out, "  {tick}\n"),
        None => out.push_str("  none\n"),
    }
    Ok(())
}

/// Prints whether a subscriber has joined.
fn put_has(joins: &Joins, word: &str, out: &mut Page) -> Result<(), Stop> {
    let subscriber = word.parse::<u16>().map_err(|_| Stop::NoRow)?;
    write!(out, "  {}\n", joins.has(subscriber));
    Ok(())
}

/// Prints where the list splits from the one that words spell: the place, what stands there, and what came.
fn split(alloc: Global, joins: &Joins, words: &str, out: &mut Page) -> Result<(), Stop> {
    let mut other = Joins::new(alloc);
    add_all(&mut other, words)?;
    match joins.split_from(&other.share()) {
        Some(split) => {
            write!(out, "  {}", split.at);
            put_join(out, split.kept);
            put_join(out, split.came);
            out.push('\n');
        }
        None => out.push_str("  none\n"),
    }
    Ok(())
}
