//! The list that is edited anywhere: a script for a list of numbers.

use crate::spelled::{put_count, put_number};
use gr_gap::Gap;
use gr_tests_rows::{Page, Stop, number};
use std::alloc::Global;

/// Answers a script for a list: a line for each step. A number before it says how much room is made for each insert.
pub fn answer(alloc: Global, row: &str, out: &mut Page) -> Result<(), Stop> {
    let (room, script) = row.split_once(' ').ok_or(Stop::NoRow)?;
    let room = number(room)? as usize;
    let mut list: Gap<u64> = Gap::new(alloc);
    for step in script.split(" ; ") {
        take(&mut list, room, step, out)?;
    }
    Ok(())
}

/// Takes a step: prints what a look answers, or what an edit does.
fn take(list: &mut Gap<u64>, room: usize, step: &str, out: &mut Page) -> Result<(), Stop> {
    let (call, words) = step.split_once(' ').unwrap_or((step, ""));
    match call {
        "list" => put_list(out, list),
        "len" => put_count(out, list.len()),
        "digest" => put_number(out, digest(list)),
        "near" => put_count(out, list.near()),
        "edits" => edits(list, room, words, out)?,
        "fill" => put_count(out, fill(list, room, words)?),
        "drain" => put_count(out, drain(list, words)?),
        "get" => get(list, words, out)?,
        _ => {
            edit(list, call, words)?;
            put_list(out, list);
        }
    }
    Ok(())
}

/// Prints the values in order.
fn put_list(out: &mut Page, list: &Gap<u64>) {
    out.push(' ');
    if list.len() == 0 {
        out.push_str(" none");
    }
    for i in 0..list.len() {
        write!(out, " {}", *list.get(i));
    }
    out.push('\n');
}

/// A number for all values in their order: from 0 on, for each value 31 times the one before and the value.
fn digest(list: &Gap<u64>) -> u64 {
    let mut digest = 0u64;
    for i in 0..list.len() {
        digest = digest.wrapping_mul(31).wrapping_add(*list.get(i));
    }
    digest
}

/// Prints the value at a place.
fn get(list: &Gap<u64>, word: &str, out: &mut Page) -> Result<(), Stop> {
    let i = number(word)? as usize;
    if i >= list.len() {
        return Err(Stop::NoRow);
    }
    put_number(out, *list.get(i));
    Ok(())
}

/// Makes room, or notes a place.
fn edit(list: &mut Gap<u64>, call: &str, word: &str) -> Result<(), Stop> {
    let number = number(word)? as usize;
    match call {
        "reserve" => list.reserve(number)?,
        "note" => list.note(number),
        _ => return Err(Stop::NoRow),
    }
    Ok(())
}

/// Makes edits one after the other, and prints what they answer, and how many values there are then: `+3:17` puts 17 at
/// place 3, `=3:17` puts it in the place of the value there, and `-3` takes out the value there.
fn edits(list: &mut Gap<u64>, room: usize, words: &str, out: &mut Page) -> Result<(), Stop> {
    out.push(' ');
    for word in words.split(' ') {
        if let Some(word) = word.strip_prefix('+') {
            let (i, value) = place_and_value(word)?;
            insert(list, room, i, value)?;
        } else if let Some(word) = word.strip_prefix('=') {
            let (i, value) = place_and_value(word)?;
            write!(out, " {}", replace(list, i, value)?);
        } else {
            let word = word.strip_prefix('-').ok_or(Stop::NoRow)?;
            write!(out, " {}", remove(list, number(word)? as usize)?);
        }
    }
    write!(out, " len {}\n", list.len());
    Ok(())
}

/// A place and a value with a colon between.
fn place_and_value(word: &str) -> Result<(usize, u64), Stop> {
    let (place, value) = word.split_once(':').ok_or(Stop::NoRow)?;
    Ok((number(place)? as usize, number(value)?))
}

fn insert(list: &mut Gap<u64>, room: usize, i: usize, value: u64) -> Result<(), Stop> {
    list.reserve(room.max(1))?;
    if i > list.len() {
        return Err(Stop::NoRow);
    }
    list.insert(i, value);
    Ok(())
}

fn remove(list: &mut Gap<u64>, i: usize) -> Result<u64, Stop> {
    if i >= list.len() {
        return Err(Stop::NoRow);
    }
    Ok(list.remove(i))
}

fn replace(list: &mut Gap<u64>, i: usize, value: u64) -> Result<u64, Stop> {
    if i >= list.len() {
        return Err(Stop::NoRow);
    }
    Ok(list.replace(i, value))
}

/// Puts in so many values that count up, the first at a place and each one behind the one before, and answers how many
/// there are then: `5 at 3 from 100`.
fn fill(list: &mut Gap<u64>, room: usize, words: &str) -> Result<usize, Stop> {
    let (count, words) = words.split_once(" at ").ok_or(Stop::NoRow)?;
    let (place, first) = words.split_once(" from ").ok_or(Stop::NoRow)?;
    let place = number(place)?;
    let first = number(first)?;
    for step in 0..number(count)? {
        let i = place.wrapping_add(step) as usize;
        insert(list, room, i, first.wrapping_add(step))?;
    }
    Ok(list.len())
}

/// Takes out so many values at a place, and answers how many are left: `5 at 3`.
fn drain(list: &mut Gap<u64>, words: &str) -> Result<usize, Stop> {
    let (count, place) = words.split_once(" at ").ok_or(Stop::NoRow)?;
    let place = number(place)? as usize;
    for _ in 0..number(count)? {
        remove(list, place)?;
    }
    Ok(list.len())
}
