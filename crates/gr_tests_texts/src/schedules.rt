//! Schedules: steps, lines and words.

ghost use Rattle.std.specs.Prelude.{◌≤◌, length};
ghost use Rattle.gr_sched.specs.declared.step.TheConstants.{MAX_INPUT_BYTES};

use crate::words::{put_counted, put_json, size};
use gr_event::Event;
use gr_sched::{
    Line, MAX_INPUT_BYTES, Names, Step, StepFault, Steps, after_word, count, is_blank,
    is_number_in, line_count, next_counted, parse, split, trimmed,
};
use gr_tests_rows::{Page, Stop, first_word, number, spelled};
use std::alloc::{AllocError, Global};

/// Brokers A and B-2, publishers P and stop, and a late subscriber T.
struct Two;

impl Names for Two {
    ghost use Rattle.std.specs.Prelude.{◌≡◌, ℕ, List, Option, Some, None, codes, bytes_eq, if◌then◌else◌};

    ghost naming = { λ _. record {
      broker = λ name. if bytes_eq name (codes "A") then Some 0 else if bytes_eq name (codes "B-2")
          then Some 1 else None;
      publisher = λ name. if bytes_eq name (codes "P") then Some 0 else if bytes_eq name (codes "stop")
          then Some 1 else None;
      joiner = λ name. if bytes_eq name (codes "T") then Some 2 else None;
    } };

    fn broker(&self, name: &[u8]) -> Option<u16> {
        if name == b"A".as_slice() {
            Some(0)
        } else if name == b"B-2".as_slice() {
            Some(1)
        } else {
            None
        }
    }

    fn publisher(&self, name: &[u8]) -> Option<u16> {
        if name == b"P".as_slice() {
            Some(0)
        } else if name == b"stop".as_slice() {
            Some(1)
        } else {
            None
        }
    }

    fn subscriber(&self, name: &[u8]) -> Option<u16> {
        if name == b"T".as_slice() {
            Some(2)
        } else {
            None
        }
    }
}

/// Answers a row about schedules.
pub fn answer(alloc: Global, row: &str, page: &mut Page) -> Result<(), Stop> {
    let (call, rest) = first_word(row);
    match call {
        "is-number" => put_is_number(alloc, rest, page),
        "push" => put_pushed(alloc, rest, page),
        _ => put_text_row(alloc, call, &spelled(alloc, rest)?, page),
    }
}

/// Answers a row about a text.
fn put_text_row(alloc: Global, call: &str, text: &[u8], page: &mut Page) -> Result<(), Stop> {
    match call {
        "read" => put_read(alloc, text, page)?,
        "size" => put_size(alloc, text, page)?,
        "split" => put_split(text, page),
        "is-blank" => page.truth_line(is_blank(text)),
        "lines" => put_lines(text, page)?,
        "words" => put_words(text, page),
        _ => return Err(Stop::NoRow),
    }
    Ok(())
}

/// What a text reads as.
fn read(alloc: Global, text: &[u8]) -> Result<Steps, StepFault>
    requires { length text.now ≤ MAX_INPUT_BYTES }
{
    parse(alloc, text, &Two)
}

/// Prints the steps of a text, or why there are none.
fn put_read(alloc: Global, text: &[u8], page: &mut Page) -> Result<(), Stop> {
    if text.len() > MAX_INPUT_BYTES {
        return Err(Stop::NoRow);
    }
    put_steps_read(&read(alloc, text), page);
    Ok(())
}

/// Prints steps, or why there are none.
fn put_steps_read(answer: &Result<Steps, StepFault>, page: &mut Page) {
    match answer {
        Ok(steps) => put_steps(steps.as_slice(), page),
        Err(fault) => put_fault(fault, page),
    }
}

/// Prints how many lines of a text are counted, and how many steps they are or why there are none.
fn put_size(alloc: Global, text: &[u8], page: &mut Page) -> Result<(), Stop> {
    if text.len() > MAX_INPUT_BYTES {
        return Err(Stop::NoRow);
    }
    put_counted("  counted ", count(text), page);
    page.push('\n');
    put_size_read(&read(alloc, text), page);
    Ok(())
}

/// Prints how many steps there are, or why there are none.
fn put_size_read(answer: &Result<Steps, StepFault>, page: &mut Page) {
    match answer {
        Ok(steps) => put_step_count(steps, page),
        Err(fault) => put_fault(fault, page),
    }
}

/// Prints how many steps there are.
fn put_step_count(steps: &Steps, page: &mut Page) {
    put_counted("  steps ", steps.len() as u64, page);
    page.push('\n');
}

/// Prints the number of a fault, its word and its line.
fn put_fault(fault: &StepFault, page: &mut Page) {
    match fault {
        StepFault::Memory => page.tear(),
        _ => {
            put_counted("  refused ", u64::from(fault.number()), page);
            write!(page, " {fault}\n");
        }
    }
}

/// Prints steps, each behind the number of its line; the word `nothing` where there are none.
pub fn put_steps(lines: &[Line], page: &mut Page) {
    if lines.is_empty() {
        page.push_str("  nothing\n");
    }
    for line in lines {
        put_counted("  line ", u64::from(line.number), page);
        page.push(' ');
        put_step(&line.step, page);
        page.push('\n');
    }
}

/// Prints a step. Brokers and publishers are numbers.
fn put_step(step: &Step, page: &mut Page) {
    match step {
        Step::Clock { now } => put_counted("clock ", *now, page),
        Step::Publish {
            publisher,
            number,
            stop,
            event,
        } => {
            put_pair("publish ", *publisher, *number, page);
            if let Some(stop) = stop {
                put_stop(stop, page);
            }
            put_event(event, page);
        }
        Step::Wake { broker } => put_counted("wake ", u64::from(*broker), page),
        Step::Deliver { frame } => put_counted("deliver ", *frame, page),
        Step::Crash { broker } => put_counted("crash ", u64::from(*broker), page),
        Step::Sweep => page.push_str("sweep"),
        Step::Show => page.push_str("show"),
        Step::Bytes { frame } => put_counted("bytes ", *frame, page),
        Step::Join {
            subscriber,
            publisher,
        } => put_pair("join ", *subscriber, u64::from(*publisher), page),
    }
}

/// Prints a number behind a word, and another behind a blank.
fn put_pair(word: &str, one: u16, other: u64, page: &mut Page) {
    put_counted(word, u64::from(one), page);
    put_counted(" ", other, page);
}

/// Prints where a publish is to stop.
fn put_stop(stop: &gr_sched::Stop, page: &mut Page) {
    put_counted(" stop ", u64::from(stop.call), page);
    put_counted(" pick ", u64::from(stop.pick), page);
}

/// Prints an event as JSON behind a blank.
fn put_event(event: &Event, page: &mut Page) {
    page.push(' ');
    put_json(event, page);
}

/// Prints the two parts of a scenario.
fn put_split(text: &[u8], page: &mut Page) {
    let (topology, steps) = split(text);
    put_quoted("  topology ", topology, page);
    put_quoted(" steps ", steps, page);
    page.push('\n');
}

/// Prints a text between quotes behind a word.
fn put_quoted(word: &str, text: &[u8], page: &mut Page) {
    page.push_str(word);
    page.push('\'');
    page.push_escaped(text);
    page.push('\'');
}

/// Prints the counted lines of a text, each behind its number, and how many lines there are in all.
fn put_lines(text: &[u8], page: &mut Page) -> Result<(), Stop> {
    let mut before = 0;
    let mut rest = text;
    for _ in 0..count(text) {
        if rest.len() > MAX_INPUT_BYTES || before > 100_000 {
            return Err(Stop::NoRow);
        }
        let Some(counted) = next_counted(before, rest) else {
            return Err(Stop::NoRow);
        };
        put_line(counted.number, counted.line, page);
        before = counted.number;
        rest = counted.rest;
    }
    put_counted("  lines ", line_count(text), page);
    page.push('\n');
    Ok(())
}

/// Prints a line behind its number.
fn put_line(number: u64, line: &[u8], page: &mut Page) {
    put_counted("  line ", number, page);
    put_quoted(" ", line, page);
    page.push('\n');
}

/// Prints a line without the blanks at its ends, its first word, and what follows that.
fn put_words(line: &[u8], page: &mut Page) {
    let text = trimmed(line);
    put_quoted("  trimmed ", text, page);
    put_quoted(" first ", gr_sched::first_word(text), page);
    put_quoted(" behind ", after_word(text), page);
    page.push('\n');
}

/// Prints whether a word is a number, as `2 0 64 WORD` for one of at most two digits from 0 to 64.
fn put_is_number(alloc: Global, row: &str, page: &mut Page) -> Result<(), Stop> {
    let words: Vec<&str> = row.split(' ').collect(alloc)?;
    put_number_words(words.as_slice(), page)
}

/// Prints whether the last of four words is a number.
fn put_number_words(words: &[&str], page: &mut Page) -> Result<(), Stop> {
    match words {
        [digits, low, high, word] => {
            let truth = is_number_in(size(digits)?, number(low)?, number(high)?, word.as_bytes());
            page.truth_line(truth);
            Ok(())
        }
        _ => Err(Stop::NoRow),
    }
}

/// Puts a step `sweep` into a list for each number of a line, and prints the list.
fn put_pushed(alloc: Global, row: &str, page: &mut Page) -> Result<(), Stop> {
    let mut steps = Steps::new(alloc);
    put_step_count(&steps, page);
    for word in row.split(' ') {
        push_sweep(word, &mut steps)?;
    }
    put_step_count(&steps, page);
    put_steps(steps.as_slice(), page);
    Ok(())
}

/// Puts a step `sweep` at the end, with the number of its line.
fn push_sweep(word: &str, steps: &mut Steps) -> Result<(), Stop> {
    let number = number(word)?;
    if number > 4_294_967_295 {
        return Err(Stop::NoRow);
    }
    Ok(push_step(number as u32, steps)?)
}

/// Puts a step `sweep` at the end, with this number of its line.
fn push_step(number: u32, steps: &mut Steps) -> Result<(), AllocError> {
    let step = Step::Sweep;
    steps.push(Line { number, step })
}
