//! Scripts: ops that are set apart by ` ; `, each a word and its arguments, whose answers stand one to a line.

use gr_tests_rows::{Page, Stop, number};
use std::alloc::Global;

/// What stands between the ops of a script.
pub const NEXT: &str = " ; ";

/// What the ops of a script are done to.
pub trait Script {
    /// Does an op, and prints its answer.
    fn op(&mut self, alloc: Global, op: &str, page: &mut Page) -> Result<(), Stop>;
}

/// Does the ops of a script, and prints each with its answer behind it.
pub fn perform<S: Script>(
    alloc: Global,
    on: &mut S,
    ops: &str,
    page: &mut Page,
) -> Result<(), Stop> {
    for op in ops.split(NEXT) {
        put_op(page, op);
        on.op(alloc, op, page)?;
        page.push('\n');
    }
    Ok(())
}

/// Prints an op, behind which its answer stands.
pub fn put_op(page: &mut Page, op: &str) {
    page.push_str("  ");
    page.push_str(op);
    page.push_str(": ");
}

/// Prints a text in quotes.
pub fn put_quoted(page: &mut Page, text: &[u8]) {
    page.push('\'');
    page.push_escaped(text);
    page.push('\'');
}

/// Prints how many bytes there are, and then each in hexadecimal.
pub fn put_bytes(page: &mut Page, bytes: &[u8]) {
    write!(page, "{} bytes", bytes.len());
    if !bytes.is_empty() {
        page.push(' ');
        page.push_hex(bytes);
    }
}

/// The first word of a text and what stands behind it, which may be nothing.
pub fn first_word(text: &str) -> (&str, &str) {
    text.split_once(' ').unwrap_or((text, ""))
}

/// The number below 65,536 that a word spells, as that of a broker, a publisher or a lane.
pub fn short(word: &str) -> Option<u16> {
    word.parse::<u16>().ok()
}

/// The number below 256 that a word spells.
pub fn byte(word: &str) -> Option<u8> {
    word.parse::<u8>().ok()
}

/// The number below 65,536 that the first word of a text spells, and what stands behind it.
pub fn cut_short(text: &str) -> Option<(u16, &str)> {
    let Some((word, rest)) = text.split_once(' ') else {
        return None;
    };
    match word.parse::<u16>() {
        Ok(number) => Some((number, rest)),
        Err(_) => None,
    }
}

/// The number that the first word of a text spells, and what stands behind it.
pub fn cut_number(text: &str) -> Option<(u64, &str)> {
    let Some((word, rest)) = text.split_once(' ') else {
        return None;
    };
    match word.parse::<u64>() {
        Ok(number) => Some((number, rest)),
        Err(_) => None,
    }
}

/// The two numbers that a text of two words spells.
pub fn two_numbers(text: &str) -> Option<(u64, u64)> {
    let Some((first, word)) = cut_number(text) else {
        return None;
    };
    match word.parse::<u64>() {
        Ok(second) => Some((first, second)),
        Err(_) => None,
    }
}

/// The two numbers below 256 that a text of two words spells.
pub fn two_bytes(text: &str) -> Option<(u8, u8)> {
    let Some((first, second)) = text.split_once(' ') else {
        return None;
    };
    match (byte(first), byte(second)) {
        (Some(first), Some(second)) => Some((first, second)),
        _ => None,
    }
}

/// The numbers that a word lists, as `2,4`, or `none`.
pub fn numbers(alloc: Global, list: &str) -> Result<Vec<u64>, Stop> {
    let mut numbers = Vec::new(alloc);
    if list == "none" {
        return Ok(numbers);
    }
    push_numbers(&mut numbers, list)?;
    Ok(numbers)
}

/// Puts the numbers that a word lists behind others.
fn push_numbers(numbers: &mut Vec<u64>, list: &str) -> Result<(), Stop> {
    for word in list.split(',') {
        let number = number(word)?;
        numbers.push(number)?;
    }
    Ok(())
}
