//! Lists of bytes and numbers, and values.

use crate::events::put_part;
use crate::words::{put_counted, short_number, spelled};
use gr_event::{Bytes, Numbers, Text, Value};
use gr_tests_rows::{Page, Stop, bytes, first_word, parted};
use std::alloc::{AllocError, Global};

/// Answers a row about lists.
pub fn answer(alloc: Global, row: &str, page: &mut Page) -> Result<(), Stop> {
    let (call, rest) = first_word(row);
    match call {
        "text" => text(alloc, rest, page),
        "same" => same(alloc, rest, page),
        "bytes" => byte_list(alloc, rest, page),
        "numbers" => numbers(alloc, rest, page),
        "value" => values(alloc, rest, page),
        _ => Err(Stop::NoRow),
    }
}

/// Prints the text to which the first side was added byte by byte, and the second one at once.
fn text(alloc: Global, row: &str, page: &mut Page) -> Result<(), Stop> {
    let (one, other) = parted(row, " | ").unwrap_or((row, ""));
    let mut text = Text::new(alloc);
    push_all(&mut text, spelled(alloc, one)?.as_slice())?;
    text.append(spelled(alloc, other)?.as_slice())?;
    put_whole(&text, page);
    Ok(())
}

/// Puts bytes behind a text, one by one.
fn push_all(text: &mut Text, bytes: &[u8]) -> Result<(), AllocError> {
    for byte in bytes {
        text.push(*byte)?;
    }
    Ok(())
}

/// Prints a text and its length.
fn put_whole(text: &Text, page: &mut Page) {
    page.push_str("  '");
    page.push_escaped(text.as_slice());
    put_counted("' ", text.len() as u64, page);
    page.push_str(" bytes\n");
}

/// Prints whether a text that is made from bytes is the same as one that is made of a vector.
fn same(alloc: Global, row: &str, page: &mut Page) -> Result<(), Stop> {
    let (one, other) = parted(row, " | ")?;
    put_same(alloc, &Text::from_vec(spelled(alloc, one)?), other, page)
}

/// Prints whether two texts are the same.
fn put_same(alloc: Global, one: &Text, other: &str, page: &mut Page) -> Result<(), Stop> {
    page.truth_line(one.same(&copied(alloc, other)?));
    Ok(())
}

/// The text that is made from bytes.
fn copied(alloc: Global, text: &str) -> Result<Text, Stop> {
    Ok(Text::from_slice(alloc, spelled(alloc, text)?.as_slice())?)
}

/// Prints the list of bytes to which the first side was added byte by byte, and the second one at once.
fn byte_list(alloc: Global, row: &str, page: &mut Page) -> Result<(), Stop> {
    let (one, other) = parted(row, " | ").unwrap_or((row, ""));
    let mut list = Bytes::new(alloc);
    push_each(&mut list, &Bytes::from_vec(bytes(alloc, one)?))?;
    list.append(bytes(alloc, other)?.as_slice())?;
    put_bytes(&Bytes::from_slice(alloc, list.as_slice())?, page);
    Ok(())
}

/// Puts the bytes of a list behind another, one by one.
fn push_each(list: &mut Bytes, bytes: &Bytes) -> Result<(), AllocError> {
    for byte in bytes.as_slice() {
        list.push(*byte)?;
    }
    Ok(())
}

/// Prints a list of bytes and its length.
fn put_bytes(list: &Bytes, page: &mut Page) {
    page.push_str("  [");
    page.push_hex(list.as_slice());
    put_counted("] ", list.len() as u64, page);
    page.push_str(" bytes\n");
}

/// Prints the list to which numbers were added one by one.
fn numbers(alloc: Global, words: &str, page: &mut Page) -> Result<(), Stop> {
    let mut list = Numbers::new(alloc);
    for word in words.split_whitespace() {
        list.push(short_number(word)?)?;
    }
    put_copy(&Numbers::from_slice(alloc, list.as_slice())?, page);
    Ok(())
}

/// Prints the copy of a list of numbers.
fn put_copy(copy: &Numbers, page: &mut Page) {
    put_counted("  ", copy.len() as u64, page);
    page.push(':');
    put_numbers(copy, page);
}

/// Prints numbers and the end of the line.
pub fn put_numbers(list: &Numbers, page: &mut Page) {
    for number in list.as_slice() {
        put_counted(" ", u64::from(*number), page);
    }
    page.push('\n');
}

/// Prints the first of two values as a reader sees it, and whether the second is the same.
fn values(alloc: Global, row: &str, page: &mut Page) -> Result<(), Stop> {
    let (one, other) = parted(row, " | ")?;
    put_values(alloc, &value(alloc, one)?, other, page)
}

/// Prints a value as a reader sees it, and whether another is the same.
fn put_values(alloc: Global, one: &Value, other: &str, page: &mut Page) -> Result<(), Stop> {
    page.push(' ');
    put_part(&one.part(), page);
    page.truth_line(value(alloc, other)?.same(one));
    Ok(())
}

/// The value that a word spells: `true`, `false`, an integer, or a text behind `'`.
fn value(alloc: Global, word: &str) -> Result<Value, Stop> {
    match word {
        "true" => Ok(Value::Bool(true)),
        "false" => Ok(Value::Bool(false)),
        _ => match word.strip_prefix('\'') {
            Some(text) => Ok(Value::Text(Text::from_vec(spelled(alloc, text)?))),
            None => Ok(Value::Int(integer(word)?)),
        },
    }
}

/// The integer that a word spells.
fn integer(word: &str) -> Result<i64, Stop> {
    match word.parse::<i64>() {
        Ok(number) => Ok(number),
        Err(_) => Err(Stop::NoRow),
    }
}
