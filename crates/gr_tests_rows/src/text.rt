//! Texts of any length in a row, and texts of many lines in an answer.

use crate::row::{Stop, number, unescaped};
use std::alloc::{AllocError, Global};
use std::fmt::Write;

/// The bytes that a text of pieces spells. ` ++ ` joins the pieces. A piece is a text, or `repeat N TEXT` for N copies
/// of a text; in a copy `{n}` stands for its number, from 0 on, and `{n+1}` for one more. The escapes are those of
/// `unescaped`.
pub fn spelled(alloc: Global, pieces: &str) -> Result<Vec<u8>, Stop> {
    let mut bytes = Vec::new(alloc);
    for piece in pieces.split(" ++ ") {
        push_piece(alloc, &mut bytes, piece)?;
    }
    Ok(bytes)
}

/// Puts a piece at the end.
fn push_piece(alloc: Global, bytes: &mut Vec<u8>, piece: &str) -> Result<(), Stop> {
    let Some(copies) = piece.strip_prefix("repeat ") else {
        return push_copies(alloc, bytes, piece, 1);
    };
    let (count, copy) = copies.split_once(' ').ok_or(Stop::NoRow)?;
    let count = number(count)?;
    match copy.split_once("{n") {
        Some((head, numbered)) => push_numbered(alloc, bytes, head, numbered, count),
        None => push_copies(alloc, bytes, copy, count),
    }
}

/// Puts so many copies of a text at the end.
fn push_copies(alloc: Global, bytes: &mut Vec<u8>, text: &str, count: u64) -> Result<(), Stop> {
    let copy = unescaped(alloc, text)?;
    for _ in 0..count {
        bytes.extend_from_slice(&copy)?;
    }
    Ok(())
}

/// Puts so many numbered copies of a text at the end.
fn push_numbered(
    alloc: Global,
    bytes: &mut Vec<u8>,
    head: &str,
    numbered: &str,
    count: u64,
) -> Result<(), Stop> {
    for n in 0..count {
        push_copies(alloc, bytes, head, 1)?;
        push_copies(alloc, bytes, copy(alloc, numbered, n)?.as_str(), 1)?;
    }
    Ok(())
}

/// What stands behind the first `{n` of copy `n`.
fn copy(alloc: Global, numbered: &str, n: u64) -> Result<String, AllocError> {
    let mut text = String::new(alloc);
    for part in numbered.split("{n") {
        put_number(&mut text, part, n)?;
    }
    Ok(text)
}

/// Prints what stood behind `{n`, with the number that this asks for.
fn put_number(text: &mut String, part: &str, n: u64) -> Result<(), AllocError> {
    match part.split_once('}') {
        Some(("", rest)) => write!(text, "{n}{rest}"),
        Some(("+1", rest)) => write!(text, "{}{rest}", n.wrapping_add(1)),
        _ => text.push_str(part),
    }
}
