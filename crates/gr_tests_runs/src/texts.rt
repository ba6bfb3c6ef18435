//! Texts with names, which rows make and later rows use.

use gr_tests_rows::{Stop, bytes, first_word, number, parted, unescaped};
use std::alloc::{AllocError, Global};

/// A text and its name.
#[derive(Drop)]
struct Named {
    name: String,
    text: Vec<u8>,
}

/// Texts by their names. A name that no row gave has the empty text.
#[derive(Drop)]
pub struct Texts {
    items: Vec<Named>,
}

impl Texts {
    /// No names.
    pub fn new(alloc: Global) -> Texts {
        Texts {
            items: Vec::new(alloc),
        }
    }

    /// The text of a name.
    pub fn of(&self, name: &str) -> &[u8] {
        match self.place(name) {
            Some(i) if i < self.items.len() => self.items[i].text.as_slice(),
            _ => &[],
        }
    }

    /// Where a name stands.
    fn place(&self, name: &str) -> Option<usize> {
        self.items.iter().position(|it| it.name.as_str() == name)
    }

    /// Gives a name this text, in place of what it had.
    pub fn put(&mut self, alloc: Global, name: &str, text: Vec<u8>) -> Result<(), Stop> {
        match self.place(name) {
            Some(i) if i < self.items.len() => self.items[i].text = text,
            _ => self.items.push(Named {
                name: String::from_str(alloc, name)?,
                text,
            })?,
        }
        Ok(())
    }

    /// The row `text NAME LINE`: the line, and a line feed, go behind what the name has.
    pub fn append_line(&mut self, alloc: Global, row: &str) -> Result<(), Stop> {
        let (name, line) = first_word(row);
        let mut text = Vec::from_slice(alloc, self.of(name))?;
        push_line(alloc, line, &mut text)?;
        self.put(alloc, name, text)
    }

    /// The row `more NAME OTHER`: the text of the other name goes behind what the name has.
    pub fn append_other(&mut self, alloc: Global, row: &str) -> Result<(), Stop> {
        let (name, other) = parted(row, " ")?;
        let mut text = Vec::from_slice(alloc, self.of(name))?;
        text.extend_from_slice(self.of(other))?;
        self.put(alloc, name, text)
    }

    /// The rows `let NAME = TEXT`, `let NAME is OTHER`, `let NAME hex DIGITS` and `let NAME times N TEXT`.
    pub fn set(&mut self, alloc: Global, row: &str) -> Result<(), Stop> {
        let (name, rest) = parted(row, " ")?;
        let (how, value) = first_word(rest);
        let text = self.made(alloc, how, value)?;
        self.put(alloc, name, text)
    }

    /// The text that a value spells.
    fn made(&self, alloc: Global, how: &str, value: &str) -> Result<Vec<u8>, Stop> {
        match how {
            "=" => unescaped(alloc, value),
            "is" => Ok(Vec::from_slice(alloc, self.of(value))?),
            "hex" => bytes(alloc, value),
            "times" => repeated(alloc, value),
            _ => Err(Stop::NoRow),
        }
    }
}

/// Puts a line with escapes behind a text, and a line feed.
fn push_line(alloc: Global, line: &str, text: &mut Vec<u8>) -> Result<(), Stop> {
    let line = unescaped(alloc, line)?;
    Ok(push_bytes(line.as_slice(), text)?)
}

/// Puts bytes and a line feed behind a text.
fn push_bytes(line: &[u8], text: &mut Vec<u8>) -> Result<(), AllocError> {
    text.extend_from_slice(line)?;
    text.push(b'\n')?;
    Ok(())
}

/// `N TEXT`: the text, so many times.
fn repeated(alloc: Global, row: &str) -> Result<Vec<u8>, Stop> {
    let (count, text) = parted(row, " ")?;
    let count = number(count)?;
    let piece = unescaped(alloc, text)?;
    Ok(copies(alloc, count, piece.as_slice())?)
}

/// So many copies of bytes.
fn copies(alloc: Global, count: u64, piece: &[u8]) -> Result<Vec<u8>, AllocError> {
    let mut whole = Vec::new(alloc);
    for _ in 0..count {
        whole.extend_from_slice(piece)?;
    }
    Ok(whole)
}
