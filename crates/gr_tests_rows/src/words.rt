//! The words of a row, read from the front on, with no error to look at behind each.

use crate::row::{Stop, TickRange, number, range};

/// What is left to read of a row. A word that is none of those that are asked for is noted, and read as the least that
/// there is; `check` tells of it.
#[derive(Clone, Copy, Drop)]
pub struct Words<'a> {
    rest: &'a str,
    is_bad: bool,
}

impl<'a> Words<'a> {
    /// All words.
    pub fn new(words: &'a str) -> Words<'a> {
        Words {
            rest: words,
            is_bad: false,
        }
    }

    /// Refuses the row, if one of the words that were read is none.
    pub fn check(&self) -> Result<(), Stop> {
        if self.is_bad {
            return Err(Stop::NoRow);
        }
        Ok(())
    }

    /// What is left.
    pub fn rest(&self) -> &'a str {
        self.rest
    }

    /// What stands before a mark, which has to be there; it and the mark are read.
    pub fn upto(&mut self, mark: &str) -> &'a str {
        match self.rest.split_once(mark) {
            Some((front, rest)) => {
                self.rest = rest;
                front
            }
            None => {
                self.is_bad = true;
                ""
            }
        }
    }

    /// The number that stands before a mark; it and the mark are read.
    pub fn number_upto(&mut self, mark: &str) -> u64 {
        let word = self.upto(mark);
        self.number_of(word)
    }

    /// The number that is all that is left.
    pub fn number(&mut self) -> u64 {
        self.number_of(self.rest)
    }

    /// The place or count that stands before a mark; it and the mark are read.
    pub fn count_upto(&mut self, mark: &str) -> usize {
        self.number_upto(mark) as usize
    }

    /// The place or count that is all that is left.
    pub fn count(&mut self) -> usize {
        self.number() as usize
    }

    /// The ticks that stand before a mark; they and the mark are read.
    pub fn range_upto(&mut self, mark: &str) -> TickRange {
        let word = self.upto(mark);
        self.range_of(word)
    }

    /// The ticks that are all that is left.
    pub fn range(&mut self) -> TickRange {
        self.range_of(self.rest)
    }

    /// The number that a word spells.
    fn number_of(&mut self, word: &str) -> u64 {
        match number(word) {
            Ok(number) => number,
            Err(_) => {
                self.is_bad = true;
                0
            }
        }
    }

    /// The ticks that a word spells.
    fn range_of(&mut self, word: &str) -> TickRange {
        match range(word) {
            Ok(ticks) => ticks,
            Err(_) => {
                self.is_bad = true;
                TickRange { first: 1, last: 1 }
            }
        }
    }
}

/// The first word, and what stands behind it.
pub fn first_word(words: &str) -> (&str, &str) {
    words.split_once(' ').unwrap_or((words, ""))
}

/// What stands before a mark and behind it.
pub fn parted<'a>(words: &'a str, mark: &str) -> Result<(&'a str, &'a str), Stop> {
    words.split_once(mark).ok_or(Stop::NoRow)
}
