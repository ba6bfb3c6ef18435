//! The words of a row: texts with escapes, bytes in hexadecimal, numbers, and ranges of ticks.

ghost use Rattle.std.specs.Prelude.{◌≤◌};
ghost use Rattle.gr_tick.specs.declared.TheConstants.{MAX_TICK};

use gr_tick::MAX_TICK;
use std::alloc::{AllocError, AllocFailed, Global};

/// Why a row has no answer.
#[derive(Clone, Copy, Debug, PartialEq, Eq)]
pub enum Stop {
    /// No memory was given.
    Memory,
    /// The row names no call, or its arguments are none of that call's.
    NoRow,
}

impl From<AllocError> for Stop {
    fn from(_: AllocError) -> Stop {
        Stop::Memory
    }
}

impl<T: Drop> From<AllocFailed<T>> for Stop {
    fn from(_: AllocFailed<T>) -> Stop {
        Stop::Memory
    }
}

/// How far a reader of a text is within an escape.
#[derive(Clone, Copy)]
enum Escape {
    None,
    Begun,
    Hex,
    Low(u8),
}

/// The value of a hexadecimal digit in lower case.
fn digit(byte: u8) -> Option<u8> {
    match byte {
        b'0'..=b'9' => Some(byte - b'0'),
        b'a'..=b'f' => Some(byte - b'a' + 10),
        _ => None,
    }
}

/// The byte that two hexadecimal digits spell.
fn paired(high: u8, low: u8) -> u8 {
    high.wrapping_mul(16).wrapping_add(low)
}

/// The bytes that a text spells: its own, but for `\n`, `\\`, `\s` for a space, and `\xHH` for any byte.
pub fn unescaped(alloc: Global, text: &str) -> Result<Vec<u8>, Stop> {
    let mut bytes = Vec::new(alloc);
    let mut escape = Escape::None;
    for byte in text.bytes() {
        escape = match (escape, byte) {
            (Escape::None, b'\\') => Escape::Begun,
            (Escape::Begun, b'x') => Escape::Hex,
            (Escape::Hex, _) => Escape::Low(digit(byte).ok_or(Stop::NoRow)?),
            (Escape::None, _) => {
                bytes.push(byte)?;
                Escape::None
            }
            (Escape::Begun, _) => {
                bytes.push(named(byte)?)?;
                Escape::None
            }
            (Escape::Low(high), _) => {
                bytes.push(paired(high, digit(byte).ok_or(Stop::NoRow)?))?;
                Escape::None
            }
        };
    }
    match escape {
        Escape::None => Ok(bytes),
        _ => Err(Stop::NoRow),
    }
}

/// The byte that a letter names behind a backslash.
fn named(letter: u8) -> Result<u8, Stop> {
    match letter {
        b'n' => Ok(b'\n'),
        b's' => Ok(b' '),
        b'\\' => Ok(b'\\'),
        _ => Err(Stop::NoRow),
    }
}

/// The bytes that hexadecimal digits spell; spaces between them are passed over.
pub fn bytes(alloc: Global, digits: &str) -> Result<Vec<u8>, Stop> {
    let mut bytes = Vec::new(alloc);
    let mut high = None;
    for byte in digits.bytes() {
        if byte == b' ' {
            continue;
        }
        let low = digit(byte).ok_or(Stop::NoRow)?;
        high = match high {
            None => Some(low),
            Some(first) => {
                bytes.push(paired(first, low))?;
                None
            }
        };
    }
    if high.is_some() {
        return Err(Stop::NoRow);
    }
    Ok(bytes)
}

/// The number that a word spells in decimal digits.
pub fn number(word: &str) -> Result<u64, Stop> {
    word.parse::<u64>().map_err(|_| Stop::NoRow)
}

/// Ticks from the first to the last one.
#[derive(Clone, Copy, Debug, PartialEq, Eq)]
pub struct TickRange {
    pub first: u64,
    pub last: u64,
    ghost from_one: { 1 ≤ first },
    ghost ordered: { first ≤ last },
    ghost upto: { last ≤ MAX_TICK },
}

/// The ticks that a word spells, as `4`, `1-999` or `7-` for all from 7 on.
pub fn range(word: &str) -> Result<TickRange, Stop> {
    let (from, to) = word.split_once('-').unwrap_or((word, word));
    let first = number(from)?;
    let last = if to.is_empty() { MAX_TICK } else { number(to)? };
    if first < 1 || last < first || last > MAX_TICK {
        return Err(Stop::NoRow);
    }
    Ok(TickRange { first, last })
}
