//! Numbers in a row, and numbers in an answer.

use gr_tests_rows::{Page, Stop, number};

/// The size that a word spells.
pub fn size(word: &str) -> Result<usize, Stop> {
    Ok(number(word)? as usize)
}

/// The number of 8 bits that a word spells.
pub fn small_number(word: &str) -> Result<u8, Stop> {
    let number = number(word)?;
    if number > 255 {
        return Err(Stop::NoRow);
    }
    Ok(number as u8)
}

/// The number of 16 bits that a word spells.
pub fn short_number(word: &str) -> Result<u16, Stop> {
    let number = number(word)?;
    if number > 65_535 {
        return Err(Stop::NoRow);
    }
    Ok(number as u16)
}

/// The number of 32 bits that a word spells.
pub fn line_number(word: &str) -> Result<u32, Stop> {
    let number = number(word)?;
    if number > 4_294_967_295 {
        return Err(Stop::NoRow);
    }
    Ok(number as u32)
}

/// Prints a word and a number behind it.
pub fn put_counted(word: &str, number: u64, page: &mut Page) {
    page.push_str(word);
    page.push_number(number);
}
