//! How long a call takes.

use crate::page::Page;
use crate::row::{Stop, number};
use std::alloc::Global;
use std::io;
use std::time::{Clock, Instant};

/// Makes the call of `N ROW` so many times, and says how many nanoseconds each took, its reading of the row and its
/// printing included. Where the words are no such row, or the call refuses it, says so. Fails where the clock does, or
/// memory is refused.
pub fn time_of<T, C>(clock: &T, alloc: Global, words: &str, mut call: C) -> io::Result<String>
where
    T: Clock,
    C: FnMut(&str, &mut Page) -> Result<(), Stop>,
    requires { C.IsAlwaysCallable call }
{
    let (count, row) = words.split_once(' ').unwrap_or(("0", ""));
    let count = number(count).unwrap_or(0);
    if count == 0 {
        return Ok(String::from_str(alloc, "  no such row\n")?);
    }
    let start = Instant::now(clock)?;
    for _ in 0..count {
        let mut page = Page::new(alloc);
        if call(row, &mut page).is_err() {
            return Ok(String::from_str(alloc, "  no such row\n")?);
        }
        page.finish()?;
    }
    let nanos = start.elapsed(clock)?.as_nanos() / u128::from(count);
    Ok(format!(in alloc; "  {nanos} nanoseconds each\n")?)
}
