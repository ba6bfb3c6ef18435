//! Tables of rows: how a driver program reads rows, makes the calls that they name, and prints what these answer.
//!
//! A row names a call and its arguments. It is printed again, with the call's answers indented below it. A row that
//! begins with `#` heads a family of rows, and is printed as it stands. The row `time N ROW` makes a call N times, and
//! says how long each took.
#![tactic(auto)]

mod page;
mod row;
mod text;
mod timing;
mod words;

pub use page::Page;
pub use row::{Stop, TickRange, bytes, number, range, unescaped};
use std::alloc::{AllocError, Global};
pub use text::spelled;
pub use timing::time_of;
pub use words::{Words, first_word, parted};

/// The row itself, and below it what its call answers; below a row that names no call, the words `no such row`. Want of
/// memory is the only error.
pub fn answers_to<C>(alloc: Global, row: &str, call: C) -> Result<String, AllocError>
where
    C: FnOnce(&str, &mut Page) -> Result<(), Stop>,
    requires { C.IsAlwaysCallable call }
{
    let mut page = Page::new(alloc);
    page.push_str(row);
    page.push('\n');
    if !row.is_empty() && !row.starts_with('#') {
        match call(row, &mut page) {
            Ok(()) => {}
            Err(Stop::NoRow) => page.push_str("  no such row\n"),
            Err(Stop::Memory) => return Err(AllocError),
        }
    }
    page.finish()
}
