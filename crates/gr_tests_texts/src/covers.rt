//! Whether one filter covers another.

use crate::filters::judged;
use crate::words::{filter, put_counted, put_json};
use gr_cover::{Cover, covers};
use gr_event::Event;
use gr_filter::{Filter, Kleene};
use gr_tests_rows::{Page, Stop, first_word, parted};
use std::alloc::{AllocError, Global};

/// The values that a plain search gives to `a` and to `b`; none where the name is absent.
static VALUES: [(&str, &str); 14] = [
    ("", ""),
    ("\"a\":false", "\"b\":false"),
    ("\"a\":true", "\"b\":true"),
    ("\"a\":-1", "\"b\":-1"),
    ("\"a\":0", "\"b\":0"),
    ("\"a\":1", "\"b\":1"),
    ("\"a\":2", "\"b\":2"),
    ("\"a\":3", "\"b\":3"),
    ("\"a\":4", "\"b\":4"),
    ("\"a\":5", "\"b\":5"),
    ("\"a\":\"A\"", "\"b\":\"A\""),
    ("\"a\":\"B\"", "\"b\":\"B\""),
    ("\"a\":\"x\"", "\"b\":\"x\""),
    ("\"a\":\"xx\"", "\"b\":\"xx\""),
];

/// Answers a row about a wide and a narrow filter.
pub fn answer(alloc: Global, row: &str, page: &mut Page) -> Result<(), Stop> {
    let (call, rest) = first_word(row);
    let (wide, narrow) = parted(rest, " | ")?;
    with_wide(alloc, call, &filter(alloc, wide)?.filter, narrow, page)
}

/// Reads the narrow filter too.
fn with_wide(
    alloc: Global,
    call: &str,
    wide: &Filter,
    narrow: &str,
    page: &mut Page,
) -> Result<(), Stop> {
    compare(alloc, call, wide, &filter(alloc, narrow)?.filter, page)
}

/// Makes a call on two filters.
fn compare(
    alloc: Global,
    call: &str,
    wide: &Filter,
    narrow: &Filter,
    page: &mut Page,
) -> Result<(), Stop> {
    match call {
        "covers" => Ok(put_covers(alloc, wide, narrow, page)?),
        "search" => put_told_apart(alloc, wide, narrow, page),
        _ => Err(Stop::NoRow),
    }
}

/// Prints whether a filter covers another.
fn put_covers(
    alloc: Global,
    wide: &Filter,
    narrow: &Filter,
    page: &mut Page,
) -> Result<(), AllocError> {
    put_cover(&covers(alloc, wide, narrow)?, page);
    Ok(())
}

/// Prints an answer, with the event that one filter matches and the other does not.
fn put_cover(cover: &Cover, page: &mut Page) {
    match cover {
        Cover::Yes => page.push_str("  yes"),
        Cover::No { event } => put_no(event, page),
        Cover::Unknown { parts } => put_counted("  unknown ", *parts as u64, page),
    }
    page.push('\n');
}

/// Prints the event that one filter matches and the other does not.
fn put_no(event: &Event, page: &mut Page) {
    page.push_str("  no ");
    put_json(event, page);
}

/// Prints how many events of the table the narrow filter matches and the wide one does not.
fn put_told_apart(
    alloc: Global,
    wide: &Filter,
    narrow: &Filter,
    page: &mut Page,
) -> Result<(), Stop> {
    let mut count = 0u64;
    for (a, _) in VALUES.iter() {
        for (_, b) in VALUES.iter() {
            let apart = tells_apart(alloc, wide, narrow, a, b)?;
            count = count.saturating_add(u64::from(apart));
        }
    }
    put_counted("  ", count, page);
    page.push_str(" of 196 events tell them apart\n");
    Ok(())
}

/// Whether the narrow filter matches the event with these two members and the wide one does not.
fn tells_apart(
    alloc: Global,
    wide: &Filter,
    narrow: &Filter,
    a: &str,
    b: &str,
) -> Result<bool, Stop> {
    let json = object(alloc, a, b)?;
    let matched = judged(alloc, narrow, json.as_str())? == Kleene::True;
    Ok(matched && judged(alloc, wide, json.as_str())? != Kleene::True)
}

/// The JSON of an object with these two members, each of which may be absent.
fn object(alloc: Global, a: &str, b: &str) -> Result<String, AllocError> {
    let comma = if a.is_empty() || b.is_empty() {
        ""
    } else {
        ","
    };
    let mut page = Page::new(alloc);
    page.push('{');
    page.push_str(a);
    page.push_str(comma);
    page.push_str(b);
    page.push('}');
    page.finish()
}
