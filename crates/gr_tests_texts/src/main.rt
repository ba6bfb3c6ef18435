//! What the public calls of events, filters, matching, covers, edges, one order, trees, topologies, schedules,
//! scenarios, match texts and journals answer, as a table: each row of standard input names a call and its arguments,
//! and is printed again with the answers below it. The files `stdin` and `stdout` in this crate's folder are the rows
//! that are tried, and what they have to answer.
#![tactic(auto)]

mod audits;
mod cover_texts;
mod covers;
mod edges;
mod events;
mod filters;
mod lists;
mod match_texts;
mod matches;
mod orders;
mod scenarios;
mod schedules;
mod topologies;
mod trees;
mod words;

use gr_tests_rows::{Page, Stop, answers_to, parted, time_of};
use std::alloc::Global;
use std::io;

fn main(rt: HostRuntime) -> io::Result<()> {
    let alloc = rt.alloc();
    for line in rt.lines(alloc) {
        let row = line?;
        if let Some(timed) = row.as_str().strip_prefix("time ") {
            let answer = time_of(&rt, alloc, timed, |row, page| call(alloc, row, page))?;
            print!(rt; "{}\n{answer}", row.as_str())?;
            continue;
        }
        let answers = answers_to(alloc, row.as_str(), |row, page| call(alloc, row, page))?;
        print!(rt; "{answers}")?;
    }
    Ok(())
}

/// Makes the call that a row names.
fn call(alloc: Global, row: &str, page: &mut Page) -> Result<(), Stop> {
    let (family, rest) = parted(row, " ")?;
    match family {
        "event" => events::answer(alloc, rest, page),
        "list" => lists::answer(alloc, rest, page),
        "filter" => filters::answer(alloc, rest, page),
        "match" => matches::answer(alloc, rest, page),
        "edge" => edges::answer(alloc, rest, page),
        "cover" => covers::answer(alloc, rest, page),
        "order" => orders::answer(alloc, rest, page),
        "tree" => trees::answer(alloc, rest, page),
        "topology" => topologies::answer(alloc, rest, page),
        "schedule" => schedules::answer(alloc, rest, page),
        "scenario" => scenarios::answer(alloc, rest, page),
        "match-text" => match_texts::answer(alloc, rest, page),
        "cover-text" => cover_texts::answer(alloc, rest, page),
        "audit" => audits::answer(alloc, rest, page),
        _ => Err(Stop::NoRow),
    }
}
