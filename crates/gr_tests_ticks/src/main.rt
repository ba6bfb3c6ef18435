//! What the public calls of streams, pieces, knowledge, curiosity, what subscribers are handed, lists of joins, and
//! lists for edits anywhere answer, as a table: each row of standard input names a call and its arguments, and is
//! printed again with the answers below it. The files `stdin` and `stdout` in this crate's folder are the rows that are
//! tried, and what they have to answer.
#![tactic(auto)]

mod asks;
mod curiosity;
mod gaps;
mod joins;
mod knowledge;
mod knows;
mod lattices;
mod pieces;
mod spelled;
mod streams;
mod subends;
mod wants;

use gr_tests_rows::{Page, Stop, answers_to, time_of};
use std::alloc::Global;
use std::io;

fn main(rt: HostRuntime) -> io::Result<()> {
    let alloc = rt.alloc();
    for line in rt.lines(alloc) {
        let row = line?;
        if let Some(timed) = row.as_str().strip_prefix("time ") {
            let answer = time_of(&rt, alloc, timed, |row, out| call(alloc, row, out))?;
            print!(rt; "{}\n{answer}", row.as_str())?;
            continue;
        }
        let answers = answers_to(alloc, row.as_str(), |row, out| call(alloc, row, out))?;
        print!(rt; "{answers}")?;
    }
    Ok(())
}

/// Makes the call that a row names.
fn call(alloc: Global, row: &str, out: &mut Page) -> Result<(), Stop> {
    let (family, rest) = row.split_once(' ').ok_or(Stop::NoRow)?;
    match family {
        "asks" => asks::answer(alloc, rest, out),
        "gap" => gaps::answer(alloc, rest, out),
        "joins" => joins::answer(alloc, rest, out),
        "know" => knows::answer(alloc, rest, out),
        "piece" => pieces::answer(alloc, rest, out),
        "stream" => streams::answer(alloc, rest, out),
        "subend" => subends::answer(alloc, rest, out),
        "value" => lattices::answer(alloc, rest, out),
        "wants" => wants::answer(alloc, rest, out),
        _ => Err(Stop::NoRow),
    }
}
