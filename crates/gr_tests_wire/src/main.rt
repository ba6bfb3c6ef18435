//! What the public calls of disks, posts, logs, publishers' endpoints, frames, notes and clients answer, as a table:
//! each row of standard input names a call and its arguments, and is printed again with the answers below it. The
//! files `stdin` and `stdout` in this crate's folder are the rows that are tried, and what they have to answer.
#![tactic(auto)]

mod client_runs;
mod clients;
mod disks;
mod endpoints;
mod frame_stores;
mod frames;
mod joining;
mod log_stops;
mod logs;
mod notes;
mod outside;
mod piece_text;
mod posts;
mod script;

use gr_tests_rows::{Page, Stop, answers_to, time_of};
use std::alloc::Global;
use std::io;
use std::time::Clock;

fn main(rt: HostRuntime) -> io::Result<()> {
    let alloc = rt.alloc();
    for line in rt.lines(alloc) {
        let row = line?;
        let answers = answers(&rt, alloc, row.as_str())?;
        print!(rt; "{answers}")?;
    }
    Ok(())
}

/// The row itself, and below it what its call answers, or how long it takes.
fn answers<T: Clock>(clock: &T, alloc: Global, row: &str) -> io::Result<String> {
    match row.strip_prefix("time ") {
        Some(timed) => timing(clock, alloc, row, timed),
        None => Ok(answers_to(alloc, row, |row, page| call(alloc, row, page))?),
    }
}

/// The row itself, and below it how long its call takes.
fn timing<T: Clock>(clock: &T, alloc: Global, row: &str, timed: &str) -> io::Result<String> {
    let answer = time_of(clock, alloc, timed, |row, page| call(alloc, row, page))?;
    Ok(format!(in alloc; "{row}\n{answer}")?)
}

/// Makes the call that a row names.
fn call(alloc: Global, row: &str, page: &mut Page) -> Result<(), Stop> {
    let Some((family, rest)) = row.split_once(' ') else {
        return Err(Stop::NoRow);
    };
    match family {
        "source" => outside::reads(alloc, rest, page),
        "sink" => outside::writes(alloc, rest, page),
        "disk" => disks::calls(alloc, rest, page),
        "post" => posts::calls(alloc, rest, page),
        "log" => logs::lives(alloc, rest, page),
        "log-picks" => logs::picks(alloc, rest, page),
        "log-stops" => log_stops::answer(alloc, rest, page),
        "endpoint" => endpoints::calls(alloc, rest, page),
        "endpoint-joins" => joining::calls(alloc, rest, page),
        _ => call_above(alloc, family, rest, page),
    }
}

/// Makes the call of a family that stands on frames and notes, or calls laws.
fn call_above(alloc: Global, family: &str, rest: &str, page: &mut Page) -> Result<(), Stop> {
    match family {
        "frame" => frames::answer(alloc, rest, page),
        "store" => frame_stores::calls(alloc, rest, page),
        "note" => notes::answer(alloc, rest, page),
        "client" => clients::calls(alloc, rest, page),
        "client-run" => client_runs::answer(alloc, rest, page),
        "laws" => laws(rest, page),
        _ => Err(Stop::NoRow),
    }
}

/// Calls the laws of some crates.
fn laws(of: &str, page: &mut Page) -> Result<(), Stop> {
    match of {
        "logs" => logs::laws(page),
        "endpoints" => endpoints::laws(page),
        "clients" => clients::laws(page),
        _ => return Err(Stop::NoRow),
    }
    Ok(())
}
