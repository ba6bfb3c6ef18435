//! What report lines, pages, replays, soaks, worlds and the top call answer, as a table: each row of standard input
//! names a call and its arguments, and is printed again with the answers below it. Rows that begin with `text`, `let`
//! and `more` give names to texts, which later rows use. The files `stdin` and `stdout` in this crate's folder are
//! the rows that are tried, and what they have to answer.
#![tactic(auto)]

mod commands;
mod known;
mod lines;
mod pages;
mod replays;
mod report_lines;
mod reports;
mod soaks;
mod texts;
mod words;
mod worlds;

use crate::texts::Texts;
use gr_tests_rows::{Page, Stop, answers_to, parted, time_of};
use std::alloc::Global;
use std::io;

fn main(rt: HostRuntime) -> io::Result<()> {
    let alloc = rt.alloc();
    let mut texts = Texts::new(alloc);
    for line in rt.lines(alloc) {
        let row = line?;
        if let Some(timed) = row.as_str().strip_prefix("time ") {
            let answer = time_of(
                &rt,
                alloc,
                timed,
                |row, page| call(alloc, &mut texts, row, page),
            )?;
            print!(rt; "{}\n{answer}", row.as_str())?;
            continue;
        }
        let answers = answers_to(
            alloc,
            row.as_str(),
            |row, page| call(alloc, &mut texts, row, page),
        )?;
        print!(rt; "{answers}")?;
    }
    Ok(())
}

/// Makes the call that a row names.
fn call(alloc: Global, texts: &mut Texts, row: &str, page: &mut Page) -> Result<(), Stop> {
    let (family, rest) = parted(row, " ")?;
    match family {
        "report" => reports::answer(alloc, rest, page),
        "page" => pages::answer(alloc, rest, page),
        "replay" => replays::answer(alloc, rest, page),
        "soak" => soaks::answer(alloc, rest, page),
        "text" => texts.append_line(alloc, rest),
        "more" => texts.append_other(alloc, rest),
        "let" => texts.set(alloc, rest),
        "world" => worlds::answer(alloc, texts, rest, page),
        "gryphon" => commands::answer(alloc, texts, rest, page),
        _ => Err(Stop::NoRow),
    }
}
