//! Whole soaks.

ghost use Rattle.std.specs.Prelude.{◌≤◌};
ghost use Rattle.gr_scenario.specs.Steps.{AreStepsOf};
ghost use Rattle.gr_soak.specs.declared.text.TheConstants.{MAX_TURNS};

use crate::words::size;
use gr_event::Text;
use gr_out::{MemSink, RunFault};
use gr_scenario::{Asked, read};
use gr_sched::{Steps, split};
use gr_soak::{MAX_TURNS, soak, soak_text, summary_of};
use gr_tests_rows::{Page, Stop, number};
use gr_topo::Topology;
use std::alloc::{AllocError, Global};

/// Answers a row about soaks of N turns: `run N ROOM` for what is printed, `text N` for the scenario, and `counts N
/// CACHE` for the counts where each broker keeps so many events.
pub fn answer(alloc: Global, row: &str, page: &mut Page) -> Result<(), Stop> {
    let words: Vec<&str> = row.split(' ').collect(alloc)?;
    answer_words(alloc, words.as_slice(), page)
}

/// Answers the words of a row.
fn answer_words(alloc: Global, words: &[&str], page: &mut Page) -> Result<(), Stop> {
    match words {
        ["run", turns, room] => put_soak(alloc, number(turns)?, size(room)?, page),
        ["text", turns] => put_text(alloc, number(turns)?, page),
        ["counts", turns, cache] => put_counts(alloc, number(turns)?, cache, page),
        _ => Err(Stop::NoRow),
    }
}

/// Prints what a soak writes into a sink with so much room.
fn put_soak(alloc: Global, turns: u64, room: usize, page: &mut Page) -> Result<(), Stop> {
    if turns < 1 || turns > MAX_TURNS {
        return Err(Stop::NoRow);
    }
    let mut sink = MemSink::new(alloc, room, &[])?;
    let ended = soak(alloc, turns, &mut sink);
    page.push_lines(sink.bytes());
    put_end(&ended, page);
    Ok(())
}

/// Prints the word `failed` where a sink failed.
fn put_end(ended: &Result<(), RunFault>, page: &mut Page) {
    match ended {
        Ok(()) => {}
        Err(RunFault::Write) => page.push_str("  the sink failed\n"),
        Err(_) => page.tear(),
    }
}

/// The scenario of a soak.
fn text_of(alloc: Global, turns: u64) -> Result<Text, Stop> {
    if turns < 1 || turns > MAX_TURNS {
        return Err(Stop::NoRow);
    }
    Ok(soak_text(alloc, turns)?)
}

/// Prints the scenario of a soak.
fn put_text(alloc: Global, turns: u64, page: &mut Page) -> Result<(), Stop> {
    page.push_lines(text_of(alloc, turns)?.as_slice());
    Ok(())
}

/// A scenario in which each broker keeps so many events past what is final.
fn with_cache(alloc: Global, scenario: &[u8], cache: &str) -> Result<Text, AllocError> {
    let (topology, steps) = split(scenario);
    let mut forgetful = Text::from_slice(alloc, topology)?;
    append_steps(steps, cache, &mut forgetful)?;
    Ok(forgetful)
}

/// Puts settings behind the topology of a scenario, and steps behind them.
fn append_steps(steps: &[u8], cache: &str, scenario: &mut Text) -> Result<(), AllocError> {
    scenario.append(b"[settings]\ncache = ")?;
    scenario.append(cache.as_bytes())?;
    scenario.append(b"\n---\n")?;
    scenario.append(steps)
}

/// Prints the counts of a soak in which each broker keeps so many events.
fn put_counts(alloc: Global, turns: u64, cache: &str, page: &mut Page) -> Result<(), Stop> {
    let text = text_of(alloc, turns)?;
    put_counts_with(alloc, text.as_slice(), cache, page)
}

/// Prints the counts of a scenario in which each broker keeps so many events.
fn put_counts_with(alloc: Global, text: &[u8], cache: &str, page: &mut Page) -> Result<(), Stop> {
    let text = with_cache(alloc, text, cache)?;
    put_counts_of(alloc, text.as_slice(), page)
}

/// Prints the counts of a scenario.
fn put_counts_of(alloc: Global, text: &[u8], page: &mut Page) -> Result<(), Stop> {
    match read(alloc, text) {
        Ok(Asked::Scenario { topology, steps }) => put_summary(alloc, topology, &steps, page),
        Ok(Asked::TooManyBytes | Asked::TooManySteps | Asked::Refused(_)) => Err(Stop::NoRow),
        Err(_) => Err(Stop::Memory),
    }
}

/// Prints counts over the report of steps.
fn put_summary(
    alloc: Global,
    topology: Topology,
    steps: &Steps,
    page: &mut Page,
) -> Result<(), Stop>
    requires { AreStepsOf topology steps.now }
{
    let counts = summary_of(alloc, topology, steps)?;
    put_long("  logged ", counts.logged, page);
    put_long(" got ", counts.got, page);
    put_long(" behind ", counts.behind, page);
    put_long(" kept ", counts.kept, page);
    page.push('\n');
    Ok(())
}

/// Prints a word and a number of up to 128 bits behind it.
fn put_long(word: &str, number: u128, page: &mut Page) {
    page.push_str(word);
    write!(page, "{number}");
}
