//! Runs of the client of the first publisher of a topology.

use crate::outside::{put_run_fault, sink_with};
use crate::posts::post_failing;
use crate::script::{NEXT, put_quoted};
use gr_client::{Note, decode, run};
use gr_out::{MemPost, MemSink, RunFault};
use gr_sched::{MAX_INPUT_BYTES, MAX_STEPS, Steps, parse};
use gr_tests_rows::{Page, Stop, bytes, number, unescaped};
use gr_topo::Topology;
use std::alloc::Global;

/// The node of the client, at which bytes come.
const CLIENT: u16 = 64;

/// How many offers are printed at most.
const MOST_OFFERS: u64 = 100;

/// What a run is given beside its topology and its steps.
#[derive(Clone, Copy)]
struct Given<'a> {
    turns: u64,
    room: u64,
    bindings: &'a str,
    cues: &'a str,
}

/// Answers a run: `turns N room N failing BINDINGS ; TOPOLOGY ; STEPS ; quiet ; bytes BYTES ; failure`.
pub fn answer(alloc: Global, row: &str, page: &mut Page) -> Result<(), Stop> {
    let Some((made, rest)) = row.split_once(NEXT) else {
        return Err(Stop::NoRow);
    };
    let Some((topology, rest)) = rest.split_once(NEXT) else {
        return Err(Stop::NoRow);
    };
    let (steps, cues) = rest.split_once(NEXT).unwrap_or((rest, ""));
    let Some(given) = given_of(made, cues) else {
        return Err(Stop::NoRow);
    };
    run_in(alloc, topology, steps, given, page)
}

/// What a run is given: `turns N room N failing BINDINGS`, and cues.
fn given_of<'a>(made: &'a str, cues: &'a str) -> Option<Given<'a>> {
    let (turns, rest) = made.split_once(" room ")?;
    let (room, bindings) = rest.split_once(" failing ")?;
    let turns = turns.strip_prefix("turns ")?;
    match (number(turns), number(room)) {
        (Ok(turns), Ok(room)) => Some(Given {
            turns,
            room,
            bindings,
            cues,
        }),
        _ => None,
    }
}

/// Runs the client in the topology of a text.
fn run_in(
    alloc: Global,
    topology: &str,
    steps: &str,
    given: Given,
    page: &mut Page,
) -> Result<(), Stop> {
    let topology = topology_of(alloc, topology)?;
    run_by(alloc, &topology, steps, given, page)
}

/// The topology of a text.
fn topology_of(alloc: Global, text: &str) -> Result<Topology, Stop> {
    let text = unescaped(alloc, text)?;
    match Topology::read(alloc, &text) {
        Ok(topology) => Ok(topology),
        Err(_) => Err(Stop::NoRow),
    }
}

/// Runs the client by the steps of a text.
fn run_by(
    alloc: Global,
    topology: &Topology,
    steps: &str,
    given: Given,
    page: &mut Page,
) -> Result<(), Stop> {
    let steps = steps_of(alloc, topology, steps)?;
    run_with(alloc, topology, &steps, given, page)
}

/// The steps of a text.
fn steps_of(alloc: Global, topology: &Topology, text: &str) -> Result<Steps, Stop> {
    let text = unescaped(alloc, text)?;
    if text.len() > MAX_INPUT_BYTES {
        return Err(Stop::NoRow);
    }
    match parse(alloc, &text, topology) {
        Ok(steps) => Ok(steps),
        Err(_) => Err(Stop::NoRow),
    }
}

/// Runs the client over a post at which its cues come.
fn run_with(
    alloc: Global,
    topology: &Topology,
    steps: &Steps,
    given: Given,
    page: &mut Page,
) -> Result<(), Stop> {
    let mut post = post_failing(alloc, &[], given.bindings)?;
    put_cues(alloc, &mut post, given.cues)?;
    run_over(alloc, topology, steps, given, &mut post, page)
}

/// Puts cues at the end of a script.
fn put_cues(alloc: Global, post: &mut MemPost, cues: &str) -> Result<(), Stop> {
    for cue in cues.split(NEXT) {
        put_cue(alloc, post, cue)?;
    }
    Ok(())
}

/// Puts a cue at the end of a script, if there is one.
fn put_cue(alloc: Global, post: &mut MemPost, cue: &str) -> Result<(), Stop> {
    match cue {
        "" => Ok(()),
        "quiet" => Ok(post.quiet(1000)?),
        "failure" => Ok(post.fail()?),
        _ => put_raw(alloc, post, cue),
    }
}

/// Puts the bytes of `bytes BYTES` at the end of a script.
fn put_raw(alloc: Global, post: &mut MemPost, cue: &str) -> Result<(), Stop> {
    let Some(digits) = cue.strip_prefix("bytes ") else {
        return Err(Stop::NoRow);
    };
    let bytes = bytes(alloc, digits)?;
    Ok(post.raw(CLIENT, &bytes, 1000)?)
}

/// Runs the client, and prints why it ended, what it printed and what it offered.
fn run_over(
    alloc: Global,
    topology: &Topology,
    steps: &Steps,
    given: Given,
    post: &mut MemPost,
    page: &mut Page,
) -> Result<(), Stop> {
    let mut sink = sink_with(alloc, given.room, &[])?;
    run_first(alloc, topology, steps, given.turns, post, &mut sink, page)?;
    page.push_str("\n  printed ");
    put_quoted(page, sink.bytes());
    put_offers(alloc, post, page);
    Ok(())
}

/// Runs the client of the first publisher, and prints why it ended.
fn run_first(
    alloc: Global,
    topology: &Topology,
    steps: &Steps,
    turns: u64,
    post: &mut MemPost,
    sink: &mut MemSink,
    page: &mut Page,
) -> Result<(), Stop> {
    if topology.publishers() == 0 || steps.len() as u64 > MAX_STEPS {
        return Err(Stop::NoRow);
    }
    let Some(_) = topology.client(0) else {
        return Err(Stop::NoRow);
    };
    let Some(_) = topology.address(topology.host(0)) else {
        return Err(Stop::NoRow);
    };
    match run(alloc, topology, steps, 0, turns, post, sink) {
        Ok(()) => page.push_str("  ended"),
        Err(fault) => put_early(page, fault),
    }
    Ok(())
}

/// Prints why a run ended early.
fn put_early(page: &mut Page, fault: RunFault) {
    page.push_str("  ");
    put_run_fault(page, fault);
}

/// Prints the numbers of the events that were offered, in order.
fn put_offers(alloc: Global, post: &MemPost, page: &mut Page) {
    page.push_str("\n  offered");
    for n in 1..MOST_OFFERS {
        let Some(bytes) = post.offered(n) else {
            break;
        };
        write!(page, " {}", number_of(alloc, bytes));
    }
    page.push('\n');
}

/// The number of an event that is offered by these bytes; 0 where none is.
fn number_of(alloc: Global, bytes: &[u8]) -> u64 {
    match decode(alloc, bytes) {
        Ok(Note::Submit { number, .. }) => number,
        Ok(Note::Next { .. } | Note::Spent { .. }) | Err(_) => 0,
    }
}
