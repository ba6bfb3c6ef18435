//! The journals of several processes.

use crate::scenarios::put_refused;
use crate::words::put_counted;
use gr_audit::{Comparison, Links, read_scenario};
use gr_journal::{Arrival, AuditFault, Came, Journal, JournalList, read_journals, split, unhosted};
use gr_out::Sink;
use gr_scenario::Asked;
use gr_tests_rows::{Page, Stop, Words, bytes, first_word, spelled};
use gr_topo::Topology;
use std::alloc::{AllocError, Global};

/// How many bytes of journals a row may have.
const MOST_BYTES: usize = 8_000_000;

/// Answers a row about journals.
pub fn answer(alloc: Global, row: &str, page: &mut Page) -> Result<(), Stop> {
    let (call, rest) = first_word(row);
    match call {
        "read" => put_read(alloc, &spelled(alloc, rest)?, page),
        "joint" => put_joint(alloc, rest, page)?,
        "compare" => put_compared(alloc, rest, page)?,
        _ => return Err(Stop::NoRow),
    }
    Ok(())
}

/// Reads a scenario and the journals behind it, and prints what they say.
fn put_read(alloc: Global, text: &[u8], page: &mut Page) {
    put_asked(alloc, &read_scenario(alloc, text), split(text).1, page);
}

/// Prints what journals say, if the scenario before them is one.
fn put_asked(alloc: Global, asked: &Result<Asked, AllocError>, text: &[u8], page: &mut Page) {
    match asked {
        Ok(Asked::Scenario { topology, .. }) => put_part(alloc, topology, text, page),
        Ok(Asked::Refused(line)) => put_refused(line.as_slice(), page),
        Ok(Asked::TooManyBytes) => page.push_str("  too many bytes\n"),
        Ok(Asked::TooManySteps) => page.push_str("  too many steps\n"),
        Err(_) => page.tear(),
    }
}

/// Reads journals, and prints what they say.
fn put_part(alloc: Global, topology: &Topology, text: &[u8], page: &mut Page) {
    if text.len() > MOST_BYTES {
        page.tear();
        return;
    }
    put_answer(alloc, topology, &read_journals(alloc, topology, text), page);
}

/// Prints journals, and the line that says that the processes are not those of the topology; or the first bad line.
fn put_answer(
    alloc: Global,
    topology: &Topology,
    answer: &Result<JournalList, AuditFault>,
    page: &mut Page,
) {
    match answer {
        Ok(journals) => put_journals(alloc, topology, journals.as_slice(), page),
        Err(AuditFault::BadLine { line }) => put_numbered("  bad line ", *line, page),
        Err(_) => page.tear(),
    }
}

/// Prints journals, and the line that says that the processes are not those of the topology.
fn put_journals(alloc: Global, topology: &Topology, journals: &[Journal], page: &mut Page) {
    for journal in journals {
        put_journal(journal, page);
    }
    match unhosted(alloc, topology, journals) {
        Ok(Some(line)) => put_numbered("  not hosted ", line, page),
        Ok(None) => page.push_str("  hosted\n"),
        Err(_) => page.tear(),
    }
}

/// Prints a journal: where it begins, its brokers, what came and its text.
fn put_journal(journal: &Journal, page: &mut Page) {
    put_counted("  from line ", u64::from(journal.first), page);
    page.push_str(" of");
    for broker in journal.brokers.as_slice() {
        put_counted(" ", u64::from(*broker), page);
    }
    page.push('\n');
    for came in journal.came.as_slice() {
        put_came(came, page);
    }
    put_text(journal.text.as_slice(), page);
}

/// Prints a text, or how many bytes it has.
fn put_text(text: &[u8], page: &mut Page) {
    if text.len() > 1000 {
        put_counted("  text of ", text.len() as u64, page);
        page.push('\n');
        return;
    }
    page.push_lines(text);
}

/// Prints an arrival with its line. Of long bytes it prints how many they are.
fn put_came(came: &Came, page: &mut Page) {
    put_counted("  came ", u64::from(came.line), page);
    match &came.arrival {
        Arrival::Quiet { moment } => put_counted(" at ", *moment, page),
        Arrival::Datagram {
            broker,
            moment,
            bytes,
        } => {
            put_counted(" to ", u64::from(*broker), page);
            put_counted(" at ", *moment, page);
            put_bytes(bytes.as_slice(), page);
        }
    }
    page.push('\n');
}

/// Prints bytes, or how many they are.
fn put_bytes(bytes: &[u8], page: &mut Page) {
    if bytes.len() > 100 {
        put_counted(" of ", bytes.len() as u64, page);
        return;
    }
    if !bytes.is_empty() {
        page.push(' ');
        page.push_hex(bytes);
    }
}

/// Prints a word and the number of a line behind it, on a line of its own.
fn put_numbered(word: &str, line: u32, page: &mut Page) {
    put_counted(word, u64::from(line), page);
    page.push('\n');
}

/// Notes the groups of journals, and prints which line stays.
fn put_joint(alloc: Global, script: &str, page: &mut Page) -> Result<(), Stop> {
    let mut links = Links::new(alloc);
    for step in script.split(" ; ") {
        note(alloc, &mut links, step)?;
    }
    links.end_journal(alloc)?;
    match links.line_that_stays(alloc)? {
        Some(line) => put_numbered("  stays ", line, page),
        None => page.push_str("  all go\n"),
    }
    Ok(())
}

/// Notes an arrival or an offer, or that the next journal begins.
fn note(alloc: Global, links: &mut Links, step: &str) -> Result<(), Stop> {
    let (call, rest) = first_word(step);
    let mut words = Words::new(rest);
    match call {
        "quiet" => {
            let line = words.number();
            words.check()?;
            links.arrives(line_of(line)?)?;
        }
        "in" => {
            let line = words.number_upto(" ");
            let to = words.number_upto(" ");
            words.check()?;
            note_datagram(
                alloc,
                links,
                line_of(line)?,
                broker_of(to)?,
                &bytes(alloc, words.rest())?,
            )?;
        }
        "out" => {
            let to = words.number_upto(" ");
            words.check()?;
            note_offer(alloc, links, broker_of(to)?, &bytes(alloc, words.rest())?)?;
        }
        "next" => links.end_journal(alloc)?,
        _ => return Err(Stop::NoRow),
    }
    Ok(())
}

/// The number of a line.
fn line_of(number: u64) -> Result<u32, Stop> {
    match u32::try_from(number) {
        Ok(line) => Ok(line),
        Err(_) => Err(Stop::NoRow),
    }
}

/// The number of a broker.
fn broker_of(number: u64) -> Result<u16, Stop> {
    match u16::try_from(number) {
        Ok(broker) => Ok(broker),
        Err(_) => Err(Stop::NoRow),
    }
}

/// Notes the arrival of a datagram that has to be offered before.
fn note_datagram(
    alloc: Global,
    links: &mut Links,
    line: u32,
    to: u16,
    bytes: &[u8],
) -> Result<(), AllocError> {
    links.arrives_offered(alloc, line, to, bytes)
}

/// Notes an offer.
fn note_offer(alloc: Global, links: &mut Links, to: u16, bytes: &[u8]) -> Result<(), AllocError> {
    links.offers(alloc, to, bytes)
}

/// Compares a text, which begins with line 1, with the pieces of another one, and prints where the two part.
fn put_compared(alloc: Global, script: &str, page: &mut Page) -> Result<(), Stop> {
    let Some((text, pieces)) = script.split_once(" ; ") else {
        return Err(Stop::NoRow);
    };
    put_parting(alloc, &spelled(alloc, text)?, pieces, page)
}

/// Prints how many bytes of each piece are taken, and where a text and these part.
fn put_parting(alloc: Global, text: &[u8], pieces: &str, page: &mut Page) -> Result<(), Stop> {
    let mut told = Comparison::new(text);
    for piece in pieces.split(" ; ") {
        tell(&mut told, &spelled(alloc, piece)?, page);
    }
    match told.wrong_line(1)? {
        Some(line) => put_numbered("  line ", line, page),
        None => page.push_str("  same\n"),
    }
    Ok(())
}

/// Tells a piece, and prints how many bytes of it are taken.
fn tell(told: &mut Comparison<'_>, piece: &[u8], page: &mut Page) {
    match told.write(piece) {
        Ok(taken) => {
            put_counted("  took ", taken as u64, page);
            page.push('\n');
        }
        Err(_) => page.push_str("  refused\n"),
    }
}
