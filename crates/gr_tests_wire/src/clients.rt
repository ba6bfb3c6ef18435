//! Clients of publishers, as scripts.

use crate::notes::{note_of, put_submit};
use crate::piece_text::event_of;
use crate::script::{NEXT, Script, first_word, perform, short};
use gr_client::{Client, Events, Note, Progress};
use gr_note::MAX_NUMBER;
use gr_tests_rows::{Page, Stop};
use std::alloc::Global;

/// Answers a script: `PUBLISHER EVENT EVENT ; offer ; next PUBLISHER NUMBER ; spent PUBLISHER`.
pub fn calls(alloc: Global, row: &str, page: &mut Page) -> Result<(), Stop> {
    let Some((made, ops)) = row.split_once(NEXT) else {
        return Err(Stop::NoRow);
    };
    let mut client = client_of(alloc, made)?;
    perform(alloc, &mut client, ops, page)
}

/// The client of a publisher with these events.
fn client_of(alloc: Global, made: &str) -> Result<Client, Stop> {
    let (publisher, texts) = first_word(made);
    let Some(publisher) = short(publisher) else {
        return Err(Stop::NoRow);
    };
    let events = events_of(alloc, texts)?;
    if events.len() as u64 > MAX_NUMBER {
        return Err(Stop::NoRow);
    }
    Ok(Client::new(publisher, events))
}

/// The events of JSON texts.
fn events_of(alloc: Global, texts: &str) -> Result<Events, Stop> {
    let mut events = Events::new(alloc);
    if texts.is_empty() {
        return Ok(events);
    }
    push_events(alloc, &mut events, texts)?;
    Ok(events)
}

/// Puts the events of JSON texts behind others.
fn push_events(alloc: Global, events: &mut Events, texts: &str) -> Result<(), Stop> {
    for text in texts.split(' ') {
        push_event(alloc, events, text)?;
    }
    Ok(())
}

/// Puts the event of a JSON text behind others.
fn push_event(alloc: Global, events: &mut Events, text: &str) -> Result<(), Stop> {
    let event = event_of(alloc, text)?;
    Ok(events.push(event)?)
}

impl Script for Client {
    /// Prints what the client offers, how far it is, or how far it is after a note.
    fn op(&mut self, alloc: Global, op: &str, page: &mut Page) -> Result<(), Stop> {
        match op {
            "offer" => put_offer(alloc, self, page),
            "progress" => put_progress(page, self.progress()),
            _ => return hear(alloc, self, op, page),
        }
        Ok(())
    }
}

/// Prints how far a client is after a note.
fn hear(alloc: Global, client: &mut Client, text: &str, page: &mut Page) -> Result<(), Stop> {
    let note = note_of(alloc, text)?;
    client.heard(&note);
    put_progress(page, client.progress());
    Ok(())
}

/// Prints the note that a client offers.
fn put_offer(alloc: Global, client: &Client, page: &mut Page) {
    match client.offer() {
        Ok(Some(note)) => put_offered(alloc, page, &note),
        Ok(None) => page.push_str("none"),
        Err(_) => page.tear(),
    }
}

/// Prints a note that is offered.
fn put_offered(alloc: Global, page: &mut Page, note: &Note) {
    match note {
        Note::Submit {
            publisher,
            number,
            event,
        } => put_submit(alloc, page, *number, *publisher, event),
        Note::Next { .. } | Note::Spent { .. } => page.push_str("another note"),
    }
}

/// Prints how far a client is.
fn put_progress(page: &mut Page, progress: Progress) {
    match progress {
        Progress::Running { next } => write!(page, "running, next is {next}"),
        Progress::Done => page.push_str("done"),
        Progress::Spent => page.push_str("spent"),
        Progress::Ahead { next } => write!(page, "ahead, the host waits for {next}"),
    }
}

/// Calls the law of clients, whose contract it is.
pub fn laws(page: &mut Page) {
    gr_client::next_is_told_where_it_came();
    page.push_str("  hold\n");
}
