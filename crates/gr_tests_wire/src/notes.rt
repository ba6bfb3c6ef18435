//! Notes in bytes, both ways.

ghost use Rattle.gr_note.specs.Limits.{IsInRange};

use crate::piece_text::{event_of, put_event};
use crate::script::{byte, cut_number, first_word, short};
use gr_event::Event;
use gr_note::{
    FIRST_CLIENT, MAX_NUMBER, Note, NoteFault, NoteKind, begins_note, client_node, decode, encode,
};
use gr_tests_rows::{Page, Stop, bytes, number};
use std::alloc::Global;

/// Answers a row about notes.
pub fn answer(alloc: Global, row: &str, page: &mut Page) -> Result<(), Stop> {
    let (call, rest) = first_word(row);
    match call {
        "write" => write_note(alloc, rest, page),
        "read" => read_note(alloc, rest, page),
        "begins" => put_begins(alloc, rest, page),
        "fault" => put_kind(rest, page),
        "node" => put_node(rest, page),
        "laws" => {
            laws(page);
            Ok(())
        }
        _ => Err(Stop::NoRow),
    }
}

/// The note of a text: `submit PUBLISHER NUMBER EVENT`, `next PUBLISHER NUMBER` or `spent PUBLISHER`.
pub fn note_of(alloc: Global, text: &str) -> Result<Note, Stop> {
    let Some((kind, rest)) = text.split_once(' ') else {
        return Err(Stop::NoRow);
    };
    let (publisher, rest) = first_word(rest);
    let Some(publisher) = short(publisher) else {
        return Err(Stop::NoRow);
    };
    match kind {
        "submit" => submit_of(alloc, publisher, rest),
        "next" => next_of(publisher, rest),
        "spent" => Ok(Note::Spent { publisher }),
        _ => Err(Stop::NoRow),
    }
}

/// The note of an event: `NUMBER EVENT`.
fn submit_of(alloc: Global, publisher: u16, rest: &str) -> Result<Note, Stop> {
    let Some((number, text)) = cut_number(rest) else {
        return Err(Stop::NoRow);
    };
    let event = event_of(alloc, text)?;
    Ok(Note::Submit {
        publisher,
        number,
        event,
    })
}

/// The note of the number that comes next.
fn next_of(publisher: u16, next: &str) -> Result<Note, Stop> {
    let Ok(next) = number(next) else {
        return Err(Stop::NoRow);
    };
    Ok(Note::Next { publisher, next })
}

/// Prints the bytes of the note of a text.
fn write_note(alloc: Global, text: &str, page: &mut Page) -> Result<(), Stop> {
    let note = note_of(alloc, text)?;
    put_written(alloc, &note, page)
}

/// Prints the bytes of a note. One with a number out of range has none.
fn put_written(alloc: Global, note: &Note, page: &mut Page) -> Result<(), Stop> {
    match note {
        Note::Submit { number, .. } => {
            if *number < 1 || *number > MAX_NUMBER {
                return Err(Stop::NoRow);
            }
        }
        Note::Next { next, .. } => {
            if *next < 1 || *next > MAX_NUMBER + 1 {
                return Err(Stop::NoRow);
            }
        }
        Note::Spent { .. } => {}
    }
    match encode(alloc, note) {
        Ok(bytes) => put_counted(page, bytes.as_slice()),
        Err(_) => page.tear(),
    }
    Ok(())
}

/// Prints how many bytes there are, and then each in hexadecimal.
fn put_counted(page: &mut Page, bytes: &[u8]) {
    write!(page, "  {} bytes ", bytes.len());
    page.push_hex(bytes);
    page.push('\n');
}

/// Prints what bytes in hexadecimal are read as.
fn read_note(alloc: Global, digits: &str, page: &mut Page) -> Result<(), Stop> {
    let bytes = bytes(alloc, digits)?;
    put_read(alloc, &bytes, page);
    Ok(())
}

/// Prints what bytes are read as, and whether they are the spelling of it; or why they are no note.
fn put_read(alloc: Global, bytes: &[u8], page: &mut Page) {
    match decode(alloc, bytes) {
        Ok(note) => {
            put_note(alloc, &note, page);
            put_again(alloc, &note, bytes, page);
        }
        Err(fault) => put_fault(page, fault),
    }
}

/// Prints whether bytes are the spelling of a note.
fn put_again(alloc: Global, note: &Note, bytes: &[u8], page: &mut Page)
    requires range { IsInRange note.now }
{
    match encode(alloc, note) {
        Ok(spelled) => {
            let again = if spelled.as_slice() == bytes {
                ", written back\n"
            } else {
                ", not written back\n"
            };
            page.push_str(again);
        }
        Err(_) => page.tear(),
    }
}

/// Prints a fault.
fn put_fault(page: &mut Page, fault: NoteFault) {
    if fault.kind == NoteKind::Memory {
        page.tear();
        return;
    }
    write!(page, "  {fault}\n");
}

/// Prints a note.
fn put_note(alloc: Global, note: &Note, page: &mut Page) {
    match note {
        Note::Submit {
            publisher,
            number,
            event,
        } => {
            page.push_str("  ");
            put_submit(alloc, page, *number, *publisher, event);
        }
        Note::Next { publisher, next } => {
            write!(page, "  next {next} of publisher {publisher}");
        }
        Note::Spent { publisher } => write!(page, "  spent of publisher {publisher}"),
    }
}

/// Prints the note of an event.
pub fn put_submit(alloc: Global, page: &mut Page, number: u64, publisher: u16, event: &Event) {
    write!(page, "submit {number} of publisher {publisher}: ");
    put_event(alloc, page, event);
}

/// Prints a fault by its number: its word, and its number again.
fn put_kind(word: &str, page: &mut Page) -> Result<(), Stop> {
    let Some(number) = byte(word) else {
        return Err(Stop::NoRow);
    };
    match NoteKind::from_number(number) {
        Some(kind) => write!(page, "  {} {}\n", kind.number(), kind.word()),
        None => page.push_str("  none\n"),
    }
    Ok(())
}

/// Prints whether bytes begin as a note does.
fn put_begins(alloc: Global, digits: &str, page: &mut Page) -> Result<(), Stop> {
    let bytes = bytes(alloc, digits)?;
    write!(page, "  {}\n", begins_note(&bytes));
    Ok(())
}

/// Prints the node of the client of a publisher.
fn put_node(word: &str, page: &mut Page) -> Result<(), Stop> {
    let Some(publisher) = short(word) else {
        return Err(Stop::NoRow);
    };
    if publisher > u16::MAX - FIRST_CLIENT {
        return Err(Stop::NoRow);
    }
    write!(page, "  {}\n", client_node(publisher));
    Ok(())
}

/// Calls the laws of notes, whose contracts they are.
fn laws(page: &mut Page) {
    gr_note::spelled_decodes();
    gr_note::decodes_its_spelling(b"GP");
    gr_note::spells_no_prefix();
    gr_note::constants_of_notes();
    page.push_str("  hold\n");
}
