//! Notes, read.

ghost use Rattle.std.specs.Prelude.{◌≡◌, ◌+◌, ◌<◌, ◌^◌, IfOk};
ghost use Rattle.gr_event.specs.Limits.{IsEvent};
ghost use Rattle.gr_note.specs.Bytes.{begins_note};
ghost use Rattle.gr_note.specs.Decode.{event_refused, event_at, submit_at, next_at, spent_at, kind_at, note_decoded};
ghost use Rattle.gr_note.specs.Gives.{Gives};
ghost use Rattle.gr_note.specs.Limits.{IsNote};

use crate::fault::{NoteFault, NoteKind};
use crate::field::{byte_at, fault, field_at, number_at, u16_at};
use crate::note::Note;
use crate::{MAX_NUMBER, NEXT, SPENT, SUBMIT, VERSION};
use gr_event::{Event, EventFault};
use std::alloc::Global;

/// Whether bytes begin with the letters of notes, and so are to be read as a note. Takes no memory.
pub fn begins_note(bytes: &[u8]) -> bool
    ensures { result ≡ begins_note bytes.now }
{
    bytes.starts_with(b"GP")
}

/// The note that the bytes spell.
///
/// Bytes that spell no note are refused with the first fault from the left, field by field. A field that is not whole
/// is `Short`; the other faults have the place of the field's first byte, `BadEvent` that of the event behind its
/// length, and `Trailing` that of the first byte behind the note.
#[tactic(auto, unfolding(crate::specs::Decode::note_decoded))]
pub fn decode(alloc: Global, bytes: &[u8]) -> Result<Note, NoteFault>
    ensures gives { Gives result (note_decoded bytes.now) }
    ensures note { IfOk result IsNote }
{
    match kind_at(bytes)? {
        SUBMIT => submit_at(alloc, bytes),
        NEXT => next_at(bytes),
        SPENT => spent_at(bytes),
        _ => Err(fault(NoteKind::BadKind, 3)),
    }
}

/// The kind behind the letters and the version.
#[tactic(auto, unfolding(crate::specs::Decode::kind_at))]
fn kind_at(bytes: &[u8]) -> Result<u8, NoteFault>
    ensures { Gives result (kind_at bytes.now) }
{
    let letters = field_at(bytes, 0, 2)?;
    if letters != b"GP".as_slice() {
        return Err(fault(NoteKind::BadMagic, 0));
    }
    if byte_at(bytes, 2)? != VERSION {
        return Err(fault(NoteKind::BadVersion, 2));
    }
    byte_at(bytes, 3)
}

/// A Submit behind its kind.
#[tactic(auto, unfolding(crate::specs::Decode::submit_at))]
fn submit_at(alloc: Global, bytes: &[u8]) -> Result<Note, NoteFault>
    ensures gives { Gives result (submit_at bytes.now) }
    ensures note { IfOk result IsNote }
{
    let publisher = u16_at(bytes, 4)?;
    let number = number_at(bytes, 6, MAX_NUMBER)?;
    let size = usize::from(u16_at(bytes, 14)?);
    let event = event_at(alloc, bytes, 16, size)?;
    if 16 + size != bytes.len() {
        return Err(fault(NoteKind::Trailing, 16 + size));
    }
    Ok(Note::Submit {
        publisher,
        number,
        event,
    })
}

/// A Next behind its kind.
#[tactic(auto, unfolding(crate::specs::Decode::next_at))]
fn next_at(bytes: &[u8]) -> Result<Note, NoteFault>
    ensures gives { Gives result (next_at bytes.now) }
    ensures note { IfOk result IsNote }
{
    let publisher = u16_at(bytes, 4)?;
    let next = number_at(bytes, 6, MAX_NUMBER + 1)?;
    if bytes.len() != 14 {
        return Err(fault(NoteKind::Trailing, 14));
    }
    Ok(Note::Next { publisher, next })
}

/// A Spent behind its kind.
#[tactic(auto, unfolding(crate::specs::Decode::spent_at))]
fn spent_at(bytes: &[u8]) -> Result<Note, NoteFault>
    ensures gives { Gives result (spent_at bytes.now) }
    ensures note { IfOk result IsNote }
{
    let publisher = u16_at(bytes, 4)?;
    if bytes.len() != 6 {
        return Err(fault(NoteKind::Trailing, 6));
    }
    Ok(Note::Spent { publisher })
}

/// An event of so many bytes at a place.
#[tactic(auto, unfolding(crate::specs::Decode::event_at))]
fn event_at(alloc: Global, bytes: &[u8], at: usize, size: usize) -> Result<Event, NoteFault>
    requires { at + size < 2 ^ 64 }
    ensures gives { Gives result (event_at bytes.now at size) }
    ensures event { IfOk result IsEvent }
{
    let form = field_at(bytes, at, size)?;
    match Event::decode(alloc, form) {
        Ok(event) => Ok(event),
        Err(refused) => Err(event_refused(refused, at)),
    }
}

/// The fault of a note whose event at a place does not decode.
fn event_refused(refused: EventFault, at: usize) -> NoteFault
    ensures { result ≡ event_refused at refused }
{
    match refused {
        EventFault::Memory => fault(NoteKind::Memory, 0),
        _ => fault(NoteKind::BadEvent, at),
    }
}
