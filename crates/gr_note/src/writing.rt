//! Notes, written.

ghost use Rattle.std.specs.Prelude.{◌≡◌, ◌+◌, ◌++◌, length, Ok, IfOk, OnOk, vec_len, vec_capacity};
ghost use Rattle.std.specs.Int.{to_be_bytes, w16, w64};
ghost use Rattle.gr_event.specs.Event.{event_size, event_bytes};
ghost use Rattle.gr_event.specs.Limits.{IsEvent};
ghost use Rattle.gr_note.specs.Bytes.{head_bytes, note_bytes, note_size};
ghost use Rattle.gr_note.specs.Decode.{note_decoded};
ghost use Rattle.gr_note.specs.Limits.{IsInRange, HasParts};
ghost use Rattle.gr_note.specs.declared.writing.TheConstants.{HEAD_BYTES};

use crate::field::{put_u16, put_u64};
use crate::note::Note;
use crate::{NEXT, SPENT, SUBMIT, VERSION};
use gr_event::{Bytes, Event, Memory};
use std::alloc::Global;

/// How many bytes stand before the number of a note.
const HEAD_BYTES: usize = 6;

/// How many bytes a note with a number has, an event and its length not counted.
const NUMBERED_BYTES: usize = 14;

/// The bytes of a note. Their memory is taken once, exactly as much as they need, and before any of them is written.
pub fn encode(alloc: Global, note: &Note) -> Result<Bytes, Memory>
    requires { IsInRange note.now }
    ensures bytes { IfOk result (λ b. b ≡ note_bytes note.now) }
    ensures decodes_back { IfOk result (λ b. note_decoded b ≡ Ok note.now) }
{
    let bytes = bytes_of(alloc, note)?;
    Ok(Bytes::from_vec(bytes))
}

/// The bytes of a note, in memory of exactly their size.
fn bytes_of(alloc: Global, note: &Note) -> Result<Vec<u8>, Memory>
    ensures bytes { IfOk result (λ b. b.items ≡ note_bytes note.now) }
    ensures exact { IfOk result (λ b. vec_capacity b ≡ vec_len b) }
    ensures parts { OnOk result (HasParts note.now) }
{
    let mut bytes = blank(alloc, size_of(note))?;
    put_note(note, &mut bytes);
    Ok(bytes)
}

/// How many bytes a note has.
fn size_of(note: &Note) -> usize
    ensures { result ≡ note_size note.now }
{
    match note {
        Note::Submit { event, .. } => NUMBERED_BYTES + 2 + event.size(),
        Note::Next { .. } => NUMBERED_BYTES,
        Note::Spent { .. } => HEAD_BYTES,
    }
}

/// So many bytes, all 0. This is where the memory of a note is taken, in one piece of exactly that size.
fn blank(alloc: Global, size: usize) -> Result<Vec<u8>, Memory>
    ensures size { IfOk result (λ b. length b.items ≡ size) }
    ensures exact { IfOk result (λ b. vec_capacity b ≡ size) }
{
    let mut bytes = Vec::with_capacity(alloc, size)?;
    for _ in 0..size {
        bytes.push_reserved(0);
    }
    Ok(bytes)
}

/// Writes a note into a slice of exactly its size.
#[tactic(auto, unfolding(crate::specs::Bytes::note_bytes))]
fn put_note(note: &Note, into: &mut [u8])
    requires { length into.old ≡ note_size note.now }
    ensures bytes { into.new ≡ note_bytes note.now }
    ensures parts { HasParts note.now }
{
    match note {
        Note::Submit {
            publisher,
            number,
            event,
        } => {
            let (head, submission) = into.split_at_mut(HEAD_BYTES);
            put_head(SUBMIT, *publisher, head);
            put_submission(*number, event, submission);
        }
        Note::Next { publisher, next } => {
            let (head, number) = into.split_at_mut(HEAD_BYTES);
            put_head(NEXT, *publisher, head);
            put_u64(*next, number);
        }
        Note::Spent { publisher } => put_head(SPENT, *publisher, into),
    }
}

/// Writes the letters, the version, the kind and the publisher into a slice of exactly their size.
fn put_head(kind: u8, publisher: u16, into: &mut [u8])
    requires { length into.old ≡ HEAD_BYTES }
    ensures { into.new ≡ head_bytes kind publisher }
{
    let [high, low] = publisher.to_be_bytes();
    into.copy_from_slice(&[b'G', b'P', VERSION, kind, high, low]);
}

/// Writes the number of an event, and behind it the event, into a slice of exactly their size.
fn put_submission(number: u64, event: &Event, into: &mut [u8])
    requires { length into.old ≡ 10 + event_size event.now }
    ensures bytes { let form = to_be_bytes w16 (event_size event.now) ++ event_bytes event.now in
        into.new ≡ to_be_bytes w64 number ++ form }
    ensures event { IsEvent event.now }
{
    let (front, form) = into.split_at_mut(8);
    put_u64(number, front);
    put_event(event, form);
}

/// Writes the length and the bytes of an event into a slice of exactly their size.
fn put_event(event: &Event, into: &mut [u8])
    requires { length into.old ≡ 2 + event_size event.now }
    ensures bytes { into.new ≡ to_be_bytes w16 (event_size event.now) ++ event_bytes event.now }
    ensures event { IsEvent event.now }
{
    let (size, form) = into.split_at_mut(2);
    put_u16(event.size() as u16, size);
    event.encode_into(form);
}
