//! Frames in bytes, both ways.

use crate::piece_text::{known, put_known, put_wanted, wanted};
use crate::script::{Script, byte, cut_short, first_word, perform, short};
use gr_event::{Bytes, Join, Joins};
use gr_frame::{
    Body, Frame, FrameFault, FrameKind, Frames, Head, Kind, Peek, decode, encode_into, parts,
};
use gr_tests_rows::{Page, Stop, bytes, number};
use gr_tick::MAX_TICK;
use std::alloc::Global;

/// How many bytes of a frame are printed at most.
const PRINTED: usize = 64;

/// Up to how many bytes a row may pad.
const MOST_PADDED: u64 = 20_000;

/// Answers a row about frames.
pub fn answer(alloc: Global, row: &str, page: &mut Page) -> Result<(), Stop> {
    let (call, rest) = first_word(row);
    match call {
        "write" => write_frame(alloc, rest, page),
        "parts" => put_parts(alloc, rest, page),
        "read" => read_frame(alloc, rest, page),
        "peek" => peek_frame(alloc, rest, page),
        "padded" => read_padded(alloc, rest, page),
        "changed" => read_changed(alloc, rest, page),
        "fronts" => read_fronts(alloc, rest, page),
        "list" => list(alloc, rest, page),
        "fault" => put_kind(rest, page),
        "laws" => {
            laws(page);
            Ok(())
        }
        _ => Err(Stop::NoRow),
    }
}

/// The frame of a text: `know FROM TO PUBLISHER RUNS`, `know FROM TO PUBLISHER joins 1:2000,2:2001 RUNS`, `want FROM TO
/// PUBLISHER RUNS` or `expect FROM TO PUBLISHER TICK`.
fn frame_of(alloc: Global, text: &str) -> Result<Frame, Stop> {
    let Some((kind, rest)) = text.split_once(' ') else {
        return Err(Stop::NoRow);
    };
    let Some((head, rest)) = cut_head(rest) else {
        return Err(Stop::NoRow);
    };
    let body = body_of(alloc, kind, rest)?;
    Ok(Frame { head, body })
}

/// The head of a frame, and what stands behind it: `FROM TO PUBLISHER BODY`.
fn cut_head(text: &str) -> Option<(Head, &str)> {
    let Some((from, rest)) = cut_short(text) else {
        return None;
    };
    let Some((to, rest)) = cut_short(rest) else {
        return None;
    };
    let Some((publisher, rest)) = cut_short(rest) else {
        return None;
    };
    let head = Head {
        from,
        to,
        publisher,
    };
    Some((head, rest))
}

/// The body of a kind of frame.
fn body_of(alloc: Global, kind: &str, rest: &str) -> Result<Body, Stop> {
    match kind {
        "know" => knowledge_of(alloc, rest),
        "want" => curiosity_of(alloc, rest),
        "expect" => expect_of(rest),
        _ => Err(Stop::NoRow),
    }
}

/// The body of what is known, behind the joins that stand before it, if any do.
fn knowledge_of(alloc: Global, text: &str) -> Result<Body, Stop> {
    let (word, behind) = first_word(text);
    if word == "joins" {
        let (words, runs) = first_word(behind);
        let joins = joins_of(alloc, words)?;
        known_with(alloc, runs, joins)
    } else {
        known_with(alloc, text, Joins::new(alloc))
    }
}

/// The body of what is known with these joins.
fn known_with(alloc: Global, runs: &str, joins: Joins) -> Result<Body, Stop> {
    let piece = known(alloc, runs)?;
    Ok(Body::Knowledge { piece, joins })
}

/// The joins that words spell, with a comma between each two.
fn joins_of(alloc: Global, words: &str) -> Result<Joins, Stop> {
    let mut joins = Joins::new(alloc);
    for word in words.split(',') {
        let join = join_of(word)?;
        if !joins.allows(join) {
            return Err(Stop::NoRow);
        }
        joins = joins.with(join)?;
    }
    Ok(joins)
}

/// The join that a word spells, by its subscriber and its tick: `1:2000`.
fn join_of(word: &str) -> Result<Join, Stop> {
    let Some((subscriber, tick)) = word.split_once(':') else {
        return Err(Stop::NoRow);
    };
    let Some(subscriber) = short(subscriber) else {
        return Err(Stop::NoRow);
    };
    let tick = number(tick)?;
    Ok(Join { subscriber, tick })
}

/// The body of what is wanted.
fn curiosity_of(alloc: Global, runs: &str) -> Result<Body, Stop> {
    let piece = wanted(alloc, runs)?;
    Ok(Body::Curiosity(piece))
}

/// The body of an expected tick.
fn expect_of(tick: &str) -> Result<Body, Stop> {
    match number(tick) {
        Ok(tick) => Ok(Body::Expect(tick)),
        Err(stop) => Err(stop),
    }
}

/// The bytes of a frame, cut where it is too long for one.
fn spelled(alloc: Global, frame: &Frame) -> Result<Frames, Stop> {
    let mut frames = Frames::new(alloc);
    spell_into(alloc, frame, &mut frames)?;
    Ok(frames)
}

/// Puts the bytes of a frame behind others. A piece without a run and a tick out of range have none.
fn spell_into(alloc: Global, frame: &Frame, frames: &mut Frames) -> Result<(), Stop> {
    match &frame.body {
        Body::Knowledge { piece, .. } => {
            if piece.is_empty() {
                return Err(Stop::NoRow);
            }
        }
        Body::Curiosity(piece) => {
            if piece.is_empty() {
                return Err(Stop::NoRow);
            }
        }
        Body::Expect(tick) => {
            if *tick < 1 || *tick > MAX_TICK {
                return Err(Stop::NoRow);
            }
        }
    }
    Ok(encode_into(alloc, frame, frames)?)
}

/// Prints the bytes of the frames that a text is written as.
fn write_frame(alloc: Global, text: &str, page: &mut Page) -> Result<(), Stop> {
    let frame = frame_of(alloc, text)?;
    write_all_of(alloc, &frame, page)
}

/// Prints the bytes of the frames that a frame is written as.
fn write_all_of(alloc: Global, frame: &Frame, page: &mut Page) -> Result<(), Stop> {
    let frames = spelled(alloc, frame)?;
    put_all_written(alloc, &frames, page)
}

/// Prints the bytes of frames.
fn put_all_written(alloc: Global, frames: &Frames, page: &mut Page) -> Result<(), Stop> {
    for i in 0..frames.len() {
        put_written(alloc, frames.frame(i), page)?;
    }
    Ok(())
}

/// Prints a frame's first bytes, and whether it is read, and written as it was.
fn put_written(alloc: Global, bytes: &[u8], page: &mut Page) -> Result<(), Stop> {
    let again = if is_written_again(alloc, bytes)? {
        "read back"
    } else {
        "not read back"
    };
    write!(page, "  {} bytes, {again}: ", bytes.len());
    put_front(bytes, page);
    page.push('\n');
    Ok(())
}

/// Prints the first bytes of a frame.
fn put_front(bytes: &[u8], page: &mut Page) {
    match bytes.get(..PRINTED) {
        Some(front) if PRINTED < bytes.len() => {
            page.push_hex(front);
            page.push_str(" ..");
        }
        _ => page.push_hex(bytes),
    }
}

/// Whether bytes are a frame, and the one spelling of it.
fn is_written_again(alloc: Global, bytes: &[u8]) -> Result<bool, Stop> {
    match decode(alloc, bytes) {
        Ok(frame) => is_written(alloc, &frame, bytes),
        Err(_) => Ok(false),
    }
}

/// Whether a frame is written as these bytes alone.
fn is_written(alloc: Global, frame: &Frame, bytes: &[u8]) -> Result<bool, Stop> {
    let frames = spelled(alloc, frame)?;
    Ok(frames.len() == 1 && frames.frame(0) == bytes)
}

/// Prints the parts of a frame, and whether each is written as the frame at its place.
fn put_parts(alloc: Global, text: &str, page: &mut Page) -> Result<(), Stop> {
    let frame = frame_of(alloc, text)?;
    put_parts_of(alloc, &frame, page)
}

/// Prints the parts of a frame.
fn put_parts_of(alloc: Global, frame: &Frame, page: &mut Page) -> Result<(), Stop> {
    let frames = spelled(alloc, frame)?;
    write!(page, "  {} frames\n", frames.len());
    put_parts_in(alloc, frame, &frames, page)
}

/// Prints the parts of a frame that is written as these frames.
fn put_parts_in(
    alloc: Global,
    frame: &Frame,
    frames: &Frames,
    page: &mut Page,
) -> Result<(), Stop> {
    let parts = parts(alloc, frame)?;
    put_each_part(alloc, &parts, frames, page)
}

/// Prints parts that are written as these frames.
fn put_each_part(
    alloc: Global,
    parts: &[Frame],
    frames: &Frames,
    page: &mut Page,
) -> Result<(), Stop> {
    for (i, part) in parts.iter().enumerate() {
        if i < frames.len() {
            put_part(alloc, part, frames.frame(i), page)?;
        }
    }
    Ok(())
}

/// Prints how many runs a part has, or its tick, and whether it is written as these bytes.
fn put_part(alloc: Global, part: &Frame, bytes: &[u8], page: &mut Page) -> Result<(), Stop> {
    match &part.body {
        Body::Knowledge { piece, .. } => write!(page, "  {} runs", piece.len()),
        Body::Curiosity(piece) => write!(page, "  {} runs", piece.len()),
        Body::Expect(tick) => write!(page, "  tick {tick}"),
    }
    let same = if is_written(alloc, part, bytes)? {
        "written as"
    } else {
        "not written as"
    };
    write!(page, ", {same} the frame of {} bytes\n", bytes.len());
    Ok(())
}

/// Prints what bytes in hexadecimal are read as.
fn read_frame(alloc: Global, digits: &str, page: &mut Page) -> Result<(), Stop> {
    let bytes = bytes(alloc, digits)?;
    put_read(alloc, &bytes, page)
}

/// Prints what bytes are read as, and that they are the spelling of it; or why they are no frame.
fn put_read(alloc: Global, bytes: &[u8], page: &mut Page) -> Result<(), Stop> {
    match decode(alloc, bytes) {
        Ok(frame) => put_decoded(alloc, &frame, bytes, page),
        Err(fault) => {
            put_fault(page, fault);
            Ok(())
        }
    }
}

/// Prints what is seen of a frame in hexadecimal without reading it.
fn peek_frame(alloc: Global, digits: &str, page: &mut Page) -> Result<(), Stop> {
    let bytes = bytes(alloc, digits)?;
    match decode(alloc, &bytes) {
        Ok(_frame) => put_peek(page, Peek::of(&bytes)),
        Err(fault) => put_fault(page, fault),
    }
    Ok(())
}

/// Prints what is seen of a frame.
fn put_peek(page: &mut Page, seen: Peek) {
    let kind = match seen.kind {
        Kind::Knowledge => "know",
        Kind::Curiosity => "want",
        Kind::Expect => "expect",
    };
    write!(page, "  {kind} to {}", seen.to);
    write!(page, " publisher {}\n", seen.publisher);
}

/// Prints a frame that bytes are read as, and whether they are the spelling of it.
fn put_decoded(alloc: Global, frame: &Frame, bytes: &[u8], page: &mut Page) -> Result<(), Stop> {
    put_head(page, frame.head);
    put_body(alloc, page, &frame.body);
    if is_written(alloc, frame, bytes)? {
        page.push_str(", written back\n");
    } else {
        page.push_str(", not written back\n");
    }
    Ok(())
}

/// Prints a fault.
fn put_fault(page: &mut Page, fault: FrameFault) {
    if fault.kind == FrameKind::Memory {
        page.tear();
        return;
    }
    write!(page, "  {fault}\n");
}

/// Prints the head of a frame.
fn put_head(page: &mut Page, head: Head) {
    write!(page, "  from {} to {}", head.from, head.to);
    write!(page, " publisher {}:", head.publisher);
}

/// Prints the body of a frame.
fn put_body(alloc: Global, page: &mut Page, body: &Body) {
    match body {
        Body::Knowledge { piece, joins } => {
            put_joins(page, joins.as_slice());
            put_known(alloc, page, piece)
        }
        Body::Curiosity(piece) => put_wanted(page, piece),
        Body::Expect(tick) => write!(page, " expect {tick}"),
    }
}

/// Prints joins, if there are any.
pub fn put_joins(page: &mut Page, joins: &[Join]) {
    for (i, join) in joins.iter().enumerate() {
        page.push_str(if i == 0 { " joins " } else { "," });
        write!(page, "{}:{}", join.subscriber, join.tick);
    }
}

/// Reads bytes with zeros behind them: `LENGTH BYTES`, where all of them are so many.
fn read_padded(alloc: Global, text: &str, page: &mut Page) -> Result<(), Stop> {
    let (length, digits) = first_word(text);
    let Ok(length) = number(length) else {
        return Err(Stop::NoRow);
    };
    if length > MOST_PADDED {
        return Err(Stop::NoRow);
    }
    let mut bytes = bytes(alloc, digits)?;
    bytes.resize(length as usize, 0)?;
    put_read(alloc, &bytes, page)
}

/// Reads bytes with one of them changed, for each of these changes: `3:04,28:00 BYTES`.
fn read_changed(alloc: Global, text: &str, page: &mut Page) -> Result<(), Stop> {
    let Some((changes, digits)) = text.split_once(' ') else {
        return Err(Stop::NoRow);
    };
    for change in changes.split(',') {
        read_with(alloc, digits, change, page)?;
    }
    Ok(())
}

/// Reads bytes with a change: `PLACE:BYTE`.
fn read_with(alloc: Global, digits: &str, change: &str, page: &mut Page) -> Result<(), Stop> {
    let Some((place, value)) = change.split_once(':') else {
        return Err(Stop::NoRow);
    };
    let Ok(place) = number(place) else {
        return Err(Stop::NoRow);
    };
    let value = one_byte(alloc, value)?;
    page.push_str("  ");
    page.push_str(change);
    read_set(alloc, digits, place as usize, value, page)
}

/// The byte of two hexadecimal digits.
fn one_byte(alloc: Global, digits: &str) -> Result<u8, Stop> {
    let bytes = bytes(alloc, digits)?;
    match bytes.as_slice() {
        [byte] => Ok(*byte),
        _ => Err(Stop::NoRow),
    }
}

/// Reads bytes with another at a place.
fn read_set(
    alloc: Global,
    digits: &str,
    place: usize,
    value: u8,
    page: &mut Page,
) -> Result<(), Stop> {
    let mut bytes = bytes(alloc, digits)?;
    match bytes.get_mut(place) {
        Some(there) => *there = value,
        None => return Err(Stop::NoRow),
    }
    put_read(alloc, &bytes, page)
}

/// Reads each proper front of bytes, and prints how many are short at their end, and the others.
fn read_fronts(alloc: Global, digits: &str, page: &mut Page) -> Result<(), Stop> {
    let bytes = bytes(alloc, digits)?;
    put_fronts(alloc, &bytes, page)
}

/// Reads each proper front of bytes, and prints how many are short at their end, and the others.
fn put_fronts(alloc: Global, bytes: &[u8], page: &mut Page) -> Result<(), Stop> {
    let mut short = 0u64;
    for n in 0..bytes.len() {
        if is_short(alloc, &bytes[..n]) {
            short = short.saturating_add(1);
        } else {
            write!(page, "  {n}:");
            put_read(alloc, &bytes[..n], page)?;
        }
    }
    write!(page, "  {short} fronts are short at their end\n");
    Ok(())
}

/// Whether bytes are short at their end.
fn is_short(alloc: Global, bytes: &[u8]) -> bool {
    match decode(alloc, bytes) {
        Ok(_) => false,
        Err(fault) => fault.kind == FrameKind::Short && fault.at == bytes.len(),
    }
}

/// Prints a fault by its number: its word, and its number again.
fn put_kind(word: &str, page: &mut Page) -> Result<(), Stop> {
    let Some(number) = byte(word) else {
        return Err(Stop::NoRow);
    };
    match FrameKind::from_number(number) {
        Some(kind) => write!(page, "  {} {}\n", kind.number(), kind.word()),
        None => page.push_str("  none\n"),
    }
    Ok(())
}

/// Two lists of frames.
#[derive(Drop)]
struct Lists {
    all: Frames,
    sent: Frames,
}

/// Answers a script over two lists of frames, `all` and `sent`, and then moves the frames of the first out of it.
fn list(alloc: Global, ops: &str, page: &mut Page) -> Result<(), Stop> {
    let mut lists = Lists {
        all: Frames::new(alloc),
        sent: Frames::new(alloc),
    };
    perform(alloc, &mut lists, ops, page)?;
    put_lengths(lists.all, page);
    Ok(())
}

impl Script for Lists {
    /// Does an op, and prints how many frames there are then.
    fn op(&mut self, alloc: Global, op: &str, page: &mut Page) -> Result<(), Stop> {
        let (call, rest) = first_word(op);
        match call {
            "push" => push(alloc, &mut self.all, rest)?,
            "send" => send(alloc, &mut self.sent, rest)?,
            "append" => self.all.append(&mut self.sent)?,
            "reserve" => reserve(&mut self.all, rest)?,
            "clear" => self.all.clear(),
            _ => return Err(Stop::NoRow),
        }
        write!(page, "all {} sent {}", self.all.len(), self.sent.len());
        Ok(())
    }
}

/// Puts bytes behind others.
fn push(alloc: Global, all: &mut Frames, digits: &str) -> Result<(), Stop> {
    let bytes = bytes(alloc, digits)?;
    Ok(all.push(Bytes::from_vec(bytes))?)
}

/// Makes room for so many frames.
fn reserve(all: &mut Frames, count: &str) -> Result<(), Stop> {
    let Ok(count) = number(count) else {
        return Err(Stop::NoRow);
    };
    Ok(all.reserve(count as usize)?)
}

/// Puts the bytes of a frame behind others.
fn send(alloc: Global, sent: &mut Frames, text: &str) -> Result<(), Stop> {
    let frame = frame_of(alloc, text)?;
    spell_into(alloc, &frame, sent)
}

/// Prints the lengths of frames, and moves each out of the list.
fn put_lengths(all: Frames, page: &mut Page) {
    page.push_str("  lengths");
    for bytes in all {
        write!(page, " {}", bytes.len());
    }
    page.push('\n');
}

/// Calls the laws of frames, whose contracts they are.
fn laws(page: &mut Page) {
    gr_frame::decodes_what_is_spelled(b"GK");
    gr_frame::bytes_spell_one_frame();
    gr_frame::spells_no_prefix();
    gr_frame::cut_loses_nothing();
    gr_frame::no_joins_no_list();
    gr_frame::one_frame_is_not_cut();
    gr_frame::limit_of_frames();
    page.push_str("  hold\n");
}
