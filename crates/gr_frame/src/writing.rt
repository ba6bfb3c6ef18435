//! Frames, written.

ghost use Rattle.std.specs.Prelude.{◌≡◌, ◌+◌, ◌-◌, ◌*◌, ◌≤◌, ◌<◌, ◌^◌, ◌++◌, ◌∷◌, length, take, drop, map, slice_range};
ghost use Rattle.std.specs.Prelude.{IfOk, OnOk, OnErr, vec_len, vec_capacity};
ghost use Rattle.std.specs.Int.{to_be_bytes, w64};
ghost use Rattle.std.specs.List.{AllByRecursion};
ghost use Rattle.gr_tick.specs.declared.TheConstants.{MAX_TICK};
ghost use Rattle.gr_tick.specs.Runs.{AreRuns};
ghost use Rattle.gr_tick.specs.Stored.{EndBefore};
ghost use Rattle.gr_event.specs.Joins.{AreJoins};
ghost use Rattle.gr_frame.specs.Bytes.{frame_bytes, head_bytes, head_size, piece_head, runs_bytes, cut_frames};
ghost use Rattle.gr_frame.specs.Cut.{IsSent, AreFrames, parts_of};
ghost use Rattle.gr_frame.specs.Decode.{kind_number, run_size};
ghost use Rattle.gr_frame.specs.Limits.{IsHead};
ghost use Rattle.gr_frame.specs.declared.TheConstants.{HEAD_BYTES, EXPECT_BYTES};

use crate::field::put_u64;
use crate::frames::Frames;
use crate::list::{head_size, put_list, version_of};
use crate::value::{BodyKind, FrameValue};
use crate::{Body, EXPECT_BYTES, Frame, HEAD_BYTES, Head, MAX_FRAME_BYTES};
use gr_event::{Bytes, Joins, Memory};
use gr_tick::{Piece, Run};
use std::alloc::{AllocError, Global};

/// The runs of a piece that go into one frame.
#[derive(Clone, Copy)]
pub(crate) struct Part {
    /// The place behind the last of them.
    pub(crate) end: usize,
    /// How many bytes the frame has.
    size: usize,
}

/// The bytes of a frame, or of several with its head where its piece does not fit into one.
///
/// Each has at most 16,384 bytes. Runs go into frames in their order; a run that would make a frame longer begins the
/// next one. The joins stand in each of them. The piece may not be empty, and the tick of an Expect is in 1 to
/// `MAX_TICK`. The memory of each frame is taken once, exactly as much as it needs, and before any of it is written.
pub fn encode(alloc: Global, frame: &Frame) -> Result<Frames, Memory>
    requires { IsSent frame.now.body }
    // The frames that the cutting rule makes.
    ensures cut { IfOk result (λ fs. fs.frames ≡ map frame_bytes (parts_of frame.now)) }
    // Each spells its part, and is no longer than a frame may be.
    ensures spelled { IfOk result (λ fs. AreFrames fs.frames (parts_of frame.now)) }
{
    let mut frames = Frames::new(alloc);
    encode_into(alloc, frame, &mut frames)?;
    Ok(frames)
}

/// Puts the bytes of a frame at the end of a list, as `encode` makes them. If memory runs out, the list is as it was.
pub fn encode_into(alloc: Global, frame: &Frame, into: &mut Frames) -> Result<(), Memory>
    requires { IsSent frame.now.body }
    // The frames that the cutting rule makes follow those that were there.
    ensures cut { OnOk result (into.new.frames ≡ into.old.frames ++ map frame_bytes (parts_of frame.now)) }
    // Each spells its part, and is no longer than a frame may be.
    ensures spelled { OnOk result (AreFrames (map frame_bytes (parts_of frame.now)) (parts_of frame.now)) }
    ensures unchanged { OnErr result (into.new.frames ≡ into.old.frames) }
{
    let before = into.len();
    match put_frame(alloc, frame, into) {
        Ok(()) => Ok(()),
        Err(refused) => {
            into.truncate(before);
            Err(refused)
        }
    }
}

/// Puts the bytes of a frame at the end of a list. If memory runs out, some of them may stand there.
fn put_frame(alloc: Global, frame: &Frame, into: &mut Frames) -> Result<(), Memory>
    requires { IsSent frame.now.body }
    ensures cut { OnOk result (into.new.frames ≡ into.old.frames ++ map frame_bytes (parts_of frame.now)) }
    ensures spelled { OnOk result (AreFrames (map frame_bytes (parts_of frame.now)) (parts_of frame.now)) }
    ensures kept { OnErr result (take (length into.old.frames) into.new.frames ≡ into.old.frames) }
{
    let head = frame.head;
    match &frame.body {
        Body::Knowledge { piece, joins } => {
            put_parts(alloc, head, BodyKind::Knowledge, joins, piece, into)
        }
        Body::Curiosity(piece) => {
            let none = Joins::new(alloc);
            put_parts(alloc, head, BodyKind::Curiosity, &none, piece, into)
        }
        Body::Expect(tick) => {
            let bytes = expect_bytes(alloc, head, *tick)?;
            into.push(Bytes::from_vec(bytes))
        }
    }
}

/// The frame of an Expect, in memory of exactly its size.
fn expect_bytes(alloc: Global, head: Head, tick: u64) -> Result<Vec<u8>, AllocError>
    ensures bytes { IfOk result (λ b. b.items ≡ head_bytes 1 3 head 1 ++ to_be_bytes w64 tick) }
    ensures exact { IfOk result (λ b. vec_capacity b ≡ vec_len b) }
    ensures head { IsHead head }
{
    let mut bytes = blank(alloc, EXPECT_BYTES)?;
    put_expect(head, tick, &mut bytes);
    Ok(bytes)
}

/// Writes the frame of an Expect into a slice of exactly its size.
fn put_expect(head: Head, tick: u64, into: &mut [u8])
    requires { length into.old ≡ EXPECT_BYTES }
    ensures bytes { into.new ≡ head_bytes 1 3 head 1 ++ to_be_bytes w64 tick }
    ensures head { IsHead head }
{
    let (front, body) = into.split_at_mut(HEAD_BYTES);
    put_head(1, BodyKind::Expect, head, 1, front);
    put_u64(tick, body);
}

/// So many bytes, all 0. This is where the memory of a frame is taken, in one piece of exactly that size.
fn blank(alloc: Global, size: usize) -> Result<Vec<u8>, AllocError>
    ensures size { IfOk result (λ b. length b.items ≡ size) }
    ensures exact { IfOk result (λ b. vec_capacity b ≡ size) }
{
    let mut bytes = Vec::with_capacity(alloc, size)?;
    for _ in 0..size {
        bytes.push_reserved(0);
    }
    Ok(bytes)
}

/// Puts the frames of a piece at the end of a list. If memory runs out, some of them may stand there.
fn put_parts<V: FrameValue>(
    alloc: Global,
    head: Head,
    kind: BodyKind,
    joins: &Joins,
    piece: &Piece<V>,
    into: &mut Frames,
) -> Result<(), Memory>
    ensures cut { OnOk result (into.new.frames
        ≡ into.old.frames
        ++ map (λ part. piece_head (kind_number kind) head (length part) joins.now ++ runs_bytes V.form.bytes part)
        (cut_frames (head_size joins.now) V.form.size piece.now)) }
    ensures kept { OnErr result (take (length into.old.frames) into.new.frames ≡ into.old.frames) }
    ensures head { IsHead head }
    ensures joins { AreJoins joins.now }
    ensures runs { AreRuns V.least piece.now }
    ensures upto { EndBefore piece.now (MAX_TICK + 1) }
    ensures each { OnOk result (AllByRecursion (λ r. V.fits r.value) piece.now) }
{
    let room = head_size(joins);
    let mut start = 0;
    let count = piece.len();
    'parts: while start < count {
        let part = part_from(piece, room, start);
        match part_bytes(alloc, head, kind, joins, piece, start, part) {
            Ok(bytes) => into.push(Bytes::from_vec(bytes))?,
            Err(refused) => return Err(refused),
        }
        start = part.end;
    }
    Ok(())
}

/// The runs that go into a frame with the run at `start`, and how many bytes that frame has, where so many stand before
/// its runs.
pub(crate) fn part_from<V: FrameValue>(piece: &Piece<V>, room: usize, start: usize) -> Part
    requires room { room ≤ 654 }
    requires within { start < length piece.now }
    ensures later { start < result.end }
    ensures within { result.end ≤ length piece.now }
    ensures few { 17 * (result.end - start) ≤ 16384 }
    ensures size { let runs = slice_range piece.now start result.end in
        result.size ≡ room + length (runs_bytes V.form.bytes runs) }
    ensures cut { cut_frames room V.form.size (drop start piece.now)
        ≡ slice_range piece.now start result.end ∷ cut_frames room V.form.size (drop result.end piece.now) }
{
    let count = piece.len();
    let mut size = room + V::run_size(piece.run(start));
    for end in start + 1..count {
        let more = V::run_size(piece.run(end));
        if size + more > MAX_FRAME_BYTES {
            return Part { end, size };
        }
        size += more;
    }
    Part { end: count, size }
}

/// The frame of the runs from `start` on that are a part, in memory of exactly its size.
fn part_bytes<V: FrameValue>(
    alloc: Global,
    head: Head,
    kind: BodyKind,
    joins: &Joins,
    piece: &Piece<V>,
    start: usize,
    part: Part,
) -> Result<Vec<u8>, AllocError>
    requires ordered { start ≤ part.end }
    requires within { part.end ≤ length piece.now }
    requires few { part.end - start < 2 ^ 16 }
    requires size { let runs = slice_range piece.now start part.end in
        part.size ≡ head_size joins.now + length (runs_bytes V.form.bytes runs) }
    ensures bytes { let runs = slice_range piece.now start part.end in IfOk result (λ b.
        b.items ≡ piece_head (kind_number kind) head (part.end - start) joins.now ++ runs_bytes V.form.bytes runs) }
    ensures exact { IfOk result (λ b. vec_capacity b ≡ vec_len b) }
    ensures each { IfOk result (λ b. AllByRecursion (λ r. V.fits r.value) (slice_range piece.now start part.end)) }
{
    let mut bytes = blank(alloc, part.size)?;
    let (front, runs) = bytes.split_at_mut(head_size(joins));
    put_front(kind, head, (part.end - start) as u16, joins, front);
    put_runs(piece, start, part.end, runs);
    Ok(bytes)
}

/// Writes what stands before the runs of a frame into a slice of exactly its size.
fn put_front(kind: BodyKind, head: Head, count: u16, joins: &Joins, into: &mut [u8])
    requires { length into.old ≡ head_size joins.now }
    ensures { into.new ≡ piece_head (kind_number kind) head count joins.now }
{
    let (front, list) = into.split_at_mut(HEAD_BYTES);
    put_head(version_of(joins), kind, head, count, front);
    put_list(joins, list);
}

/// Writes the runs from one place to another into a slice of exactly their size.
fn put_runs<V: FrameValue>(piece: &Piece<V>, start: usize, end: usize, into: &mut [u8])
    requires ordered { start ≤ end }
    requires within { end ≤ length piece.now }
    requires size { length into.old ≡ length (runs_bytes V.form.bytes (slice_range piece.now start end)) }
    ensures bytes { into.new ≡ runs_bytes V.form.bytes (slice_range piece.now start end) }
    ensures each { AllByRecursion (λ r. V.fits r.value) (slice_range piece.now start end) }
{
    let mut at = 0;
    for i in start..end {
        let run = piece.run(i);
        let behind = at + V::run_size(run);
        put_run(run, &mut into[at..behind]);
        at = behind;
    }
}

/// Writes a run into a slice of exactly its size: its first tick, its last tick and its value.
fn put_run<V: FrameValue>(run: &Run<V>, into: &mut [u8])
    requires { length into.old ≡ run_size V.form run.now }
    ensures bytes { let ticks = to_be_bytes w64 run.now.first ++ to_be_bytes w64 run.now.last in
        into.new ≡ ticks ++ V.form.bytes run.now.value }
    ensures fits { V.fits run.now.value }
{
    let (ticks, value) = into.split_at_mut(16);
    put_ticks(run.first, run.last, ticks);
    run.value.put(value);
}

/// Writes the first and the last tick of a run into a slice of exactly their size.
fn put_ticks(first: u64, last: u64, into: &mut [u8])
    requires { length into.old ≡ 16 }
    ensures { into.new ≡ to_be_bytes w64 first ++ to_be_bytes w64 last }
{
    let (front, back) = into.split_at_mut(8);
    put_u64(first, front);
    put_u64(last, back);
}

/// Writes what stands before the body of a frame, up to the list of its joins, into a slice of exactly its size.
fn put_head(version: u8, kind: BodyKind, head: Head, count: u16, into: &mut [u8])
    requires { length into.old ≡ HEAD_BYTES }
    ensures bytes { into.new ≡ head_bytes version (kind_number kind) head count }
    ensures head { IsHead head }
{
    let [from, from_low] = head.from.to_be_bytes();
    let [to, to_low] = head.to.to_be_bytes();
    let [publisher, publisher_low] = head.publisher.to_be_bytes();
    let [many, few] = count.to_be_bytes();
    into.copy_from_slice(&[
        b'G',
        b'K',
        version,
        kind.number(),
        from,
        from_low,
        to,
        to_low,
        publisher,
        publisher_low,
        many,
        few,
    ]);
}
