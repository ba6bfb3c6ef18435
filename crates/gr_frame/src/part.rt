//! The parts of a frame.

ghost use Rattle.std.specs.Prelude.{◌≡◌, ◌<◌, ◌≤◌, [], ◌∷◌, length, drop, map, slice_range, IfOk};
ghost use Rattle.gr_frame.specs.declared.Body.TheVariants.{Knowledge, Curiosity, Expect};
ghost use Rattle.gr_frame.specs.Bytes.{head_size, cut_frames, known_run_size, wanted_run_size};
ghost use Rattle.gr_frame.specs.Cut.{parts_of, with_head};
ghost use Rattle.gr_frame.specs.declared.TheConstants.{HEAD_BYTES};

use crate::list::head_size;
use crate::value::FrameValue;
use crate::writing::part_from;
use crate::{Body, Frame, HEAD_BYTES, Head};
use gr_curio::Q3;
use gr_event::{Joins, Memory};
use gr_know::K;
use gr_tick::{Piece, Run};
use std::alloc::Global;

/// The frames whose bytes `encode` gives: the piece in parts, each with the head and the joins of the frame.
///
/// No event is copied, and no list of joins: the parts are further owners.
pub fn parts(alloc: Global, frame: &Frame) -> Result<Vec<Frame>, Memory>
    ensures { IfOk result (λ fs. fs.items ≡ parts_of frame.now) }
{
    let head = frame.head;
    match &frame.body {
        Body::Knowledge { piece, joins } => known_parts(alloc, head, piece, joins),
        Body::Curiosity(piece) => wanted_parts(alloc, head, piece),
        Body::Expect(tick) => expect_part(alloc, head, *tick),
    }
}

/// The parts of what is known, each in a frame.
fn known_parts(
    alloc: Global,
    head: Head,
    piece: &Piece<K>,
    joins: &Joins,
) -> Result<Vec<Frame>, Memory>
    ensures { IfOk result (λ fs. fs.items ≡ map (λ part. with_head head (Knowledge part joins.now))
        (cut_frames (head_size joins.now) known_run_size piece.now)) }
{
    let room = head_size(joins);
    let mut frames = Vec::new(alloc);
    let mut at = 0;
    'parts: while at < piece.len() {
        let part = next_part(alloc, piece, room, &mut at)?;
        let body = Body::Knowledge {
            piece: part,
            joins: joins.share(),
        };
        frames.push(Frame { head, body })?;
    }
    Ok(frames)
}

/// The parts of what is asked for, each in a frame.
fn wanted_parts(alloc: Global, head: Head, piece: &Piece<Q3>) -> Result<Vec<Frame>, Memory>
    ensures { IfOk result (λ fs. fs.items
        ≡ map (λ part. with_head head (Curiosity part)) (cut_frames HEAD_BYTES wanted_run_size piece.now)) }
{
    let mut frames = Vec::new(alloc);
    let mut at = 0;
    'parts: while at < piece.len() {
        let part = next_part(alloc, piece, HEAD_BYTES, &mut at)?;
        let body = Body::Curiosity(part);
        frames.push(Frame { head, body })?;
    }
    Ok(frames)
}

/// An Expect, which is one frame.
fn expect_part(alloc: Global, head: Head, tick: u64) -> Result<Vec<Frame>, Memory>
    ensures { IfOk result (λ fs. fs.items ≡ with_head head (Expect tick) ∷ []) }
{
    let mut frames = Vec::new(alloc);
    let body = Body::Expect(tick);
    frames.push(Frame { head, body })?;
    Ok(frames)
}

/// The part of a piece that begins at place `at`, where `room` bytes stand before the runs of a frame. `at` moves behind
/// the last of its runs, also if memory runs out.
fn next_part<V: FrameValue>(
    alloc: Global,
    piece: &Piece<V>,
    room: usize,
    at: &mut usize,
) -> Result<Piece<V>, Memory>
    requires room { room ≤ 654 }
    requires within { at.old < length piece.now }
    ensures later { at.old < at.new }
    ensures within { at.new ≤ length piece.now }
    ensures cut { IfOk result (λ part. cut_frames room V.form.size (drop at.old piece.now)
        ≡ part ∷ cut_frames room V.form.size (drop at.new piece.now)) }
{
    let start = *at;
    let end = part_from(piece, room, start).end;
    *at = end;
    runs_between(alloc, piece, start, end)
}

/// The runs of a piece from one place to another.
fn runs_between<V: FrameValue>(
    alloc: Global,
    piece: &Piece<V>,
    start: usize,
    end: usize,
) -> Result<Piece<V>, Memory>
    requires ordered { start ≤ end }
    requires within { end ≤ length piece.now }
    ensures { IfOk result (λ part. part ≡ slice_range piece.now start end) }
{
    // The runs of any piece are canonical, so these are.
    let _ = piece.len();
    let mut part = Piece::new(alloc);
    'runs: for i in start..end {
        let run = piece.run(i);
        part.push(Run {
            first: run.first,
            last: run.last,
            value: run.value.share(),
        })?;
    }
    Ok(part)
}
