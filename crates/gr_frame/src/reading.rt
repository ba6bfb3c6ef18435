//! Frames, read.

ghost use Rattle.std.specs.Prelude.{◌≡◌, ◌+◌, ◌*◌, ◌≤◌, ◌<◌, ◌++◌, ◌∷◌, [], None, true, false, length, IfOk, Ok};
ghost use Rattle.gr_tick.specs.Stored.{IsRun, AreTickRuns, EndBefore};
ghost use Rattle.gr_frame.specs.Decode.{last_run, is_above, goes_on, run_size, run_at, run_with_ticks, runs_at};
ghost use Rattle.gr_frame.specs.Decode.{kind_of, joined_kind_of, kind_at, head_at, count_at, expect_at, body_at};
ghost use Rattle.gr_frame.specs.Decode.{knowledge_behind, fields_of, frame_decoded};
ghost use Rattle.gr_frame.specs.Gives.{Gives};
ghost use Rattle.gr_frame.specs.declared.TheConstants.{HEAD_BYTES, MAX_FRAME_BYTES};

use crate::fault::{FrameFault, FrameKind};
use crate::field::{byte_at, fault, field_at, tick_at, u16_at};
use crate::list::{head_size, list_at};
use crate::peek::{KIND_AT, PUBLISHER_AT, TO_AT};
use crate::value::{BodyKind, FrameValue};
use crate::{Body, EXPECT_BYTES, Frame, HEAD_BYTES, Head, MAX_FRAME_BYTES};
use gr_event::Joins;
use gr_tick::{Piece, Run};
use std::alloc::Global;

/// The frame that the bytes spell.
///
/// Bytes that spell no frame are refused with their first fault: `TooLong` for more than 16,384 bytes, and then the
/// first from the left, field by field. A field that is not whole is `Short`; the other faults have the place of the
/// field's first byte, `BadOrder` that of the run, `BadEvent` that of the event behind its length, and `Trailing` that
/// of the first byte behind the frame.
#[tactic(auto, unfolding(crate::specs::Decode::frame_decoded))]
pub fn decode(alloc: Global, bytes: &[u8]) -> Result<Frame, FrameFault>
    ensures { Gives result (frame_decoded bytes.now) }
{
    if bytes.len() > MAX_FRAME_BYTES {
        return Err(fault(FrameKind::TooLong, MAX_FRAME_BYTES));
    }
    fields_of(alloc, bytes)
}

/// The fields of a frame in their order.
#[tactic(auto, unfolding(crate::specs::Decode::fields_of))]
fn fields_of(alloc: Global, bytes: &[u8]) -> Result<Frame, FrameFault>
    requires { length bytes.now ≤ MAX_FRAME_BYTES }
    ensures { Gives result (fields_of bytes.now) }
{
    let kind = kind_at(bytes)?;
    let head = head_at(bytes)?;
    let count = count_at(bytes, kind)?;
    let body = body_at(alloc, bytes, kind, count)?;
    Ok(Frame { head, body })
}

/// The kind behind the letters and the version.
#[tactic(auto, unfolding(crate::specs::Decode::kind_at))]
fn kind_at(bytes: &[u8]) -> Result<BodyKind, FrameFault>
    ensures { Gives result (kind_at bytes.now) }
{
    let letters = field_at(bytes, 0, 2)?;
    if letters != b"GK".as_slice() {
        return Err(fault(FrameKind::BadMagic, 0));
    }
    match byte_at(bytes, 2)? {
        1 => kind_of(byte_at(bytes, KIND_AT)?),
        2 => joined_kind_of(byte_at(bytes, KIND_AT)?),
        _ => Err(fault(FrameKind::BadVersion, 2)),
    }
}

/// The kind of a number in version 1.
fn kind_of(number: u8) -> Result<BodyKind, FrameFault>
    ensures { Gives result (kind_of number) }
{
    match number {
        1 => Ok(BodyKind::Knowledge),
        2 => Ok(BodyKind::Curiosity),
        3 => Ok(BodyKind::Expect),
        _ => Err(fault(FrameKind::BadKind, KIND_AT)),
    }
}

/// The kind of a number in version 2, which has one.
fn joined_kind_of(number: u8) -> Result<BodyKind, FrameFault>
    ensures { Gives result (joined_kind_of number) }
{
    match number {
        1 => Ok(BodyKind::JoinedKnowledge),
        _ => Err(fault(FrameKind::BadKind, KIND_AT)),
    }
}

/// Who sends to whom, of which publisher.
#[tactic(auto, unfolding(crate::specs::Decode::head_at))]
fn head_at(bytes: &[u8]) -> Result<Head, FrameFault>
    ensures { Gives result (head_at bytes.now) }
{
    let from = u16_at(bytes, 4)?;
    let to = u16_at(bytes, TO_AT)?;
    let publisher = u16_at(bytes, PUBLISHER_AT)?;
    Ok(Head {
        from,
        to,
        publisher,
    })
}

/// How many runs follow.
#[tactic(auto, unfolding(crate::specs::Decode::count_at))]
fn count_at(bytes: &[u8], kind: BodyKind) -> Result<u16, FrameFault>
    ensures gives { Gives result (count_at bytes.now kind) }
    ensures within { IfOk result (λ n. HEAD_BYTES ≤ length bytes.now) }
{
    let count = u16_at(bytes, 10)?;
    if count == 0 || (matches!(kind, BodyKind::Expect) && count != 1) {
        return Err(fault(FrameKind::BadRange, 10));
    }
    Ok(count)
}

/// What stands behind the count.
#[tactic(auto, unfolding(crate::specs::Decode::body_at))]
fn body_at(alloc: Global, bytes: &[u8], kind: BodyKind, count: u16) -> Result<Body, FrameFault>
    requires short { length bytes.now ≤ MAX_FRAME_BYTES }
    requires inside { HEAD_BYTES ≤ length bytes.now }
    ensures { Gives result (body_at bytes.now kind count) }
{
    match kind {
        BodyKind::Knowledge => Ok(Body::Knowledge {
            piece: runs_at(alloc, bytes, HEAD_BYTES, count)?,
            joins: Joins::new(alloc),
        }),
        BodyKind::JoinedKnowledge => {
            let joins = list_at(alloc, bytes)?;
            knowledge_behind(alloc, bytes, count, joins)
        }
        BodyKind::Curiosity => Ok(Body::Curiosity(runs_at(alloc, bytes, HEAD_BYTES, count)?)),
        BodyKind::Expect => expect_at(bytes),
    }
}

/// What is known behind these joins.
#[tactic(auto, unfolding(crate::specs::Decode::knowledge_behind))]
fn knowledge_behind(
    alloc: Global,
    bytes: &[u8],
    count: u16,
    joins: Joins,
) -> Result<Body, FrameFault>
    requires short { length bytes.now ≤ MAX_FRAME_BYTES }
    requires inside { HEAD_BYTES + 2 + 10 * length joins ≤ length bytes.now }
    ensures { Gives result (knowledge_behind bytes.now count joins) }
{
    let piece = runs_at(alloc, bytes, head_size(&joins), count)?;
    Ok(Body::Knowledge { piece, joins })
}

/// The tick of an Expect, and nothing after it.
#[tactic(auto, unfolding(crate::specs::Decode::expect_at))]
fn expect_at(bytes: &[u8]) -> Result<Body, FrameFault>
    ensures { Gives result (expect_at bytes.now) }
{
    let tick = tick_at(bytes, HEAD_BYTES, 1)?;
    if bytes.len() > EXPECT_BYTES {
        return Err(fault(FrameKind::Trailing, EXPECT_BYTES));
    }
    Ok(Body::Expect(tick))
}

/// So many runs from a place on, and nothing after them.
fn runs_at<V: FrameValue>(
    alloc: Global,
    bytes: &[u8],
    start: usize,
    count: u16,
) -> Result<Piece<V>, FrameFault>
    requires short { length bytes.now ≤ MAX_FRAME_BYTES }
    requires inside { start ≤ length bytes.now }
    ensures { Gives result (runs_at V.form bytes.now count start None) }
{
    let mut found = Piece::new(alloc);
    let mut at = start;
    for _ in 0..count {
        let run = run_at(alloc, bytes, at, &found)?;
        at += V::run_size(&run);
        found.push(run)?;
    }
    if at < bytes.len() {
        return Err(fault(FrameKind::Trailing, at));
    }
    Ok(found)
}

/// The run that stands at a place, above the runs so far and not going on with the last of them.
#[tactic(auto, unfolding(crate::specs::Decode::run_at, crate::specs::Decode::run_with_ticks))]
fn run_at<V: FrameValue>(
    alloc: Global,
    bytes: &[u8],
    at: usize,
    found: &Piece<V>,
) -> Result<Run<V>, FrameFault>
    requires short { length bytes.now ≤ MAX_FRAME_BYTES }
    requires inside { at ≤ length bytes.now }
    ensures gives { Gives result (run_at V.form bytes.now at (last_run found.now)) }
    ensures alone { IfOk result (λ r. IsRun V.least r) }
    ensures past { IfOk result (λ r. EndBefore found.now r.first) }
    ensures joins { IfOk result (λ r. AreTickRuns V.least (found.now ++ r ∷ [])) }
    ensures within { IfOk result (λ r. at + run_size V.form r ≤ length bytes.now) }
{
    let first = tick_at(bytes, at, 1)?;
    let last = tick_at(bytes, at + 8, first)?;
    if !is_above(found, first) {
        return Err(fault(FrameKind::BadOrder, at));
    }
    let value = V::read(alloc, bytes, at + 16)?;
    if goes_on(found, first, &value) {
        return Err(fault(FrameKind::BadOrder, at));
    }
    Ok(Run { first, last, value })
}

/// Whether a run that begins at a tick lies above the runs so far.
fn is_above<V: FrameValue>(found: &Piece<V>, first: u64) -> bool
    ensures above { result ≡ is_above (last_run found.now) first }
    ensures runs { AreTickRuns V.least found.now }
{
    let count = found.len();
    if count == 0 {
        return true;
    }
    found.run(count - 1).last < first
}

/// Whether a run that begins at a tick only goes on with the last of the runs so far.
fn goes_on<V: FrameValue>(found: &Piece<V>, first: u64, value: &V) -> bool
    ensures { result ≡ goes_on V.form.same (last_run found.now) first value.now }
{
    let count = found.len();
    if count == 0 {
        return false;
    }
    let run = found.run(count - 1);
    run.last + 1 == first && run.value.same(value)
}
