//! The list of joins that stands between the head of a frame and its runs.

ghost use Rattle.std.specs.Prelude.{◌≡◌, ◌+◌, ◌*◌, ◌≤◌, ◌<◌, ◌^◌, ◌++◌, [], length, IfOk};
ghost use Rattle.std.specs.Int.{to_be_bytes, w16, w64};
ghost use Rattle.gr_event.specs.declared.limits.TheConstants.{MAX_JOINS};
ghost use Rattle.gr_event.specs.Joins.{AreJoins, has_joined, last_join_tick};
ghost use Rattle.gr_frame.specs.Bytes.{head_size, joins_bytes, list_bytes, version_of};
ghost use Rattle.gr_frame.specs.Decode.{join_at, joins_at, list_at};
ghost use Rattle.gr_frame.specs.Gives.{Gives};
ghost use Rattle.gr_frame.specs.declared.TheConstants.{HEAD_BYTES, MAX_FRAME_BYTES};
ghost use Rattle.gr_frame.specs.declared.list.TheConstants.{JOIN_BYTES};

use crate::HEAD_BYTES;
use crate::fault::{FrameFault, FrameKind};
use crate::field::{fault, put_u16, put_u64, u16_at, u64_at};
use gr_event::{Join, Joins, MAX_JOINS};
use gr_tick::MAX_TICK;
use smallvec::SmallVec;
use std::alloc::Global;

/// How many bytes a join takes: the number of its subscriber, and its tick.
const JOIN_BYTES: usize = 10;

/// Up to how many joins are read with no memory but that of their list.
const FEW: usize = 4;

/// How many bytes stand before the runs of a frame with these joins.
pub fn head_size(joins: &Joins) -> usize
    ensures size { result ≡ head_size joins.now }
    ensures upto { result ≤ HEAD_BYTES + 2 + 10 * length joins.now }
    ensures least { HEAD_BYTES ≤ result }
    ensures most { result ≤ 654 }
    ensures joins { AreJoins joins.now }
{
    let count = joins.len();
    if count == 0 {
        return HEAD_BYTES;
    }
    HEAD_BYTES + 2 + JOIN_BYTES * count
}

/// The version of a frame with these joins.
pub fn version_of(joins: &Joins) -> u8
    ensures { result ≡ version_of joins.now }
{
    let count = joins.len();
    if count == 0 {
        return 1;
    }
    2
}

/// Writes the number of joins, and behind it each of them, into a slice of exactly their size: an empty one where there
/// is no join.
pub fn put_list(joins: &Joins, into: &mut [u8])
    requires { length into.old ≡ length (list_bytes joins.now) }
    ensures { into.new ≡ list_bytes joins.now }
{
    let count = joins.len();
    if count > 0 {
        put_counted(count as u16, joins.as_slice(), into);
    }
}

/// Writes a number, and behind it each of these joins, into a slice of exactly their size.
fn put_counted(count: u16, joins: &[Join], into: &mut [u8])
    requires { length into.old ≡ 2 + length (joins_bytes joins.now) }
    ensures { into.new ≡ to_be_bytes w16 count ++ joins_bytes joins.now }
{
    let (number, rest) = into.split_at_mut(2);
    put_u16(count, number);
    put_joins(joins, rest);
}

/// Writes joins into a slice of exactly their size.
fn put_joins(joins: &[Join], into: &mut [u8])
    requires { length into.old ≡ length (joins_bytes joins.now) }
    ensures { into.new ≡ joins_bytes joins.now }
{
    if let [first, others @ ..] = joins {
        let (here, rest) = into.split_at_mut(JOIN_BYTES);
        put_join(*first, here);
        put_joins(others, rest);
    }
}

/// Writes a join into a slice of exactly its size: its subscriber and its tick.
fn put_join(join: Join, into: &mut [u8])
    requires { length into.old ≡ JOIN_BYTES }
    ensures { into.new ≡ to_be_bytes w16 join.subscriber ++ to_be_bytes w64 join.tick }
{
    let (subscriber, tick) = into.split_at_mut(2);
    put_u16(join.subscriber, subscriber);
    put_u64(join.tick, tick);
}

/// The list of joins behind the head of a frame of version 2.
#[tactic(auto, unfolding(crate::specs::Decode::list_at))]
pub fn list_at(alloc: Global, bytes: &[u8]) -> Result<Joins, FrameFault>
    requires { length bytes.now ≤ MAX_FRAME_BYTES }
    ensures gives { Gives result (list_at bytes.now) }
    ensures within { IfOk result (λ js. HEAD_BYTES + 2 + 10 * length js ≤ length bytes.now) }
{
    let count = u16_at(bytes, HEAD_BYTES)?;
    if count == 0 || usize::from(count) > MAX_JOINS {
        return Err(fault(FrameKind::BadJoins, HEAD_BYTES));
    }
    joins_at(alloc, bytes, count)
}

/// So many joins behind their number.
fn joins_at(alloc: Global, bytes: &[u8], count: u16) -> Result<Joins, FrameFault>
    requires short { length bytes.now ≤ MAX_FRAME_BYTES }
    requires inside { HEAD_BYTES + 2 ≤ length bytes.now }
    requires few { count ≤ MAX_JOINS }
    ensures gives { Gives result (joins_at bytes.now count (HEAD_BYTES + 2) []) }
    ensures within { IfOk result (λ js. HEAD_BYTES + 2 + 10 * length js ≤ length bytes.now) }
{
    let mut found: SmallVec<Join, FEW> = SmallVec::new(alloc);
    let mut at = HEAD_BYTES + 2;
    for _ in 0..count {
        let join = join_at(bytes, at, found.as_slice())?;
        found.push(join)?;
        at += JOIN_BYTES;
    }
    let joins = Joins::of(alloc, found.as_slice())?;
    Ok(joins)
}

/// The join that stands at a place, behind those before it.
#[tactic(auto, unfolding(crate::specs::Decode::join_at, crate::specs::Decode::join_of))]
fn join_at(bytes: &[u8], at: usize, before: &[Join]) -> Result<Join, FrameFault>
    requires { at + 10 < 2 ^ 64 }
    ensures gives { Gives result (join_at bytes.now at before.now) }
    ensures within { IfOk result (λ j. at + 10 ≤ length bytes.now) }
{
    let subscriber = u16_at(bytes, at)?;
    if has_joined(before, subscriber) {
        return Err(fault(FrameKind::BadJoins, at));
    }
    let tick = u64_at(bytes, at + 2)?;
    if tick <= last_tick(before) || tick > MAX_TICK {
        return Err(fault(FrameKind::BadJoins, at + 2));
    }
    Ok(Join { subscriber, tick })
}

/// Whether a subscriber has one of these joins.
fn has_joined(before: &[Join], subscriber: u16) -> bool
    ensures { result ≡ has_joined before.now subscriber }
{
    let mut at = 0;
    'joins: while at < before.len() {
        if before[at].subscriber == subscriber {
            return true;
        }
        at += 1;
    }
    false
}

/// The tick of the last of these joins, 0 where there is none.
fn last_tick(before: &[Join]) -> u64
    ensures { result ≡ last_join_tick before.now }
{
    match before {
        [] => 0,
        [.., last] => last.tick,
    }
}
