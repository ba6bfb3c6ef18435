//! What a lane is filled with, from place 6 on.

ghost use Rattle.std.specs.Prelude.{◌≡◌, ◌+◌, ◌-◌, ◌^◌, ◌<◌, ◌≤◌, ◌∷◌, ◌++◌, [], length, drop};
ghost use Rattle.std.specs.Prelude.{filter, nat_lt, max, take, slice_index_or, OnOk, IfOk};
ghost use Rattle.std.specs.Int.{to_be_bytes, w16, w32, w64};
ghost use Rattle.gr_event.specs.declared.limits.TheConstants.{MAX_JOINS};
ghost use Rattle.gr_event.specs.Joins.{JoinsRise};
ghost use Rattle.gr_out.specs.Lane.{content};
ghost use Rattle.gr_publog.specs.declared.record.Record.TheVariants.{Cut, Join as Joined};
ghost use Rattle.gr_publog.specs.State.{held_by, stands_after, EntriesRise, Apart, IsState};
ghost use Rattle.gr_publog.specs.Text.{record_bytes, joins_bytes, base_bytes, based, blocks};
ghost use Rattle.gr_publog.specs.Filled.{joins_upto, joins_past, joins_below, joins_from, joined, logged, in_order};
ghost use Rattle.gr_publog.specs.Filled.{last_event, marked, body_of, filled_size};
ghost use Rattle.gr_publog.specs.Crash.{GaveUp};
ghost use Rattle.gr_publog.specs.Steps.{StandsAs, Refills};
ghost use Rattle.gr_publog.specs.Uses.{IsSoleOn, ChangesLane};

use crate::footing::Footing;
use crate::read::last_tick;
use crate::record::{Entry, LogFault, MAX_TICK, Memory};
use crate::steps::{Aside, rewrite};
use gr_event::Join;
use gr_out::Disk;
use std::alloc::Global;
use std::collections::VecDeque;

/// The place of the first entry past a tick.
pub(crate) fn first_past(entries: &VecDeque<Entry>, tick: u64) -> usize
    requires { EntriesRise 0 entries.now.items }
    ensures rest { drop result entries.now.items ≡ filter (λ e. nat_lt tick e.tick) entries.now.items }
    ensures within { result ≤ length entries.now.items }
{
    let mut i = 0;
    'cut: while i < entries.len() && entries[i].tick <= tick {
        i += 1;
    }
    i
}

/// The join at a place.
fn join_at(joins: &[Join], i: usize) -> Join
    requires { i < length joins.now }
    ensures { result ≡ slice_index_or joins.now i result }
{
    joins[i]
}

/// The place of the first join past a tick.
fn joins_past(joins: &[Join], tick: u64) -> usize
    requires { JoinsRise 0 joins.now }
    ensures before { take result joins.now ≡ joins_upto tick joins.now }
    ensures rest { drop result joins.now ≡ joins_past tick joins.now }
    ensures within { result ≤ length joins.now }
{
    let mut i = 0;
    'upto: while i < joins.len() && join_at(joins, i).tick <= tick {
        i += 1;
    }
    i
}

/// Puts a base behind bytes, but for its joins.
fn put_base_head(
    bytes: &mut Vec<u8>,
    generation: u64,
    last: u64,
    cut: u64,
    count: usize,
) -> Result<(), Memory>
    requires { count < 2 ^ 16 }
    ensures { OnOk result (bytes.new.items ≡ bytes.old.items ++ (to_be_bytes w64 generation
        ++ (to_be_bytes w64 last ++ (to_be_bytes w64 cut ++ to_be_bytes w16 count)))) }
{
    let [g0, g1, g2, g3, g4, g5, g6, g7] = generation.to_be_bytes();
    let [l0, l1, l2, l3, l4, l5, l6, l7] = last.to_be_bytes();
    let [c0, c1, c2, c3, c4, c5, c6, c7] = cut.to_be_bytes();
    let [n0, n1] = (count as u16).to_be_bytes();
    bytes.extend_from_slice(&[
        g0, g1, g2, g3, g4, g5, g6, g7, l0, l1, l2, l3, l4, l5, l6, l7, c0, c1, c2, c3, c4, c5, c6,
        c7, n0, n1,
    ])
}

/// Puts a join of a base behind bytes.
fn put_base_join(bytes: &mut Vec<u8>, join: Join) -> Result<(), Memory>
    ensures { OnOk result (bytes.new.items
        ≡ bytes.old.items ++ (to_be_bytes w16 join.subscriber ++ to_be_bytes w64 join.tick)) }
{
    let [s0, s1] = join.subscriber.to_be_bytes();
    let [t0, t1, t2, t3, t4, t5, t6, t7] = join.tick.to_be_bytes();
    bytes.extend_from_slice(&[s0, s1, t0, t1, t2, t3, t4, t5, t6, t7])
}

/// Puts the joins of a base behind bytes.
fn put_base_joins(bytes: &mut Vec<u8>, joins: &[Join]) -> Result<(), Memory>
    ensures { OnOk result (bytes.new.items ≡ bytes.old.items ++ joins_bytes joins.now) }
{
    let mut i = 0;
    'joins: while i < joins.len() {
        put_base_join(bytes, joins[i])?;
        i += 1;
    }
    Ok(())
}

/// Puts a base with these joins behind bytes.
fn put_base(
    bytes: &mut Vec<u8>,
    generation: u64,
    last: u64,
    cut: u64,
    joins: &[Join],
) -> Result<(), Memory>
    requires { length joins.now ≤ MAX_JOINS }
    ensures { OnOk result (bytes.new.items ≡ bytes.old.items ++ base_bytes (based generation last cut joins.now)) }
{
    put_base_head(bytes, generation, last, cut, joins.len())?;
    put_base_joins(bytes, joins)
}

/// Puts an open gate and a join's record behind bytes.
fn put_join(bytes: &mut Vec<u8>, join: Join) -> Result<(), Memory>
    ensures { OnOk result (bytes.new.items
        ≡ bytes.old.items ++ (1 ∷ record_bytes (Joined join.tick join.subscriber))) }
{
    let [t0, t1, t2, t3, t4, t5, t6, t7] = join.tick.to_be_bytes();
    let [s0, s1] = join.subscriber.to_be_bytes();
    bytes.extend_from_slice(&[1, 4, t0, t1, t2, t3, t4, t5, t6, t7, s0, s1])
}

/// Puts the joins below a tick behind bytes, as records, from a place on, and answers the place of the next one.
fn put_joins(bytes: &mut Vec<u8>, joins: &[Join], from: usize, end: u64) -> Result<usize, Memory>
    requires from { from ≤ length joins.now }
    requires rise { JoinsRise 0 (drop from joins.now) }
    ensures text { IfOk result (λ _.
        bytes.new.items ≡ bytes.old.items ++ blocks (joined (joins_below end (drop from joins.now)))) }
    ensures rest { IfOk result (λ k. drop k joins.now ≡ joins_from end (drop from joins.now)) }
    ensures within { IfOk result (λ k. k ≤ length joins.now) }
{
    let mut i = from;
    'joins: while i < joins.len() {
        let join = join_at(joins, i);
        if join.tick >= end {
            return Ok(i);
        }
        put_join(bytes, join)?;
        i += 1;
    }
    Ok(i)
}

/// Puts behind bytes an open gate and what an event's record has before the event.
fn put_head(bytes: &mut Vec<u8>, tick: u64, number: u64, size: usize) -> Result<(), Memory>
    requires { size < 2 ^ 32 }
    ensures { OnOk result (bytes.new.items
        ≡ bytes.old.items ++ (1 ∷ (1 ∷ (to_be_bytes w64 tick ++ (to_be_bytes w64 number ++ to_be_bytes w32 size))))) }
{
    let [t0, t1, t2, t3, t4, t5, t6, t7] = tick.to_be_bytes();
    let [n0, n1, n2, n3, n4, n5, n6, n7] = number.to_be_bytes();
    let [s0, s1, s2, s3] = (size as u32).to_be_bytes();
    bytes.extend_from_slice(&[
        1, 1, t0, t1, t2, t3, t4, t5, t6, t7, n0, n1, n2, n3, n4, n5, n6, n7, s0, s1, s2, s3,
    ])
}

/// Puts an open gate and an event's record behind bytes.
fn put_event(bytes: &mut Vec<u8>, entry: &Entry) -> Result<(), Memory>
    ensures { OnOk result (bytes.new.items ≡ bytes.old.items ++ (1 ∷ record_bytes (logged entry.now))) }
{
    put_head(bytes, entry.tick, entry.number, entry.event.size())?;
    bytes.extend_from_slice(entry.event.bytes())?;
    Ok(())
}

/// Puts a Mark behind bytes, where more is settled than the last event, and a closed gate.
fn put_end(bytes: &mut Vec<u8>, top: u64, settled: u64) -> Result<(), Memory>
    ensures { OnOk result (bytes.new.items ≡ bytes.old.items ++ (blocks (marked top settled) ++ 0 ∷ [])) }
{
    if top < settled {
        let [t0, t1, t2, t3, t4, t5, t6, t7] = settled.to_be_bytes();
        return bytes.extend_from_slice(&[1, 2, t0, t1, t2, t3, t4, t5, t6, t7, 0]);
    }
    bytes.push(0)?;
    Ok(())
}

/// Puts the entries from a place on and the joins from another behind bytes, as records, by their ticks, and answers
/// the tick of the last entry, or `cut`.
fn put_records(
    bytes: &mut Vec<u8>,
    entries: &VecDeque<Entry>,
    from: usize,
    joins: &[Join],
    past: usize,
    cut: u64,
) -> Result<u64, Memory>
    requires from { from ≤ length entries.now.items }
    requires past { past ≤ length joins.now }
    requires rise { JoinsRise 0 (drop past joins.now) }
    requires apart { Apart (drop from entries.now.items) (drop past joins.now) }
    ensures text { IfOk result (λ _. bytes.new.items
        ≡ bytes.old.items ++ blocks (in_order (drop from entries.now.items) (drop past joins.now))) }
    ensures top { IfOk result (λ x. x ≡ last_event cut (drop from entries.now.items)) }
{
    let mut top = cut;
    let mut i = from;
    let mut next = past;
    'entries: while i < entries.len() {
        let entry = &entries[i];
        next = put_joins(bytes, joins, next, entry.tick)?;
        put_event(bytes, entry)?;
        top = entry.tick;
        i += 1;
    }
    put_joins(bytes, joins, next, MAX_TICK + 1)?;
    Ok(top)
}

/// The greater of two ticks.
fn greater(one: u64, other: u64) -> u64
    ensures { result ≡ max one other }
{
    if one < other { other } else { one }
}

/// What a lane is filled with, of a generation, that holds what stands so with a cut at a tick and the entries from a
/// place on.
pub(crate) fn body(
    alloc: Global,
    generation: u64,
    footing: &Footing,
    cut: u64,
    entries: &VecDeque<Entry>,
    from: usize,
) -> Result<Vec<u8>, Memory>
    requires from { from ≤ length entries.now.items }
    requires state { IsState (held_by (stands_after footing.now (Cut cut)) (drop from entries.now.items)) }
    ensures { IfOk result (λ v. v.items
        ≡ body_of (held_by (stands_after footing.now (Cut cut)) (drop from entries.now.items)) generation) }
{
    let mut bytes = Vec::new(alloc);
    let state = footing.state();
    let joins = footing.joins().as_slice();
    let past = joins_past(joins, cut);
    let last = state.last - (entries.len() - from) as u64;
    put_base(&mut bytes, generation, last, cut, &joins[..past])?;
    let event = put_records(&mut bytes, entries, from, joins, past, cut)?;
    put_end(&mut bytes, greater(event, last_tick(joins)), state.settled)?;
    Ok(bytes)
}

/// Fills a lane anew with what stands so, with a cut at a tick and the entries from a place on, and answers how long
/// the text is then. Want of memory comes before the first call.
pub(crate) fn refill<D: Disk>(
    alloc: Global,
    disk: &mut D,
    lane: u16,
    aside: Aside,
    generation: u64,
    footing: &Footing,
    cut: u64,
    entries: &VecDeque<Entry>,
    from: usize,
) -> Result<u64, LogFault>
    requires from { from ≤ length entries.now.items }
    requires state { IsState (held_by (stands_after footing.now (Cut cut)) (drop from entries.now.items)) }
    requires aside { D.tells → StandsAs aside (content (D.lane_of disk.old lane)) }
    requires only { IsSoleOn D.tells (D.lane_of disk.old lane) }
    ensures refills { let s = held_by (stands_after footing.now (Cut cut)) (drop from entries.now.items) in D.tells →
        Refills aside (body_of s generation) (D.lane_of disk.old lane) (D.lane_of disk.new lane) result }
    ensures size { let s = held_by (stands_after footing.now (Cut cut)) (drop from entries.now.items) in
        IfOk result (λ n. n ≡ filled_size s) }
    ensures gave_up { GaveUp result }
    ensures uses { ChangesLane D.tells D.faultless D.lane_of D.faults D.stops lane disk.old disk.new result }
{
    let body = match body(alloc, generation, footing, cut, entries, from) {
        Ok(body) => body,
        Err(_) => return Err(LogFault::Memory),
    };
    let size = 6 + body.len() as u64;
    match disk.reserve(lane, size) {
        Ok(()) => {}
        Err(_) => return Err(LogFault::Memory),
    }
    match rewrite(disk, lane, aside, &body) {
        Ok(()) => Ok(size),
        Err(_) => Err(LogFault::Disk),
    }
}
