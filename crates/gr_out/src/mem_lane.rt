//! A lane in memory: what it reads, and what was written or cut since its last sync.

ghost use Rattle.std.specs.Prelude.{◌≡◌, ℕ, ◌+◌, ◌-◌, ◌*◌, ◌%◌, ◌≤◌, ◌<◌, min, max, ◌++◌, ◌∷◌};
ghost use Rattle.std.specs.Prelude.{if◌then◌else◌, Bool};
ghost use Rattle.std.specs.Prelude.{true, false, List, length, take, drop, replicate, IfOk, OnOk, OnErr, vec_len};
ghost use Rattle.std.specs.Vec.{vec_capacity};
ghost use Rattle.gr_out.specs.Lane.{Lane, Write, Cut, Sync, FailedWrite, FailedCut, blank, lane_of, content, over};
ghost use Rattle.gr_out.specs.Lane.{garbled, after_call, fate_of, one_later, with_room, with_stop, crashed};
ghost use Rattle.gr_out.specs.Kept.{with_calls, IsKept, HasRoom, synced_of, fresh_of, left_by};

use crate::disk::{Fate, Stop};
use crate::fault::Memory;
use crate::history::{History, Note};
use std::alloc::Global;
use std::marker::Model;

/// A lane in memory. It keeps its bytes once, and nothing of the calls before the last sync. Of what it read then it
/// keeps only the part that was written over or cut since.
#[derive(Drop)]
pub(crate) struct MemLane {
    bytes: Vec<u8>,
    /// What the last sync had in place of the bytes that `fresh` counts. All others are as it had them.
    synced: Vec<u8>,
    /// Of as many bytes from the place `first` on, which ones were written since the last sync. No other was.
    fresh: Vec<bool>,
    first: usize,
    extent: usize,
    room: usize,
    left: usize,
    reserved: bool,
    stop: Stop,
    history: History,
}

impl Model for MemLane {
    ghost Value = { Lane };

    ghost view = { λ l. record {
      start = l.history.past.start;
      calls = l.history.past.calls;
      room = l.room;
      left = l.left;
      reserved = l.reserved;
      stop = l.stop;
    } };

    ghost invariant = { λ l. IsKept l.history.past.start l.bytes.items l.synced.items l.fresh.items l.first
        l.history.past.calls
        × HasRoom l.extent l.room l.first l.bytes.items l.synced.items l.fresh.items
        (vec_capacity l.bytes) (vec_capacity l.synced) (vec_capacity l.fresh) };
}

/// Writes items over those from a place on, and past the end.
fn overwrite(bytes: &mut Vec<u8>, at: usize, new: &[u8])
    requires within { at ≤ length bytes.old.items }
    requires fits { at + length new.now ≤ vec_capacity bytes.old }
    ensures items { bytes.new.items ≡ over at new.now bytes.old.items }
    ensures capacity { vec_capacity bytes.old ≤ vec_capacity bytes.new }
{
    if at + new.len() <= bytes.len() {
        bytes[at..at + new.len()].copy_from_slice(new);
    } else {
        bytes.truncate(at);
        bytes.extend_from_slice(new).unwrap();
    }
}

/// Marks so many from a place on, and past the end.
fn mark(fresh: &mut Vec<bool>, at: usize, len: usize)
    requires within { at ≤ length fresh.old.items }
    requires fits { at + len ≤ vec_capacity fresh.old }
    ensures items { fresh.new.items ≡ over at (replicate len true) fresh.old.items }
    ensures capacity { vec_capacity fresh.old ≤ vec_capacity fresh.new }
{
    if at + len <= fresh.len() {
        fresh[at..at + len].fill(true);
    } else {
        fresh.truncate(at);
        fresh.resize(at + len, true).unwrap();
    }
}

/// Puts bytes before those that are there.
fn put_front(bytes: &mut Vec<u8>, front: &[u8])
    requires fits { length front.now + length bytes.old.items ≤ vec_capacity bytes.old }
    ensures items { bytes.new.items ≡ front.now ++ bytes.old.items }
    ensures capacity { vec_capacity bytes.old ≤ vec_capacity bytes.new }
{
    let was_empty = bytes.is_empty();
    bytes.extend_from_slice(front).unwrap();
    if !was_empty {
        bytes.rotate_right(front.len());
    }
}

/// Puts so many that are not marked before those that are there.
fn put_unmarked(fresh: &mut Vec<bool>, count: usize)
    requires fits { count + length fresh.old.items ≤ vec_capacity fresh.old }
    ensures items { fresh.new.items ≡ replicate count false ++ fresh.old.items }
    ensures capacity { vec_capacity fresh.old ≤ vec_capacity fresh.new }
{
    let len = fresh.len();
    fresh.resize(count + len, false).unwrap();
    if len > 0 {
        fresh.rotate_right(count);
    }
}

/// Adds ones that are not marked behind those that are there, up to a length.
fn unmark_to(fresh: &mut Vec<bool>, len: usize)
    requires longer { length fresh.old.items ≤ len }
    requires fits { len ≤ vec_capacity fresh.old }
    ensures items { fresh.new.items ≡ fresh.old.items ++ replicate (len - length fresh.old.items) false }
    ensures capacity { vec_capacity fresh.old ≤ vec_capacity fresh.new }
{
    fresh.resize(len, false).unwrap();
}

/// Keeps what was synced, and which bytes are fresh, of all bytes up to the end, and of those from a place on, where
/// that is before the first. Answers from where on it is kept now.
fn keep_from(
    place: usize,
    bytes: &[u8],
    synced: &mut Vec<u8>,
    fresh: &mut Vec<bool>,
    first: usize,
) -> usize
    requires within { first + length fresh.old.items ≤ length bytes.now }
    requires synced_fits { first + length synced.old.items + (length bytes.now - (first + length fresh.old.items))
        ≤ vec_capacity synced.old }
    requires fresh_fits { length bytes.now ≤ vec_capacity fresh.old }
    ensures first { result ≡ min first place }
    ensures marked { result + length fresh.new.items ≡ length bytes.now }
    ensures synced { take result bytes.now ++ synced.new.items
        ≡ synced_of bytes.now synced.old.items fresh.old.items first }
    ensures fresh { replicate result false ++ fresh.new.items ≡ fresh_of bytes.now fresh.old.items first }
    ensures synced_capacity { vec_capacity synced.old ≤ vec_capacity synced.new }
    ensures fresh_capacity { vec_capacity fresh.old ≤ vec_capacity fresh.new }
{
    synced
        .extend_from_slice(&bytes[first + fresh.len()..])
        .unwrap();
    unmark_to(fresh, bytes.len() - first);
    if first <= place {
        return first;
    }
    put_front(synced, &bytes[place..first]);
    put_unmarked(fresh, first - place);
    place
}

/// Keeps the bytes that a write of so many at a place puts others over.
fn keep_overwritten(synced: &mut Vec<u8>, bytes: &[u8], at: usize, len: usize)
    requires within { at ≤ length bytes.now }
    requires fits { length synced.old.items + length bytes.now ≤ vec_capacity synced.old }
    ensures items { synced.new.items ≡ synced.old.items ++ take len (drop at bytes.now) }
    ensures capacity { vec_capacity synced.old ≤ vec_capacity synced.new }
{
    if at < bytes.len() {
        let count = len.min(bytes.len() - at);
        synced.extend_from_slice(&bytes[at..at + count]).unwrap();
    }
}

/// Keeps what a write will change, and answers from where on it is kept. The first write after a sync keeps no more
/// than the bytes that it puts others over.
fn note_write(
    bytes: &[u8],
    at: usize,
    len: usize,
    synced: &mut Vec<u8>,
    fresh: &mut Vec<bool>,
    first: usize,
) -> usize
    requires within { first + length fresh.old.items ≤ length bytes.now }
    requires place { at ≤ length bytes.now }
    requires synced_fits { first + length synced.old.items + (length bytes.now - (first + length fresh.old.items))
        ≤ vec_capacity synced.old }
    requires bytes_fit { length bytes.now ≤ vec_capacity synced.old }
    requires fresh_fits { max (length bytes.now) (at + len) ≤ vec_capacity fresh.old }
    ensures within { result + length fresh.new.items ≤ max (length bytes.now) (at + len) }
    ensures synced { (new : List ℕ) → length new ≡ len
        → synced_of (over at new bytes.now) synced.new.items fresh.new.items result
        ≡ synced_of bytes.now synced.old.items fresh.old.items first }
    ensures fresh { (new : List ℕ) → length new ≡ len
        → fresh_of (over at new bytes.now) fresh.new.items result
        ≡ over at (replicate len true) (fresh_of bytes.now fresh.old.items first) }
    ensures synced_capacity { vec_capacity synced.old ≤ vec_capacity synced.new }
    ensures fresh_capacity { vec_capacity fresh.old ≤ vec_capacity fresh.new }
{
    if synced.is_empty() && fresh.is_empty() {
        keep_overwritten(synced, bytes, at, len);
        fresh.resize(len, true).unwrap();
        return at;
    }
    let first = keep_from(at, bytes, synced, fresh, first);
    mark(fresh, at - first, len);
    first
}

/// Puts other bytes in place of all from a place on.
fn put_back(bytes: &mut Vec<u8>, first: usize, tail: &[u8])
    requires fits { first + length tail.now ≤ vec_capacity bytes.old }
    ensures items { bytes.new.items ≡ take first bytes.old.items ++ tail.now }
    ensures capacity { vec_capacity bytes.old ≤ vec_capacity bytes.new }
{
    bytes.truncate(first);
    bytes.extend_from_slice(tail).unwrap();
}

/// A byte at a place, as its place times the pick modulo 256 where it is marked.
#[tactic(auto, using(crate::proofs::Lanes::same_product))]
fn garbled_byte(at: usize, pick: u8, is_fresh: bool, byte: u8) -> u8
    ensures { result ≡ (if is_fresh then (at * pick) % 256 else byte) }
{
    if is_fresh {
        (usize::from(pick) * (at % 256) % 256) as u8
    } else {
        byte
    }
}

/// Puts in place of each marked byte its place times the pick, modulo 256. The marks begin at the place `first`.
fn garble(bytes: &mut [u8], fresh: &[bool], first: usize, pick: u8)
    requires marked { first + length fresh.now ≡ length bytes.old }
    ensures { bytes.new ≡ garbled pick 0 (replicate first false ++ fresh.now) bytes.old }
{
    for i in first..bytes.len() {
        bytes[i] = garbled_byte(i, pick, fresh[i - first], bytes[i]);
    }
}

/// Leaves of the bytes what a crash picks. All up to the place `first` was synced and is not marked.
fn leave_picked(bytes: &mut Vec<u8>, synced: &[u8], fresh: &[bool], first: usize, stop: Stop)
    requires marked { first + length fresh.now ≡ length bytes.old.items }
    requires fits { first + length synced.now ≤ vec_capacity bytes.old }
    ensures items { bytes.new.items ≡ left_by stop (take first bytes.old.items ++ synced.now)
        (replicate first false ++ fresh.now) bytes.old.items }
    ensures long { length bytes.new.items ≤ max (length bytes.old.items) (first + length synced.now) }
    ensures capacity { vec_capacity bytes.old ≤ vec_capacity bytes.new }
{
    if let Stop::Stopped { pick } = stop {
        if pick == 0 {
            put_back(bytes, first, synced);
        } else if pick > 1 {
            garble(bytes, fresh, first, pick);
        }
    }
}

/// What becomes of the next call, given whether it fails by itself.
fn fate_of(fails: bool, stop: Stop) -> Fate
    ensures { result ≡ fate_of fails stop }
{
    let due = match stop {
        Stop::Unset => false,
        Stop::After { calls, .. } => calls <= 1,
        Stop::Stopped { .. } => return Fate::Lost,
    };
    if due {
        Fate::Broken
    } else if fails {
        Fate::Failed
    } else {
        Fate::Done
    }
}

/// The stop after one more call.
fn one_later(stop: Stop) -> Stop
    ensures { result ≡ one_later stop }
{
    match stop {
        Stop::Unset => Stop::Unset,
        Stop::After { calls, pick } => {
            if calls <= 1 {
                Stop::Stopped { pick }
            } else {
                Stop::After {
                    calls: calls - 1,
                    pick,
                }
            }
        }
        Stop::Stopped { pick } => Stop::Stopped { pick },
    }
}

/// Makes room in a vector up to a length.
fn make_room<T>(items: &mut Vec<T>, len: usize) -> Result<(), Memory>
    ensures items { items.new.items ≡ items.old.items }
    ensures len { vec_len items.new ≡ vec_len items.old }
    ensures room { OnOk result (len ≤ vec_capacity items.new) }
    ensures capacity { vec_capacity items.old ≤ vec_capacity items.new }
{
    items.reserve(len.saturating_sub(items.len()))
}

impl MemLane {
    /// A lane that was never touched.
    pub(crate) fn new(alloc: Global) -> MemLane
        ensures { result ≡ blank }
    {
        MemLane {
            bytes: Vec::new(alloc),
            synced: Vec::new(alloc),
            fresh: Vec::new(alloc),
            first: 0,
            extent: 0,
            room: 0,
            left: 0,
            reserved: false,
            stop: Stop::Unset,
            history: History::new(),
        }
    }

    /// A lane with these bytes, synced.
    pub(crate) fn of(alloc: Global, bytes: &[u8]) -> Result<MemLane, Memory>
        ensures { IfOk result (λ l. l ≡ lane_of bytes.now) }
    {
        Ok(MemLane {
            bytes: Vec::from_slice(alloc, bytes)?,
            synced: Vec::with_capacity(alloc, bytes.len())?,
            fresh: Vec::with_capacity(alloc, bytes.len())?,
            first: bytes.len(),
            extent: bytes.len(),
            room: 0,
            left: 0,
            reserved: true,
            stop: Stop::Unset,
            history: History::new().then(&Note::Holds(bytes)),
        })
    }

    /// What it reads.
    pub(crate) fn bytes(&self) -> &[u8]
        ensures { result.now ≡ content self.now }
    {
        &self.bytes
    }

    /// The stop that was ordered.
    pub(crate) fn stop(&self) -> Stop
        ensures { result ≡ self.now.stop }
    {
        self.stop
    }

    /// Orders a stop, in place of an earlier one.
    pub(crate) fn set_stop(&mut self, stop: Stop)
        ensures { self.new ≡ with_stop stop self.old }
    {
        self.stop = stop;
    }

    /// Makes room up to the place `size`, and for the next 16 writes, cuts and syncs.
    pub(crate) fn reserve(&mut self, size: usize) -> Result<(), Memory>
        ensures ok { OnOk result (self.new ≡ with_room size self.old) }
        ensures err { OnErr result (self.new ≡ self.old) }
    {
        if size > self.extent {
            make_room(&mut self.bytes, size)?;
            make_room(&mut self.synced, size)?;
            make_room(&mut self.fresh, size)?;
            let capacity = self.bytes.capacity().min(self.synced.capacity());
            self.extent = capacity.min(self.fresh.capacity());
        }
        self.room = self.room.max(size);
        self.left = 16;
        self.reserved = true;
        Ok(())
    }

    /// Writes bytes, unless the call is to fail or the stop breaks it, and answers what became of the call.
    pub(crate) fn write_at(&mut self, at: usize, bytes: &[u8], fails: bool) -> Fate
        requires within { at ≤ length (content self.old) }
        requires room { at + length bytes.now ≤ self.old.room }
        requires few { 0 < self.old.left }
        ensures lane { self.new ≡ after_call (Write at bytes.now) fails self.old }
        ensures fate { result ≡ fate_of fails self.old.stop }
    {
        let stop = self.stop;
        let fate = fate_of(fails, stop);
        match fate {
            Fate::Done => self.keep_write(at, bytes),
            Fate::Failed => self.keep_failed_write(at, bytes.len()),
            Fate::Broken => self.keep_write(at, bytes),
            Fate::Lost => self.keep_nothing(),
        }
        self.stop = one_later(stop);
        fate
    }

    /// Cuts it, unless the call is to fail or the stop breaks it, and answers what became of the call.
    pub(crate) fn cut(&mut self, len: usize, fails: bool) -> Fate
        requires few { 0 < self.old.left }
        ensures lane { self.new ≡ after_call (Cut len) fails self.old }
        ensures fate { result ≡ fate_of fails self.old.stop }
    {
        let stop = self.stop;
        let fate = fate_of(fails, stop);
        match fate {
            Fate::Done => self.keep_cut(len),
            Fate::Failed => self.keep_failed_cut(len),
            Fate::Broken => self.keep_cut(len),
            Fate::Lost => self.keep_nothing(),
        }
        self.stop = one_later(stop);
        fate
    }

    /// Syncs it, unless the call is to fail or the stop breaks it, and answers what became of the call.
    pub(crate) fn sync(&mut self, fails: bool) -> Fate
        requires few { 0 < self.old.left }
        ensures lane { self.new ≡ after_call Sync fails self.old }
        ensures fate { result ≡ fate_of fails self.old.stop }
    {
        let stop = self.stop;
        let fate = fate_of(fails, stop);
        match fate {
            Fate::Done => self.keep_sync(),
            Fate::Failed => self.keep_nothing(),
            Fate::Broken => self.keep_nothing(),
            Fate::Lost => self.keep_nothing(),
        }
        self.stop = one_later(stop);
        fate
    }

    /// Leaves the picked image, synced, and ends the stop.
    pub(crate) fn crash(&mut self)
        ensures { self.new ≡ crashed self.old }
    {
        let first = keep_from(
            self.first,
            &self.bytes,
            &mut self.synced,
            &mut self.fresh,
            self.first,
        );
        leave_picked(&mut self.bytes, &self.synced, &self.fresh, first, self.stop);
        self.synced.clear();
        self.fresh.clear();
        self.first = self.bytes.len();
        self.history = self.history.then(&Note::Holds(&self.bytes));
        self.stop = Stop::Unset;
    }

    /// A write that was made.
    fn keep_write(&mut self, at: usize, bytes: &[u8])
        requires within { at ≤ length (content self.old) }
        requires room { at + length bytes.now ≤ self.old.room }
        requires few { 0 < self.old.left }
        ensures { self.new ≡ with_calls (Write at bytes.now ∷ self.old.calls) self.old }
    {
        self.first = note_write(
            &self.bytes,
            at,
            bytes.len(),
            &mut self.synced,
            &mut self.fresh,
            self.first,
        );
        overwrite(&mut self.bytes, at, bytes);
        self.history = self.history.then(&Note::Wrote { at, bytes });
        self.left -= 1;
    }

    /// A cut that was made.
    fn keep_cut(&mut self, len: usize)
        requires few { 0 < self.old.left }
        ensures { self.new ≡ with_calls (Cut len ∷ self.old.calls) self.old }
    {
        let first = keep_from(
            len,
            &self.bytes,
            &mut self.synced,
            &mut self.fresh,
            self.first,
        );
        self.bytes.truncate(len);
        self.fresh.truncate(len - first);
        self.first = first;
        self.history = self.history.then(&Note::Cut { len });
        self.left -= 1;
    }

    /// A sync that was made. It copies no byte.
    fn keep_sync(&mut self)
        requires few { 0 < self.old.left }
        ensures { self.new ≡ with_calls (Sync ∷ self.old.calls) self.old }
    {
        self.synced.clear();
        self.fresh.clear();
        self.history = self.history.then(&Note::Synced);
        self.left -= 1;
    }

    /// A write that failed.
    fn keep_failed_write(&mut self, at: usize, len: usize)
        requires few { 0 < self.old.left }
        ensures { self.new ≡ with_calls (FailedWrite at len ∷ self.old.calls) self.old }
    {
        self.history = self.history.then(&Note::FailedWrite { at, len });
        self.left -= 1;
    }

    /// A cut that failed.
    fn keep_failed_cut(&mut self, len: usize)
        requires few { 0 < self.old.left }
        ensures { self.new ≡ with_calls (FailedCut len ∷ self.old.calls) self.old }
    {
        self.history = self.history.then(&Note::FailedCut { len });
        self.left -= 1;
    }

    /// A call that had no effect.
    fn keep_nothing(&mut self)
        requires few { 0 < self.old.left }
        ensures { self.new ≡ with_calls self.old.calls self.old }
    {
        self.left -= 1;
    }
}
