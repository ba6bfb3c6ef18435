//! A disk in memory, some of whose calls fail, that can be stopped at a chosen call.

ghost use Rattle.std.specs.Prelude.{◌≡◌, ◌≢◌, ℕ, ◌+◌, ◌<◌, ◌≤◌, [], IsTrue, Bool, true, is_err, List, length};
ghost use Rattle.std.specs.Prelude.{take, drop, IfOk, OnOk, OnErr};
ghost use Rattle.gr_out.specs.Lane.{Lane, lane_at, lane_of, content, has_stopped, after_call, Write, Cut, Sync};
ghost use Rattle.gr_out.specs.Lane.{with_room, with_stop, stop_at, crashed, MayLeave};
ghost use Rattle.gr_out.specs.Kept.{DiskView, is_failure, is_broken, fate_of_read, faults_after, stops_after};
ghost use Rattle.gr_out.specs.Kept.{look_fate, FailsAsListed, LooksAt, ChangesLane, IsUncounted};
ghost use Rattle.gr_out.specs.Streams.{counted, is_listed};
ghost use Rattle.gr_out.specs.Stops.{StopCounts, StaysFaultless};

use crate::disk::{Disk, Fate, SimDisk, Stop};
use crate::fault::{Failed, Memory};
use crate::mem_lane::MemLane;
use std::alloc::Global;
use std::marker::Model;

/// A disk in memory. The calls whose numbers are in its list, counted from 1 over `size`, `read`, `write_at`, `cut`
/// and `sync` of all lanes, fail, and those that an ordered stop breaks; no other does. A failing call of the list
/// changes nothing that a read gives.
#[derive(Drop)]
pub struct MemDisk {
    alloc: Global,
    lanes: Vec<MemLane>,
    fails: Vec<u64>,
    calls: u64,
    faults: u64,
    stops: u64,
}

impl Model for MemDisk {
    ghost Value = { DiskView };

    ghost view = { λ d. record {
      lanes = d.lanes.items;
      fails = d.fails.items;
      calls = d.calls;
      faults = d.faults;
      stops = d.stops;
    } };
}

impl MemDisk {
    /// A disk of which no call was made, with nothing in its lanes. The calls with the numbers in `fails` are to fail.
    pub fn new(alloc: Global, fails: &[u64]) -> Result<MemDisk, Memory>
        ensures lanes { IfOk result (λ d. d.lanes ≡ []) }
        ensures fails { IfOk result (λ d. d.fails ≡ fails.now) }
        ensures calls { IfOk result (λ d. d.calls ≡ 0) }
        ensures faults { IfOk result (λ d. d.faults ≡ 0) }
        ensures stops { IfOk result (λ d. d.stops ≡ 0) }
    {
        Ok(MemDisk {
            alloc,
            lanes: Vec::new(alloc),
            fails: Vec::from_slice(alloc, fails)?,
            calls: 0,
            faults: 0,
            stops: 0,
        })
    }

    /// Gives a lane these bytes, synced, with no stop. After `Memory` nothing has changed.
    pub fn put(&mut self, lane: u16, bytes: &[u8]) -> Result<(), Memory>
        ensures ok { OnOk result (lane_at self.new.lanes lane ≡ lane_of bytes.now) }
        ensures err { OnErr result (lane_at self.new.lanes lane ≡ lane_at self.old.lanes lane) }
        ensures others { (n : ℕ) → n ≢ lane → lane_at self.new.lanes n ≡ lane_at self.old.lanes n }
        ensures fails { self.new.fails ≡ self.old.fails }
        ensures calls { self.new.calls ≡ self.old.calls }
        ensures faults { self.new.faults ≡ self.old.faults }
        ensures stops { self.new.stops ≡ self.old.stops }
    {
        let place = usize::from(lane);
        let filled = MemLane::of(self.alloc, bytes)?;
        extend(self.alloc, &mut self.lanes, place + 1)?;
        self.lanes[place] = filled;
        Ok(())
    }

    /// Counts a size or a read of a lane, and answers whether it fails.
    fn look(&mut self, lane: u16) -> Result<(), Failed>
        ensures same { self.new.lanes ≡ self.old.lanes }
        ensures listed { FailsAsListed (look_fate self.old lane) self.old self.new result }
        ensures cause { StopCounts (has_stopped (lane_at self.old.lanes lane).stop)
            self.old.faults self.new.faults self.old.stops self.new.stops result }
    {
        let fails = is_next_listed(&mut self.calls, &self.fails);
        let fate = fate_of_read(fails, stop_of(&self.lanes, lane));
        count(&mut self.faults, &mut self.stops, fate)
    }

    /// What a lane reads; nothing where it was never written.
    pub fn lane(&self, lane: u16) -> &[u8]
        ensures { result.now ≡ content (lane_at self.now.lanes lane) }
    {
        bytes_of(&self.lanes, lane)
    }
}

/// Adds blank lanes until there are so many.
fn extend(alloc: Global, lanes: &mut Vec<MemLane>, count: usize) -> Result<(), Memory>
    ensures long { OnOk result (count ≤ length lanes.new.items) }
    ensures same { (n : ℕ) → lane_at lanes.new.items n ≡ lane_at lanes.old.items n }
{
    'blanks: while lanes.len() < count {
        match lanes.push(MemLane::new(alloc)) {
            Ok(()) => {}
            Err(refused) => return Err(refused.into()),
        }
    }
    Ok(())
}

/// What a lane reads.
fn bytes_of(lanes: &[MemLane], lane: u16) -> &[u8]
    ensures { result.now ≡ content (lane_at lanes.now lane) }
{
    let place = usize::from(lane);
    if place < lanes.len() {
        lanes[place].bytes()
    } else {
        &[]
    }
}

/// The stop that was ordered for a lane.
fn stop_of(lanes: &[MemLane], lane: u16) -> Stop
    ensures { result ≡ (lane_at lanes.now lane).stop }
{
    let place = usize::from(lane);
    if place < lanes.len() {
        lanes[place].stop()
    } else {
        Stop::Unset
    }
}

/// Whether the next call is in the list of those that fail.
fn is_next_listed(calls: &mut u64, fails: &[u64]) -> bool
    ensures listed { result ≡ is_listed fails.now calls.old }
    ensures calls { calls.new ≡ counted calls.old }
{
    *calls = calls.saturating_add(1);
    fails.contains(calls)
}

/// What becomes of a size or a read, given whether it fails by itself.
fn fate_of_read(fails: bool, stop: Stop) -> Fate
    ensures { result ≡ fate_of_read fails stop }
{
    match stop {
        Stop::Stopped { .. } => Fate::Lost,
        Stop::Unset | Stop::After { .. } => { if fails { Fate::Failed } else { Fate::Done } }
    }
}

/// Counts what became of a call.
fn count(faults: &mut u64, stops: &mut u64, fate: Fate) -> Result<(), Failed>
    ensures err { is_err result ≡ is_failure fate }
    ensures faults { faults.new ≡ faults_after fate faults.old }
    ensures stops { stops.new ≡ stops_after fate stops.old }
    ensures cause { StopCounts (is_broken fate) faults.old faults.new stops.old stops.new result }
{
    match fate {
        Fate::Done => Ok(()),
        Fate::Failed => {
            *faults = faults.saturating_add(1);
            Err(Failed)
        }
        Fate::Broken => {
            *stops = stops.saturating_add(1);
            Err(Failed)
        }
        Fate::Lost => {
            *stops = stops.saturating_add(1);
            Err(Failed)
        }
    }
}

impl Disk for MemDisk {
    ghost tells = { Unit {0} };

    ghost faultless = { λ d. d.fails ≡ [] };

    ghost lane_of = { λ d n. lane_at d.lanes n };

    ghost faults = { λ d. d.faults };

    ghost stops = { λ d. d.stops };

    fn reserve(&mut self, lane: u16, size: u64) -> Result<(), Memory>
        ensures room { OnOk result (lane_at self.new.lanes lane ≡ with_room size (lane_at self.old.lanes lane)) }
        ensures err { OnErr result (lane_at self.new.lanes lane ≡ lane_at self.old.lanes lane) }
        ensures others { (n : ℕ) → n ≢ lane → lane_at self.new.lanes n ≡ lane_at self.old.lanes n }
        ensures faults { self.new.faults ≡ self.old.faults }
        ensures stops { self.new.stops ≡ self.old.stops }
        ensures faultless { StaysFaultless (self.old.fails ≡ []) (self.new.fails ≡ []) self.old.faults self.new.faults }
        ensures uncounted { IsUncounted self.old self.new }
    {
        let place = usize::from(lane);
        extend(self.alloc, &mut self.lanes, place + 1)?;
        self.lanes[place].reserve(size as usize)
    }

    fn size(&mut self, lane: u16) -> Result<u64, Failed>
        ensures size { IfOk result (λ n. n ≡ length (content (lane_at self.old.lanes lane))) }
        ensures looks { LooksAt lane self.old self.new result }
    {
        self.look(lane)?;
        Ok(bytes_of(&self.lanes, lane).len() as u64)
    }

    fn read(&mut self, lane: u16, at: u64, into: &mut [u8]) -> Result<(), Failed>
        requires within { at + length into.old ≤ length (content (lane_at self.old.lanes lane)) }
        ensures bytes { OnOk result
            (into.new ≡ take (length into.old) (drop at (content (lane_at self.old.lanes lane)))) }
        ensures len { length into.new ≡ length into.old }
        ensures looks { LooksAt lane self.old self.new result }
    {
        self.look(lane)?;
        let from = at as usize;
        into.copy_from_slice(&bytes_of(&self.lanes, lane)[from..from + into.len()]);
        Ok(())
    }

    fn write_at(&mut self, lane: u16, at: u64, bytes: &[u8]) -> Result<(), Failed>
        requires within { at ≤ length (content (lane_at self.old.lanes lane)) }
        requires room { at + length bytes.now ≤ (lane_at self.old.lanes lane).room }
        requires few { 0 < (lane_at self.old.lanes lane).left }
        ensures after { lane_at self.new.lanes lane
            ≡ after_call (Write at bytes.now) (is_err result) (lane_at self.old.lanes lane) }
        ensures changes { ChangesLane lane self.old self.new result }
    {
        let fails = is_next_listed(&mut self.calls, &self.fails);
        let fate = self.lanes[usize::from(lane)].write_at(at as usize, bytes, fails);
        count(&mut self.faults, &mut self.stops, fate)
    }

    fn cut(&mut self, lane: u16, len: u64) -> Result<(), Failed>
        requires few { 0 < (lane_at self.old.lanes lane).left }
        ensures after { lane_at self.new.lanes lane
            ≡ after_call (Cut len) (is_err result) (lane_at self.old.lanes lane) }
        ensures changes { ChangesLane lane self.old self.new result }
    {
        let fails = is_next_listed(&mut self.calls, &self.fails);
        let fate = self.lanes[usize::from(lane)].cut(len as usize, fails);
        count(&mut self.faults, &mut self.stops, fate)
    }

    fn sync(&mut self, lane: u16) -> Result<(), Failed>
        requires few { 0 < (lane_at self.old.lanes lane).left }
        ensures after { lane_at self.new.lanes lane
            ≡ after_call Sync (is_err result) (lane_at self.old.lanes lane) }
        ensures changes { ChangesLane lane self.old self.new result }
    {
        let fails = is_next_listed(&mut self.calls, &self.fails);
        let fate = self.lanes[usize::from(lane)].sync(fails);
        count(&mut self.faults, &mut self.stops, fate)
    }
}

impl SimDisk for MemDisk {
    ghost told = { tt };

    fn stop_after(&mut self, lane: u16, calls: u8, pick: u8)
        requires reserved { (lane_at self.old.lanes lane).reserved ≡ true }
        ensures stop { lane_at self.new.lanes lane ≡ with_stop (stop_at calls pick) (lane_at self.old.lanes lane) }
        ensures others { (n : ℕ) → n ≢ lane → lane_at self.new.lanes n ≡ lane_at self.old.lanes n }
        ensures faults { self.new.faults ≡ self.old.faults }
        ensures stops { self.new.stops ≡ self.old.stops }
        ensures faultless { StaysFaultless (self.old.fails ≡ []) (self.new.fails ≡ []) self.old.faults self.new.faults }
        ensures uncounted { IsUncounted self.old self.new }
    {
        let stop = if calls == 0 {
            Stop::Unset
        } else {
            Stop::After { calls, pick }
        };
        self.lanes[usize::from(lane)].set_stop(stop);
    }

    fn stopped(&self, lane: u16) -> bool {
        match stop_of(&self.lanes, lane) {
            Stop::Stopped { .. } => true,
            Stop::Unset | Stop::After { .. } => false,
        }
    }

    fn crash(&mut self, lane: u16)
        ensures crashed { lane_at self.new.lanes lane ≡ crashed (lane_at self.old.lanes lane) }
        ensures image { MayLeave (lane_at self.old.lanes lane) (content (lane_at self.new.lanes lane)) }
        ensures others { (n : ℕ) → n ≢ lane → lane_at self.new.lanes n ≡ lane_at self.old.lanes n }
        ensures faults { self.new.faults ≡ self.old.faults }
        ensures stops { self.new.stops ≡ self.old.stops }
        ensures faultless { StaysFaultless (self.old.fails ≡ []) (self.new.fails ≡ []) self.old.faults self.new.faults }
        ensures uncounted { IsUncounted self.old self.new }
    {
        let place = usize::from(lane);
        if place < self.lanes.len() {
            self.lanes[place].crash();
        }
    }
}
