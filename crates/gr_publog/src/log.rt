//! A log in its two lanes.

ghost use Rattle.std.specs.Prelude.{◌≡◌, ◌≢◌, ◌↔◌, ◌+◌, ◌^◌, ◌<◌, ◌≤◌, not, true, Some, IfOk, IsTrue};
ghost use Rattle.std.specs.Prelude.{false, Ok, Err, OnOk, MatchResult, length};
ghost use Rattle.gr_event.specs.declared.limits.TheConstants.{MAX_JOINS};
ghost use Rattle.gr_out.specs.Lane.{content, has_stopped};
ghost use Rattle.gr_publog.specs.declared.record.TheConstants.{MAX_TICK};
ghost use Rattle.gr_publog.specs.State.{held_by, may_follow, IsState};
ghost use Rattle.gr_publog.specs.Text.{AreBytes, IsStanding, standing_of, placed_in};
ghost use Rattle.gr_publog.specs.Lanes.{present_of};
ghost use Rattle.gr_publog.specs.Gives.{Tells, IsNoReopen};
ghost use Rattle.gr_publog.specs.Crash.{is_disk};
ghost use Rattle.gr_publog.specs.Views.{LogView, appended, reclaimed, failed, lanes_at, number_of};
ghost use Rattle.gr_publog.specs.Views.{IsAside, IsReady};
ghost use Rattle.gr_publog.specs.Opens.{AreHeads, Opens, aside_of, either_stopped, present_as};
ghost use Rattle.gr_publog.specs.Calls.{Appends, Reclaims, ReopensBroken, Leaves, LeavesDisk};
ghost use Rattle.gr_publog.specs.Uses.{AreSoleOn, ReadsLane, UsesLanes, SettlesOn, IsOpened, IsHeldFor};

use crate::append::{append_at, is_sound};
use crate::entries::{Entries, drop_upto, note_record};
use crate::fill::{first_past, refill};
use crate::footing::Footing;
use crate::head::{Present, Standing, chosen};
use crate::law::{lower_is, reclaims, shut_is, two_are};
use crate::numbers::are_bytes;
use crate::opening::{Heads, aside_by, bytes_in, heads_of, sync_lanes};
use crate::read::{Held, text_in};
use crate::record::{LogFault, Record};
use crate::steps::Aside;
use gr_event::Joins;
use gr_out::Disk;
use std::alloc::Global;
use std::collections::VecDeque;
use std::marker::Model;

/// A log, seen as what it holds, whether the disk has failed it, and of its present lane which of the two it is, its
/// generation and the size of its text; and how the other lane stands. So its memory and the cost of a call do not grow
/// with what was cut.
#[derive(Drop)]
pub struct Log {
    alloc: Global,
    lane: u16,
    second: bool,
    generation: u64,
    size: u64,
    aside: Aside,
    footing: Footing,
    events: Entries,
    broken: bool,
}

impl Model for Log {
    ghost Value = { LogView };

    ghost view = { λ l. record {
      lane = l.lane;
      state = held_by l.footing l.events;
      broken = l.broken;
      second = l.second;
      generation = l.generation;
      size = l.size;
      aside = l.aside;
    } };

    ghost invariant = { λ l. IsState (held_by l.footing l.events) × (l.lane + 1 < 2 ^ 16)
        × (1 ≤ l.generation) × (l.generation ≤ MAX_TICK) × (1 ≤ l.size) };
}

/// The number of the first of two lanes, or of the second one.
fn number_of(lane: u16, second: bool) -> u16
    requires { lane + 1 < 2 ^ 16 }
    ensures { result ≡ number_of lane second }
{
    if second { lane + 1 } else { lane }
}

/// Whether the disk failed.
fn is_disk(fault: LogFault) -> bool
    ensures { result ≡ is_disk fault }
{
    match fault {
        LogFault::Disk => true,
        LogFault::Memory => false,
        LogFault::Damaged { .. } => false,
        LogFault::Reopen => false,
    }
}

/// A log whose lanes are synced, of which neither is open: the first lane is filled with the empty state.
fn begin<D: Disk>(
    alloc: Global,
    disk: &mut D,
    lane: u16,
    late: &[u16],
    heads: Heads,
) -> Result<Log, LogFault>
    requires two { lane + 1 < 2 ^ 16 }
    requires late { length late.now ≤ MAX_JOINS }
    requires heads { let ls = lanes_at (D.lane_of disk.old) lane in
        D.tells → AreHeads heads (content ls.first) (content ls.second) }
    requires first { heads.first ≡ Standing.Shut }
    requires second { heads.second ≡ Standing.Shut }
    requires only { AreSoleOn D.tells (lanes_at (D.lane_of disk.old) lane) }
    ensures settles { SettlesOn D.tells D.lane_of late.now lane disk.old disk.new result }
    ensures opened { IfOk result (IsOpened lane late.now) }
    ensures never_reopen { IsNoReopen result }
    ensures uses { UsesLanes D.tells D.faultless D.lane_of D.faults D.stops lane disk.old disk.new result }
{
    // Proof only: what images of the two lanes hold.
    shut_is();
    two_are();
    reclaims();
    let footing = match Footing::first(alloc, late) {
        Ok(footing) => footing,
        Err(_) => return Err(LogFault::Memory),
    };
    let entries = VecDeque::new(alloc);
    let aside = aside_by(heads.first_size, heads.first);
    let beside = aside_by(heads.second_size, heads.second);
    match refill(alloc, disk, lane, aside, 1, &footing, 0, &entries, 0) {
        Ok(size) => Ok(Log {
            alloc,
            lane,
            second: false,
            generation: 1,
            size,
            aside: beside,
            footing,
            events: Entries { entries },
            broken: false,
        }),
        Err(fault) => Err(fault),
    }
}

/// What stands in a present lane.
fn held_in<D: Disk>(
    alloc: Global,
    disk: &mut D,
    lane: u16,
    late: &[u16],
    standing: Standing,
    size: u64,
) -> Result<Held, LogFault>
    requires late { length late.now ≤ MAX_JOINS }
    requires size { D.tells → size ≡ length (content (D.lane_of disk.old lane)) }
    requires long { 6 < size }
    ensures gives { let read = placed_in late.now standing (content (D.lane_of disk.old lane)) in
        D.tells → MatchResult result (λ x. read ≡ Ok (held_by x.footing x.events, x.gate)) (λ e. Tells e read) }
    ensures held { IfOk result (IsHeldFor late.now) }
    ensures inside { IfOk result (λ x. x.gate + 1 < 2 ^ 64) }
    ensures bytes { D.tells → OnOk result (AreBytes (content (D.lane_of disk.old lane))) }
    ensures never_reopen { IsNoReopen result }
    ensures uses { ReadsLane D.tells D.faultless D.lane_of D.faults D.stops lane disk.old disk.new result }
{
    let bytes = match bytes_in(alloc, disk, lane, size) {
        Ok(bytes) => bytes,
        Err(fault) => return Err(fault),
    };
    // Proof only: each of them is a byte.
    are_bytes(&bytes);
    text_in(alloc, late, standing, &bytes)
}

/// A log of the first version in the first lane: what it holds is written into the second one.
fn migrate<D: Disk>(
    alloc: Global,
    disk: &mut D,
    lane: u16,
    late: &[u16],
    heads: Heads,
) -> Result<Log, LogFault>
    requires two { lane + 1 < 2 ^ 16 }
    requires late { length late.now ≤ MAX_JOINS }
    requires heads { let ls = lanes_at (D.lane_of disk.old) lane in
        D.tells → AreHeads heads (content ls.first) (content ls.second) }
    requires first { heads.first ≡ Standing.Old }
    requires long { 6 < heads.first_size }
    requires second { heads.second ≡ Standing.Shut }
    requires only { AreSoleOn D.tells (lanes_at (D.lane_of disk.old) lane) }
    ensures settles { SettlesOn D.tells D.lane_of late.now lane disk.old disk.new result }
    ensures opened { IfOk result (IsOpened lane late.now) }
    ensures never_reopen { IsNoReopen result }
    ensures uses { UsesLanes D.tells D.faultless D.lane_of D.faults D.stops lane disk.old disk.new result }
{
    // Proof only: what images of the two lanes hold.
    shut_is();
    two_are();
    reclaims();
    let held = match held_in(alloc, disk, lane, late, Standing::Old, heads.first_size) {
        Ok(held) => held,
        Err(fault) => return Err(fault),
    };
    let aside = aside_by(heads.second_size, heads.second);
    match refill(
        alloc,
        disk,
        lane + 1,
        aside,
        1,
        &held.footing,
        held.footing.state().cut,
        held.events.parts(),
        0,
    ) {
        Ok(size) => Ok(Log {
            alloc,
            lane,
            second: true,
            generation: 1,
            size,
            aside: Aside::Opened,
            footing: held.footing,
            events: held.events,
            broken: false,
        }),
        Err(fault) => Err(fault),
    }
}

/// A log whose present lane is of the second version: nothing is written.
fn found<D: Disk>(
    alloc: Global,
    disk: &mut D,
    lane: u16,
    late: &[u16],
    second: bool,
    generation: u64,
    size: u64,
    aside: Aside,
) -> Result<Log, LogFault>
    requires two { lane + 1 < 2 ^ 16 }
    requires late { length late.now ≤ MAX_JOINS }
    requires present { let ls = lanes_at (D.lane_of disk.old) lane in D.tells →
        present_of (content ls.first) (content ls.second) ≡ Ok (present_as second (Standing.New generation)) }
    requires standing { D.tells → standing_of (not second) (content (D.lane_of disk.old (number_of lane second)))
        ≡ Ok (Standing.New generation) }
    requires size { D.tells → size ≡ length (content (D.lane_of disk.old (number_of lane second))) }
    requires sound { IsStanding size (Standing.New generation) }
    requires aside { D.tells → aside ≡ aside_of (content (D.lane_of disk.old (number_of lane (not second)))) }
    requires beside { D.tells →
        IsAside aside second generation (content (D.lane_of disk.old (number_of lane (not second)))) }
    requires only { AreSoleOn D.tells (lanes_at (D.lane_of disk.old) lane) }
    ensures settles { SettlesOn D.tells D.lane_of late.now lane disk.old disk.new result }
    ensures opened { IfOk result (IsOpened lane late.now) }
    ensures never_reopen { IsNoReopen result }
    ensures uses { UsesLanes D.tells D.faultless D.lane_of D.faults D.stops lane disk.old disk.new result }
{
    let standing = Standing::New(generation);
    let held = match held_in(alloc, disk, number_of(lane, second), late, standing, size) {
        Ok(held) => held,
        Err(fault) => return Err(fault),
    };
    Ok(Log {
        alloc,
        lane,
        second,
        generation,
        size: held.gate as u64 + 1,
        aside,
        footing: held.footing,
        events: held.events,
        broken: false,
    })
}

/// Opens the log of two lanes that are synced.
fn open_synced<D: Disk>(
    alloc: Global,
    disk: &mut D,
    lane: u16,
    late: &[u16],
) -> Result<Log, LogFault>
    requires two { lane + 1 < 2 ^ 16 }
    requires late { length late.now ≤ MAX_JOINS }
    requires only { AreSoleOn D.tells (lanes_at (D.lane_of disk.old) lane) }
    ensures settles { SettlesOn D.tells D.lane_of late.now lane disk.old disk.new result }
    ensures opened { IfOk result (IsOpened lane late.now) }
    ensures never_reopen { IsNoReopen result }
    ensures uses { UsesLanes D.tells D.faultless D.lane_of D.faults D.stops lane disk.old disk.new result }
{
    // Proof only: which lane is present.
    two_are();
    let heads = match heads_of(alloc, disk, lane) {
        Ok(heads) => heads,
        Err(fault) => return Err(fault),
    };
    let present = match chosen(heads.first, heads.second) {
        Ok(present) => present,
        Err(fault) => return Err(fault),
    };
    match present {
        Present::Neither => begin(alloc, disk, lane, late, heads),
        Present::First(standing) => match standing {
            Standing::New(generation) => {
                let aside = aside_by(heads.second_size, heads.second);
                found(
                    alloc,
                    disk,
                    lane,
                    late,
                    false,
                    generation,
                    heads.first_size,
                    aside,
                )
            }
            Standing::Old => migrate(alloc, disk, lane, late, heads),
            // Never: a shut lane is not present.
            Standing::Shut => Err(LogFault::Damaged { at: 5 }),
        },
        Present::Second(other) => match other {
            Standing::New(generation) => {
                let beside = aside_by(heads.first_size, heads.first);
                found(
                    alloc,
                    disk,
                    lane,
                    late,
                    true,
                    generation,
                    heads.second_size,
                    beside,
                )
            }
            // Never: the first version stands in the first lane alone, and a shut lane is not present.
            Standing::Old => Err(LogFault::Damaged { at: 4 }),
            Standing::Shut => Err(LogFault::Damaged { at: 5 }),
        },
    }
}

impl Log {
    /// Opens the log of two lanes, the first of which has this number, in which these subscribers may join: room, a
    /// sync of both, and what they hold. Where the present lane is of the first version, what it holds is written into
    /// the second lane, and where neither is open, the empty state into the first one. `Damaged` comes exactly where
    /// the lanes hold no log of theirs, and `Disk` only where the disk failed in this call.
    pub fn open<D: Disk>(
        alloc: Global,
        disk: &mut D,
        lane: u16,
        late: &[u16],
    ) -> Result<Log, LogFault>
        requires two { lane + 1 < 2 ^ 16 }
        requires late { length late.now ≤ MAX_JOINS }
        ensures opens { D.tells →
            Opens late.now lane (lanes_at (D.lane_of disk.old) lane) (lanes_at (D.lane_of disk.new) lane) result }
        ensures late { IfOk result (λ l. l.state.late ≡ late.now) }
        ensures lane { IfOk result (λ l. l.lane ≡ lane) }
        ensures whole { IfOk result (λ l. l.broken ≡ false) }
        ensures never_reopen { result ≢ Err LogFault.Reopen }
        ensures disk { let stopped = either_stopped (lanes_at (D.lane_of disk.new) lane) in
            LeavesDisk D.tells D.faultless D.lane_of D.faults D.stops lane stopped disk.old disk.new result }
    {
        match sync_lanes(disk, lane) {
            Ok(()) => {}
            Err(fault) => return Err(fault),
        }
        open_synced(alloc, disk, lane, late)
    }

    /// Appends a record to the present lane by four calls on the disk. `Ok` comes once it is synced. After `Memory`
    /// nothing has changed. After `Disk` the log has to be opened again, and answers `Reopen` from then on. It never
    /// answers `Damaged`.
    ///
    /// Where an ordered stop broke one of the four calls, the call's number and the pick tell whether the image that a
    /// crash leaves has the record.
    ///
    /// It costs the record's bytes, and for a Cut the events that it cuts.
    pub fn append<D: Disk>(&mut self, disk: &mut D, entry: &Record) -> Result<(), LogFault>
        requires follows { may_follow self.old.state entry.now ≡ true }
        requires stands { D.tells → IsReady self.old (lanes_at (D.lane_of disk.old) self.old.lane) }
        ensures log { Leaves self.old (appended entry.now self.old) (failed self.old) self.new result }
        ensures lanes { let l = self.old in let before = lanes_at (D.lane_of disk.old) l.lane in
            D.tells → Appends l (Some entry.now) before (lanes_at (D.lane_of disk.new) l.lane) result }
        ensures reopen { ReopensBroken self.old result }
        ensures disk { let l = self.old in
            let stopped = has_stopped (D.lane_of disk.new (number_of l.lane l.second)).stop in
            LeavesDisk D.tells D.faultless D.lane_of D.faults D.stops l.lane stopped disk.old disk.new result }
    {
        if self.broken {
            return Err(LogFault::Reopen);
        }
        // Proof only: which lane is present, and that the record is sound.
        shut_is();
        two_are();
        lower_is();
        is_sound(entry);
        let events = &mut self.events;
        match events.entries.reserve(1) {
            Ok(()) => {}
            Err(_) => return Err(LogFault::Memory),
        }
        let joins = match self.footing.joins_with(entry) {
            Ok(joins) => joins,
            Err(_) => return Err(LogFault::Memory),
        };
        let lane = number_of(self.lane, self.second);
        let size = match append_at(self.alloc, disk, lane, self.size - 1, entry) {
            Ok(size) => size,
            Err(fault) => {
                self.broken = is_disk(fault);
                return Err(fault);
            }
        };
        self.size = size;
        self.footing.note(entry, joins);
        note_record(&mut events.entries, entry);
        Ok(())
    }

    /// Cuts the log at a tick by writing what it then holds into the other lane, which becomes the present one, and
    /// answers the new generation. `Ok` comes once that is synced. After `Memory` nothing has changed. After `Disk` the
    /// log has to be opened again, and answers `Reopen` from then on. It never answers `Damaged`.
    ///
    /// It costs the bytes that are written, and the events that are cut. The present lane is not called.
    pub fn reclaim<D: Disk>(&mut self, disk: &mut D, tick: u64) -> Result<u64, LogFault>
        requires past { self.old.state.cut < tick }
        requires upto { tick ≤ self.old.state.settled }
        requires next { self.old.generation < MAX_TICK }
        requires stands { D.tells → IsReady self.old (lanes_at (D.lane_of disk.old) self.old.lane) }
        ensures generation { IfOk result (λ g. g ≡ self.old.generation + 1) }
        ensures log { Leaves self.old (reclaimed tick self.old) (failed self.old) self.new result }
        ensures lanes { let l = self.old in let before = lanes_at (D.lane_of disk.old) l.lane in
            D.tells → Reclaims l tick before (lanes_at (D.lane_of disk.new) l.lane) result }
        ensures reopen { ReopensBroken self.old result }
        ensures disk { let l = self.old in
            let stopped = has_stopped (D.lane_of disk.new (number_of l.lane (not l.second))).stop in
            LeavesDisk D.tells D.faultless D.lane_of D.faults D.stops l.lane stopped disk.old disk.new result }
    {
        if self.broken {
            return Err(LogFault::Reopen);
        }
        // Proof only: which lane is present.
        shut_is();
        two_are();
        lower_is();
        reclaims();
        let events = &mut self.events;
        let lane = number_of(self.lane, !self.second);
        let generation = self.generation + 1;
        let from = first_past(&events.entries, tick);
        let size = match refill(
            self.alloc,
            disk,
            lane,
            self.aside,
            generation,
            &self.footing,
            tick,
            &events.entries,
            from,
        ) {
            Ok(size) => size,
            Err(fault) => {
                self.broken = is_disk(fault);
                return Err(fault);
            }
        };
        drop_upto(&mut events.entries, tick);
        self.footing.cut_at(tick);
        self.second = !self.second;
        self.generation = generation;
        self.size = size;
        self.aside = Aside::Opened;
        Ok(generation)
    }

    /// Whether a record may follow what the log holds. Takes no memory.
    pub fn may_follow(&self, entry: &Record) -> bool
        ensures { result ≡ may_follow self.now.state entry.now }
    {
        self.footing.may_follow(entry)
    }

    /// The joins of the log, in order. Takes no memory.
    pub fn joins(&self) -> &Joins
        ensures { result.now ≡ self.now.state.joins }
    {
        self.footing.joins()
    }

    /// The logged events past the cut. Takes no memory.
    pub fn events(&self) -> &Entries
        ensures { result.now ≡ self.now.state.events }
    {
        &self.events
    }

    /// The number of the last event, 0 where there is none. Takes no memory.
    pub fn last(&self) -> u64
        ensures { result ≡ self.now.state.last }
    {
        self.footing.state().last
    }

    /// The greatest tick of an Event, a Mark or a Join, 0 where there is none. Takes no memory.
    pub fn settled(&self) -> u64
        ensures { result ≡ self.now.state.settled }
    {
        self.footing.state().settled
    }

    /// The tick of the last Cut, 0 where there is none. Takes no memory.
    pub fn cut(&self) -> u64
        ensures { result ≡ self.now.state.cut }
    {
        self.footing.state().cut
    }

    /// How many bytes the text of the present lane has, with its closed gate. Takes no memory.
    pub fn text_size(&self) -> u64
        ensures { result ≡ self.now.size }
    {
        self.size
    }

    /// The generation of the present lane. Takes no memory.
    pub fn generation(&self) -> u64
        ensures value { result ≡ self.now.generation }
        ensures low { 1 ≤ result }
        ensures high { result ≤ MAX_TICK }
    {
        self.generation
    }

    /// Whether nothing was ever logged. Takes no memory.
    pub fn is_empty(&self) -> bool
        ensures { IsTrue result ↔ ((self.now.state.last ≡ 0) × (self.now.state.settled ≡ 0)) }
    {
        let state = self.footing.state();
        state.last == 0 && state.settled == 0
    }

    /// Whether the disk failed this log, so that it has to be opened again. What it holds is in order. Takes no memory.
    pub fn is_broken(&self) -> bool
        ensures broken { result ≡ self.now.broken }
        ensures state { IsState self.now.state }
    {
        self.broken
    }
}
