//! A log, and what is known by it.

ghost use Rattle.std.specs.Prelude.{◌≡◌, ◌≢◌, ◌↔◌, ◌+◌, ◌^◌, ◌≤◌, ◌<◌, true, false, Some, None, Err, IsErr};
ghost use Rattle.std.specs.Prelude.{IsSome, IfOk, IsErrOf, nat_eq, length};
ghost use Rattle.std.specs.List.{list_any};
ghost use Rattle.gr_event.specs.declared.limits.TheConstants.{MAX_JOINS};
ghost use Rattle.gr_tick.specs.declared.TheConstants.{MAX_TICK};
ghost use Rattle.gr_tick.specs.Stored.{RunsGive};
ghost use Rattle.gr_know.specs.declared.values.K.TheVariants.{Q};
ghost use Rattle.gr_publog.specs.Views.{lanes_at};
ghost use Rattle.gr_publog.specs.Opens.{Opens, either_stopped};
ghost use Rattle.gr_publog.specs.Calls.{Appends, ReopensBroken, Leaves, LeavesDisk};
ghost use Rattle.gr_publog.specs.declared.record.LogFault.TheVariants.{Memory as WantOfMemory, Disk as DiskFailed};
ghost use Rattle.gr_publog.specs.declared.record.LogFault.TheVariants.{Reopen as MustReopen};
ghost use Rattle.gr_pubend.specs.Log.{said, log_at, log_know};
ghost use Rattle.gr_pubend.specs.Answers.{published, quieted, joined_at, publish_logs, quiet_logs, join_logs, IsNews};
ghost use Rattle.gr_pubend.specs.Answers.{IsPlanned, IsPlannedMark, IsPlannedJoin};
ghost use Rattle.gr_pubend.specs.Cuts.{Cuts, cutting_of, cut_lane};
ghost use Rattle.gr_pubend.specs.End.{grown, cut_end, after_call, broken_end, log_result, present_lane};
ghost use Rattle.gr_pubend.specs.Uses.{IsReadyOn, UsesEnd};

use crate::answers::{Joined, Published, Quieted};
use crate::cutting::{Cutting, cut_log};
use crate::learning::{known_by, make_room};
use crate::planning::{plan, plan_join, plan_quiet};
use gr_event::Event;
use gr_know::{K, Know};
use gr_out::Disk;
use gr_publog::law::stands_read;
use gr_publog::{Log, LogFault, Memory, Record};
use gr_tick::Piece;
use std::alloc::Global;
use std::marker::Model;

/// A publisher's log and what is known by it: up to the log's cut all is final, then the logged events are known with
/// silence between them up to the last settled tick, and nothing past that. It is seen as the log and the knowledge.
#[derive(Drop)]
pub struct Pubend {
    alloc: Global,
    log: Log,
    know: Know,
}

impl Model for Pubend {
    ghost use Rattle.std.specs.Prelude.{◌≡◌};
    ghost use Rattle.gr_pubend.specs.Log.{said, log_know};
    ghost use Rattle.gr_pubend.specs.End.{EndView};

    ghost Value = { EndView };

    ghost view = { λ p. record { log = p.log; know = p.know.runs } };

    ghost invariant = { λ p. p.know.runs ≡ log_know (said p.log) };
}

impl Pubend {
    /// Opens the endpoint of a log in the two lanes from this one on, in which these subscribers may join: the log, and
    /// what is known by it. `Damaged` comes exactly where the lanes hold no log of theirs, and `Disk` only where the
    /// disk failed in this call. It never answers `Reopen`.
    pub fn open<D: Disk>(
        alloc: Global,
        disk: &mut D,
        lane: u16,
        late: &[u16],
    ) -> Result<Pubend, LogFault>
        requires two { lane + 1 < 2 ^ 16 }
        requires late { length late.now ≤ MAX_JOINS }
        ensures opens { let before = lanes_at (D.lane_of disk.old) lane in
            D.tells → Opens late.now lane before (lanes_at (D.lane_of disk.new) lane) (log_result result) }
        ensures late { IfOk result (λ p. p.log.state.late ≡ late.now) }
        ensures lane { IfOk result (λ p. p.log.lane ≡ lane) }
        ensures whole { IfOk result (λ p. p.log.broken ≡ false) }
        ensures known { IfOk result (λ p. p.know ≡ log_know (said p.log)) }
        ensures never_reopen { result ≢ Err LogFault.Reopen }
        ensures disk { let stopped = either_stopped (lanes_at (D.lane_of disk.new) lane) in
            LeavesDisk D.tells D.faultless D.lane_of D.faults D.stops lane stopped disk.old disk.new result }
    {
        let log = match Log::open(alloc, disk, lane, late) {
            Ok(log) => log,
            Err(fault) => return Err(fault),
        };
        let _ = log.is_broken();
        match known_by(alloc, &log) {
            Ok(know) => Ok(Pubend { alloc, log, know }),
            Err(_) => Err(LogFault::Memory),
        }
    }

    /// What a publish of an event under a number would be answered, with the ticks that would become known. Nothing
    /// changes, and the disk is not called. It wants memory only where the event would be logged.
    ///
    /// An event gets the next tick, or `now` where that is later. A number that was logged is `Already` there, and one
    /// past the next is out of turn (`Gap`); with no tick left the publisher is `Exhausted`.
    pub fn plan(&self, number: u64, event: &Event, now: u64) -> Result<Published, Memory>
        requires now { now ≤ MAX_TICK }
        ensures answer { IfOk result (λ answer. answer ≡ published (said self.now.log) number event.now now) }
        ensures planned { IfOk result (λ answer. IsPlanned self.now.log.state number event.now answer) }
        ensures wants { IsErr result → IsSome (publish_logs (said self.now.log) number event.now now) }
    {
        plan(self.alloc, &self.log, number, event, now)
    }

    /// What a time of `quiet` ticks without an event would be answered: the silence up to `now`, or that it was not
    /// long enough. Nothing changes, and the disk is not called. It wants memory only where a mark would be logged.
    pub fn plan_quiet(&self, now: u64, quiet: u64) -> Result<Quieted, Memory>
        requires now { now ≤ MAX_TICK }
        requires some { 1 ≤ quiet }
        ensures answer { IfOk result (λ answer. answer ≡ quieted (said self.now.log) now quiet) }
        ensures planned { IfOk result (λ answer. IsPlannedMark self.now.log.state answer) }
        ensures wants { IsErr result → IsSome (quiet_logs (said self.now.log) now quiet) }
    {
        plan_quiet(self.alloc, &self.log, now, quiet)
    }

    /// What a join of a late subscriber would be answered, with the silence that would become known. Nothing changes,
    /// and the disk is not called. It wants memory only where the join would be logged.
    ///
    /// A join gets the next tick, or `now` where that is later. A subscriber that has joined is `Already` there; with
    /// no tick left the publisher is `Exhausted`.
    pub fn plan_join(&self, s: u16, now: u64) -> Result<Joined, Memory>
        requires now { now ≤ MAX_TICK }
        requires late { list_any (λ x. nat_eq x s) self.now.log.state.late ≡ true }
        ensures answer { IfOk result (λ answer. answer ≡ joined_at (said self.now.log) s now) }
        ensures planned { IfOk result (λ answer. IsPlannedJoin self.now.log.state s answer) }
        ensures wants { IsErr result → IsSome (join_logs (said self.now.log) s now) }
    {
        plan_join(self.alloc, &self.log, s, now)
    }

    /// Publishes an event under a number: `plan`, and then `log_event` where it is to be logged. Only once the event is
    /// synced it is known, with the silence before it; both are answered.
    ///
    /// After `Memory` nothing has changed. After `Disk` the endpoint has to be opened again, and each call that would
    /// log answers `Reopen`.
    pub fn publish<D: Disk>(
        &mut self,
        disk: &mut D,
        number: u64,
        event: &Event,
        now: u64,
    ) -> Result<Published, LogFault>
        requires now { now ≤ MAX_TICK }
        requires stands { IsReadyOn D.tells D.lane_of self.old.log disk.old }
        ensures answer { IfOk result (λ answer. answer ≡ published (said self.old.log) number event.now now) }
        ensures end { let logged = publish_logs (said self.old.log) number event.now now in
            Leaves self.old (after_call logged self.old) (broken_end self.old) self.new result }
        ensures lanes { let l = self.old.log in let before = lanes_at (D.lane_of disk.old) l.lane in
            let logged = publish_logs (said self.old.log) number event.now now in
            D.tells → Appends l logged before (lanes_at (D.lane_of disk.new) l.lane) result }
        ensures reopen { let logged = publish_logs (said self.old.log) number event.now now in
            IsErrOf result LogFault.Reopen ↔ ((self.old.log.broken ≡ true) × IsSome logged) }
        ensures untouched { let logged = publish_logs (said self.old.log) number event.now now in
            logged ≡ None → disk.new ≡ disk.old }
        ensures uses { let lane = present_lane self.old.log in
            UsesEnd D.tells D.faultless D.lane_of D.faults D.stops lane self.old self.new disk.old disk.new result }
    {
        // Proof only: where nothing is logged the lanes hold what they held.
        stands_read();
        let answer = match self.plan(number, event, now) {
            Ok(answer) => answer,
            Err(_) => {
                // A log that is broken has to be opened again, whatever else is wanting.
                if self.log.is_broken() {
                    return Err(LogFault::Reopen);
                }
                return Err(LogFault::Memory);
            }
        };
        match answer {
            Published::Logged { tick, fresh } => {
                match self.log_event(disk, number, event, tick, &fresh) {
                    Ok(()) => Ok(Published::Logged { tick, fresh }),
                    Err(fault) => {
                        drop(fresh);
                        Err(fault)
                    }
                }
            }
            Published::Already => Ok(Published::Already),
            Published::Gap { next } => Ok(Published::Gap { next }),
            Published::Exhausted => Ok(Published::Exhausted),
        }
    }

    /// Marks the silence up to `now`, where nothing was logged for `quiet` ticks: `plan_quiet`, and then `log_mark`.
    /// Else it is `NotYet` time, and all is as it was. Faults are those of `publish`.
    pub fn quiet<D: Disk>(
        &mut self,
        disk: &mut D,
        now: u64,
        quiet: u64,
    ) -> Result<Quieted, LogFault>
        requires now { now ≤ MAX_TICK }
        requires some { 1 ≤ quiet }
        requires stands { IsReadyOn D.tells D.lane_of self.old.log disk.old }
        ensures answer { IfOk result (λ answer. answer ≡ quieted (said self.old.log) now quiet) }
        ensures end { let logged = quiet_logs (said self.old.log) now quiet in
            Leaves self.old (after_call logged self.old) (broken_end self.old) self.new result }
        ensures lanes { let l = self.old.log in let before = lanes_at (D.lane_of disk.old) l.lane in
            let logged = quiet_logs (said self.old.log) now quiet in
            D.tells → Appends l logged before (lanes_at (D.lane_of disk.new) l.lane) result }
        ensures reopen { let logged = quiet_logs (said self.old.log) now quiet in
            IsErrOf result LogFault.Reopen ↔ ((self.old.log.broken ≡ true) × IsSome logged) }
        ensures untouched { let logged = quiet_logs (said self.old.log) now quiet in
            logged ≡ None → disk.new ≡ disk.old }
        ensures uses { let lane = present_lane self.old.log in
            UsesEnd D.tells D.faultless D.lane_of D.faults D.stops lane self.old self.new disk.old disk.new result }
    {
        // Proof only: where nothing is logged the lanes hold what they held.
        stands_read();
        let answer = match self.plan_quiet(now, quiet) {
            Ok(answer) => answer,
            Err(_) => {
                // A log that is broken has to be opened again, whatever else is wanting.
                if self.log.is_broken() {
                    return Err(LogFault::Reopen);
                }
                return Err(LogFault::Memory);
            }
        };
        match answer {
            Quieted::Marked { tick, fresh } => match self.log_mark(disk, tick, &fresh) {
                Ok(()) => Ok(Quieted::Marked { tick, fresh }),
                Err(fault) => {
                    drop(fresh);
                    Err(fault)
                }
            },
            Quieted::NotYet => Ok(Quieted::NotYet),
        }
    }

    /// Joins a late subscriber: `plan_join`, and then `log_join` where the join is to be logged. Only once it is synced
    /// the silence up to it is known, which is answered. Faults are those of `publish`.
    pub fn join<D: Disk>(&mut self, disk: &mut D, s: u16, now: u64) -> Result<Joined, LogFault>
        requires now { now ≤ MAX_TICK }
        requires late { list_any (λ x. nat_eq x s) self.old.log.state.late ≡ true }
        requires stands { IsReadyOn D.tells D.lane_of self.old.log disk.old }
        ensures answer { IfOk result (λ answer. answer ≡ joined_at (said self.old.log) s now) }
        ensures end { let logged = join_logs (said self.old.log) s now in
            Leaves self.old (after_call logged self.old) (broken_end self.old) self.new result }
        ensures lanes { let l = self.old.log in let before = lanes_at (D.lane_of disk.old) l.lane in
            let logged = join_logs (said self.old.log) s now in
            D.tells → Appends l logged before (lanes_at (D.lane_of disk.new) l.lane) result }
        ensures reopen { let logged = join_logs (said self.old.log) s now in
            IsErrOf result LogFault.Reopen ↔ ((self.old.log.broken ≡ true) × IsSome logged) }
        ensures untouched { let logged = join_logs (said self.old.log) s now in
            logged ≡ None → disk.new ≡ disk.old }
        ensures uses { let lane = present_lane self.old.log in
            UsesEnd D.tells D.faultless D.lane_of D.faults D.stops lane self.old self.new disk.old disk.new result }
    {
        // Proof only: where nothing is logged the lanes hold what they held.
        stands_read();
        let answer = match self.plan_join(s, now) {
            Ok(answer) => answer,
            Err(_) => {
                // A log that is broken has to be opened again, whatever else is wanting.
                if self.log.is_broken() {
                    return Err(LogFault::Reopen);
                }
                return Err(LogFault::Memory);
            }
        };
        match answer {
            Joined::Logged { tick, fresh } => match self.log_join(disk, s, tick, &fresh) {
                Ok(()) => Ok(Joined::Logged { tick, fresh }),
                Err(fault) => {
                    drop(fresh);
                    Err(fault)
                }
            },
            Joined::Already => Ok(Joined::Already),
            Joined::Exhausted => Ok(Joined::Exhausted),
        }
    }

    /// Logs an event as it was planned: `fresh` is what `plan` answered with this tick, and nothing was logged since.
    /// It takes all its memory before the disk is called. Faults are those of `publish`.
    pub fn log_event<D: Disk>(
        &mut self,
        disk: &mut D,
        number: u64,
        event: &Event,
        tick: u64,
        fresh: &Piece<K>,
    ) -> Result<(), LogFault>
        requires planned { IsPlanned self.old.log.state number event.now (Published.Logged tick fresh.now) }
        requires stands { IsReadyOn D.tells D.lane_of self.old.log disk.old }
        ensures end { let logged = grown (Record.Event tick number event.now) self.old in
            Leaves self.old logged (broken_end self.old) self.new result }
        ensures lanes { let l = self.old.log in let before = lanes_at (D.lane_of disk.old) l.lane in
            let logged = Some (Record.Event tick number event.now) in
            D.tells → Appends l logged before (lanes_at (D.lane_of disk.new) l.lane) result }
        ensures reopen { ReopensBroken self.old.log result }
        ensures uses { let lane = present_lane self.old.log in
            UsesEnd D.tells D.faultless D.lane_of D.faults D.stops lane self.old self.new disk.old disk.new result }
    {
        let entry = Record::Event {
            tick,
            number,
            event: event.share(),
        };
        self.log_and_join(disk, &entry, fresh)
    }

    /// Logs a mark as it was planned: `fresh` is what `plan_quiet` answered with this tick, and nothing was logged
    /// since. It takes all its memory before the disk is called. Faults are those of `publish`.
    pub fn log_mark<D: Disk>(
        &mut self,
        disk: &mut D,
        tick: u64,
        fresh: &Piece<K>,
    ) -> Result<(), LogFault>
        requires planned { IsPlannedMark self.old.log.state (Quieted.Marked tick fresh.now) }
        requires stands { IsReadyOn D.tells D.lane_of self.old.log disk.old }
        ensures end { Leaves self.old (grown (Record.Mark tick) self.old) (broken_end self.old) self.new result }
        ensures lanes { let l = self.old.log in let before = lanes_at (D.lane_of disk.old) l.lane in
            D.tells → Appends l (Some (Record.Mark tick)) before (lanes_at (D.lane_of disk.new) l.lane) result }
        ensures reopen { ReopensBroken self.old.log result }
        ensures uses { let lane = present_lane self.old.log in
            UsesEnd D.tells D.faultless D.lane_of D.faults D.stops lane self.old self.new disk.old disk.new result }
    {
        self.log_and_join(disk, &Record::Mark { tick }, fresh)
    }

    /// Logs a join as it was planned: `fresh` is what `plan_join` answered with this tick, and nothing was logged
    /// since. It takes all its memory before the disk is called. Faults are those of `publish`.
    pub fn log_join<D: Disk>(
        &mut self,
        disk: &mut D,
        s: u16,
        tick: u64,
        fresh: &Piece<K>,
    ) -> Result<(), LogFault>
        requires planned { IsPlannedJoin self.old.log.state s (Joined.Logged tick fresh.now) }
        requires stands { IsReadyOn D.tells D.lane_of self.old.log disk.old }
        ensures end { Leaves self.old (grown (Record.Join tick s) self.old) (broken_end self.old) self.new result }
        ensures lanes { let l = self.old.log in let before = lanes_at (D.lane_of disk.old) l.lane in
            D.tells → Appends l (Some (Record.Join tick s)) before (lanes_at (D.lane_of disk.new) l.lane) result }
        ensures reopen { ReopensBroken self.old.log result }
        ensures uses { let lane = present_lane self.old.log in
            UsesEnd D.tells D.faultless D.lane_of D.faults D.stops lane self.old self.new disk.old disk.new result }
    {
        let entry = Record::Join {
            tick,
            subscriber: s,
        };
        self.log_and_join(disk, &entry, fresh)
    }

    /// Notes that nothing up to a tick is asked for again, and makes all up to it final: `cut_log`. Faults are those of
    /// `publish`.
    pub fn cut_to<D: Disk>(
        &mut self,
        disk: &mut D,
        tick: u64,
        reclaim: u32,
    ) -> Result<Cutting, LogFault>
        requires past { self.old.log.state.cut < tick }
        requires upto { tick ≤ self.old.log.state.settled }
        requires stands { IsReadyOn D.tells D.lane_of self.old.log disk.old }
        ensures answer { IfOk result (λ c. c ≡ cutting_of self.old.log reclaim) }
        ensures end { Leaves self.old (cut_end reclaim tick self.old) (broken_end self.old) self.new result }
        ensures lanes { let l = self.old.log in let before = lanes_at (D.lane_of disk.old) l.lane in
            D.tells → Cuts l (Some tick) reclaim before (lanes_at (D.lane_of disk.new) l.lane) result }
        ensures reopen { ReopensBroken self.old.log result }
        ensures uses { let lane = cut_lane self.old.log reclaim in
            UsesEnd D.tells D.faultless D.lane_of D.faults D.stops lane self.old self.new disk.old disk.new result }
    {
        if self.log.is_broken() {
            return Err(LogFault::Reopen);
        }
        // Proof only: until the log is called the lanes hold what they held.
        stands_read();
        match self.know.reserve(2) {
            Ok(()) => {}
            Err(_) => return Err(LogFault::Memory),
        }
        match cut_log(&mut self.log, disk, tick, reclaim) {
            Ok(cutting) => {
                self.know.finish_ready(1, tick);
                Ok(cutting)
            }
            Err(fault) => Err(fault),
        }
    }

    /// What is known by the log. Takes no memory.
    pub fn know(&self) -> &Know
        ensures know { result.now.runs ≡ self.now.know }
        ensures known { self.now.know ≡ log_know (said self.now.log) }
        ensures each { RunsGive Q self.now.know (log_at (said self.now.log)) }
    {
        let _ = self.know.len();
        &self.know
    }

    /// The log. Takes no memory.
    pub fn log(&self) -> &Log
        ensures { result.now ≡ self.now.log }
    {
        &self.log
    }

    /// Logs a record, and only then joins what becomes known with it. The room for that is there before the disk is
    /// called.
    fn log_and_join<D: Disk>(
        &mut self,
        disk: &mut D,
        entry: &Record,
        fresh: &Piece<K>,
    ) -> Result<(), LogFault>
        requires news { IsNews self.old.log.state entry.now fresh.now }
        requires stands { IsReadyOn D.tells D.lane_of self.old.log disk.old }
        ensures end { Leaves self.old (grown entry.now self.old) (broken_end self.old) self.new result }
        ensures lanes { let l = self.old.log in let before = lanes_at (D.lane_of disk.old) l.lane in
            D.tells → Appends l (Some entry.now) before (lanes_at (D.lane_of disk.new) l.lane) result }
        ensures reopen { ReopensBroken self.old.log result }
        ensures uses { let lane = present_lane self.old.log in
            UsesEnd D.tells D.faultless D.lane_of D.faults D.stops lane self.old self.new disk.old disk.new result }
    {
        if self.log.is_broken() {
            return Err(LogFault::Reopen);
        }
        // Proof only: until the log is called the lanes hold what they held.
        stands_read();
        match make_room(&mut self.know, fresh) {
            Ok(()) => {}
            Err(_) => return Err(LogFault::Memory),
        }
        match self.log.append(disk, entry) {
            Ok(()) => {
                self.know.join(fresh);
                Ok(())
            }
            Err(fault) => Err(fault),
        }
    }
}
