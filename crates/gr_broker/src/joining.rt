//! A late subscriber joins a publisher that is here: the join is logged, then held, and the silence up to it learned.

ghost use Rattle.std.specs.Prelude.{◌≡◌, ◌↔◌, ℕ, ◌<◌, ◌≤◌, true, length, map, get_or, Some, None, IsSome};
ghost use Rattle.std.specs.Prelude.{is_some, OnOk, OnErr, IsErrOf};
ghost use Rattle.gr_tick.specs.declared.TheConstants.{MAX_TICK};
ghost use Rattle.gr_publog.specs.Views.{LogView, appended, failed, lanes_at, IsReady};
ghost use Rattle.gr_publog.specs.Calls.{Appends, ReopensBroken, Leaves, appended_if};
ghost use Rattle.gr_pubend.specs.Log.{said};
ghost use Rattle.gr_pubend.specs.Answers.{joined_at, join_of, join_logs, IsPlannedJoin};
ghost use Rattle.gr_topo.specs.Topology.{late_of};
ghost use Rattle.gr_model.specs.Net.{is_host};
ghost use Rattle.gr_model.specs.NetOf.{net_of};
ghost use Rattle.gr_model.specs.Broker.{Outcome as MachineOutcome};
ghost use Rattle.gr_model.specs.World.{blank_view};
ghost use Rattle.gr_broker_relay.specs.Kept.{IsKept};
ghost use Rattle.gr_broker_relay.specs.Keeps.{KeepsPart};
ghost use Rattle.gr_broker_relay.specs.Held.{held_view, IsSeat};
ghost use Rattle.gr_broker_relay.specs.Told.{Tells, IsBlank};
ghost use Rattle.gr_broker.specs.Lanes.{log_lane};
ghost use Rattle.gr_broker.specs.Seen.{log_in, log_said, with_logged, with_failed, is_broken, broken_at};
ghost use Rattle.gr_broker.specs.Seen.{logs_of, broker_at};
ghost use Rattle.gr_broker.specs.Of.{HoldJoins};
ghost use Rattle.gr_broker.specs.Hosted.{join_with, join_by, join_at, join_logs_at, after_join, AppendsAt};
ghost use Rattle.gr_broker.specs.Keeps.{IsAtHost, IsReadyOn, UsesLane, UsesLog};

use crate::hosting::{log_and_learn, tell};
use gr_broker_relay::{Held, Outcome, Seat, Site, site_at};
use gr_event::Join;
use gr_know::K;
use gr_model::Report;
use gr_out::Disk;
use gr_pubend::{Joined, plan_join};
use gr_publog::law::stands_read;
use gr_publog::{Log, LogFault, Record};
use gr_tick::Piece;
use std::mem;

/// Logs a join as it was planned, where the log is not broken, and learns the silence up to it, holding the joins with
/// this one. What that tells and sends is put into an outcome that told nothing before. After a fault the joins that
/// are held are as before.
fn log_join<D: Disk>(
    site: &Site<'_>,
    disk: &mut D,
    log: &mut Log,
    held: &mut Held,
    s: u16,
    tick: u64,
    fresh: &Piece<K>,
    into: &mut Outcome,
) -> Result<(), LogFault>
    requires at { IsAtHost site.now held.old }
    requires late { log.old.state.late ≡ site.now.topo.now.late }
    requires planned { IsPlannedJoin log.old.state s (Joined.Logged tick fresh.now) }
    requires stands { IsReadyOn D.tells (D.lane_of disk.old) log.old }
    requires blank { IsBlank into.old }
    ensures told { OnOk result (Tells (join_by (net_of site.now.topo.now) site.now.publisher site.now.broker s
        (held_view held.old) (said log.old) tick fresh.now) into.new) }
    ensures view { OnOk result (let o : MachineOutcome = join_by (net_of site.now.topo.now) site.now.publisher
        site.now.broker s (held_view held.old) (said log.old) tick fresh.now in held_view held.new ≡ o.view) }
    ensures part { KeepsPart site.now held.old held.new result }
    ensures log { Leaves log.old (appended (Record.Join tick s) log.old) (failed log.old) log.new result }
    ensures lane { let l = log.old in let before = lanes_at (D.lane_of disk.old) l.lane in
        D.tells → Appends l (Some (Record.Join tick s)) before (lanes_at (D.lane_of disk.new) l.lane) result }
    ensures reopen { ReopensBroken log.old result }
    ensures uses { UsesLog D.tells D.faultless D.lane_of D.faults D.stops disk.old disk.new log.old log.new result }
{
    if log.is_broken() {
        return Err(LogFault::Reopen);
    }
    // Proof only: lanes that are not called hold what they held.
    stands_read();
    let line = Report::Joined {
        subscriber: s,
        publisher: site.publisher,
        tick,
    };
    match tell(line, into) {
        Ok(()) => {}
        Err(_) => return Err(LogFault::Memory),
    }
    let more = match log.joins().with(Join {
        subscriber: s,
        tick,
    }) {
        Ok(more) => more,
        Err(_) => return Err(LogFault::Memory),
    };
    let entry = Record::Join {
        tick,
        subscriber: s,
    };
    let before = mem::replace(&mut held.joins, more);
    match log_and_learn(site, disk, log, held, &entry, fresh, into) {
        Ok(()) => {
            drop(before);
            Ok(())
        }
        Err(fault) => {
            held.joins = before;
            Err(fault)
        }
    }
}

/// Joins a late subscriber at the host, at the moment `now`: the machine's join. Only once the join is synced in the
/// log it is held and told, and the silence up to it learned and sent. What is told and sent is put into an outcome
/// that told nothing before. Faults are those of `hosting::publish`.
fn join<D: Disk>(
    site: &Site<'_>,
    disk: &mut D,
    log: &mut Log,
    held: &mut Held,
    s: u16,
    now: u64,
    into: &mut Outcome,
) -> Result<(), LogFault>
    requires at { IsAtHost site.now held.old }
    requires joins { late_of site.now.topo.now s ≡ true }
    requires late { log.old.state.late ≡ site.now.topo.now.late }
    requires now { now ≤ MAX_TICK }
    requires stands { IsReadyOn D.tells (D.lane_of disk.old) log.old }
    requires blank { IsBlank into.old }
    ensures told { OnOk result (Tells (join_with (net_of site.now.topo.now) site.now.publisher site.now.broker now s
        (held_view held.old) (said log.old)) into.new) }
    ensures view { OnOk result (let o : MachineOutcome = join_with (net_of site.now.topo.now) site.now.publisher
        site.now.broker now s (held_view held.old) (said log.old) in held_view held.new ≡ o.view) }
    ensures part { KeepsPart site.now held.old held.new result }
    ensures log { let r = join_logs (said log.old) s now in
        Leaves log.old (appended_if r log.old) (failed log.old) log.new result }
    ensures lane { let l = log.old in let before = lanes_at (D.lane_of disk.old) l.lane in
        let r = join_logs (said l) s now in
        D.tells → Appends l r before (lanes_at (D.lane_of disk.new) l.lane) result }
    ensures reopen { IsErrOf result LogFault.Reopen
        ↔ ((log.old.broken ≡ true) × IsSome (join_logs (said log.old) s now)) }
    ensures untouched { join_logs (said log.old) s now ≡ None → disk.new ≡ disk.old }
    ensures uses { UsesLog D.tells D.faultless D.lane_of D.faults D.stops disk.old disk.new log.old log.new result }
{
    // Proof only: lanes that are not called hold what they held.
    stands_read();
    let answer = match plan_join(site.alloc, log, s, now) {
        Ok(answer) => answer,
        Err(_) => {
            if log.is_broken() {
                return Err(LogFault::Reopen);
            }
            return Err(LogFault::Memory);
        }
    };
    let (subscriber, publisher) = (s, site.publisher);
    match answer {
        Joined::Logged { tick, fresh } => {
            let done = log_join(site, disk, log, held, s, tick, &fresh, into);
            drop(fresh);
            done
        }
        Joined::Already => tell(
            Report::AlreadyJoined {
                subscriber,
                publisher,
            },
            into,
        ),
        Joined::Exhausted => tell(
            Report::ExhaustedJoin {
                subscriber,
                publisher,
            },
            into,
        ),
    }
}

/// Joins a late subscriber at one publisher's part, which has its log. Faults are those of `hosting::publish`, and so
/// is what becomes of the outcome.
fn join_part<D: Disk>(
    site: &Site<'_>,
    disk: &mut D,
    part: &mut Held,
    s: u16,
    now: u64,
    into: &mut Outcome,
) -> Result<(), LogFault>
    requires at { IsAtHost site.now part.old }
    requires joins { late_of site.now.topo.now s ≡ true }
    requires late { (l : LogView) → part.old.log ≡ Some l → l.state.late ≡ site.now.topo.now.late }
    requires now { now ≤ MAX_TICK }
    requires here { IsSome part.old.log }
    requires blank { IsBlank into.old }
    requires stands { D.tells → (l : LogView) → part.old.log ≡ Some l
        → IsReady l (lanes_at (D.lane_of disk.old) l.lane) }
    ensures told { OnOk result (Tells (join_with (net_of site.now.topo.now) site.now.publisher site.now.broker now s
        (held_view part.old) (log_said part.old.log)) into.new) }
    ensures view { OnOk result (let o : MachineOutcome = join_with (net_of site.now.topo.now) site.now.publisher
        site.now.broker now s (held_view part.old) (log_said part.old.log) in held_view part.new ≡ o.view) }
    ensures err { OnErr result (held_view part.new ≡ held_view part.old) }
    ensures kept { IsKept (net_of site.now.topo.now) site.now.publisher site.now.broker (held_view part.new) }
    ensures log { let r = join_of (joined_at (log_said part.old.log) s now) s in
        Leaves part.old.log (with_logged part.old.log r) (with_failed part.old.log) part.new.log result }
    ensures lane { let r = join_of (joined_at (log_said part.old.log) s now) s in
        D.tells → (l : LogView) → part.old.log ≡ Some l
        → Appends l r (lanes_at (D.lane_of disk.old) l.lane) (lanes_at (D.lane_of disk.new) l.lane) result }
    ensures reopen { let r = join_of (joined_at (log_said part.old.log) s now) s in
        IsErrOf result LogFault.Reopen ↔ ((is_broken part.old.log ≡ true) × IsSome r) }
    ensures untouched { let r = join_of (joined_at (log_said part.old.log) s now) s in r ≡ None → disk.new ≡ disk.old }
    ensures stands { D.tells → (l : LogView) → part.new.log ≡ Some l
        → IsReady l (lanes_at (D.lane_of disk.new) l.lane) }
    ensures uses { (l : LogView) → part.old.log ≡ Some l
        → UsesLane D.tells D.faultless D.lane_of D.faults D.stops l.lane disk.old disk.new result }
{
    let Some(mut log) = part.log.take() else {
        unreachable!()
    };
    let answer = join(site, disk, &mut log, part, s, now, into);
    part.log = Some(log);
    answer
}

/// Joins a late subscriber to a publisher that is here. All that is kept of other publishers stays as it was. What is
/// told and sent is put into an outcome that told nothing before.
pub(crate) fn join_in<D: Disk>(
    seat: &Seat<'_>,
    disk: &mut D,
    held: &mut Vec<Held>,
    p: u16,
    s: u16,
    now: u64,
    into: &mut Outcome,
) -> Result<(), LogFault>
    requires seat { IsSeat seat.now }
    requires many { length held.old.items ≡ length seat.now.topo.now.publishers }
    requires joins { late_of seat.now.topo.now s ≡ true }
    requires publisher { p < length seat.now.topo.now.publishers }
    requires host { is_host (net_of seat.now.topo.now) p seat.now.number ≡ true }
    requires kept { (q : ℕ) → q < length seat.now.topo.now.publishers
        → IsKept (net_of seat.now.topo.now) q seat.now.number (get_or (map held_view held.old.items) q blank_view) }
    requires here { IsSome (get_or (logs_of held.old.items) p None) }
    requires lanes { (q : ℕ) (l : LogView) → get_or (logs_of held.old.items) q None ≡ Some l → l.lane ≡ log_lane q }
    requires late { (q : ℕ) (l : LogView) → get_or (logs_of held.old.items) q None ≡ Some l
        → l.state.late ≡ seat.now.topo.now.late }
    requires joined { HoldJoins (map held_view held.old.items) (logs_of held.old.items) }
    requires now { now ≤ MAX_TICK }
    requires blank { IsBlank into.old }
    requires stands { D.tells → (q : ℕ) (l : LogView) → get_or (logs_of held.old.items) q None ≡ Some l
        → IsReady l (lanes_at (D.lane_of disk.old) (log_lane q)) }
    ensures told { let b = broker_at seat.now held.old.items in
        OnOk result (Tells (join_at seat.now.topo.now b p s now) into.new) }
    ensures leaves { let b = broker_at seat.now held.old.items in
        let after = after_join seat.now.topo.now b p s now in
        Leaves b after (broken_at b p) (broker_at seat.now held.new.items) result }
    ensures log { let b = broker_at seat.now held.old.items in
        OnOk result (let o : MachineOutcome = join_at seat.now.topo.now b p s now in
        log_said (get_or (logs_of held.new.items) p None) ≡ o.log) }
    ensures kept { (q : ℕ) → q < length seat.now.topo.now.publishers
        → IsKept (net_of seat.now.topo.now) q seat.now.number (get_or (map held_view held.new.items) q blank_view) }
    ensures hosted { (q : ℕ) → is_some (get_or (logs_of held.new.items) q None)
        ≡ is_some (get_or (logs_of held.old.items) q None) }
    ensures lanes { (q : ℕ) (l : LogView) → get_or (logs_of held.new.items) q None ≡ Some l → l.lane ≡ log_lane q }
    ensures late { (q : ℕ) (l : LogView) → get_or (logs_of held.new.items) q None ≡ Some l
        → l.state.late ≡ seat.now.topo.now.late }
    ensures joined { HoldJoins (map held_view held.new.items) (logs_of held.new.items) }
    ensures many { length held.new.items ≡ length held.old.items }
    ensures lane { let b = broker_at seat.now held.old.items in D.tells
        → AppendsAt b p (join_logs_at b p s now) (D.lane_of disk.old) (D.lane_of disk.new) result }
    ensures reopen { let b = broker_at seat.now held.old.items in IsErrOf result LogFault.Reopen
        ↔ ((is_broken (log_in b p) ≡ true) × IsSome (join_logs_at b p s now)) }
    ensures untouched { let b = broker_at seat.now held.old.items in
        join_logs_at b p s now ≡ None → disk.new ≡ disk.old }
    ensures uses { UsesLane D.tells D.faultless D.lane_of D.faults D.stops (log_lane p) disk.old disk.new result }
    ensures stands { D.tells → (q : ℕ) (l : LogView) → get_or (logs_of held.new.items) q None ≡ Some l
        → IsReady l (lanes_at (D.lane_of disk.new) (log_lane q)) }
{
    let site = site_at(seat, p);
    join_part(&site, disk, &mut held[p as usize], s, now, into)
}
