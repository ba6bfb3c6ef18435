//! A broker is woken for a publisher: one part is woken, with its log where the publisher is here, and put back.

ghost use Rattle.std.specs.Prelude.{◌≡◌, ◌↔◌, ◌⊎◌, ◌<◌, ◌≤◌, true, length, is_some, None, Some, IsSome};
ghost use Rattle.std.specs.Prelude.{IfOk, OnOk, IsErrOf};
ghost use Rattle.gr_tick.specs.declared.TheConstants.{MAX_TICK};
ghost use Rattle.gr_publog.specs.Views.{LogView, lanes_at, IsReady};
ghost use Rattle.gr_model.specs.Net.{is_host};
ghost use Rattle.gr_model.specs.NetOf.{net_of};
ghost use Rattle.gr_model.specs.Broker.{Outcome as MachineOutcome};
ghost use Rattle.gr_broker_relay.specs.Kept.{IsKept};
ghost use Rattle.gr_broker_relay.specs.Held.{held_view, IsSeat, IsSite};
ghost use Rattle.gr_broker_relay.specs.Told.{Tells};
ghost use Rattle.gr_broker.specs.Lanes.{log_lane};
ghost use Rattle.gr_broker.specs.Seen.{log_in, log_said, machine_log, is_broken, broken_at, broker_at, HasJoins};
ghost use Rattle.gr_broker.specs.Of.{IsBrokerOf, LogsStand};
ghost use Rattle.gr_broker.specs.Told.{log_answer};
ghost use Rattle.gr_broker.specs.Parts.{part_of, part_wake, part_mark_logs, part_cut, part_marked, part_woken};
ghost use Rattle.gr_broker.specs.Parts.{part_failed};
ghost use Rattle.gr_broker.specs.Hosted.{wake_at, mark_logs_at, cut_at, after_mark, after_wake, Wakes, WakesAt};
ghost use Rattle.gr_broker.specs.Hosted.{WakeLeaves};
ghost use Rattle.gr_broker.specs.Keeps.{IsAtHost, UsesLane, UsesLaneOf};

use crate::hosting::wake_host;
use crate::outcome::BrokerFault;
use crate::starting::fault_at;
use gr_broker_relay::{Held, Outcome, Seat, Site, site_at, wake_below};
use gr_out::Disk;
use gr_publog::LogFault;

/// Wakes for a publisher that is here: its log is taken out, and put back.
fn wake_here<D: Disk>(
    site: &Site<'_>,
    disk: &mut D,
    part: &mut Held,
    now: u64,
) -> Result<Outcome, LogFault>
    requires at { IsAtHost site.now part.old }
    requires hosted { is_some part.old.log ≡ is_host (net_of site.now.topo.now) site.now.publisher site.now.broker }
    requires lanes { (l : LogView) → part.old.log ≡ Some l → l.lane ≡ log_lane site.now.publisher }
    requires late { (l : LogView) → part.old.log ≡ Some l → l.state.late ≡ site.now.topo.now.late }
    requires joined { (l : LogView) → part.old.log ≡ Some l → HasJoins (held_view part.old) l }
    requires now { now ≤ MAX_TICK }
    requires stands { let lane = log_lane site.now.publisher in
        D.tells → (l : LogView) → part.old.log ≡ Some l → IsReady l (lanes_at (D.lane_of disk.old) lane) }
    ensures told { let x = part_of part.old in
        IfOk result (λ told. Tells (part_wake site.now.topo.now site.now.publisher site.now.broker now x) told) }
    ensures leaves { let x = part_of part.old in
        let marked = part_marked site.now.topo.now site.now.publisher site.now.broker now x in
        let woken = part_woken site.now.topo.now site.now.publisher site.now.broker now x in
        WakeLeaves x marked woken (part_failed x) (part_failed marked) (part_of part.new) result }
    ensures log { let x = part_of part.old in
        OnOk result (let o : MachineOutcome = part_wake site.now.topo.now site.now.publisher site.now.broker now x in
        log_said part.new.log ≡ o.log) }
    ensures kept { IsKept (net_of site.now.topo.now) site.now.publisher site.now.broker (held_view part.new) }
    ensures hosted { is_some part.new.log ≡ is_some part.old.log }
    ensures lanes { (l : LogView) → part.new.log ≡ Some l → l.lane ≡ log_lane site.now.publisher }
    ensures late { (l : LogView) → part.new.log ≡ Some l → l.state.late ≡ site.now.topo.now.late }
    ensures joined { (l : LogView) → part.new.log ≡ Some l → HasJoins (held_view part.new) l }
    ensures lane { let x = part_of part.old in let lane = log_lane site.now.publisher in
        let reclaim = site.now.topo.now.settings.reclaim in
        D.tells → (l : LogView) → part.old.log ≡ Some l → Wakes l (part_mark_logs site.now.topo.now now x)
        (part_cut site.now.topo.now site.now.publisher site.now.broker now x) reclaim
        (lanes_at (D.lane_of disk.old) lane) (lanes_at (D.lane_of disk.new) lane) result }
    ensures reopen { let x = part_of part.old in IsErrOf result LogFault.Reopen ↔ ((is_broken part.old.log ≡ true)
        × (IsSome (part_mark_logs site.now.topo.now now x)
        ⊎ IsSome (part_cut site.now.topo.now site.now.publisher site.now.broker now x))) }
    ensures closed { is_broken part.old.log ≡ true → disk.new ≡ disk.old }
    ensures uses { let lane = log_lane site.now.publisher in
        UsesLane D.tells D.faultless D.lane_of D.faults D.stops lane disk.old disk.new result }
    ensures stands { let lane = log_lane site.now.publisher in
        D.tells → (l : LogView) → part.new.log ≡ Some l → IsReady l (lanes_at (D.lane_of disk.new) lane) }
{
    // Proof only: a time of silence is at least 1.
    let _ = site.topo.settings();
    let Some(mut log) = part.log.take() else {
        unreachable!()
    };
    // Proof only: what the log holds is in order.
    let _ = log.is_broken();
    let answer = wake_host(site, disk, &mut log, part, now);
    part.log = Some(log);
    answer
}

/// Wakes for a publisher: where it is elsewhere, the disk is not called.
fn wake_part<D: Disk>(
    site: &Site<'_>,
    disk: &mut D,
    part: &mut Held,
    now: u64,
) -> Result<Outcome, LogFault>
    requires site { IsSite site.now }
    requires kept { IsKept (net_of site.now.topo.now) site.now.publisher site.now.broker (held_view part.old) }
    requires hosted { is_some part.old.log ≡ is_host (net_of site.now.topo.now) site.now.publisher site.now.broker }
    requires lanes { (l : LogView) → part.old.log ≡ Some l → l.lane ≡ log_lane site.now.publisher }
    requires late { (l : LogView) → part.old.log ≡ Some l → l.state.late ≡ site.now.topo.now.late }
    requires joined { (l : LogView) → part.old.log ≡ Some l → HasJoins (held_view part.old) l }
    requires now { now ≤ MAX_TICK }
    requires stands { let lane = log_lane site.now.publisher in
        D.tells → (l : LogView) → part.old.log ≡ Some l → IsReady l (lanes_at (D.lane_of disk.old) lane) }
    ensures told { let x = part_of part.old in
        IfOk result (λ told. Tells (part_wake site.now.topo.now site.now.publisher site.now.broker now x) told) }
    ensures leaves { let x = part_of part.old in
        let marked = part_marked site.now.topo.now site.now.publisher site.now.broker now x in
        let woken = part_woken site.now.topo.now site.now.publisher site.now.broker now x in
        WakeLeaves x marked woken (part_failed x) (part_failed marked) (part_of part.new) result }
    ensures log { let x = part_of part.old in
        OnOk result (let o : MachineOutcome = part_wake site.now.topo.now site.now.publisher site.now.broker now x in
        log_said part.new.log ≡ o.log) }
    ensures kept { IsKept (net_of site.now.topo.now) site.now.publisher site.now.broker (held_view part.new) }
    ensures hosted { is_some part.new.log ≡ is_some part.old.log }
    ensures lanes { (l : LogView) → part.new.log ≡ Some l → l.lane ≡ log_lane site.now.publisher }
    ensures late { (l : LogView) → part.new.log ≡ Some l → l.state.late ≡ site.now.topo.now.late }
    ensures joined { (l : LogView) → part.new.log ≡ Some l → HasJoins (held_view part.new) l }
    ensures lane { let x = part_of part.old in let lane = log_lane site.now.publisher in
        let reclaim = site.now.topo.now.settings.reclaim in
        D.tells → (l : LogView) → part.old.log ≡ Some l → Wakes l (part_mark_logs site.now.topo.now now x)
        (part_cut site.now.topo.now site.now.publisher site.now.broker now x) reclaim
        (lanes_at (D.lane_of disk.old) lane) (lanes_at (D.lane_of disk.new) lane) result }
    ensures reopen { let x = part_of part.old in IsErrOf result LogFault.Reopen ↔ ((is_broken part.old.log ≡ true)
        × (IsSome (part_mark_logs site.now.topo.now now x)
        ⊎ IsSome (part_cut site.now.topo.now site.now.publisher site.now.broker now x))) }
    ensures below { part.old.log ≡ None → disk.new ≡ disk.old }
    ensures closed { is_broken part.old.log ≡ true → disk.new ≡ disk.old }
    ensures uses { let lane = log_lane site.now.publisher in
        UsesLane D.tells D.faultless D.lane_of D.faults D.stops lane disk.old disk.new result }
    ensures stands { let lane = log_lane site.now.publisher in
        D.tells → (l : LogView) → part.new.log ≡ Some l → IsReady l (lanes_at (D.lane_of disk.new) lane) }
{
    if site.position.host {
        return wake_here(site, disk, part, now);
    }
    match wake_below(site, part, now) {
        Ok(told) => Ok(told),
        Err(_) => Err(LogFault::Memory),
    }
}

/// The answer of a publisher's log as that of the broker.
fn answer_at(p: u16, answer: Result<Outcome, LogFault>) -> Result<Outcome, BrokerFault>
    ensures { log_answer result ≡ answer }
{
    match answer {
        Ok(told) => Ok(told),
        Err(fault) => Err(fault_at(p, fault)),
    }
}

/// Wakes for a publisher. Every other publisher's part stays as it was.
pub(crate) fn wake<D: Disk>(
    seat: &Seat<'_>,
    disk: &mut D,
    held: &mut Vec<Held>,
    p: u16,
    now: u64,
) -> Result<Outcome, BrokerFault>
    requires seat { IsSeat seat.now }
    requires fits { IsBrokerOf seat.now.topo.now (broker_at seat.now held.old.items) }
    requires publisher { let b = broker_at seat.now held.old.items in p < length b.views }
    requires now { now ≤ MAX_TICK }
    requires stands { D.tells → LogsStand (D.lane_of disk.old) (broker_at seat.now held.old.items) }
    ensures told { let b = broker_at seat.now held.old.items in
        IfOk result (λ told. Tells (wake_at seat.now.topo.now b p now) told) }
    ensures leaves { let b = broker_at seat.now held.old.items in
        let b' = broker_at seat.now held.new.items in
        let marked = after_mark seat.now.topo.now b p now in let woken = after_wake seat.now.topo.now b p now in
        WakeLeaves b marked woken (broken_at b p) (broken_at marked p) b' (log_answer result) }
    ensures log { let b = broker_at seat.now held.old.items in
        let b' = broker_at seat.now held.new.items in
        OnOk result (let o : MachineOutcome = wake_at seat.now.topo.now b p now in machine_log b' p ≡ o.log) }
    ensures fits { IsBrokerOf seat.now.topo.now (broker_at seat.now held.new.items) }
    ensures lane { let b = broker_at seat.now held.old.items in
        let reclaim = seat.now.topo.now.settings.reclaim in
        D.tells → WakesAt b p (mark_logs_at seat.now.topo.now b p now) (cut_at seat.now.topo.now b p now) reclaim
        (D.lane_of disk.old) (D.lane_of disk.new) (log_answer result) }
    ensures reopen { let b = broker_at seat.now held.old.items in
        IsErrOf result BrokerFault.Reopen ↔ ((is_broken (log_in b p) ≡ true)
        × (IsSome (mark_logs_at seat.now.topo.now b p now) ⊎ IsSome (cut_at seat.now.topo.now b p now))) }
    ensures below { let b = broker_at seat.now held.old.items in log_in b p ≡ None → disk.new ≡ disk.old }
    ensures closed { let b = broker_at seat.now held.old.items in is_broken (log_in b p) ≡ true → disk.new ≡ disk.old }
    ensures uses { UsesLaneOf D.tells D.faultless D.lane_of D.faults D.stops p disk.old disk.new result }
    ensures stands { D.tells → LogsStand (D.lane_of disk.new) (broker_at seat.now held.new.items) }
{
    let site = site_at(seat, p);
    let answer = wake_part(&site, disk, &mut held[p as usize], now);
    answer_at(p, answer)
}
