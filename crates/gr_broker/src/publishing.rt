//! A publish for a publisher that is here, among all that a broker keeps.

ghost use Rattle.std.specs.Prelude.{◌≡◌, ◌↔◌, ℕ, ◌<◌, ◌≤◌, true, length, map, get_or, Some, None, IsSome};
ghost use Rattle.std.specs.Prelude.{is_some, OnOk, OnErr, IsErrOf};
ghost use Rattle.gr_tick.specs.declared.TheConstants.{MAX_TICK};
ghost use Rattle.gr_publog.specs.Views.{LogView, lanes_at, IsReady};
ghost use Rattle.gr_publog.specs.Calls.{Appends, Leaves};
ghost use Rattle.gr_pubend.specs.Answers.{published, event_of};
ghost use Rattle.gr_model.specs.Net.{is_host};
ghost use Rattle.gr_model.specs.NetOf.{net_of};
ghost use Rattle.gr_model.specs.Broker.{Outcome as MachineOutcome, publish};
ghost use Rattle.gr_model.specs.World.{blank_view};
ghost use Rattle.gr_broker_relay.specs.Kept.{IsKept};
ghost use Rattle.gr_broker_relay.specs.Held.{held_view, shown_net, IsSeat};
ghost use Rattle.gr_broker_relay.specs.Told.{Tells, IsBlank};
ghost use Rattle.gr_broker.specs.Lanes.{log_lane};
ghost use Rattle.gr_broker.specs.Seen.{log_in, log_said, with_logged, with_failed, is_broken, broken_at};
ghost use Rattle.gr_broker.specs.Seen.{logs_of, broker_at};
ghost use Rattle.gr_broker.specs.Of.{HoldJoins};
ghost use Rattle.gr_broker.specs.Hosted.{publish_at, publish_logs_at, after_publish, AppendsAt};
ghost use Rattle.gr_broker.specs.Keeps.{IsAtHost, UsesLane};

use crate::hosting::publish;
use gr_broker_relay::{Held, Outcome, Seat, Site, site_at};
use gr_event::Event;
use gr_out::Disk;
use gr_publog::LogFault;

/// Publishes at one publisher's part, which has its log. Faults are those of `hosting::publish`, and so is what becomes
/// of the outcome.
fn publish_part<D: Disk>(
    site: &Site<'_>,
    disk: &mut D,
    part: &mut Held,
    number: u64,
    event: &Event,
    now: u64,
    into: &mut Outcome,
) -> Result<(), LogFault>
    requires at { IsAtHost site.now part.old }
    requires now { now ≤ MAX_TICK }
    requires here { IsSome part.old.log }
    requires blank { IsBlank into.old }
    requires stands { D.tells → (l : LogView) → part.old.log ≡ Some l
        → IsReady l (lanes_at (D.lane_of disk.old) l.lane) }
    ensures told { OnOk result (Tells (publish (shown_net site.now.topo.now part.old) site.now.publisher
        site.now.broker now number event.now (held_view part.old) (log_said part.old.log)) into.new) }
    ensures view { OnOk result (let o : MachineOutcome = publish (shown_net site.now.topo.now part.old)
        site.now.publisher site.now.broker now number event.now (held_view part.old) (log_said part.old.log) in
        held_view part.new ≡ o.view) }
    ensures err { OnErr result (held_view part.new ≡ held_view part.old) }
    ensures kept { IsKept (net_of site.now.topo.now) site.now.publisher site.now.broker (held_view part.new) }
    ensures log { let r = event_of (published (log_said part.old.log) number event.now now) number event.now in
        Leaves part.old.log (with_logged part.old.log r) (with_failed part.old.log) part.new.log result }
    ensures lane { let r = event_of (published (log_said part.old.log) number event.now now) number event.now in
        D.tells → (l : LogView) → part.old.log ≡ Some l
        → Appends l r (lanes_at (D.lane_of disk.old) l.lane) (lanes_at (D.lane_of disk.new) l.lane) result }
    ensures reopen { let r = event_of (published (log_said part.old.log) number event.now now) number event.now in
        IsErrOf result LogFault.Reopen ↔ ((is_broken part.old.log ≡ true) × IsSome r) }
    ensures untouched { let r = event_of (published (log_said part.old.log) number event.now now) number event.now in
        r ≡ None → disk.new ≡ disk.old }
    ensures stands { D.tells → (l : LogView) → part.new.log ≡ Some l
        → IsReady l (lanes_at (D.lane_of disk.new) l.lane) }
    ensures uses { (l : LogView) → part.old.log ≡ Some l
        → UsesLane D.tells D.faultless D.lane_of D.faults D.stops l.lane disk.old disk.new result }
{
    let Some(mut log) = part.log.take() else {
        unreachable!()
    };
    let answer = publish(site, disk, &mut log, part, number, event, now, into);
    part.log = Some(log);
    answer
}

/// Publishes an event for a publisher that is here. All that is kept of other publishers stays as it was. What is told
/// and sent is put into an outcome that told nothing before.
pub(crate) fn publish_in<D: Disk>(
    seat: &Seat<'_>,
    disk: &mut D,
    held: &mut Vec<Held>,
    p: u16,
    number: u64,
    event: &Event,
    now: u64,
    into: &mut Outcome,
) -> Result<(), LogFault>
    requires seat { IsSeat seat.now }
    requires many { length held.old.items ≡ length seat.now.topo.now.publishers }
    requires publisher { p < length seat.now.topo.now.publishers }
    requires host { is_host (net_of seat.now.topo.now) p seat.now.number ≡ true }
    requires kept { (q : ℕ) → q < length seat.now.topo.now.publishers
        → IsKept (net_of seat.now.topo.now) q seat.now.number (get_or (map held_view held.old.items) q blank_view) }
    requires here { IsSome (get_or (logs_of held.old.items) p None) }
    requires lanes { (q : ℕ) (l : LogView) → get_or (logs_of held.old.items) q None ≡ Some l → l.lane ≡ log_lane q }
    requires late { (q : ℕ) (l : LogView) → get_or (logs_of held.old.items) q None ≡ Some l
        → l.state.late ≡ seat.now.topo.now.late }
    requires joined { HoldJoins (map held_view held.old.items) (logs_of held.old.items) }
    requires now { now ≤ MAX_TICK }
    requires blank { IsBlank into.old }
    requires stands { D.tells → (q : ℕ) (l : LogView) → get_or (logs_of held.old.items) q None ≡ Some l
        → IsReady l (lanes_at (D.lane_of disk.old) (log_lane q)) }
    ensures told { let b = broker_at seat.now held.old.items in
        OnOk result (Tells (publish_at seat.now.topo.now b p now number event.now) into.new) }
    ensures leaves { let b = broker_at seat.now held.old.items in
        let after = after_publish seat.now.topo.now b p now number event.now in
        Leaves b after (broken_at b p) (broker_at seat.now held.new.items) result }
    ensures log { let b = broker_at seat.now held.old.items in
        OnOk result (let o : MachineOutcome = publish_at seat.now.topo.now b p now number event.now in
        log_said (get_or (logs_of held.new.items) p None) ≡ o.log) }
    ensures kept { (q : ℕ) → q < length seat.now.topo.now.publishers
        → IsKept (net_of seat.now.topo.now) q seat.now.number (get_or (map held_view held.new.items) q blank_view) }
    ensures hosted { (q : ℕ) → is_some (get_or (logs_of held.new.items) q None)
        ≡ is_some (get_or (logs_of held.old.items) q None) }
    ensures lanes { (q : ℕ) (l : LogView) → get_or (logs_of held.new.items) q None ≡ Some l → l.lane ≡ log_lane q }
    ensures late { (q : ℕ) (l : LogView) → get_or (logs_of held.new.items) q None ≡ Some l
        → l.state.late ≡ seat.now.topo.now.late }
    ensures joined { HoldJoins (map held_view held.new.items) (logs_of held.new.items) }
    ensures many { length held.new.items ≡ length held.old.items }
    ensures lane { let b = broker_at seat.now held.old.items in D.tells
        → AppendsAt b p (publish_logs_at b p now number event.now) (D.lane_of disk.old) (D.lane_of disk.new) result }
    ensures reopen { let b = broker_at seat.now held.old.items in IsErrOf result LogFault.Reopen
        ↔ ((is_broken (log_in b p) ≡ true) × IsSome (publish_logs_at b p now number event.now)) }
    ensures untouched { let b = broker_at seat.now held.old.items in
        publish_logs_at b p now number event.now ≡ None → disk.new ≡ disk.old }
    ensures uses { UsesLane D.tells D.faultless D.lane_of D.faults D.stops (log_lane p) disk.old disk.new result }
    ensures stands { D.tells → (q : ℕ) (l : LogView) → get_or (logs_of held.new.items) q None ≡ Some l
        → IsReady l (lanes_at (D.lane_of disk.new) (log_lane q)) }
{
    let site = site_at(seat, p);
    publish_part(&site, disk, &mut held[p as usize], number, event, now, into)
}
