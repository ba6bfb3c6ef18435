//! A publisher's calls at its host: an event is logged and learned, silence is marked, and what all children have is
//! cut.

ghost use Rattle.std.specs.Prelude.{◌≡◌, ◌≢◌, ◌↔◌, ◌⊎◌, ◌+◌, ◌++◌, ◌∷◌, [], ◌<◌, ◌≤◌, true, false, Some};
ghost use Rattle.std.specs.Prelude.{None, Err, IsErr, IsSome, IsErrOf, IfOk, OnOk};
ghost use Rattle.gr_tick.specs.declared.TheConstants.{MAX_TICK};
ghost use Rattle.gr_curio.specs.Wants.{runs_of};
ghost use Rattle.gr_publog.specs.State.{may_follow};
ghost use Rattle.gr_publog.specs.Views.{LogView, appended, failed, lanes_at};
ghost use Rattle.gr_publog.specs.Calls.{Appends, ReopensBroken, Leaves, appended_if};
ghost use Rattle.gr_pubend.specs.Log.{Log as MachineLog, said};
ghost use Rattle.gr_pubend.specs.Answers.{quieted, publish_logs, quiet_logs, IsPlanned, IsPlannedMark};
ghost use Rattle.gr_pubend.specs.Cuts.{Cuts, cut_view, cut_if};
ghost use Rattle.gr_topo.specs.Topology.{children_of};
ghost use Rattle.gr_model.specs.Net.{Net};
ghost use Rattle.gr_model.specs.NetOf.{net_of};
ghost use Rattle.gr_model.specs.Broker.{Outcome as MachineOutcome, learn, publish, publish_by, marking};
ghost use Rattle.gr_model.specs.Broker.{marking_by, wake_host};
ghost use Rattle.gr_broker_relay.specs.Kept.{IsKept};
ghost use Rattle.gr_broker_relay.specs.Keeps.{KeepsPart};
ghost use Rattle.gr_broker_relay.specs.Held.{held_view, shown_net, IsSite};
ghost use Rattle.gr_broker_relay.specs.Told.{Tells, Adds, AddsFrames, IsBlank};
ghost use Rattle.gr_broker_relay.specs.Cuts.{tick_cut};
ghost use Rattle.gr_broker.specs.Hosted.{Wakes, WakeLeaves};
ghost use Rattle.gr_broker.specs.Host.{host_with, tick_marked, mark_lines, cut_lines, expected_frames};
ghost use Rattle.gr_broker.specs.Keeps.{IsAtHost, IsReadyOn, UsesLog};

use gr_broker_relay::{
    Held, Memory, Outcome, Site, apply_learning, cut_due, expect_children, plan_learning,
    reserve_learning,
};
use gr_curio::Wants;
use gr_event::Event;
use gr_know::K;
use gr_model::{Report, Reports};
use gr_out::Disk;
use gr_out::law::may_leave_what_it_reads;
use gr_pubend::{Cutting, Published, Quieted, cut_log, plan, plan_cut, plan_quiet};
use gr_publog::law::{lower_is, shut_is, stands_read, two_are};
use gr_publog::{Log, LogFault, Record};
use gr_tick::Piece;

/// Logs a record at the host, and only once it is synced learns what is new by it, with the joins that are held. What
/// that tells and sends is put at the end of an outcome. All its memory is taken before the disk is called, and after a
/// fault nothing was learned.
pub(crate) fn log_and_learn<D: Disk>(
    site: &Site<'_>,
    disk: &mut D,
    log: &mut Log,
    held: &mut Held,
    entry: &Record,
    fresh: &Piece<K>,
    into: &mut Outcome,
) -> Result<(), LogFault>
    requires at { IsAtHost site.now held.old }
    requires whole { log.old.broken ≡ false }
    requires follows { may_follow log.old.state entry.now ≡ true }
    requires stands { IsReadyOn D.tells (D.lane_of disk.old) log.old }
    ensures adds { let net : Net = shown_net site.now.topo.now held.old in OnOk result ((l : MachineLog) →
        let o : MachineOutcome = learn net site.now.publisher site.now.broker fresh.now (held_view held.old) l in
        Adds o.lines o.frames into.old into.new) }
    ensures view { let net : Net = shown_net site.now.topo.now held.old in OnOk result ((l : MachineLog) →
        let o : MachineOutcome = learn net site.now.publisher site.now.broker fresh.now (held_view held.old) l in
        held_view held.new ≡ o.view) }
    ensures part { KeepsPart site.now held.old held.new result }
    ensures log { Leaves log.old (appended entry.now log.old) (failed log.old) log.new result }
    ensures lane { let l = log.old in let before = lanes_at (D.lane_of disk.old) l.lane in
        D.tells → Appends l (Some entry.now) before (lanes_at (D.lane_of disk.new) l.lane) result }
    ensures never_reopen { result ≢ Err LogFault.Reopen }
    ensures uses { UsesLog D.tells D.faultless D.lane_of D.faults D.stops disk.old disk.new log.old log.new result }
{
    // Proof only: lanes that are not called hold what they held.
    stands_read();
    let changes = match plan_learning(site, held, fresh, into) {
        Ok(changes) => changes,
        Err(_) => return Err(LogFault::Memory),
    };
    match reserve_learning(site, held, fresh, &changes) {
        Ok(()) => {}
        Err(_) => {
            drop(changes);
            return Err(LogFault::Memory);
        }
    }
    match log.append(disk, entry) {
        Ok(()) => {
            apply_learning(site, held, fresh, &changes);
            drop(changes);
            Ok(())
        }
        Err(fault) => {
            drop(changes);
            Err(fault)
        }
    }
}

/// Logs an event as it was planned, where the log is not broken, and learns it with the silence before it. What that
/// tells and sends is put into an outcome that told nothing before.
fn log_event<D: Disk>(
    site: &Site<'_>,
    disk: &mut D,
    log: &mut Log,
    held: &mut Held,
    number: u64,
    event: &Event,
    tick: u64,
    fresh: &Piece<K>,
    into: &mut Outcome,
) -> Result<(), LogFault>
    requires at { IsAtHost site.now held.old }
    requires planned { IsPlanned log.old.state number event.now (Published.Logged tick fresh.now) }
    requires stands { IsReadyOn D.tells (D.lane_of disk.old) log.old }
    requires blank { IsBlank into.old }
    ensures told { OnOk result (Tells (publish_by
        (shown_net site.now.topo.now held.old) site.now.publisher site.now.broker number event.now
        (held_view held.old) (said log.old) (Published.Logged tick fresh.now)) into.new) }
    ensures view { OnOk result (let o : MachineOutcome = publish_by
        (shown_net site.now.topo.now held.old) site.now.publisher site.now.broker number event.now
        (held_view held.old) (said log.old) (Published.Logged tick fresh.now) in held_view held.new ≡
        o.view) }
    ensures part { KeepsPart site.now held.old held.new result }
    ensures log { Leaves log.old (appended (Record.Event tick number event.now) log.old)
        (failed log.old) log.new result }
    ensures lane { let l = log.old in let before = lanes_at (D.lane_of disk.old) l.lane in
        let after = lanes_at (D.lane_of disk.new) l.lane in
        D.tells → Appends l (Some (Record.Event tick number event.now)) before after result }
    ensures reopen { ReopensBroken log.old result }
    ensures uses { UsesLog D.tells D.faultless D.lane_of D.faults D.stops disk.old disk.new log.old log.new result }
{
    if log.is_broken() {
        return Err(LogFault::Reopen);
    }
    // Proof only: lanes that are not called hold what they held.
    stands_read();
    let publisher = site.publisher;
    match tell(
        Report::Logged {
            publisher,
            number,
            tick,
        },
        into,
    ) {
        Ok(()) => {}
        Err(_) => return Err(LogFault::Memory),
    }
    let entry = Record::Event {
        tick,
        number,
        event: event.share(),
    };
    let done = log_and_learn(site, disk, log, held, &entry, fresh, into);
    drop(entry);
    done
}

/// One line is told, and nothing is sent, by an outcome that told nothing before.
pub(crate) fn tell(line: Report, into: &mut Outcome) -> Result<(), LogFault>
    requires { IsBlank into.old }
    ensures lines { OnOk result (into.new.reports ≡ line ∷ []) }
    ensures frames { OnOk result (into.new.frames.frames ≡ []) }
    ensures err { (e : LogFault) → result ≡ Err e → e ≡ LogFault.Memory }
{
    match into.reports.push(line) {
        Ok(()) => Ok(()),
        Err(_) => Err(LogFault::Memory),
    }
}

/// Publishes an event under a number at the host, at the moment `now`: the machine's publish. Only once the event is
/// synced in the log it is learned, told and sent. What is told and sent is put into an outcome that told nothing
/// before.
///
/// After `Memory` nothing has changed. After `Disk` the log is broken and all else is as before. `Reopen` comes where
/// a broken log would be appended to, whatever else is wanting.
pub(crate) fn publish<D: Disk>(
    site: &Site<'_>,
    disk: &mut D,
    log: &mut Log,
    held: &mut Held,
    number: u64,
    event: &Event,
    now: u64,
    into: &mut Outcome,
) -> Result<(), LogFault>
    requires at { IsAtHost site.now held.old }
    requires now { now ≤ MAX_TICK }
    requires stands { IsReadyOn D.tells (D.lane_of disk.old) log.old }
    requires blank { IsBlank into.old }
    ensures told { OnOk result (Tells (publish
        (shown_net site.now.topo.now held.old) site.now.publisher site.now.broker now number event.now
        (held_view held.old) (said log.old)) into.new) }
    ensures view { OnOk result (let o : MachineOutcome = publish
        (shown_net site.now.topo.now held.old) site.now.publisher site.now.broker now number event.now
        (held_view held.old) (said log.old) in held_view held.new ≡ o.view) }
    ensures part { KeepsPart site.now held.old held.new result }
    ensures log { let r = publish_logs (said log.old) number event.now now in
        Leaves log.old (appended_if r log.old) (failed log.old) log.new result }
    ensures lane { let l = log.old in let before = lanes_at (D.lane_of disk.old) l.lane in let r =
        publish_logs (said l) number event.now now in
        D.tells → Appends l r before (lanes_at (D.lane_of disk.new) l.lane) result }
    ensures reopen { IsErrOf result LogFault.Reopen
        ↔ ((log.old.broken ≡ true) × IsSome (publish_logs (said log.old) number event.now now)) }
    ensures untouched { publish_logs (said log.old) number event.now now ≡ None → disk.new ≡ disk.old }
    ensures uses { UsesLog D.tells D.faultless D.lane_of D.faults D.stops disk.old disk.new log.old log.new result }
{
    // Proof only: lanes that are not called hold what they held.
    stands_read();
    let answer = match plan(site.alloc, log, number, event, now) {
        Ok(answer) => answer,
        Err(_) => {
            if log.is_broken() {
                return Err(LogFault::Reopen);
            }
            return Err(LogFault::Memory);
        }
    };
    let publisher = site.publisher;
    match answer {
        Published::Logged { tick, fresh } => {
            let done = log_event(site, disk, log, held, number, event, tick, &fresh, into);
            drop(fresh);
            done
        }
        Published::Already => tell(Report::Already { publisher, number }, into),
        Published::Gap { next } => tell(
            Report::Gap {
                publisher,
                number,
                next,
            },
            into,
        ),
        Published::Exhausted => tell(Report::Exhausted { publisher, number }, into),
    }
}

/// Marks the silence up to `now`, where nothing was logged for long, and learns it; answers the tick of the mark, if
/// there is one. Faults are those of `publish`.
fn mark<D: Disk>(
    site: &Site<'_>,
    disk: &mut D,
    log: &mut Log,
    held: &mut Held,
    now: u64,
    into: &mut Outcome,
) -> Result<Option<u64>, LogFault>
    requires at { IsAtHost site.now held.old }
    requires now { now ≤ MAX_TICK }
    requires stands { IsReadyOn D.tells (D.lane_of disk.old) log.old }
    ensures tick { IfOk result (λ tick. tick
        ≡ tick_marked (quieted (said log.old) now site.now.topo.now.settings.quiet)) }
    ensures wants { IsErr result → IsSome (quiet_logs (said log.old) now site.now.topo.now.settings.quiet) }
    ensures adds { OnOk result (let o : MachineOutcome = marking
        (shown_net site.now.topo.now held.old) site.now.publisher site.now.broker now
        (held_view held.old) (said log.old) in Adds o.lines o.frames into.old into.new) }
    ensures view { OnOk result (let o : MachineOutcome = marking
        (shown_net site.now.topo.now held.old) site.now.publisher site.now.broker now
        (held_view held.old) (said log.old) in held_view held.new ≡ o.view) }
    ensures part { KeepsPart site.now held.old held.new result }
    ensures log { let r = quiet_logs (said log.old) now site.now.topo.now.settings.quiet in
        Leaves log.old (appended_if r log.old) (failed log.old) log.new result }
    ensures lane { let l = log.old in let before = lanes_at (D.lane_of disk.old) l.lane in
        let r = quiet_logs (said l) now site.now.topo.now.settings.quiet in
        D.tells → Appends l r before (lanes_at (D.lane_of disk.new) l.lane) result }
    ensures reopen { IsErrOf result LogFault.Reopen
        ↔ ((log.old.broken ≡ true) × IsSome (quiet_logs (said log.old) now site.now.topo.now.settings.quiet)) }
    ensures closed { log.old.broken ≡ true → disk.new ≡ disk.old }
    ensures untouched { quiet_logs (said log.old) now site.now.topo.now.settings.quiet ≡ None → disk.new ≡ disk.old }
    ensures uses { UsesLog D.tells D.faultless D.lane_of D.faults D.stops disk.old disk.new log.old log.new result }
{
    // Proof only: lanes that are not called hold what they held.
    stands_read();
    let answer = match plan_quiet(site.alloc, log, now, site.topo.settings().quiet) {
        Ok(answer) => answer,
        Err(_) => {
            if log.is_broken() {
                return Err(LogFault::Reopen);
            }
            return Err(LogFault::Memory);
        }
    };
    match answer {
        Quieted::NotYet => Ok(None),
        Quieted::Marked { tick, fresh } => {
            let done = log_mark(site, disk, log, held, tick, &fresh, into);
            drop(fresh);
            done
        }
    }
}

/// Logs a mark as it was planned, where the log is not broken, and learns the silence up to it; answers its tick.
fn log_mark<D: Disk>(
    site: &Site<'_>,
    disk: &mut D,
    log: &mut Log,
    held: &mut Held,
    tick: u64,
    fresh: &Piece<K>,
    into: &mut Outcome,
) -> Result<Option<u64>, LogFault>
    requires at { IsAtHost site.now held.old }
    requires planned { IsPlannedMark log.old.state (Quieted.Marked tick fresh.now) }
    requires stands { IsReadyOn D.tells (D.lane_of disk.old) log.old }
    ensures tick { IfOk result (λ t. t ≡ Some tick) }
    ensures adds { OnOk result (let o : MachineOutcome = marking_by
        (shown_net site.now.topo.now held.old) site.now.publisher site.now.broker
        (held_view held.old) (said log.old) (Quieted.Marked tick fresh.now) in
        Adds o.lines o.frames into.old into.new) }
    ensures view { OnOk result (let o : MachineOutcome = marking_by
        (shown_net site.now.topo.now held.old) site.now.publisher site.now.broker
        (held_view held.old) (said log.old) (Quieted.Marked tick fresh.now) in held_view held.new ≡ o.view) }
    ensures part { KeepsPart site.now held.old held.new result }
    ensures log { Leaves log.old (appended (Record.Mark tick) log.old) (failed log.old) log.new result }
    ensures lane { let l = log.old in let before = lanes_at (D.lane_of disk.old) l.lane in
        D.tells → Appends l (Some (Record.Mark tick)) before (lanes_at (D.lane_of disk.new) l.lane) result }
    ensures reopen { ReopensBroken log.old result }
    ensures uses { UsesLog D.tells D.faultless D.lane_of D.faults D.stops disk.old disk.new log.old log.new result }
{
    if log.is_broken() {
        return Err(LogFault::Reopen);
    }
    match log_and_learn(site, disk, log, held, &Record::Mark { tick }, fresh, into) {
        Ok(()) => Ok(Some(tick)),
        Err(fault) => Err(fault),
    }
}

/// Puts the lines of a cut at the end of some lines: where the log is cut, and where it is written anew by that.
fn tell_cut(site: &Site<'_>, log: &Log, tick: u64, into: &mut Reports) -> Result<(), Memory>
    ensures { OnOk result (into.new ≡ into.old
        ++ cut_lines site.now.publisher site.now.topo.now.settings.reclaim (Some tick) (said log.now)) }
{
    let publisher = site.publisher;
    into.push(Report::Cut { publisher, tick })?;
    match plan_cut(log, site.topo.settings().reclaim) {
        Cutting::Recorded => Ok(()),
        Cutting::Reclaimed { generation } => into.push(Report::Reclaimed {
            publisher,
            generation,
        }),
    }
}

/// The lines of a mark and of a cut, where there is one.
fn lines_of(
    site: &Site<'_>,
    log: &Log,
    marked: Option<u64>,
    cut: Option<u64>,
) -> Result<Reports, Memory>
    ensures { IfOk result (λ lines. lines ≡ mark_lines site.now.publisher marked
        ++ cut_lines site.now.publisher site.now.topo.now.settings.reclaim cut (said log.now)) }
{
    let publisher = site.publisher;
    let mut lines = Reports::new(site.alloc);
    match marked {
        Some(tick) => lines.push(Report::Mark { publisher, tick })?,
        None => {}
    }
    match cut {
        Some(tick) => tell_cut(site, log, tick, &mut lines)?,
        None => {}
    }
    Ok(lines)
}

/// Puts the lines of a mark and of a cut before those that were told, and tells the children what to expect.
fn tell_wake(
    site: &Site<'_>,
    log: &Log,
    wants: &Wants,
    marked: Option<u64>,
    cut: Option<u64>,
    into: &mut Outcome,
) -> Result<(), Memory>
    requires site { IsSite site.now }
    ensures lines { OnOk result (into.new.reports ≡ mark_lines site.now.publisher marked
        ++ cut_lines site.now.publisher site.now.topo.now.settings.reclaim cut (said log.now) ++ into.old.reports) }
    ensures frames { OnOk result (AddsFrames (expected_frames site.now.publisher site.now.broker log.now.state.settled
        (children_of site.now.topo.now site.now.publisher site.now.broker)
        (runs_of wants.now)) into.old.frames into.new.frames) }
{
    // Proof only: what the log holds is in order.
    let _ = log.is_broken();
    let mut lines = lines_of(site, log, marked, cut)?;
    lines.append(&mut into.reports)?;
    into.reports = lines;
    let settled = log.settled();
    if settled == 0 {
        return Ok(());
    }
    expect_children(site, wants, settled, &mut into.frames)
}

/// Cuts the log, by a record or by writing it anew, and tells that before what was told, with the mark; the children
/// are told what to expect. It takes all its memory but that of the log before the disk is called.
fn cut_upto<D: Disk>(
    site: &Site<'_>,
    disk: &mut D,
    log: &mut Log,
    held: &Held,
    marked: Option<u64>,
    tick: u64,
    into: &mut Outcome,
) -> Result<(), LogFault>
    requires site { IsSite site.now }
    requires due { tick_cut (net_of site.now.topo.now) site.now.publisher site.now.broker (held_view held.now)
        (said log.old) ≡ Some tick }
    requires past { log.old.state.cut < tick }
    requires upto { tick ≤ log.old.state.settled }
    requires stands { IsReadyOn D.tells (D.lane_of disk.old) log.old }
    ensures lines { let due = tick_cut (net_of site.now.topo.now) site.now.publisher site.now.broker
        (held_view held.now) (said log.old) in
        OnOk result (into.new.reports ≡ mark_lines site.now.publisher marked
        ++ cut_lines site.now.publisher site.now.topo.now.settings.reclaim due (said log.old) ++ into.old.reports) }
    ensures frames { OnOk result (AddsFrames (expected_frames site.now.publisher site.now.broker
        log.old.state.settled
        (children_of site.now.topo.now site.now.publisher site.now.broker) (runs_of held.now.wants))
        into.old.frames into.new.frames) }
    ensures log { let reclaim = site.now.topo.now.settings.reclaim in
        Leaves log.old (cut_view reclaim tick log.old) (failed log.old) log.new result }
    ensures lane { let l = log.old in let before = lanes_at (D.lane_of disk.old) l.lane in
        let reclaim = site.now.topo.now.settings.reclaim in
        D.tells → Cuts l (Some tick) reclaim before (lanes_at (D.lane_of disk.new) l.lane) result }
    ensures reopen { ReopensBroken log.old result }
    ensures uses { UsesLog D.tells D.faultless D.lane_of D.faults D.stops disk.old disk.new log.old log.new result }
{
    if log.is_broken() {
        return Err(LogFault::Reopen);
    }
    // Proof only: lanes that are not called hold what they held.
    stands_read();
    match tell_wake(site, log, &held.wants, marked, Some(tick), into) {
        Ok(()) => {}
        Err(_) => return Err(LogFault::Memory),
    }
    match cut_log(log, disk, tick, site.topo.settings().reclaim) {
        Ok(_) => Ok(()),
        Err(fault) => Err(fault),
    }
}

/// The second half of a host's wake, after the mark: cuts the log if more is consolidated than was cut, and reports
/// both.
fn cut<D: Disk>(
    site: &Site<'_>,
    disk: &mut D,
    log: &mut Log,
    held: &Held,
    marked: Option<u64>,
    into: &mut Outcome,
) -> Result<(), LogFault>
    requires site { IsSite site.now }
    requires kept { IsKept (net_of site.now.topo.now) site.now.publisher site.now.broker (held_view held.now) }
    requires stands { IsReadyOn D.tells (D.lane_of disk.old) log.old }
    ensures lines { let due = tick_cut (net_of site.now.topo.now) site.now.publisher site.now.broker
        (held_view held.now) (said log.old) in
        OnOk result (into.new.reports ≡ mark_lines site.now.publisher marked
        ++ cut_lines site.now.publisher site.now.topo.now.settings.reclaim due (said log.old) ++ into.old.reports) }
    ensures frames { OnOk result (AddsFrames (expected_frames site.now.publisher site.now.broker
        log.old.state.settled
        (children_of site.now.topo.now site.now.publisher site.now.broker) (runs_of held.now.wants))
        into.old.frames into.new.frames) }
    ensures log { let due = tick_cut (net_of site.now.topo.now) site.now.publisher site.now.broker
        (held_view held.now) (said log.old) in
        Leaves log.old (cut_if due site.now.topo.now.settings.reclaim log.old) (failed log.old) log.new result }
    ensures lane { let l = log.old in let before = lanes_at (D.lane_of disk.old) l.lane in
        let reclaim = site.now.topo.now.settings.reclaim in
        let due = tick_cut (net_of site.now.topo.now) site.now.publisher site.now.broker
        (held_view held.now) (said l) in
        D.tells → Cuts l due reclaim before (lanes_at (D.lane_of disk.new) l.lane) result }
    ensures reopen { IsErrOf result LogFault.Reopen ↔ ((log.old.broken ≡ true)
        × IsSome (tick_cut (net_of site.now.topo.now) site.now.publisher site.now.broker (held_view held.now)
        (said log.old))) }
    ensures closed { log.old.broken ≡ true → disk.new ≡ disk.old }
    ensures uses { UsesLog D.tells D.faultless D.lane_of D.faults D.stops disk.old disk.new log.old log.new result }
{
    match cut_due(site, held, log) {
        Some(tick) => cut_upto(site, disk, log, held, marked, tick, into),
        None => match tell_wake(site, log, &held.wants, marked, None, into) {
            Ok(()) => Ok(()),
            Err(_) => Err(LogFault::Memory),
        },
    }
}

/// Wakes the host of a publisher, at the moment `now`: the machine's wake. The log is marked where it was silent for
/// long, then cut where more is consolidated than was cut, and the children are told what to expect.
///
/// After `Memory` the mark may be logged, and nothing else has changed. After `Disk` the mark may be logged, and the
/// log is broken. `Reopen` comes where a broken log would be written to, and then all is as before.
pub(crate) fn wake_host<D: Disk>(
    site: &Site<'_>,
    disk: &mut D,
    log: &mut Log,
    held: &mut Held,
    now: u64,
) -> Result<Outcome, LogFault>
    requires at { IsAtHost site.now held.old }
    requires now { now ≤ MAX_TICK }
    requires stands { IsReadyOn D.tells (D.lane_of disk.old) log.old }
    ensures told { IfOk result (λ told.
        Tells (wake_host (shown_net site.now.topo.now held.old) site.now.publisher site.now.broker now
        (held_view held.old) (said log.old)) told) }
    ensures leaves { let net : Net = shown_net site.now.topo.now held.old in
        let m : MachineOutcome = marking net site.now.publisher site.now.broker now (held_view held.old)
        (said log.old) in
        let marked : LogView = appended_if (quiet_logs (said log.old) now site.now.topo.now.settings.quiet) log.old in
        let cut = tick_cut (net_of site.now.topo.now) site.now.publisher site.now.broker m.view m.log in
        let woken : LogView = cut_if cut site.now.topo.now.settings.reclaim marked in
        WakeLeaves (host_with (held_view held.old) log.old) (host_with m.view marked) (host_with m.view woken)
        (host_with (held_view held.old) (failed log.old)) (host_with m.view (failed marked))
        (host_with (held_view held.new) log.new) result }
    ensures kept { IsKept (net_of site.now.topo.now) site.now.publisher site.now.broker (held_view held.new) }
    ensures elsewhere { held.new.log ≡ held.old.log }
    ensures lane { let net : Net = shown_net site.now.topo.now held.old in
        let m : MachineOutcome = marking net site.now.publisher site.now.broker now (held_view held.old)
        (said log.old) in
        let mark = quiet_logs (said log.old) now site.now.topo.now.settings.quiet in
        let cut = tick_cut (net_of site.now.topo.now) site.now.publisher site.now.broker m.view m.log in
        let l = log.old in let before = lanes_at (D.lane_of disk.old) l.lane in
        let reclaim = site.now.topo.now.settings.reclaim in
        D.tells → Wakes l mark cut reclaim before (lanes_at (D.lane_of disk.new) l.lane) result }
    ensures reopen { let net : Net = shown_net site.now.topo.now held.old in
        let m : MachineOutcome = marking net site.now.publisher site.now.broker now (held_view held.old)
        (said log.old) in
        let mark = quiet_logs (said log.old) now site.now.topo.now.settings.quiet in
        let cut = tick_cut (net_of site.now.topo.now) site.now.publisher site.now.broker m.view m.log in
        IsErrOf result LogFault.Reopen ↔ ((log.old.broken ≡ true) × (IsSome mark ⊎ IsSome cut)) }
    ensures closed { log.old.broken ≡ true → disk.new ≡ disk.old }
    ensures uses { UsesLog D.tells D.faultless D.lane_of D.faults D.stops disk.old disk.new log.old log.new result }
{
    // Proof only: a time of silence is at least 1, and what images of two lanes hold.
    let _ = site.topo.settings();
    may_leave_what_it_reads();
    shut_is();
    two_are();
    lower_is();
    let mut told = Outcome::new(site.alloc);
    let marked = match mark(site, disk, log, held, now, &mut told) {
        Ok(marked) => marked,
        Err(fault) => {
            drop(told);
            return Err(fault);
        }
    };
    match cut(site, disk, log, held, marked, &mut told) {
        Ok(()) => Ok(told),
        Err(fault) => {
            drop(told);
            Err(fault)
        }
    }
}
