//! A publish that stops inside.

ghost use Rattle.std.specs.Prelude.{◌≡◌, ◌≢◌, ◌⊎◌, ◌↔◌, ℕ, ◌∷◌, ◌<◌, ◌≤◌, nat_eq, false, List, length, Some, None};
ghost use Rattle.std.specs.Prelude.{Ok, Err, IsErrOf, IsSome, IfOk, OnOk};
ghost use Rattle.gr_out.specs.Stops.{StaysFaultless};
ghost use Rattle.gr_sched.specs.declared.step.Step.TheVariants as step;
ghost use Rattle.gr_publog.specs.State.{IsState};
ghost use Rattle.gr_publog.specs.Views.{LogView, lanes_at, AwayFrom};
ghost use Rattle.gr_pubend.specs.Log.{said};
ghost use Rattle.gr_topo.specs.Topology.{host_of, subscribers_of, not_empty};
ghost use Rattle.gr_model.specs.declared.report.Report.{Report};
ghost use Rattle.gr_model.specs.declared.report.Report.TheVariants.{Crashed};
ghost use Rattle.gr_model.specs.World.{World as MachineWorld, publish_now, publish_stopped};
ghost use Rattle.gr_broker.specs.Lanes.{log_lane};
ghost use Rattle.gr_broker.specs.Seen.{log_said};
ghost use Rattle.gr_world.specs.Seen.{net_in, world_of, log_at};
ghost use Rattle.gr_world.specs.Of.{IsWorld, LaneFits, IsReadable, LanesFit, IsSound};
ghost use Rattle.gr_world.specs.Opened.{IsLeft};
ghost use Rattle.gr_world.specs.Ran.{IsOpen, Ran};
ghost use Rattle.gr_world.specs.Steps.{Makes, Refuses, Spends, Stays, Does, IsCarried, NotMemory, refused_at};
ghost use Rattle.gr_world.specs.Disk.{Counts, StaysSound, IsClosed, IsBarred, IsIdle, TakesDisk};
ghost use Rattle.gr_world.specs.Starting.{TouchesLanes};
ghost use Rattle.gr_world.specs.Moments.{CallsLanes, StopsLanes};
ghost use Rattle.gr_world.specs.Fits.{GoesOn};
ghost use Rattle.gr_world.specs.Stopped.{tick_in, is_broken_by, lines_in, broken_in, BreaksStopped, IsStoppedAt};
ghost use Rattle.gr_world.specs.Stopped.{kept_line, stopped_over, StopsOver, StopRan, StopRestarts};

use crate::fault::{Memory, WorldFault};
use crate::order::hosts_subscriber;
use crate::pair::{is_stopped, stop_both};
use crate::sending::take_answer;
use crate::world::World;
use gr_broker::{BrokerFault, Outcome};
use gr_event::Event;
use gr_model::topologies::every_topology_is_a_tree;
use gr_model::{Report, Reports};
use gr_out::SimDisk;
use gr_publog::Log;
use gr_publog::law::{stands_found, stands_read};
use gr_sched::Stop;
use gr_tick::MAX_TICK;
use std::alloc::Global;

/// The tick at which an event of this number would be logged behind a log, at a moment. None where none would be.
fn tick_logged(log: &Log, number: u64, now: u64) -> Option<u64>
    requires { IsState log.now.state }
    ensures { result ≡ tick_in (said log.now) number now }
{
    let last = log.last();
    let settled = log.settled();
    if number <= last || number - last > 1 {
        return None;
    }
    if settled >= MAX_TICK || now > MAX_TICK {
        return None;
    }
    Some(now.max(settled + 1))
}

/// Whether it was the stop that broke a publish, given whether one of its lanes is stopped.
fn is_broken_by(answer: &Result<Outcome, BrokerFault>, stopped: bool) -> bool
    ensures { result ≡ is_broken_by answer.now stopped }
{
    match answer {
        Err(BrokerFault::Disk) => stopped,
        _ => false,
    }
}

/// The lines of a publish that was stopped, before those of its host's opening.
fn lines_of_stop(alloc: Global, host: u16, kept: Report, opened: Reports) -> Result<Reports, Memory>
    ensures { IfOk result (λ lines. lines ≡ Crashed host ∷ (kept ∷ opened)) }
{
    let mut opened = opened;
    let mut lines = Reports::new(alloc);
    lines.push(Report::Crashed { broker: host })?;
    lines.push(kept)?;
    lines.append(&mut opened)?;
    Ok(lines)
}

/// The line that tells whether the event of a stopped publish is kept: its number is then the last one of the log.
fn line_of_stop(log: &Log, p: u16, number: u64, tick: u64) -> Report
    ensures { result ≡ kept_line (nat_eq log.now.state.last number) p number tick }
{
    if log.last() == number {
        Report::Kept {
            publisher: p,
            number,
            tick,
        }
    } else {
        Report::Lost {
            publisher: p,
            number,
            tick,
        }
    }
}

impl World {
    /// Publishes an event that stops at a disk call, from 1 to 4, within: the publisher's host crashes there, and
    /// starts again over the picked image, with the event kept or lost. A publish that logs nothing is not stopped.
    ///
    /// `HostsSubscriber` exactly where a subscriber is at the host; then nothing has changed. `Disk` where a call of
    /// the disk failed that the stop did not break, and no stop is left then, and the log answers `Reopen` until its
    /// broker crashes; or where the host's opening failed, and then it is down.
    pub fn publish_stopped<D: SimDisk>(
        &mut self,
        disk: &mut D,
        p: u16,
        number: u64,
        event: &Event,
        stop: &Stop,
    ) -> Result<Reports, WorldFault>
        requires fits { IsWorld self.old }
        requires publisher { p < length self.old.topo.publishers }
        requires first { 1 ≤ stop.now.call }
        requires last { stop.now.call ≤ 4 }
        requires lanes { LanesFit (D.lane_of disk.old) self.old }
        ensures makes { IsSound self.old
            → Makes (step.Publish p number (Some stop.now) event.now) self.old self.new result }
        // Where it was stopped it is so over the logs that are left, also where the disk had failed some; and where it
        // logs nothing it is the machine's publish
        ensures stops { (tick : ℕ) → tick_in (log_said (log_at self.old p)) number self.old.clock ≡ Some tick
            → IfOk result (StopsOver p tick number event.now stop.now.call stop.now.pick (D.lane_of disk.old)
            self.old self.new) }
        ensures passes { tick_in (log_said (log_at self.old p)) number self.old.clock ≡ None
            → Does (publish_now (net_in self.old) (world_of self.old) p number event.now) self.new result }
        // With its step and lines it goes on with the run that led here
        ensures goes_on { GoesOn (step.Publish p number (Some stop.now) event.now) (D.lane_of disk.old)
            (D.lane_of disk.new) self.old self.new result }
        ensures refused { Refuses (step.Publish p number (Some stop.now) event.now) self.old self.new result }
        ensures memory { Spends self.old self.new result }
        ensures closed { self.old.spent ≡ false
            → refused_at self.old (step.Publish p number (Some stop.now) event.now) ≡ None
            → IsClosed self.old self.new result }
        // `Reopen` exactly where a broker is down, or the disk has failed the log; nothing has changed then
        ensures reopen { self.old.spent ≡ false
            → refused_at self.old (step.Publish p number (Some stop.now) event.now) ≡ None
            → (IsErrOf result WorldFault.Reopen ↔ (IsSome self.old.down ⊎ IsBarred self.old p number event.now)) }
        ensures unchanged { IsErrOf result WorldFault.Reopen → self.new ≡ self.old }
        // Where the disk fails the log is broken; where it fails the host's opening, the host is down besides
        ensures failed { let host = host_of self.old.topo p in IsErrOf result WorldFault.Disk
            → BreaksStopped host p self.old self.new }
        ensures stays { Stays self.old self.new }
        ensures fits { IsWorld self.new }
        ensures sound { NotMemory result → StaysSound self.old self.new result }
        ensures disk { TakesDisk D.faultless D.faults D.stops disk.old disk.new result }
        // The lanes are called as by a publish, and where it was stopped the host crashes and starts again behind that
        ensures calls { let host = host_of self.old.topo p in
            StopsLanes self.old.topo host (D.lane_of disk.old) (D.lane_of disk.new) }
        ensures idle { IsIdle self.old (step.Publish p number (Some stop.now) event.now) → disk.new ≡ disk.old }
        ensures lanes { LanesFit (D.lane_of disk.new) self.new }
    {
        if self.spent {
            return Err(WorldFault::Memory);
        }
        let host = self.topology.host(p);
        if hosts_subscriber(&self.topology, host) {
            return Err(WorldFault::HostsSubscriber { broker: host });
        }
        if self.down.is_some() {
            return Err(WorldFault::Reopen);
        }
        let answer = self.publish_or_stop(disk, host, p, number, event, stop);
        self.noted(answer)
    }

    /// The same where no subscriber is at the host and no broker is down.
    fn publish_or_stop<D: SimDisk>(
        &mut self,
        disk: &mut D,
        host: u16,
        p: u16,
        number: u64,
        event: &Event,
        stop: &Stop,
    ) -> Result<Reports, WorldFault>
        requires host { host ≡ host_of self.old.topo p }
        requires fits { IsWorld self.old }
        requires publisher { p < length self.old.topo.publishers }
        requires broker { host < length self.old.topo.brokers }
        requires no_subscriber { not_empty (subscribers_of self.old.topo host) ≡ false }
        requires open { IsOpen self.old }
        requires first { 1 ≤ stop.now.call }
        requires last { stop.now.call ≤ 4 }
        requires lanes { LanesFit (D.lane_of disk.old) self.old }
        ensures does { IsSound self.old → (n : ℕ)
            → Does (publish_stopped (net_in self.old) (world_of self.old) n p number stop.now event.now)
            self.new result }
        ensures stops { (tick : ℕ) → tick_in (log_said (log_at self.old p)) number self.old.clock ≡ Some tick
            → IfOk result (StopsOver p tick number event.now stop.now.call stop.now.pick (D.lane_of disk.old)
            self.old self.new) }
        ensures passes { tick_in (log_said (log_at self.old p)) number self.old.clock ≡ None
            → Does (publish_now (net_in self.old) (world_of self.old) p number event.now) self.new result }
        ensures ran { StopRan self.old self.new result }
        ensures reopen { IsErrOf result WorldFault.Reopen ↔ IsBarred self.old p number event.now }
        ensures unchanged { IsErrOf result WorldFault.Reopen → self.new ≡ self.old }
        ensures failed { IsErrOf result WorldFault.Disk → BreaksStopped host p self.old self.new }
        ensures carried { IsCarried result }
        ensures disk { TakesDisk D.faultless D.faults D.stops disk.old disk.new result }
        ensures calls { StopsLanes self.old.topo host (D.lane_of disk.old) (D.lane_of disk.new) }
        ensures lanes { result ≢ Err WorldFault.Memory → LanesFit (D.lane_of disk.new) self.new }
    {
        // Proof only: what a crash leaves of lanes in which a log stands stands for it.
        stands_found();
        let log = self.log_here(host, p);
        let Some(tick) = tick_logged(log, number, self.clock) else {
            return self.publish_at_host(disk, p, number, event);
        };
        match self.publish_to_stop(disk, host, p, number, event, stop) {
            Ok(None) => self.start_stopped(disk, host, p, number, tick),
            Ok(Some(lines)) => Ok(lines),
            Err(fault) => Err(fault),
        }
    }

    /// Publishes an event that would be logged up to the ordered stop. `None` if the append was stopped: the log must
    /// then be opened again. Otherwise no stop is left.
    fn publish_to_stop<D: SimDisk>(
        &mut self,
        disk: &mut D,
        host: u16,
        p: u16,
        number: u64,
        event: &Event,
        stop: &Stop,
    ) -> Result<Option<Reports>, WorldFault>
        requires fits { IsWorld self.old }
        requires publisher { p < length self.old.topo.publishers }
        requires host { host ≡ host_of self.old.topo p }
        requires broker { host < length self.old.topo.brokers }
        requires open { IsOpen self.old }
        requires next { IsSome (tick_in (log_said (log_at self.old p)) number self.old.clock) }
        requires first { 1 ≤ stop.now.call }
        requires last { stop.now.call ≤ 4 }
        requires lanes { LanesFit (D.lane_of disk.old) self.old }
        ensures ran { Ran self.old self.new (lines_in result) }
        ensures reopen { IsErrOf (lines_in result) WorldFault.Reopen ↔ IsBarred self.old p number event.now }
        ensures unchanged { IsErrOf (lines_in result) WorldFault.Reopen → self.new ≡ self.old }
        ensures failed { IsErrOf (lines_in result) WorldFault.Disk → self.new ≡ broken_in self.old host p }
        // Where the stop broke it, all is as before but for the log, and the lanes are left as the call and the pick
        // tell
        ensures broken { result ≡ Ok None → self.new ≡ broken_in self.old host p }
        ensures stopped { result ≡ Ok None → (tick : ℕ)
            → tick_in (log_said (log_at self.old p)) number self.old.clock ≡ Some tick
            → IsStoppedAt self.old p tick number event.now stop.now.call stop.now.pick
            (lanes_at (D.lane_of disk.new) (log_lane p)) }
        ensures never_through { (lines : List Report) → result ≢ Ok (Some lines) }
        ensures others { (n : ℕ) → AwayFrom (log_lane p) n → D.lane_of disk.new n ≡ D.lane_of disk.old n }
        ensures calls { CallsLanes self.old.topo (D.lane_of disk.old) (D.lane_of disk.new) }
        ensures counts { let f = D.faults disk.old in let s = D.stops disk.old in
            Counts f s (D.faults disk.new) (D.stops disk.new) (lines_in result) }
        ensures faultless { StaysFaultless (D.faultless disk.old) (D.faultless disk.new)
            (D.faults disk.old) (D.faults disk.new) }
        ensures never_fails { D.faultless disk.old → result ≢ Err WorldFault.Disk }
        ensures lanes { result ≢ Ok None → LanesFit (D.lane_of disk.new) self.new }
    {
        // Proof only: frames go over edges, each publisher has lanes, and lanes in which a log stands read as it.
        every_topology_is_a_tree(&self.topology);
        stands_read();
        let _ = self.topology.publishers();
        stop_both(disk, p, stop.call, stop.pick);
        let broker = &mut self.brokers[host as usize];
        let answer = broker.publish(&self.topology, disk, p, number, event, self.clock);
        if is_broken_by(&answer, is_stopped(disk, p)) {
            drop(answer);
            return Ok(None);
        }
        stop_both(disk, p, 0, 0);
        match take_answer(&mut self.frames, answer) {
            Ok(lines) => Ok(Some(lines)),
            Err(fault) => Err(fault),
        }
    }

    /// Starts the host again after a publish that was stopped, over what its lanes hold.
    fn start_stopped<D: SimDisk>(
        &mut self,
        disk: &mut D,
        host: u16,
        p: u16,
        number: u64,
        tick: u64,
    ) -> Result<Reports, WorldFault>
        requires fits { IsWorld self.old }
        requires publisher { p < length self.old.topo.publishers }
        requires host { host ≡ host_of self.old.topo p }
        requires broker { host < length self.old.topo.brokers }
        requires no_subscriber { not_empty (subscribers_of self.old.topo host) ≡ false }
        requires open { IsOpen self.old }
        requires readable { (q : ℕ) → q < length self.old.topo.publishers
            → IsReadable self.old.topo.late (lanes_at (D.lane_of disk.old) (log_lane q)) }
        requires others { (q : ℕ) (l : LogView) → q < length self.old.topo.publishers
            → host_of self.old.topo q ≢ host → log_at self.old q ≡ Some l
            → LaneFits l (lanes_at (D.lane_of disk.old) (log_lane q)) }
        ensures does { let w : MachineWorld = world_of self.new in
            Does (stopped_over (net_in self.old) (world_of self.old) host p number tick w.logs) self.new result }
        ensures ran { StopRestarts host self.old self.new result }
        ensures found { let late = self.old.topo.late in OnOk result ((q : ℕ) → q < length self.old.topo.publishers
            → host_of self.old.topo q ≡ host
            → IsLeft late (log_at self.new q) (lanes_at (D.lane_of disk.old) (log_lane q))) }
        ensures elsewhere { OnOk result ((q : ℕ) → q < length self.old.topo.publishers
            → host_of self.old.topo q ≢ host → log_at self.new q ≡ log_at self.old q) }
        ensures faults { D.faults disk.old ≤ D.faults disk.new }
        ensures stops { D.stops disk.old ≤ D.stops disk.new }
        ensures faultless { StaysFaultless (D.faultless disk.old) (D.faultless disk.new)
            (D.faults disk.old) (D.faults disk.new) }
        ensures never_fails { D.faultless disk.old → result ≢ Err WorldFault.Disk }
        ensures touches { TouchesLanes self.old.topo host (D.lane_of disk.old) (D.lane_of disk.new) }
        ensures lanes { result ≢ Err WorldFault.Memory → LanesFit (D.lane_of disk.new) self.new }
    {
        match self.restart(disk, host) {
            Ok(opened) => self.tell_stopped(host, p, number, tick, opened),
            Err(fault) => Err(fault),
        }
    }

    /// The lines of a publish that was stopped, once its host has started again.
    fn tell_stopped(
        &self,
        host: u16,
        p: u16,
        number: u64,
        tick: u64,
        opened: Reports,
    ) -> Result<Reports, WorldFault>
        requires fits { IsWorld self.now }
        requires publisher { p < length self.now.topo.publishers }
        requires host { host ≡ host_of self.now.topo p }
        requires broker { host < length self.now.topo.brokers }
        ensures lines { let last = (log_said (log_at self.now p)).last in
            IfOk result (λ lines. lines
            ≡ Crashed host ∷ (kept_line (nat_eq last number) p number tick ∷ opened)) }
        ensures memory { (e : WorldFault) → result ≡ Err e → e ≡ WorldFault.Memory }
    {
        let kept = line_of_stop(self.log_here(host, p), p, number, tick);
        match lines_of_stop(self.alloc, host, kept, opened) {
            Ok(lines) => Ok(lines),
            Err(_) => Err(WorldFault::Memory),
        }
    }

    /// The log of a publisher, at its host.
    fn log_here(&self, host: u16, p: u16) -> &Log
        requires fits { IsWorld self.now }
        requires publisher { p < length self.now.topo.publishers }
        requires host { host ≡ host_of self.now.topo p }
        requires broker { host < length self.now.topo.brokers }
        ensures log { log_at self.now p ≡ Some result.now }
        ensures state { IsState result.now.state }
    {
        let log = self.brokers[host as usize].log(p);
        let _ = log.is_broken();
        log
    }
}
