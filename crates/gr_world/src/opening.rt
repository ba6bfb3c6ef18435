//! A world is opened over a disk, and a broker crashes and starts again.

ghost use Rattle.std.specs.Prelude.{◌≡◌, ◌≢◌, ◌⊎◌, ℕ, ◌<◌, true, false, [], ◌∷◌, length, Some, None, Err, IsErrOf};
ghost use Rattle.std.specs.Prelude.{IsSome, IfOk, OnOk};
ghost use Rattle.gr_out.specs.Stops.{StaysFaultless};
ghost use Rattle.gr_sched.specs.declared.step.Step.TheVariants as step;
ghost use Rattle.gr_topo.specs.Topology.{host_of, subscribers_of, not_empty};
ghost use Rattle.gr_model.specs.NetOf.{net_of};
ghost use Rattle.gr_model.specs.declared.report.Report.TheVariants as line;
ghost use Rattle.gr_model.specs.World.{World as MachineWorld, start_by, crash};
ghost use Rattle.gr_broker.specs.Lanes.{log_lane};
ghost use Rattle.gr_broker.specs.Opened.{LosesNothing};
ghost use Rattle.gr_world.specs.Seen.{net_in, world_of, log_at};
ghost use Rattle.gr_publog.specs.Views.{LogView, lanes_at};
ghost use Rattle.gr_world.specs.Of.{IsWorld, LaneFits, IsReadable, LanesFit, IsSound};
ghost use Rattle.gr_world.specs.Opened.{NoStops, AreEmpty, IsFound, IsLeft, IsOpened, IsSoundBut, Restarts, restart_over};
ghost use Rattle.gr_world.specs.Opened.{with_down, Crashes, IsFirstDamaged};
ghost use Rattle.gr_world.specs.Steps.{Makes, Refuses, Spends, Stays, Does, IsCarried, refused_at};
ghost use Rattle.gr_world.specs.Disk.{Counts, StaysSound, NotDisk, TakesDisk, LeavesOthers};
ghost use Rattle.gr_world.specs.Starting.{TouchesLanes};
ghost use Rattle.gr_world.specs.Fits.{Fits, GoesOn};

use crate::fault::{Memory, WorldFault, world_fault};
use crate::order::hosts_subscriber;
use crate::starting::{start_again, start_brokers};
use crate::world::World;
use gr_broker::BrokerFault;
use gr_model::topologies::every_topology_is_a_tree;
use gr_model::{Report, Reports};
use gr_out::SimDisk;
use gr_publog::law::{holds_what_is_found, stands_found, stands_read};
use gr_store::FrameStore;
use gr_topo::Topology;
use std::alloc::Global;
use std::cell::Cell;

/// Which broker is down after a start that failed: this one after a failure of the disk, else the one from before.
fn down_after(down: Option<u16>, b: u16, fault: BrokerFault) -> Option<u16>
    ensures failed { fault ≡ BrokerFault.Disk → result ≡ Some b }
    ensures other { fault ≢ BrokerFault.Disk → result ≡ down }
{
    match fault {
        BrokerFault::Disk => Some(b),
        _ => down,
    }
}

/// Whether a broker may crash: no other one is down.
fn may_crash(down: Option<u16>, b: u16) -> bool
    ensures may { result ≡ true → (down ≡ None) ⊎ (down ≡ Some b) }
    ensures other { result ≡ false → (c : ℕ) × ((down ≡ Some c) × (c ≢ b)) }
{
    match down {
        None => true,
        Some(other) => other == b,
    }
}

/// The line of a crash, and behind it those of the opening.
fn crash_lines(alloc: Global, b: u16, mut opened: Reports) -> Result<Reports, Memory>
    ensures { IfOk result (λ lines. lines ≡ line.Crashed b ∷ opened) }
{
    let mut lines = Reports::new(alloc);
    lines.push(Report::Crashed { broker: b })?;
    lines.append(&mut opened)?;
    Ok(lines)
}

impl World {
    /// Opens a world over a disk: each broker starts, in order, over the logs that its lanes hold. The clock is 0.
    ///
    /// `Damaged` names the first publisher, broker by broker, whose lanes hold no log. `Disk` only where the disk
    /// failed in this call. No other fault but `Memory` comes. After each fault the lanes hold what they held.
    pub fn new<D: SimDisk>(
        alloc: Global,
        topology: Topology,
        disk: &mut D,
    ) -> Result<World, WorldFault>
        ensures opened { IfOk result (IsOpened topology) }
        ensures fits { IfOk result IsWorld }
        // The logs are those that the lanes hold
        ensures found { IfOk result (λ w. (p : ℕ) → p < length topology.publishers
            → IsFound topology.late (log_at w p) (lanes_at (D.lane_of disk.old) (log_lane p))) }
        // Over empty lanes it is the machine's world before the first step, and nothing is told
        ensures fresh { AreEmpty topology (D.lane_of disk.old)
            → IfOk result (λ w. (world_of w ≡ start_by true (net_of topology)) × (w.told ≡ [])) }
        // so that it fits a run of no steps
        ensures fits_nothing { NoStops (D.lane_of disk.old) → AreEmpty topology (D.lane_of disk.old)
            → IfOk result (λ w. Fits w (D.lane_of disk.new) [] ([] ∷ [])) }
        ensures damaged { (p at : ℕ) → result ≡ Err (WorldFault.Damaged p at)
            → IsFirstDamaged topology p at (D.lane_of disk.old) }
        // After a fault too no lane is touched but those of the publishers, and these have lost nothing at any moment
        ensures others { LeavesOthers topology (D.lane_of disk.old) (D.lane_of disk.new) }
        ensures any_moment { (p : ℕ) → p < length topology.publishers
            → LosesNothing topology.late (lanes_at (D.lane_of disk.old) (log_lane p))
            (lanes_at (D.lane_of disk.new) (log_lane p)) }
        ensures never_reopen { result ≢ Err WorldFault.Reopen }
        ensures carried { (b s at : ℕ) → (result ≢ Err (WorldFault.HostsSubscriber b))
            × ((result ≢ Err (WorldFault.NoFrame s)) × (result ≢ Err (WorldFault.ClockRange at))) }
        ensures counts { Counts (D.faults disk.old) (D.stops disk.old) (D.faults disk.new) (D.stops disk.new) result }
        ensures faultless { StaysFaultless (D.faultless disk.old) (D.faultless disk.new)
            (D.faults disk.old) (D.faults disk.new) }
        ensures never_fails { NoStops (D.lane_of disk.old) → D.faultless disk.old
            → result ≢ Err WorldFault.Disk }
        ensures lanes { NoStops (D.lane_of disk.old) → IfOk result (λ w. LanesFit (D.lane_of disk.new) w) }
    {
        // Proof only: the topology is a tree, and lanes in which a log stands hold it.
        every_topology_is_a_tree(&topology);
        stands_read();
        let opened = match start_brokers(alloc, &topology, disk) {
            Ok(opened) => opened,
            Err(fault) => return Err(world_fault(fault)),
        };
        Ok(World {
            alloc,
            topology,
            brokers: opened.brokers,
            frames: FrameStore::new(alloc),
            clock: 0,
            most: 0,
            told: opened.told,
            last: Cell::new(0),
            down: None,
            spent: false,
        })
    }

    /// Crashes the lanes of a broker's publishers and starts it again, where no subscriber is at it. Gives the lines of
    /// the opening. After `Disk` the broker is down.
    pub(crate) fn restart<D: SimDisk>(
        &mut self,
        disk: &mut D,
        b: u16,
    ) -> Result<Reports, WorldFault>
        requires fits { IsWorld self.old }
        requires broker { b < length self.old.topo.brokers }
        requires no_subscriber { not_empty (subscribers_of self.old.topo b) ≡ false }
        requires unspent { self.old.spent ≡ false }
        requires down { (self.old.down ≡ None) ⊎ (self.old.down ≡ Some b) }
        requires readable { (p : ℕ) → p < length self.old.topo.publishers
            → IsReadable self.old.topo.late (lanes_at (D.lane_of disk.old) (log_lane p)) }
        requires others { (p : ℕ) (l : LogView) → p < length self.old.topo.publishers
            → host_of self.old.topo p ≢ b → log_at self.old p ≡ Some l
            → LaneFits l (lanes_at (D.lane_of disk.old) (log_lane p)) }
        ensures does { Does (let w : MachineWorld = world_of self.new in
            restart_over (net_in self.old) (world_of self.old) b w.logs) self.new result }
        ensures restarts { Restarts b self.old self.new result }
        // The logs of the broker are those that the crash left
        ensures found { let late = self.old.topo.late in OnOk result ((p : ℕ) → p < length self.old.topo.publishers
            → host_of self.old.topo p ≡ b
            → IsLeft late (log_at self.new p) (lanes_at (D.lane_of disk.old) (log_lane p))) }
        ensures fits { IsWorld self.new }
        ensures faults { (e : WorldFault) → result ≡ Err e → (e ≡ WorldFault.Memory) ⊎ (e ≡ WorldFault.Disk) }
        ensures disk { TakesDisk D.faultless D.faults D.stops disk.old disk.new result }
        ensures touches { TouchesLanes self.old.topo b (D.lane_of disk.old) (D.lane_of disk.new) }
        // but after want of memory, when no call uses the lanes any more
        ensures lanes { (result ≢ Err WorldFault.Memory) → LanesFit (D.lane_of disk.new) self.new }
    {
        // Proof only: what two lanes hold is what they stand for.
        holds_what_is_found();
        match start_again(self.alloc, &self.topology, &mut self.brokers, disk, b) {
            Ok(lines) => {
                self.down = None;
                Ok(lines)
            }
            Err(fault) => {
                self.down = down_after(self.down, b, fault);
                Err(world_fault(fault))
            }
        }
    }

    /// Crashes a broker that hosts no subscriber, where no other one is down, and starts it again.
    fn crash_at<D: SimDisk>(&mut self, disk: &mut D, b: u16) -> Result<Reports, WorldFault>
        requires fits { IsWorld self.old }
        requires broker { b < length self.old.topo.brokers }
        requires no_subscriber { not_empty (subscribers_of self.old.topo b) ≡ false }
        requires unspent { self.old.spent ≡ false }
        requires down { (self.old.down ≡ None) ⊎ (self.old.down ≡ Some b) }
        requires lanes { LanesFit (D.lane_of disk.old) self.old }
        ensures does { IsSound self.old
            → Does (crash (net_in self.old) (world_of self.old) b) self.new result }
        ensures crashes { IfOk result (Crashes b (D.lane_of disk.old) self.old self.new) }
        ensures stays { Stays self.old self.new }
        ensures unspent { self.new.spent ≡ false }
        ensures up { OnOk result (self.new.down ≡ None) }
        ensures restarts { OnOk result (IsSoundBut b self.old → IsSound self.new) }
        ensures sound { IsSound self.old → NotDisk result → IsSound self.new }
        ensures fits { IsWorld self.new }
        ensures failed { IsErrOf result WorldFault.Disk → self.new ≡ with_down self.old b }
        ensures carried { IsCarried result }
        ensures never_reopen { result ≢ Err WorldFault.Reopen }
        ensures disk { TakesDisk D.faultless D.faults D.stops disk.old disk.new result }
        ensures touches { TouchesLanes self.old.topo b (D.lane_of disk.old) (D.lane_of disk.new) }
        ensures lanes { (result ≢ Err WorldFault.Memory) → LanesFit (D.lane_of disk.new) self.new }
    {
        // Proof only: what a crash leaves of lanes in which a log stands stands for it.
        stands_found();
        let opened = match self.restart(disk, b) {
            Ok(opened) => opened,
            Err(fault) => return Err(fault),
        };
        match crash_lines(self.alloc, b, opened) {
            Ok(lines) => Ok(lines),
            Err(_) => Err(WorldFault::Memory),
        }
    }

    /// Crashes a broker and starts it again: what it knew and asked is gone, and its publishers' logs are opened again,
    /// as the disk's crash leaves them.
    ///
    /// `HostsSubscriber` exactly where a subscriber is at the broker; then nothing has changed. After `Disk` the broker
    /// is down: each call that changes brokers answers `Reopen`, but for another crash of this broker. `Reopen` where
    /// another broker is down.
    pub fn crash<D: SimDisk>(&mut self, disk: &mut D, b: u16) -> Result<Reports, WorldFault>
        requires fits { IsWorld self.old }
        requires broker { b < length self.old.topo.brokers }
        requires lanes { LanesFit (D.lane_of disk.old) self.old }
        // Where the disk has failed no log, it is the machine's crash
        ensures makes { IsSound self.old → Makes (step.Crash b) self.old self.new result }
        // and where it has failed some, it is so over the logs that the crash leaves
        ensures crashes { IfOk result (Crashes b (D.lane_of disk.old) self.old self.new) }
        // With its step and lines it goes on with the run that led here
        ensures goes_on { GoesOn (step.Crash b) (D.lane_of disk.old) (D.lane_of disk.new)
            self.old self.new result }
        ensures refused { Refuses (step.Crash b) self.old self.new result }
        ensures memory { Spends self.old self.new result }
        ensures closed { self.old.spent ≡ false → refused_at self.old (step.Crash b) ≡ None
            → (c : ℕ) → self.old.down ≡ Some c → c ≢ b → IsErrOf result WorldFault.Reopen }
        // `Reopen` only where another broker is down; nothing has changed then
        ensures reopen { IsErrOf result WorldFault.Reopen → (c : ℕ) × ((self.old.down ≡ Some c) × (c ≢ b)) }
        ensures unchanged { IsErrOf result WorldFault.Reopen → (self.new ≡ self.old) × (disk.new ≡ disk.old) }
        // Where the disk fails, the broker is down and all else stands
        ensures failed { IsErrOf result WorldFault.Disk → self.new ≡ with_down self.old b }
        ensures up { OnOk result (self.new.down ≡ None) }
        ensures restarts { OnOk result (IsSoundBut b self.old → IsSound self.new) }
        ensures stays { Stays self.old self.new }
        ensures fits { IsWorld self.new }
        ensures sound { StaysSound self.old self.new result }
        ensures disk { TakesDisk D.faultless D.faults D.stops disk.old disk.new result }
        // At every moment since the crash the lanes of the broker hold what it has left
        ensures touches { (disk.new ≡ disk.old)
            ⊎ TouchesLanes self.old.topo b (D.lane_of disk.old) (D.lane_of disk.new) }
        ensures idle { (self.old.spent ≡ true) ⊎ IsSome (refused_at self.old (step.Crash b)) → disk.new ≡ disk.old }
        ensures lanes { LanesFit (D.lane_of disk.new) self.new }
    {
        if self.spent {
            return Err(WorldFault::Memory);
        }
        if hosts_subscriber(&self.topology, b) {
            return Err(WorldFault::HostsSubscriber { broker: b });
        }
        if !may_crash(self.down, b) {
            return Err(WorldFault::Reopen);
        }
        let answer = self.crash_at(disk, b);
        self.noted(answer)
    }
}
