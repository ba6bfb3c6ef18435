//! A sweep: the clock moves far ahead, and everything settles.

ghost use Rattle.std.specs.Prelude.{◌≡◌, ◌⊎◌, ℕ, ◌<◌, ◌≤◌, false, List, length, None, Err, IsErr, IsErrOf};
ghost use Rattle.std.specs.Prelude.{IsSome, IfOk};
ghost use Rattle.gr_sched.specs.declared.step.Line.{Line};
ghost use Rattle.gr_sched.specs.declared.step.Step.TheVariants as step;
ghost use Rattle.gr_model.specs.declared.report.Report.{Report as MachineReport};
ghost use Rattle.gr_model.specs.Net.{numbers};
ghost use Rattle.gr_model.specs.World.{inwards, outwards, wake_up, hand_down, in_turn, sweep_for, sweep_moment, log_of};
ghost use Rattle.gr_world.specs.Seen.{net_in, world_of};
ghost use Rattle.gr_world.specs.Of.{IsWorld, LanesFit};
ghost use Rattle.gr_world.specs.Steps.{Makes, Refuses, Spends, Stays, Does, refused_at};
ghost use Rattle.gr_world.specs.Ran.{IsOpen, Ran};
ghost use Rattle.gr_world.specs.Disk.{StaysSound, IsClosed, IsWakeBarred, HasBroken, ReopensWhere, IsIdle, TakesDisk};
ghost use Rattle.gr_world.specs.Moments.{CallsLanes};
ghost use Rattle.gr_world.specs.Ended.{IsEnd, WakeEnds, EndsAt, WakesEnd, PhasesEnd, SweepEnds};
ghost use Rattle.gr_world.specs.Fits.{Fits, GoesOn, SettlesAll};
ghost use Rattle.gr_world.specs.Sweeps.{AreBrokers, Delivers, HasHost, IsDue, at_moment, phases, swept};

use crate::delivering::joined;
use crate::fault::{Memory, WorldFault};
use crate::order::{deepest_first, host_first};
use crate::world::World;
use gr_event::Numbers;
use gr_model::topologies::every_topology_is_a_tree;
use gr_model::{Report, Reports};
use gr_out::SimDisk;
use gr_tick::MAX_TICK;

impl World {
    /// The greatest tick that a publisher's log has settled. Takes no memory.
    fn settled(&self, p: u16) -> u64
        requires fits { IsWorld self.now }
        requires publisher { p < length self.now.topo.publishers }
        ensures tick { result ≡ (log_of (world_of self.now) p).settled }
        ensures upto { result ≤ MAX_TICK }
    {
        let broker = &self.brokers[self.topology.host(p) as usize];
        let log = broker.log(p);
        // Proof only: the records follow one another.
        let _ = log.is_broken();
        log.settled()
    }

    /// The moment of a sweep: every ask is due again then, and every log is silent for long. Takes no memory.
    fn sweep_moment(&self) -> u64
        requires { IsWorld self.now }
        ensures { result ≡ sweep_moment (net_in self.now) (world_of self.now) }
    {
        let settings = self.topology.settings();
        let mut greatest = self.most;
        'publishers: for p in 0..self.topology.publishers() {
            greatest = greatest.max(self.settled(p));
        }
        greatest + settings.gap + settings.idle + settings.retry + settings.quiet + 1
    }

    /// Moves the clock. Takes no memory.
    fn move_clock(&mut self, moment: u64)
        ensures { self.new ≡ at_moment self.old moment }
    {
        self.clock = moment;
        self.most = moment.max(self.most);
    }

    /// How many brokers there are. Takes no memory.
    fn broker_count(&self) -> u16
        ensures { result ≡ length self.now.topo.brokers }
    {
        self.topology.brokers()
    }

    /// How many publishers there are. Takes no memory.
    fn publisher_count(&self) -> u16
        ensures { result ≡ length self.now.topo.publishers }
    {
        self.topology.publishers()
    }

    /// All brokers by falling depth below a publisher's host.
    fn inwards(&self, p: u16) -> Result<Numbers, Memory>
        requires { p < length self.now.topo.publishers }
        ensures { IfOk result (λ n. n ≡ inwards (net_in self.now) p) }
    {
        deepest_first(self.alloc, &self.topology, p)
    }

    /// All brokers by rising depth below a publisher's host.
    fn outwards(&self, p: u16) -> Result<Numbers, Memory>
        requires { p < length self.now.topo.publishers }
        ensures { IfOk result (λ n. n ≡ outwards (net_in self.now) p) }
    {
        host_first(self.alloc, &self.topology, p)
    }

    /// Wakes a broker for a publisher, and delivers the curiosity that this sends at once.
    fn wake_up<D: SimDisk>(&mut self, disk: &mut D, p: u16, b: u16) -> Result<Reports, WorldFault>
        requires fits { IsWorld self.old }
        requires broker { b < length self.old.topo.brokers }
        requires publisher { p < length self.old.topo.publishers }
        requires open { IsOpen self.old }
        requires lanes { LanesFit (D.lane_of disk.old) self.old }
        ensures does { Does (wake_up (net_in self.old) p (world_of self.old) b) self.new result }
        ensures ran { Ran self.old self.new result }
        ensures bars { IsWakeBarred self.old b p → IsErrOf result WorldFault.Reopen }
        ensures ends { IsEnd result → WakeEnds b p result self.old self.new }
        ensures disk { TakesDisk D.faultless D.faults D.stops disk.old disk.new result }
        ensures calls { CallsLanes self.old.topo (D.lane_of disk.old) (D.lane_of disk.new) }
        ensures lanes { LanesFit (D.lane_of disk.new) self.new }
    {
        let before = self.sent();
        let lines = match self.wake_at(disk, b, p) {
            Ok(lines) => lines,
            Err(fault) => return Err(fault),
        };
        let told = self.deliver_up(before, self.broker_count());
        joined(lines, told)
    }

    /// Wakes brokers for a publisher, one after another, each with the curiosity that this sends.
    fn wake_brokers<D: SimDisk>(
        &mut self,
        disk: &mut D,
        p: u16,
        brokers: &[u16],
    ) -> Result<Reports, WorldFault>
        requires fits { IsWorld self.old }
        requires brokers { AreBrokers self.old brokers.now }
        requires publisher { p < length self.old.topo.publishers }
        requires open { IsOpen self.old }
        requires lanes { LanesFit (D.lane_of disk.old) self.old }
        ensures does { Does (in_turn (wake_up (net_in self.old) p) brokers.now (world_of self.old)) self.new result }
        ensures ran { Ran self.old self.new result }
        ensures bars { IsDue self.old p → HasHost self.old p brokers.now → IsErr result }
        ensures ends { IsEnd result → WakesEnd (net_in self.old) p brokers.now result self.old self.new }
        ensures disk { TakesDisk D.faultless D.faults D.stops disk.old disk.new result }
        ensures calls { CallsLanes self.old.topo (D.lane_of disk.old) (D.lane_of disk.new) }
        ensures lanes { LanesFit (D.lane_of disk.new) self.new }
    {
        let mut lines = self.no_lines();
        'brokers: for b in brokers {
            let told = self.wake_up(disk, p, *b);
            lines = match joined(lines, told) {
                Ok(all) => all,
                Err(fault) => return Err(fault),
            };
        }
        Ok(lines)
    }

    /// Delivers the knowledge of a publisher that was sent from a place on, to one broker after another.
    fn hand_brokers(&mut self, p: u16, first: usize, brokers: &[u16]) -> Result<Reports, WorldFault>
        requires fits { IsWorld self.old }
        requires first { first ≤ length self.old.frames }
        requires open { IsOpen self.old }
        ensures does { Does (in_turn (hand_down (net_in self.old) p first) brokers.now (world_of self.old))
            self.new result }
        ensures ran { Ran self.old self.new result }
        ensures delivers { Delivers self.old self.new result }
    {
        let mut lines = self.no_lines();
        'brokers: for b in brokers {
            let told = self.hand_down(p, first, *b);
            lines = match joined(lines, told) {
                Ok(all) => all,
                Err(fault) => return Err(fault),
            };
        }
        Ok(lines)
    }

    /// The three phases for a publisher: the brokers wake, the deepest first; what was sent to each is delivered, from
    /// the host on; and they wake once more.
    fn phases<D: SimDisk>(
        &mut self,
        disk: &mut D,
        p: u16,
        inwards: &[u16],
        outwards: &[u16],
    ) -> Result<Reports, WorldFault>
        requires fits { IsWorld self.old }
        requires brokers { AreBrokers self.old inwards.now }
        requires publisher { p < length self.old.topo.publishers }
        requires open { IsOpen self.old }
        requires lanes { LanesFit (D.lane_of disk.old) self.old }
        ensures does { Does (phases (net_in self.old) p inwards.now outwards.now (world_of self.old)) self.new result }
        ensures ran { Ran self.old self.new result }
        ensures bars { IsDue self.old p → HasHost self.old p inwards.now → IsErr result }
        ensures ends { IsEnd result → PhasesEnd (net_in self.old) p inwards.now outwards.now result self.old self.new }
        ensures disk { TakesDisk D.faultless D.faults D.stops disk.old disk.new result }
        ensures calls { CallsLanes self.old.topo (D.lane_of disk.old) (D.lane_of disk.new) }
        ensures lanes { LanesFit (D.lane_of disk.new) self.new }
    {
        let first = self.sent();
        let woken = match self.wake_brokers(disk, p, inwards) {
            Ok(woken) => woken,
            Err(fault) => return Err(fault),
        };
        let told = self.hand_brokers(p, first, outwards);
        let handed = match joined(woken, told) {
            Ok(handed) => handed,
            Err(fault) => return Err(fault),
        };
        let told = self.wake_brokers(disk, p, inwards);
        joined(handed, told)
    }

    /// Settles a publisher.
    fn sweep_for<D: SimDisk>(&mut self, disk: &mut D, p: u16) -> Result<Reports, WorldFault>
        requires fits { IsWorld self.old }
        requires publisher { p < length self.old.topo.publishers }
        requires open { IsOpen self.old }
        requires lanes { LanesFit (D.lane_of disk.old) self.old }
        ensures does { Does (sweep_for (net_in self.old) (world_of self.old) p) self.new result }
        ensures ran { Ran self.old self.new result }
        ensures bars { IsDue self.old p → IsErr result }
        ensures ends { IsEnd result → SweepEnds (net_in self.old) result p self.old self.new }
        ensures disk { TakesDisk D.faultless D.faults D.stops disk.old disk.new result }
        ensures calls { CallsLanes self.old.topo (D.lane_of disk.old) (D.lane_of disk.new) }
        ensures lanes { LanesFit (D.lane_of disk.new) self.new }
    {
        // Proof only: each broker is one of these.
        every_topology_is_a_tree(&self.topology);
        let inwards = match self.inwards(p) {
            Ok(inwards) => inwards,
            Err(_) => return Err(WorldFault::Memory),
        };
        let outwards = match self.outwards(p) {
            Ok(outwards) => outwards,
            Err(_) => return Err(WorldFault::Memory),
        };
        self.phases(disk, p, inwards.as_slice(), outwards.as_slice())
    }

    /// Settles each publisher, in order.
    fn sweep_publishers<D: SimDisk>(&mut self, disk: &mut D) -> Result<Reports, WorldFault>
        requires fits { IsWorld self.old }
        requires open { IsOpen self.old }
        requires lanes { LanesFit (D.lane_of disk.old) self.old }
        ensures ran { Ran self.old self.new result }
        ensures bars { (p : ℕ) → p < length self.old.topo.publishers → IsDue self.old p → IsErr result }
        ensures does { let net = net_in self.old in
            Does (in_turn (sweep_for net) (numbers net.publishers) (world_of self.old)) self.new result }
        ensures ends { let net = net_in self.old in IsEnd result
            → EndsAt (sweep_for net) (SweepEnds net result) (numbers net.publishers) self.old self.new }
        ensures disk { TakesDisk D.faultless D.faults D.stops disk.old disk.new result }
        ensures calls { CallsLanes self.old.topo (D.lane_of disk.old) (D.lane_of disk.new) }
        ensures lanes { LanesFit (D.lane_of disk.new) self.new }
    {
        let mut lines = self.no_lines();
        'publishers: for p in 0..self.publisher_count() {
            let told = self.sweep_for(disk, p);
            lines = match joined(lines, told) {
                Ok(all) => all,
                Err(fault) => return Err(fault),
            };
        }
        Ok(lines)
    }

    /// The sweep at its moment, once the clock stands there: each publisher is settled, and its line is told.
    fn sweep_all<D: SimDisk>(&mut self, disk: &mut D, moment: u64) -> Result<Reports, WorldFault>
        requires fits { IsWorld self.old }
        requires open { IsOpen self.old }
        requires lanes { LanesFit (D.lane_of disk.old) self.old }
        ensures ran { Ran self.old self.new result }
        ensures bars { (p : ℕ) → p < length self.old.topo.publishers → IsDue self.old p → IsErr result }
        ensures does { Does (swept (net_in self.old) (world_of self.old) moment) self.new result }
        ensures ends { let net = net_in self.old in IsEnd result
            → EndsAt (sweep_for net) (SweepEnds net result) (numbers net.publishers) self.old self.new }
        ensures disk { TakesDisk D.faultless D.faults D.stops disk.old disk.new result }
        ensures calls { CallsLanes self.old.topo (D.lane_of disk.old) (D.lane_of disk.new) }
        ensures lanes { LanesFit (D.lane_of disk.new) self.new }
    {
        let mut lines = match self.sweep_publishers(disk) {
            Ok(lines) => lines,
            Err(fault) => return Err(fault),
        };
        match lines.push(Report::Swept { moment }) {
            Ok(()) => Ok(lines),
            Err(_) => Err(WorldFault::Memory),
        }
    }

    /// Moves the clock past the greatest of all moments and settled ticks by `gap + idle + retry + quiet + 1`, and for
    /// each publisher in order wakes all brokers, the deepest first, delivers what was sent, and wakes them again:
    /// afterwards each subscriber has all that was logged for it.
    ///
    /// `ClockRange` exactly where the clock would pass the last tick, with that moment; then nothing has changed.
    /// `Reopen` where a broker is down, or the disk has failed a log. `Disk` only where the disk failed in this call;
    /// that log is broken then. What was done before stands after either, at the sweep's moment, and nothing of it is
    /// told.
    pub fn sweep<D: SimDisk>(&mut self, disk: &mut D) -> Result<Reports, WorldFault>
        requires fits { IsWorld self.old }
        requires lanes { LanesFit (D.lane_of disk.old) self.old }
        ensures makes { Makes step.Sweep self.old self.new result }
        // With its step and lines it goes on with the run that led here
        ensures goes_on { GoesOn (step.Sweep) (D.lane_of disk.old) (D.lane_of disk.new)
            self.old self.new result }
        // and after the steps of a run it reaches all that is recorded
        ensures settles { (steps : List Line) (told : List (List MachineReport))
            → Fits self.old (D.lane_of disk.old) steps told → IfOk result (SettlesAll steps self.old self.new) }
        ensures refused { Refuses step.Sweep self.old self.new result }
        ensures memory { Spends self.old self.new result }
        ensures closed { self.old.spent ≡ false → refused_at self.old step.Sweep ≡ None
            → IsClosed self.old self.new result }
        // Unless a call before failed, `Reopen` comes exactly where a broker is down, or the disk has failed a log: a
        // sweep marks each
        ensures reopen { self.old.spent ≡ false → refused_at self.old step.Sweep ≡ None
            → ReopensWhere (IsSome self.old.down ⊎ HasBroken self.old) result }
        // Where it ends at a log, the clock stands at its moment, the publishers before were swept, and the sweep of
        // that one has ended at a wake
        ensures ends { let net = net_in self.old in self.old.down ≡ None → IsEnd result
            → EndsAt (sweep_for net) (SweepEnds net result) (numbers net.publishers)
            (at_moment self.old (sweep_moment net (world_of self.old))) self.new }
        ensures stays { Stays self.old self.new }
        ensures fits { IsWorld self.new }
        ensures sound { StaysSound self.old self.new result }
        ensures disk { TakesDisk D.faultless D.faults D.stops disk.old disk.new result }
        ensures idle { IsIdle self.old step.Sweep → disk.new ≡ disk.old }
        ensures calls { CallsLanes self.old.topo (D.lane_of disk.old) (D.lane_of disk.new) }
        ensures lanes { LanesFit (D.lane_of disk.new) self.new }
    {
        if self.spent {
            return Err(WorldFault::Memory);
        }
        let moment = self.sweep_moment();
        if moment > MAX_TICK {
            return Err(WorldFault::ClockRange { at: moment });
        }
        if self.down.is_some() {
            return Err(WorldFault::Reopen);
        }
        self.move_clock(moment);
        let answer = self.sweep_all(disk, moment);
        self.noted(answer)
    }
}
