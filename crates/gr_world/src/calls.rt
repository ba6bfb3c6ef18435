//! One broker's call within a step, taken up by the world.

ghost use Rattle.std.specs.Prelude.{◌≡◌, ◌↔◌, ℕ, ◌<◌, true, suc, length, Some, Err, IsErrOf};
ghost use Rattle.gr_frame.specs.declared.Frame.{Frame};
ghost use Rattle.gr_topo.specs.Topology.{late_of};
ghost use Rattle.gr_model.specs.World.{wake_for, deliver_frame, publish_now, join_now, frame_at};
ghost use Rattle.gr_world.specs.Seen.{net_in, world_of, log_at};
ghost use Rattle.gr_world.specs.Of.{IsWorld, LanesFit};
ghost use Rattle.gr_world.specs.Steps.{Does};
ghost use Rattle.gr_world.specs.Ran.{IsOpen, Ran, TouchesOne};
ghost use Rattle.gr_world.specs.Disk.{TakesDisk, IsBarred, IsBarredJoin, IsWakeBarred};
ghost use Rattle.gr_world.specs.Moments.{CallsLanes};
ghost use Rattle.gr_world.specs.Ended.{WakeEnds};
ghost use Rattle.gr_world.specs.Stopped.{LeavesAtFault};

use crate::fault::WorldFault;
use crate::heads::receiver;
use crate::sending::{take_answer, take_receipt};
use crate::world::World;
use gr_broker::{clashes_have_a_least_tick, frames_pass_the_log};
use gr_event::Event;
use gr_model::Reports;
use gr_model::topologies::every_topology_is_a_tree;
use gr_out::SimDisk;
use gr_publog::law::stands_read;

impl World {
    /// Publishes an event at the publisher's host.
    pub(crate) fn publish_at_host<D: SimDisk>(
        &mut self,
        disk: &mut D,
        p: u16,
        number: u64,
        event: &Event,
    ) -> Result<Reports, WorldFault>
        requires fits { IsWorld self.old }
        requires publisher { p < length self.old.topo.publishers }
        requires open { IsOpen self.old }
        requires lanes { LanesFit (D.lane_of disk.old) self.old }
        ensures does { Does (publish_now (net_in self.old) (world_of self.old) p number event.now) self.new result }
        ensures ran { Ran self.old self.new result }
        ensures left { LeavesAtFault p self.old self.new disk.old disk.new result }
        ensures disk { TakesDisk D.faultless D.faults D.stops disk.old disk.new result }
        ensures calls { CallsLanes self.old.topo (D.lane_of disk.old) (D.lane_of disk.new) }
        ensures lanes { LanesFit (D.lane_of disk.new) self.new }
        ensures reopen { IsErrOf result WorldFault.Reopen ↔ IsBarred self.old p number event.now }
    {
        // Proof only: what is sent goes over edges, and lanes in which a log stands read as it.
        every_topology_is_a_tree(&self.topology);
        stands_read();
        let host = self.topology.host(p);
        self.last.set(host);
        let broker = &mut self.brokers[host as usize];
        let answer = broker.publish(&self.topology, disk, p, number, event, self.clock);
        take_answer(&mut self.frames, answer)
    }

    /// Joins a late subscriber to a publisher at the publisher's host.
    pub(crate) fn join_at_host<D: SimDisk>(
        &mut self,
        disk: &mut D,
        s: u16,
        p: u16,
    ) -> Result<Reports, WorldFault>
        requires fits { IsWorld self.old }
        requires publisher { p < length self.old.topo.publishers }
        requires late { late_of self.old.topo s ≡ true }
        requires open { IsOpen self.old }
        requires lanes { LanesFit (D.lane_of disk.old) self.old }
        ensures does { Does (join_now (net_in self.old) (world_of self.old) s p) self.new result }
        ensures ran { Ran self.old self.new result }
        ensures left { LeavesAtFault p self.old self.new disk.old disk.new result }
        ensures disk { TakesDisk D.faultless D.faults D.stops disk.old disk.new result }
        ensures calls { CallsLanes self.old.topo (D.lane_of disk.old) (D.lane_of disk.new) }
        ensures lanes { LanesFit (D.lane_of disk.new) self.new }
        ensures reopen { IsErrOf result WorldFault.Reopen ↔ IsBarredJoin self.old p s }
    {
        // Proof only: what is sent goes over edges, and lanes in which a log stands read as it.
        every_topology_is_a_tree(&self.topology);
        stands_read();
        let host = self.topology.host(p);
        self.last.set(host);
        let broker = &mut self.brokers[host as usize];
        let answer = broker.join(&self.topology, disk, p, s, self.clock);
        take_answer(&mut self.frames, answer)
    }

    /// Gives the bytes of a frame, by its place from 0, to their receiver.
    pub(crate) fn deliver_at(&mut self, i: usize) -> Result<Reports, WorldFault>
        requires fits { IsWorld self.old }
        requires frame { i < length self.old.frames }
        requires open { IsOpen self.old }
        ensures does { (f : Frame) → frame_at (world_of self.old) (suc i) ≡ Some f
            → Does (deliver_frame (net_in self.old) (world_of self.old) f) self.new result }
        ensures ran { Ran self.old self.new result }
        // No log has changed, and the disk is not called
        ensures memory { (e : WorldFault) → result ≡ Err e → e ≡ WorldFault.Memory }
        ensures logs { (p : ℕ) → p < length self.old.topo.publishers → log_at self.new p ≡ log_at self.old p }
    {
        // Proof only: what is sent goes over edges, and no log has a part in a receipt.
        every_topology_is_a_tree(&self.topology);
        frames_pass_the_log();
        clashes_have_a_least_tick();
        let bytes = self.frames.frame(i);
        let to = receiver(bytes);
        self.last.set(to);
        let answer = self.brokers[to as usize].receive(&self.topology, bytes, self.clock);
        take_receipt(self.alloc, &mut self.frames, answer)
    }

    /// Wakes a broker for a publisher.
    pub(crate) fn wake_at<D: SimDisk>(
        &mut self,
        disk: &mut D,
        b: u16,
        p: u16,
    ) -> Result<Reports, WorldFault>
        requires fits { IsWorld self.old }
        requires broker { b < length self.old.topo.brokers }
        requires publisher { p < length self.old.topo.publishers }
        requires open { IsOpen self.old }
        requires lanes { LanesFit (D.lane_of disk.old) self.old }
        ensures does { Does (wake_for (net_in self.old) (world_of self.old) b p) self.new result }
        ensures ran { Ran self.old self.new result }
        ensures reopen { IsErrOf result WorldFault.Reopen ↔ IsWakeBarred self.old b p }
        ensures ends { WakeEnds b p result self.old self.new }
        ensures apart { TouchesOne b p self.old self.new }
        ensures disk { TakesDisk D.faultless D.faults D.stops disk.old disk.new result }
        ensures calls { CallsLanes self.old.topo (D.lane_of disk.old) (D.lane_of disk.new) }
        ensures lanes { LanesFit (D.lane_of disk.new) self.new }
    {
        // Proof only: what is sent goes over edges, and lanes in which a log stands read as it.
        every_topology_is_a_tree(&self.topology);
        stands_read();
        let broker = &mut self.brokers[b as usize];
        let answer = broker.wake(&self.topology, disk, p, self.clock);
        take_answer(&mut self.frames, answer)
    }
}
