//! The steps that call brokers and leave the disk's stops alone.

ghost use Rattle.std.specs.Prelude.{◌≡◌, ◌≢◌, ◌⊎◌, ◌↔◌, ℕ, ◌<◌, suc, true, false, length, Some, None, Err, IsErrOf};
ghost use Rattle.std.specs.Prelude.{IsSome, IfSome, IfNone};
ghost use Rattle.gr_out.specs.Lane.{Lane};
ghost use Rattle.gr_sched.specs.declared.step.Step.TheVariants as step;
ghost use Rattle.gr_topo.specs.Topology.{late_of};
ghost use Rattle.gr_model.specs.Net.{numbers};
ghost use Rattle.gr_model.specs.World.{wake_for, wake_all, frame_at};
ghost use Rattle.gr_world.specs.Seen.{net_in, world_of};
ghost use Rattle.gr_world.specs.Of.{IsWorld, LanesFit};
ghost use Rattle.gr_world.specs.Ran.{IsOpen, Ran};
ghost use Rattle.gr_world.specs.Steps.{Makes, Does, Refuses, Spends, Stays, refused_at};
ghost use Rattle.gr_world.specs.Stopped.{LeavesAtFault};
ghost use Rattle.gr_world.specs.Disk.{StaysSound, IsClosed, IsBarred, IsBarredJoin, BarsWake, ReopensWhere};
ghost use Rattle.gr_world.specs.Disk.{IsIdle, TakesDisk};
ghost use Rattle.gr_world.specs.Moments.{CallsLanes};
ghost use Rattle.gr_world.specs.Ended.{IsEnd, WakeEnds, EndsAt};
ghost use Rattle.gr_world.specs.Fits.{GoesOn};

use crate::fault::WorldFault;
use crate::world::World;
use gr_event::Event;
use gr_model::Reports;
use gr_out::SimDisk;

impl World {
    /// Publishes an event under a number, for a publisher at its host.
    ///
    /// `Reopen` where a broker is down, or the call would append to a log that the disk has failed. `Disk` only where
    /// the disk failed in this call; then nothing was sent, and the log answers `Reopen` until its broker crashes.
    pub fn publish<D: SimDisk>(
        &mut self,
        disk: &mut D,
        p: u16,
        number: u64,
        event: &Event,
    ) -> Result<Reports, WorldFault>
        requires fits { IsWorld self.old }
        requires publisher { p < length self.old.topo.publishers }
        requires lanes { LanesFit (D.lane_of disk.old) self.old }
        ensures makes { Makes (step.Publish p number None event.now) self.old self.new result }
        // With its step and lines it goes on with the run that led here
        ensures goes_on { GoesOn (step.Publish p number None event.now) (D.lane_of disk.old) (D.lane_of disk.new)
            self.old self.new result }
        ensures refused { Refuses (step.Publish p number None event.now) self.old self.new result }
        ensures memory { Spends self.old self.new result }
        ensures closed { self.old.spent ≡ false → IsClosed self.old self.new result }
        ensures left { LeavesAtFault p self.old self.new disk.old disk.new result }
        // `Reopen` exactly where a broker is down, or the disk has failed the log
        ensures reopen { self.old.spent ≡ false → (IsErrOf result WorldFault.Reopen
            ↔ (IsSome self.old.down ⊎ IsBarred self.old p number event.now)) }
        ensures stays { Stays self.old self.new }
        ensures fits { IsWorld self.new }
        ensures sound { StaysSound self.old self.new result }
        ensures disk { TakesDisk D.faultless D.faults D.stops disk.old disk.new result }
        ensures calls { CallsLanes self.old.topo (D.lane_of disk.old) (D.lane_of disk.new) }
        ensures idle { IsIdle self.old (step.Publish p number None event.now) → disk.new ≡ disk.old }
        ensures lanes { LanesFit (D.lane_of disk.new) self.new }
    {
        if self.spent {
            return Err(WorldFault::Memory);
        }
        if self.down.is_some() {
            return Err(WorldFault::Reopen);
        }
        let answer = self.publish_at_host(disk, p, number, event);
        self.noted(answer)
    }

    /// Joins a late subscriber to a publisher: it is logged at the publisher's host, and the subscriber gets the events
    /// past it.
    ///
    /// `Reopen` where a broker is down, or the call would append to a log that the disk has failed. `Disk` only where
    /// the disk failed in this call; then nothing was sent, and the log answers `Reopen` until its broker crashes.
    pub fn join<D: SimDisk>(&mut self, disk: &mut D, s: u16, p: u16) -> Result<Reports, WorldFault>
        requires fits { IsWorld self.old }
        requires publisher { p < length self.old.topo.publishers }
        requires late { late_of self.old.topo s ≡ true }
        requires lanes { LanesFit (D.lane_of disk.old) self.old }
        ensures makes { Makes (step.Join s p) self.old self.new result }
        // With its step and lines it goes on with the run that led here
        ensures goes_on { GoesOn (step.Join s p) (D.lane_of disk.old) (D.lane_of disk.new)
            self.old self.new result }
        ensures refused { Refuses (step.Join s p) self.old self.new result }
        ensures memory { Spends self.old self.new result }
        ensures closed { self.old.spent ≡ false → IsClosed self.old self.new result }
        ensures left { LeavesAtFault p self.old self.new disk.old disk.new result }
        // `Reopen` exactly where a broker is down, or the disk has failed the log
        ensures reopen { self.old.spent ≡ false → (IsErrOf result WorldFault.Reopen
            ↔ (IsSome self.old.down ⊎ IsBarredJoin self.old p s)) }
        ensures stays { Stays self.old self.new }
        ensures fits { IsWorld self.new }
        ensures sound { StaysSound self.old self.new result }
        ensures disk { TakesDisk D.faultless D.faults D.stops disk.old disk.new result }
        ensures calls { CallsLanes self.old.topo (D.lane_of disk.old) (D.lane_of disk.new) }
        ensures idle { IsIdle self.old (step.Join s p) → disk.new ≡ disk.old }
        ensures lanes { LanesFit (D.lane_of disk.new) self.new }
    {
        if self.spent {
            return Err(WorldFault::Memory);
        }
        if self.down.is_some() {
            return Err(WorldFault::Reopen);
        }
        let answer = self.join_at_host(disk, s, p);
        self.noted(answer)
    }

    /// Wakes a broker for each publisher, in order.
    ///
    /// `Reopen` where a broker is down, or the call would append to a log that the disk has failed. `Disk` only where
    /// the disk failed in this call; that log is broken then. What was done for the publishers before stands after
    /// either, and nothing of it is told.
    pub fn wake<D: SimDisk>(&mut self, disk: &mut D, b: u16) -> Result<Reports, WorldFault>
        requires fits { IsWorld self.old }
        requires broker { b < length self.old.topo.brokers }
        requires lanes { LanesFit (D.lane_of disk.old) self.old }
        ensures makes { Makes (step.Wake b) self.old self.new result }
        // With its step and lines it goes on with the run that led here
        ensures goes_on { GoesOn (step.Wake b) (D.lane_of disk.old) (D.lane_of disk.new)
            self.old self.new result }
        ensures refused { Refuses (step.Wake b) self.old self.new result }
        ensures memory { Spends self.old self.new result }
        ensures closed { self.old.spent ≡ false → IsClosed self.old self.new result }
        // Unless a call for an earlier publisher failed, `Reopen` comes exactly where a broker is down, or a
        // publisher's log is to be appended to that the disk has failed
        ensures reopen { self.old.spent ≡ false
            → ReopensWhere (IsSome self.old.down ⊎ BarsWake self.old b) result }
        // Where it ends at a log, the publishers before were woken, and that one's wake has ended
        ensures ends { self.old.down ≡ None → IsEnd result
            → EndsAt (λ u p. wake_for (net_in self.old) u b p) (λ p. WakeEnds b p result)
            (numbers (length self.old.topo.publishers)) self.old self.new }
        ensures stays { Stays self.old self.new }
        ensures fits { IsWorld self.new }
        ensures sound { StaysSound self.old self.new result }
        ensures disk { TakesDisk D.faultless D.faults D.stops disk.old disk.new result }
        ensures calls { CallsLanes self.old.topo (D.lane_of disk.old) (D.lane_of disk.new) }
        ensures idle { IsIdle self.old (step.Wake b) → disk.new ≡ disk.old }
        ensures lanes { LanesFit (D.lane_of disk.new) self.new }
    {
        if self.spent {
            return Err(WorldFault::Memory);
        }
        if self.down.is_some() {
            return Err(WorldFault::Reopen);
        }
        let answer = self.wake_each(disk, b);
        self.noted(answer)
    }

    /// Wakes a broker for each publisher, in order, and gives all lines.
    fn wake_each<D: SimDisk>(&mut self, disk: &mut D, b: u16) -> Result<Reports, WorldFault>
        requires fits { IsWorld self.old }
        requires broker { b < length self.old.topo.brokers }
        requires open { IsOpen self.old }
        requires lanes { LanesFit (D.lane_of disk.old) self.old }
        ensures does { Does (wake_all (net_in self.old) (world_of self.old) b) self.new result }
        ensures ran { Ran self.old self.new result }
        ensures reopen { ReopensWhere (BarsWake self.old b) result }
        ensures ends { IsEnd result
            → EndsAt (λ u p. wake_for (net_in self.old) u b p) (λ p. WakeEnds b p result)
            (numbers (length self.old.topo.publishers)) self.old self.new }
        ensures disk { TakesDisk D.faultless D.faults D.stops disk.old disk.new result }
        ensures calls { CallsLanes self.old.topo (D.lane_of disk.old) (D.lane_of disk.new) }
        ensures lanes { LanesFit (D.lane_of disk.new) self.new }
    {
        let mut lines = Reports::new(self.alloc);
        'publishers: for p in 0..self.topology.publishers() {
            let mut told = match self.wake_at(disk, b, p) {
                Ok(told) => told,
                Err(fault) => return Err(fault),
            };
            match lines.append(&mut told) {
                Ok(()) => {}
                Err(_) => return Err(WorldFault::Memory),
            }
        }
        Ok(lines)
    }

    /// The place from 0 of the frame of a number from 1, or None exactly where there is none.
    pub(crate) fn place_of(&self, frame: u64) -> Option<usize>
        ensures none { IfNone result (frame_at (world_of self.now) frame ≡ None) }
        ensures some { IfSome result (λ i. (frame ≡ suc i) × (i < length self.now.frames)) }
    {
        if frame == 0 {
            return None;
        }
        let i = (frame - 1) as usize;
        if i < self.frames.len() { Some(i) } else { None }
    }

    /// Delivers the frame of a number, from 1, to its receiver. `NoFrame` exactly where there is none; then `Reopen`
    /// exactly where a broker is down.
    pub fn deliver(&mut self, frame: u64) -> Result<Reports, WorldFault>
        requires fits { IsWorld self.old }
        ensures makes { Makes (step.Deliver frame) self.old self.new result }
        ensures goes_on { (lanes : ℕ → Lane) → GoesOn (step.Deliver frame) lanes lanes self.old self.new result }
        ensures refused { Refuses (step.Deliver frame) self.old self.new result }
        ensures memory { Spends self.old self.new result }
        ensures closed { self.old.spent ≡ false → refused_at self.old (step.Deliver frame) ≡ None
            → IsClosed self.old self.new result }
        ensures reopen { IsErrOf result WorldFault.Reopen → IsSome self.old.down }
        ensures stays { Stays self.old self.new }
        ensures fits { IsWorld self.new }
        ensures sound { StaysSound self.old self.new result }
        ensures never_fails { result ≢ Err WorldFault.Disk }
        ensures lanes { (lanes : ℕ → Lane) → LanesFit lanes self.old → LanesFit lanes self.new }
    {
        if self.spent {
            return Err(WorldFault::Memory);
        }
        let Some(i) = self.place_of(frame) else {
            return Err(WorldFault::NoFrame {
                sent: self.frames.len() as u64,
            });
        };
        if self.down.is_some() {
            return Err(WorldFault::Reopen);
        }
        let answer = self.deliver_at(i);
        self.noted(answer)
    }
}
