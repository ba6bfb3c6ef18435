//! What brokers send in a sweep is delivered: curiosity at once, and knowledge broker by broker.

ghost use Rattle.std.specs.Prelude.{◌≡◌, ◌<◌, ◌≤◌, suc, [], length, Some};
ghost use Rattle.gr_frame.specs.declared.Frame.{Frame as MachineFrame};
ghost use Rattle.gr_model.specs.World.{frame_at, is_want, is_know_to, deliver_up, hand_down};
ghost use Rattle.gr_world.specs.Seen.{net_in, world_of};
ghost use Rattle.gr_world.specs.Of.{IsWorld};
ghost use Rattle.gr_world.specs.Steps.{Does};
ghost use Rattle.gr_world.specs.Ran.{IsOpen, Ran};
ghost use Rattle.gr_world.specs.Sweeps.{Joins, Delivers, wants_past, with_wants};

use crate::fault::WorldFault;
use crate::heads::{is_know_to, is_want};
use crate::world::World;
use gr_model::Reports;

/// The lines so far, with those of one more call.
pub(crate) fn joined(
    mut lines: Reports,
    told: Result<Reports, WorldFault>,
) -> Result<Reports, WorldFault>
    ensures { Joins lines told result }
{
    match told {
        Ok(mut more) => match lines.append(&mut more) {
            Ok(()) => Ok(lines),
            Err(_) => Err(WorldFault::Memory),
        },
        Err(fault) => Err(fault),
    }
}

impl World {
    /// How many frames were sent. Takes no memory.
    pub(crate) fn sent(&self) -> usize
        ensures { result ≡ length self.now.frames }
    {
        self.frames.len()
    }

    /// No lines so far. Takes no memory.
    pub(crate) fn no_lines(&self) -> Reports
        ensures { result ≡ [] }
    {
        Reports::new(self.alloc)
    }

    /// Whether the frame at a place, from 0, goes upwards. Takes no memory.
    fn goes_up(&self, i: usize) -> bool
        requires fits { IsWorld self.now }
        requires frame { i < length self.now.frames }
        ensures { (f : MachineFrame) → frame_at (world_of self.now) (suc i) ≡ Some f → result ≡ is_want f }
    {
        is_want(self.frames.frame(i))
    }

    /// Whether the frame at a place, from 0, brings knowledge of a publisher to a broker. Takes no memory.
    fn brings_down(&self, i: usize, p: u16, b: u16) -> bool
        requires fits { IsWorld self.now }
        requires frame { i < length self.now.frames }
        ensures { (f : MachineFrame) → frame_at (world_of self.now) (suc i) ≡ Some f → result ≡ is_know_to p b f }
    {
        is_know_to(self.frames.frame(i), p, b)
    }

    /// Delivers a frame, and then the upward frames that this sends, at most so deep.
    #[cycle(upwards)]
    fn deliver_with(&mut self, i: usize, fuel: u16) -> Result<Reports, WorldFault>
        requires fits { IsWorld self.old }
        requires frame { i < length self.old.frames }
        requires open { IsOpen self.old }
        ensures does { (f : MachineFrame) → frame_at (world_of self.old) (suc i) ≡ Some f
            → Does (with_wants (net_in self.old) fuel (world_of self.old) f) self.new result }
        ensures ran { Ran self.old self.new result }
        ensures delivers { Delivers self.old self.new result }
    {
        let before = self.sent();
        let lines = match self.deliver_at(i) {
            Ok(lines) => lines,
            Err(fault) => return Err(fault),
        };
        let told = self.deliver_up(before, fuel);
        joined(lines, told)
    }

    /// Delivers the upward frames from a place on, each with those that its delivery sends, at most so deep.
    #[cycle(upwards)]
    pub(crate) fn deliver_up(&mut self, first: usize, fuel: u16) -> Result<Reports, WorldFault>
        requires fits { IsWorld self.old }
        requires first { first ≤ length self.old.frames }
        requires open { IsOpen self.old }
        ensures does { Does (deliver_up (net_in self.old) fuel (wants_past first (world_of self.old))
            (world_of self.old)) self.new result }
        ensures ran { Ran self.old self.new result }
        ensures delivers { Delivers self.old self.new result }
    {
        let mut lines = self.no_lines();
        if fuel == 0 {
            return Ok(lines);
        }
        'frames: for i in first..self.sent() {
            if !self.goes_up(i) {
                continue;
            }
            let told = self.deliver_with(i, fuel - 1);
            lines = match joined(lines, told) {
                Ok(all) => all,
                Err(fault) => return Err(fault),
            };
        }
        Ok(lines)
    }

    /// Delivers the knowledge of a publisher that was sent to a broker, from a place on.
    pub(crate) fn hand_down(&mut self, p: u16, first: usize, b: u16) -> Result<Reports, WorldFault>
        requires fits { IsWorld self.old }
        requires first { first ≤ length self.old.frames }
        requires open { IsOpen self.old }
        ensures does { Does (hand_down (net_in self.old) p first (world_of self.old) b) self.new result }
        ensures ran { Ran self.old self.new result }
        ensures delivers { Delivers self.old self.new result }
    {
        let mut lines = self.no_lines();
        'frames: for i in first..self.sent() {
            if !self.brings_down(i, p, b) {
                continue;
            }
            let told = self.deliver_at(i);
            lines = match joined(lines, told) {
                Ok(all) => all,
                Err(fault) => return Err(fault),
            };
        }
        Ok(lines)
    }
}
