//! The world: all brokers of a topology, and the frames that they sent.

ghost use Rattle.std.specs.Prelude.{◌≡◌, ℕ, ◌≤◌, false, [], IfOk, Ok};
ghost use Rattle.gr_out.specs.Lane.{Lane};
ghost use Rattle.gr_tick.specs.declared.TheConstants.{MAX_TICK};
ghost use Rattle.gr_sched.specs.declared.step.Step.TheVariants.{Clock};
ghost use Rattle.gr_world.specs.Of.{IsWorld, LanesFit, IsSound};
ghost use Rattle.gr_world.specs.Ran.{noted_in};
ghost use Rattle.gr_world.specs.Steps.{Makes, Stays};
ghost use Rattle.gr_world.specs.Fits.{GoesOn};

use crate::copying::copy_reports;
use crate::fault::{Memory, WorldFault};
use gr_broker::Broker;
use gr_model::Reports;
use gr_store::FrameStore;
use gr_topo::Topology;
use std::alloc::Global;
use std::cell::Cell;
use std::marker::Model;

/// All brokers of a topology, and the frames between them. Frames have numbers from 1 in the order in which they were
/// sent, and each stays deliverable for good. The clock starts at 0; moments are milliseconds.
#[derive(Drop)]
pub struct World {
    /// Where the memory of the world comes from.
    pub(crate) alloc: Global,
    /// The topology that the world was made with.
    pub(crate) topology: Topology,
    /// The brokers, in order of number.
    pub(crate) brokers: Vec<Broker>,
    /// All frames that were sent, in order of number.
    pub(crate) frames: FrameStore,
    /// The present moment, in milliseconds.
    pub(crate) clock: u64,
    /// The greatest of all moments that the clock had, in milliseconds.
    pub(crate) most: u64,
    /// What the opening of the logs told.
    pub(crate) told: Reports,
    /// Which broker published or received last. It is a hint alone.
    pub(crate) last: Cell<u16>,
    /// The broker whose last opening failed, if there is one.
    pub(crate) down: Option<u16>,
    /// Whether memory was refused in a call that changes the world; it stays refused.
    pub(crate) spent: bool,
}

impl Model for World {
    ghost use Rattle.std.specs.Coded.{codes};
    ghost use Rattle.gr_topo.specs.TreeCode.{tree_code};
    ghost use Rattle.gr_filter.specs.contracts.node.Operand as operand;
    ghost use Rattle.gr_filter.specs.contracts.node.Sign as sign;
    ghost use Rattle.gr_world.specs.Seen.{WorldView};

    ghost Value = { WorldView };

    ghost coded = { Prim.hlevel (codes, tree_code operand.the_row.coded sign.the_row.coded) };

    ghost view = { λ w. record {
      topo = w.topology;
      brokers = w.brokers.items;
      frames = w.frames;
      clock = w.clock;
      most = w.most;
      told = w.told;
      down = w.down;
      spent = w.spent;
    } };
}

impl World {
    /// The topology that the world was made with. Takes no memory.
    pub fn topology(&self) -> &Topology
        ensures { result.now ≡ self.now.topo }
    {
        &self.topology
    }

    /// What the opening of the logs told, broker by broker. At want of memory the world is as it was.
    pub fn opened(&self) -> Result<Reports, Memory>
        ensures { IfOk result (λ lines. lines ≡ self.now.told) }
    {
        copy_reports(self.alloc, &self.told)
    }

    /// Sets the clock, in milliseconds. It may go back. Takes no memory.
    pub fn clock(&mut self, now: u64)
        requires fits { IsWorld self.old }
        requires now { now ≤ MAX_TICK }
        ensures makes { Makes (Clock now) self.old self.new (Ok []) }
        ensures goes_on { (lanes : ℕ → Lane) → GoesOn (Clock now) lanes lanes self.old self.new (Ok []) }
        ensures stays { Stays self.old self.new }
        ensures fits { IsWorld self.new }
        ensures spent { self.new.spent ≡ self.old.spent }
        ensures down { self.new.down ≡ self.old.down }
        ensures sound { IsSound self.old → IsSound self.new }
        ensures lanes { (lanes : ℕ → Lane) → LanesFit lanes self.old → LanesFit lanes self.new }
    {
        self.clock = now;
        self.most = self.most.max(now);
    }

    /// Takes the lines of the last call back, once they are told: a later call tells and sends in the room of their
    /// list. Nothing else changes.
    pub fn reuse(&mut self, lines: Reports)
        ensures { self.new ≡ self.old }
    {
        let last = self.last.get() as usize;
        if lines.len() == 0 || last >= self.brokers.len() {
            return;
        }
        let frames = self.frames.spare(self.alloc);
        self.brokers[last].reuse(lines, frames);
    }

    /// Notes where memory was refused, after which it is refused for good.
    pub(crate) fn noted(
        &mut self,
        answer: Result<Reports, WorldFault>,
    ) -> Result<Reports, WorldFault>
        requires { self.old.spent ≡ false }
        ensures answer { result ≡ answer }
        ensures view { self.new ≡ noted_in self.old answer }
    {
        if let Err(WorldFault::Memory) = &answer {
            self.spent = true;
        }
        answer
    }
}
