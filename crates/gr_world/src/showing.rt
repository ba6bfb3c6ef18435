//! The steps that only tell: what is shown, and the bytes of a frame.

ghost use Rattle.std.specs.Prelude.{◌≡◌, ℕ, ◌<◌, ◌++◌, ◌∷◌, [], length, map, get_or, flat_map, Some, None, Ok, Err};
ghost use Rattle.std.specs.Prelude.{IfOk, OnOk};
ghost use Rattle.gr_out.specs.Lane.{Lane};
ghost use Rattle.gr_model.specs.declared.report.Report.TheVariants as line;
ghost use Rattle.gr_model.specs.Net.{numbers};
ghost use Rattle.gr_model.specs.World.{show};
ghost use Rattle.gr_sched.specs.declared.step.Step.TheVariants as step;
ghost use Rattle.gr_world.specs.Seen.{net_in, world_of};
ghost use Rattle.gr_world.specs.Of.{IsWorld};
ghost use Rattle.gr_world.specs.Shown.{log_shown, horizon_shown, horizons_shown};
ghost use Rattle.gr_world.specs.Steps.{Makes, refused_at};
ghost use Rattle.gr_world.specs.Fits.{GoesOn};

use crate::fault::{Memory, WorldFault};
use crate::world::World;
use gr_event::Bytes;
use gr_model::{Report, Reports};

impl World {
    /// The line of a publisher's log.
    fn log_line(&self, p: u16) -> Report
        requires fits { IsWorld self.now }
        requires publisher { p < length self.now.topo.publishers }
        ensures { result ≡ log_shown (world_of self.now) p }
    {
        let host = self.topology.host(p);
        let log = self.brokers[host as usize].log(p);
        let _ = log.is_broken();
        Report::LogOf {
            publisher: p,
            last: log.last(),
            settled: log.settled(),
            cut: log.cut(),
            kept: log.events().len() as u64,
        }
    }

    /// Tells each publisher's log.
    fn tell_logs(&self, into: &mut Reports) -> Result<(), Memory>
        requires fits { IsWorld self.now }
        ensures { OnOk result (into.new
            ≡ into.old ++ map (log_shown (world_of self.now)) (numbers (length self.now.topo.publishers))) }
    {
        'publishers: for p in 0..self.topology.publishers() {
            into.push(self.log_line(p))?;
        }
        Ok(())
    }

    /// Tells a broker's horizon for a publisher, where it keeps one.
    fn tell_horizon(&self, b: u16, p: u16, into: &mut Reports) -> Result<(), Memory>
        requires fits { IsWorld self.now }
        requires broker { b < length self.now.topo.brokers }
        requires publisher { p < length self.now.topo.publishers }
        ensures { OnOk result (into.new ≡ into.old ++ horizon_shown (net_in self.now) (world_of self.now) b p) }
    {
        if !self.topology.keeps_horizon(p, b) {
            return Ok(());
        }
        into.push(Report::Doubt {
            broker: b,
            publisher: p,
            tick: self.brokers[b as usize].horizon(p),
        })
    }

    /// Tells all horizons that a broker keeps.
    fn tell_horizons(&self, b: u16, into: &mut Reports) -> Result<(), Memory>
        requires fits { IsWorld self.now }
        requires broker { b < length self.now.topo.brokers }
        ensures { OnOk result (into.new ≡ into.old ++ horizons_shown (net_in self.now) (world_of self.now) b) }
    {
        'publishers: for p in 0..self.topology.publishers() {
            self.tell_horizon(b, p, into)?;
        }
        Ok(())
    }

    /// Tells all horizons that are kept, broker by broker.
    fn tell_all_horizons(&self, into: &mut Reports) -> Result<(), Memory>
        requires fits { IsWorld self.now }
        ensures { OnOk result (into.new ≡ into.old ++ flat_map (horizons_shown (net_in self.now) (world_of self.now))
            (numbers (length self.now.topo.brokers))) }
    {
        'brokers: for b in 0..self.topology.brokers() {
            self.tell_horizons(b, into)?;
        }
        Ok(())
    }

    /// How many frames were sent, each publisher's log, and each kept horizon. Of a broker that is down it shows what
    /// stood before its crash. At want of memory the world is as it was.
    pub fn show(&self) -> Result<Reports, Memory>
        requires fits { IsWorld self.now }
        ensures shows { IfOk result (λ lines. lines ≡ show (net_in self.now) (world_of self.now)) }
        ensures goes_on { (lanes : ℕ → Lane) → IfOk result (λ lines.
            GoesOn step.Show lanes lanes self.now self.now (Ok lines)) }
    {
        let mut lines = Reports::new(self.alloc);
        lines.push(Report::Frames {
            count: self.frames.len() as u64,
        })?;
        self.tell_logs(&mut lines)?;
        self.tell_all_horizons(&mut lines)?;
        Ok(lines)
    }

    /// The line of the bytes of a frame, by its number and its place.
    fn bytes_line(&self, frame: u64, i: usize) -> Result<Reports, Memory>
        requires { i < length self.now.frames }
        ensures { IfOk result (λ lines. lines ≡ line.BytesOf frame (get_or self.now.frames i []) ∷ []) }
    {
        let bytes = Bytes::from_slice(self.alloc, self.frames.frame(i))?;
        let mut lines = Reports::new(self.alloc);
        lines.push(Report::BytesOf { frame, bytes })?;
        Ok(lines)
    }

    /// The bytes of the frame of a number, from 1. `NoFrame` exactly where there is none, `Memory` where memory is
    /// refused, and no other fault; the world is as it was.
    pub fn bytes(&self, frame: u64) -> Result<Reports, WorldFault>
        requires fits { IsWorld self.now }
        ensures makes { Makes (step.Bytes frame) self.now self.now result }
        ensures goes_on { (lanes : ℕ → Lane) → GoesOn (step.Bytes frame) lanes lanes self.now self.now result }
        ensures refused { (e : WorldFault) → refused_at self.now (step.Bytes frame) ≡ Some e → result ≡ Err e }
        ensures carried { refused_at self.now (step.Bytes frame) ≡ None
            → (e : WorldFault) → result ≡ Err e → e ≡ WorldFault.Memory }
    {
        let Some(i) = self.place_of(frame) else {
            return Err(WorldFault::NoFrame {
                sent: self.frames.len() as u64,
            });
        };
        match self.bytes_line(frame, i) {
            Ok(lines) => Ok(lines),
            Err(_) => Err(WorldFault::Memory),
        }
    }
}
