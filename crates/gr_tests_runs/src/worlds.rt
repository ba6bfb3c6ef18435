//! Worlds by their public calls: a row has steps, one after the other, over a disk in memory of which some calls fail.

use crate::lines::{put_all, put_fault, tell};
use crate::texts::Texts;
use crate::words::{short_number, small_number};
use gr_event::Event;
use gr_out::MemDisk;
use gr_tests_rows::{Page, Stop, first_word, number, parted};
use gr_tick::MAX_TICK;
use gr_topo::Topology;
use gr_world::World;
use std::alloc::Global;
use std::marker::Model;

/// Answers a row about worlds: `run PART FAILS: STEP, STEP ..` with a topology part by the name of its text, and the
/// number of the call of the disk that fails, 0 for none; `lane PART LANE` with what lane 0 holds, by the name of its
/// text, for why no world opens there.
pub fn answer(alloc: Global, texts: &Texts, row: &str, page: &mut Page) -> Result<(), Stop> {
    let (call, rest) = parted(row, " ")?;
    match call {
        "run" => run_steps(alloc, texts, rest, page),
        "lane" => over_lane(alloc, texts, rest, page),
        _ => Err(Stop::NoRow),
    }
}

/// Prints a line for each step of a world.
fn run_steps(alloc: Global, texts: &Texts, row: &str, page: &mut Page) -> Result<(), Stop> {
    let (given, steps) = parted(row, ": ")?;
    let (part, fails) = parted(given, " ")?;
    let mut run = opened(alloc, texts.of(part), number(fails)?)?;
    run.take_all(steps, page)
}

/// Opens a world where lane 0 has these bytes, and prints why that is refused.
fn over_lane(alloc: Global, texts: &Texts, row: &str, page: &mut Page) -> Result<(), Stop> {
    let (part, lane) = parted(row, " ")?;
    let mut disk = MemDisk::new(alloc, &[])?;
    disk.put(0, texts.of(lane))?;
    put_opening(alloc, texts.of(part), &mut disk, page)
}

/// Opens a world over a disk, and prints why that is refused.
fn put_opening(
    alloc: Global,
    part: &[u8],
    disk: &mut MemDisk,
    page: &mut Page,
) -> Result<(), Stop> {
    let Ok(topology) = Topology::read(alloc, part) else {
        return Err(Stop::NoRow);
    };
    match World::new(alloc, topology, disk) {
        Ok(_) => page.push_str("  opened"),
        Err(fault) => {
            page.push_str("  refused:");
            put_fault(fault, page);
        }
    }
    page.push('\n');
    Ok(())
}

/// A world with its disk.
#[derive(Drop)]
struct Run {
    alloc: Global,
    world: World,
    disk: MemDisk,
}

impl Model for Run {
    ghost use Rattle.std.specs.Prelude.{ℕ};
    ghost use Rattle.gr_out.specs.Lane.{lane_at};
    ghost use Rattle.gr_world.specs.Of.{IsWorld, LanesFit};

    ghost Value = { ℕ };

    ghost view = { λ r. r.world.clock };

    ghost invariant = { λ r. IsWorld r.world × LanesFit (λ n. lane_at r.disk.lanes n) r.world };
}

/// Opens a world over an empty disk of which the call with this number fails.
fn opened(alloc: Global, part: &[u8], fails: u64) -> Result<Run, Stop> {
    let Ok(topology) = Topology::read(alloc, part) else {
        return Err(Stop::NoRow);
    };
    let mut disk = MemDisk::new(alloc, &[fails])?;
    match World::new(alloc, topology, &mut disk) {
        Ok(world) => {
            let run = Run { alloc, world, disk };
            Ok(run)
        }
        Err(_) => Err(Stop::NoRow),
    }
}

impl Run {
    /// Takes each step, one after the other.
    fn take_all(&mut self, steps: &str, page: &mut Page) -> Result<(), Stop> {
        for step in steps.split(", ") {
            page.push_str("  ");
            page.push_str(step);
            page.push(':');
            self.take(step, page)?;
            page.push('\n');
        }
        Ok(())
    }

    /// Takes a step.
    fn take(&mut self, step: &str, page: &mut Page) -> Result<(), Stop> {
        let (name, rest) = first_word(step);
        match name {
            "clock" => self.clock(number(rest)?),
            "publish" => self.publish(small_number(rest)?, page),
            "stop" => self.stop(rest, page),
            "join" => self.join(short_number(rest)?, page),
            "wake" => self.wake(short_number(rest)?, page),
            "deliver" => self.deliver(number(rest)?, page),
            "crash" => self.crash(short_number(rest)?, page),
            "sweep" => self.sweep(page),
            "show" => self.show(page),
            "bytes" => self.bytes(number(rest)?, page),
            _ => Err(Stop::NoRow),
        }
    }

    /// Sets the clock.
    fn clock(&mut self, now: u64) -> Result<(), Stop> {
        if now > MAX_TICK {
            return Err(Stop::NoRow);
        }
        self.world.clock(now);
        Ok(())
    }

    /// Publisher 0 publishes the event {"n":NUMBER} under that number.
    fn publish(&mut self, number: u8, page: &mut Page) -> Result<(), Stop> {
        if self.world.topology().publishers() == 0 {
            return Err(Stop::NoRow);
        }
        let event = numbered(self.alloc, number)?;
        let answer = self
            .world
            .publish(&mut self.disk, 0, u64::from(number), &event);
        tell(&answer, page);
        Ok(())
    }

    /// The step `stop NUMBER CALL PICK`: the same, to stop at a call of the disk, with a pick of what that leaves.
    fn stop(&mut self, words: &str, page: &mut Page) -> Result<(), Stop> {
        let (published, rest) = parted(words, " ")?;
        let (call, pick) = parted(rest, " ")?;
        self.publish_stopped(
            small_number(published)?,
            small_number(call)?,
            small_number(pick)?,
            page,
        )
    }

    fn publish_stopped(
        &mut self,
        number: u8,
        call: u8,
        pick: u8,
        page: &mut Page,
    ) -> Result<(), Stop> {
        if call < 1 || call > 4 || self.world.topology().publishers() == 0 {
            return Err(Stop::NoRow);
        }
        let event = numbered(self.alloc, number)?;
        let stop = gr_sched::Stop { call, pick };
        let number = u64::from(number);
        let answer = self
            .world
            .publish_stopped(&mut self.disk, 0, number, &event, &stop);
        tell(&answer, page);
        Ok(())
    }

    /// A late subscriber joins publisher 0.
    fn join(&mut self, subscriber: u16, page: &mut Page) -> Result<(), Stop> {
        let topology = self.world.topology();
        if topology.publishers() == 0 || !topology.late(subscriber) {
            return Err(Stop::NoRow);
        }
        let answer = self.world.join(&mut self.disk, subscriber, 0);
        tell(&answer, page);
        Ok(())
    }

    fn wake(&mut self, broker: u16, page: &mut Page) -> Result<(), Stop> {
        if broker >= self.world.topology().brokers() {
            return Err(Stop::NoRow);
        }
        let answer = self.world.wake(&mut self.disk, broker);
        tell(&answer, page);
        Ok(())
    }

    fn deliver(&mut self, frame: u64, page: &mut Page) -> Result<(), Stop> {
        let answer = self.world.deliver(frame);
        tell(&answer, page);
        Ok(())
    }

    fn crash(&mut self, broker: u16, page: &mut Page) -> Result<(), Stop> {
        if broker >= self.world.topology().brokers() {
            return Err(Stop::NoRow);
        }
        let answer = self.world.crash(&mut self.disk, broker);
        tell(&answer, page);
        Ok(())
    }

    fn sweep(&mut self, page: &mut Page) -> Result<(), Stop> {
        let answer = self.world.sweep(&mut self.disk);
        tell(&answer, page);
        Ok(())
    }

    fn show(&mut self, page: &mut Page) -> Result<(), Stop> {
        let lines = self.world.show()?;
        put_all(lines.as_slice(), page);
        Ok(())
    }

    fn bytes(&mut self, frame: u64, page: &mut Page) -> Result<(), Stop> {
        let answer = self.world.bytes(frame);
        tell(&answer, page);
        Ok(())
    }
}

/// The event {"n":NUMBER}, for a small number.
fn numbered(alloc: Global, number: u8) -> Result<Event, Stop> {
    let bytes = [1, 1, b'n', 1, 0, 0, 0, 0, 0, 0, 0, number];
    Event::decode(alloc, &bytes).map_err(|_| Stop::Memory)
}
