//! The steps of a schedule as calls of a world, and the lines that they tell.

ghost use Rattle.std.specs.Prelude.{◌≡◌, ◌≢◌, false, ◌∷◌, [], Some, Err, IfOk, IfErr, OnOk};
ghost use Rattle.gr_out.specs.Stops.{StaysFaultless};
ghost use Rattle.gr_world.specs.Of.{IsWorld, LanesFit};
ghost use Rattle.gr_world.specs.Disk.{Counts, StaysSound};
ghost use Rattle.gr_world.specs.Steps.{Makes, NotMemory, Stays, lines_of_step, frame_of_step};
ghost use Rattle.gr_scenario.specs.Steps.{IsStepOf};
ghost use Rattle.gr_report.specs.Named.{AllNamed};
ghost use Rattle.gr_replay.specs.Going.{IsGoing, NotDamaged, IsCause, IsStepFault, DiskCounts, Tells};

use gr_model::topologies::every_topology_is_a_tree;
use gr_model::{Report, Reports};
use gr_out::{RunFault, SimDisk};
use gr_sched::{Line, Step};
use gr_world::{World, WorldFault};
use std::alloc::{AllocError, Global};

/// Makes the call of a step.
fn call<D: SimDisk>(
    alloc: Global,
    world: &mut World,
    disk: &mut D,
    step: &Step,
) -> Result<Reports, WorldFault>
    requires going { IsGoing world.old }
    requires step { IsStepOf world.old.topo step.now }
    requires lanes { LanesFit (D.lane_of disk.old) world.old }
    ensures makes { Makes step.now world.old world.new result }
    ensures undamaged { NotDamaged result }
    ensures stays { Stays world.old world.new }
    ensures fits { IsWorld world.new }
    ensures sound { NotMemory result → StaysSound world.old world.new result }
    ensures unspent { NotMemory result → world.new.spent ≡ false }
    ensures counts { Counts (D.faults disk.old) (D.stops disk.old) (D.faults disk.new) (D.stops disk.new) result }
    ensures faultless { StaysFaultless (D.faultless disk.old) (D.faultless disk.new)
        (D.faults disk.old) (D.faults disk.new) }
    ensures never_fails { D.faultless disk.old → result ≢ Err WorldFault.Disk }
    ensures lanes { LanesFit (D.lane_of disk.new) world.new }
{
    match step {
        Step::Clock { now } => {
            world.clock(*now);
            Ok(Reports::new(alloc))
        }
        Step::Publish {
            publisher,
            number,
            stop,
            event,
        } => match stop {
            None => world.publish(disk, *publisher, *number, event),
            Some(stop) => world.publish_stopped(disk, *publisher, *number, event, stop),
        },
        Step::Wake { broker } => world.wake(disk, *broker),
        Step::Deliver { frame } => world.deliver(*frame),
        Step::Crash { broker } => world.crash(disk, *broker),
        Step::Sweep => world.sweep(disk),
        Step::Show => match world.show() {
            Ok(lines) => Ok(lines),
            Err(_) => Err(WorldFault::Memory),
        },
        Step::Bytes { frame } => world.bytes(*frame),
        Step::Join {
            subscriber,
            publisher,
        } => world.join(disk, *subscriber, *publisher),
    }
}

/// The frame that a step names; 0 for a step that names none.
fn frame_of(step: &Step) -> u64
    ensures { result ≡ frame_of_step step.now }
{
    match step {
        Step::Deliver { frame } => *frame,
        Step::Bytes { frame } => *frame,
        _ => 0,
    }
}

/// A list of one line.
fn alone(alloc: Global, line: Report) -> Result<Reports, AllocError>
    ensures { IfOk result (λ lines. lines ≡ line ∷ []) }
{
    let mut lines = Reports::new(alloc);
    lines.push(line)?;
    Ok(lines)
}

/// What a step tells by the answer of its call: the lines of the call, or the one line of its refusal.
fn answered(
    alloc: Global,
    line: &Line,
    answer: Result<Reports, WorldFault>,
) -> Result<Reports, RunFault>
    requires opened { answer ≢ Err WorldFault.Reopen }
    requires undamaged { NotDamaged answer }
    ensures lines { IfOk result (λ lines. lines_of_step line.now.number line.now.step answer ≡ Some lines) }
    ensures cause { IfErr result (λ fault. IsCause fault answer) }
{
    let refusal = match answer {
        Ok(lines) => return Ok(lines),
        Err(WorldFault::Memory) => return Err(RunFault::Memory),
        Err(WorldFault::Disk) => return Err(RunFault::Disk),
        Err(WorldFault::Reopen) => unreachable!(),
        Err(WorldFault::Damaged { .. }) => unreachable!(),
        Err(WorldFault::HostsSubscriber { broker }) => Report::RefusedHosts {
            line: line.number,
            broker,
        },
        Err(WorldFault::NoFrame { sent }) => {
            Report::RefusedFrame {
                line: line.number,
                frame: frame_of(&line.step),
                sent,
            }
        }
        Err(WorldFault::ClockRange { at }) => Report::RefusedClock {
            line: line.number,
            moment: at,
        },
    };
    Ok(alone(alloc, refusal)?)
}

/// Carries out a step of a schedule, over the disk of the world as its last call left it. Gives the lines that the step
/// tells: the machine's lines, each of which names what the topology has. A step that is refused tells so in its line.
///
/// `Memory` where memory is refused, and `Disk` only where the disk failed in this call; no stop that the step orders
/// is such a failure. After a fault the run is over: the lanes still fit the world, but it may not be stepped any more.
pub fn step<D: SimDisk>(
    alloc: Global,
    world: &mut World,
    disk: &mut D,
    line: &Line,
) -> Result<Reports, RunFault>
    requires going { IsGoing world.old }
    requires step { IsStepOf world.old.topo line.now.step }
    requires lanes { LanesFit (D.lane_of disk.old) world.old }
    ensures tells { IfOk result (Tells line.now world.old world.new) }
    ensures named { IfOk result (AllNamed world.old.topo) }
    ensures topology { world.new.topo ≡ world.old.topo }
    ensures going { OnOk result (IsGoing world.new) }
    ensures cause { IfErr result IsStepFault }
    ensures counts { DiskCounts (D.faults disk.old) (D.stops disk.old) (D.faults disk.new) (D.stops disk.new) result }
    ensures faultless { StaysFaultless (D.faultless disk.old) (D.faultless disk.new)
        (D.faults disk.old) (D.faults disk.new) }
    ensures never_fails { D.faultless disk.old → result ≢ Err RunFault.Disk }
    ensures lanes { LanesFit (D.lane_of disk.new) world.new }
{
    let answer = call(alloc, world, disk, &line.step);
    // Proof only: frames go over edges of a tree, so each line names what is there.
    every_topology_is_a_tree(world.topology());
    match answered(alloc, line, answer) {
        Ok(lines) => Ok(lines),
        Err(fault) => Err(fault),
    }
}
